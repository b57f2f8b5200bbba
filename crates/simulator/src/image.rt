// A table image (IMAGE.md): a head with the counts, the rows, the stores and the tag memory.
ghost use Rattle.std.specs.Prelude.{◌≡◌, ◌+◌, ◌%◌, ◌≤◌, length, ◌==◌, IfOk};
ghost use Rattle.definition.specs.Bytes.{u32_at};
ghost use Rattle.simulator.specs.Images.{HeadIn, rows_size, stores_size, image_size};

use crate::head::Head;
use crate::run::Run;
use input::image_rows;
use model::limits::{BYTES, MEMBERS, OTHERS, PROGRAMS, STRUCTURES, TAGS};
use model::{Controller, Tables};
use std::io::Read;
use std::{fmt, io};

/// The bytes of the largest stores of names: 40 for each row, and 8 more for another symbol's prefix.
const NAMES: usize = 40 * (STRUCTURES + MEMBERS + PROGRAMS) + 48 * OTHERS;

const TAG_NAMES: usize = 40 * TAGS;

/// The bytes of the largest image.
pub const LARGEST: usize = 48
    + 40 * STRUCTURES
    + 36 * MEMBERS
    + 8 * PROGRAMS
    + 48 * TAGS
    + 20 * OTHERS
    + NAMES
    + TAG_NAMES
    + 2 * BYTES;

/// Why an image is not taken: the error of a `Result`.
#[derive(Clone, Copy)]
enum Fault {
    NoMagic,
    NoHead,
    /// A count, of what, and the most that a controller takes.
    Over(usize, &'static str, usize),
    Short,
    Long,
}

impl fmt::Display for Fault {
    fn fmt<W: fmt::Write>(&self, f: &mut fmt::Formatter<W>) -> fmt::Result {
        match *self {
            Fault::NoMagic => f.write_str("it does not begin with CIPLINK1"),
            Fault::NoHead => f.write_str("it is shorter than its head of 48 bytes"),
            Fault::Over(n, what, most) => write!(f, "{n} {what}, at most {most}"),
            Fault::Short => f.write_str("it is shorter than its counts ask"),
            Fault::Long => f.write_str("it has bytes behind its tag memory"),
        }
    }
}

/// A count of the head, of what, which is no more than what a controller takes.
fn count(image: &[u8], at: usize, what: &'static str, most: usize) -> Result<usize, Fault>
    requires { at + 4 ≤ length image.now }
    ensures { IfOk result (λ n. (n ≡ u32_at image.now at) × (n ≤ most)) }
{
    let n = cip::u32_at(image, at) as usize;
    if n <= most {
        Ok(n)
    } else {
        Err(Fault::Over(n, what, most))
    }
}

impl Head {
    /// The first count that is too large is told.
    fn of(image: &[u8]) -> Result<Head, Fault>
        requires { 48 ≤ length image.now }
        ensures { IfOk result (λ h. HeadIn image.now h) }
    {
        Ok(Head {
            flags: cip::u32_at(image, 8),
            structures: count(image, 12, "structures", STRUCTURES)?,
            members: count(image, 16, "members", MEMBERS)?,
            programs: count(image, 20, "programs", PROGRAMS)?,
            tags: count(image, 24, "tags", TAGS)?,
            others: count(image, 28, "other symbols", OTHERS)?,
            names: count(image, 32, "bytes of names", NAMES)?,
            tag_names: count(image, 36, "bytes of tag names", TAG_NAMES)?,
            templates: count(image, 40, "bytes of templates", BYTES)?,
            memory: count(image, 44, "bytes of tag memory", BYTES)?,
        })
    }

    /// The bytes of the head and the rows.
    fn rows_size(self) -> usize
        ensures { result ≡ rows_size self }
    {
        48 + 40 * self.structures
            + 36 * self.members
            + 8 * self.programs
            + 48 * self.tags
            + 20 * self.others
    }

    fn size(self) -> usize
        ensures { result ≡ image_size self }
    {
        self.rows_size() + self.names + self.tag_names + self.templates + self.memory
    }
}

/// The head of a whole image, whose counts a controller takes.
fn head_of(image: &[u8]) -> Result<Head, Fault>
    ensures head { IfOk result (λ h. HeadIn image.now h) }
    ensures whole { IfOk result (λ h. length image.now ≡ image_size h) }
{
    if !image.starts_with(b"CIPLINK1") {
        return Err(Fault::NoMagic);
    }
    if image.len() < 48 {
        return Err(Fault::NoHead);
    }
    let h = Head::of(image)?;
    if image.len() < h.size() {
        return Err(Fault::Short);
    }
    if image.len() > h.size() {
        return Err(Fault::Long);
    }
    Ok(h)
}

impl<'a, R: Read, T: Print, E: Print> Run<'a, R, T, E> {
    /// The session over a controller and tag memory that begins as an image has it.
    fn open_with(self, c: &Controller, image: &[u8]) -> io::Result<()>
        requires { length image.now ≤ 65536 }
    {
        let mut memory = [0u8; BYTES];
        let memory = &mut memory[..image.len()];
        memory.copy_from_slice(image);
        self.open(c, memory)
    }

    /// The controller of a whole image: the stores and the tag memory stand behind the rows.
    fn load(self, h: Head, image: &[u8]) -> io::Result<()>
        requires { length image.now ≡ image_size h }
    {
        let (structures, rest) = image[48..].split_at(40 * h.structures);
        let (members, rest) = rest.split_at(36 * h.members);
        let (programs, rest) = rest.split_at(8 * h.programs);
        let (tags, rest) = rest.split_at(48 * h.tags);
        let (others, rest) = rest.split_at(20 * h.others);
        let (names, rest) = rest.split_at(h.names);
        let (tag_names, rest) = rest.split_at(h.tag_names);
        let (templates, memory) = rest.split_at(h.templates);
        let structures = image_rows::rows::<10, STRUCTURES>(structures, 0, h.structures);
        let members = image_rows::rows::<9, MEMBERS>(members, 0, h.members);
        let programs = image_rows::rows::<2, PROGRAMS>(programs, 0, h.programs);
        let tags = image_rows::rows::<12, TAGS>(tags, 0, h.tags);
        let others = image_rows::rows::<5, OTHERS>(others, 0, h.others);
        let c = Controller {
            tables: Tables {
                structures: &structures[..h.structures],
                members: &members[..h.members],
                programs: &programs[..h.programs],
                tags: &tags[..h.tags],
                others: &others[..h.others],
                names,
                tag_names,
                templates,
            },
            flags: h.flags.into(),
        };
        self.open_with(&c, memory)
    }

    /// Serves the tables of an image as the options ask, or says what is wrong with it.
    pub fn serve_image(self, image: &[u8]) -> io::Result<()> {
        match head_of(image) {
            Ok(h) => self.load(h, image),
            Err(fault) => println!(self.err; "table image: {fault}"),
        }
    }
}
