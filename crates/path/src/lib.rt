// Decoding request paths: segments by a table of their first bytes, whole paths, requests, tag paths and program names.
// A segment is decoded in the order of CIP Volume 1: its type (`segment_at`), then its format, then its value with its pad (`value_at`).
#![tactic(auto)]

ghost use Rattle.std.specs.Prelude.{◌≡◌, true, ◌+◌, ◌≤◌, length};
ghost use Rattle.laws.specs.Pick.{is_some};
ghost use Rattle.definition.specs.Names.{same_byte, same_name, is_program_name};
ghost use Rattle.path.specs.Paths.{is_upper_of};
ghost use Rattle.definition.specs.Segment.{segment_at, segments_from};
ghost use Rattle.path.specs.First.{bits_of, logical_of};
ghost use Rattle.path.specs.Paths.{segment_of, Decoded, ValueAt, NameAt, LinkAt, tag_path_from, instance_in, AfterProgram, ObjectAt, Splits};

pub mod reader;
pub mod request;
pub mod table;

pub use request::Request;
use table::{First, Format, Logical};

/// A segment of a path. No service minds a port's number or link, so a port is known by its end alone.
#[derive(Clone, Copy)]
pub enum Segment<'a> {
    Port,
    Class(u32),
    Instance(u32),
    Element(u32),
    Attribute(u32),
    /// By its name.
    Symbol(&'a [u8]),
}

/// A segment, and the position of the next one.
#[derive(Clone, Copy)]
pub struct Step<'a> {
    pub segment: Segment<'a>,
    pub next: usize,
}

// ---- the segment type

/// The segment at a position; none where it is invalid or cut short, or where the path has ended.
pub fn segment_at<'a>(path: &'a [u8], at: usize) -> Option<Step<'a>>
    ensures { Decoded path.now at result }
{
    let first = table::first_of(*path.get(at)?)?;
    let behind = at + 1;
    match first {
        First::Port { numbered, sized } => {
            let link = if numbered { behind + 2 } else { behind };
            let next = link_end(path, link, sized)?;
            Some(Step {
                segment: Segment::Port,
                next,
            })
        }
        First::Logical(logical, format) => {
            let (value, next) = value_at(path, behind, format)?;
            Some(Step {
                segment: logical_segment(logical, value),
                next,
            })
        }
        First::Symbol => {
            let (name, next) = sized_at(path, behind)?;
            Some(Step {
                segment: Segment::Symbol(name),
                next,
            })
        }
    }
}

// ---- a logical segment: its format, then its value with its pad

fn logical_segment<'a>(logical: Logical, value: u32) -> Segment<'a>
    ensures { segment_of result ≡ logical_of logical value }
{
    match logical {
        Logical::Class => Segment::Class(value),
        Logical::Instance => Segment::Instance(value),
        Logical::Element => Segment::Element(value),
        Logical::Attribute => Segment::Attribute(value),
    }
}

/// The value by its format, and the position behind it: 8 bits, a pad and 16, a pad and 32; the reserved format has none. A pad may hold anything.
fn value_at(path: &[u8], at: usize, format: Format) -> Option<(u32, usize)>
    requires { at ≤ length path.now }
    ensures { ValueAt path.now at (bits_of format) result }
{
    let rest = path.len() - at;
    match format {
        Format::Bits8 if 1 <= rest => Some((u32::from(path[at]), at + 1)),
        Format::PadAnd16 if 3 <= rest => Some((u32::from(cip::u16_at(path, at + 1)), at + 3)),
        Format::PadAnd32 if 5 <= rest => Some((cip::u32_at(path, at + 1), at + 5)),
        _ => None,
    }
}

// ---- a size, then as many bytes with their pad

/// The bytes behind their size, and the position behind them and their pad, which stands behind an odd number of them.
fn sized_at<'a>(path: &'a [u8], at: usize) -> Option<(&'a [u8], usize)>
    ensures { NameAt path.now at result }
{
    let size = usize::from(*path.get(at)?);
    let start = at + 1;
    let next = start + (size + size % 2);
    if path.len() < next {
        return None;
    }
    Some((&path[start..start + size], next))
}

/// The position behind a port's link: one link byte, or a size and as many.
fn link_end(path: &[u8], at: usize, sized: bool) -> Option<usize>
    ensures { LinkAt path.now at sized result }
{
    if sized {
        let (_, next) = sized_at(path, at)?;
        return Some(next);
    }
    if at < path.len() { Some(at + 1) } else { None }
}

// ---- requests

/// A message as a request; none where its path is not there or does not decode.
pub fn request_of<'a>(message: &'a [u8]) -> Option<Request<'a>>
    ensures { Splits message.now result }
{
    let (service, words) = (*message.first()?, *message.get(1)?);
    let path = message.get(2..2 + 2 * usize::from(words))?;
    reader::count_segments(path)?;
    Some(Request {
        service,
        path,
        body: &message[2 + path.len()..],
    })
}

// ---- names

/// Whether a byte is one of A to Z, and another the same letter in lower case.
fn is_upper_of(x: u8, y: u8) -> bool
    ensures { result ≡ is_upper_of x y }
{
    x.is_ascii_uppercase() && x + 0x20 == y
}

/// Digits, in which the names of a plant mostly differ, are told apart at once.
fn same_byte(x: u8, y: u8) -> bool
    ensures { result ≡ same_byte x y }
{
    x == y || is_upper_of(x, y) || is_upper_of(y, x)
}

/// Whether names of one length agree, ignoring the case of A to Z.
fn agree(a: &[u8], b: &[u8]) -> bool
    requires { length a.now ≡ length b.now }
    ensures { result ≡ same_name a.now b.now }
{
    a.iter().zip(b).all(|(x, y)| same_byte(*x, *y))
}

/// Whether two names agree, ignoring the case of A to Z. Their second halves are compared first: a plant's names often begin alike and count behind that.
pub fn same_name(a: &[u8], b: &[u8]) -> bool
    ensures { result ≡ same_name a.now b.now }
{
    if a.len() != b.len() {
        return false;
    }
    let middle = a.len() / 2;
    agree(&a[middle..], &b[middle..]) && agree(&a[..middle], &b[..middle])
}

/// What a program's name starts with, in any case.
pub const PROGRAM_PREFIX: [u8; 8] = *b"program:";

/// `program:`, case ignored, and at least one byte more.
pub fn is_program_name(name: &[u8]) -> bool
    ensures { result ≡ is_program_name name.now }
{
    name.len() > PROGRAM_PREFIX.len() && same_name(&name[..PROGRAM_PREFIX.len()], &PROGRAM_PREFIX)
}

/// A program's name without its prefix; none for any other name.
#[tactic(auto, using(crate::proofs::ProgramNames::named))]
pub fn after_program(name: &[u8]) -> Option<&[u8]>
    ensures { AfterProgram name.now result }
{
    if !is_program_name(name) {
        return None;
    }
    Some(&name[PROGRAM_PREFIX.len()..])
}

// ---- tag paths and objects

/// The tag path test on the segments from a position on, all of which decode. It is handed a path before and behind its program's name.
pub fn is_tag_path(path: &[u8], at: usize) -> bool
    requires { is_some (segments_from path.now at) ≡ true }
    ensures { result ≡ tag_path_from path.now at }
{
    let Some(step) = segment_at(path, at) else {
        return false;
    };
    match step.segment {
        Segment::Symbol(name) if step.next < path.len() && is_program_name(name) => {
            is_tag_path(path, step.next)
        }
        Segment::Symbol(_) => true,
        Segment::Class(class) => {
            class == cip::codes::SYMBOL_CLASS && instance_at(path, step.next).is_some()
        }
        _ => false,
    }
}

/// A path's class and instance, and where what follows them starts.
#[derive(Clone, Copy)]
pub struct Object {
    pub class: u32,
    pub instance: u32,
    pub next: usize,
}

/// The instance segment at a position, and where what follows it starts.
fn instance_at(path: &[u8], at: usize) -> Option<(u32, usize)>
    ensures { result ≡ instance_in (segment_at path.now at) }
{
    let step = segment_at(path, at)?;
    let Segment::Instance(instance) = step.segment else {
        return None;
    };
    Some((instance, step.next))
}

/// The object that the segments from a position on start with, all of which decode.
pub fn object_at(path: &[u8], at: usize) -> Option<Object>
    requires { is_some (segments_from path.now at) ≡ true }
    ensures { ObjectAt path.now at result }
{
    let step = segment_at(path, at)?;
    let Segment::Class(class) = step.segment else {
        return None;
    };
    let (instance, next) = instance_at(path, step.next)?;
    Some(Object {
        class,
        instance,
        next,
    })
}
