// The whole read: a continued read done by the program itself, until all of what is selected is joined. The whole list of a scope's
// symbols is done alike in `lists`.
#![tactic(auto)]

pub mod asked;
pub mod joins;
pub mod lists;
pub mod pages;
pub mod requests;
pub mod sizes;
pub mod walks;

ghost use Rattle.std.specs.Prelude.{◌≡◌, ◌≤◌, length};
ghost use Rattle.model.specs.Tables.{tables_of, flags_of};
ghost use Rattle.whole.specs.Whole.{word_in, status_in, code_of, received, whole_of, whole_read};
ghost use Rattle.whole.specs.Parts.{chosen_in, reply_at, ReadTaken};

use crate::asked::Asked;
use crate::requests::Read;
use logix::entry::{self, Refusal};
use model::Controller;

/// The general status of a reply, and its extended word where it has one.
#[derive(Clone, Copy)]
pub struct ReplyStatus {
    pub general: u8,
    pub word: Option<u16>,
}

impl ReplyStatus {
    /// The status of a reply that lies at the start of a buffer.
    pub fn of(reply: &[u8]) -> ReplyStatus
        requires { 8 ≤ length reply.now }
        ensures { result ≡ status_in reply.now }
    {
        ReplyStatus {
            general: reply[2],
            word: word_in(reply),
        }
    }

    /// The general status, plus 256 times the extended word where there is one.
    pub fn code(self) -> u32
        ensures { result ≡ code_of self }
    {
        u32::from(self.general) + 256 * u32::from(self.word.unwrap_or(0))
    }
}

#[tactic(auto, using(laws::proofs::Chain::chain), unfolding(crate::specs::Whole::word_in))]
fn word_in(reply: &[u8]) -> Option<u16>
    requires { 8 ≤ length reply.now }
    ensures { result ≡ word_in reply.now }
{
    if reply[3] == 0 {
        return None;
    }
    Some(cip::u16_at(reply, 4))
}

/// Why nothing was joined: the error of a `Result`.
#[derive(Clone, Copy)]
pub enum Unjoined {
    /// The lent buffer is shorter than these bytes.
    TooShort(usize),
    /// The limit leaves no room behind the header for a byte, or for the longest entry.
    TooNarrow,
    /// The controller turns the first request away.
    Turned(ReplyStatus),
    /// The entry refuses the limit, the reply buffer or the tables.
    Refused(Refusal),
    /// A path of an odd number of bytes or of more than 255 words; a program's name of more than 255 bytes, or a list of attributes of
    /// more than 1,024.
    Unsendable,
}

// So that `?` passes a refusal on.
impl From<Refusal> for Unjoined {
    ghost use Rattle.whole.specs.declared.Unjoined.TheVariants.{Refused};

    ghost from_gives = { λ why unjoined. unjoined ≡ Refused why };

    fn from(why: Refusal) -> Unjoined {
        Unjoined::Refused(why)
    }
}

/// A whole read that the entry takes.
fn read_sendable(
    c: &Controller,
    memory: &mut [u8],
    read: &Read,
    limit: usize,
    buf: &mut [u8],
    out: &mut [u8],
) -> Result<usize, Unjoined>
    requires { ReadTaken c.now memory.old read.now limit (length buf.old) }
    ensures whole { received result out.new buf.new ≡ whole_of (chosen_in c.now read.now) (reply_at c.now memory.old read.now 0 limit)
        memory.old limit buf.old out.old }
    ensures memory { memory.new ≡ memory.old }
{
    let Some(size) = sizes::selected_size(c, memory, read) else {
        let status = read.first_status(c, memory, limit, buf);
        return Err(Unjoined::Turned(status));
    };
    if limit < 5 + size.header {
        return Err(Unjoined::TooNarrow);
    }
    if out.len() < size.bytes {
        return Err(Unjoined::TooShort(size.bytes));
    }
    Ok(joins::join_all(c, memory, read, size.header, limit, buf, out))
}

/// Reads all of what a path and an element count select into `out`: sends reads at the number of bytes
/// received and joins their data until status 0, and returns how many bytes they are; or says why not. `buf` is the reply buffer: the last
/// reply stays in it. A read and a list are two functions for C, each held to a definition of its own.
pub fn read_whole(
    c: &Controller,
    memory: &mut [u8],
    read: &Read,
    limit: usize,
    buf: &mut [u8],
    out: &mut [u8],
) -> Result<usize, Unjoined>
    ensures whole { received result out.new buf.new ≡ whole_read (tables_of c.now.tables) (flags_of c.now.flags) memory.old
        read.now.path.now read.now.elements limit buf.old out.old }
    ensures memory { memory.new ≡ memory.old }
{
    if !read.is_sendable() {
        return Err(Unjoined::Unsendable);
    }
    entry::enter(c, memory, limit, buf)?;
    read_sendable(c, memory, read, limit, buf, out)
}
