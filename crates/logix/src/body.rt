// An envelope's body: a count, as many offsets, and the parts.
ghost use Rattle.std.specs.Prelude.{◌≡◌, true, ◌+◌, ◌*◌, ◌≤◌, ◌<◌, length, drop, map};
ghost use Rattle.laws.specs.Pick.{is_some};
ghost use Rattle.definition.specs.Bytes.{u16_at, numbers};
ghost use Rattle.definition.specs.Envelope.{ascending, parts_of};
ghost use Rattle.listing.specs.Numbers.{word};
ghost use Rattle.logix.specs.Marked.{mark_at, PartOf};

use crate::parts;
use listing::numbers::Numbers;

/// An envelope's body that has as many parts as it says, with their offsets, two bytes each: these start behind themselves, do not fall back and
/// do not pass the end.
#[derive(Clone, Copy)]
pub struct Parts<'a> {
    pub body: &'a [u8],
    pub offsets: &'a [[u8; 2]],
    pub ghost there: { is_some (parts_of body.now) ≡ true },
    pub ghost counted: { length offsets.now ≡ u16_at body.now 0 },
    pub ghost read: { map word offsets.now ≡ numbers (length offsets.now) (drop 2 body.now) },
}

/// Whether offsets start behind themselves, do not fall back and do not pass the end.
fn in_order(offsets: &[[u8; 2]], end: usize) -> bool
    requires { length offsets.now ≤ 65535 }
    ensures { result ≡ ascending (2 + 2 * length offsets.now) (map word offsets.now) end }
{
    let mut at = 2 + 2 * offsets.len();
    for pair in offsets {
        let next = usize::from(u16::from_le_bytes(*pair));
        if next < at {
            return false;
        }
        at = next;
    }
    at <= end
}

impl<'a> Parts<'a> {
    ghost use Rattle.logix.specs.Counted.{HasParts};

    /// The parts of a body, if it has as many as it says.
    pub fn of(body: &'a [u8]) -> Option<Parts<'a>>
        ensures { HasParts body.now result }
    {
        let offsets = Numbers::read(body)?.pairs;
        if !in_order(offsets, body.len()) {
            return None;
        }
        Some(Parts { body, offsets })
    }

    /// The offset of a part, or the body's end behind the last one.
    fn mark(&self, i: usize) -> usize
        ensures { result ≡ mark_at self.now.body.now (length self.now.offsets.now) i }
    {
        parts::mark(self.body, self.offsets.len(), i)
    }

    /// A part's bytes.
    pub fn part(&self, i: usize) -> &'a [u8]
        requires { i < length self.now.offsets.now }
        ensures { PartOf self.now.body.now (length self.now.offsets.now) i result.now }
    {
        let start = self.mark(i);
        let end = self.mark(i + 1);
        &self.body[start..end]
    }
}
