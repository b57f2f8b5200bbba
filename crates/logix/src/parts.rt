// The test for an envelope, where its parts stand, and what is written around the replies to them.
ghost use Rattle.std.specs.Prelude.{◌≡◌, ◌+◌, ◌-◌, ◌*◌, ◌≤◌, length, get_or};
ghost use Rattle.definition.specs.Bytes.{u16_at};
ghost use Rattle.definition.specs.Reply.{fail, room, not_supported};
ghost use Rattle.definition.specs.Tables.{takes_envelopes};
ghost use Rattle.definition.specs.Envelope.{envelope_service};
ghost use Rattle.cip.specs.Statuses.{status_of};
ghost use Rattle.model.specs.Tables.{flags_of};
ghost use Rattle.logix.specs.Answered.{EnvelopeTest};
ghost use Rattle.logix.specs.Marked.{mark_at};
ghost use Rattle.logix.specs.Placed.{Copied, marked, outcome_of, Closed};

use cip::codes::{ENVELOPE, ROUTER_CLASS, ROUTER_INSTANCE};
use cip::{Status, replies};
use model::Flags;
use path::Request;

/// Where the count stands in a reply: the offsets are counted from there.
const COUNT: usize = replies::HEADER;

/// Behind the count.
pub const OFFSETS: usize = COUNT + 2;

/// What one part came to: its reply's length, and whether its status is 0.
#[derive(Clone, Copy)]
pub struct PartReply {
    pub len: usize,
    pub fine: bool,
}

/// 0x0A on class 0x02 instance 1.
pub fn is_envelope(q: &Request) -> bool
    ensures { EnvelopeTest q.now.service q.now.path.now result }
{
    q.service == ENVELOPE
        && path::object_at(q.path, 0).is_some_and(|o| o.class == ROUTER_CLASS
            && o.instance == ROUTER_INSTANCE)
}

pub fn takes_envelopes(flags: Flags) -> bool
    ensures { result ≡ takes_envelopes (flags_of flags) }
{
    flags.multi_service && !flags.micro800
}

/// The first byte, 0 where there is none.
pub fn first_of(s: &[u8]) -> u8
    ensures { result ≡ get_or s.now 0 0 }
{
    s.first().copied().unwrap_or(0)
}

/// The number of parts that a body starts with.
pub fn count_of(body: &[u8]) -> usize
    requires { 2 ≤ length body.now }
    ensures { (result ≡ u16_at body.now 0) × (result ≤ 65535) }
{
    usize::from(cip::u16_at(body, 0))
}

/// The offset of a part, or the body's end behind the last one.
pub fn mark(body: &[u8], count: usize, i: usize) -> usize
    requires { 2 + 2 * count ≤ length body.now }
    ensures { result ≡ mark_at body.now count i }
{
    if i < count {
        return usize::from(cip::u16_at(body, 2 + 2 * i));
    }
    body.len()
}

/// A part's limit: what is left, less 4 bytes for each part still to come.
pub fn budget_of(limit: usize, used: usize, left: usize) -> usize
    requires { left ≤ 65535 }
    ensures { result ≡ limit - (used + 4 * left) }
{
    limit.saturating_sub(used).saturating_sub(4 * left)
}

/// The offset of the part whose reply starts at `used`; past the limit there is no need of it, and nothing is written.
pub fn put_offset(buf: &mut [u8], limit: usize, used: usize, i: usize)
    requires { (limit ≤ 65535) × (room limit ≤ length buf.old) × (6 + 2 * i + 2 ≤ used) }
    ensures { buf.new ≡ marked limit used i buf.old }
{
    if used <= limit {
        cip::put_u16(buf, OFFSETS + 2 * i, cip::low16(used - COUNT));
    }
}

/// A part's reply, copied to `used` where it fits the limit; else nothing is written.
pub fn place(buf: &mut [u8], limit: usize, used: usize, reply: &[u8]) -> PartReply
    requires { (3 ≤ length reply.now) × (room limit ≤ length buf.old) }
    ensures { Copied reply.now limit used buf.old result buf.new }
{
    if used <= limit && reply.len() <= limit - used {
        cip::copy_into(buf, used, reply);
    }
    PartReply {
        len: reply.len(),
        fine: replies::is_success(reply),
    }
}

/// The answer to a part that is itself an envelope.
pub fn refuse_part(buf: &mut [u8], limit: usize, used: usize) -> PartReply
    requires { room limit ≤ length buf.old }
    ensures { Copied (fail envelope_service not_supported) limit used buf.old result buf.new }
{
    let mut scratch = [0u8; 8];
    let n = cip::fail(&mut scratch, 0, ENVELOPE, Status::NotSupported);
    place(buf, limit, used, &scratch[..n])
}

/// 0x1E if a part's status is not 0.
fn outcome(fine: bool) -> Status
    ensures { status_of result ≡ outcome_of fine }
{
    if fine {
        Status::Success
    } else {
        Status::PartFailed
    }
}

/// The end of an envelope's reply, whose parts stand in the buffer up to `used`.
pub fn close(buf: &mut [u8], limit: usize, count: usize, used: usize, fine: bool) -> usize
    requires { (count ≤ 65535) × (room limit ≤ length buf.old) }
    ensures { Closed limit count used fine buf.old result buf.new }
{
    if limit < used {
        return cip::fail(buf, limit, ENVELOPE, Status::TooLarge);
    }
    cip::put_header(buf, ENVELOPE, outcome(fine));
    cip::put_u16(buf, COUNT, cip::low16(count));
    cip::finish(buf, limit, used)
}
