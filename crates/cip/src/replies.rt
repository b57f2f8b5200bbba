// Replies that carry data, and refusals that item 20 may turn into 0x11.
ghost use Rattle.std.specs.Prelude.{◌≡◌, false, ◌+◌, ◌-◌, ◌≤◌, eqb, length, get_or};
ghost use Rattle.definition.specs.Reply.{reply, fail, room};
ghost use Rattle.definition.specs.Answer.{capped};
ghost use Rattle.cip.specs.Statuses.{status_of, has_word};
ghost use Rattle.cip.specs.Writes.{Laid};

use crate::Status;

/// The header of a reply without an extended word.
pub const HEADER: usize = 4;

/// A status and its data. A type for the statuses without a word, of which the clause is, would be a second enum of statuses.
pub fn send(bytes: &[u8], service: u8, status: Status, limit: usize, buf: &mut [u8]) -> usize
    requires { (4 + length bytes.now ≤ room limit) × (room limit ≤ length buf.old) × (has_word (status_of status) ≡ false) }
    ensures { Laid limit (reply service (status_of status) bytes.now) buf.old result buf.new }
{
    crate::put_header(buf, service, status);
    crate::copy_into(buf, HEADER, bytes);
    crate::finish(buf, limit, HEADER + bytes.len())
}

/// A status without an extended word, or 0x11 where even that exceeds the limit.
pub fn refuse(service: u8, status: Status, limit: usize, buf: &mut [u8]) -> usize
    requires { (room limit ≤ length buf.old) × (has_word (status_of status) ≡ false) }
    ensures { Laid limit (capped service limit (fail service (status_of status))) buf.old result buf.new }
{
    if limit < HEADER {
        return crate::fail(buf, limit, service, Status::TooLarge);
    }
    crate::fail(buf, limit, service, status)
}

/// What a header leaves of a limit.
pub fn space_of(limit: usize) -> usize
    ensures { result ≡ limit - 4 }
{
    limit.saturating_sub(HEADER)
}

/// Whether a reply's general status, its third byte, is Success.
pub fn is_success(reply: &[u8]) -> bool
    requires { 3 ≤ length reply.now }
    ensures { result ≡ eqb (get_or reply.now 2 0) 0 }
{
    reply[2] == 0
}
