// The dispatcher of requests, in mutual recursion with the handler of an envelope of requests.
#![tactic(auto)]

pub mod body;
pub mod entry;
pub mod parts;

ghost use Rattle.std.specs.Prelude.{◌≡◌, true, ◌-◌, ◌≤◌, length};
ghost use Rattle.definition.specs.Reply.{room};
ghost use Rattle.definition.specs.Valid.{valid};
ghost use Rattle.definition.specs.Envelope.{envelope, part_answer};
ghost use Rattle.definition.specs.Answer.{part_dispatch, answer};
ghost use Rattle.model.specs.Tables.{tables_of, flags_of};
ghost use Rattle.services.specs.Answers.{Answers};
ghost use Rattle.logix.specs.Placed.{PartAnswers};

use body::Parts;
use cip::Status;
use cip::codes::ENVELOPE;
use model::Controller;
use parts::PartReply;

/// The answer to a message.
// That the tables are judged is a clause here and wherever they are lent with tag memory: a type for judged tables would leave one as long, of the
// memory's length. A limit is a `usize`, as the entry takes it.
#[cycle(dispatch_multi_service_part)]
pub fn dispatch(
    c: &Controller,
    memory: &mut [u8],
    message: &[u8],
    limit: usize,
    buf: &mut [u8],
) -> usize
    requires judged { valid (tables_of c.now.tables) (length memory.old) ≡ true }
    requires limit { limit ≤ 65535 }
    requires room { room limit ≤ length buf.old }
    ensures { Answers limit (answer (tables_of c.now.tables) (flags_of c.now.flags) memory.old message.now limit)
        buf.old result buf.new memory.new }
{
    let Some(q) = path::request_of(message) else {
        return cip::fail(buf, limit, parts::first_of(message), Status::PathError);
    };
    if parts::is_envelope(&q) {
        return multi_service(c, memory, q.body, limit, buf);
    }
    services::plain(c, memory, &q, limit, buf)
}

/// An envelope: each part is answered on the memory that the one before it left.
#[cycle(dispatch_multi_service_part)]
fn multi_service(
    c: &Controller,
    memory: &mut [u8],
    body: &[u8],
    limit: usize,
    buf: &mut [u8],
) -> usize
    requires judged { valid (tables_of c.now.tables) (length memory.old) ≡ true }
    requires limit { limit ≤ 65535 }
    requires room { room limit ≤ length buf.old }
    ensures { Answers limit
        (envelope (flags_of c.now.flags) (part_dispatch (tables_of c.now.tables) (flags_of c.now.flags)) memory.old body.now limit)
        buf.old result buf.new memory.new }
{
    if !parts::takes_envelopes(c.flags) {
        return cip::fail(buf, limit, ENVELOPE, Status::NotSupported);
    }
    let Some(parts) = Parts::of(body) else {
        return cip::fail(buf, limit, ENVELOPE, Status::TooShort);
    };
    let count = parts.offsets.len();
    let mut used = parts::OFFSETS + 2 * count;
    let mut fine = true;
    // by numbers: where a part's offset stands, and how many parts are behind it, is said by its number
    for i in 0..count {
        parts::put_offset(buf, limit, used, i);
        let budget = parts::budget_of(limit, used, count - i - 1);
        let r = part(c, memory, parts.part(i), budget, limit, used, buf);
        used += r.len;
        fine &= r.fine;
    }
    parts::close(buf, limit, count, used, fine)
}

/// One part of an envelope, with `used` bytes of the reply before it: in place where its own limit is 8 bytes or more, else
/// through a scratch of 8 bytes, since the zeros behind a reply reach that far.
#[cycle(dispatch_multi_service_part)]
fn part(
    c: &Controller,
    memory: &mut [u8],
    p: &[u8],
    budget: usize,
    limit: usize,
    used: usize,
    buf: &mut [u8],
) -> PartReply
    requires judged { valid (tables_of c.now.tables) (length memory.old) ≡ true }
    requires limit { limit ≤ 65535 }
    requires budget { budget ≤ limit - used }
    requires room { room limit ≤ length buf.old }
    ensures { PartAnswers (part_answer (part_dispatch (tables_of c.now.tables) (flags_of c.now.flags)) memory.old p.now budget)
        budget limit used buf.old result buf.new memory.new }
{
    if parts::first_of(p) == ENVELOPE {
        return parts::refuse_part(buf, limit, used);
    }
    if 8 <= budget {
        let len = dispatch(c, memory, p, budget, &mut buf[used..]);
        return PartReply {
            len,
            fine: cip::replies::is_success(&buf[used..]),
        };
    }
    let mut scratch = [0u8; 8];
    let n = dispatch(c, memory, p, budget, &mut scratch);
    parts::place(buf, limit, used, &scratch[..n])
}
