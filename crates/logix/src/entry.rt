// The entry: items 1 to 4, and the answer behind them.
ghost use Rattle.std.specs.Prelude.{◌≡◌, true, ◌≤◌, length};
ghost use Rattle.definition.specs.Reply.{room};
ghost use Rattle.definition.specs.Valid.{valid};
ghost use Rattle.definition.specs.Answer.{answer as answer_of};
ghost use Rattle.definition.specs.Entry.{entry as entry_of};
ghost use Rattle.model.specs.Tables.{tables_of, flags_of};
ghost use Rattle.services.specs.Answers.{Answers};
ghost use Rattle.logix.specs.Entering.{number_of, entered, Enters};

use cip::codes::MOST;
use model::Controller;

/// Why a message gets no reply; nothing was changed.
#[derive(Clone, Copy)]
pub enum Refusal {
    RequestTooLong = 1,
    LimitTooLarge = 2,
    BufferTooShort = 3,
    TablesInvalid = 4,
}

impl Refusal {
    /// Document 01's number: the variant's own, with the clause that callers cite.
    pub fn number(self) -> u64
        ensures number { result ≡ number_of self }
        ensures small { result ≤ 4 }
    {
        self as u64
    }
}

/// Answers a request over tables that were judged valid; returns the reply's length.
pub fn answer(
    c: &Controller,
    memory: &mut [u8],
    request: &[u8],
    limit: usize,
    buf: &mut [u8],
) -> usize
    requires request { length request.now ≤ 65535 }
    requires limit { limit ≤ 65535 }
    requires room { room limit ≤ length buf.old }
    requires judged { valid (tables_of c.now.tables) (length memory.old) ≡ true }
    ensures { Answers limit (answer_of (tables_of c.now.tables) (flags_of c.now.flags) memory.old request.now limit)
        buf.old result buf.new memory.new }
{
    crate::dispatch(c, memory, request, limit, buf)
}

/// The refusals that are no matter of the request, in their order.
pub fn enter(c: &Controller, memory: &[u8], limit: usize, buf: &[u8]) -> Result<(), Refusal>
    ensures { result ≡ entered (tables_of c.now.tables) (length memory.now) limit (length buf.now) }
{
    if limit > MOST {
        return Err(Refusal::LimitTooLarge);
    }
    if buf.len() < cip::room_of(limit) {
        return Err(Refusal::BufferTooShort);
    }
    if !tables::valid(&c.tables, memory) {
        return Err(Refusal::TablesInvalid);
    }
    Ok(())
}

/// Answers any request over any tables, or refuses it and changes nothing.
pub fn message(
    c: &Controller,
    memory: &mut [u8],
    request: &[u8],
    limit: usize,
    buf: &mut [u8],
) -> Result<usize, Refusal>
    ensures { Enters (entry_of (tables_of c.now.tables) (flags_of c.now.flags) memory.old request.now limit buf.old)
        result buf.new memory.new }
{
    if request.len() > MOST {
        return Err(Refusal::RequestTooLong);
    }
    enter(c, memory, limit, buf)?;
    Ok(answer(c, memory, request, limit, buf))
}
