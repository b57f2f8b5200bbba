// Symbol pages: one entry after another by ascending ID, as far as they fit.
ghost use Rattle.std.specs.Prelude.{◌≡◌, ◌+◌, ◌-◌, ◌≤◌, false, length, eqb};
ghost use Rattle.laws.specs.Pick.{both};
ghost use Rattle.definition.specs.Bytes.{part};
ghost use Rattle.definition.specs.Reply.{reply, room};
ghost use Rattle.definition.specs.Tables.{tag_scope, tag_id};
ghost use Rattle.definition.specs.Page.{page_reply};
ghost use Rattle.definition.specs.Symbols.{entry_of, due};
ghost use Rattle.cip.specs.Statuses.{status_of, has_word};
ghost use Rattle.cip.specs.Writes.{Laid};
ghost use Rattle.model.specs.Least.{next_in};
ghost use Rattle.model.specs.Tables.{tables_of, SomeValid, WhereValid};
ghost use Rattle.listing.specs.Numbers.{numbers_in};
ghost use Rattle.listing.specs.Entries.{page_lent, made, entry_by, EntryStep, Stepped, IdsApart, Further, stopped};

use crate::numbers::Numbers;
use crate::symbols::Symbol;
use cip::{Status, replies};
use model::Tables;
use model::columns::{SYMBOL_ID, SYMBOL_SCOPE};
use model::least::{Bound, Listed, Next};

/// Where a page starts: in a scope, at an ID.
#[derive(Clone, Copy)]
pub struct Start {
    pub scope: u32,
    pub id: u32,
}

/// What a page is asked for: where it starts, and the attributes that it lists.
#[derive(Clone, Copy)]
pub struct Page<'a> {
    pub start: Start,
    pub numbers: Numbers<'a>,
}

/// How far a page has come: where its entries end, the least ID of the next one, and the tag to try first.
#[derive(Clone, Copy)]
pub struct Walk {
    pub used: usize,
    pub bound: u64,
    pub hint: usize,
}

/// A step of a page: one entry more; one that does not fit; or nothing due.
#[derive(Clone, Copy)]
pub enum Step {
    More(Walk),
    Full,
    Done,
}

impl<'a> Page<'a> {
    /// The walk that a page begins with. IDs often count from 1 in the order of the table, so the first tag is likely to stand there; any other
    /// place would do.
    pub fn begin(&self) -> Walk
        ensures used { result.used ≡ 4 }
        ensures bound { result.bound ≡ self.now.start.id }
        ensures hint { result.hint ≡ self.now.start.id - 1 }
    {
        Walk {
            used: replies::HEADER,
            bound: u64::from(self.start.id),
            hint: (self.start.id as usize).saturating_sub(1),
        }
    }

    // `SomeValid`, here and in `whole`: the tables lent are those of some valid set. The rest of it is lent to nobody, so no type holds it.

    /// The entry of the least ID not below a bound. Tags mostly stand by ascending ID: after one, the tag behind it is tried first.
    #[tactic(auto, using(crate::proofs::Paged::inside))]
    pub fn step(&self, t: &Tables, walk: Walk, limit: usize, buf: &mut [u8]) -> Step
        requires { SomeValid (page_lent (tables_of t.now)) × (walk.used ≤ limit) × (limit ≤ length buf.old) }
        ensures stepped { WhereValid (page_lent (tables_of t.now))
            (λ t. Stepped t self.now.start.scope (numbers_in self.now.numbers) limit walk.used walk.bound buf.old result buf.new) }
        ensures further { Further walk.used limit result }
    {
        let from = Bound {
            scope: self.start.scope,
            id: walk.bound,
        };
        match next_near(t, from, walk.hint) {
            Some(Next::Tag(tag)) => {
                let symbol = Symbol::of_tag(t, &t.tags[tag.place]);
                let hint = tag.place + 1;
                self.put_entry(&symbol, Walk { hint, ..walk }, limit, buf)
            }
            Some(Next::Other(other)) => {
                let symbol = Symbol::of_other(t, &t.others[other.place]);
                self.put_entry(&symbol, walk, limit, buf)
            }
            None => Step::Done,
        }
    }

    /// A symbol's entry, if it fits.
    fn put_entry(&self, symbol: &Symbol, walk: Walk, limit: usize, buf: &mut [u8]) -> Step
        requires { (length symbol.now.name.now ≤ 4294967295) × (walk.used ≤ limit) × (limit ≤ length buf.old) }
        ensures entry { EntryStep (entry_of (numbers_in self.now.numbers) (made symbol.now)) limit walk.used buf.old result buf.new }
        ensures further { Further walk.used limit result }
    {
        self.entry_step(symbol.id, symbol, walk, limit, buf)
    }

    /// A symbol's entry, if it fits, listed by any ID: the next one's is above that.
    pub fn entry_step(
        &self,
        id: u32,
        symbol: &Symbol,
        walk: Walk,
        limit: usize,
        buf: &mut [u8],
    ) -> Step
        requires { (length symbol.now.name.now ≤ 4294967295) × (walk.used ≤ limit) × (limit ≤ length buf.old) }
        ensures entry { EntryStep (entry_by id (numbers_in self.now.numbers) (made symbol.now)) limit walk.used buf.old result buf.new }
        ensures further { Further walk.used limit result }
    {
        if limit - walk.used < symbol.entry_size(&self.numbers) {
            return Step::Full;
        }
        cip::put_u32(buf, walk.used, symbol.id);
        Step::More(Walk {
            used: symbol.put_attributes(&self.numbers, buf, walk.used + 4),
            bound: u64::from(id) + 1,
            ..walk
        })
    }

    /// As many entries as fit; 0x06 before one that does not fit, 0x11 if the first does not.
    pub fn put(&self, t: &Tables, service: u8, limit: usize, buf: &mut [u8]) -> usize
        requires { SomeValid (page_lent (tables_of t.now)) × (room limit ≤ length buf.old) }
        ensures { WhereValid (page_lent (tables_of t.now))
            (λ t. Laid limit (page_reply service (due t self.now.start.scope (numbers_in self.now.numbers) self.now.start.id) limit) buf.old
            result buf.new) }
    {
        let end = limit.max(replies::HEADER);
        let mut walk = self.begin();
        loop {
            match self.step(t, walk, end, buf) {
                Step::More(next) => walk = next,
                Step::Full => return stop(service, walk.used, limit, buf),
                Step::Done => return close(service, Status::Success, walk.used, limit, buf),
            }
        }
    }
}

/// Whether a tag's scope and ID are those looked for.
fn is_at(row: &[u32; 12], from: Bound) -> bool
    ensures { result ≡ both (eqb (tag_scope row.now) from.scope) (eqb (tag_id row.now) from.id) }
{
    row[SYMBOL_SCOPE] == from.scope && u64::from(row[SYMBOL_ID]) == from.id
}

/// The symbol of the least ID not below a bound. The tag at the hint is it if its ID is the bound itself: none due can be less,
/// and no other symbol of the scope has that ID. Else it is searched for.
#[tactic(auto, using(crate::proofs::Hinted::hint_next))]
fn next_near(t: &Tables, from: Bound, hint: usize) -> Option<Next>
    requires { IdsApart t.now.tags.now t.now.others.now }
    ensures { result ≡ next_in t.now.tags.now t.now.others.now from.scope from.id }
{
    match t.tags.get(hint) {
        Some(row) if is_at(row, from) => Some(Next::Tag(Listed {
            place: hint,
            id: row[SYMBOL_ID],
        })),
        _ => t.next_symbol(from),
    }
}

/// A reply whose data stand in the buffer already, behind the place of its header.
fn close(service: u8, status: Status, used: usize, limit: usize, buf: &mut [u8]) -> usize
    requires { (4 ≤ used) × (used ≤ room limit) × (room limit ≤ length buf.old) × (has_word (status_of status) ≡ false) }
    ensures { Laid limit (reply service (status_of status) (part buf.old 4 (used - 4))) buf.old result buf.new }
{
    cip::put_header(buf, service, status);
    cip::finish(buf, limit, used)
}

/// A page whose next entry does not fit: 0x06, or 0x11 if that is the first.
fn stop(service: u8, used: usize, limit: usize, buf: &mut [u8]) -> usize
    requires { (4 ≤ used) × (used ≤ room limit) × (room limit ≤ length buf.old) }
    ensures { Laid limit (stopped service used buf.old) buf.old result buf.new }
{
    if used == replies::HEADER {
        return cip::fail(buf, limit, service, Status::TooLarge);
    }
    close(service, Status::Partial, used, limit, buf)
}
