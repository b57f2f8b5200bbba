// The walk over the symbols of a scope by ascending ID, done before anything is asked for and between two pages.
ghost use Rattle.std.specs.Prelude.{◌≡◌, ◌≤◌, length};
ghost use Rattle.laws.specs.Put.{KeptFrom};
ghost use Rattle.definition.specs.Symbols.{due};
ghost use Rattle.model.specs.Least.{next_in};
ghost use Rattle.model.specs.Tables.{tables_of, SomeValid, WhereValid};
ghost use Rattle.listing.specs.Entries.{page_lent};
ghost use Rattle.listing.specs.Numbers.{numbers_in};
ghost use Rattle.whole.specs.Lists.{behind};
ghost use Rattle.whole.specs.Turns.{due_on, Measured, front, next_id, start_by, StartsAt};

use cip::replies::HEADER;
use listing::pages::{Page, Step, Walk};
use model::Tables;
use model::least::{Bound, Next};

/// The bytes of all entries from a page on, each of which a page can bring; none where one is too long for that. The buffer is used for one
/// entry after the other.
pub fn measure_all(t: &Tables, page: &Page, limit: usize, buf: &mut [u8]) -> Option<usize>
    requires { SomeValid (page_lent (tables_of t.now)) × (4 ≤ limit) × (limit ≤ 65535) × (limit ≤ length buf.old) }
    ensures measured { WhereValid (page_lent (tables_of t.now)) (λ t. Measured (due_on t page.now) limit result) }
    ensures kept { KeptFrom limit buf.old buf.new }
{
    let mut total = 0;
    let mut walk = page.begin();
    loop {
        match page.step(t, walk, limit, buf) {
            Step::More(next) => {
                total += next.used - HEADER;
                walk = Walk {
                    used: HEADER,
                    ..next
                };
            }
            Step::Full => return None,
            Step::Done => return Some(total),
        }
    }
}

/// The same, with a scratch of its own: the reply buffer stays as it was as long as nothing is sent.
pub fn measured(t: &Tables, page: &Page, limit: usize) -> Option<usize>
    requires { SomeValid (page_lent (tables_of t.now)) × (4 ≤ limit) × (limit ≤ 65535) }
    ensures { WhereValid (page_lent (tables_of t.now)) (λ t. Measured (due_on t page.now) limit result) }
{
    let mut scratch = [0u8; 65535];
    measure_all(t, page, limit, &mut scratch)
}

/// The last listed ID plus one, behind a page of so many bytes: its entries are passed once more.
fn next_bound(t: &Tables, page: &Page, size: usize, buf: &mut [u8]) -> u64
    requires { SomeValid (page_lent (tables_of t.now)) × (4 ≤ size) × (size ≤ length buf.old) }
    ensures passed { WhereValid (page_lent (tables_of t.now))
        (λ t. (result ≡ next_id page.now.start.id (front size (due_on t page.now)))
        × (due t page.now.start.scope (numbers_in page.now.numbers) result ≡ behind size (due_on t page.now))) }
    ensures kept { KeptFrom size buf.old buf.new }
{
    let mut walk = page.begin();
    loop {
        match page.step(t, walk, size, buf) {
            Step::More(next) => walk = next,
            Step::Full | Step::Done => return walk.bound,
        }
    }
}

/// A bound has 32 bits where an ID is not below it.
fn start_below(bound: u64, id: u32) -> u32
    requires { bound ≤ id }
    ensures { result ≡ bound }
{
    bound as u32
}

/// The start ID of a page from a bound on that something is due from.
fn start_from(t: &Tables, from: Bound) -> Option<u32>
    ensures { result ≡ start_by from.id (next_in t.now.tags.now t.now.others.now from.scope from.id) }
{
    match t.next_symbol(from)? {
        Next::Tag(next) | Next::Other(next) => Some(start_below(from.id, next.id)),
    }
}

/// The start of the page behind a page of so many bytes; none where nothing is due.
pub fn next_start(t: &Tables, page: &Page, size: usize, buf: &mut [u8]) -> Option<u32>
    requires { SomeValid (page_lent (tables_of t.now)) × (4 ≤ size) × (size ≤ length buf.old) }
    ensures starts { WhereValid (page_lent (tables_of t.now))
        (λ t. StartsAt t page.now.start.scope (numbers_in page.now.numbers) page.now.start.id (front size (due_on t page.now))
        (behind size (due_on t page.now)) result) }
    ensures kept { KeptFrom size buf.old buf.new }
{
    let from = Bound {
        scope: page.start.scope,
        id: next_bound(t, page, size, buf),
    };
    start_from(t, from)
}
