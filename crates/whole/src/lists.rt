// The whole list: continued symbol pages asked for by the program itself, until all entries of a scope are joined.
ghost use Rattle.std.specs.Prelude.{◌≡◌, ◌≤◌, length};
ghost use Rattle.model.specs.Tables.{tables_of, flags_of};
ghost use Rattle.whole.specs.Whole.{received};
ghost use Rattle.whole.specs.Lists.{scope_of, entries_of, whole_of_list, whole_list};
ghost use Rattle.whole.specs.Turns.{Accepted, ListTaken, ListGranted, FirstPage, answer_at};

use crate::asked::Asked;
use crate::pages::Listing;
use crate::{Unjoined, pages, walks};
use cip::replies::HEADER;
use listing::numbers::Numbers;
use listing::pages::{Page, Start};
use logix::entry;
use model::columns::CONTROLLER_SCOPE;
use model::{Controller, Tables, lookup};

/// The scope that a program's name means; no name means the controller's.
fn scope_of(t: &Tables, program: &[u8]) -> Option<u32>
    requires { length t.now.programs.now ≤ 65535 }
    ensures { result ≡ scope_of (tables_of t.now) program.now }
{
    if program.is_empty() {
        return Some(CONTROLLER_SCOPE);
    }
    let k = listing::attributes::program_of(t, program)?;
    Some(lookup::program_scope(k))
}

/// The numbers of a list that a page accepts.
fn accepted<'a>(attributes: &'a [u8]) -> Option<Numbers<'a>>
    ensures { Accepted attributes.now result }
{
    let numbers = Numbers::read(attributes)?;
    if !numbers.all_listed() {
        return None;
    }
    Some(numbers)
}

/// The first page of a listing, where it is granted.
fn page_of<'a>(t: &Tables, listing: &Listing<'a>) -> Option<Page<'a>>
    requires { length t.now.programs.now ≤ 65535 }
    ensures { FirstPage (tables_of t.now) listing.now result }
{
    let scope = scope_of(t, listing.program)?;
    let numbers = accepted(listing.attributes)?;
    Some(Page {
        start: Start { scope, id: 0 },
        numbers,
    })
}

/// A whole list whose pages are granted. It is measured first, so that `out` stays as it was where it is too short.
fn list_granted(
    c: &Controller,
    memory: &mut [u8],
    listing: &Listing,
    first: &Page,
    limit: usize,
    buf: &mut [u8],
    out: &mut [u8],
) -> Result<usize, Unjoined>
    requires taken { ListTaken c.now memory.old listing.now limit (length buf.old) }
    requires granted { ListGranted (tables_of c.now.tables) listing.now first.now }
    requires first { first.now.start.id ≡ 0 }
    ensures whole { received result out.new buf.new ≡ whole_of_list (entries_of (tables_of c.now.tables) listing.now.program.now
        listing.now.attributes.now) (answer_at c.now memory.old listing.now 0 limit) limit buf.old out.old }
    ensures memory { memory.new ≡ memory.old }
{
    if limit < HEADER {
        return Err(Unjoined::TooNarrow);
    }
    let Some(total) = walks::measured(&c.tables, first, limit) else {
        return Err(Unjoined::TooNarrow);
    };
    if out.len() < total {
        return Err(Unjoined::TooShort(total));
    }
    Ok(pages::join_pages(c, memory, listing, first, limit, buf, out))
}

/// A whole list that the entry takes. Where no page would be granted, the first one is asked for, to learn its status.
fn list_askable(
    c: &Controller,
    memory: &mut [u8],
    listing: &Listing,
    limit: usize,
    buf: &mut [u8],
    out: &mut [u8],
) -> Result<usize, Unjoined>
    requires { ListTaken c.now memory.old listing.now limit (length buf.old) }
    ensures whole { received result out.new buf.new ≡ whole_of_list (entries_of (tables_of c.now.tables) listing.now.program.now
        listing.now.attributes.now) (answer_at c.now memory.old listing.now 0 limit) limit buf.old out.old }
    ensures memory { memory.new ≡ memory.old }
{
    let Some(first) = page_of(&c.tables, listing) else {
        let status = listing.first_status(c, memory, limit, buf);
        return Err(Unjoined::Turned(status));
    };
    list_granted(c, memory, listing, &first, limit, buf, out)
}

/// Lists all symbols of a scope into `out`: asks for pages, each from the last listed ID plus one, and joins their entries until
/// status 0, and returns how many bytes they are; or says why not. `buf` is the reply buffer: the last reply stays in it, and where nothing
/// is sent it is as it was. See `read_whole` for why it stands beside that.
pub fn list_whole(
    c: &Controller,
    memory: &mut [u8],
    listing: &Listing,
    limit: usize,
    buf: &mut [u8],
    out: &mut [u8],
) -> Result<usize, Unjoined>
    ensures whole { received result out.new buf.new ≡ whole_list (tables_of c.now.tables) (flags_of c.now.flags) memory.old
        listing.now.program.now listing.now.attributes.now limit buf.old out.old }
    ensures memory { memory.new ≡ memory.old }
{
    if !listing.is_askable() {
        return Err(Unjoined::Unsendable);
    }
    entry::enter(c, memory, limit, buf)?;
    list_askable(c, memory, listing, limit, buf, out)
}
