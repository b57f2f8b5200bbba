// Item 13: a request for a page of the symbols of a scope.
ghost use Rattle.std.specs.Prelude.{◌≡◌, ◌≤◌, true, length};
ghost use Rattle.laws.specs.Pick.{is_some};
ghost use Rattle.definition.specs.Reply.{room};
ghost use Rattle.definition.specs.Segment.{segments_from};
ghost use Rattle.model.specs.Tables.{tables_of, SomeValid};
ghost use Rattle.listing.specs.Pages.{list_lent, BeginsAt, PageBegins, Lists};

use crate::attributes;
use crate::numbers::Numbers;
use crate::pages::{Page, Start};
use cip::Status;
use cip::codes::SYMBOL_CLASS;
use model::columns::CONTROLLER_SCOPE;
use model::{Tables, lookup};
use path::{Request, Segment};

/// The start in a scope: class 0x6B and the start ID, and nothing more.
#[tactic(auto, using(crate::proofs::Starts::in_scope))]
fn start_in(path: &[u8], at: usize, scope: u32) -> Option<Start>
    requires { is_some (segments_from path.now at) ≡ true }
    ensures { BeginsAt path.now at scope result }
{
    let object = path::object_at(path, at)?;
    if object.class != SYMBOL_CLASS || object.next < path.len() {
        return None;
    }
    Some(Start {
        scope,
        id: object.instance,
    })
}

/// The start of the page that a path asks for: in the scope of a known program, if its name comes first, else in the controller's.
pub fn page_start(t: &Tables, q: &Request) -> Option<Start>
    requires { length t.now.programs.now ≤ 65535 }
    ensures { PageBegins (tables_of t.now) q.now.path.now result }
{
    let first = path::segment_at(q.path, 0)?;
    let Segment::Symbol(name) = first.segment else {
        return start_in(q.path, 0, CONTROLLER_SCOPE);
    };
    let program = attributes::program_of(t, name)?;
    start_in(q.path, first.next, lookup::program_scope(program))
}

/// Item 13: a page of the symbols of a scope (0x55).
pub fn list_symbols(t: &Tables, q: &Request, limit: usize, buf: &mut [u8]) -> usize
    requires { SomeValid (list_lent (tables_of t.now)) × (room limit ≤ length buf.old) }
    ensures { Lists (tables_of t.now) q.now limit buf.old result buf.new }
{
    let Some(start) = page_start(t, q) else {
        return cip::fail(buf, limit, q.service, Status::PathUnknown);
    };
    let Some(numbers) = Numbers::read(q.body) else {
        return cip::fail(buf, limit, q.service, Status::TooShort);
    };
    if !numbers.all_listed() {
        return cip::fail(buf, limit, q.service, Status::NoAttribute);
    }
    Page { start, numbers }.put(t, q.service, limit, buf)
}
