// The moves behind a path's tag: a run of elements is one, a name is one, any other segment is turned away.
ghost use Rattle.std.specs.Prelude.{◌≡◌, false};
ghost use Rattle.laws.specs.Pick.{is_empty};
ghost use Rattle.model.specs.Tables.{tables_of, flags_of};
ghost use Rattle.resolve.specs.Paths.{left};
ghost use Rattle.resolve.specs.Places.{place_of, moved_of};
ghost use Rattle.resolve.specs.Steps.{Standing, walked, Steps};

use crate::elements::Run;
use crate::members;
use crate::places::Place;
use crate::rest::Rest;
use cip::Status;
use model::Controller;
use path::Segment;

/// The move that the rest of a path starts with: where it leads to, and what follows it.
fn step<'a>(c: &Controller, rest: Rest<'a>, g: Place) -> Result<(Place, Rest<'a>), Status>
    requires { (is_empty (left rest) ≡ false) × Standing (tables_of c.now.tables) (place_of g) }
    ensures { Steps (tables_of c.now.tables) (flags_of c.now.flags) (left rest.entry) (place_of g) result }
{
    let (segment, next) = rest.segment().ok_or(Status::PathError)?;
    match segment {
        Segment::Element(_) => {
            let run = Run::of(rest);
            let to = g.index(&c.tables, run)?;
            Ok((to, run.rest))
        }
        Segment::Symbol(name) => {
            let to = members::member_of(c, name, g)?;
            Ok((to, next))
        }
        _ => Err(Status::PathError),
    }
}

/// All moves of the rest of a path.
pub fn follow(c: &Controller, from: Rest, first: Place) -> Result<Place, Status>
    requires { Standing (tables_of c.now.tables) (place_of first) }
    ensures { moved_of result ≡ walked (tables_of c.now.tables) (flags_of c.now.flags) (left from.entry) (place_of first) }
{
    let mut rest = from;
    let mut g = first;
    // no `for`: where the next move starts is what this one says
    while !rest.is_empty() {
        (g, rest) = step(c, rest, g)?;
    }
    Ok(g)
}
