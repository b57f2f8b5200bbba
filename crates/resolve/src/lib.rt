// From a decoded tag path to its target: the tag, the moves behind it, and whether a service may use it.
#![tactic(auto)]

use cip::Status;
use model::columns::{NO_ACCESS, READ_ONLY, STRUCTURE_AOI};
use model::{Controller, Target, types};
use places::Place;
use rest::Rest;

mod elements;
mod members;
mod moves;
mod places;
mod rest;
mod start;

ghost use Rattle.std.specs.Prelude.{◌≡◌, true, []};
ghost use Rattle.laws.specs.Pick.{is_some};
ghost use Rattle.definition.specs.Access.{is_denied, refuses_locals};
ghost use Rattle.definition.specs.Segment.{segments};
ghost use Rattle.model.specs.Tables.{SomeValid, tables_of, flags_of, target_of};
ghost use Rattle.resolve.specs.Answers.{path_tables, Resolves, Targets};

/// What a tag path means, or the status that turns it away.
pub fn resolve(c: &Controller, path: &[u8]) -> Result<Target, Status>
    requires { (is_some (segments path.now) ≡ true) × SomeValid (path_tables (tables_of c.now.tables)) }
    ensures { Resolves (tables_of c.now.tables) (flags_of c.now.flags) path.now result }
{
    let start = start::tag_of(c, Rest::of(path))?;
    let whole = Place::of_tag(start.tag, &c.tables.tags[start.tag]);
    let place = moves::follow(c, start.rest, whole)?;
    Ok(place.target(&c.tables))
}

/// An AOI type with locals, where these are refused.
#[tactic(auto, using(laws::proofs::Chain::tests), unfolding(definition::specs::Access::refuses_locals))]
fn refuses_locals(c: &Controller, g: Target) -> bool
    ensures { result ≡ refuses_locals (tables_of c.now.tables) (flags_of c.now.flags) (target_of g []) }
{
    c.flags.aoi_locals_refused
        && types::is_structure(g.ty)
        && types::structure_word(c.tables.structures, g.ty, STRUCTURE_AOI) == 1
        && model::lookup::has_local(c.tables.members_of(g.ty))
}

/// No access, a write where only reads are allowed, or such a type.
#[tactic(auto, using(laws::proofs::Chain::tests), unfolding(definition::specs::Access::is_denied))]
fn is_denied(c: &Controller, writes: bool, g: Target) -> bool
    ensures { result ≡ is_denied (tables_of c.now.tables) (flags_of c.now.flags) writes (target_of g []) }
{
    g.access == NO_ACCESS || (writes && g.access == READ_ONLY) || refuses_locals(c, g)
}

/// A tag service's target, or the status that turns the service away before its data is looked at.
pub fn tag_target(c: &Controller, writes: bool, path: &[u8]) -> Result<Target, Status>
    requires { (is_some (segments path.now) ≡ true) × SomeValid (path_tables (tables_of c.now.tables)) }
    ensures { Targets (tables_of c.now.tables) (flags_of c.now.flags) writes path.now result }
{
    let g = resolve(c, path)?;
    if is_denied(c, writes, g) {
        return Err(Status::Denied);
    }
    Ok(g)
}
