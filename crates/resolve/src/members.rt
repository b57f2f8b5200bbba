// The move to a structure's member.
ghost use Rattle.std.specs.Prelude.{◌≡◌, ◌≤◌};
ghost use Rattle.definition.specs.Resolve.{member_of, visible_member};
ghost use Rattle.model.specs.Tables.{tables_of, flags_of};
ghost use Rattle.resolve.specs.Places.{place_of, moved_of};

use crate::places::Place;
use cip::Status;
use model::columns::{MEMBER_LOCAL, NO_BIT};
use model::{Controller, Flags};

/// Locals are not found when refused.
fn visible_member(flags: Flags, g: Place, row: &[u32; 9]) -> Result<Place, Status>
    requires { g.start ≤ 65536 }
    ensures { moved_of result ≡ visible_member (flags_of flags) (place_of g) row.now }
{
    if row[MEMBER_LOCAL] == 1 && flags.aoi_locals_refused {
        return Err(Status::PathError);
    }
    Ok(g.member(row))
}

/// A member needs a structure, no open array and no bit before it.
pub fn member_of(c: &Controller, name: &[u8], g: Place) -> Result<Place, Status>
    requires { g.start ≤ 65536 }
    ensures { moved_of result ≡ member_of (tables_of c.now.tables) (flags_of c.now.flags) name.now (place_of g) }
{
    if !model::types::is_structure(g.ty) || g.lengths[0] != 0 || g.bit != NO_BIT {
        return Err(Status::PathError);
    }
    let members = c.tables.members_of(g.ty);
    let i = model::lookup::find_member(members, c.tables.names, name).ok_or(Status::PathError)?;
    visible_member(c.flags, g, &members[i])
}
