// What a read selects, decided before anything is sent.
ghost use Rattle.std.specs.Prelude.{◌≡◌, true, ◌*◌, ◌≤◌, ◌<◌, length};
ghost use Rattle.definition.specs.Valid.{valid};
ghost use Rattle.model.specs.Tables.{tables_of};
ghost use Rattle.reads.specs.Reading.{grant_of};
ghost use Rattle.whole.specs.Parts.{sized_of, sized_by, chosen_in};

use crate::requests::Read;
use model::columns::NO_BIT;
use model::{Controller, Target};

/// So many bytes, behind a type header of so many.
#[derive(Clone, Copy)]
pub struct Size {
    pub bytes: usize,
    pub header: usize,
}

/// What a read of a target selects: a bit is one byte.
fn granted_size(g: Target, elements: usize) -> Option<Size>
    requires { (0 < g.count) × (g.count * g.size ≤ 65536) }
    ensures { result ≡ sized_by g elements (grant_of g.bit g.count elements) }
{
    reads::ask_of(g, elements).ok()?;
    let header = reads::header_size(g.ty);
    if g.bit != NO_BIT {
        return Some(Size { bytes: 1, header });
    }
    Some(Size {
        bytes: elements * g.size,
        header,
    })
}

/// What a read selects; nothing where the path does not decode, is no tag path, or the read is not granted.
pub fn selected_size(c: &Controller, memory: &[u8], read: &Read) -> Option<Size>
    requires { valid (tables_of c.now.tables) (length memory.now) ≡ true }
    ensures { result ≡ sized_of memory.now (chosen_in c.now read.now) }
{
    path::reader::count_segments(read.path)?;
    if !path::is_tag_path(read.path, 0) {
        return None;
    }
    match resolve::tag_target(c, false, read.path) {
        Ok(g) => granted_size(g, usize::from(read.elements)),
        Err(_) => None,
    }
}
