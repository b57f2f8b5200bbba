// The pallet bench of document 01, for the programs that run it: its tables, its tag memory, and a message to its controller.
#![tactic(auto)]

ghost use Rattle.definition.specs.Entry.{entry as entry_of};
ghost use Rattle.definition.specs.Pallet.{pallet, pallet_flags};
ghost use Rattle.logix.specs.Entering.{Enters};
ghost use Rattle.pallet.specs.Lent.{with_tags};

use logix::entry::Refusal;
use model::{Controller, Flags, Tables};

/// Multi-service and instance IDs; AOI locals are not refused.
pub const FLAGS: Flags = Flags {
    multi_service: true,
    instance_ids: true,
    aoi_locals_refused: false,
    micro800: false,
};

/// `CellType`, 4 bytes, with one member and a template of 8 bytes.
pub const CELL_TYPE: [u32; 10] = [0, 8, 0x100, 0x1234, 4, 0, 1, 0, 0, 8];

/// Bit 2 of byte 0.
pub const RUN: [u32; 9] = [8, 3, 0xC1, 0, 0, 2, 0, 0, 0];

/// DINT.
pub const COUNT: [u32; 12] = [0, 0, 5, 1, 0xC4, 0, 0, 0, 1, 0, 0, 0];

/// DINT, length 10.
pub const ROWS: [u32; 12] = [0, 5, 4, 2, 0xC4, 10, 0, 0, 10, 0, 0, 4];

/// Of type `CellType`.
const CELL: [u32; 12] = [0, 9, 4, 0xFFFF_FFFF, 0x100, 0, 0, 0, 1, 0, 0, 44];

pub const STRUCTURES: [[u32; 10]; 1] = [CELL_TYPE];

pub const MEMBERS: [[u32; 9]; 1] = [RUN];

pub const TAGS: [[u32; 12]; 3] = [COUNT, ROWS, CELL];

pub const NAMES: [u8; 11] = *b"CellTypeRun";

pub const TAG_NAMES: [u8; 13] = *b"CountRowsCell";

pub const TEMPLATES: [u8; 8] = [1, 2, 3, 4, 5, 6, 7, 8];

/// `Count` 42; `Rows` with the bytes 1 to 40; `Cell` with `Run` set.
pub const MEMORY: [u8; 48] =
    *b"\x2A\x00\x00\x00\x01\x02\x03\x04\x05\x06\x07\x08\x09\x0A\x0B\x0C\x0D\x0E\x0F\x10\x11\x12\x13\x14\x15\x16\x17\x18\x19\x1A\x1B\x1C\x1D\x1E\x1F\x20\x21\x22\x23\x24\x25\x26\x27\x28\x04\x00\x00\x00";

const TABLES: Tables = Tables {
    structures: &STRUCTURES,
    members: &MEMBERS,
    programs: &[],
    tags: &TAGS,
    others: &[],
    names: &NAMES,
    tag_names: &TAG_NAMES,
    templates: &TEMPLATES,
};

/// The bench's controller.
pub const CONTROLLER: Controller = Controller {
    tables: TABLES,
    flags: FLAGS,
};

/// What a message comes to, with tags that a caller lends in the place of the bench's.
pub fn with_tags<'a>(
    tags: &'a [[u32; 12]],
    tag_names: &'a [u8],
    memory: &mut [u8],
    request: &[u8],
    limit: usize,
    buf: &mut [u8],
) -> Result<usize, Refusal>
    ensures { Enters (entry_of (with_tags tags.now tag_names.now) pallet_flags memory.old request.now
        limit buf.old) result buf.new memory.new }
{
    let c = Controller {
        tables: Tables {
            tags,
            tag_names,
            ..TABLES
        },
        flags: FLAGS,
    };
    logix::entry::message(&c, memory, request, limit, buf)
}

/// What a message to the bench comes to.
pub fn message(
    memory: &mut [u8],
    request: &[u8],
    limit: usize,
    buf: &mut [u8],
) -> Result<usize, Refusal>
    ensures { Enters (entry_of pallet pallet_flags memory.old request.now limit buf.old)
        result buf.new memory.new }
{
    with_tags(&TAGS, &TAG_NAMES, memory, request, limit, buf)
}
