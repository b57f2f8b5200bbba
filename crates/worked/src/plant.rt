// The plant of P11's page: more kinds of tags than the pallet bench has.
use logix::entry::Refusal;
use model::{Controller, Tables};

/// `S0` with `Run`; `S1`, an AOI, with `Cells`, `Speed` and the local `Note`.
const STRUCTURES: [[u32; 10]; 2] = [
    [0, 2, 0x100, 0x1234, 4, 0, 1, 0, 0, 8],
    [5, 2, 0x101, 0x5678, 16, 1, 3, 1, 8, 4],
];

const MEMBERS: [[u32; 9]; 4] = [
    [2, 3, 0xC1, 0, 0, 2, 0, 0, 0],
    [7, 5, 0x100, 3, 0, 8, 0, 0, 0],
    [12, 5, 0xC3, 0, 12, 8, 0, 0, 0],
    [17, 4, 0xC3, 0, 14, 8, 0, 1, 0],
];

const PROGRAMS: [[u32; 2]; 1] = [[21, 4]];

/// `Count` DINT; `Rows` DINT, length 10; `Cell`; `Grid` INT, lengths 2, 3 and 4; `Lanes`; `Safe`, which nobody may read; `Bits`, 64 BOOLs;
/// `Step` INT of the program `Main`.
const TAGS: [[u32; 12]; 8] = [
    [0, 0, 5, 1, 0xC4, 0, 0, 0, 1, 0, 0, 0],
    [0, 5, 4, 2, 0xC4, 10, 0, 0, 10, 0, 0, 4],
    [0, 9, 4, 0xFFFF_FFFF, 0x100, 0, 0, 0, 1, 0, 0, 44],
    [0, 13, 4, 3, 0xC3, 2, 3, 4, 24, 0, 0, 48],
    [0, 17, 5, 4, 0x101, 5, 0, 0, 5, 0, 0, 96],
    [0, 22, 4, 5, 0xC4, 0, 0, 0, 1, 3, 0, 176],
    [0, 26, 4, 6, 0xD3, 64, 0, 0, 2, 0, 0, 180],
    [1, 30, 4, 1, 0xC3, 0, 0, 0, 1, 0, 0, 188],
];

const NAMES: [u8; 25] = *b"S0RunS1CellsSpeedNoteMain";

const TAG_NAMES: [u8; 34] = *b"CountRowsCellGridLanesSafeBitsStep";

const TEMPLATES: [u8; 12] = *b"\x01\x02\x03\x04\x05\x06\x07\x08\x09\x0A\x0B\x0C";

/// `Count` 42; `Rows` with the bytes 01 to 28; `Cell` with `Run` set; `Grid` with 64 to 93; `Lanes` with 00 to 4F; `Safe`; `Bits` all set; `Step` 7.
pub const MEMORY: [u8; 190] =
    *b"\x2A\x00\x00\x00\x01\x02\x03\x04\x05\x06\x07\x08\x09\x0A\x0B\x0C\x0D\x0E\x0F\x10\x11\x12\x13\x14\x15\x16\x17\x18\x19\x1A\x1B\x1C\x1D\x1E\x1F\x20\x21\x22\x23\x24\x25\x26\x27\x28\x04\x00\x00\x00\x64\x65\x66\x67\x68\x69\x6A\x6B\x6C\x6D\x6E\x6F\x70\x71\x72\x73\x74\x75\x76\x77\x78\x79\x7A\x7B\x7C\x7D\x7E\x7F\x80\x81\x82\x83\x84\x85\x86\x87\x88\x89\x8A\x8B\x8C\x8D\x8E\x8F\x90\x91\x92\x93\x00\x01\x02\x03\x04\x05\x06\x07\x08\x09\x0A\x0B\x0C\x0D\x0E\x0F\x10\x11\x12\x13\x14\x15\x16\x17\x18\x19\x1A\x1B\x1C\x1D\x1E\x1F\x20\x21\x22\x23\x24\x25\x26\x27\x28\x29\x2A\x2B\x2C\x2D\x2E\x2F\x30\x31\x32\x33\x34\x35\x36\x37\x38\x39\x3A\x3B\x3C\x3D\x3E\x3F\x40\x41\x42\x43\x44\x45\x46\x47\x48\x49\x4A\x4B\x4C\x4D\x4E\x4F\x09\x09\x09\x09\xFF\xFF\xFF\xFF\xFF\xFF\xFF\xFF\x07\x00";

/// Tables without a row.
pub const NO_ROWS: Tables<'static> = Tables {
    structures: &[],
    members: &[],
    programs: &[],
    tags: &[],
    others: &[],
    names: &[],
    tag_names: &[],
    templates: &[],
};

/// What a message to the plant comes to.
pub fn message(
    memory: &mut [u8],
    request: &[u8],
    limit: usize,
    buf: &mut [u8],
) -> Result<usize, Refusal> {
    let c = Controller {
        tables: Tables {
            structures: &STRUCTURES,
            members: &MEMBERS,
            programs: &PROGRAMS,
            tags: &TAGS,
            others: &[],
            names: &NAMES,
            tag_names: &TAG_NAMES,
            templates: &TEMPLATES,
        },
        flags: pallet::FLAGS,
    };
    logix::entry::message(&c, memory, request, limit, buf)
}
