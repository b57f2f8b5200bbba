// The tags of 1756-PM020's examples. Their IDs, their order and the values before the writes are this project's choice.
use crate::controller::Tags;

/// `rate`, `CartonSize`, `ControlWord` and `parts`, each a DINT.
const ROWS: [[u32; 12]; 4] = [
    [0, 0, 4, 1, 0xC4, 0, 0, 0, 1, 0, 0, 0],
    [0, 4, 10, 2, 0xC4, 0, 0, 0, 1, 0, 0, 4],
    [0, 14, 11, 3, 0xC4, 0, 0, 0, 1, 0, 0, 8],
    [0, 25, 5, 4, 0xC4, 0, 0, 0, 1, 0, 0, 12],
];

const TAG_NAMES: [u8; 30] = *b"rateCartonSizeControlWordparts";

pub const TAGS: Tags = Tags {
    rows: &ROWS,
    names: &TAG_NAMES,
};

/// `rate` 534, `CartonSize` 0, `ControlWord` 0x1F8 (bit 2 clear, bit 5 set), `parts` 42.
pub const MEMORY: [u8; 16] = [0x16, 2, 0, 0, 0, 0, 0, 0, 0xF8, 1, 0, 0, 0x2A, 0, 0, 0];
