// A table set that breaks no rule, and what an edit makes of it. An array has one row more than T1 allows, for the sets
// that have too many; behind the base's rows its first row is repeated.
ghost use Rattle.std.specs.Prelude.{◌<◌, ◌≤◌};

use crate::edits::{Edit, Names};
use tables::rules::Table;

/// Names of rows; behind them `MAIN` and `COUNT`, which no row of the base has.
pub const STORE: [u8; 98] =
    *b"StatusMotorRampHostRunFaultStateSpeedLimitStepsStartMainFeedProgram:MainProgram:FeedClockMAINCOUNT";

/// Names of tags; behind them `COUNT`, and bytes by which a wrong length runs on.
pub const TAG_STORE: [u8; 42] = *b"CountRowsPressBitsSpeedCOUNTLevelTotalZone";

/// `Status`; `Motor`, which has a member of that type; `Ramp`, an AOI.
pub const THREE_STRUCTURES: [[u32; 10]; 3] = [
    [0, 6, 0x100, 0x1234, 4, 0, 3, 0, 0, 8],
    [6, 5, 0x101, 0x2345, 12, 3, 3, 0, 8, 8],
    [11, 4, 0x102, 0x3456, 8, 6, 2, 1, 16, 8],
];

/// `Host`, hidden, with the bits `Run` and `Fault`; `State` of type `Status`, `Speed` and `Limit`; `Steps`, an array, and
/// `Start`, a local.
pub const EIGHT_MEMBERS: [[u32; 9]; 8] = [
    [15, 4, 0xC2, 0, 0, 8, 1, 0, 0],
    [19, 3, 0xC1, 0, 0, 0, 0, 0, 0],
    [22, 5, 0xC1, 0, 0, 1, 0, 0, 0],
    [27, 5, 0x100, 0, 0, 8, 0, 0, 0],
    [32, 5, 0xCA, 0, 4, 8, 0, 0, 2],
    [37, 5, 0xC4, 0, 8, 8, 0, 0, 0],
    [42, 5, 0xC3, 2, 0, 8, 0, 0, 0],
    [47, 5, 0xC4, 0, 4, 8, 0, 1, 3],
];

/// `Main` and `Feed`.
pub const TWO_PROGRAMS: [[u32; 2]; 2] = [[52, 4], [56, 4]];

/// Of the controller `Count`, `Rows` of length 10 and `Press`, a `Motor`; of `Main` `Bits`, 64 bits in two DWORDs, and
/// `Speed`, an alias. Between any two are bytes that no tag has.
pub const FIVE_TAGS: [[u32; 12]; 5] = [
    [0, 0, 5, 1, 0xC4, 0, 0, 0, 1, 0, 0, 0],
    [0, 5, 4, 2, 0xC4, 10, 0, 0, 10, 0, 0, 8],
    [0, 9, 5, 3, 0x101, 0, 0, 0, 1, 0, 0, 52],
    [1, 14, 4, 4, 0xD3, 64, 0, 0, 2, 0, 0, 68],
    [1, 18, 5, 5, 0xCA, 0, 0, 0, 1, 3, 1, 80],
];

/// `Program:Main`, `Program:Feed` and `Clock`, of the controller.
pub const THREE_OTHERS: [[u32; 5]; 3] = [
    [0, 60, 12, 10, 0x1068],
    [0, 72, 12, 11, 0x1068],
    [0, 84, 5, 12, 0x1070],
];

/// The rows of a table: its base, with the edit's word if that is of this table.
pub fn edited<const N: usize, const BASE: usize, const ROWS: usize>(
    base: &[[u32; N]; BASE],
    table: Table,
    e: Edit,
) -> [[u32; N]; ROWS]
    requires { (0 < BASE) × (BASE ≤ ROWS) }
{
    let mut rows = [base[0]; ROWS];
    rows[..BASE].copy_from_slice(base);
    match e {
        Edit::Word(of, row, column, value) if of == table && row < ROWS && column < N => {
            rows[row][column] = value;
        }
        _ => {}
    }
    rows
}

/// A store of names, with the edit's byte if that is of this store.
pub fn respelled<const N: usize>(base: [u8; N], names: Names, e: Edit) -> [u8; N] {
    let mut store = base;
    match e {
        Edit::Byte(of, at, byte) if of == names && at < N => store[at] = byte,
        _ => {}
    }
    store
}
