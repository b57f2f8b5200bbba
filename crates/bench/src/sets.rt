// Validity vectors: table sets that break each of T1 to T6, or the encoding of a row, in one place. Some rows are the pallet bench's.
use model::Tables;
use model::columns::{
    MEMBER_ACCESS, MEMBER_BIT, MEMBER_HIDDEN, MEMBER_LENGTH, MEMBER_NAME_LENGTH, MEMBER_OFFSET,
    MEMBER_TYPE, OTHER_ID, OTHER_NAME_LENGTH, OTHER_TYPE, PROGRAM_NAME_LENGTH, STRUCTURE_MEMBERS,
    STRUCTURE_SIZE, STRUCTURE_TEMPLATE, TAG_ACCESS, TAG_ALIAS, TAG_ELEMENTS, TAG_ID, TAG_LENGTH_1,
    TAG_LENGTH_3, TAG_OFFSET, TAG_SCOPE, TAG_TYPE, TEMPLATE_LENGTH,
};
use pallet::{CELL_TYPE, COUNT, ROWS, RUN, TAG_NAMES};
use std::io;

const OUTER: [u32; 10] = [11, 5, 0x101, 0x4321, 12, 1, 2, 1, 0, 8];

const CELLS: [u32; 9] = [16, 5, 0x100, 2, 0, 8, 0, 0, 0];

const LOCAL: [u32; 9] = [21, 5, 0xC4, 0, 8, 8, 0, 1, 3];

const MAIN: [u32; 2] = [26, 4];

const BITS: [u32; 12] = [1, 5, 4, 2, 0xD3, 64, 0, 0, 2, 0, 0, 44];

const CELL: [u32; 12] = [1, 9, 4, 0xFFFF_FFFF, 0x101, 0, 0, 0, 1, 0, 1, 52];

const PROGRAM: [u32; 5] = [0, 30, 12, 9, 0x1068];

const NAMES: [u8; 42] = *b"CellTypeRunOuterCellsLocalMainProgram:Main";

/// One table set: two structures, three members, a program, four tags, another symbol; 64 bytes of tag memory.
#[derive(Clone, Copy)]
struct Set {
    inner: [u32; 10],
    outer: [u32; 10],
    run: [u32; 9],
    cells: [u32; 9],
    main: [u32; 2],
    rows: [u32; 12],
    bits: [u32; 12],
    other: [u32; 5],
}

const SOUND: Set = Set {
    inner: CELL_TYPE,
    outer: OUTER,
    run: RUN,
    cells: CELLS,
    main: MAIN,
    rows: ROWS,
    bits: BITS,
    other: PROGRAM,
};

/// Judges the sound set with an edit. Each call below is a line: edits are closures of as many types, so no table holds them.
fn judge<F: FnOnce(&mut Set)>(to: &impl Print, label: &str, edit: F) -> io::Result<()>
    requires { F.IsAlwaysCallable edit }
{
    let mut set = SOUND;
    edit(&mut set);
    let Set {
        inner,
        outer,
        run,
        cells,
        main,
        rows,
        bits,
        other,
    } = set;
    let tables = Tables {
        structures: &[inner, outer],
        members: &[run, cells, LOCAL],
        programs: &[main],
        tags: &[COUNT, rows, bits, CELL],
        others: &[other],
        names: &NAMES,
        tag_names: &TAG_NAMES,
        templates: &[0; 8],
    };
    let said = if tables::valid(&tables, &[0; 64]) {
        "valid"
    } else {
        "number 4"
    };
    println!(to; "{label}: {said}")
}

/// `Rows` with three lengths.
fn lengths(to: &impl Print, label: &str, lengths: [u32; 3]) -> io::Result<()> {
    judge(to, label, |s| {
        s.rows[TAG_LENGTH_1..=TAG_LENGTH_3].copy_from_slice(&lengths)
    })
}

fn names_and_ids(to: &impl Print) -> io::Result<()> {
    judge(to, "sound", |_| {})?;
    judge(to, "T1 access 4", |s| s.rows[TAG_ACCESS] = 4)?;
    judge(to, "T1 member access 4", |s| s.cells[MEMBER_ACCESS] = 4)?;
    judge(
        to,
        "T2 a name of 0 bytes",
        |s| s.run[MEMBER_NAME_LENGTH] = 0,
    )?;
    judge(
        to,
        "T2 a name past its store",
        |s| s.other[OTHER_NAME_LENGTH] = 13,
    )?;
    judge(to, "T2 two tags of one name", |s| s.bits[TAG_SCOPE] = 0)?;
    judge(
        to,
        "T2 a program with no name",
        |s| s.main[PROGRAM_NAME_LENGTH] = 0,
    )?;
    judge(to, "T3 ID 0", |s| s.rows[TAG_ID] = 0)?;
    judge(to, "T3 two tags of one ID", |s| s.rows[TAG_ID] = 1)?;
    judge(
        to,
        "T3 a tag's ID in another symbol",
        |s| s.other[OTHER_ID] = 1,
    )
}

fn structures(to: &impl Print) -> io::Result<()> {
    judge(
        to,
        "T4 a member past its structure",
        |s| s.run[MEMBER_OFFSET] = 4,
    )?;
    judge(
        to,
        "T4 an array past its structure",
        |s| s.cells[MEMBER_LENGTH] = 4,
    )?;
    judge(
        to,
        "T4 a member of its own structure",
        |s| s.cells[MEMBER_TYPE] = 0x101,
    )?;
    judge(to, "T4 bit 9", |s| s.run[MEMBER_BIT] = 9)?;
    judge(
        to,
        "T4 a structure of 0 bytes",
        |s| s.inner[STRUCTURE_SIZE] = 0,
    )?;
    judge(
        to,
        "T4 a template past its store",
        |s| s.outer[TEMPLATE_LENGTH] = 9,
    )
}

fn elements(to: &impl Print) -> io::Result<()> {
    judge(to, "T5 no type", |s| s.rows[TAG_TYPE] = 0xCC)?;
    judge(
        to,
        "T5 a structure that is not there",
        |s| s.rows[TAG_TYPE] = 0x102,
    )?;
    judge(to, "T5 nine elements of ten", |s| s.rows[TAG_ELEMENTS] = 9)?;
    lengths(to, "T5 2 by 5", [2, 5, 0])?;
    lengths(to, "T5 a zero length first", [0, 10, 0])?;
    lengths(
        to,
        "T5 a product past 64 bits",
        [0xFFFF_FFFF, 0xFFFF_FFFF, 0xFFFF_FFFF],
    )?;
    judge(to, "T5 a 32nd of 65", |s| s.bits[TAG_LENGTH_1] = 65)?;
    judge(to, "T5 one word for 64 bits", |s| s.bits[TAG_ELEMENTS] = 1)
}

fn bytes_and_rows(to: &impl Print) -> io::Result<()> {
    judge(to, "T6 past tag memory", |s| s.bits[TAG_OFFSET] = 61)?;
    judge(to, "T6 one byte shared", |s| s.rows[TAG_OFFSET] = 3)?;
    judge(to, "T6 one inside another", |s| s.bits[TAG_OFFSET] = 8)?;
    judge(to, "scope that is no program", |s| s.rows[TAG_SCOPE] = 2)?;
    judge(to, "mark 2", |s| s.rows[TAG_ALIAS] = 2)?;
    judge(to, "hidden mark 2", |s| s.run[MEMBER_HIDDEN] = 2)?;
    judge(
        to,
        "a template ID of 17 bits",
        |s| s.inner[STRUCTURE_TEMPLATE] = 0x10000,
    )?;
    judge(
        to,
        "a symbol type of 17 bits",
        |s| s.other[OTHER_TYPE] = 0x10000,
    )?;
    judge(
        to,
        "members past their table",
        |s| s.outer[STRUCTURE_MEMBERS] = 3,
    )
}

/// All of them, each judged.
pub fn judged(to: &impl Print) -> io::Result<()> {
    names_and_ids(to)?;
    structures(to)?;
    elements(to)?;
    bytes_and_rows(to)
}
