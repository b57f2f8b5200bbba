// What breaks the base tables: each edit changes one word or byte, or how many rows or bytes there are.
use model::columns::{
    MEMBER_ACCESS, MEMBER_BIT, MEMBER_HIDDEN, MEMBER_LOCAL, MEMBER_NAME_LENGTH, MEMBER_NAME_START,
    MEMBER_OFFSET, MEMBER_TYPE, OTHER_ID, OTHER_NAME_LENGTH, OTHER_NAME_START, OTHER_SCOPE,
    OTHER_TYPE, PROGRAM_NAME_LENGTH, PROGRAM_NAME_START, STRUCTURE_AOI, STRUCTURE_HANDLE,
    STRUCTURE_MEMBERS, STRUCTURE_NAME_LENGTH, STRUCTURE_NAME_START, STRUCTURE_SIZE,
    STRUCTURE_TEMPLATE, TAG_ACCESS, TAG_ALIAS, TAG_ELEMENTS, TAG_ID, TAG_LENGTH_3, TAG_NAME_LENGTH,
    TAG_NAME_START, TAG_OFFSET, TAG_SCOPE, TAG_TYPE, TEMPLATE_LENGTH,
};
use tables::rules::Table;

/// The two stores of names.
#[derive(Clone, Copy, PartialEq, Eq)]
pub enum Names {
    OfRows,
    OfTags,
}

// `Nothing` is one of the edits, which are a table: an `Option` would stand in each of its lines.
#[derive(Clone, Copy)]
pub enum Edit {
    Nothing,
    /// There is one row or byte more than T1 allows.
    TooMany(Table),
    /// A word of a row, by table, row and column, has a value.
    Word(Table, usize, usize, u32),
    /// A byte of names, by store and index, has a value.
    Byte(Names, usize, u8),
}

/// For each test, in the definition's order, an edit by which it is the first that is broken.
pub const EDITS: [Edit; 53] = [
    Edit::TooMany(Table::Structures),
    Edit::TooMany(Table::Members),
    Edit::TooMany(Table::Programs),
    Edit::TooMany(Table::Tags),
    Edit::TooMany(Table::Others),
    Edit::TooMany(Table::Memory),
    Edit::TooMany(Table::Templates),
    Edit::Word(Table::Structures, 2, STRUCTURE_NAME_START, 95),
    Edit::Word(Table::Structures, 0, STRUCTURE_NAME_LENGTH, 0),
    Edit::Byte(Names::OfRows, 7, 0x80),
    Edit::Word(Table::Structures, 1, STRUCTURE_TEMPLATE, 65536),
    Edit::Word(Table::Structures, 2, STRUCTURE_HANDLE, 65536),
    Edit::Word(Table::Structures, 2, STRUCTURE_MEMBERS, 3),
    Edit::Word(Table::Structures, 0, STRUCTURE_AOI, 2),
    Edit::Word(Table::Structures, 1, STRUCTURE_SIZE, 65536),
    Edit::Word(Table::Structures, 2, TEMPLATE_LENGTH, 9),
    Edit::Word(Table::Members, 7, MEMBER_NAME_START, 94),
    Edit::Word(Table::Members, 3, MEMBER_NAME_LENGTH, 41),
    Edit::Byte(Names::OfRows, 41, 0x7F),
    Edit::Word(Table::Members, 4, MEMBER_TYPE, 0xCC),
    Edit::Word(Table::Members, 0, MEMBER_HIDDEN, 2),
    Edit::Word(Table::Members, 7, MEMBER_LOCAL, 2),
    Edit::Word(Table::Members, 6, MEMBER_ACCESS, 4),
    Edit::Word(Table::Members, 1, MEMBER_BIT, 9),
    Edit::Word(Table::Programs, 1, PROGRAM_NAME_START, 95),
    Edit::Word(Table::Programs, 0, PROGRAM_NAME_LENGTH, 0),
    Edit::Byte(Names::OfRows, 56, 0x0A),
    Edit::Word(Table::Tags, 3, TAG_NAME_LENGTH, 0xFFFF_FFFF),
    Edit::Word(Table::Tags, 0, TAG_NAME_LENGTH, 41),
    Edit::Byte(Names::OfTags, 6, 0x1F),
    Edit::Word(Table::Tags, 3, TAG_SCOPE, 3),
    Edit::Word(Table::Tags, 4, TAG_ALIAS, 2),
    Edit::Word(Table::Tags, 1, TAG_ACCESS, 4),
    Edit::Word(Table::Tags, 0, TAG_ID, 0),
    Edit::Word(Table::Tags, 2, TAG_TYPE, 0x103),
    Edit::Word(Table::Tags, 1, TAG_LENGTH_3, 1),
    Edit::Word(Table::Tags, 3, TAG_ELEMENTS, 3),
    Edit::Word(Table::Tags, 4, TAG_OFFSET, 85),
    Edit::Word(Table::Others, 2, OTHER_NAME_START, 98),
    Edit::Word(Table::Others, 0, OTHER_NAME_LENGTH, 0),
    Edit::Byte(Names::OfRows, 79, 0xFF),
    Edit::Word(Table::Others, 1, OTHER_SCOPE, 3),
    Edit::Word(Table::Others, 2, OTHER_TYPE, 65536),
    Edit::Word(Table::Others, 1, OTHER_ID, 0),
    Edit::Word(Table::Members, 3, MEMBER_TYPE, 0x101),
    Edit::Word(Table::Members, 4, MEMBER_OFFSET, 9),
    Edit::Word(Table::Programs, 1, PROGRAM_NAME_START, 89),
    Edit::Word(Table::Tags, 2, TAG_NAME_START, 23),
    Edit::Word(Table::Others, 2, OTHER_NAME_START, 93),
    Edit::Word(Table::Tags, 4, TAG_ID, 4),
    Edit::Word(Table::Others, 2, OTHER_ID, 2),
    Edit::Word(Table::Others, 1, OTHER_ID, 10),
    Edit::Word(Table::Tags, 4, TAG_OFFSET, 75),
];
