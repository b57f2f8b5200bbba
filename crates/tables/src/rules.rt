// What a table set can break: a rule, a table, a row of it, and the row that it clashes with.
ghost use Rattle.std.specs.Prelude.{◌≡◌, length};
ghost use Rattle.model.specs.Tables.{tables_of};
ghost use Rattle.tables.specs.Rules.{rule_number, table_number, count_in, limit_of};

use model::{Tables, limits};

/// What must hold of a row; docs/RULES.md has the words. A rule's number is 100 times the number of its T plus 1, 2, ..; those
/// below 100 are of the rows' encoding.
#[derive(Clone, Copy, PartialEq, Eq)]
pub enum Rule {
    NameStored = 1,
    ScopeKnown = 2,
    TypeKnown = 3,
    TemplateIdFits = 4,
    HandleFits = 5,
    SymbolTypeFits = 6,
    MembersStored = 7,
    AoiMark = 8,
    HiddenMark = 9,
    LocalMark = 10,
    AliasMark = 11,
    Count = 101,
    Access = 102,
    NameLength = 201,
    NameBytes = 202,
    NameUnique = 203,
    IdNonzero = 301,
    IdUnique = 302,
    StructureSize = 401,
    TemplateStored = 402,
    Bit = 403,
    EarlierType = 404,
    InsideStructure = 405,
    TagType = 501,
    LengthsFirst = 502,
    Elements = 503,
    InsideMemory = 601,
    BytesApart = 602,
}

impl Rule {
    /// The variant's own number, with the clause that callers cite.
    pub fn number(self) -> u32
        ensures { result ≡ rule_number self }
    {
        self as u32
    }
}

/// A table, or one of the two stores that T1 bounds, whose rows are bytes.
#[derive(Clone, Copy, PartialEq, Eq)]
pub enum Table {
    Structures = 1,
    Members = 2,
    Programs = 3,
    Tags = 4,
    Others = 5,
    Memory = 6,
    Templates = 7,
}

impl Table {
    /// As C has it, the variant's own, with the clause that callers cite; 0 is no table.
    pub fn number(self) -> u32
        ensures { result ≡ table_number self }
    {
        self as u32
    }

    /// Its rows or bytes.
    pub fn count(self, t: &Tables, memory: &[u8]) -> usize
        ensures { result ≡ count_in self (tables_of t.now) (length memory.now) }
    {
        match self {
            Table::Structures => t.structures.len(),
            Table::Members => t.members.len(),
            Table::Programs => t.programs.len(),
            Table::Tags => t.tags.len(),
            Table::Others => t.others.len(),
            Table::Memory => memory.len(),
            Table::Templates => t.templates.len(),
        }
    }

    /// T1: how many it may have.
    pub fn limit(self) -> usize
        ensures { result ≡ limit_of self }
    {
        match self {
            Table::Structures => limits::STRUCTURES,
            Table::Members => limits::MEMBERS,
            Table::Programs => limits::PROGRAMS,
            Table::Tags => limits::TAGS,
            Table::Others => limits::OTHERS,
            Table::Memory | Table::Templates => limits::BYTES,
        }
    }
}

/// A row, or a byte of a store.
#[derive(Clone, Copy)]
pub struct Place {
    pub table: Table,
    pub row: usize,
}

/// Where a table set breaks a rule, and the row that it clashes with, if it does with one.
#[derive(Clone, Copy)]
pub struct Breach {
    pub rule: Rule,
    pub at: Place,
    pub other: Option<Place>,
}
