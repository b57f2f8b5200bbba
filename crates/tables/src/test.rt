// The tests of a table set in the definition's order, which docs/RULES.md has too: which rows each looks at, and whether it holds of them.
ghost use Rattle.std.specs.Prelude.{◌≡◌, ◌<◌, length};
ghost use Rattle.definition.specs.Breach.{row_breach, test_breach};
ghost use Rattle.model.specs.Tables.{tables_of};
ghost use Rattle.tables.specs.Rules.{told_of, breach_of};
ghost use Rattle.tables.specs.Tests.{rule_of, table_of, other_of, test_of, Tells, name_passes, structure_passes, member_passes, program_passes, tag_passes, other_passes};

use crate::rules::{Breach, Place, Rule, Table};
use model::Tables;
use model::columns::{
    MEMBER_ACCESS, MEMBER_BIT, MEMBER_HIDDEN, MEMBER_LOCAL, MEMBER_NAME_LENGTH, MEMBER_NAME_START,
    MEMBER_TYPE, NO_ACCESS, NO_BIT, OTHER_ID, OTHER_NAME_LENGTH, OTHER_NAME_START, OTHER_SCOPE,
    OTHER_TYPE, PROGRAM_NAME_LENGTH, PROGRAM_NAME_START, STRUCTURE_AOI, STRUCTURE_FIRST_MEMBER,
    STRUCTURE_HANDLE, STRUCTURE_MEMBERS, STRUCTURE_NAME_LENGTH, STRUCTURE_NAME_START,
    STRUCTURE_SIZE, STRUCTURE_TEMPLATE, TAG_ACCESS, TAG_ALIAS, TAG_ID, TAG_NAME_LENGTH,
    TAG_NAME_START, TAG_SCOPE, TAG_TYPE, TEMPLATE_LENGTH, TEMPLATE_START,
};
use model::lookup::part_of;
use rows::{pair, row};
use std::ops::Range;

/// A test: of how many rows a table has, of each row of a table by itself, or of rows that clash. A member is held against its structure,
/// a row against those before it in its table, another symbol against the tags.
#[derive(Clone, Copy)]
pub enum Test {
    Count(Table),
    Structure(Rule),
    Member(Rule),
    Program(Rule),
    Tag(Rule),
    Other(Rule),
    EarlierType,
    InsideStructure,
    ProgramNames,
    TagNames,
    TagOtherNames,
    TagIds,
    TagOtherIds,
    OtherIds,
    TagBytes,
}

pub const TESTS: [Test; 53] = [
    Test::Count(Table::Structures),
    Test::Count(Table::Members),
    Test::Count(Table::Programs),
    Test::Count(Table::Tags),
    Test::Count(Table::Others),
    Test::Count(Table::Memory),
    Test::Count(Table::Templates),
    Test::Structure(Rule::NameStored),
    Test::Structure(Rule::NameLength),
    Test::Structure(Rule::NameBytes),
    Test::Structure(Rule::TemplateIdFits),
    Test::Structure(Rule::HandleFits),
    Test::Structure(Rule::MembersStored),
    Test::Structure(Rule::AoiMark),
    Test::Structure(Rule::StructureSize),
    Test::Structure(Rule::TemplateStored),
    Test::Member(Rule::NameStored),
    Test::Member(Rule::NameLength),
    Test::Member(Rule::NameBytes),
    Test::Member(Rule::TypeKnown),
    Test::Member(Rule::HiddenMark),
    Test::Member(Rule::LocalMark),
    Test::Member(Rule::Access),
    Test::Member(Rule::Bit),
    Test::Program(Rule::NameStored),
    Test::Program(Rule::NameLength),
    Test::Program(Rule::NameBytes),
    Test::Tag(Rule::NameStored),
    Test::Tag(Rule::NameLength),
    Test::Tag(Rule::NameBytes),
    Test::Tag(Rule::ScopeKnown),
    Test::Tag(Rule::AliasMark),
    Test::Tag(Rule::Access),
    Test::Tag(Rule::IdNonzero),
    Test::Tag(Rule::TagType),
    Test::Tag(Rule::LengthsFirst),
    Test::Tag(Rule::Elements),
    Test::Tag(Rule::InsideMemory),
    Test::Other(Rule::NameStored),
    Test::Other(Rule::NameLength),
    Test::Other(Rule::NameBytes),
    Test::Other(Rule::ScopeKnown),
    Test::Other(Rule::SymbolTypeFits),
    Test::Other(Rule::IdNonzero),
    Test::EarlierType,
    Test::InsideStructure,
    Test::ProgramNames,
    Test::TagNames,
    Test::TagOtherNames,
    Test::TagIds,
    Test::TagOtherIds,
    Test::OtherIds,
    Test::TagBytes,
];

/// What a rule of names says of one, by its store and two columns of its row; of another rule nothing.
#[tactic(auto, using(laws::proofs::Chain::tests), unfolding(crate::specs::Tests::name_passes))]
fn name_passes(rule: Rule, store: &[u8], start: u32, n: u32) -> bool
    ensures { result ≡ name_passes store.now start n rule }
{
    match rule {
        Rule::NameStored => row::within(start, n, store.len()),
        Rule::NameLength => row::name_length(part_of(store, start, n)),
        Rule::NameBytes => row::name_bytes(part_of(store, start, n)),
        _ => true,
    }
}

// The next five have the definition's lists of rules, one for each table and each in its order.
#[tactic(auto, using(laws::proofs::Chain::tests), unfolding(crate::specs::Tests::name_passes, crate::specs::Tests::structure_passes, definition::specs::Breach::structure_rules))]
fn structure_passes(rule: Rule, row: &[u32; 10], t: &Tables) -> bool
    ensures { result ≡ structure_passes (tables_of t.now) rule row.now }
{
    let (start, n) = (row[STRUCTURE_NAME_START], row[STRUCTURE_NAME_LENGTH]);
    match rule {
        Rule::TemplateIdFits => row::fits16(row[STRUCTURE_TEMPLATE]),
        Rule::HandleFits => row::fits16(row[STRUCTURE_HANDLE]),
        Rule::MembersStored => row::within(
            row[STRUCTURE_FIRST_MEMBER],
            row[STRUCTURE_MEMBERS],
            t.members.len(),
        ),
        Rule::AoiMark => row[STRUCTURE_AOI] <= 1,
        Rule::StructureSize => row::size_fits(row[STRUCTURE_SIZE]),
        Rule::TemplateStored => {
            row::within(row[TEMPLATE_START], row[TEMPLATE_LENGTH], t.templates.len())
        }
        _ => name_passes(rule, t.names, start, n),
    }
}

#[tactic(auto, using(laws::proofs::Chain::tests), unfolding(crate::specs::Tests::name_passes, crate::specs::Tests::member_passes, definition::specs::Breach::member_rules))]
fn member_passes(rule: Rule, row: &[u32; 9], t: &Tables) -> bool
    ensures { result ≡ member_passes (tables_of t.now) rule row.now }
{
    let (start, n) = (row[MEMBER_NAME_START], row[MEMBER_NAME_LENGTH]);
    match rule {
        Rule::TypeKnown => row::is_type(t.structures.len(), row[MEMBER_TYPE]),
        Rule::HiddenMark => row[MEMBER_HIDDEN] <= 1,
        Rule::LocalMark => row[MEMBER_LOCAL] <= 1,
        Rule::Access => row[MEMBER_ACCESS] <= NO_ACCESS,
        Rule::Bit => row[MEMBER_BIT] <= NO_BIT,
        _ => name_passes(rule, t.names, start, n),
    }
}

#[tactic(auto, using(laws::proofs::Chain::tests), unfolding(crate::specs::Tests::name_passes, crate::specs::Tests::program_passes, definition::specs::Breach::program_rules))]
fn program_passes(rule: Rule, row: &[u32; 2], t: &Tables) -> bool
    ensures { result ≡ program_passes (tables_of t.now) rule row.now }
{
    name_passes(
        rule,
        t.names,
        row[PROGRAM_NAME_START],
        row[PROGRAM_NAME_LENGTH],
    )
}

#[tactic(auto, using(laws::proofs::Chain::refusals), unfolding(crate::specs::Tests::name_passes, crate::specs::Tests::tag_passes, definition::specs::Breach::tag_rules))]
fn tag_passes(rule: Rule, row: &[u32; 12], t: &Tables, memory: usize) -> bool
    ensures { result ≡ tag_passes (tables_of t.now) memory rule row.now }
{
    let (start, n) = (row[TAG_NAME_START], row[TAG_NAME_LENGTH]);
    match rule {
        Rule::ScopeKnown => row[TAG_SCOPE] as usize <= t.programs.len(),
        Rule::AliasMark => row[TAG_ALIAS] <= 1,
        Rule::Access => row[TAG_ACCESS] <= NO_ACCESS,
        Rule::IdNonzero => row[TAG_ID] != 0,
        Rule::TagType => row::is_type(t.structures.len(), row[TAG_TYPE]),
        Rule::LengthsFirst => row::lengths_first(row),
        Rule::Elements => row::elements_fit(row),
        Rule::InsideMemory => row::tag_within(row, t.structures, memory),
        _ => name_passes(rule, t.tag_names, start, n),
    }
}

#[tactic(auto, using(laws::proofs::Chain::refusals), unfolding(crate::specs::Tests::name_passes, crate::specs::Tests::other_passes, definition::specs::Breach::other_rules))]
fn other_passes(rule: Rule, row: &[u32; 5], t: &Tables) -> bool
    ensures { result ≡ other_passes (tables_of t.now) rule row.now }
{
    let (start, n) = (row[OTHER_NAME_START], row[OTHER_NAME_LENGTH]);
    match rule {
        Rule::NameLength => row::other_length(part_of(t.names, start, n)),
        Rule::ScopeKnown => row[OTHER_SCOPE] as usize <= t.programs.len(),
        Rule::SymbolTypeFits => row::fits16(row[OTHER_TYPE]),
        Rule::IdNonzero => row[OTHER_ID] != 0,
        _ => name_passes(rule, t.names, start, n),
    }
}

impl Test {
    fn rule(self) -> Rule
        ensures { result ≡ rule_of self }
    {
        match self {
            Test::Count(_) => Rule::Count,
            Test::Structure(rule)
            | Test::Member(rule)
            | Test::Program(rule)
            | Test::Tag(rule)
            | Test::Other(rule) => rule,
            Test::EarlierType => Rule::EarlierType,
            Test::InsideStructure => Rule::InsideStructure,
            Test::ProgramNames | Test::TagNames | Test::TagOtherNames => Rule::NameUnique,
            Test::TagIds | Test::TagOtherIds | Test::OtherIds => Rule::IdUnique,
            Test::TagBytes => Rule::BytesApart,
        }
    }

    /// The table of the row that it tells.
    fn table(self) -> Table
        ensures { result ≡ table_of self }
    {
        match self {
            Test::Count(table) => table,
            Test::Structure(_) => Table::Structures,
            Test::Member(_) | Test::EarlierType | Test::InsideStructure => Table::Members,
            Test::Program(_) | Test::ProgramNames => Table::Programs,
            Test::Tag(_) | Test::TagNames | Test::TagIds | Test::TagBytes => Table::Tags,
            Test::Other(_) | Test::TagOtherNames | Test::TagOtherIds | Test::OtherIds => {
                Table::Others
            }
        }
    }

    /// The table of the row that it clashes with.
    fn other(self) -> Option<Table>
        ensures { result ≡ other_of self }
    {
        match self {
            Test::EarlierType | Test::InsideStructure => Some(Table::Structures),
            Test::ProgramNames => Some(Table::Programs),
            Test::TagNames
            | Test::TagOtherNames
            | Test::TagIds
            | Test::TagOtherIds
            | Test::TagBytes => Some(Table::Tags),
            Test::OtherIds => Some(Table::Others),
            _ => None,
        }
    }

    // Tables and memory by themselves from here on: in a struct of the two, `holds` has to write `set.t.tags[i]` at each row and grows
    // past 40 lines, since behind a `let t = set.t` the check does not know how long the tables may be.
    /// How many rows of the other table it goes through; one turn where there is none.
    #[tactic(auto, unfolding(definition::specs::Breach::clashes))]
    fn others(self, t: &Tables, memory: &[u8]) -> usize
        ensures { result ≡ (test_of self (tables_of t.now) (length memory.now)).others }
    {
        match self.other() {
            Some(table) => table.count(t, memory),
            None => 1,
        }
    }

    /// The rows of its table that row i of the other one is held against.
    #[tactic(auto, unfolding(definition::specs::Breach::clashes))]
    fn span(self, i: usize, t: &Tables, memory: &[u8]) -> Range<usize>
        requires { i < (test_of self (tables_of t.now) (length memory.now)).others }
        ensures start { result.start ≡ (test_of self (tables_of t.now) (length memory.now)).from i }
        ensures end { result.end ≡ (test_of self (tables_of t.now) (length memory.now)).upto i }
    {
        let count = self.table().count(t, memory);
        match self {
            Test::EarlierType | Test::InsideStructure => {
                let structure = &t.structures[i];
                let first = structure[STRUCTURE_FIRST_MEMBER] as usize;
                let end = first + structure[STRUCTURE_MEMBERS] as usize;
                first..end.min(count)
            }
            Test::ProgramNames | Test::TagNames | Test::TagIds | Test::OtherIds | Test::TagBytes =>
                i + 1..count,
            _ => 0..count,
        }
    }

    /// Whether it holds of row j of its table and row i of the other.
    #[tactic(auto, unfolding(definition::specs::Breach::clashes, definition::specs::Valid::tag_names_differ, definition::specs::Valid::other_names_differ))]
    fn holds(self, i: usize, j: usize, t: &Tables, memory: &[u8]) -> bool
        requires { let x = test_of self (tables_of t.now) (length memory.now) in
            (i < x.others) × (j < x.upto i) }
        ensures { result ≡ (test_of self (tables_of t.now) (length memory.now)).holds i j }
    {
        match self {
            Test::Count(table) => j < table.limit(),
            Test::Structure(rule) => structure_passes(rule, &t.structures[j], t),
            Test::Member(rule) => member_passes(rule, &t.members[j], t),
            Test::Program(rule) => program_passes(rule, &t.programs[j], t),
            Test::Tag(rule) => tag_passes(rule, &t.tags[j], t, memory.len()),
            Test::Other(rule) => other_passes(rule, &t.others[j], t),
            Test::EarlierType => row::is_type(i, t.members[j][MEMBER_TYPE]),
            Test::InsideStructure => {
                row::member_inside(&t.members[j], t.structures, t.structures[i][STRUCTURE_SIZE])
            }
            Test::ProgramNames => pair::program_pair(&t.programs[i], &t.programs[j], t.names),
            Test::TagNames => {
                pair::names_differ(&t.tags[i], &t.tags[j], t.tag_names, t.tag_names)
            }
            Test::TagOtherNames => {
                pair::names_differ(&t.tags[i], &t.others[j], t.tag_names, t.names)
            }
            Test::TagIds => pair::ids_differ(&t.tags[i], &t.tags[j]),
            Test::TagOtherIds => pair::ids_differ(&t.tags[i], &t.others[j]),
            Test::OtherIds => pair::ids_differ(&t.others[i], &t.others[j]),
            Test::TagBytes => pair::bytes_apart(&t.tags[i], &t.tags[j], t.structures),
        }
    }

    /// What is told of row j of its table and row i of the other.
    fn tell(self, i: usize, j: usize) -> Breach
        ensures { Tells self i j (breach_of result) }
    {
        Breach {
            rule: self.rule(),
            at: Place {
                table: self.table(),
                row: j,
            },
            other: self.other().map(|table| Place { table, row: i }),
        }
    }

    /// Where it is broken first at row i of the other table.
    fn row_breach(self, i: usize, t: &Tables, memory: &[u8]) -> Option<Breach>
        requires { i < (test_of self (tables_of t.now) (length memory.now)).others }
        ensures { told_of result ≡ row_breach (test_of self (tables_of t.now) (length memory.now)) i }
    {
        self.span(i, t, memory)
            .find(|&j| !self.holds(i, j, t, memory))
            .map(|j| self.tell(i, j))
    }

    /// Where it is broken first.
    pub fn breach(self, t: &Tables, memory: &[u8]) -> Option<Breach>
        ensures { told_of result ≡ test_breach (test_of self (tables_of t.now) (length memory.now)) }
    {
        (0..self.others(t, memory)).find_map(|i| self.row_breach(i, t, memory))
    }
}
