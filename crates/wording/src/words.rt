// The words of each rule.
use std::fmt;
use tables::rules::{Breach, Rule, Table};

fn not_stored(table: Table) -> &'static str {
    match table {
        Table::Tags => "its name does not stand in the store of tag names",
        _ => "its name does not stand in the store of names",
    }
}

/// Of an other symbol's name a prefix is not counted, and is enough by itself.
fn name_length(table: Table) -> &'static str {
    match table {
        Table::Others => {
            "its name has no bytes, or more than 40, not counting Program:, Routine: or Task: before them"
        }
        _ => "its name has no or more than 40 bytes",
    }
}

/// What does not hold, up to the number of a count or the row that it clashes with.
fn fault(rule: Rule, table: Table) -> &'static str {
    match rule {
        Rule::NameStored => not_stored(table),
        Rule::ScopeKnown => "its scope is no program's",
        Rule::TypeKnown | Rule::TagType => NO_TYPE,
        Rule::TemplateIdFits => "its template ID exceeds 65535",
        Rule::HandleFits => "its handle exceeds 65535",
        Rule::SymbolTypeFits => "its symbol type exceeds 65535",
        Rule::MembersStored => "its members do not stand in the member table",
        Rule::AoiMark => "its AOI mark is not 0 or 1",
        Rule::HiddenMark => "its hidden mark is not 0 or 1",
        Rule::LocalMark => "its local mark is not 0 or 1",
        Rule::AliasMark => "its alias mark is not 0 or 1",
        Rule::Count => "there are more than ",
        Rule::Access => "its access is not 0 to 3",
        Rule::NameLength => name_length(table),
        Rule::NameBytes => "its name has a byte below 0x20 or above 0x7E",
        Rule::NameUnique => "the same name, case ignored, as",
        Rule::IdNonzero => "its ID is 0",
        Rule::IdUnique => "the same ID as",
        Rule::StructureSize => "it has no or more than 65535 bytes",
        Rule::TemplateStored => "its template does not stand in the template store",
        Rule::Bit => "its bit is not 0 to 7, or 8 for none",
        Rule::EarlierType => NO_EARLIER_TYPE,
        Rule::InsideStructure => "it does not end inside its structure,",
        Rule::LengthsFirst => "a length of 0 has a length behind it",
        Rule::Elements => "its elements are not the product of its lengths",
        Rule::InsideMemory => "its bytes do not end in tag memory",
        Rule::BytesApart => "it shares a byte with",
    }
}

const NO_TYPE: &str = "its type is neither an atomic code nor a structure in the tables";

const NO_EARLIER_TYPE: &str =
    "its type is neither atomic nor of an earlier structure than its own,";

/// The rule that is broken: its T, and what does not hold.
#[derive(Clone, Copy)]
pub struct Words(pub Breach);

impl fmt::Display for Words {
    fn fmt<W: fmt::Write>(&self, f: &mut fmt::Formatter<W>) -> fmt::Result {
        let Breach { rule, at, .. } = self.0;
        match rule.number() / 100 {
            0 => f.write_str("encoding: ")?,
            t => write!(f, "T{t}: ")?,
        }
        f.write_str(fault(rule, at.table))?;
        match rule {
            // The row is the first too many, so its number, counted from 0, is the most that there may be.
            Rule::Count => write!(f, "{}", at.row),
            _ => Ok(()),
        }
    }
}
