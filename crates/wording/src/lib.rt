// Says in one line where a table set breaks a rule: TABLE, row N "NAME": WORDS.
// What is written is tested and not proved. No function asks anything of its caller: a row that is not there has no name.
#![tactic(auto)]

pub mod name;
mod words;

use crate::words::Words;
use model::Tables;
use std::{fmt, io};
use tables::rules::{Breach, Place, Rule, Table};

fn name_of(table: Table) -> &'static str {
    match table {
        Table::Structures => "structures",
        Table::Members => "members",
        Table::Programs => "programs",
        Table::Tags => "tags",
        Table::Others => "other symbols",
        Table::Memory => "tag memory",
        Table::Templates => "template store",
    }
}

/// A row's number, and its name if it has one; or the number of a store's byte.
#[derive(Clone, Copy)]
struct Row<'a> {
    place: Place,
    tables: &'a Tables<'a>,
}

impl<'a> fmt::Display for Row<'a> {
    fn fmt<W: fmt::Write>(&self, f: &mut fmt::Formatter<W>) -> fmt::Result {
        let Place { table, row } = self.place;
        match table {
            Table::Memory | Table::Templates => write!(f, "byte {row}"),
            _ => match name::name_at(self.tables, self.place) {
                Some(name) => write!(f, "row {row} \"{name}\""),
                None => write!(f, "row {row}"),
            },
        }
    }
}

/// A breach of a table set: where, which rule, and the row that it clashes with.
#[derive(Clone, Copy)]
struct Line<'a> {
    breach: Breach,
    tables: &'a Tables<'a>,
}

impl<'a> Line<'a> {
    fn row(&self, place: Place) -> Row<'a> {
        Row {
            place,
            tables: self.tables,
        }
    }
}

impl<'a> fmt::Display for Line<'a> {
    fn fmt<W: fmt::Write>(&self, f: &mut fmt::Formatter<W>) -> fmt::Result {
        let Breach { rule, at, other } = self.breach;
        let table = name_of(at.table);
        write!(f, "{table}, {}: {}", self.row(at), Words(self.breach))?;
        let Some(other) = other else {
            return Ok(());
        };
        // its table is named only where it is another one
        if other.table == at.table {
            write!(f, " {}", self.row(other))?;
        } else {
            write!(f, " {}, {}", name_of(other.table), self.row(other))?;
        }
        // programs have no scope
        match rule {
            Rule::NameUnique | Rule::IdUnique if at.table != Table::Programs => {
                f.write_str(" in the same scope")
            }
            _ => Ok(()),
        }
    }
}

/// One line on a breach of these tables, to a stream.
pub fn say(to: &impl Print, breach: Breach, tables: &Tables) -> io::Result<()> {
    let line = Line { breach, tables };
    println!(to; "{line}")
}

/// One line on a table set: that it is valid, or where it breaks a rule first.
pub fn tell(to: &impl Print, tables: &Tables, memory: &[u8]) -> io::Result<()> {
    match tables::breach(tables, memory) {
        Some(breach) => say(to, breach, tables),
        None => println!(to; "valid"),
    }
}
