// Breaks a table set in each test of the definition in turn and writes what is said of it; then sets that break none.
#![tactic(auto)]

mod base;
mod edits;

use crate::base::{edited, respelled};
use crate::edits::{EDITS, Edit, Names};
use model::Tables;
use model::columns::{OTHER_NAME_START, TAG_ID, TAG_NAME_LENGTH, TAG_NAME_START, TAG_OFFSET};
use std::io;
use tables::rules::Table;

/// The rows or bytes of a table that are there: so many, or all where the edit wants too many.
fn there<T>(rows: &[T], table: Table, usual: usize, e: Edit) -> &[T] {
    match e {
        Edit::TooMany(of) if of == table => rows,
        _ => rows.get(..usual).unwrap_or(rows),
    }
}

/// Judges the base with an edit. No rule looks at a byte of tag memory or of the template store.
fn judge(to: &impl Print, e: Edit) -> io::Result<()> {
    let structures: [_; 65] = edited(&base::THREE_STRUCTURES, Table::Structures, e);
    let members: [_; 513] = edited(&base::EIGHT_MEMBERS, Table::Members, e);
    let programs: [_; 17] = edited(&base::TWO_PROGRAMS, Table::Programs, e);
    let tags: [_; 1025] = edited(&base::FIVE_TAGS, Table::Tags, e);
    let others: [_; 65] = edited(&base::THREE_OTHERS, Table::Others, e);
    let zeros = [0; 65537];
    let tables = Tables {
        structures: there(&structures, Table::Structures, 3, e),
        members: there(&members, Table::Members, 8, e),
        programs: there(&programs, Table::Programs, 2, e),
        tags: there(&tags, Table::Tags, 5, e),
        others: there(&others, Table::Others, 3, e),
        names: &respelled(base::STORE, Names::OfRows, e),
        tag_names: &respelled(base::TAG_STORE, Names::OfTags, e),
        templates: there(&zeros, Table::Templates, 24, e),
    };
    wording::tell(to, &tables, there(&zeros, Table::Memory, 88, e))
}

/// Each test as the first that is broken, by its number from 1 on.
fn broken(to: &impl Print) -> io::Result<()> {
    for (i, e) in EDITS.iter().enumerate() {
        print!(to; "{} ", i + 1)?;
        judge(to, *e)?;
    }
    Ok(())
}

/// Sets that come close to a breach and have none.
fn near_misses(to: &impl Print) -> io::Result<()> {
    print!(to; "two tags of one name in two scopes: ")?;
    judge(to, Edit::Word(Table::Tags, 4, TAG_NAME_START, 0))?;
    print!(to; "one ID in two scopes: ")?;
    judge(to, Edit::Word(Table::Tags, 3, TAG_ID, 1))?;
    print!(to; "two tags that touch: ")?;
    judge(to, Edit::Word(Table::Tags, 1, TAG_OFFSET, 4))?;
    print!(to; "two other symbols of one name: ")?;
    judge(to, Edit::Word(Table::Others, 1, OTHER_NAME_START, 60))?;
    print!(to; "a name of 40 bytes: ")?;
    judge(to, Edit::Word(Table::Tags, 0, TAG_NAME_LENGTH, 40))
}

fn main(rt: HostRuntime) -> io::Result<()> {
    let to = rt.stdout();
    broken(&to)?;
    judge(&to, Edit::Nothing)?;
    near_misses(&to)
}
