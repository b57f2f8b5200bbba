// P2: which names an other symbol may have, and that rows of other tables may have none that is longer.
use crate::plant::NO_ROWS;
use model::Tables;
use std::{fmt, io};
use tables::rules::Table;
use wording::name::Signs;

/// A name by its start, and how often a byte stands behind that: "Task:", then 40 times x.
#[derive(Clone, Copy)]
struct Name<'a> {
    start: &'a [u8],
    count: u32,
    byte: u8,
}

impl<'a> fmt::Display for Name<'a> {
    fn fmt<W: fmt::Write>(&self, f: &mut fmt::Formatter<W>) -> fmt::Result {
        write!(f, "\"{}\"", Signs(self.start))?;
        if self.count == 0 {
            return Ok(());
        }
        let byte = [self.byte];
        write!(f, ", then {} times {}", self.count, Signs(&byte))
    }
}

impl<'a> Name<'a> {
    /// A store that starts with the name.
    fn store(self) -> [u8; 64] {
        let mut store = [self.byte; 64];
        let n = self.start.len().min(64);
        store[..n].copy_from_slice(&self.start[..n]);
        store
    }

    fn length(self) -> u32 {
        let first = self.start.len().min(64) as u32;
        first.wrapping_add(self.count)
    }
}

fn judge(to: &impl Print, tables: Tables) -> io::Result<()> {
    wording::tell(to, &tables, &[0; 4])
}

/// Says a name, and judges a table set whose one row, in this table, has it.
fn only(to: &impl Print, table: Table, name: Name) -> io::Result<()> {
    print!(to; "{name}: ")?;
    let length = name.length();
    let store = name.store();
    let named = Tables {
        names: &store,
        tag_names: &store,
        ..NO_ROWS
    };
    match table {
        Table::Structures => {
            let structures = &[[0, length, 0x100, 0x1234, 4, 0, 0, 0, 0, 0]];
            judge(
                to,
                Tables {
                    structures,
                    ..named
                },
            )
        }
        Table::Members => {
            let members = &[[0, length, 0xC4, 0, 0, 8, 0, 0, 0]];
            judge(to, Tables { members, ..named })
        }
        Table::Programs => {
            let programs = &[[0, length]];
            judge(to, Tables { programs, ..named })
        }
        Table::Tags => {
            let tags = &[[0, 0, length, 9, 0xC4, 0, 0, 0, 1, 0, 0, 0]];
            judge(to, Tables { tags, ..named })
        }
        _ => {
            let others = &[[0, 0, length, 9, 0x1068]];
            judge(to, Tables { others, ..named })
        }
    }
}

/// Names of an other symbol, each by its start, and how often which byte stands behind that.
const OTHER_NAMES: [(&[u8], u32, u8); 23] = [
    // ones that it may have
    (b"Program:BottlingHallNorthFillerAndCapperLine", 0, b'x'),
    (b"PROGRAM:", 40, b'x'),
    (b"rOuTiNe:", 40, b'x'),
    (b"Task:", 40, b'x'),
    (b"Program:", 0, b'x'),
    (b"task:", 0, b'x'),
    (b"", 40, b'x'),
    (b"Map:", 36, b'x'),
    (b"Program:Task:", 35, b'x'),
    // a byte too many, or none
    (b"Program:", 41, b'x'),
    (b"PROGRAM:", 41, b'x'),
    (b"rOuTiNe:", 41, b'x'),
    (b"Task:", 41, b'x'),
    (b"Task:", 43, b'x'),
    (b"", 41, b'x'),
    (b"", 0, b'x'),
    (b"Map:", 37, b'x'),
    (b"Program:Task:", 36, b'x'),
    // no prefix, and bytes that no name has
    (b"Programs:", 32, b'x'),
    (b"xProgram:", 32, b'x'),
    (b"Program", 34, b'x'),
    (b"Program:xxxxxxxxxxxxxxxxxxxxxxxxxxxxxxxxxxxxxxx", 1, 0x7F),
    (b"Program:", 34, 0x1F),
];

pub fn other_symbols(to: &impl Print) -> io::Result<()> {
    for (start, count, byte) in OTHER_NAMES {
        only(to, Table::Others, Name { start, count, byte })?;
    }
    Ok(())
}

/// The same name in each table: only the other symbol may have it.
pub fn other_tables(to: &impl Print) -> io::Result<()> {
    let name = Name {
        start: b"Program:",
        count: 33,
        byte: b'q',
    };
    only(to, Table::Others, name)?;
    only(to, Table::Tags, name)?;
    only(to, Table::Programs, name)?;
    only(to, Table::Structures, name)?;
    only(to, Table::Members, name)
}
