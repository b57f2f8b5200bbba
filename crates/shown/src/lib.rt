// Prints what is loaded: a line of counts, then a line for each tag and for each other symbol, its fields parted by tabs.
// What is written is tested and not proved. No function asks anything of its caller: a row that is not there has no name.
#![tactic(auto)]

mod words;

use model::columns::{
    OTHER_ID, OTHER_NAME_START, OTHER_SCOPE, OTHER_TYPE, PROGRAM_NAME_START, STRUCTURE_NAME_START,
    TAG_ACCESS, TAG_ID, TAG_NAME_START, TAG_OFFSET, TAG_SCOPE, TAG_TYPE,
};
use model::shapes::lengths_of;
use model::{Tables, types};
use std::{fmt, io};
use wording::name::name_of;

/// `controller`, or `Program:` and the program's name.
#[derive(Clone, Copy)]
struct Scope<'a> {
    number: u32,
    tables: &'a Tables<'a>,
}

impl<'a> fmt::Display for Scope<'a> {
    fn fmt<W: fmt::Write>(&self, f: &mut fmt::Formatter<W>) -> fmt::Result {
        let Some(row) = self.number.checked_sub(1) else {
            return f.write_str("controller");
        };
        f.write_str("Program:")?;
        match self.tables.programs.get(row as usize) {
            Some(row) => write!(f, "{}", name_of(row, PROGRAM_NAME_START, self.tables.names)),
            None => Ok(()),
        }
    }
}

/// The lengths of an array in brackets, nothing where it is none.
#[derive(Clone, Copy)]
struct Lengths([u32; 3]);

impl fmt::Display for Lengths {
    fn fmt<W: fmt::Write>(&self, f: &mut fmt::Formatter<W>) -> fmt::Result {
        let [first, second, third] = self.0;
        if first == 0 {
            return Ok(());
        }
        write!(f, "[{first}")?;
        for length in [second, third] {
            if length != 0 {
                write!(f, ",{length}")?;
            }
        }
        f.write_str("]")
    }
}

/// An atomic type's name, or a structure's; the code of a type that has none.
#[derive(Clone, Copy)]
struct Type<'a> {
    word: u32,
    tables: &'a Tables<'a>,
}

impl<'a> fmt::Display for Type<'a> {
    fn fmt<W: fmt::Write>(&self, f: &mut fmt::Formatter<W>) -> fmt::Result {
        let (word, t) = (self.word, self.tables);
        if types::is_structure(word) {
            return match t.structures.get(types::index_of(word)) {
                Some(row) => write!(f, "{}", name_of(row, STRUCTURE_NAME_START, t.names)),
                None => Ok(()),
            };
        }
        match words::atomic(word) {
            Some(name) => f.write_str(name),
            None => write!(f, "0x{word:02x}"),
        }
    }
}

// In the next two functions `t` is lent again by `&*t`: the borrow checker lays no parameter in a value that lives shorter.

/// tag, scope, name, type, lengths, access, ID, offset.
fn tag(to: &impl Print, row: &[u32; 12], t: &Tables) -> io::Result<()> {
    let scope = Scope {
        number: row[TAG_SCOPE],
        tables: &*t,
    };
    let name = name_of(row, TAG_NAME_START, t.tag_names);
    let ty = Type {
        word: row[TAG_TYPE],
        tables: &*t,
    };
    let lengths = Lengths(lengths_of(row));
    let access = words::access(row[TAG_ACCESS]);
    let (id, offset) = (row[TAG_ID], row[TAG_OFFSET]);
    println!(to; "tag\t{scope}\t{name}\t{ty}\t{lengths}\t{access}\t{id}\t{offset}")
}

/// other, scope, name, symbol type, and as a tag has them lengths and access, which are empty, and ID.
fn other(to: &impl Print, row: &[u32; 5], t: &Tables) -> io::Result<()> {
    let scope = Scope {
        number: row[OTHER_SCOPE],
        tables: &*t,
    };
    let name = name_of(row, OTHER_NAME_START, t.names);
    let (ty, id) = (row[OTHER_TYPE], row[OTHER_ID]);
    println!(to; "other\t{scope}\t{name}\t0x{ty:04x}\t\t\t{id}\t")
}

/// The rows of each table and the bytes of tag memory.
fn counts(to: &impl Print, t: &Tables, memory: &[u8]) -> io::Result<()> {
    println!(to;
        "structures={}\tmembers={}\tprograms={}\ttags={}\tothers={}\tmemory={}",
        t.structures.len(),
        t.members.len(),
        t.programs.len(),
        t.tags.len(),
        t.others.len(),
        memory.len()
    )
}

/// All that is loaded, to a stream.
pub fn show(to: &impl Print, t: &Tables, memory: &[u8]) -> io::Result<()> {
    counts(to, t, memory)?;
    t.tags.iter().try_for_each(|row| tag(to, row, t))?;
    t.others.iter().try_for_each(|row| other(to, row, t))
}
