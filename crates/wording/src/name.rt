// The name of a row: its bytes in their store, and how it is shown.
ghost use Rattle.std.specs.Prelude.{◌≡◌, ◌+◌, ◌<◌, take, drop, get_or};

use model::Tables;
use model::columns::{
    MEMBER_NAME_START, OTHER_NAME_START, PROGRAM_NAME_START, STRUCTURE_NAME_START, TAG_NAME_START,
};
use model::lookup::part_of;
use std::fmt;
use tables::rules::{Place, Table};

/// The longest name that is one, of an other symbol with its prefix. A longer one is cut here, so that a wrong length does not fill the screen.
const SHOWN: usize = 48;

/// Bytes that need not be text: each as it is, or as `\xHH` where it is no sign that a line of text can show.
#[derive(Clone, Copy)]
pub struct Signs<'a>(pub &'a [u8]);

impl<'a> fmt::Display for Signs<'a> {
    fn fmt<W: fmt::Write>(&self, f: &mut fmt::Formatter<W>) -> fmt::Result {
        for &b in self.0 {
            match b {
                b' '..=b'~' => f.write_char(char::from(b))?,
                _ => write!(f, "\\x{b:02X}")?,
            }
        }
        Ok(())
    }
}

/// As much of a name as is shown.
#[derive(Clone, Copy)]
pub struct Name<'a>(pub &'a [u8]);

impl<'a> fmt::Display for Name<'a> {
    fn fmt<W: fmt::Write>(&self, f: &mut fmt::Formatter<W>) -> fmt::Result {
        match self.0.get(..SHOWN) {
            Some(start) if SHOWN < self.0.len() => write!(f, "{}..", Signs(start)),
            _ => write!(f, "{}", Signs(self.0)),
        }
    }
}

/// A row's name, as far as it stands in its store: two words of the row say where it starts and how long it is.
pub fn name_of<'a, const N: usize>(row: &[u32; N], start: usize, store: &'a [u8]) -> Name<'a>
    requires { start + 1 < N }
    ensures { result.0.now ≡ take (get_or row.now (start + 1) 0) (drop (get_or row.now start 0) store.now) }
{
    Name(part_of(store, row[start], row[start + 1]))
}

/// The name of a row that is there. None where it is empty, and none where it does not stand in its store, of which only a piece is there.
fn name_in<'a, const N: usize>(
    rows: &[[u32; N]],
    row: usize,
    start: usize,
    store: &'a [u8],
) -> Option<Name<'a>>
    requires { start + 1 < N }
{
    let row = rows.get(row)?;
    let name = name_of(row, start, store);
    if name.0.is_empty() || name.0.len() < row[start + 1] as usize {
        return None;
    }
    Some(name)
}

/// The name of a row, if it has one. The names of tags have a store of their own.
pub(crate) fn name_at<'a>(t: &Tables<'a>, at: Place) -> Option<Name<'a>> {
    let row = at.row;
    match at.table {
        Table::Structures => name_in(t.structures, row, STRUCTURE_NAME_START, t.names),
        Table::Members => name_in(t.members, row, MEMBER_NAME_START, t.names),
        Table::Programs => name_in(t.programs, row, PROGRAM_NAME_START, t.names),
        Table::Tags => name_in(t.tags, row, TAG_NAME_START, t.tag_names),
        Table::Others => name_in(t.others, row, OTHER_NAME_START, t.names),
        Table::Memory | Table::Templates => None,
    }
}
