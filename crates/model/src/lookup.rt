// Lookups in table rows, each the first in table order.
ghost use Rattle.std.specs.Prelude.{◌≡◌, ◌+◌, ◌<◌, ◌≤◌, take, drop};
ghost use Rattle.definition.specs.Lookup.{id_in, member_in, local_in};
ghost use Rattle.model.specs.Rows.{program_is, tag_is, id_is, member_is, template_is, is_local_row};

use crate::columns::{
    MEMBER_HIDDEN, MEMBER_LOCAL, MEMBER_NAME_LENGTH, MEMBER_NAME_START, PROGRAM_NAME_LENGTH,
    PROGRAM_NAME_START, STRUCTURE_TEMPLATE, SYMBOL_ID, SYMBOL_SCOPE, TAG_NAME_LENGTH,
    TAG_NAME_START, TAG_SCOPE,
};

/// A part of a store or of a table; what runs past its end is cut off. Start and length are two columns of a
/// row, which may say anything, so they are no range yet.
pub fn part_of<T>(store: &[T], start: u32, n: u32) -> &[T]
    ensures { result.now ≡ take n (drop start store.now) }
{
    let rest = store.get(start as usize..).unwrap_or(&[]);
    rest.get(..n as usize).unwrap_or(rest)
}

/// The scope of a program's symbols, by its position.
pub fn program_scope(k: usize) -> u32
    requires { k ≤ 65535 }
    ensures { result ≡ k + 1 }
{
    k as u32 + 1
}

pub fn program_is(row: &[u32; 2], names: &[u8], name: &[u8]) -> bool
    ensures { result ≡ program_is names.now name.now row.now }
{
    path::same_name(
        part_of(names, row[PROGRAM_NAME_START], row[PROGRAM_NAME_LENGTH]),
        name,
    )
}

pub fn tag_is(row: &[u32; 12], tag_names: &[u8], scope: u32, name: &[u8]) -> bool
    ensures { result ≡ tag_is tag_names.now scope name.now row.now }
{
    row[TAG_SCOPE] == scope
        && path::same_name(
            part_of(tag_names, row[TAG_NAME_START], row[TAG_NAME_LENGTH]),
            name,
        )
}

/// A tag's or another symbol's row. Here and wherever rows of any width are taken a clause bounds the width: a const parameter has no bound in its type.
pub fn id_is<const N: usize>(row: &[u32; N], scope: u32, id: u32) -> bool
    requires { 3 < N }
    ensures { result ≡ id_is scope id row.now }
{
    row[SYMBOL_SCOPE] == scope && row[SYMBOL_ID] == id
}

/// The first of the tags, or of the other symbols, that has this scope and ID.
pub fn find_id<const N: usize>(rows: &[[u32; N]], scope: u32, id: u32) -> Option<usize>
    requires { 3 < N }
    ensures { result ≡ id_in rows.now scope id }
{
    let is_wanted = |row: &[u32; N]| -> bool
        requires { 3 < N }
        ensures { result ≡ id_is scope id row.now }
    { id_is(row, scope, id) };
    rows.iter().position(is_wanted)
}

fn member_is(row: &[u32; 9], names: &[u8], name: &[u8]) -> bool
    ensures { result ≡ member_is names.now name.now row.now }
{
    row[MEMBER_HIDDEN] != 1
        && path::same_name(
            part_of(names, row[MEMBER_NAME_START], row[MEMBER_NAME_LENGTH]),
            name,
        )
}

/// The first of some members that is not hidden and has this name.
pub fn find_member(members: &[[u32; 9]], names: &[u8], name: &[u8]) -> Option<usize>
    ensures { result ≡ member_in members.now names.now name.now }
{
    members.iter().position(|row| member_is(row, names, name))
}

pub fn template_is(row: &[u32; 10], id: u32) -> bool
    ensures { result ≡ template_is id row.now }
{
    row[STRUCTURE_TEMPLATE] == id
}

fn is_local(row: &[u32; 9]) -> bool
    ensures { result ≡ is_local_row row.now }
{
    row[MEMBER_LOCAL] == 1
}

/// Whether some member is a local; a hidden one counts.
pub fn has_local(members: &[[u32; 9]]) -> bool
    ensures { result ≡ local_in members.now }
{
    members.iter().any(is_local)
}
