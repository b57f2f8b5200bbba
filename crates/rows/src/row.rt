// The tests of one row: its encoding, its name, its fields.
ghost use Rattle.std.specs.Prelude.{◌≡◌, ◌+◌, ◌*◌, ltb, leb, get_or};
ghost use Rattle.laws.specs.Pick.{both};
ghost use Rattle.laws.specs.Tests.{every};
ghost use Rattle.definition.specs.Names.{starts_with};
ghost use Rattle.definition.specs.Valid.{is_name, other_length, is_other_name, is_type, member_fits, structure_fits, zeros_last, tag_fits, end_in, is_bool_array};
ghost use Rattle.definition.specs.Tables.{tag_lengths};
ghost use Rattle.definition.specs.Breach.{name_length, name_bytes, has_elements, ends_within};
ghost use Rattle.rows.specs.Judged.{name_judged, structure_named, structure_judged, member_judged, program_judged, tag_judged, other_named, other_judged, zeros_last3, product3};

use cip::codes::DWORD;
use model::columns::{
    MEMBER_ACCESS, MEMBER_BIT, MEMBER_HIDDEN, MEMBER_LENGTH, MEMBER_LOCAL, MEMBER_NAME_LENGTH,
    MEMBER_NAME_START, MEMBER_OFFSET, MEMBER_TYPE, NO_ACCESS, NO_BIT, OTHER_ID, OTHER_NAME_LENGTH,
    OTHER_NAME_START, OTHER_SCOPE, OTHER_TYPE, PROGRAM_NAME_LENGTH, PROGRAM_NAME_START,
    STRUCTURE_AOI, STRUCTURE_FIRST_MEMBER, STRUCTURE_HANDLE, STRUCTURE_MEMBERS,
    STRUCTURE_NAME_LENGTH, STRUCTURE_NAME_START, STRUCTURE_SIZE, STRUCTURE_TEMPLATE, TAG_ACCESS,
    TAG_ALIAS, TAG_ELEMENTS, TAG_ID, TAG_LENGTH_1, TAG_LENGTH_2, TAG_NAME_LENGTH, TAG_NAME_START,
    TAG_OFFSET, TAG_SCOPE, TAG_TYPE, TEMPLATE_LENGTH, TEMPLATE_START,
};
use model::lookup::part_of;
use model::shapes::lengths_of;
use model::types::{self, FIRST_STRUCTURE};

fn is_printable(b: u8) -> bool
    ensures { result ≡ both (leb 0x20 b) (leb b 0x7E) }
{
    (0x20..=0x7E).contains(&b)
}

/// 1 to 40 bytes.
#[tactic(auto, using(laws::proofs::Chain::tests), unfolding(definition::specs::Breach::name_length))]
pub fn name_length(name: &[u8]) -> bool
    ensures { result ≡ name_length name.now }
{
    (1..=40).contains(&name.len())
}

/// Each byte 0x20 to 0x7E.
#[tactic(auto, using(laws::proofs::Chain::tests), unfolding(definition::specs::Breach::name_bytes))]
pub fn name_bytes(name: &[u8]) -> bool
    ensures { result ≡ name_bytes name.now }
{
    name.iter().all(|b| is_printable(*b))
}

/// 1 to 40 bytes 0x20 to 0x7E.
#[tactic(auto, using(laws::proofs::Chain::tests, crate::proofs::Laws::is_name_by))]
pub fn is_name(name: &[u8]) -> bool
    ensures { result ≡ is_name name.now }
{
    name_length(name) && name_bytes(name)
}

/// The prefixes that do not count to the length of an other symbol's name.
const PREFIXES: [&[u8]; 3] = [b"program:", b"routine:", b"task:"];

/// A name's first bytes are a prefix's, case ignored.
#[tactic(auto, using(laws::proofs::Chain::tests), unfolding(definition::specs::Names::starts_with))]
fn starts_with(name: &[u8], prefix: &[u8]) -> bool
    ensures { result ≡ starts_with prefix.now name.now }
{
    let start = name.get(..prefix.len()).unwrap_or(name);
    path::same_name(start, prefix)
}

/// P2: 0 to 40 bytes behind a prefix, 1 to 40 in all without one. A name of 1 to 40 bytes is short enough with a prefix too.
pub fn other_length(name: &[u8]) -> bool
    ensures { result ≡ other_length name.now }
{
    name_length(name)
        || PREFIXES.iter().any(|prefix| starts_with(name, prefix)
            && name.len() <= prefix.len() + 40)
}

/// An other symbol's name: as many bytes as it may have, each 0x20 to 0x7E.
#[tactic(auto, using(laws::proofs::Chain::tests), unfolding(definition::specs::Valid::is_other_name, definition::specs::Breach::name_bytes))]
pub fn is_other_name(name: &[u8]) -> bool
    ensures { result ≡ is_other_name name.now }
{
    other_length(name) && name_bytes(name)
}

/// A sum of two words is at most a length.
pub fn within(a: u32, b: u32, n: usize) -> bool
    ensures { result ≡ leb (a + b) n }
{
    a as usize + b as usize <= n
}

/// A name that stands in its store and is one, by two columns of its row, which may say anything.
#[tactic(auto, using(laws::proofs::Chain::tests), unfolding(crate::specs::Judged::name_judged))]
pub fn name_judged(store: &[u8], start: u32, n: u32) -> bool
    ensures { result ≡ name_judged store.now start n }
{
    within(start, n, store.len()) && is_name(part_of(store, start, n))
}

/// An atomic code, or a structure below an index.
#[tactic(auto, using(laws::proofs::Chain::chain), unfolding(definition::specs::Valid::is_type))]
pub fn is_type(bound: usize, ty: u32) -> bool
    ensures { result ≡ is_type bound ty }
{
    if ty < FIRST_STRUCTURE {
        return 0 < types::atomic_size(ty);
    }
    types::index_of(ty) < bound
}

/// `start` plus `n` times `size`, which fits 64 bits: three columns, and no range.
fn end_of(start: u32, n: u32, size: u32) -> u64
    ensures { result ≡ start + n * size }
{
    u64::from(start) + u64::from(n) * u64::from(size)
}

/// All array elements counted, a member ends in `size` bytes.
#[tactic(auto, using(laws::proofs::Chain::tests), unfolding(definition::specs::Breach::ends_within))]
pub fn member_inside(row: &[u32; 9], structures: &[[u32; 10]], size: u32) -> bool
    ensures { result ≡ ends_within structures.now size row.now }
{
    let bytes = types::element_size(structures, row[MEMBER_TYPE]);
    end_of(row[MEMBER_OFFSET], bytes, row[MEMBER_LENGTH].max(1)) <= u64::from(size)
}

/// A member of structure i, which has `size` bytes.
#[tactic(auto, using(laws::proofs::Chain::tests), unfolding(definition::specs::Valid::member_fits, definition::specs::Breach::ends_within))]
fn member_fits(row: &[u32; 9], structures: &[[u32; 10]], i: usize, size: u32) -> bool
    ensures { result ≡ member_fits structures.now i size row.now }
{
    is_type(i, row[MEMBER_TYPE])
        && member_inside(row, structures, size)
        && row[MEMBER_BIT] <= NO_BIT
}

fn members_fit(members: &[[u32; 9]], structures: &[[u32; 10]], i: usize, size: u32) -> bool
    ensures { result ≡ every (member_fits structures.now i size) members.now }
{
    members
        .iter()
        .all(|row| member_fits(row, structures, i, size))
}

pub fn fits16(x: u32) -> bool
    ensures { result ≡ leb x 65535 }
{
    x <= 65535
}

/// 1 to 65,535 bytes.
#[tactic(auto, using(laws::proofs::Chain::tests))]
pub fn size_fits(size: u32) -> bool
    ensures { result ≡ both (ltb 0 size) (leb size 65535) }
{
    0 < size && fits16(size)
}

/// A structure's name, its numbers' widths and its mark.
#[tactic(auto, using(laws::proofs::Chain::tests), unfolding(crate::specs::Judged::structure_named))]
fn structure_named(row: &[u32; 10], names: &[u8]) -> bool
    ensures { result ≡ structure_named names.now row.now }
{
    name_judged(names, row[STRUCTURE_NAME_START], row[STRUCTURE_NAME_LENGTH])
        && fits16(row[STRUCTURE_TEMPLATE])
        && fits16(row[STRUCTURE_HANDLE])
        && row[STRUCTURE_AOI] <= 1
}

/// T4 of the row of structure i.
#[tactic(auto, using(laws::proofs::Chain::tests, crate::proofs::Laws::structure_fits_by))]
fn structure_fits(
    row: &[u32; 10],
    structures: &[[u32; 10]],
    members: &[[u32; 9]],
    templates: usize,
    i: usize,
) -> bool
    ensures { result ≡ structure_fits structures.now members.now templates i row.now }
{
    let size = row[STRUCTURE_SIZE];
    let its_members = part_of(members, row[STRUCTURE_FIRST_MEMBER], row[STRUCTURE_MEMBERS]);
    size_fits(size)
        && within(row[TEMPLATE_START], row[TEMPLATE_LENGTH], templates)
        && members_fit(its_members, structures, i, size)
}

/// The row of structure i.
#[tactic(auto, using(laws::proofs::Chain::tests), unfolding(crate::specs::Judged::structure_judged))]
pub fn structure_judged(
    row: &[u32; 10],
    structures: &[[u32; 10]],
    members: &[[u32; 9]],
    names: &[u8],
    templates: usize,
    i: usize,
) -> bool
    ensures { result ≡ structure_judged structures.now members.now names.now templates i row.now }
{
    structure_named(row, names)
        && within(
            row[STRUCTURE_FIRST_MEMBER],
            row[STRUCTURE_MEMBERS],
            members.len(),
        )
        && structure_fits(row, structures, members, templates, i)
}

/// A member row by itself.
#[tactic(auto, using(laws::proofs::Chain::tests), unfolding(crate::specs::Judged::member_judged))]
pub fn member_judged(row: &[u32; 9], names: &[u8], structures: usize) -> bool
    ensures { result ≡ member_judged names.now structures row.now }
{
    name_judged(names, row[MEMBER_NAME_START], row[MEMBER_NAME_LENGTH])
        && is_type(structures, row[MEMBER_TYPE])
        && row[MEMBER_HIDDEN] <= 1
        && row[MEMBER_LOCAL] <= 1
        && row[MEMBER_ACCESS] <= NO_ACCESS
        && row[MEMBER_BIT] <= NO_BIT
}

#[tactic(auto, using(laws::proofs::Chain::tests), unfolding(crate::specs::Judged::program_judged))]
pub fn program_judged(row: &[u32; 2], names: &[u8]) -> bool
    ensures { result ≡ program_judged names.now row.now }
{
    name_judged(names, row[PROGRAM_NAME_START], row[PROGRAM_NAME_LENGTH])
}

/// Nonzero lengths first, and zeros after.
#[tactic(auto, using(laws::proofs::Chain::chain))]
fn zeros_last(lengths: [u32; 3]) -> bool
    ensures { result ≡ zeros_last3 (get_or lengths 0 0) (get_or lengths 1 0) (get_or lengths 2 0) }
{
    match lengths {
        [0, b, c] => b == 0 && c == 0,
        [_, 0, c] => c == 0,
        _ => true,
    }
}

/// A tag's nonzero lengths stand first.
pub fn lengths_first(row: &[u32; 12]) -> bool
    ensures { result ≡ zeros_last (tag_lengths row.now) }
{
    zeros_last(lengths_of(row))
}

/// The product of the nonzero lengths, which may exceed 64 bits.
#[tactic(auto, using(laws::proofs::Chain::chain))]
fn product(lengths: [u32; 3]) -> u128
    ensures { result ≡ product3 (get_or lengths 0 0) (get_or lengths 1 0) (get_or lengths 2 0) }
{
    let [a, b, c] = lengths;
    let two = u128::from(a) * u128::from(b);
    match lengths {
        [0, _, _] => 1,
        [_, 0, _] => u128::from(a),
        [_, _, 0] => two,
        _ => two * u128::from(c),
    }
}

/// A DWORD tag with one length 32k may have k elements.
#[tactic(auto, using(laws::proofs::Chain::tests, crate::proofs::Laws::bool_array_by))]
fn is_bool_array(row: &[u32; 12]) -> bool
    ensures { result ≡ is_bool_array row.now }
{
    row[TAG_TYPE] == DWORD
        && row[TAG_LENGTH_1] != 0
        && row[TAG_LENGTH_2] == 0
        && u64::from(row[TAG_ELEMENTS]) * 32 == u64::from(row[TAG_LENGTH_1])
}

/// A tag has the product of its lengths in elements, or a BOOL array's.
#[tactic(auto, using(laws::proofs::Chain::eithers, crate::proofs::Laws::elements_by))]
pub fn elements_fit(row: &[u32; 12]) -> bool
    ensures { result ≡ has_elements row.now }
{
    u128::from(row[TAG_ELEMENTS]) == product(lengths_of(row)) || is_bool_array(row)
}

/// T5 of a tag row.
#[tactic(auto, using(laws::proofs::Chain::tests), unfolding(definition::specs::Valid::tag_fits, definition::specs::Breach::has_elements))]
fn tag_fits(row: &[u32; 12], structures: usize) -> bool
    ensures { result ≡ tag_fits structures row.now }
{
    is_type(structures, row[TAG_TYPE]) && lengths_first(row) && elements_fit(row)
}

/// Where a tag's bytes end.
pub fn tag_end(row: &[u32; 12], structures: &[[u32; 10]]) -> u64
    ensures { result ≡ end_in structures.now row.now }
{
    end_of(
        row[TAG_OFFSET],
        row[TAG_ELEMENTS],
        types::element_size(structures, row[TAG_TYPE]),
    )
}

/// A tag's bytes end in a memory of so many.
pub fn tag_within(row: &[u32; 12], structures: &[[u32; 10]], memory: usize) -> bool
    ensures { result ≡ leb (end_in structures.now row.now) memory }
{
    tag_end(row, structures) <= memory as u64
}

/// A tag row by itself.
#[tactic(auto, using(laws::proofs::Chain::tests), unfolding(crate::specs::Judged::tag_judged))]
pub fn tag_judged(
    row: &[u32; 12],
    structures: &[[u32; 10]],
    tag_names: &[u8],
    programs: usize,
    memory: usize,
) -> bool
    ensures { result ≡ tag_judged structures.now tag_names.now programs memory row.now }
{
    row[TAG_SCOPE] as usize <= programs
        && name_judged(tag_names, row[TAG_NAME_START], row[TAG_NAME_LENGTH])
        && row[TAG_ALIAS] <= 1
        && row[TAG_ACCESS] <= NO_ACCESS
        && row[TAG_ID] != 0
        && tag_fits(row, structures.len())
        && tag_within(row, structures, memory)
}

/// Another symbol's name stands in its store and is one.
#[tactic(auto, using(laws::proofs::Chain::tests), unfolding(crate::specs::Judged::other_named))]
fn other_named(row: &[u32; 5], names: &[u8]) -> bool
    ensures { result ≡ other_named names.now row.now }
{
    within(row[OTHER_NAME_START], row[OTHER_NAME_LENGTH], names.len())
        && is_other_name(part_of(names, row[OTHER_NAME_START], row[OTHER_NAME_LENGTH]))
}

/// Another symbol's row by itself.
#[tactic(auto, using(laws::proofs::Chain::tests), unfolding(crate::specs::Judged::other_judged))]
pub fn other_judged(row: &[u32; 5], names: &[u8], programs: usize) -> bool
    ensures { result ≡ other_judged names.now programs row.now }
{
    row[OTHER_SCOPE] as usize <= programs
        && other_named(row, names)
        && fits16(row[OTHER_TYPE])
        && row[OTHER_ID] != 0
}
