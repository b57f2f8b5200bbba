// The tests of two rows: names, IDs and bytes.
ghost use Rattle.std.specs.Prelude.{◌≡◌, ◌<◌, not, eqb};
ghost use Rattle.laws.specs.Pick.{both};
ghost use Rattle.definition.specs.Valid.{other_names_differ, program_names_differ, ids_differ, apart};
ghost use Rattle.rows.specs.Judged.{tag_pair, tag_other};

use crate::row;
use model::columns::{
    PROGRAM_NAME_LENGTH, PROGRAM_NAME_START, SYMBOL_ID, SYMBOL_NAME_LENGTH, SYMBOL_NAME_START,
    SYMBOL_SCOPE, TAG_OFFSET,
};
use model::lookup::part_of;

/// Two symbols, tags or others, of one scope have different names; each name stands in a store of its own.
#[tactic(auto, using(laws::proofs::Chain::unlike), unfolding(definition::specs::Valid::other_names_differ))]
pub fn names_differ<const N: usize, const M: usize>(
    a: &[u32; N],
    b: &[u32; M],
    names_of_a: &[u8],
    names_of_b: &[u8],
) -> bool
    requires { (3 < N) × (3 < M) }
    ensures { result ≡ other_names_differ names_of_a.now names_of_b.now a.now b.now }
{
    a[SYMBOL_SCOPE] != b[SYMBOL_SCOPE]
        || !path::same_name(
            part_of(names_of_a, a[SYMBOL_NAME_START], a[SYMBOL_NAME_LENGTH]),
            part_of(names_of_b, b[SYMBOL_NAME_START], b[SYMBOL_NAME_LENGTH]),
        )
}

/// Two symbols of one scope have different IDs. It takes scopes and IDs alone, as of symbols that stand in no row.
#[tactic(auto, using(laws::proofs::Chain::unlike))]
pub fn numbers_differ(scope: u32, id: u32, other_scope: u32, other_id: u32) -> bool
    ensures { result ≡ not (both (eqb scope other_scope) (eqb id other_id)) }
{
    scope != other_scope || id != other_id
}

/// Two symbols, tags or others, of one scope have different IDs.
#[tactic(auto, unfolding(definition::specs::Valid::ids_differ))]
pub fn ids_differ<const N: usize, const M: usize>(a: &[u32; N], b: &[u32; M]) -> bool
    requires { (3 < N) × (3 < M) }
    ensures { result ≡ ids_differ a.now b.now }
{
    numbers_differ(a[SYMBOL_SCOPE], a[SYMBOL_ID], b[SYMBOL_SCOPE], b[SYMBOL_ID])
}

/// The bytes of two tags.
#[tactic(auto, using(laws::proofs::Chain::eithers), unfolding(definition::specs::Valid::apart))]
pub fn bytes_apart(a: &[u32; 12], b: &[u32; 12], structures: &[[u32; 10]]) -> bool
    ensures { result ≡ apart structures.now a.now b.now }
{
    row::tag_end(a, structures) <= u64::from(b[TAG_OFFSET])
        || row::tag_end(b, structures) <= u64::from(a[TAG_OFFSET])
}

#[tactic(auto, using(laws::proofs::Chain::refusals), unfolding(crate::specs::Judged::tag_pair, definition::specs::Valid::tag_names_differ, definition::specs::Valid::other_names_differ))]
pub fn tag_pair(a: &[u32; 12], b: &[u32; 12], structures: &[[u32; 10]], tag_names: &[u8]) -> bool
    ensures { result ≡ tag_pair structures.now tag_names.now a.now b.now }
{
    names_differ(a, b, tag_names, tag_names) && ids_differ(a, b) && bytes_apart(a, b, structures)
}

#[tactic(auto, using(laws::proofs::Chain::refusals), unfolding(crate::specs::Judged::tag_other))]
pub fn tag_other(a: &[u32; 12], b: &[u32; 5], tag_names: &[u8], names: &[u8]) -> bool
    ensures { result ≡ tag_other tag_names.now names.now a.now b.now }
{
    names_differ(a, b, tag_names, names) && ids_differ(a, b)
}

#[tactic(auto, using(laws::proofs::Chain::unlike), unfolding(definition::specs::Valid::program_names_differ))]
pub fn program_pair(a: &[u32; 2], b: &[u32; 2], names: &[u8]) -> bool
    ensures { result ≡ program_names_differ names.now a.now b.now }
{
    !path::same_name(
        part_of(names, a[PROGRAM_NAME_START], a[PROGRAM_NAME_LENGTH]),
        part_of(names, b[PROGRAM_NAME_START], b[PROGRAM_NAME_LENGTH]),
    )
}
