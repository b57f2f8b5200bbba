// A tag's three lengths, by value: as a page lists them, and as indexes are held against them.
ghost use Rattle.std.specs.Prelude.{◌≡◌, ◌≤◌, length};
ghost use Rattle.definition.specs.Tables.{field, tag_type};
ghost use Rattle.model.specs.Shapes.{dword_array, cut3, lengths3, nonzero3, shapes_of};

use crate::columns::{TAG_ELEMENTS, TAG_LENGTH_1, TAG_LENGTH_2, TAG_LENGTH_3, TAG_TYPE};
use cip::codes::DWORD;

/// A tag row's three lengths.
pub fn lengths_of(row: &[u32; 12]) -> [u32; 3]
    ensures { result ≡ lengths3 row.now }
{
    [row[TAG_LENGTH_1], row[TAG_LENGTH_2], row[TAG_LENGTH_3]]
}

/// How many lengths there are: those that are not 0 stand first.
pub fn count_lengths(lengths: [u32; 3]) -> usize
    ensures count { result ≡ length (nonzero3 lengths) }
    ensures three { result ≤ 3 }
{
    match lengths {
        [0, _, _] => 0,
        [_, 0, _] => 1,
        [_, _, 0] => 2,
        _ => 3,
    }
}

/// A DWORD tag with at least one length.
fn is_dword_array(row: &[u32; 12]) -> bool
    ensures { result ≡ dword_array (tag_type row.now) (field 5 row.now) }
{
    row[TAG_TYPE] == DWORD && row[TAG_LENGTH_1] != 0
}

/// Nonzero lengths first, and zeros from the first zero on.
fn cut_at_zero(lengths: [u32; 3]) -> [u32; 3]
    ensures { result ≡ cut3 lengths }
{
    match lengths {
        [0, _, _] => [0, 0, 0],
        [first, 0, _] => [first, 0, 0],
        _ => lengths,
    }
}

/// A tag row's lengths as a page lists them, and as indexes are held against them. A DWORD array lists its elements, and has one index below their
/// number; others list their lengths, and have an index for each that is not 0.
#[tactic(auto, using(laws::proofs::Chain::chain), unfolding(crate::specs::Shapes::shapes_of))]
pub fn shapes(row: &[u32; 12]) -> [[u32; 3]; 2]
    ensures { result ≡ shapes_of row.now }
{
    if is_dword_array(row) {
        let elements = [row[TAG_ELEMENTS], 0, 0];
        return [elements, elements];
    }
    let lengths = lengths_of(row);
    [lengths, cut_at_zero(lengths)]
}
