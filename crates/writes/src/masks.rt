// Masked writes (0x4E): OR first, then AND, byte by byte at any width; and the masks of two in a row joined into those of one.
ghost use Rattle.std.specs.Prelude.{◌≡◌, [], ◌++◌, ◌+◌, ◌*◌, ◌≤◌, length};
ghost use Rattle.laws.specs.Put.{put};
ghost use Rattle.definition.specs.Bytes.{part};
ghost use Rattle.definition.specs.Masked.{masked, takes_mask, masked_stored};
ghost use Rattle.definition.specs.Joined.{pair, join_ors, join, joinable, joined_to};
ghost use Rattle.definition.specs.Types.{atomic_size};
ghost use Rattle.model.specs.Tables.{target_of};
ghost use Rattle.writes.specs.Storing.{Stores};

use cip::Status;
use model::Target;
use model::columns::NO_BIT;

/// Masks bytes, by as many OR masks and AND masks.
#[tactic(auto, using(crate::proofs::Masking::turns))]
fn apply_masks(bytes: &mut [u8], ors: &[u8], ands: &[u8])
    requires { (length ors.now ≡ length bytes.old) × (length ands.now ≡ length bytes.old) }
    ensures { bytes.new ≡ masked bytes.old ors.now ands.now }
{
    // indexes, here and in `add_ors`: a `zip` on `iter_mut` leaves nothing that an invariant can say of the bytes
    for (i, b) in bytes.iter_mut().enumerate() {
        *b = (*b | ors[i]) & ands[i];
    }
}

/// Whether a target takes masks of a size: no structure, no bit, no BOOL, REAL or LREAL.
#[tactic(auto, using(laws::proofs::Chain::tests), unfolding(definition::specs::Masked::takes_mask))]
fn takes_mask(g: Target, size: usize) -> bool
    ensures { result ≡ takes_mask (target_of g []) size }
{
    g.bit == NO_BIT
        && model::types::has_bits(g.ty)
        && model::types::atomic_size(g.ty) as usize == size
}

/// A masked write to a resolved target's first element.
#[tactic(auto, using(crate::proofs::Storing::stores), unfolding(definition::specs::Masked::masked_stored))]
pub fn masked_write(memory: &mut [u8], g: Target, body: &[u8]) -> Result<(), Status>
    requires { g.start + atomic_size g.ty ≤ length memory.old }
    ensures { Stores (masked_stored memory.old (target_of g []) body.now) memory.old result memory.new }
{
    // a length test: over `get(..2)` the proof needs one law more, that the first word of these two bytes is the body's
    if body.len() < 2 {
        return Err(Status::TooShort);
    }
    let size = usize::from(cip::u16_at(body, 0));
    let ands = 2 + size;
    let end = 2 + 2 * size;
    if body.len() < end {
        return Err(Status::TooShort);
    }
    if end < body.len() {
        return Err(Status::TooLong);
    }
    if !takes_mask(g, size) {
        return Err(Status::WrongType);
    }
    let bytes = &mut memory[g.start..g.start + size];
    apply_masks(bytes, &body[2..ands], &body[ands..end]);
    Ok(())
}

/// Adds the bits of the next OR masks to as many OR masks.
#[tactic(auto, using(crate::proofs::Masking::turns))]
fn add_ors(ors: &mut [u8], next: &[u8])
    requires { length next.now ≡ length ors.old }
    ensures { ors.new ≡ join_ors ors.old next.now }
{
    for (i, or) in ors.iter_mut().enumerate() {
        *or |= next[i];
    }
}

/// Whether two pairs of masks are of one length.
#[tactic(auto, using(laws::proofs::Chain::tests), unfolding(definition::specs::Joined::joinable))]
fn are_joinable(ors: &[u8], ands: &[u8], next_ors: &[u8], next_ands: &[u8]) -> bool
    ensures { result ≡ joinable (pair ors.now ands.now) (pair next_ors.now next_ands.now) }
{
    let size = ors.len();
    ands.len() == size && next_ors.len() == size && next_ands.len() == size
}

/// Joins the masks of a masked write with those of the next one to the same target, in the place of the first pair:
/// one masked write with them leaves what the two leave. The four are lent one by one, as by C. False where the four are not of one length; nothing is written then.
pub fn join_masks(ors: &mut [u8], ands: &mut [u8], next_ors: &[u8], next_ands: &[u8]) -> bool
    ensures { let first = pair ors.old ands.old in let next = pair next_ors.now next_ands.now in
        (result ≡ joinable first next) × (pair ors.new ands.new ≡ joined_to first next) }
{
    if !are_joinable(ors, ands, next_ors, next_ands) {
        return false;
    }
    // the AND masks are written to by the next pair as tag memory is
    apply_masks(ands, next_ors, next_ands);
    add_ors(ors, next_ors);
    true
}

/// The same where the first pair stands in its request: OR masks from a position on, and AND masks behind them.
pub fn join_at(request: &mut [u8], at: usize, next_ors: &[u8], next_ands: &[u8])
    requires { (length next_ands.now ≡ length next_ors.now) × (at + 2 * length next_ors.now ≤ length request.old) }
    ensures { let size = length next_ors.now in
        let masks = join (pair (part request.old at size) (part request.old (at + size) size))
        (pair next_ors.now next_ands.now) in
        request.new ≡ put request.old at (masks.ors ++ masks.ands) }
{
    let ands = at + next_ors.len();
    let end = ands + next_ors.len();
    add_ors(&mut request[at..ands], next_ors);
    apply_masks(&mut request[ands..end], next_ors, next_ands);
}
