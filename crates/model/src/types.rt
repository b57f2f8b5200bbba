// Atomic codes, type words, element sizes and type headers.
ghost use Rattle.std.specs.Prelude.{◌≡◌, [], ◌+◌, ◌-◌, ◌<◌, ◌≤◌, get_or, length};
ghost use Rattle.definition.specs.Tables.{field, handle};
ghost use Rattle.definition.specs.Types.{atomic_size, has_bits, is_structure, structure_in, size_in, type_header, symbol_type};
ghost use Rattle.cip.specs.Writes.{Written};

use crate::columns::{STRUCTURE_HANDLE, STRUCTURE_SIZE, STRUCTURE_TEMPLATE};
use cip::codes::{BOOL, LREAL, REAL, STRUCTURE_CODE};

/// The first structure's type word.
pub const FIRST_STRUCTURE: u32 = 0x100;

// BOOL, SINT, INT, DINT, LINT, USINT, UINT, UDINT, ULINT, REAL, LREAL
const NUMBER_SIZES: [u32; 11] = [1, 1, 2, 4, 8, 1, 2, 4, 8, 4, 8];
// BYTE, WORD, DWORD, LWORD
const BIT_STRING_SIZES: [u32; 4] = [1, 2, 4, 8];

/// The bytes of an atomic type, 0 for what is no atomic code.
#[tactic(auto, using(laws::proofs::Chain::chain), unfolding(definition::specs::Types::atomic_size))]
pub fn atomic_size(code: u32) -> u32
    ensures { result ≡ atomic_size code }
{
    match code {
        0xC1..=0xCB => NUMBER_SIZES[(code - 0xC1) as usize],
        0xD1..=0xD4 => BIT_STRING_SIZES[(code - 0xD1) as usize],
        _ => 0,
    }
}

/// Whether a masked write may change a type's bits.
#[tactic(auto, using(laws::proofs::Chain::tests), unfolding(definition::specs::Types::has_bits))]
pub fn has_bits(ty: u32) -> bool
    ensures { result ≡ has_bits ty }
{
    atomic_size(ty) != 0 && ty != BOOL && ty != REAL && ty != LREAL
}

pub fn is_structure(ty: u32) -> bool
    ensures { result ≡ is_structure ty }
{
    FIRST_STRUCTURE <= ty
}

pub fn index_of(ty: u32) -> usize
    ensures { result ≡ ty - 256 }
{
    ty.saturating_sub(FIRST_STRUCTURE) as usize
}

/// A column of a structure type's row.
pub fn structure_word(structures: &[[u32; 10]], ty: u32, column: usize) -> u32
    requires { column < 10 }
    ensures { result ≡ field column (structure_in structures.now ty) }
{
    structures.get(index_of(ty)).map_or(0, |row| row[column])
}

/// The handle of the structure in a row, whatever the row's number; 0 where there is no such row.
pub fn structure_handle(structures: &[[u32; 10]], i: usize) -> u32
    ensures { result ≡ handle (get_or structures.now i []) }
{
    structures.get(i).map_or(0, |row| row[STRUCTURE_HANDLE])
}

/// The bytes of one element of a type.
#[tactic(auto, using(laws::proofs::Chain::chain), unfolding(definition::specs::Types::size_in))]
pub fn element_size(structures: &[[u32; 10]], ty: u32) -> u32
    ensures { result ≡ size_in structures.now ty }
{
    if ty < FIRST_STRUCTURE {
        return atomic_size(ty);
    }
    structure_word(structures, ty, STRUCTURE_SIZE)
}

/// The type header at a position; returns its length, 2 or 4.
#[tactic(auto, unfolding(definition::specs::Types::type_header))]
pub fn put_type_header(buf: &mut [u8], at: usize, structures: &[[u32; 10]], ty: u32) -> usize
    requires { at + 4 ≤ length buf.old }
    ensures { Written at (type_header structures.now ty) buf.old result buf.new }
{
    if ty < FIRST_STRUCTURE {
        cip::put_u16(buf, at, ty as u16);
        return 2;
    }
    cip::put_u16(buf, at, STRUCTURE_CODE as u16);
    cip::put_u16(
        buf,
        at + 2,
        cip::low16(structure_handle(structures, index_of(ty)) as usize),
    );
    4
}

/// The symbol type: the code, or 0x8000 OR template ID, OR number of lengths × 0x2000.
#[tactic(auto, using(laws::proofs::Chain::chain), unfolding(definition::specs::Types::symbol_type))]
pub fn symbol_type(structures: &[[u32; 10]], ty: u32, lengths: u32) -> u32
    requires { lengths ≤ 3 }
    ensures { result ≡ symbol_type structures.now ty lengths }
{
    if ty < FIRST_STRUCTURE {
        return ty | (lengths * 0x2000);
    }
    (structure_word(structures, ty, STRUCTURE_TEMPLATE) | 0x8000) | (lengths * 0x2000)
}
