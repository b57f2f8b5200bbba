// The data model: types, table rows, lookups, the next symbol by its ID, and what a resolved path aims at.
#![tactic(auto)]

ghost use Rattle.std.specs.Prelude.{◌≡◌};
ghost use Rattle.model.specs.Tables.{flags_of, flags_in};

pub mod columns;
pub mod least;
pub mod limits;
pub mod lookup;
pub mod shapes;
pub mod tables;
pub mod types;

pub use tables::Tables;

/// What a controller takes; micro800 turns the first two off.
#[derive(Clone, Copy)]
pub struct Flags {
    pub multi_service: bool,
    pub instance_ids: bool,
    pub aoi_locals_refused: bool,
    pub micro800: bool,
}

impl From<u32> for Flags {
    ghost from_gives = { λ word flags. flags_of flags ≡ flags_in word };

    /// Flags by their bits, the least first.
    fn from(word: u32) -> Flags {
        Flags {
            multi_service: word % 2 == 1,
            instance_ids: word / 2 % 2 == 1,
            aoi_locals_refused: word / 4 % 2 == 1,
            micro800: word / 8 % 2 == 1,
        }
    }
}

/// A controller: its tables, and what it takes.
#[derive(Clone, Copy)]
pub struct Controller<'a> {
    pub tables: Tables<'a>,
    pub flags: Flags,
}

/// A place in tag memory: the tag's index, the first byte, the type word, the bytes of one element,
/// the elements from there to the array's end, the bit (8: none), the largest access on the path.
#[derive(Clone, Copy)]
pub struct Target {
    pub tag: usize,
    pub start: usize,
    pub ty: u32,
    pub size: usize,
    pub count: usize,
    // a number, 8 for none, as a member's row has it: with an `Option` each contract would say that a bit it holds is below 8
    pub bit: u32,
    pub access: u32,
}
