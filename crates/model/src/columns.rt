// The columns of the tables' rows, by the names of `definition/specs/Tables`.

// A structure.
pub const STRUCTURE_NAME_START: usize = 0;

pub const STRUCTURE_NAME_LENGTH: usize = 1;

pub const STRUCTURE_TEMPLATE: usize = 2;

pub const STRUCTURE_HANDLE: usize = 3;

pub const STRUCTURE_SIZE: usize = 4;

pub const STRUCTURE_FIRST_MEMBER: usize = 5;

pub const STRUCTURE_MEMBERS: usize = 6;

pub const STRUCTURE_AOI: usize = 7;

pub const TEMPLATE_START: usize = 8;

pub const TEMPLATE_LENGTH: usize = 9;

// A member: a length of 0 is no array, a bit of 8 is none.
pub const MEMBER_NAME_START: usize = 0;

pub const MEMBER_NAME_LENGTH: usize = 1;

pub const MEMBER_TYPE: usize = 2;

pub const MEMBER_LENGTH: usize = 3;

pub const MEMBER_OFFSET: usize = 4;

pub const MEMBER_BIT: usize = 5;

pub const MEMBER_HIDDEN: usize = 6;

pub const MEMBER_LOCAL: usize = 7;

pub const MEMBER_ACCESS: usize = 8;

// A program: its name without `Program:`.
pub const PROGRAM_NAME_START: usize = 0;

pub const PROGRAM_NAME_LENGTH: usize = 1;

// A tag: scope 0 is the controller, k + 1 program k; three lengths, nonzero first.
pub const TAG_SCOPE: usize = 0;

pub const TAG_NAME_START: usize = 1;

pub const TAG_NAME_LENGTH: usize = 2;

pub const TAG_ID: usize = 3;

pub const TAG_TYPE: usize = 4;

pub const TAG_LENGTH_1: usize = 5;

pub const TAG_LENGTH_2: usize = 6;

pub const TAG_LENGTH_3: usize = 7;

pub const TAG_ELEMENTS: usize = 8;

pub const TAG_ACCESS: usize = 9;

pub const TAG_ALIAS: usize = 10;

pub const TAG_OFFSET: usize = 11;

// Another symbol.
pub const OTHER_SCOPE: usize = 0;

pub const OTHER_NAME_START: usize = 1;

pub const OTHER_NAME_LENGTH: usize = 2;

pub const OTHER_ID: usize = 3;

pub const OTHER_TYPE: usize = 4;

// A symbol, which is a tag or another symbol: both have their scope, their name and their ID at these columns.
pub const SYMBOL_SCOPE: usize = 0;

pub const SYMBOL_NAME_START: usize = 1;

pub const SYMBOL_NAME_LENGTH: usize = 2;

pub const SYMBOL_ID: usize = 3;

/// An access that turns writes away.
pub const READ_ONLY: u32 = 2;

/// The largest access, which turns reads away too; below 2 none is turned away.
pub const NO_ACCESS: u32 = 3;

/// The scope of the controller's own symbols; `lookup::program_scope` is a program's.
pub const CONTROLLER_SCOPE: u32 = 0;

/// A member's or a target's bit where it is no bit of a byte.
pub const NO_BIT: u32 = 8;
