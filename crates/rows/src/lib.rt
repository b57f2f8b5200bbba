// The tests of a table set's rows: of one row (its encoding, its name, its fields) and of two (names, IDs and bytes).
#![tactic(auto)]

pub mod pair;
pub mod row;
