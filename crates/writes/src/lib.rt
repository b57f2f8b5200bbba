// Writes and masked writes of a resolved target in tag memory. A write that is refused stores nothing.
#![tactic(auto)]

pub mod bits;
pub mod masks;
pub mod values;
