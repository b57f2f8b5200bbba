// Attribute lists, symbol pages and template reads.
#![tactic(auto)]

pub mod attributes;
pub mod numbers;
pub mod pages;
pub mod requests;
pub mod symbols;
pub mod templates;
mod values;
