// The expansion of a place over a table.
#![tactic(auto)]

pub mod expand;
pub mod label;
