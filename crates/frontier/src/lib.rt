// The open places of a table while an advance runs: the start, the choices, the changes and the end.
#![tactic(auto)]

pub mod choose;
pub mod ending;
pub mod frontier;
pub mod moves;
mod side;
pub mod start;
