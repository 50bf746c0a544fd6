// An indexed queue that holds exactly the homes that are expected in it, each with its expected entry.
#![tactic(auto)]

pub mod check;
pub mod update;
