// The table of a search: one node for each place, with the place's record and a seat in each queue.
#![tactic(auto)]

pub mod fresh;
pub mod node;
pub mod order;
pub mod rebound;
pub mod seats;
pub mod wanted;
