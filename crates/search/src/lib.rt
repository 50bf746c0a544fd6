// The calls of a search over a table: begin, advance, rebound and read, and the guarantee over every run of them.
#![tactic(auto)]

ghost use Rattle.search.specs.Runs.{Guarantee};

pub mod advance;
pub mod begin;
pub mod fault;
mod next;
pub mod questions;
pub mod read;
pub mod rebound;
pub mod running;
pub mod states;
pub mod to_end;
mod turns;

// After an accepted begin every run of calls with these promises keeps the guarantee.
pub fn guarantee_holds()
    ensures { Guarantee }
{}
