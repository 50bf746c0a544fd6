// One call from a layout's bytes to a route: the intake, a begin, one advance, and a read of a settled search.
#![tactic(auto)]

pub mod answer;
pub mod fault;
mod floor_job;
pub mod refused;
pub mod run;
#[cfg(test)]
mod tests;
