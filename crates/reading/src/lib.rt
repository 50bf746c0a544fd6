// A route, read from the table of a search.
#![tactic(auto)]

pub mod back;
pub mod measure;
pub mod places;
