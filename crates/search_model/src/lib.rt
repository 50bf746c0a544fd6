// The definition of the search over what a floor means and a list of records, and what it guarantees.
#![tactic(auto)]

ghost use Rattle.search_model.specs.Cases.{WorkedCases};
ghost use Rattle.search_model.specs.Ending.{Ending};
ghost use Rattle.search_model.specs.Fields.{LimitsKept};
ghost use Rattle.search_model.specs.Run.{Guarantee};

pub mod bound;
pub mod records;
pub mod search;

// Every run from a begin keeps the guarantee: bound, completeness and count.
pub fn guarantee_holds()
    ensures { Guarantee }
{}

// Each expansion lowers the potential, over any records.
pub fn search_ends()
    ensures { Ending }
{}

// Records stay within their limits.
pub fn limits_kept()
    ensures { LimitsKept }
{}

// The definition comes to what the worked cases say.
pub fn worked_cases()
    ensures { WorkedCases }
{}
