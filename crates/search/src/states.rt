// What a search is after an answer, and what the answer reports.
ghost use Rattle.std.specs.Prelude.{◌≡◌};

use crate::fault::SearchFault;
use crate::running::Running;
use search_model::search::Search;

// A search that has chosen a goal: its route can be read, and it can be given another bound.
#[derive(Drop)]
pub struct Settled {
    pub(crate) state: Search,
    pub(crate) goal: u32,
}

// A search with nothing open. It takes no further call.
#[derive(Drop)]
pub struct Barren {
    pub(crate) state: Search,
}

// The expansions of this call, the total of the search, and the low mark: the least f of an open place, if any is open.
#[derive(Clone, Copy, PartialEq, Eq, Debug)]
pub struct Report {
    pub expansions: u64,
    pub total: u64,
    pub low_mark: Option<u32>,
}

// An answered advance: the search in its state, and the report.
#[derive(Drop)]
pub enum Advanced {
    More(Running, Report),
    Settled(Settled, Report),
    Barren(Barren, Report),
}

// A search advanced to its end.
// Stays: that this never is more is said by the variants, which a parameter of one type for both would hide.
#[derive(Drop)]
pub enum Ended {
    Settled(Settled, Report),
    Barren(Barren, Report),
}

// A refused call: why, and the search as it was.
// Stays: what comes back has a name of its own for each kind of call; one type for all would call cells, layouts and searches the same.
#[derive(Drop)]
pub struct Refused<S> {
    pub fault: SearchFault,
    pub back: S,
}

// The fault alone, where the search is let go.
impl<S: Drop> From<Refused<S>> for SearchFault {
    ghost from_gives = { λ refused r. r ≡ refused.fault };

    fn from(refused: Refused<S>) -> SearchFault {
        refused.fault
    }
}
