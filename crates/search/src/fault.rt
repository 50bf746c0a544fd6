// Why a call of a search is refused.
ghost use Rattle.std.specs.Prelude.{◌≡◌};
ghost use Rattle.search.specs.Faults.{search_number};

#[derive(Clone, Copy, PartialEq, Eq, Debug)]
pub enum SearchFault {
    StartOffFloor = 31,
    BadBound = 32,
    TableSize = 33,
    FloorSize = 34,
    BudgetTooLarge = 35,
    TableOutOfOrder = 36,
    ParentsAstray = 37,
    ListTooShort = 38,
}

// Stays: each kind of fault numbers itself, since a trait for it would be one more import for every caller.
impl SearchFault {
    // The number of the question.
    pub fn number(&self) -> u32
        ensures { result ≡ search_number self.now }
    {
        *self as u32
    }
}
