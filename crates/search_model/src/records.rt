// What a table keeps of one place.
ghost use Rattle.std.specs.Prelude.{◌≡◌};
ghost use Rattle.search_model.specs.Expansion.{closed as closed_record};
ghost use Rattle.search_model.specs.Records.{is_open as is_open_record, is_unseen as is_unseen_record};

// What is known of a place: it has no label yet, it waits to be expanded, or it has been expanded.
#[derive(Clone, Copy, PartialEq, Eq, Debug)]
pub enum Mark {
    Unseen,
    Open,
    Closed,
}

// What is kept of one place: the number of its mark (0 unseen, 1 open, 2 closed); the label, the cost of the way found so far;
// the parent place and the number of the leg from it; and the estimates as they were when the label was given.
#[derive(Clone, Copy, PartialEq, Eq, Default, Debug)]
pub struct Record {
    // Stays: the table is lent, and the check of a table has to be able to refuse any mark.
    pub mark: u32,
    pub label: u32,
    // Stays: places are named by their numbers, since the table is lent and the library has no heap.
    pub parent: u32,
    pub leg: u32,
    pub low: u32,
    pub hope: u32,
    pub steps: u32,
}

impl Record {
    // Whether the place has no label yet.
    pub fn is_unseen(self) -> bool
        ensures { result ≡ is_unseen_record self }
    {
        self.mark == Mark::Unseen as u32
    }

    // Whether the place waits to be expanded.
    pub fn is_open(self) -> bool
        ensures { result ≡ is_open_record self }
    {
        self.mark == Mark::Open as u32
    }

    // The same record, closed.
    pub fn closed(self) -> Record
        ensures { result ≡ closed_record self }
    {
        Record {
            mark: Mark::Closed as u32,
            ..self
        }
    }
}
