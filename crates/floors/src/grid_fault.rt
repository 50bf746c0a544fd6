// Why a grid is refused.
ghost use Rattle.std.specs.Prelude.{◌≡◌};
ghost use Rattle.floors.specs.GridQuestions.{grid_number};

#[derive(Clone, Copy, PartialEq, Eq, Debug)]
pub enum GridFault {
    Width = 11,
    Height = 12,
    Bytes = 13,
    Goal = 14,
}

// Stays: each kind of fault numbers itself, since a trait for it would be one more import for every caller.
impl GridFault {
    // The number of the question.
    pub fn number(&self) -> u32
        ensures { result ≡ grid_number self.now }
    {
        *self as u32
    }
}

// A refused grid: why, and its cells as they were.
// Stays: what comes back has a name of its own for each kind of call; one type for all would call cells, layouts and searches the same.
#[derive(Drop)]
pub struct GridRefused {
    pub fault: GridFault,
    pub cells: Vec<u8>,
}
