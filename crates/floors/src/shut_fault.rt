// Why a place is not shut or not unshut.
ghost use Rattle.std.specs.Prelude.{◌≡◌};
ghost use Rattle.floors.specs.ShutQuestions.{shut_number};

#[derive(Clone, Copy, PartialEq, Eq, Debug)]
pub enum ShutFault {
    NoPlace = 21,
    AlreadyShut = 22,
    TooMany = 23,
    NotShut = 24,
}

// Stays: each kind of fault numbers itself, since a trait for it would be one more import for every caller.
impl ShutFault {
    // The number of the question.
    pub fn number(&self) -> u32
        ensures { result ≡ shut_number self.now }
    {
        *self as u32
    }
}
