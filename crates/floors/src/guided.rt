// A floor that also offers two guesses for each place.
ghost use Rattle.std.specs.Prelude.{◌≡◌};
ghost use Rattle.floors.specs.Guided.{Guesses, Limited, described};

use crate::floor::Floor;

// The guesses need not be true, only within the limit; off the floor they are 0.
pub trait GuidedFloor: Floor {
    ghost guesses: { Self → Guesses };

    ghost limited: { (f : Self) → Limited (guesses f) };

    // The guessed cost to go.
    fn hope(&self, place: u32) -> u32
        ensures { result ≡ (described Self.GuidedFloor self.now).hope place };

    // The guessed number of legs to go.
    fn steps(&self, place: u32) -> u32
        ensures { result ≡ (described Self.GuidedFloor self.now).steps place };
}

// A borrowed guided floor is a guided floor.
// Stays: each method is passed on by name, as for a floor.
impl<F: GuidedFloor> GuidedFloor for &F {
    ghost guesses = { λ f. F.guesses f.now };

    ghost limited = { λ f. F.limited f.now };

    fn hope(&self, place: u32) -> u32 {
        (**self).hope(place)
    }

    fn steps(&self, place: u32) -> u32 {
        (**self).steps(place)
    }
}
