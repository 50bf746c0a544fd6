// What every part above asks of a floor, and nothing more.
ghost use Rattle.std.specs.Prelude.{◌≡◌};
ghost use Rattle.floors.specs.Meaning.{Meaning};
ghost use Rattle.floors.specs.Sound.{Sound};

use crate::leg::Leg;

// A floor says what it means and that this is sound: within the limits, empty off the floor, and with
// low estimates that no route to a goal undercuts. Its questions refuse nothing and are answered from the meaning.
pub trait Floor {
    ghost meaning: { Self → Meaning };

    ghost sound: { (f : Self) → Sound (meaning f) };

    // How many places there are.
    fn places(&self) -> u32
        ensures { result ≡ (meaning self.now).size };

    // How many legs the place has, barred ones among them.
    fn legs(&self, place: u32) -> u32
        ensures { result ≡ (meaning self.now).count place };

    // One leg of the place: where it leads and what it costs, or that it is barred.
    fn leg(&self, place: u32, number: u32) -> Option<Leg>
        ensures { result ≡ (meaning self.now).leg place number };

    // Whether the place is a goal.
    fn is_goal(&self, place: u32) -> bool
        ensures { result ≡ (meaning self.now).goal place };

    // The low estimate of the place.
    fn low(&self, place: u32) -> u32
        ensures { result ≡ (meaning self.now).low place };
}

// A borrowed floor is a floor.
// Stays: each method is passed on by name, since no macro of the repository may write an impl and Rust has no shorter form.
impl<F: Floor> Floor for &F {
    ghost meaning = { λ f. F.meaning f.now };

    ghost sound = { λ f. F.sound f.now };

    fn places(&self) -> u32 {
        (**self).places()
    }

    fn legs(&self, place: u32) -> u32 {
        (**self).legs(place)
    }

    fn leg(&self, place: u32, number: u32) -> Option<Leg> {
        (**self).leg(place, number)
    }

    fn is_goal(&self, place: u32) -> bool {
        (**self).is_goal(place)
    }

    fn low(&self, place: u32) -> u32 {
        (**self).low(place)
    }
}
