// The shut floor: a floor with places that no leg enters.
ghost use Rattle.std.specs.Prelude.{◌≡◌, ◌≤◌, nat_lt};
ghost use Rattle.floors.specs.Questions.{first_no, refusal};
ghost use Rattle.floors.specs.Shut.{no_places, contains, members, shut_floor};
ghost use Rattle.floors.specs.ShutQuestions.{shut_number, shut_questions, unshut_questions, after_shut, after_unshut};
ghost use Rattle.floors.specs.ShutSound.{shut_sound};

use crate::floor::Floor;
use crate::guided::GuidedFloor;
use crate::leg::Leg;
use crate::shut_fault::ShutFault;
use crate::shut_set::ShutSet;

// A floor, by value or borrowed, and the set of its shut places.
#[derive(Drop)]
pub struct Shut<F> {
    floor: F,
    places: ShutSet,
}

impl<F> Shut<F> {
    // The floor with no place shut.
    pub fn new(floor: F) -> Shut<F>
        ensures floor { result.floor ≡ floor }
        ensures places { result.places ≡ no_places }
    {
        Shut {
            floor,
            places: ShutSet::new(),
        }
    }

    // The floor below again.
    pub fn into_floor(self) -> F
        ensures { result ≡ self.floor }
    {
        let Shut { floor, .. } = self;
        floor
    }

    // Whether the place is shut.
    pub fn is_shut(&self, place: u32) -> bool
        ensures { result ≡ contains self.now.places place }
    {
        self.places.contains(place)
    }

    // How many places are shut.
    pub fn count(&self) -> u32
        ensures count { result ≡ members self.now.places }
        ensures few { result ≤ 64 }
    {
        self.places.count()
    }
}

impl<F: Floor> Shut<F> {
    // Whether it is a place of the floor.
    fn is_place(&self, place: u32) -> bool
        ensures { result ≡ nat_lt place (F.meaning self.now.floor).size }
    {
        place < Floor::places(self)
    }

    // The questions of `shut`.
    fn ask_shut(&self, place: u32) -> Result<(), ShutFault>
        ensures { refusal shut_number result ≡ first_no (shut_questions (F.meaning self.now.floor).size self.now.places place) }
    {
        if !self.is_place(place) {
            return Err(ShutFault::NoPlace);
        }
        if self.is_shut(place) {
            return Err(ShutFault::AlreadyShut);
        }
        if self.count() >= 64 {
            return Err(ShutFault::TooMany);
        }
        Ok(())
    }

    // The questions of `unshut`.
    fn ask_unshut(&self, place: u32) -> Result<(), ShutFault>
        ensures { refusal shut_number result ≡ first_no (unshut_questions (F.meaning self.now.floor).size self.now.places place) }
    {
        if !self.is_place(place) {
            return Err(ShutFault::NoPlace);
        }
        if !self.is_shut(place) {
            return Err(ShutFault::NotShut);
        }
        Ok(())
    }

    // Bars every leg into the place.
    pub fn shut(&mut self, place: u32) -> Result<(), ShutFault>
        ensures answer { refusal shut_number result ≡ first_no (shut_questions (F.meaning self.old.floor).size self.old.places place) }
        ensures places { self.new.places ≡ after_shut (F.meaning self.old.floor).size self.old.places place }
        ensures floor { self.new.floor ≡ self.old.floor }
    {
        self.ask_shut(place)?;
        self.places.set(place, true);
        Ok(())
    }

    // Lets legs into the place again.
    pub fn unshut(&mut self, place: u32) -> Result<(), ShutFault>
        ensures answer { refusal shut_number result ≡ first_no (unshut_questions (F.meaning self.old.floor).size self.old.places place) }
        ensures places { self.new.places ≡ after_unshut (F.meaning self.old.floor).size self.old.places place }
        ensures floor { self.new.floor ≡ self.old.floor }
    {
        self.ask_unshut(place)?;
        self.places.set(place, false);
        Ok(())
    }
}

// Stays: what a shut floor does not change is passed on by name, as for a borrowed floor.
impl<F: Floor> Floor for Shut<F> {
    ghost meaning = { λ s. shut_floor s.places (F.meaning s.floor) };

    ghost sound = { λ s. shut_sound s.places (F.meaning s.floor) (F.sound s.floor) };

    fn places(&self) -> u32 {
        self.floor.places()
    }

    fn legs(&self, place: u32) -> u32 {
        self.floor.legs(place)
    }

    fn leg(&self, place: u32, number: u32) -> Option<Leg> {
        self.floor
            .leg(place, number)
            .filter(|leg| !self.places.contains(leg.target))
    }

    fn is_goal(&self, place: u32) -> bool {
        self.floor.is_goal(place)
    }

    fn low(&self, place: u32) -> u32 {
        self.floor.low(place)
    }
}

impl<F: GuidedFloor> GuidedFloor for Shut<F> {
    ghost guesses = { λ s. F.guesses s.floor };

    ghost limited = { λ s. F.limited s.floor };

    fn hope(&self, place: u32) -> u32 {
        self.floor.hope(place)
    }

    fn steps(&self, place: u32) -> u32 {
        self.floor.steps(place)
    }
}
