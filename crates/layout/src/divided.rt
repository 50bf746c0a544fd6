// A layout and how it divides: what its records say of a place and of its legs.
ghost use Rattle.std.specs.Prelude.{◌≡◌};
ghost use Rattle.layout.specs.Layout.{first_leg, leg_record, leg_count, leg_of, goal_of, low_of, hope_of, steps_of, place_record};

use crate::counts::Counts;
use crate::raw::raw_record;
use crate::record::RawRecord;
use floors::leg::Leg;

// The bytes of a layout and its counts.
#[derive(Clone, Copy)]
pub struct Divided<'a> {
    pub layout: &'a [u8],
    pub counts: Counts,
}

impl Divided<'_> {
    // The number of the place's first leg; behind the last place, the number of legs.
    fn first_leg(&self, place: u32) -> u32
        ensures { result ≡ first_leg self.now.layout.now self.now.counts place }
    {
        if place < self.counts.places {
            u32::from(raw_record(self.layout, place as usize).half)
        } else {
            self.counts.legs
        }
    }

    // The record of the place's leg of that number.
    pub fn leg_record(&self, place: u32, number: u32) -> usize
        ensures { result ≡ leg_record self.now.layout.now self.now.counts place number }
    {
        self.counts.places as usize + (self.first_leg(place) as usize + number as usize)
    }

    // How many legs the place has.
    pub fn leg_count(&self, place: u32) -> u32
        ensures { result ≡ leg_count self.now.layout.now self.now.counts place }
    {
        if place < self.counts.size {
            self.first_leg(place + 1)
                .saturating_sub(self.first_leg(place))
        } else {
            0
        }
    }

    // One leg of the place; past its list it is barred.
    pub fn leg(&self, place: u32, number: u32) -> Option<Leg>
        ensures { result ≡ leg_of self.now.layout.now self.now.counts place number }
    {
        // Stays: with `then` and a closure the proof did not close (tried), and without one a record would be read for nothing.
        if number < self.leg_count(place) {
            let raw = raw_record(self.layout, self.leg_record(place, number));
            Some(Leg {
                target: raw.word1,
                cost: u32::from(raw.half),
            })
        } else {
            None
        }
    }

    // The record of the place; off the floor, zeros.
    fn place(&self, place: u32) -> RawRecord
        ensures { result ≡ place_record self.now.layout.now self.now.counts place }
    {
        if place < self.counts.size {
            raw_record(self.layout, place as usize)
        } else {
            RawRecord::default()
        }
    }

    // Whether the place is a goal.
    pub fn is_goal(&self, place: u32) -> bool
        ensures { result ≡ goal_of self.now.layout.now self.now.counts place }
    {
        self.place(place).flag == 1
    }

    // The place's low estimate.
    pub fn low(&self, place: u32) -> u32
        ensures { result ≡ low_of self.now.layout.now self.now.counts place }
    {
        self.place(place).word1
    }

    // The place's guessed cost to go.
    pub fn hope(&self, place: u32) -> u32
        ensures { result ≡ hope_of self.now.layout.now self.now.counts place }
    {
        self.place(place).word2
    }

    // The place's guessed number of legs to go.
    pub fn steps(&self, place: u32) -> u32
        ensures { result ≡ steps_of self.now.layout.now self.now.counts place }
    {
        self.place(place).word3
    }
}
