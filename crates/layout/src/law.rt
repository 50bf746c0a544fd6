// Question 9: the low estimates.
ghost use Rattle.std.specs.Prelude.{◌≡◌};
ghost use Rattle.layout.specs.Faults.{layout_verdict, says};
ghost use Rattle.layout.specs.Lowest.{lowest};
ghost use Rattle.layout.specs.Questions.{steep};
ghost use Rattle.layout.specs.Records.{whole, record_at};
ghost use Rattle.layout.specs.Steep.{falls_short, FirstSteep};
ghost use Rattle.layout.specs.Verdict.{low_law};

use crate::draft::Draft;
use crate::fault::LayoutFault;
use crate::question::lowest_failing;
use crate::raw::raw_record;
use crate::records::high_goal;
use floors::floor::Floor;
use floors::leg::Leg;

// Whether the low estimate falls by more than its cost along a leg from the place.
fn drops_along(layout: &[u8], place: u32, leg: Option<Leg>) -> bool
    ensures { result ≡ falls_short (λ p. (record_at layout.now p).word1) place leg }
{
    leg.is_some_and(|leg| {
        let here = raw_record(layout, place as usize).word1;
        let there = raw_record(layout, leg.target as usize).word1;
        u64::from(leg.cost) + u64::from(there) < u64::from(here)
    })
}

// The first such leg of the floor, by place and then by number.
fn first_steep_leg<F: Floor>(floor: &F, layout: &[u8]) -> Option<(u32, u32)>
    ensures { FirstSteep (F.Floor.meaning floor.now) (λ p. (record_at layout.now p).word1) result }
{
    // Stays: a rule of the project: low estimates are asked over places and legs in nested loops left by a label.
    let mut found = None;
    'places: for place in 0..floor.places() {
        for number in 0..floor.legs(place) {
            if drops_along(layout, place, floor.leg(place, number)) {
                found = Some((place, number));
                break 'places;
            }
        }
    }
    found
}

impl Draft<'_> {
    // The record of the first such leg: the lowest that fails.
    fn steep_record(&self) -> Option<usize>
        ensures { result ≡ lowest (steep self.now.divided.layout.now self.now.divided.counts) (whole self.now.divided.layout.now) }
    {
        let (place, number) = first_steep_leg(self, self.divided.layout)?;
        Some(self.divided.leg_record(place, number))
    }

    // Question 9.
    pub fn check_low(&self) -> Result<(), LayoutFault>
        ensures { says layout_verdict result ≡ low_law self.now.divided.layout.now self.now.divided.counts }
    {
        let layout = self.divided.layout;
        let places = self.divided.counts.places as usize;
        if let Some(index) = lowest_failing(|index| high_goal(layout, index), places) {
            return Err(LayoutFault::HighGoal(index));
        }
        self.steep_record()
            .map_or(Ok(()), |index| Err(LayoutFault::SteepLeg(index)))
    }
}
