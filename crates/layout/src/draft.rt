// A layout that has passed questions 1 to 8, before its low estimates are looked at.
ghost use Rattle.layout.specs.Formed.{Formed, Ordered, draft_sound};
ghost use Rattle.layout.specs.Layout.{floor_under};

use crate::divided::Divided;
use floors::floor::Floor;
use floors::leg::Leg;

// A layout that is well formed and in order. As a floor it has low estimates of 0.
#[derive(Clone, Copy)]
pub struct Draft<'a> {
    pub divided: Divided<'a>,
    ghost formed: { Formed divided.layout.now divided.counts },
    ghost ordered: { Ordered divided.layout.now divided.counts },
}

// Stays: beside the layout floor, since one borrows and estimates 0 while the other owns and reads; what they share is in `Divided`.
impl Floor for Draft<'_> {
    ghost meaning = { λ d. floor_under (λ _. 0) d.divided.layout.now d.divided.counts };

    ghost sound = { λ d. draft_sound d.divided.layout.now d.divided.counts d.formed };

    fn places(&self) -> u32 {
        self.divided.counts.size
    }

    fn legs(&self, place: u32) -> u32 {
        self.divided.leg_count(place)
    }

    fn leg(&self, place: u32, number: u32) -> Option<Leg> {
        self.divided.leg(place, number)
    }

    fn is_goal(&self, place: u32) -> bool {
        self.divided.is_goal(place)
    }

    fn low(&self, _place: u32) -> u32 {
        0
    }
}
