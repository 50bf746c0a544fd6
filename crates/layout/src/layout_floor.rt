// The floor of an accepted layout, which keeps the layout's bytes.
ghost use Rattle.std.specs.Prelude.{◌≡◌};
ghost use Rattle.layout.specs.Formed.{Formed, Lawful, layout_sound, layout_limited};
ghost use Rattle.layout.specs.Layout.{floor_of, guesses_of};

use crate::counts::Counts;
use crate::divided::Divided;
use floors::floor::Floor;
use floors::guided::GuidedFloor;
use floors::leg::Leg;

#[derive(Drop)]
pub struct LayoutFloor {
    layout: Vec<u8>,
    counts: Counts,
    ghost formed: { Formed layout.items counts },
    ghost lawful: { Lawful layout.items counts },
}

impl LayoutFloor {
    // The floor of bytes that divide so, where they are well formed and lawful.
    pub(crate) fn new(layout: Vec<u8>, counts: Counts) -> LayoutFloor
        requires formed { Formed layout.items counts }
        requires lawful { Lawful layout.items counts }
        ensures layout { result.layout ≡ layout }
        ensures counts { result.counts ≡ counts }
    {
        LayoutFloor { layout, counts }
    }

    // The bytes and how they divide.
    fn divided(&self) -> Divided<'_>
        ensures layout { result.layout.now ≡ self.now.layout.items }
        ensures counts { result.counts ≡ self.now.counts }
    {
        Divided {
            layout: self.layout.as_slice(),
            counts: self.counts,
        }
    }

    // How many leg records the layout has.
    pub fn leg_records(&self) -> u32
        ensures { result ≡ self.now.counts.legs }
    {
        self.counts.legs
    }

    // The bytes again.
    pub fn into_bytes(self) -> Vec<u8>
        ensures { result ≡ self.layout }
    {
        let LayoutFloor { layout, counts: _ } = self;
        layout
    }
}

impl Floor for LayoutFloor {
    ghost meaning = { λ f. floor_of f.layout.items f.counts };

    ghost sound = { λ f. layout_sound f.layout.items f.counts f.formed f.lawful };

    fn places(&self) -> u32 {
        self.counts.size
    }

    fn legs(&self, place: u32) -> u32 {
        self.divided().leg_count(place)
    }

    fn leg(&self, place: u32, number: u32) -> Option<Leg> {
        self.divided().leg(place, number)
    }

    fn is_goal(&self, place: u32) -> bool {
        self.divided().is_goal(place)
    }

    fn low(&self, place: u32) -> u32 {
        self.divided().low(place)
    }
}

impl GuidedFloor for LayoutFloor {
    ghost guesses = { λ f. guesses_of f.layout.items f.counts };

    ghost limited = { λ f. layout_limited f.layout.items f.counts f.lawful };

    fn hope(&self, place: u32) -> u32 {
        self.divided().hope(place)
    }

    fn steps(&self, place: u32) -> u32 {
        self.divided().steps(place)
    }
}
