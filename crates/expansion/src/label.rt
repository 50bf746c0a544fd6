// Ways: whether a place takes the label of one, and the record that comes with it.
ghost use Rattle.std.specs.Prelude.{◌≡◌};
ghost use Rattle.floors.specs.Guided.{described};
ghost use Rattle.search_model.specs.Expansion.{takes, labelled as labelled_record};

use floors::floor::Floor;
use floors::guided::GuidedFloor;
use floors::limit::LIMIT;
use search_model::records::{Mark, Record};

// A way to a place: what it costs, the place before, and the number of the leg from there.
#[derive(Clone, Copy)]
pub struct Way {
    pub label: u32,
    pub parent: u32,
    pub leg: u32,
}

impl Way {
    // Whether a place with the record takes the label.
    pub(crate) fn is_taken(self, kept: Record) -> bool
        ensures { result ≡ takes self.label kept }
    {
        self.label <= LIMIT && (kept.is_unseen() || self.label < kept.label)
    }

    // The record of an open place that is reached by this way.
    pub fn labelled<F: GuidedFloor>(self, floor: &F, place: u32) -> Record
        ensures { result ≡ labelled_record (described F.GuidedFloor floor.now) place self.label self.parent self.leg }
    {
        let Way { label, parent, leg } = self;
        let low = floor.low(place);
        let hope = floor.hope(place);
        Record {
            mark: Mark::Open as u32,
            label,
            parent,
            leg,
            low,
            hope: low.max(hope),
            steps: floor.steps(place),
        }
    }
}
