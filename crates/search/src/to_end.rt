// An advance to the end of a search.
ghost use Rattle.std.specs.Prelude.{◌≡◌, OnOk, ◌≢◌};
ghost use Rattle.floors.specs.Guided.{described};
ghost use Rattle.search_model.specs.Advance.{More as AnswersMore};
ghost use Rattle.search.specs.Reports.{EndDone};
ghost use Rattle.search.specs.Repeating.{SameAsRepeated};
ghost use Rattle.search.specs.Told.{HandsBack, advanced_as, ended_as, tells, tells_or_back};
ghost use Rattle.table.specs.Table.{records};

use crate::fault::SearchFault;
use crate::next::GREATEST_TOTAL;
use crate::running::Running;
use crate::states::{Advanced, Ended, Refused};
use floors::guided::GuidedFloor;
use table::node::Node;

// More expansions than any search makes over a table in order: labels only fall.
const END_BUDGET: u64 = GREATEST_TOTAL;

// An answer that is not more.
fn ended(answer: Advanced) -> Ended
    requires { (advanced_as answer).answer ≢ AnswersMore }
    ensures { ended_as result ≡ advanced_as answer }
{
    match answer {
        Advanced::Settled(settled, report) => Ended::Settled(settled, report),
        Advanced::Barren(barren, report) => Ended::Barren(barren, report),
        Advanced::More(_, _) => unreachable!(),
    }
}

impl Running {
    // The questions, then turns up to the end.
    fn try_to_end<F: GuidedFloor>(
        &self,
        floor: &F,
        table: &mut [Node],
    ) -> Result<Ended, SearchFault>
        ensures done { EndDone (described F.GuidedFloor floor.now) self.now.state table.old (tells ended_as result) table.new }
        ensures same { OnOk result (SameAsRepeated (described F.GuidedFloor floor.now) self.now.state (records table.old)) }
    {
        let queued = self.ask_end(floor, table)?;
        let stopped = self.turn_table(floor, END_BUDGET, queued, table);
        Ok(ended(self.answer(stopped)))
    }

    // Expands places until nothing is open or a goal is chosen: what advances repeated after more come to.
    pub fn advance_to_end<F: GuidedFloor>(
        self,
        floor: &F,
        table: &mut [Node],
    ) -> Result<Ended, Refused<Running>>
        ensures done { EndDone (described F.GuidedFloor floor.now) self.state table.old (tells_or_back ended_as result) table.new }
        ensures same { OnOk result (SameAsRepeated (described F.GuidedFloor floor.now) self.state (records table.old)) }
        ensures back { HandsBack self result }
    {
        self.try_to_end(floor, table)
            .map_err(|fault| Refused { fault, back: self })
    }
}
