// Advances of a running search.
ghost use Rattle.std.specs.Prelude.{◌≡◌};
ghost use Rattle.floors.specs.Guided.{described};
ghost use Rattle.search.specs.Reports.{AdvanceReported};
ghost use Rattle.search.specs.Told.{HandsBack, advanced_as, tells, tells_or_back};
ghost use Rattle.search.specs.Turns.{stopped_as};

use crate::fault::SearchFault;
use crate::next::End;
use crate::running::Running;
use crate::states::{Advanced, Barren, Refused, Settled};
use crate::turns::Stopped;
use floors::guided::GuidedFloor;
use search_model::search::Search;
use table::node::Node;

impl Running {
    // The search in its state after the turns, with the report.
    pub(crate) fn answer(&self, stopped: Stopped) -> Advanced
        ensures { advanced_as result ≡ stopped_as self.now.state stopped }
    {
        let state = Search {
            total: stopped.total,
            ..self.state
        };
        let report = stopped.report();
        match stopped.ending {
            End::Barren => Advanced::Barren(Barren { state }, report),
            End::Settled(choice) => Advanced::Settled(
                Settled {
                    state,
                    goal: choice.place,
                },
                report,
            ),
            End::More(_) => Advanced::More(Running { state }, report),
        }
    }

    // The questions, then turns up to the budget.
    fn try_advance<F: GuidedFloor>(
        &self,
        floor: &F,
        budget: u32,
        table: &mut [Node],
    ) -> Result<Advanced, SearchFault>
        ensures { AdvanceReported (described F.GuidedFloor floor.now) self.now.state budget table.old (tells advanced_as result) table.new }
    {
        let queued = self.ask_advance(floor, budget, table)?;
        let stopped = self.turn_table(floor, budget as u64, queued, table);
        Ok(self.answer(stopped))
    }

    // Expands places up to the budget, or until nothing is open or a goal is chosen.
    pub fn advance<F: GuidedFloor>(
        self,
        floor: &F,
        budget: u32,
        table: &mut [Node],
    ) -> Result<Advanced, Refused<Running>>
        ensures done { AdvanceReported (described F.GuidedFloor floor.now) self.state budget table.old (tells_or_back advanced_as result) table.new }
        ensures back { HandsBack self result }
    {
        self.try_advance(floor, budget, table)
            .map_err(|fault| Refused { fault, back: self })
    }
}
