// The turns of an advance over a table.
ghost use Rattle.std.specs.Prelude.{◌≡◌, length};
ghost use Rattle.floors.specs.Guided.{described};
ghost use Rattle.search.specs.Turns.{TurnsTaken, TurnsOrdered, report_of};
ghost use Rattle.table.specs.Order.{InOrder};
ghost use Rattle.table.specs.Table.{records};

use crate::next::{End, decide, raise_total};
use crate::running::Running;
use crate::states::Report;
use expansion::expand::expand;
use floors::floor::Floor;
use floors::guided::GuidedFloor;
use frontier::frontier::Frontier;
use std::ops::ControlFlow;
use table::node::Node;
use table::order::Queued;

// How the turns ended, the expansions made, the total of the search and the open places.
#[derive(Clone, Copy)]
pub struct Stopped {
    pub ending: End,
    pub spent: u64,
    pub total: u64,
    pub front: Frontier,
}

impl Stopped {
    // What is reported of the turns.
    pub fn report(&self) -> Report
        ensures { result ≡ report_of self.now }
    {
        Report {
            expansions: self.spent,
            total: self.total,
            low_mark: self.ending.low_mark(),
        }
    }
}

impl Running {
    // Chooses and expands places until nothing is open, a goal is chosen or the budget is used up.
    fn take_turns<F: GuidedFloor>(
        &self,
        floor: &F,
        budget: u64,
        queued: Queued,
        table: &mut [Node],
    ) -> Stopped
        requires ordered { InOrder self.now.state queued.opened queued.nears table.old }
        requires sized { length table.old ≡ (F.meaning floor.now).size }
        ensures { TurnsTaken (described F.GuidedFloor floor.now) self.now.state budget (records table.old) result table.new }
    {
        let state = self.state;
        let mut front = Frontier::start(state, queued, table);
        let mut spent = 0;
        let mut total = state.total;
        // Stays: a `for` over 0..=budget would need an end after it that is never reached, and the proof of that.
        loop {
            let chosen = front.choose(state, table);
            match decide(floor, chosen, spent, budget) {
                ControlFlow::Continue(place) => {
                    expand(&mut front, state, floor, table, place);
                    spent += 1;
                    total = raise_total(total);
                }
                ControlFlow::Break(ending) => {
                    return Stopped {
                        ending,
                        spent,
                        total,
                        front,
                    };
                }
            }
        }
    }

    // The same, with the table brought back into order.
    pub(crate) fn turn_table<F: GuidedFloor>(
        &self,
        floor: &F,
        budget: u64,
        queued: Queued,
        table: &mut [Node],
    ) -> Stopped
        requires ordered { InOrder self.now.state queued.opened queued.nears table.old }
        requires sized { length table.old ≡ (F.meaning floor.now).size }
        ensures { TurnsOrdered (described F.GuidedFloor floor.now) self.now.state budget table.old result table.new }
    {
        let mut stopped = self.take_turns(floor, budget, queued, table);
        stopped.front.finish(self.state, table);
        stopped
    }
}
