// Another bound for a search.
ghost use Rattle.search.specs.Calls.{ReboundDone};
ghost use Rattle.search.specs.Told.{HandsBack, state_of, tells, tells_or_back};

use crate::fault::SearchFault;
use crate::questions::ask_rebound;
use crate::running::Running;
use crate::states::{Refused, Settled};
use search_model::bound::Bound;
use search_model::search::Search;
use table::node::Node;
use table::rebound::rebound_near;

// The same search under another bound, with the near queue filled for it.
fn rebound_table(state: Search, bound: Bound, table: &mut [Node]) -> Result<Running, SearchFault>
    ensures { ReboundDone state bound table.old (tells state_of result) table.new }
{
    let queued = ask_rebound(state, bound, table)?;
    let next = Search { bound, ..state };
    rebound_near(next, queued.opened, table);
    Ok(Running { state: next })
}

impl Running {
    // Replaces the bound.
    pub fn rebound(self, bound: Bound, table: &mut [Node]) -> Result<Running, Refused<Running>>
        ensures done { ReboundDone self.state bound table.old (tells_or_back state_of result) table.new }
        ensures back { HandsBack self result }
    {
        rebound_table(self.state, bound, table).map_err(|fault| Refused { fault, back: self })
    }
}

impl Settled {
    // Replaces the bound; the search runs again.
    // Stays: a trait with the state and this method would be longer, with its two impls, than the two bodies that share `rebound_table`.
    pub fn rebound(self, bound: Bound, table: &mut [Node]) -> Result<Running, Refused<Settled>>
        ensures done { ReboundDone self.state bound table.old (tells_or_back state_of result) table.new }
        ensures back { HandsBack self result }
    {
        let answer = rebound_table(self.state, bound, table);
        answer.map_err(|fault| Refused { fault, back: self })
    }
}
