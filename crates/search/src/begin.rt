// The begin of a search.
ghost use Rattle.floors.specs.Guided.{described};
ghost use Rattle.search.specs.Calls.{Begun};
ghost use Rattle.search.specs.CallRuns.{CallsKept};
ghost use Rattle.search.specs.Told.{state_of, tells};

use crate::fault::SearchFault;
use crate::questions::ask_begin;
use crate::running::Running;
use expansion::label::Way;
use floors::floor::Floor;
use floors::guided::GuidedFloor;
use search_model::bound::Bound;
use search_model::search::Search;
use table::fresh::set_up;
use table::node::Node;

// A search from the start over a fresh table.
fn begin_table<F: GuidedFloor>(
    floor: &F,
    start: u32,
    bound: Bound,
    table: &mut [Node],
) -> Result<Running, SearchFault>
    ensures { Begun (described F.GuidedFloor floor.now) start bound table.old (tells state_of result) table.new }
{
    ask_begin(floor, start, bound, table)?;
    let way = Way {
        label: 0,
        parent: start,
        leg: 0,
    };
    set_up(table, start, way.labelled(floor, start));
    let state = Search {
        start,
        bound,
        size: floor.places(),
        total: 0,
    };
    Ok(Running { state })
}

impl Running {
    // Begins a search from the start. Every run of calls that follow keeps the guarantee.
    pub fn begin<F: GuidedFloor>(
        floor: &F,
        start: u32,
        bound: Bound,
        table: &mut [Node],
    ) -> Result<Running, SearchFault>
        ensures done { Begun (described F.GuidedFloor floor.now) start bound table.old (tells state_of result) table.new }
        ensures guaranteed { CallsKept (described F.GuidedFloor floor.now) start bound (tells state_of result) table.new }
    {
        begin_table(floor, start, bound, table)
    }
}
