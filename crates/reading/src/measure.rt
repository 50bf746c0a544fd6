// How many places a route has, and what it costs.
ghost use Rattle.std.specs.Prelude.{◌≡◌, ◌≤◌};
ghost use Rattle.search_model.specs.Read.{follow};
ghost use Rattle.table.specs.Table.{records};
ghost use Rattle.reading.specs.Trails.{measured};

use crate::back::{Back, step_back};
use floors::floor::Floor;
use table::node::Node;

// Follows parents from the goal to the start, through at most `most` places. The table may hold anything.
pub fn measure<F: Floor>(
    floor: &F,
    start: u32,
    table: &[Node],
    most: u32,
    goal: u32,
) -> Option<(usize, u32)>
    requires { most ≤ 4096 }
    ensures { result ≡ measured (follow (F.meaning floor.now) start (records table.now) most goal) }
{
    let mut place = goal;
    let mut cost = 0;
    for count in 0..most {
        match step_back(floor, start, table, place) {
            Back::Arrived => return Some((count as usize + 1, cost)),
            Back::Parent(step) => {
                place = step.parent;
                cost += step.cost;
            }
            Back::Lost => return None,
        }
    }
    None
}
