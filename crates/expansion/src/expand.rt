// The expansion of a place: it is closed, and the target of each of its legs is offered a label.
ghost use Rattle.floors.specs.Guided.{described};
ghost use Rattle.expansion.specs.Expanding.{Offerable, Offered, Expandable, Expanded};

use crate::label::Way;
use floors::floor::Floor;
use floors::guided::GuidedFloor;
use frontier::frontier::Frontier;
use search_model::search::Search;
use table::node::Node;

// Offers a place the label of a way to it.
fn offer<F: GuidedFloor>(
    frontier: &mut Frontier,
    search: Search,
    floor: &F,
    table: &mut [Node],
    place: u32,
    way: Way,
)
    requires { Offerable search frontier.old table.old place }
    ensures { Offered (described F.GuidedFloor floor.now) search table.old place way.label way.parent way.leg frontier.new table.new }
{
    if way.is_taken(table[place as usize].kept) {
        let kept = way.labelled(floor, place);
        frontier.give_label(search, table, place, kept);
    }
}

// Closes a place that is seen and takes its legs in order. The place keeps its label while they are taken.
pub fn expand<F: GuidedFloor>(
    frontier: &mut Frontier,
    search: Search,
    floor: &F,
    table: &mut [Node],
    place: u32,
)
    requires { Expandable (F.meaning floor.now) search frontier.old table.old place }
    ensures { Expanded (described F.GuidedFloor floor.now) search table.old place frontier.new table.new }
{
    let label = table[place as usize].kept.label;
    frontier.close(search, table, place);
    for number in 0..floor.legs(place) {
        if let Some(leg) = floor.leg(place, number) {
            let way = Way {
                label: label + leg.cost,
                parent: place,
                leg: number,
            };
            offer(frontier, search, floor, table, leg.target, way);
        }
    }
}
