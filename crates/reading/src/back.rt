// One step from a place back towards the start.
ghost use Rattle.std.specs.Prelude.{◌≡◌, ◌<◌, ◌≤◌, length, slice_index_or};
ghost use Rattle.search_model.specs.Records.{at};
ghost use Rattle.table.specs.Fresh.{blank_node};
ghost use Rattle.table.specs.Table.{records};
ghost use Rattle.reading.specs.Back.{leg_back, step_back};

use floors::floor::Floor;
use floors::leg::Leg;
use search_model::records::Record;
use table::node::Node;

// The parent of a place, and what the leg from there costs.
#[derive(Clone, Copy)]
pub struct Step {
    pub parent: u32,
    pub cost: u32,
}

// What lies one step back from a place: it is the start, its parent comes before it, or no leg leads to it.
pub enum Back {
    Arrived,
    Parent(Step),
    Lost,
}

// The node of a place; blank off the table.
fn node_at(table: &[Node], place: u32) -> Node
    ensures on { place < length table.now → result ≡ slice_index_or table.now place blank_node }
    ensures off { length table.now ≤ place → result ≡ blank_node }
{
    table
        .get(place as usize)
        .copied()
        .unwrap_or_else(Node::blank)
}

// The record of a place; blank off the table.
pub fn record_at(table: &[Node], place: u32) -> Record
    ensures { result ≡ at (records table.now) place }
{
    node_at(table, place).kept
}

// The parent, if its leg is usable and leads to the place.
fn by_leg(parent: u32, place: u32, leg: Option<Leg>) -> Back
    ensures { result ≡ leg_back parent place leg }
{
    match leg {
        Some(Leg { target, cost }) if target == place => Back::Parent(Step { parent, cost }),
        _ => Back::Lost,
    }
}

// One step back from a place, by its record.
pub fn step_back<F: Floor>(floor: &F, start: u32, table: &[Node], place: u32) -> Back
    ensures { result ≡ step_back (F.meaning floor.now) start (records table.now) place }
{
    if place == start {
        return Back::Arrived;
    }
    let kept = record_at(table, place);
    by_leg(kept.parent, place, floor.leg(kept.parent, kept.leg))
}
