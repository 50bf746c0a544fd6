// The table of a search that begins.
ghost use Rattle.std.specs.Prelude.{◌≡◌, ◌<◌, ◌≤◌, length, replicate, slice_set};
ghost use Rattle.search_model.specs.Fields.{RecordLimits};
ghost use Rattle.search_model.specs.Records.{blank as blank_record};
ghost use Rattle.search_model.specs.declared.search.Search.{Search};
ghost use Rattle.table.specs.Fresh.{blank_node, seated, set_kept};
ghost use Rattle.table.specs.Order.{InOrder};
ghost use Rattle.table.specs.Table.{records};

use crate::node::{Node, Seat};
use crate::seats::{Hope, Low};
use crate::wanted::{by_key, by_rank};
use queue::entry::{CostEntry, NearEntry};
use search_model::records::Record;

impl Node {
    // A node that holds nothing.
    pub fn blank() -> Node
        ensures { result ≡ blank_node }
    {
        Node::default()
    }
}

// Makes every node blank.
fn clear(table: &mut [Node])
    ensures { table.new ≡ replicate (length table.old) blank_node }
{
    table.fill(Node::blank());
}

// Puts the start's entries into the slots of a node.
fn seat(node: &mut Node, start: u32, record: Record)
    requires open { «record».mark ≡ 1 }
    requires limits { RecordLimits «record» }
    ensures { node.new ≡ seated node.old start «record» }
{
    node.low.entry = by_key::<Low>(record, start);
    node.hope.entry = by_key::<Hope>(record, start);
    node.near.entry = by_rank(record, start);
}

// Keeps a record of a place.
fn keep(table: &mut [Node], place: u32, record: Record)
    requires { place < length table.old }
    ensures { table.new ≡ set_kept table.old place «record» }
{
    table[place as usize].kept = record;
}

// Makes every node blank, and opens the start: its entry alone stands in each queue.
pub fn set_up(table: &mut [Node], start: u32, record: Record)
    requires place { start < length table.old }
    requires open { «record».mark ≡ 1 }
    requires limits { RecordLimits «record» }
    ensures kept { records table.new ≡ slice_set (replicate (length table.old) blank_record) start «record» }
    ensures order { (s : Search) → s.bound.b ≤ s.bound.a → InOrder s 1 1 table.new }
{
    clear(table);
    seat(&mut table[0], start, record);
    keep(table, start, record);
}
