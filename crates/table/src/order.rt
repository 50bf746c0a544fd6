// The check of a table.
ghost use Rattle.std.specs.Prelude.{◌≡◌, ◌≤◌, true, length, is_some};
ghost use Rattle.std.specs.List.{list_all};
ghost use Rattle.queue.specs.Keys.{cost_at_most};
ghost use Rattle.roster.specs.Check.{expected_in};
ghost use Rattle.roster.specs.Holds.{Holds};
ghost use Rattle.table.specs.Asked.{records_right, open_right, near_right, queues_right, open_count, near_count, counted, when, OpenHeld, DecidedOrder};
ghost use Rattle.table.specs.Law.{OrderLaw};
ghost use Rattle.table.specs.Order.{cost_place, record_right, in_order};
ghost use Rattle.table.specs.Seats.{hope_entry, hope_note};
ghost use Rattle.table.specs.Table.{records, hope_wanted, least_hope as least_f_hat};
ghost use Rattle.table.specs.declared.node.Node.{Node};

use crate::node::Node;
use crate::seats::{Hope, Low, Near};
use crate::wanted::{Keyed, NearWanted, OpenWanted, is_right};
use queue::heap;
use roster::check;
use search_model::search::Search;

// How many places are open, and how many are near.
#[derive(Clone, Copy)]
pub struct Queued {
    pub opened: usize,
    pub nears: usize,
}

// The test of a table decides whether it is in order.
pub fn order_decided()
    ensures { OrderLaw }
{}

// The least f̂ of an open place, 0 where nothing is open: the head of the hope queue has it.
pub fn least_hope(table: &[Node], opened: usize) -> u32
    requires { Holds cost_at_most cost_place hope_entry hope_note (expected_in hope_wanted table.now) opened table.now }
    ensures { result ≡ least_f_hat (records table.now) }
{
    heap::head::<Hope, Node>(table, opened).map_or(0, |head| head.cost)
}

// Whether every record is within its limits.
fn are_right(table: &[Node]) -> bool
    ensures { result ≡ list_all (λ n. record_right n.kept) table.now }
{
    table.iter().all(|node| is_right(node.kept))
}

// A table whose records are within their limits, and whose places an entry can hold.
#[derive(Clone, Copy)]
struct Limited<'a> {
    nodes: &'a [Node],
    ghost few: { length nodes.now ≤ 4294967296 },
    ghost limits: { records_right nodes.now ≡ true },
}

impl Limited<'_> {
    // The number of open places, if the queue holds them by its key.
    fn check_open<Q: Keyed>(&self) -> Option<usize>
        ensures answer { result ≡ when (open_right Q.key Q.seat_of self.now.nodes.now) (open_count self.now.nodes.now) }
        ensures held { OpenHeld Q.key Q.seat_of self.now.nodes.now result }
    {
        check::check::<Q, Node, OpenWanted>(&OpenWanted, self.nodes)
    }

    // The number of near places, if the near queue holds them.
    fn check_near(&self, near: NearWanted) -> Option<usize>
        ensures { result ≡ when (near_right near.state near.least self.now.nodes.now) (near_count near.state near.least self.now.nodes.now) }
    {
        check::check::<Near, Node, NearWanted>(&near, self.nodes)
    }

    // The numbers of open and of near places, if every queue holds what it should.
    fn check_queues(&self, state: Search) -> Option<Queued>
        ensures { result ≡ when (queues_right state self.now.nodes.now) (counted state self.now.nodes.now) }
    {
        self.check_open::<Low>()?;
        let opened = self.check_open::<Hope>()?;
        let least = least_hope(self.nodes, opened);
        let nears = self.check_near(NearWanted { state, least })?;
        Some(Queued { opened, nears })
    }
}

// The numbers of open and of near places, if the table is in order.
pub fn check_order(state: Search, table: &[Node]) -> Option<Queued>
    requires few { length table.now ≤ 4294967296 }
    ensures answer { is_some result ≡ in_order state table.now }
    ensures holds { DecidedOrder state table.now result }
{
    if !are_right(table) {
        return None;
    }
    Limited { nodes: table }.check_queues(state)
}
