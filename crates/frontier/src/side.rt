// The side of an open place while an advance runs, and what the queues of the sides want of a place.
ghost use Rattle.std.specs.Prelude.{◌≡◌, if◌then◌else◌};
ghost use Rattle.search_model.specs.Fields.{RecordLimits};
ghost use Rattle.frontier.specs.Frontier.{near_side_wanted, far_side_wanted, near_side, far_side};
ghost use Rattle.frontier.specs.Sides.{number_of};

use queue::entry::{CostEntry, NearEntry};
use search_model::search::Search;
use table::node::Node;
use table::seats::Hope;
use table::wanted::{by_key, by_rank};

// The near side or the far side. A node stores the number of its side.
#[derive(Clone, Copy)]
pub(crate) enum Side {
    Far,
    Near,
}

impl Side {
    // The near side where the test holds, otherwise the far side.
    pub(crate) fn near_if(test: bool) -> Side
        ensures { result ≡ (if test then Side.Near else Side.Far) }
    {
        if test { Side::Near } else { Side::Far }
    }

    // What a node stores.
    pub(crate) fn number(self) -> u32
        ensures { result ≡ number_of self }
    {
        self as u32
    }
}

// Whether the node is of an open place on the near side.
pub(crate) fn on_near_side(node: Node) -> bool
    ensures { result ≡ near_side node }
{
    node.kept.is_open() && node.side == Side::Near as u32
}

// Whether the node is of an open place on the far side.
pub(crate) fn on_far_side(node: Node) -> bool
    ensures { result ≡ far_side node }
{
    node.kept.is_open() && node.side != Side::Near as u32
}

// The entry that the near queue wants of a place.
pub(crate) fn want_near(search: Search, node: Node, place: u32) -> Option<NearEntry>
    requires { RecordLimits node.kept }
    ensures { result ≡ near_side_wanted search node place }
{
    let kept = node.kept;
    on_near_side(node).then(|| by_rank(kept, place))
}

// The entry that the far queue wants of a place.
pub(crate) fn want_far(node: Node, place: u32) -> Option<CostEntry>
    requires { RecordLimits node.kept }
    ensures { result ≡ far_side_wanted node place }
{
    let kept = node.kept;
    on_far_side(node).then(|| by_key::<Hope>(kept, place))
}
