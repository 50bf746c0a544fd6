// What the queues of a table expect of a place.
ghost use Rattle.std.specs.Prelude.{◌≡◌, ℕ, ◌*◌, ◌^◌, ◌<◌, true, nat_le};
ghost use Rattle.std.proofs.Common.{rules};
ghost use Rattle.search_model.specs.Choice.{is_near};
ghost use Rattle.search_model.specs.Fields.{RecordLimits, SeenLimits};
ghost use Rattle.search_model.specs.Records.{f, f_hat, is_open};
ghost use Rattle.search_model.specs.declared.records.Record.{Record};
ghost use Rattle.table.specs.Asked.{askable, asked};
ghost use Rattle.table.specs.Order.{record_right};
ghost use Rattle.table.specs.Table.{open_entry, low_wanted, hope_wanted, near_wanted};

use crate::node::Node;
use crate::seats::{Hope, Low, Near, Seated};
use floors::limit::LIMIT;
use queue::entry::{CostEntry, NearEntry};
use roster::check::Expect;
use search_model::bound::Bound;
use search_model::records::{Mark, Record};
use search_model::search::Search;

// Whether a record is within its limits.
pub fn is_right(kept: Record) -> bool
    ensures { result ≡ record_right kept }
{
    kept.mark <= Mark::Closed as u32
        && (kept.is_unseen()
            || (kept.label <= LIMIT
                && (kept.low <= kept.hope && (kept.hope <= LIMIT && kept.steps <= LIMIT))))
}

// Whether the record is within its limits, and an entry can hold the place.
fn can_ask(node: &Node, place: usize) -> bool
    ensures { result ≡ askable node.now place }
{
    is_right(node.kept) && place < 4_294_967_296
}

// Whether b × the cost is at most a × the mark.
pub fn is_within(bound: Bound, mark: u32, cost: u32) -> bool
    ensures { result ≡ nat_le (bound.b * cost) (bound.a * mark) }
{
    u64::from(bound.b) * u64::from(cost) <= u64::from(bound.a) * u64::from(mark)
}

// Whether a place is in the near set for the least f̂.
pub fn is_near(state: Search, least: u32, kept: Record) -> bool
    requires { record_right kept ≡ true }
    ensures { result ≡ is_near state least kept }
{
    kept.is_open() && is_within(state.bound, least, Hope::sum(kept))
}

// A queue of every open place, by a key of its record.
pub trait Keyed: Seated<Entry = CostEntry> {
    ghost key: { Record → ℕ };

    fn sum(kept: Record) -> u32
        requires { key kept < 2 ^ 32 }
        ensures { result ≡ key kept };

    ghost small: { (r : Record) → SeenLimits r → key r < 2 ^ 32 };
}

impl Keyed for Low {
    ghost key = { f };

    ghost small = { Prim.search rules };

    fn sum(kept: Record) -> u32 {
        kept.label + kept.low
    }
}

impl Keyed for Hope {
    ghost key = { f_hat };

    ghost small = { Prim.search rules };

    fn sum(kept: Record) -> u32 {
        kept.label + kept.hope
    }
}

// A place's entry by the key of a queue.
pub fn by_key<Q: Keyed>(kept: Record, place: u32) -> CostEntry
    requires { Q.key kept < 2 ^ 32 }
    ensures { result ≡ record { cost = Q.key kept; place = place } }
{
    let cost = Q::sum(kept);
    CostEntry { cost, place }
}

// A place's entry by rank, then by f̂.
pub fn by_rank(kept: Record, place: u32) -> NearEntry
    requires { f_hat kept < 2 ^ 32 }
    ensures { result ≡ record { steps = kept.steps; cost = f_hat kept; place = place } }
{
    let cost = Hope::sum(kept);
    NearEntry {
        steps: kept.steps,
        cost,
        place,
    }
}

// The entry that a queue of every open place wants of a place.
pub fn want<Q: Keyed>(node: Node, place: u32) -> Option<CostEntry>
    requires { RecordLimits node.kept }
    ensures { result ≡ open_entry Q.key node place }
{
    let kept = node.kept;
    kept.is_open().then(|| by_key::<Q>(kept, place))
}

// Every open place, by the key of the queue.
#[derive(Clone, Copy)]
pub struct OpenWanted;

impl<Q: Keyed> Expect<Q, Node> for OpenWanted {
    ghost wanted = { λ _. asked (open_entry Q.key) };

    fn expected(&self, node: &Node, home: usize) -> Option<CostEntry> {
        let kept = node.kept;
        (can_ask(node, home) && kept.is_open()).then(|| by_key::<Q>(kept, home as u32))
    }
}

// The near set of a search for the least f̂.
#[derive(Clone, Copy)]
pub struct NearWanted {
    pub state: Search,
    pub least: u32,
}

impl Expect<Near, Node> for NearWanted {
    ghost wanted = { λ m. asked (near_wanted m.state m.least) };

    fn expected(&self, node: &Node, home: usize) -> Option<NearEntry> {
        let kept = node.kept;
        (can_ask(node, home) && is_near(self.state, self.least, kept)).then(|| by_rank(
            kept,
            home as u32,
        ))
    }
}
