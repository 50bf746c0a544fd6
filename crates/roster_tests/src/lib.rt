// Records under test: a node with two indexed queues, one of which holds what the nodes plan.
#![tactic(auto)]

ghost use Rattle.std.specs.Prelude.{◌≡◌, ℕ, ◌+◌, ◌^◌, ◌<◌, ◌≤◌, length, None, Option as OptionOf};
ghost use Rattle.queue.specs.declared.entry.CostEntry.{CostEntry as CostEntryOf};
ghost use Rattle.roster.specs.Check.{expected_in};
ghost use Rattle.roster_tests.specs.Parts.{with_low, with_low_slot, with_far, with_far_slot, planned, LowHolds, FarHolds};
ghost use Rattle.std.proofs.Common.{rules};

use queue::entry::CostEntry;
use queue::indexed;
use queue::indexed::Homed;
use queue::order::Ranked;
use queue::slot::Slot;
use roster::check::Expect;

// The markers of the two queues of a node.
pub struct Low;

pub struct Far;

#[derive(Clone, Copy, Default)]
pub struct Node {
    pub plan: u32,
    pub low: CostEntry,
    pub low_slot: u16,
    pub far: CostEntry,
    pub far_slot: u16,
}

// Stays: this node stands for a record of a caller. A trait of seats with two impls, and one impl each of `Slot` and `Homed` over it, would be as long.
impl Slot<Low> for Node {
    type Entry = CostEntry;

    ghost entry_of = { λ n. n.low };

    ghost with_entry = { with_low };

    ghost lens = { Prim.search rules };

    fn entry(&self) -> CostEntry {
        self.low
    }

    fn set_entry(&mut self, e: CostEntry) {
        self.low = e;
    }
}

impl Homed<Low> for Node {
    ghost home_of = { λ e. e.place };

    ghost note_of = { λ n. n.low_slot };

    ghost with_note = { with_low_slot };

    ghost note_limit = { 2 ^ 16 };

    ghost notes = { Prim.search rules };

    ghost apart = { Prim.search rules };

    fn home(e: &CostEntry) -> usize {
        e.place as usize
    }

    fn note(&self) -> usize {
        self.low_slot as usize
    }

    fn set_note(&mut self, slot: usize) {
        self.low_slot = slot as u16;
    }
}

impl Slot<Far> for Node {
    type Entry = CostEntry;

    ghost entry_of = { λ n. n.far };

    ghost with_entry = { with_far };

    ghost lens = { Prim.search rules };

    fn entry(&self) -> CostEntry {
        self.far
    }

    fn set_entry(&mut self, e: CostEntry) {
        self.far = e;
    }
}

impl Homed<Far> for Node {
    ghost home_of = { λ e. e.place };

    ghost note_of = { λ n. n.far_slot };

    ghost with_note = { with_far_slot };

    ghost note_limit = { 2 ^ 16 };

    ghost notes = { Prim.search rules };

    ghost apart = { Prim.search rules };

    fn home(e: &CostEntry) -> usize {
        e.place as usize
    }

    fn note(&self) -> usize {
        self.far_slot as usize
    }

    fn set_note(&mut self, slot: usize) {
        self.far_slot = slot as u16;
    }
}

// Nodes are expected in the low queue as they plan.
pub struct Plans;

impl Expect<Low, Node> for Plans {
    ghost wanted = { λ _ n h. planned n h };

    fn expected(&self, node: &Node, home: usize) -> Option<CostEntry> {
        let e = CostEntry {
            cost: node.plan,
            place: home as u32,
        };
        (node.plan != 0).then_some(e)
    }
}

// Plans a cost for a home that has no plan, in a low queue of n that holds what is planned. The far queue goes on holding what it holds.
pub fn plan(slots: &mut [Node], n: usize, home: usize, cost: u32)
    requires holds { LowHolds (expected_in planned slots.old) n slots.old }
    requires home { home < length slots.old }
    requires limit { length slots.old ≤ 2 ^ 16 }
    requires free { expected_in planned slots.old home ≡ None }
    requires cost { 0 < cost }
    ensures low { LowHolds (expected_in planned slots.new) (n + 1) slots.new }
    ensures far { (y : ℕ → OptionOf CostEntryOf) (m : ℕ) → FarHolds y m slots.old → FarHolds y m slots.new }
{
    let e = CostEntry {
        cost,
        place: home as u32,
    };
    indexed::insert::<Low, Node>(slots, n, e);
    slots[home].plan = cost;
}

#[cfg(test)]
mod tests;
