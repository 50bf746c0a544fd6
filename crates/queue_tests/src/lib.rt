// Records under test: a node with a slot of two queues, one of them indexed, and an event that is its own slot.
#![tactic(auto)]

ghost use Rattle.std.specs.Prelude.{◌≡◌, ℕ, ◌^◌, ◌<◌, length};
ghost use Rattle.queue.specs.Entries.{entries};
ghost use Rattle.queue.specs.Keys.{cost_at_most};
ghost use Rattle.queue.specs.Notes.{NotesRight};
ghost use Rattle.queue.specs.Rule.{QueueRule};
ghost use Rattle.queue_tests.specs.Lenses.{event_at_most, low_of, with_low, low_slot_of, with_low_slot, near_of, with_near, place_of};
ghost use Rattle.std.proofs.Common.{rules};

use queue::entry::{CostEntry, NearEntry};
use queue::heap;
use queue::indexed::Homed;
use queue::order::Ranked;
use queue::slot::Slot;

// The markers of the two queues of a node.
pub struct Low;

pub struct Near;

#[derive(Clone, Copy, Default)]
pub struct Node {
    pub tag: u32,
    pub low: CostEntry,
    pub low_slot: u16,
    pub near: NearEntry,
}

// Stays: the impls of the two queues name their fields, and only the low queue notes where its entries stand.
impl Slot<Low> for Node {
    type Entry = CostEntry;

    ghost entry_of = { low_of };

    ghost with_entry = { with_low };

    ghost lens = { Prim.search rules };

    fn entry(&self) -> CostEntry {
        self.low
    }

    fn set_entry(&mut self, e: CostEntry) {
        self.low = e;
    }
}

impl Homed<Low> for Node {
    ghost home_of = { place_of };

    ghost note_of = { low_slot_of };

    ghost with_note = { with_low_slot };

    ghost note_limit = { 2 ^ 16 };

    ghost notes = { Prim.search rules };

    ghost apart = { Prim.search rules };

    fn home(e: &CostEntry) -> usize {
        e.place as usize
    }

    fn note(&self) -> usize {
        self.low_slot as usize
    }

    fn set_note(&mut self, slot: usize) {
        self.low_slot = slot as u16;
    }
}

impl Slot<Near> for Node {
    type Entry = NearEntry;

    ghost entry_of = { near_of };

    ghost with_entry = { with_near };

    ghost lens = { Prim.search rules };

    fn entry(&self) -> NearEntry {
        self.near
    }

    fn set_entry(&mut self, e: NearEntry) {
        self.near = e;
    }
}

// Inserts into the near queue of n. The low queue keeps its entries, its rule and its notes, however many entries m it has.
pub fn insert_near(slots: &mut [Node], n: usize, e: NearEntry) -> usize
    requires { n < length slots.old }
    ensures entries { (m : ℕ) → entries low_of m slots.new ≡ entries low_of m slots.old }
    ensures rule { (m : ℕ) → QueueRule cost_at_most low_of m slots.old → QueueRule cost_at_most low_of m slots.new }
    ensures notes { (m : ℕ) → NotesRight place_of low_of low_slot_of m slots.old → NotesRight place_of low_of low_slot_of m slots.new }
{
    heap::insert::<Near, Node>(slots, n, e)
}

// The marker of the queue of events.
pub struct Calendar;

#[derive(Clone, Copy, PartialEq, Eq, PartialOrd, Ord)]
pub struct Event {
    pub time: u64,
    pub number: u16,
}

impl Ranked for Event {
    ghost at_most = { event_at_most };

    ghost ordered = { Prim.search rules };

    fn at_most(&self, other: &Event) -> bool {
        self <= other
    }
}

impl Slot<Calendar> for Event {
    type Entry = Event;

    ghost entry_of = { λ e. e };

    ghost with_entry = { λ _ e. e };

    ghost lens = { Prim.search rules };

    fn entry(&self) -> Event {
        *self
    }

    fn set_entry(&mut self, e: Event) {
        *self = e;
    }
}

#[cfg(test)]
mod tests;
