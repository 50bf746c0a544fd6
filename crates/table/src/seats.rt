// The queues that a node has a seat in.
ghost use Rattle.std.specs.Prelude.{◌≡◌, ℕ};
ghost use Rattle.std.proofs.Common.{rules};
ghost use Rattle.queue.specs.Lens.{Lens};
ghost use Rattle.table.specs.declared.node.Node.{Node};
ghost use Rattle.table.specs.declared.node.Seat.{Seat};
ghost use Rattle.table.specs.Order.{cost_place, near_place_of};

use crate::node::{Node, Seat};
use queue::entry::{CostEntry, NearEntry};
use queue::indexed::Homed;
use queue::order::Ranked;
use queue::slot::Slot;

// An entry that names a place.
pub trait Placed: Ranked + Copy {
    ghost place_of: { Self → ℕ };

    fn place(&self) -> u32
        ensures { result ≡ place_of self.now };
}

impl Placed for CostEntry {
    ghost place_of = { cost_place };

    fn place(&self) -> u32 {
        self.place
    }
}

impl Placed for NearEntry {
    ghost place_of = { near_place_of };

    fn place(&self) -> u32 {
        let NearEntry { place, .. } = *self;
        place
    }
}

// A queue that a node has a seat in: the seat is read and written with nothing else of the node.
pub trait Seated {
    type Entry: Placed;

    ghost seat_of: { Node → Seat Self.Entry };

    ghost with_seat: { Node → Seat Self.Entry → Node };

    fn seat(node: &Node) -> Seat<Self::Entry>
        ensures { result ≡ seat_of node.now };

    fn set_seat(node: &mut Node, seat: Seat<Self::Entry>)
        ensures { node.new ≡ with_seat node.old seat };

    ghost lens: { Lens seat_of with_seat };
}

impl<Q: Seated> Slot<Q> for Node {
    type Entry = Q::Entry;

    ghost entry_of = { λ n. (Q.seat_of n).entry };

    ghost with_entry = { λ n e. Q.with_seat n (record { entry = e; note = (Q.seat_of n).note }) };

    ghost lens = { Prim.search rules };

    fn entry(&self) -> Q::Entry {
        Q::seat(self).entry
    }

    fn set_entry(&mut self, e: Q::Entry) {
        let note = Q::seat(self).note;
        Q::set_seat(self, Seat { entry: e, note });
    }
}

impl<Q: Seated> Homed<Q> for Node {
    ghost home_of = { λ e. Q.Entry.place_of e };

    ghost note_of = { λ n. (Q.seat_of n).note };

    ghost with_note = { λ n slot. Q.with_seat n (record { entry = (Q.seat_of n).entry; note = slot }) };

    ghost note_limit = { 4294967296 };

    ghost notes = { Prim.search rules };

    ghost apart = { Prim.search rules };

    fn home(e: &Q::Entry) -> usize {
        e.place() as usize
    }

    fn note(&self) -> usize {
        Q::seat(self).note as usize
    }

    fn set_note(&mut self, slot: usize) {
        let entry = Q::seat(self).entry;
        Q::set_seat(
            self,
            Seat {
                entry,
                note: slot as u32,
            },
        );
    }
}

// Stays: the four impls below name their fields, and no parameter of a type can be a field.

// Every open place, by f.
pub struct Low;

impl Seated for Low {
    type Entry = CostEntry;

    ghost seat_of = { λ n. n.low };

    ghost with_seat = { λ n s. record n { low = s } };

    ghost lens = { Prim.search rules };

    fn seat(node: &Node) -> Seat<CostEntry> {
        node.low
    }

    fn set_seat(node: &mut Node, seat: Seat<CostEntry>)
        ensures { node.new ≡ record node.old { low = seat } }
    {
        node.low = seat;
    }
}

// Every open place, by f̂.
pub struct Hope;

impl Seated for Hope {
    type Entry = CostEntry;

    ghost seat_of = { λ n. n.hope };

    ghost with_seat = { λ n s. record n { hope = s } };

    ghost lens = { Prim.search rules };

    fn seat(node: &Node) -> Seat<CostEntry> {
        node.hope
    }

    fn set_seat(node: &mut Node, seat: Seat<CostEntry>)
        ensures { node.new ≡ record node.old { hope = seat } }
    {
        node.hope = seat;
    }
}

// The near set, by rank, then by f̂.
pub struct Near;

impl Seated for Near {
    type Entry = NearEntry;

    ghost seat_of = { λ n. n.near };

    ghost with_seat = { λ n s. record n { near = s } };

    ghost lens = { Prim.search rules };

    fn seat(node: &Node) -> Seat<NearEntry> {
        node.near
    }

    fn set_seat(node: &mut Node, seat: Seat<NearEntry>)
        ensures { node.new ≡ record node.old { near = seat } }
    {
        node.near = seat;
    }
}

// The open places that are not near, by f̂; only while an advance runs.
pub struct Far;

impl Seated for Far {
    type Entry = CostEntry;

    ghost seat_of = { λ n. n.far };

    ghost with_seat = { λ n s. record n { far = s } };

    ghost lens = { Prim.search rules };

    fn seat(node: &Node) -> Seat<CostEntry> {
        node.far
    }

    fn set_seat(node: &mut Node, seat: Seat<CostEntry>)
        ensures { node.new ≡ record node.old { far = seat } }
    {
        node.far = seat;
    }
}
