use queue::entry::{CostEntry, NearEntry};
use search_model::records::Record;

// A slot of a queue, and the note of where the place's own entry stands in that queue.
#[derive(Clone, Copy, Default)]
pub struct Seat<E> {
    pub entry: E,
    // Stays: the table is lent and has no heap, so an entry is found again by the number of its slot.
    pub note: u32,
}

// What the table holds of one place. Slot i of each queue lies in node i. The far queue and the side serve an advance while it
// runs: an open place is on the near side or on the far side.
#[derive(Clone, Copy, Default)]
pub struct Node {
    pub kept: Record,
    pub low: Seat<CostEntry>,
    pub hope: Seat<CostEntry>,
    pub near: Seat<NearEntry>,
    pub far: Seat<CostEntry>,
    // Stays: the table is lent, and may come with any number here.
    pub side: u32,
}
