// A priority queue kept in the slots of a lent slice: a binary heap, least entry first, for every entry type with a total order and every record type that carries a slot.
#![tactic(auto)]

pub mod entry;
pub mod heap;
pub mod indexed;
pub mod order;
pub mod slot;
