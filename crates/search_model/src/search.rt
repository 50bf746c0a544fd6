use crate::bound::Bound;

// What a search keeps beside its table: the start, the bound, the number of places and the total of expansions.
#[derive(Clone, Copy, PartialEq, Eq, Debug)]
pub struct Search {
    pub start: u32,
    pub bound: Bound,
    pub size: u32,
    pub total: u64,
}
