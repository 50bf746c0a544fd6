// The most place records that a layout may have, and the most leg records.
pub const MOST_PLACES: usize = 4096;

pub const MOST_LEGS: usize = 65_535;

// How a layout divides: places of the floor, place records, leg records.
#[derive(Clone, Copy)]
pub struct Counts {
    pub size: u32,
    pub places: u32,
    pub legs: u32,
}
