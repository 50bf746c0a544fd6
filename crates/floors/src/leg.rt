// A usable leg: the place that it leads to and what it costs.
#[derive(Clone, Copy, PartialEq, Eq, Debug)]
pub struct Leg {
    pub target: u32,
    pub cost: u32,
}
