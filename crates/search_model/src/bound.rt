// The bound a/b: a settled route costs at most a/b times the cost of any route.
#[derive(Clone, Copy, PartialEq, Eq, Debug)]
pub struct Bound {
    pub a: u32,
    pub b: u32,
}
