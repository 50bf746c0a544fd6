// What a job answers.
use layout::LayoutFloor;
use search::running::Running;
use search::states::{Barren, Report, Settled};

// The search in its state with the report; of a settled one also how many places its route has, and the route's cost.
#[derive(Drop)]
pub enum JobAnswer {
    More(Running, Report),
    Settled(Settled, Report, (usize, u32)),
    Barren(Barren, Report),
}

// The answer, and the floor, over which the search can go on.
#[derive(Drop)]
pub struct Job {
    pub floor: LayoutFloor,
    pub answer: JobAnswer,
}
