// Grids, and what is expected of answers.
use floors::floor::Floor;
use floors::grid::Grid;
use floors::guided::GuidedFloor;
use floors::leg::Leg;
use floors::shut_fault::ShutFault;
use std::alloc::Global;
use std::process::Abort;
use std::test::Fail;

// Three by three cells, of bytes 1 to 9.
pub const NINE: [u8; 9] = [1, 2, 3, 4, 5, 6, 7, 8, 9];

// A grid as it is asked for: its width, height, cells and goal.
pub(crate) type Asked<'a> = (u32, u32, &'a [u8], u32);

// The grid of these cells.
pub(crate) fn grid(heap: Global, (width, height, cells, goal): Asked) -> Result<Grid, Fail> {
    Grid::new(width, height, cells.to_vec(heap)?, goal).map_err(|_| Fail::new("refused"))
}

// Each grid is refused by the question of that number, and its cells come back.
pub(crate) fn refuses(rt: &impl Abort, heap: Global, cases: &[(u32, Asked)]) -> Result<(), Fail> {
    for (number, (width, height, cells, goal)) in cases {
        let answer = Grid::new(*width, *height, cells.to_vec(heap)?, *goal);
        let refused = answer.err().ok_or("accepted")?;
        assert_eq!(rt; refused.fault.number(), *number);
        assert!(rt; refused.cells.as_slice() == *cells);
    }
    Ok(())
}

// A usable leg with that target and cost.
pub(crate) fn to(target: u32, cost: u32) -> Option<Leg> {
    Some(Leg { target, cost })
}

// The first four legs of the place.
pub(crate) fn legs_are<F: Floor>(rt: &impl Abort, floor: &F, place: u32, legs: [Option<Leg>; 4]) {
    for (number, leg) in (0..4).zip(legs) {
        assert_eq!(rt; floor.leg(place, number), leg);
    }
}

// The low, hope and step estimates of the place.
pub(crate) fn estimates_are<F: GuidedFloor>(
    rt: &impl Abort,
    floor: &F,
    place: u32,
    estimates: (u32, u32, u32),
) {
    let found = (floor.low(place), floor.hope(place), floor.steps(place));
    assert_eq!(rt; found, estimates);
}

// The call is accepted if the number is 0, else refused by that question.
pub(crate) fn answers(rt: &impl Abort, answer: Result<(), ShutFault>, number: u32) {
    assert_eq!(rt; answer.err().map_or(0, |fault| fault.number()), number);
}
