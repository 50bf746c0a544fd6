// What shut floors answer, over floors of every kind.
use crate::build::{NINE, answers, estimates_are, grid, legs_are, to};
use floors::floor::Floor;
use floors::guided::GuidedFloor;
use floors::shut::Shut;
use layout::shut_sample::shut_place;
use layout::{intake, six_places};
use std::alloc::{AllocError, Global};
use std::process::Abort;
use std::test::Fail;

// Over a floor that means three by three cells of bytes 1 to 9 with goal 8, shutting place 1 bars leg 0 of place 4.
fn bars<F: GuidedFloor + Drop>(rt: &impl Abort, floor: F) -> Result<(), Fail> {
    let mut shut = Shut::new(floor);
    answers(rt, shut.shut(1), 0);
    assert_eq!(rt; shut.legs(4), 4);
    legs_are(rt, &shut, 4, [None, to(5, 6), to(7, 8), to(3, 4)]);
    estimates_are(rt, &shut, 0, (4, 20, 4));
    Ok(())
}

#[test]
fn over_any_floor(rt: HostRuntime) -> Result<(), Fail> {
    let grid = grid(rt.alloc(), (3, 3, &NINE, 8))?;
    bars(&rt, &grid)?;
    bars(&rt, Shut::new(&grid))?;
    bars(&rt, Shut::new(Shut::new(&grid)))?;
    bars(&rt, grid)
}

#[test]
fn goal_shut(rt: HostRuntime) -> Result<(), Fail> {
    let mut floor = Shut::new(grid(rt.alloc(), (3, 3, &NINE, 8))?);
    answers(&rt, floor.shut(8), 0);
    assert_eq!(rt; floor.places(), 9);
    assert!(rt; floor.is_goal(8));
    legs_are(&rt, &floor, 5, [to(2, 3), None, None, to(4, 5)]);
    legs_are(&rt, &floor, 8, [to(5, 6), None, None, to(7, 8)]);
    legs_are(
        &rt,
        &floor.into_floor(),
        5,
        [to(2, 3), None, to(8, 9), to(4, 5)],
    );
    Ok(())
}

#[test]
fn shut_over_shut(rt: HostRuntime) -> Result<(), Fail> {
    let mut below = Shut::new(grid(rt.alloc(), (3, 3, &NINE, 8))?);
    answers(&rt, below.shut(1), 0);
    let mut above = Shut::new(below);
    answers(&rt, above.shut(1), 0);
    answers(&rt, above.shut(3), 0);
    answers(&rt, above.unshut(1), 0);
    legs_are(&rt, &above, 4, [None, to(5, 6), to(7, 8), None]);
    legs_are(
        &rt,
        &above.into_floor(),
        4,
        [None, to(5, 6), to(7, 8), to(3, 4)],
    );
    Ok(())
}

#[test]
fn two_over_one(rt: HostRuntime) -> Result<(), Fail> {
    let grid = grid(rt.alloc(), (3, 3, &NINE, 8))?;
    let mut first = Shut::new(&grid);
    let mut second = Shut::new(&grid);
    answers(&rt, first.shut(1), 0);
    answers(&rt, second.shut(3), 0);
    legs_are(&rt, &first, 4, [None, to(5, 6), to(7, 8), to(3, 4)]);
    legs_are(&rt, &second, 4, [to(1, 2), to(5, 6), to(7, 8), None]);
    legs_are(&rt, &grid, 4, [to(1, 2), to(5, 6), to(7, 8), to(3, 4)]);
    Ok(())
}

// The bytes of the six-place sample.
fn sample(heap: Global) -> Result<Vec<u8>, AllocError> {
    six_places().as_flattened().to_vec(heap)
}

#[test]
fn over_a_layout(rt: HostRuntime) -> Result<(), Fail> {
    let floor = intake(sample(rt.alloc())?).map_err(|_| Fail::new("refused"))?;
    let mut shut = Shut::new(&floor);
    legs_are(&rt, &shut, 2, [to(3, 5), to(4, 4), None, None]);
    answers(&rt, shut.shut(shut_place()), 0);
    legs_are(&rt, &shut, 2, [to(3, 5), None, None, None]);
    answers(&rt, shut.shut(6), 21);
    Ok(())
}
