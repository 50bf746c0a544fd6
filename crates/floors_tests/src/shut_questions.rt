// Each question put to shut and unshut is answered no where it fails; a refused call changes nothing.
use crate::build::{NINE, answers, grid, legs_are, to};
use floors::floor::Floor;
use floors::shut::Shut;
use std::test::Fail;

#[test]
fn no_place(rt: HostRuntime) -> Result<(), Fail> {
    let mut floor = Shut::new(grid(rt.alloc(), (3, 3, &NINE, 8))?);
    answers(&rt, floor.shut(9), 21);
    answers(&rt, floor.unshut(9), 21);
    answers(&rt, floor.shut(4_294_967_295), 21);
    assert!(rt; !floor.is_shut(9));
    assert_eq!(rt; floor.count(), 0);
    Ok(())
}

#[test]
fn already_shut(rt: HostRuntime) -> Result<(), Fail> {
    let mut floor = Shut::new(grid(rt.alloc(), (3, 3, &NINE, 8))?);
    answers(&rt, floor.shut(1), 0);
    answers(&rt, floor.shut(1), 22);
    assert!(rt; floor.is_shut(1));
    assert_eq!(rt; floor.count(), 1);
    Ok(())
}

#[test]
fn not_shut(rt: HostRuntime) -> Result<(), Fail> {
    let mut floor = Shut::new(grid(rt.alloc(), (3, 3, &NINE, 8))?);
    answers(&rt, floor.shut(3), 0);
    answers(&rt, floor.unshut(1), 24);
    assert_eq!(rt; floor.count(), 1);
    legs_are(&rt, &floor, 4, [to(1, 2), to(5, 6), to(7, 8), None]);
    Ok(())
}

#[test]
fn sixty_four(rt: HostRuntime) -> Result<(), Fail> {
    let mut floor = Shut::new(grid(rt.alloc(), (64, 64, &[1; 4096], 0))?);
    for place in 4032..4096 {
        answers(&rt, floor.shut(place), 0);
    }
    answers(&rt, floor.shut(64), 23);
    answers(&rt, floor.shut(4032), 22);
    answers(&rt, floor.shut(4096), 21);
    assert!(rt; !floor.is_shut(64));
    assert_eq!(rt; floor.count(), 64);
    answers(&rt, floor.unshut(4095), 0);
    answers(&rt, floor.shut(64), 0);
    answers(&rt, floor.shut(65), 23);
    Ok(())
}

#[test]
fn again(rt: HostRuntime) -> Result<(), Fail> {
    let mut floor = Shut::new(grid(rt.alloc(), (3, 3, &NINE, 8))?);
    for _ in 0..2 {
        legs_are(&rt, &floor, 4, [to(1, 2), to(5, 6), to(7, 8), to(3, 4)]);
        answers(&rt, floor.shut(1), 0);
        assert_eq!(rt; floor.count(), 1);
        legs_are(&rt, &floor, 4, [None, to(5, 6), to(7, 8), to(3, 4)]);
        answers(&rt, floor.unshut(1), 0);
        assert_eq!(rt; floor.count(), 0);
    }
    Ok(())
}
