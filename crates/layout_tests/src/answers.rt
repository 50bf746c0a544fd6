// What the floor of the sample layout answers, on the floor and off it.
use crate::build::{accepted, bytes};
use floors::floor::Floor;
use floors::guided::GuidedFloor;
use floors::leg::Leg;
use layout::{LayoutFloor, six_places};
use std::alloc::Global;
use std::test::Fail;

fn sample(heap: Global) -> Result<LayoutFloor, Fail> {
    accepted(bytes(heap, &six_places())?)
}

// A leg that may be used.
fn usable(target: u32, cost: u32) -> Option<Leg> {
    Some(Leg { target, cost })
}

#[test]
fn on_the_floor(rt: HostRuntime) -> Result<(), Fail> {
    let floor = sample(rt.alloc())?;
    assert_eq!(rt; floor.places(), 6);
    assert_eq!(rt; floor.legs(2), 2);
    assert_eq!(rt; floor.leg(2, 0), usable(3, 5));
    assert_eq!(rt; floor.leg(2, 1), usable(4, 4));
    assert_eq!(rt; floor.leg(2, 2), None);
    assert!(rt; floor.is_goal(5));
    assert!(rt; !floor.is_goal(4));
    assert_eq!(rt; floor.low(2), 3);
    assert_eq!(rt; floor.hope(2), 8);
    assert_eq!(rt; floor.steps(2), 2);
    Ok(())
}

#[test]
fn off_the_floor(rt: HostRuntime) -> Result<(), Fail> {
    let floor = sample(rt.alloc())?;
    assert_eq!(rt; floor.legs(6), 0);
    assert!(rt; floor.leg(6, 0).is_none());
    assert!(rt; !floor.is_goal(6));
    assert_eq!(rt; floor.low(6), 0);
    assert_eq!(rt; floor.hope(6), 0);
    assert_eq!(rt; floor.steps(4_294_967_295), 0);
    Ok(())
}

#[test]
fn bytes_again(rt: HostRuntime) -> Result<(), Fail> {
    let floor = sample(rt.alloc())?;
    let again = floor.into_bytes();
    assert!(rt; again.as_slice() == bytes(rt.alloc(), &six_places())?.as_slice());
    Ok(())
}
