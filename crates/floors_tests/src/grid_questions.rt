// Each question put to a grid is answered no where it fails, and before every later question.
use crate::build::{NINE, grid, refuses};
use floors::floor::Floor;
use std::test::Fail;

const MANY: u32 = 4_294_967_295;

#[test]
fn width(rt: HostRuntime) -> Result<(), Fail> {
    let heap = rt.alloc();
    refuses(
        &rt,
        heap,
        &[(11, (0, 1, &[], 0)), (11, (65, 1, &[1; 65], 0))],
    )?;
    assert_eq!(rt; grid(heap, (64, 1, &[1; 64], 0))?.places(), 64);
    Ok(())
}

#[test]
fn height(rt: HostRuntime) -> Result<(), Fail> {
    let heap = rt.alloc();
    refuses(
        &rt,
        heap,
        &[(12, (1, 0, &[], 0)), (12, (1, 65, &[1; 65], 0))],
    )?;
    assert_eq!(rt; grid(heap, (1, 64, &[1; 64], 0))?.places(), 64);
    Ok(())
}

#[test]
fn bytes(rt: HostRuntime) -> Result<(), Fail> {
    let cases = [
        (13, (2, 3, &NINE[..5], 0)),
        (13, (2, 3, &NINE[..7], 0)),
        (13, (1, 1, &NINE[..0], 0)),
    ];
    refuses(&rt, rt.alloc(), &cases)
}

#[test]
fn goal(rt: HostRuntime) -> Result<(), Fail> {
    let heap = rt.alloc();
    let six = &NINE[..6];
    refuses(&rt, heap, &[(14, (2, 3, six, 6)), (14, (2, 3, six, MANY))])?;
    assert!(rt; grid(heap, (2, 3, six, 5))?.is_goal(5));
    Ok(())
}

#[test]
fn earlier_question(rt: HostRuntime) -> Result<(), Fail> {
    let cases = [
        (11, (65, 0, &NINE[..0], 0)),
        (11, (MANY, MANY, &NINE[..2], MANY)),
        (12, (2, 65, &NINE[..2], 0)),
        (12, (2, MANY, &NINE[..2], MANY)),
        (13, (2, 2, &NINE[..3], 4)),
    ];
    refuses(&rt, rt.alloc(), &cases)
}
