// What grids answer, on the grid and off it.
use crate::build::{NINE, estimates_are, grid, legs_are, to};
use floors::floor::Floor;
use floors::grid_sample::two_cells;
use std::test::Fail;

#[test]
fn two_by_one(rt: HostRuntime) -> Result<(), Fail> {
    let grid = grid(rt.alloc(), (2, 1, &two_cells(), 1))?;
    legs_are(&rt, &grid, 0, [None, to(1, 5), None, None]);
    legs_are(&rt, &grid, 1, [None, None, None, to(0, 3)]);
    estimates_are(&rt, &grid, 0, (3, 4, 1));
    Ok(())
}

#[test]
fn four_ways(rt: HostRuntime) -> Result<(), Fail> {
    let grid = grid(rt.alloc(), (3, 3, &NINE, 8))?;
    legs_are(&rt, &grid, 4, [to(1, 2), to(5, 6), to(7, 8), to(3, 4)]);
    legs_are(&rt, &grid, 2, [None, None, to(5, 6), to(1, 2)]);
    legs_are(&rt, &grid, 6, [to(3, 4), to(7, 8), None, None]);
    assert!(rt; grid.leg(4, 4).is_none());
    estimates_are(&rt, &grid, 0, (4, 20, 4));
    Ok(())
}

#[test]
fn rows_of_two(rt: HostRuntime) -> Result<(), Fail> {
    let grid = grid(rt.alloc(), (2, 3, &[5, 0, 4, 3, 6, 9], 1))?;
    legs_are(&rt, &grid, 0, [None, None, to(2, 4), None]);
    legs_are(&rt, &grid, 1, [None, None, to(3, 3), to(0, 5)]);
    legs_are(&rt, &grid, 3, [None, None, to(5, 9), to(2, 4)]);
    estimates_are(&rt, &grid, 4, (9, 18, 3));
    Ok(())
}

#[test]
fn one_cell(rt: HostRuntime) -> Result<(), Fail> {
    let grid = grid(rt.alloc(), (1, 1, &[9], 0))?;
    assert_eq!(rt; grid.places(), 1);
    assert_eq!(rt; grid.legs(0), 4);
    assert!(rt; grid.is_goal(0));
    legs_are(&rt, &grid, 0, [None; 4]);
    estimates_are(&rt, &grid, 0, (0, 0, 0));
    Ok(())
}

#[test]
fn zeros(rt: HostRuntime) -> Result<(), Fail> {
    let grid = grid(rt.alloc(), (3, 2, &[0; 6], 5))?;
    for place in 0..6 {
        assert_eq!(rt; grid.legs(place), 4);
        legs_are(&rt, &grid, place, [None; 4]);
    }
    estimates_are(&rt, &grid, 0, (0, 0, 3));
    Ok(())
}

#[test]
fn greatest(rt: HostRuntime) -> Result<(), Fail> {
    let mut cells = [255; 4096];
    cells[0] = 254;
    let grid = grid(rt.alloc(), (64, 64, &cells, 4095))?;
    legs_are(&rt, &grid, 0, [None, to(1, 255), to(64, 255), None]);
    legs_are(
        &rt,
        &grid,
        64,
        [to(0, 254), to(65, 255), to(128, 255), None],
    );
    legs_are(&rt, &grid, 4095, [to(4031, 255), None, None, to(4094, 255)]);
    assert_eq!(rt; grid.places(), 4096);
    estimates_are(&rt, &grid, 0, (32_004, 32_004, 126));
    Ok(())
}

#[test]
fn off_the_grid(rt: HostRuntime) -> Result<(), Fail> {
    let grid = grid(rt.alloc(), (3, 3, &NINE, 0))?;
    assert_eq!(rt; grid.legs(9), 0);
    assert!(rt; !grid.is_goal(9));
    legs_are(&rt, &grid, 9, [None; 4]);
    estimates_are(&rt, &grid, 9, (0, 0, 0));
    estimates_are(&rt, &grid, 4_294_967_295, (0, 0, 0));
    Ok(())
}

#[test]
fn cells_again(rt: HostRuntime) -> Result<(), Fail> {
    let grid = grid(rt.alloc(), (3, 3, &NINE, 0))?;
    assert!(rt; grid.into_cells().as_slice() == NINE.as_slice());
    Ok(())
}
