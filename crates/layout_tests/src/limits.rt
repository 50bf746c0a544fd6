// The greatest layout is accepted, and one record more is refused.
use crate::build::{accepted, plain, refused};
use floors::floor::Floor;
use layout::encode_leg;
use std::alloc::{AllocError, Global};
use std::test::Fail;

// So many places, of which the last has all the legs, each to place 0.
fn large(heap: Global, places: u32, legs: u32) -> Result<Vec<u8>, AllocError> {
    let mut layout = Vec::new(heap);
    for _ in 0..places {
        layout.extend_from_slice(&plain(0))?;
    }
    for _ in 0..legs {
        layout.extend_from_slice(&encode_leg(0, 65_535))?;
    }
    Ok(layout)
}

#[test]
fn greatest(rt: HostRuntime) -> Result<(), Fail> {
    let floor = accepted(large(rt.alloc(), 4096, 65_535)?)?;
    assert_eq!(rt; floor.places(), 4096);
    assert_eq!(rt; floor.legs(4094), 0);
    assert_eq!(rt; floor.legs(4095), 65_535);
    assert!(rt; floor.leg(4095, 65_534).is_some());
    assert!(rt; floor.leg(4095, 65_535).is_none());
    Ok(())
}

#[test]
fn too_many(rt: HostRuntime) -> Result<(), Fail> {
    let heap = rt.alloc();
    refused(&rt, large(heap, 4097, 0)?, 4, 4096)?;
    refused(&rt, large(heap, 4099, 65_536)?, 4, 4096)?;
    refused(&rt, large(heap, 4096, 65_536)?, 4, 4096 + 65_535)?;
    let mut astray = large(heap, 4097, 0)?;
    astray.extend_from_slice(&encode_leg(9999, 0))?;
    refused(&rt, astray, 4, 4096)?;
    refused(&rt, large(heap, 2, 65_538)?, 4, 2 + 65_535)
}
