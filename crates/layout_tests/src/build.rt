// Layouts, record by record, and what the intake says of them.
use layout::{LayoutFloor, encode_place, intake};
use std::alloc::{AllocError, Global};
use std::process::Abort;
use std::test::Fail;

// A place with a first leg and nothing else.
pub(crate) fn plain(first: u16) -> [u8; 16] {
    encode_place(false, first, 0, 0, 0)
}

// A place with a first leg and a low estimate.
pub(crate) fn with_low(first: u16, low: u32) -> [u8; 16] {
    encode_place(false, first, low, 0, 0)
}

// The record with one byte turned into another.
pub(crate) fn with_byte(record: [u8; 16], at: usize, byte: u8) -> [u8; 16] {
    let mut turned = record;
    if at < 16 {
        turned[at] = byte;
    }
    turned
}

// The bytes of the records.
pub(crate) fn bytes(heap: Global, records: &[[u8; 16]]) -> Result<Vec<u8>, AllocError> {
    records.as_flattened().to_vec(heap)
}

// The floor of a layout that is accepted.
pub(crate) fn accepted(layout: Vec<u8>) -> Result<LayoutFloor, Fail> {
    intake(layout).map_err(|_| Fail::new("refused"))
}

// The layout is refused by that question at that record, and comes back at its length.
pub(crate) fn refused(
    rt: &impl Abort,
    layout: Vec<u8>,
    number: u32,
    record: usize,
) -> Result<(), Fail> {
    let length = layout.len();
    let Err(refused) = intake(layout) else {
        return Err(Fail::new("accepted"));
    };
    assert_eq!(rt; refused.fault.number(), number);
    assert_eq!(rt; refused.fault.record(), record);
    assert_eq!(rt; refused.layout.len(), length);
    Ok(())
}

// Each of the cases is refused by that question: its records, and the record that it is refused at.
pub(crate) fn refuses(
    rt: &impl Abort,
    heap: Global,
    number: u32,
    cases: &[(&[[u8; 16]], usize)],
) -> Result<(), Fail> {
    for (records, record) in cases {
        refused(rt, bytes(heap, records)?, number, *record)?;
    }
    Ok(())
}

// The records are accepted.
pub(crate) fn accepts(heap: Global, records: &[[u8; 16]]) -> Result<(), Fail> {
    accepted(bytes(heap, records)?)?;
    Ok(())
}
