// The records of a layout by their numbers.
ghost use Rattle.std.specs.Prelude.{◌≡◌};
ghost use Rattle.layout.specs.Records.{record_at};

use crate::record::{RECORD_BYTES, RawRecord};

// The record of that number; past the last whole record, zeros.
pub fn raw_record(layout: &[u8], number: usize) -> RawRecord
    ensures { result ≡ record_at layout.now number }
{
    let (records, _) = layout.as_chunks::<RECORD_BYTES>();
    records
        .get(number)
        .map_or(RawRecord::default(), RawRecord::from_bytes)
}
