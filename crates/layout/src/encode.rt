// Records as bytes, for whoever writes layouts.
ghost use Rattle.std.specs.Prelude.{◌≡◌, if◌then◌else◌};
ghost use Rattle.layout.specs.Encoding.{place_bytes, leg_bytes};

use crate::record::{RawRecord, Tag};

// A place record: a goal or not, the number of its first leg, and its estimates.
pub fn encode_place(goal: bool, first: u16, low: u32, hope: u32, steps: u32) -> [u8; 16]
    ensures { result ≡ place_bytes (if goal then 1 else 0) first low hope steps }
{
    RawRecord {
        tag: Tag::Place as u8,
        flag: u8::from(goal),
        half: first,
        word1: low,
        word2: hope,
        word3: steps,
    }
    .to_bytes()
}

// A leg record: the place that it leads to and its cost.
pub fn encode_leg(target: u32, cost: u16) -> [u8; 16]
    ensures { result ≡ leg_bytes target cost }
{
    RawRecord {
        tag: Tag::Leg as u8,
        half: cost,
        word1: target,
        ..RawRecord::default()
    }
    .to_bytes()
}
