// The questions that single records answer, and the reader that puts them.
ghost use Rattle.std.specs.Prelude.{◌≡◌};
ghost use Rattle.layout.specs.Layout.{no_place};
ghost use Rattle.layout.specs.Questions.{no_leg_behind, wrong_fixed, wrong_first, wrong_target, wrong_estimate, high_goal};
ghost use Rattle.layout.specs.Faults.{record_verdict, says};
ghost use Rattle.layout.specs.Verdict.{each_record};

use crate::divided::Divided;
use crate::fault::RecordFault;
use crate::question::put;
use crate::raw::raw_record;
use crate::record::{RECORD_BYTES, Tag};
use floors::limit::LIMIT;

// No place record.
pub fn no_place(layout: &[u8], index: usize) -> bool
    ensures { result ≡ no_place layout.now index }
{
    raw_record(layout, index).tag != Tag::Place as u8
}

// From the first record that is no place record on, no leg record.
pub fn wrong_tag(layout: &[u8], places: usize, index: usize) -> bool
    ensures { result ≡ no_leg_behind layout.now places index }
{
    places <= index && raw_record(layout, index).tag != Tag::Leg as u8
}

// A goal whose low estimate is not 0.
pub fn high_goal(layout: &[u8], index: usize) -> bool
    ensures { result ≡ high_goal layout.now index }
{
    let raw = raw_record(layout, index);
    raw.flag == 1 && raw.word1 != 0
}

// An estimate above the limit.
fn wrong_estimate(layout: &[u8], index: usize) -> bool
    ensures { result ≡ wrong_estimate layout.now index }
{
    let raw = raw_record(layout, index);
    raw.word1 > LIMIT || raw.word2 > LIMIT || raw.word3 > LIMIT
}

impl Divided<'_> {
    // A byte that is fixed, or a goal's byte, with another value.
    fn wrong_fixed(&self, index: usize) -> bool
        ensures { result ≡ wrong_fixed self.now.layout.now self.now.counts index }
    {
        let raw = raw_record(self.layout, index);
        if index < self.counts.places as usize {
            raw.flag > 1
        } else {
            !(raw.flag == 0 && raw.word2 == 0 && raw.word3 == 0)
        }
    }

    // A first leg that is out of line.
    fn wrong_first(&self, index: usize) -> bool
        ensures { result ≡ wrong_first self.now.layout.now self.now.counts index }
    {
        let first = raw_record(self.layout, index).half;
        if index == 0 {
            return first != 0;
        }
        first < raw_record(self.layout, index - 1).half || self.counts.legs < u32::from(first)
    }

    // A leg to no place.
    fn wrong_target(&self, index: usize) -> bool
        ensures { result ≡ wrong_target self.now.layout.now self.now.counts index }
    {
        self.counts.places as usize <= index
            && self.counts.size <= raw_record(self.layout, index).word1
    }

    // Questions 5 to 8.
    pub fn read_records(&self) -> Result<(), RecordFault>
        ensures { says record_verdict result ≡ each_record self.now.layout.now self.now.counts }
    {
        let whole = self.layout.len() / RECORD_BYTES;
        let places = self.counts.places as usize;
        put(
            |index| self.wrong_fixed(index),
            whole,
            RecordFault::FixedBytes,
        )?;
        put(
            |index| self.wrong_first(index),
            places,
            RecordFault::FirstLeg,
        )?;
        put(|index| self.wrong_target(index), whole, RecordFault::Target)?;
        put(
            |index| wrong_estimate(self.layout, index),
            places,
            RecordFault::Estimate,
        )
    }
}
