// Questions 1 to 4: where the records of a layout stand, and how many there are.
ghost use Rattle.std.specs.Prelude.{◌≡◌, ◌-◌, ◌≤◌, IfOk};
ghost use Rattle.layout.specs.Faults.{layout_verdict, record_verdict, says};
ghost use Rattle.layout.specs.Layout.{counts, divided, places as place_count};
ghost use Rattle.layout.specs.Lowest.{lowest};
ghost use Rattle.layout.specs.Questions.{broken_length, no_first_place, wrong_tag, too_many};
ghost use Rattle.layout.specs.Records.{whole as whole_records};
ghost use Rattle.layout.specs.Verdict.{asked, shape as shape_verdict};

use crate::counts::{Counts, MOST_LEGS, MOST_PLACES};
use crate::fault::{LayoutFault, RecordFault};
use crate::question::{lowest_failing, put};
use crate::raw::raw_record;
use crate::record::{RECORD_BYTES, Tag};
use crate::records::{no_place, wrong_tag};

// Question 1.
fn check_length(layout: &[u8]) -> Result<(), LayoutFault>
    ensures { says layout_verdict result ≡ asked 1 (broken_length layout.now) }
{
    if layout.len() % RECORD_BYTES == 0 {
        Ok(())
    } else {
        Err(LayoutFault::Length(layout.len() / RECORD_BYTES))
    }
}

// Question 2.
fn check_first(layout: &[u8]) -> Result<(), LayoutFault>
    ensures { says layout_verdict result ≡ asked 2 (no_first_place layout.now) }
{
    if raw_record(layout, 0).tag == Tag::Place as u8 {
        Ok(())
    } else {
        Err(LayoutFault::FirstRecord)
    }
}

// How many place records stand first.
fn count_places(layout: &[u8]) -> usize
    ensures count { result ≡ place_count layout.now }
    ensures within { result ≤ whole_records layout.now }
{
    let whole = layout.len() / RECORD_BYTES;
    lowest_failing(|index| no_place(layout, index), whole).unwrap_or(whole)
}

// Question 3, of a layout whose first place records are counted.
fn check_tags(layout: &[u8], places: usize) -> Result<(), RecordFault>
    requires { places ≡ place_count layout.now }
    ensures { says record_verdict result ≡ asked 3 (lowest (wrong_tag layout.now) (whole_records layout.now)) }
{
    put(
        |index| wrong_tag(layout, places, index),
        layout.len() / RECORD_BYTES,
        RecordFault::Tag,
    )
}

// Question 4: the counts, where they are within the limits.
fn check_counts(whole: usize, places: usize) -> Result<Counts, LayoutFault>
    requires { places ≤ whole }
    ensures said { says layout_verdict result ≡ asked 4 (too_many (divided whole places)) }
    ensures counted { IfOk result (λ n. n ≡ divided whole places) }
{
    let legs = whole - places;
    if places > MOST_PLACES {
        return Err(LayoutFault::TooMany(MOST_PLACES));
    }
    if legs > MOST_LEGS {
        return Err(LayoutFault::TooMany(places + MOST_LEGS));
    }
    Ok(Counts {
        size: places as u32,
        places: places as u32,
        legs: legs as u32,
    })
}

// Questions 1 to 4; where all are answered yes, how the layout divides.
pub fn check_shape(layout: &[u8]) -> Result<Counts, LayoutFault>
    ensures said { says layout_verdict result ≡ shape_verdict layout.now }
    ensures counted { IfOk result (λ n. n ≡ counts layout.now) }
{
    check_length(layout)?;
    check_first(layout)?;
    let places = count_places(layout);
    check_tags(layout, places)?;
    check_counts(layout.len() / RECORD_BYTES, places)
}
