// The places of a route, written into a list.
ghost use Rattle.std.specs.Prelude.{◌≡◌, ℕ, ◌<◌, ◌≤◌, length, Some, slice_set};
ghost use Rattle.floors.specs.Meaning.{Meaning};
ghost use Rattle.search_model.specs.Read.{follow};
ghost use Rattle.search_model.specs.Records.{at};
ghost use Rattle.table.specs.Table.{records};
ghost use Rattle.reading.specs.Trails.{measured, written};

use crate::back::record_at;
use table::node::Node;

// Writes a place into a slot of the list, and returns the place's parent.
fn write_place(table: &[Node], place: u32, slot: usize, list: &mut [u32]) -> u32
    requires { slot < length list.old }
    ensures parent { result ≡ (at (records table.now) place).parent }
    ensures list { list.new ≡ slice_set list.old slot place }
{
    list[slot] = place;
    record_at(table, place).parent
}

// Writes a route of `count` places to the goal over the front of the list, the start first.
pub fn write_places(table: &[Node], goal: u32, count: usize, list: &mut [u32])
    requires { count ≤ length list.old }
    ensures { (m : Meaning) (start most cost : ℕ) → measured (follow m start (records table.now) most goal) ≡ Some (count, cost) → list.new ≡ written (follow m start (records table.now) most goal) list.old }
{
    let mut place = goal;
    // Stays: after a loop over `list[..count].iter_mut().rev()` a proof knows no element of the list (tried).
    for slot in (0..count).rev() {
        place = write_place(table, place, slot, list);
    }
}
