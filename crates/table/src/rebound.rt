// A near queue for another bound.
ghost use Rattle.std.specs.Prelude.{◌≡◌, ℕ, ◌+◌, ◌<◌, ◌≤◌, length};
ghost use Rattle.queue.specs.Keys.{cost_at_most};
ghost use Rattle.roster.specs.Check.{expected_in};
ghost use Rattle.roster.specs.Holds.{Holds};
ghost use Rattle.search_model.specs.Fields.{RecordLimits};
ghost use Rattle.search_model.specs.Records.{at as record_at};
ghost use Rattle.table.specs.Order.{cost_place, InOrder};
ghost use Rattle.table.specs.Rebound.{NearBelow, NearOnly};
ghost use Rattle.table.specs.Seats.{low_entry, low_note, hope_entry, hope_note};
ghost use Rattle.table.specs.Table.{records, low_wanted, hope_wanted};

use crate::node::Node;
use crate::order::least_hope;
use crate::seats::Near;
use crate::wanted::{NearWanted, by_rank, is_near};
use queue::indexed;
use search_model::search::Search;

// Stays: the table changes under these methods. A struct that held its `&mut` would need a clause in each contract that it still is the same table, which is
// no shorter than `few` and `limits`.
impl NearWanted {
    // Inserts the place into a near queue of n if it is near, and returns the number of entries.
    fn add(self, table: &mut [Node], n: usize, place: usize) -> usize
        requires few { length table.old ≤ 4294967296 }
        requires place { place < length table.old }
        requires limits { RecordLimits (record_at (records table.old) place) }
        requires near { NearBelow self.state self.least table.old place n table.old }
        ensures near { NearBelow self.state self.least table.old (place + 1) result table.new }
        ensures only { NearOnly table.old table.new }
    {
        let kept = table[place].kept;
        if is_near(self.state, self.least, kept) {
            indexed::insert::<Near, Node>(table, n, by_rank(kept, place as u32));
            n + 1
        } else {
            n
        }
    }

    // Fills the near queue anew, and returns the number of entries.
    fn refill(self, table: &mut [Node]) -> usize
        requires few { length table.old ≤ 4294967296 }
        requires limits { (p : ℕ) → RecordLimits (record_at (records table.old) p) }
        ensures near { NearBelow self.state self.least table.old (length table.old) result table.new }
        ensures only { NearOnly table.old table.new }
    {
        let mut n: usize = 0;
        for place in 0..table.len() {
            n = self.add(table, n, place);
        }
        n
    }
}

// Makes the near queue hold the near set under the bound of `state`, and returns the number of near places. The near queue may hold anything before.
pub fn rebound_near(state: Search, opened: usize, table: &mut [Node]) -> usize
    requires few { length table.old ≤ 4294967296 }
    requires limits { (p : ℕ) → RecordLimits (record_at (records table.old) p) }
    requires low { Holds cost_at_most cost_place low_entry low_note (expected_in low_wanted table.old) opened table.old }
    requires hope { Holds cost_at_most cost_place hope_entry hope_note (expected_in hope_wanted table.old) opened table.old }
    ensures kept { records table.new ≡ records table.old }
    ensures order { InOrder state opened result table.new }
{
    let least = least_hope(table, opened);
    NearWanted { state, least }.refill(table)
}
