// The end of an advance: the near queue holds the near set again.
ghost use Rattle.std.specs.Prelude.{◌≡◌, not, ◌&&◌, length};
ghost use Rattle.search_model.specs.Choice.{within};
ghost use Rattle.search_model.specs.Fields.{RecordLimits};
ghost use Rattle.frontier.specs.Endings.{Trimmable, Trimmed, Ended, TrimmedAt, TrimmingAt};
ghost use Rattle.frontier.specs.Frontier.{Prepared, near_side};

use crate::frontier::Frontier;
use crate::side::{Side, on_near_side};
use search_model::search::Search;
use table::node::Node;
use table::order::least_hope;
use table::seats::Hope;
use table::wanted::{Keyed, is_within};

// Whether a node is of a place on the near side beyond the cover.
fn is_past(search: Search, node: Node, least: u32) -> bool
    requires { RecordLimits node.kept }
    ensures { result ≡ (near_side node && not (within search least node.kept)) }
{
    on_near_side(node) && !is_within(search.bound, least, Hope::sum(node.kept))
}

impl Frontier {
    // Moves a place on the near side to the far side if it is beyond the cover.
    fn trim_place(&mut self, search: Search, table: &mut [Node], place: u32, least: u32)
        requires { TrimmingAt search self.old table.old place least }
        ensures { TrimmedAt search self.old table.old place least self.new table.new }
    {
        if is_past(search, table[place as usize], least) {
            self.move_place(search, table, place, Side::Far);
        }
    }

    // Moves every place on the near side that is beyond the cover to the far side.
    fn trim(&mut self, search: Search, table: &mut [Node], least: u32)
        requires { Trimmable search self.old table.old least }
        ensures { Trimmed search table.old least (length table.old) self.new table.new }
    {
        for place in 0..table.len() {
            self.trim_place(search, table, place as u32, least);
        }
    }

    // Makes the near queue hold the near set for the least f̂.
    pub fn finish(&mut self, search: Search, table: &mut [Node])
        requires { Prepared search self.old table.old }
        ensures { Ended search table.old self.new table.new }
    {
        let least = least_hope(table, self.opened);
        self.raise(search, table, least);
        self.trim(search, table, least);
    }
}
