// The open places of a table while an advance runs, and every change of a place's record.
ghost use Rattle.frontier.specs.Frontier.{Puttable, PutDone};

use crate::side::{on_far_side, on_near_side, want_far, want_near};
use queue::indexed::Homed;
use queue::order::Ranked;
use queue::slot::Slot;
use roster::update::update;
use search_model::records::Record;
use search_model::search::Search;
use table::node::Node;
use table::seats::{Far, Hope, Low, Near};
use table::wanted::want;

// How many places are open, how many of them on the near side and on the far side, and the cover: every place on the far side is beyond it.
#[derive(Clone, Copy)]
pub struct Frontier {
    pub opened: usize,
    pub nears: usize,
    pub fars: usize,
    pub cover: u32,
}

// Stays: the lent table is a parameter of every method, since a struct that held its `&mut` would need a clause in every contract that it still is the same
// table; and the search is one, since a copy of it in the frontier would need a clause that it still is the same search.
impl Frontier {
    // Gives a place a record and a side, and each queue what it wants of the place then.
    // Stays: the side is any number, as a node can store any; an enum would ask more of the caller.
    pub fn put_record(
        &mut self,
        search: Search,
        table: &mut [Node],
        place: u32,
        kept: Record,
        side: u32,
    )
        requires { Puttable search self.old table.old place kept side }
        ensures { PutDone search self.old table.old place kept side self.new table.new }
    {
        let home = place as usize;
        let old = table[home];
        let new = Node { kept, side, ..old };
        table[home] = new;
        let was = old.kept.is_open();
        let low = want::<Low>(new, place);
        let opened = update::<Low, Node>(table, self.opened, home, was, low);
        let hope = want::<Hope>(new, place);
        update::<Hope, Node>(table, self.opened, home, was, hope);
        let wanted = want_near(search, new, place);
        let nears = update::<Near, Node>(table, self.nears, home, on_near_side(old), wanted);
        let wanted = want_far(new, place);
        let fars = update::<Far, Node>(table, self.fars, home, on_far_side(old), wanted);
        *self = Frontier {
            opened,
            nears,
            fars,
            ..*self
        };
    }
}
