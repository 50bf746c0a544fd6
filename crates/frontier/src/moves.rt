// What changes the frontier: a place is given a label, is closed, or changes sides as the cover changes.
ghost use Rattle.std.specs.Prelude.{◌≡◌};
ghost use Rattle.search_model.specs.Expansion.{closed};
ghost use Rattle.search_model.specs.Records.{at};
ghost use Rattle.frontier.specs.Frontier.{Prepared, RecordPut};
ghost use Rattle.frontier.specs.Moves.{Labelled, Closing, Movable, Moved, FarWithin, NearBeyond, Raised, Dropped, Lowered};
ghost use Rattle.frontier.specs.Sides.{number_of};
ghost use Rattle.table.specs.Table.{records};

use crate::frontier::Frontier;
use crate::side::Side;
use queue::entry::{CostEntry, NearEntry};
use queue::heap;
use queue::order::Ranked;
use queue::slot::Slot;
use search_model::records::Record;
use search_model::search::Search;
use table::node::Node;
use table::seats::{Far, Hope, Near};
use table::wanted::{Keyed, is_within};

impl Frontier {
    // Gives an open place a record: on the near side if it is within the cover, otherwise on the far side.
    pub fn give_label(&mut self, search: Search, table: &mut [Node], place: u32, kept: Record)
        requires { Labelled search self.old table.old place kept }
        ensures { RecordPut search self.old table.old place kept self.new table.new }
    {
        let side = Side::near_if(is_within(search.bound, self.cover, Hope::sum(kept)));
        self.put_record(search, table, place, kept, side.number());
    }

    // Closes a place that is seen.
    pub fn close(&mut self, search: Search, table: &mut [Node], place: u32)
        requires { Closing search self.old table.old place }
        ensures { RecordPut search self.old table.old place (closed (at (records table.old) place)) self.new table.new }
    {
        let kept = table[place as usize].kept.closed();
        self.put_record(search, table, place, kept, Side::Far.number());
    }

    // Moves a place to a side.
    pub(crate) fn move_place(&mut self, search: Search, table: &mut [Node], place: u32, side: Side)
        requires { Movable search self.old table.old place (number_of side) }
        ensures { Moved search self.old table.old place (number_of side) self.new table.new }
    {
        let kept = table[place as usize].kept;
        self.put_record(search, table, place, kept, side.number());
    }

    // The first place on the far side if it is within the cover.
    fn far_within(&self, search: Search, table: &[Node], cover: u32) -> Option<u32>
        requires { Prepared search self.now table.now }
        ensures { FarWithin search self.now table.now cover result }
    {
        heap::head::<Far, Node>(table, self.fars)
            .filter(|e| is_within(search.bound, cover, e.cost))
            .map(|e| e.place)
    }

    // Moves every place within the cover to the near side; every place on the far side is then beyond that cover.
    pub fn raise(&mut self, search: Search, table: &mut [Node], cover: u32)
        requires { Prepared search self.old table.old }
        ensures { Raised search table.old cover self.new table.new }
    {
        while let Some(place) = self.far_within(search, table, cover) {
            self.move_place(search, table, place, Side::Near);
        }
        self.cover = cover;
    }

    // The first place on the near side if it is beyond the cover.
    // Stays: one function for this and `far_within` is no plainer, as the entries are of two types and the tests are opposites.
    fn near_beyond(&self, search: Search, table: &[Node], cover: u32) -> Option<u32>
        requires { Prepared search self.now table.now }
        ensures { NearBeyond search self.now table.now cover result }
    {
        heap::head::<Near, Node>(table, self.nears)
            .filter(|e| !is_within(search.bound, cover, e.cost))
            .map(|e| e.place)
    }

    // Lowers the cover, and moves places to the far side until the first on the near side is within it.
    pub fn drop_far(&mut self, search: Search, table: &mut [Node], least: u32)
        requires { Lowered search self.old table.old least }
        ensures { Dropped search table.old least self.new table.new }
    {
        self.cover = least;
        while let Some(place) = self.near_beyond(search, table, least) {
            self.move_place(search, table, place, Side::Far);
        }
    }
}
