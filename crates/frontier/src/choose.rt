// Which open place is expanded next.
ghost use Rattle.std.specs.Prelude.{◌≡◌, Some};
ghost use Rattle.search_model.specs.Choice.{choice};
ghost use Rattle.frontier.specs.Choose.{Choosing, ChoosingBy, NearReady, Chosen, ChosenBy};
ghost use Rattle.frontier.specs.Frontier.{Prepared};
ghost use Rattle.frontier.specs.Moves.{Dropped};
ghost use Rattle.table.specs.Table.{records};

use crate::frontier::Frontier;
use queue::entry::{CostEntry, NearEntry};
use queue::heap;
use queue::order::Ranked;
use queue::slot::Slot;
use search_model::search::Search;
use table::node::Node;
use table::seats::{Hope, Low, Near};
use table::wanted::is_within;

// The place to expand, and the low mark.
#[derive(Clone, Copy)]
pub struct Choice {
    pub place: u32,
    pub mark: u32,
}

impl Frontier {
    // Makes the cover the given one, with the first place on the near side within it.
    fn gather(&mut self, search: Search, table: &mut [Node], least: u32)
        requires { Prepared search self.old table.old }
        ensures { Dropped search table.old least self.new table.new }
    {
        if self.cover < least {
            self.raise(search, table, least);
        }
        self.drop_far(search, table, least);
    }

    // Near where it is within the mark, otherwise hope, which is.
    fn near_or_hope(&self, search: Search, table: &[Node], hope: u32, mark: u32) -> u32
        requires { NearReady search self.now table.now hope mark }
        ensures { choice search mark (records table.now) ≡ Some result }
    {
        heap::head::<Near, Node>(table, self.nears)
            .filter(|near| is_within(search.bound, mark, near.cost))
            .map_or(hope, |near| near.place)
    }

    // The choice by the mark, where low is the given place.
    fn choose_by(&mut self, search: Search, table: &mut [Node], low: u32, mark: u32) -> u32
        requires { ChoosingBy search self.old table.old low }
        ensures { ChosenBy search table.old mark self.new result table.new }
    {
        let head = heap::head::<Hope, Node>(table, self.opened);
        let Some(hope) = head.filter(|hope| is_within(search.bound, mark, hope.cost)) else {
            return low;
        };
        self.gather(search, table, hope.cost);
        self.near_or_hope(search, table, hope.place, mark)
    }

    // The choice by the low mark; none where nothing is open.
    pub fn choose(&mut self, search: Search, table: &mut [Node]) -> Option<Choice>
        requires { Choosing search self.old table.old }
        ensures { Chosen search table.old self.new result table.new }
    {
        let low = heap::head::<Low, Node>(table, self.opened)?;
        let place = self.choose_by(search, table, low.place, low.cost);
        Some(Choice {
            place,
            mark: low.cost,
        })
    }
}
