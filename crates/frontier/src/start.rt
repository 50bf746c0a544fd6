// The start of an advance: every open place is put on a side, and the far queue is built.
ghost use Rattle.std.specs.Prelude.{ℕ, ◌+◌, List};
ghost use Rattle.table.specs.declared.node.Node.{Node as TableNode};
ghost use Rattle.frontier.specs.Starting.{Seatable, Seating, Startable};
ghost use Rattle.frontier.specs.Moves.{Rearranged};
ghost use Rattle.table.specs.Table.{records, least_hope};

use crate::frontier::Frontier;
use crate::side::{Side, want_far};
use queue::indexed::Homed;
use queue::order::Ranked;
use queue::slot::Slot;
use roster::update::update;
use search_model::search::Search;
use table::node::Node;
use table::order::{Queued, least_hope};
use table::seats::Far;
use table::wanted::is_near;

impl Frontier {
    // Puts one place on its side, and into the far queue if that is the far side.
    fn seat_place(&mut self, search: Search, table: &mut [Node], place: u32)
        requires { Seatable table.old place self.old.fars }
        ensures { (least : ℕ) (t : List TableNode) → Seating search least t self.old place table.old → Seating search least t self.new (place + 1) table.new }
    {
        let old = table[place as usize];
        let side = Side::near_if(is_near(search, self.cover, old.kept));
        let new = Node {
            side: side.number(),
            ..old
        };
        table[place as usize] = new;
        let wanted = want_far(new, place);
        self.fars = update::<Far, Node>(table, self.fars, place as usize, false, wanted);
    }

    // Puts every open place on its side: the near set on the near side, the others on the far side, beyond the least f̂.
    pub fn start(search: Search, queued: Queued, table: &mut [Node]) -> Frontier
        requires { Startable search queued.opened queued.nears table.old }
        ensures { Rearranged search table.old (least_hope (records table.old)) result table.new }
    {
        let Queued { opened, nears } = queued;
        let cover = least_hope(table, opened);
        let mut front = Frontier {
            opened,
            nears,
            fars: 0,
            cover,
        };
        for place in 0..table.len() {
            front.seat_place(search, table, place as u32);
        }
        front
    }
}
