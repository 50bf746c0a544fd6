// The route of a settled search.
ghost use Rattle.std.specs.Prelude.{◌≡◌, ◌≤◌, length, IfOk, Some};
ghost use Rattle.floors.specs.Questions.{first_no, refusal};
ghost use Rattle.reading.specs.Trails.{measured};
ghost use Rattle.search.specs.Calls.{ReadDone};
ghost use Rattle.search.specs.Faults.{search_number};
ghost use Rattle.search.specs.Questions.{read_questions};
ghost use Rattle.search.specs.Told.{tells};
ghost use Rattle.search_model.specs.Read.{read_route};
ghost use Rattle.table.specs.Table.{records};

use crate::fault::SearchFault;
use crate::questions::ask_sizes;
use crate::states::Settled;
use floors::floor::Floor;
use reading::measure::measure;
use reading::places::write_places;
use table::node::Node;

impl Settled {
    // The questions of a read: how many places the route has, and its cost.
    fn ask_read<F: Floor>(
        &self,
        floor: &F,
        table: &[Node],
        room: usize,
    ) -> Result<(usize, u32), SearchFault>
        ensures answer { refusal search_number result ≡ first_no (read_questions (F.meaning floor.now) self.now.state self.now.goal table.now room) }
        ensures pair { IfOk result (λ p. measured (read_route (F.meaning floor.now) self.now.state (records table.now) self.now.goal) ≡ Some p) }
        ensures fits { IfOk result (λ p. p.0 ≤ room) }
    {
        let state = self.state;
        ask_sizes(floor, state, table)?;
        let pair = measure(floor, state.start, table, state.size, self.goal).ok_or(
            SearchFault::ParentsAstray,
        )?;
        if room < state.size as usize {
            return Err(SearchFault::ListTooShort);
        }
        Ok(pair)
    }

    // Writes the places of the route into the list, the start first, and answers how many there are and the sum of the leg costs.
    pub fn read<F: Floor>(
        &self,
        floor: &F,
        table: &[Node],
        list: &mut [u32],
    ) -> Result<(usize, u32), SearchFault>
        ensures { ReadDone (F.meaning floor.now) self.now.state self.now.goal table.now list.old (tells (λ p. p) result) list.new }
    {
        let (places, cost) = self.ask_read(floor, table, list.len())?;
        write_places(table, self.goal, places, list);
        Ok((places, cost))
    }
}
