// The questions of each call, in order.
ghost use Rattle.std.specs.Prelude.{◌≡◌, ◌<◌, ◌≤◌, length, IfOk, OnOk};
ghost use Rattle.floors.specs.Questions.{first_no, refusal};
ghost use Rattle.search.specs.Faults.{search_number};
ghost use Rattle.search.specs.Questions.{bound_valid, begin_questions, advance_questions, end_questions, rebound_questions, shape_questions, order_question};
ghost use Rattle.table.specs.Order.{InOrder};

use crate::fault::SearchFault;
use crate::running::Running;
use floors::floor::Floor;
use search_model::bound::Bound;
use search_model::search::Search;
use table::node::Node;
use table::order::{Queued, check_order};

// The greatest budget.
pub const GREATEST_BUDGET: u32 = 65_535;

// Whether the bound is valid: 1 ≤ b ≤ a ≤ 10,000.
fn is_valid(bound: Bound) -> bool
    ensures { result ≡ bound_valid bound }
{
    1 <= bound.b && bound.b <= bound.a && bound.a <= 10_000
}

// The questions of a begin.
pub fn ask_begin<F: Floor>(
    floor: &F,
    start: u32,
    bound: Bound,
    table: &[Node],
) -> Result<(), SearchFault>
    ensures answer { refusal search_number result ≡ first_no (begin_questions (F.meaning floor.now) start bound table.now) }
    ensures place { OnOk result (start < length table.now) }
    ensures bounded { OnOk result (bound.b ≤ bound.a) }
{
    if start >= floor.places() {
        return Err(SearchFault::StartOffFloor);
    }
    if !is_valid(bound) {
        return Err(SearchFault::BadBound);
    }
    if table.len() != floor.places() as usize {
        return Err(SearchFault::TableSize);
    }
    Ok(())
}

// That the floor and the table have the size of the search.
// Stays: running and settled searches both ask this, so it is no method of one of them.
pub(crate) fn ask_sizes<F: Floor>(
    floor: &F,
    state: Search,
    table: &[Node],
) -> Result<(), SearchFault>
    ensures { refusal search_number result ≡ first_no (shape_questions (F.meaning floor.now) state table.now) }
{
    if floor.places() != state.size {
        return Err(SearchFault::FloorSize);
    }
    if table.len() != state.size as usize {
        return Err(SearchFault::TableSize);
    }
    Ok(())
}

// That the table is in order: the numbers of open and of near places.
// Stays: `ordered` is a fact about the lent table, which `Queued` does not hold, so no ghost field of it can say it.
fn ask_order(state: Search, table: &[Node]) -> Result<Queued, SearchFault>
    requires { length table.now ≤ 4294967296 }
    ensures answer { refusal search_number result ≡ first_no (order_question state table.now) }
    ensures ordered { IfOk result (λ q. InOrder state q.opened q.nears table.now) }
{
    check_order(state, table).ok_or(SearchFault::TableOutOfOrder)
}

// The questions of a rebound.
pub(crate) fn ask_rebound(
    state: Search,
    bound: Bound,
    table: &[Node],
) -> Result<Queued, SearchFault>
    ensures answer { refusal search_number result ≡ first_no (rebound_questions state bound table.now) }
    ensures ordered { IfOk result (λ q. InOrder state q.opened q.nears table.now) }
    ensures bounded { OnOk result (bound.b ≤ bound.a) }
{
    if !is_valid(bound) {
        return Err(SearchFault::BadBound);
    }
    if table.len() != state.size as usize {
        return Err(SearchFault::TableSize);
    }
    ask_order(state, table)
}

impl Running {
    // The questions of an advance.
    pub(crate) fn ask_advance<F: Floor>(
        &self,
        floor: &F,
        budget: u32,
        table: &[Node],
    ) -> Result<Queued, SearchFault>
        ensures answer { refusal search_number result ≡ first_no (advance_questions (F.meaning floor.now) self.now.state budget table.now) }
        ensures ordered { IfOk result (λ q. InOrder self.now.state q.opened q.nears table.now) }
        ensures sized { OnOk result (length table.now ≡ (F.meaning floor.now).size) }
    {
        ask_sizes(floor, self.state, table)?;
        if budget > GREATEST_BUDGET {
            return Err(SearchFault::BudgetTooLarge);
        }
        ask_order(self.state, table)
    }

    // The questions of an advance to the end.
    pub(crate) fn ask_end<F: Floor>(&self, floor: &F, table: &[Node]) -> Result<Queued, SearchFault>
        ensures answer { refusal search_number result ≡ first_no (end_questions (F.meaning floor.now) self.now.state table.now) }
        ensures ordered { IfOk result (λ q. InOrder self.now.state q.opened q.nears table.now) }
        ensures sized { OnOk result (length table.now ≡ (F.meaning floor.now).size) }
    {
        ask_sizes(floor, self.state, table)?;
        ask_order(self.state, table)
    }
}
