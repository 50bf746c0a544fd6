// A job over a floor.
ghost use Rattle.std.specs.Prelude.{◌≡◌, IfOk};
ghost use Rattle.floors.specs.Guided.{described};
ghost use Rattle.floors.specs.Questions.{first_no, refusal};
ghost use Rattle.search.specs.Faults.{search_number};
ghost use Rattle.search.specs.Told.{tells};
ghost use Rattle.job.specs.Kept.{JobKept};
ghost use Rattle.job.specs.Floors.{FloorJobDone, answer_as};
ghost use Rattle.job.specs.Questions.{job_questions};

use crate::answer::JobAnswer;
use floors::floor::Floor;
use floors::guided::GuidedFloor;
use search::fault::SearchFault;
use search::questions::{GREATEST_BUDGET, ask_begin};
use search::running::Running;
use search::states::Advanced;
use search_model::bound::Bound;
use table::node::Node;

// The questions, in order; nothing is changed before all are answered yes.
// Stays: start, bound and budget go through as the caller of the job gives them; a struct would be made and taken apart in each call.
fn ask<F: Floor>(
    floor: &F,
    start: u32,
    bound: Bound,
    budget: u32,
    table: &[Node],
    room: usize,
) -> Result<(), SearchFault>
    ensures { refusal search_number result ≡ first_no (job_questions (F.meaning floor.now) start bound budget table.now room) }
{
    ask_begin(floor, start, bound, table)?;
    if budget > GREATEST_BUDGET {
        return Err(SearchFault::BudgetTooLarge);
    }
    if room < floor.places() as usize {
        return Err(SearchFault::ListTooShort);
    }
    Ok(())
}

// Begins, advances once and reads a settled search. After the questions nothing can be refused.
pub fn search_floor<F: GuidedFloor>(
    floor: &F,
    start: u32,
    bound: Bound,
    budget: u32,
    table: &mut [Node],
    list: &mut [u32],
) -> Result<JobAnswer, SearchFault>
    ensures done { FloorJobDone (described F.GuidedFloor floor.now) start bound budget table.old list.old (tells answer_as result) table.new list.new }
    ensures kept { IfOk result (λ x. JobKept (described F.GuidedFloor floor.now) start bound budget (answer_as x) table.new list.old list.new) }
{
    ask(floor, start, bound, budget, table, list.len())?;
    let running = Running::begin(floor, start, bound, table)?;
    let advanced = running.advance(floor, budget, table)?;
    match advanced {
        Advanced::More(running, report) => Ok(JobAnswer::More(running, report)),
        Advanced::Settled(settled, report) => {
            let route = settled.read(floor, table, list)?;
            Ok(JobAnswer::Settled(settled, report, route))
        }
        Advanced::Barren(barren, report) => Ok(JobAnswer::Barren(barren, report)),
    }
}
