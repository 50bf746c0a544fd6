// A job on a layout.
ghost use Rattle.std.specs.Prelude.{◌≡◌, IfOk};
ghost use Rattle.job.specs.Floors.{answer_as};
ghost use Rattle.job.specs.Job.{JobDone, described};
ghost use Rattle.job.specs.Kept.{JobKept};
ghost use Rattle.job.specs.declared.fault.JobFault.TheVariants.{Search as search_fault};

use crate::answer::Job;
use crate::fault::JobFault;
use crate::floor_job::search_floor;
use crate::refused::JobRefused;
use floors::floor::Floor;
use floors::guided::GuidedFloor;
use layout::{LayoutFloor, intake};
use search::fault::SearchFault;
use search_model::bound::Bound;
use table::node::Node;

// A refused search, with the layout's bytes taken out of its floor again.
fn hand_back(floor: LayoutFloor, fault: SearchFault) -> JobRefused
    ensures { result ≡ record { fault = search_fault fault; layout = floor.layout } }
{
    JobRefused {
        fault: JobFault::from(fault),
        layout: floor.into_bytes(),
    }
}

// The intake, then a search from the start: a begin, one advance and, if it is settled, a read.
pub fn run(
    layout: Vec<u8>,
    start: u32,
    bound: Bound,
    budget: u32,
    table: &mut [Node],
    list: &mut [u32],
) -> Result<Job, JobRefused>
    ensures done { JobDone layout start bound budget table.old list.old result table.new list.new }
    ensures kept { IfOk result (λ j. JobKept (described layout.items) start bound budget (answer_as j.answer) table.new list.old list.new) }
{
    let floor = intake(layout)?;
    // Stays: both arms take the floor, and of two closures only one could.
    match search_floor(&floor, start, bound, budget, table, list) {
        Ok(answer) => Ok(Job { floor, answer }),
        Err(fault) => Err(hand_back(floor, fault)),
    }
}
