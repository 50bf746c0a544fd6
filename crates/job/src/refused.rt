ghost use Rattle.std.specs.Prelude.{◌≡◌};
ghost use Rattle.job.specs.declared.fault.JobFault.TheVariants.{Layout as layout_fault};

use crate::fault::JobFault;
use layout::Refused;

// A refused job: why, and the layout's bytes as they were.
// Stays: what comes back has a name of its own for each kind of call; one type for all would call cells, layouts and searches the same.
#[derive(Drop)]
pub struct JobRefused {
    pub fault: JobFault,
    pub layout: Vec<u8>,
}

// A layout that the intake refused.
impl From<Refused> for JobRefused {
    ghost from_gives = { λ refused r. r ≡ record { fault = layout_fault refused.fault; layout = refused.layout } };

    fn from(refused: Refused) -> JobRefused {
        let Refused { fault, layout } = refused;
        JobRefused {
            fault: JobFault::from(fault),
            layout,
        }
    }
}
