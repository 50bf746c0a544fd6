// Why a job is refused: a fault of the layout or of the search.
ghost use Rattle.std.specs.Prelude.{◌≡◌};
ghost use Rattle.job.specs.Faults.{refusal_of};
ghost use Rattle.job.specs.declared.fault.JobFault.TheVariants.{Layout as layout_fault, Search as search_fault};

use layout::LayoutFault;
use search::fault::SearchFault;

// The part that put the question.
#[derive(Clone, Copy, PartialEq, Eq, Debug)]
pub enum Layer {
    Layout,
    Search,
}

#[derive(Clone, Copy, PartialEq, Eq, Debug)]
pub enum JobFault {
    Layout(LayoutFault),
    Search(SearchFault),
}

impl JobFault {
    // The part that put the question.
    pub fn layer(&self) -> Layer
        ensures { result ≡ (refusal_of self.now).layer }
    {
        match self {
            JobFault::Layout(_) => Layer::Layout,
            JobFault::Search(_) => Layer::Search,
        }
    }

    // The number of the question.
    pub fn number(&self) -> u32
        ensures { result ≡ (refusal_of self.now).number }
    {
        match self {
            JobFault::Layout(fault) => fault.number(),
            JobFault::Search(fault) => fault.number(),
        }
    }

    // The record that fails it; 0 for a question of the search.
    pub fn record(&self) -> usize
        ensures { result ≡ (refusal_of self.now).at_record }
    {
        match self {
            JobFault::Layout(fault) => fault.record(),
            JobFault::Search(_) => 0,
        }
    }
}

impl From<LayoutFault> for JobFault {
    ghost from_gives = { λ fault r. r ≡ layout_fault fault };

    fn from(fault: LayoutFault) -> JobFault {
        JobFault::Layout(fault)
    }
}

impl From<SearchFault> for JobFault {
    ghost from_gives = { λ fault r. r ≡ search_fault fault };

    fn from(fault: SearchFault) -> JobFault {
        JobFault::Search(fault)
    }
}
