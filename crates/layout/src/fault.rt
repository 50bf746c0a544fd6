// Why a layout is refused.
ghost use Rattle.std.specs.Prelude.{◌≡◌};
ghost use Rattle.layout.specs.Faults.{record_verdict, layout_verdict};
ghost use Rattle.layout.specs.Verdict.{number_of, record_of};
ghost use Rattle.layout.specs.declared.fault.LayoutFault.TheVariants.{Record as record_fault};

// A fault of single records, with the number of the lowest record that has it.
#[derive(Clone, Copy, PartialEq, Eq, Debug)]
pub enum RecordFault {
    Tag(usize),
    FixedBytes(usize),
    FirstLeg(usize),
    Target(usize),
    Estimate(usize),
}

// A fault of a layout, with the record that it names.
#[derive(Clone, Copy, PartialEq, Eq, Debug)]
pub enum LayoutFault {
    Length(usize),
    FirstRecord,
    TooMany(usize),
    Record(RecordFault),
    HighGoal(usize),
    SteepLeg(usize),
}

impl RecordFault {
    // The number of the question.
    pub fn number(&self) -> u32
        ensures { result ≡ number_of (record_verdict self.now) }
    {
        match *self {
            RecordFault::Tag(_) => 3,
            RecordFault::FixedBytes(_) => 5,
            RecordFault::FirstLeg(_) => 6,
            RecordFault::Target(_) => 7,
            RecordFault::Estimate(_) => 8,
        }
    }

    // The record that fails it.
    pub fn record(&self) -> usize
        ensures { result ≡ record_of (record_verdict self.now) }
    {
        match *self {
            RecordFault::Tag(record)
            | RecordFault::FixedBytes(record)
            | RecordFault::FirstLeg(record)
            | RecordFault::Target(record)
            | RecordFault::Estimate(record) => record,
        }
    }
}

impl LayoutFault {
    // The number of the question.
    pub fn number(&self) -> u32
        ensures { result ≡ number_of (layout_verdict self.now) }
    {
        match self {
            LayoutFault::Length(_) => 1,
            LayoutFault::FirstRecord => 2,
            LayoutFault::TooMany(_) => 4,
            LayoutFault::Record(fault) => fault.number(),
            LayoutFault::HighGoal(_) | LayoutFault::SteepLeg(_) => 9,
        }
    }

    // The record that fails it.
    pub fn record(&self) -> usize
        ensures { result ≡ record_of (layout_verdict self.now) }
    {
        match *self {
            LayoutFault::FirstRecord => 0,
            LayoutFault::Record(fault) => fault.record(),
            LayoutFault::Length(record)
            | LayoutFault::TooMany(record)
            | LayoutFault::HighGoal(record)
            | LayoutFault::SteepLeg(record) => record,
        }
    }
}

impl From<RecordFault> for LayoutFault {
    ghost from_gives = { λ fault r. r ≡ record_fault fault };

    fn from(record: RecordFault) -> LayoutFault {
        LayoutFault::Record(record)
    }
}
