// Questions put to the records of a layout, one after the other.
ghost use Rattle.std.specs.Prelude.{◌≡◌, ℕ, Bool};
ghost use Rattle.layout.specs.Faults.{record_verdict, says, Names};
ghost use Rattle.layout.specs.Lowest.{lowest, Answers};
ghost use Rattle.layout.specs.Verdict.{asked};

use crate::fault::RecordFault;

// The lowest of the first `records` records that fails the test.
pub fn lowest_failing<T: Fn(usize) -> bool>(fails: T, records: usize) -> Option<usize>
    requires { T.IsAlwaysCallable fails }
    ensures { (test : ℕ → Bool) → Answers (T.post fails) test → result ≡ lowest test records }
{
    (0..records).find(|record| fails(*record))
}

// The test put to the first `records` records: the fault names the lowest that fails.
pub fn put<T: Fn(usize) -> bool, F: Fn(usize) -> RecordFault>(
    fails: T,
    records: usize,
    fault: F,
) -> Result<(), RecordFault>
    requires tests { T.IsAlwaysCallable fails }
    requires names { F.IsAlwaysCallable fault }
    ensures { (test : ℕ → Bool) (number : ℕ) → Answers (T.post fails) test → Names (F.post fault) number → says record_verdict result ≡ asked number (lowest test records) }
{
    lowest_failing(fails, records).map_or(Ok(()), |record| Err(fault(record)))
}
