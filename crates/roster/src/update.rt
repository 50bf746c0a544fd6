// The update of a roster: one home is given, takes back or changes what is expected of it.
ghost use Rattle.std.specs.Prelude.{◌≡◌, ℕ, is_some, Option};
ghost use Rattle.roster.specs.Holds.{Holds, put};
ghost use Rattle.roster.specs.Update.{Updatable, QueueOnly, updated_count};

use queue::indexed;
use queue::indexed::Homed;
use queue::order::Ranked;
use queue::slot::Slot;

// Makes the wanted entry, or none, the home's in a queue of n, where the home has one if `was`; returns the new number of entries.
pub fn update<Q, R: Homed<Q>>(
    slots: &mut [R],
    n: usize,
    home: usize,
    was: bool,
    wanted: Option<R::Entry>,
) -> usize
    requires { Updatable R.Entry.Ranked.at_most R.Homed.home_of R.Slot.entry_of R.Homed.note_of R.Homed.note_limit n home was wanted slots.old }
    ensures holds { (x : ℕ → Option R.Entry) → Holds R.Entry.Ranked.at_most R.Homed.home_of R.Slot.entry_of R.Homed.note_of x n slots.old → is_some (x home) ≡ was → Holds R.Entry.Ranked.at_most R.Homed.home_of R.Slot.entry_of R.Homed.note_of (put x home wanted) result slots.new }
    ensures count { result ≡ updated_count n was wanted }
    ensures frame { QueueOnly R.Slot.entry_of R.Slot.with_entry R.Homed.note_of R.Homed.with_note slots.old slots.new }
{
    match (wanted, was) {
        (Some(e), true) => {
            indexed::replace::<Q, R>(slots, n, home, e);
            n
        }
        (Some(e), false) => {
            indexed::insert::<Q, R>(slots, n, e);
            n + 1
        }
        (None, true) => {
            indexed::remove::<Q, R>(slots, n, home);
            n - 1
        }
        (None, false) => n,
    }
}
