ghost use Rattle.std.specs.Prelude.{◌≡◌, ℕ, ◌+◌, ◌-◌, ◌<◌, ◌≤◌, length, slice_index_or};
ghost use Rattle.queue.specs.Calls.{Inserted, RemovedAt, ReplacedAt};
ghost use Rattle.queue.specs.Entries.{entries, entry_at};
ghost use Rattle.queue.specs.Lens.{Lens, Apart};
ghost use Rattle.queue.specs.Notes.{NotesRight, Absent, Present, IndexedFrame};
ghost use Rattle.queue.specs.Noting.{NoteWritten, Noted};

use crate::heap;
use crate::order::Ranked;
use crate::slot::Slot;

// A record that can be the home of an entry of the queue `Q`: it notes the slot in which that entry stands, and a note and the record's own slot do not disturb each other.
pub trait Homed<Q>: Slot<Q> {
    ghost home_of: { Self.Entry → ℕ };

    ghost note_of: { Self → ℕ };

    ghost with_note: { Self → ℕ → Self };

    // Slots below the limit can be noted.
    ghost note_limit: { ℕ };

    fn home(e: &Self::Entry) -> usize
        ensures { result ≡ home_of e.now };

    fn note(&self) -> usize
        ensures { result ≡ note_of self.now };

    fn set_note(&mut self, slot: usize)
        requires { slot < note_limit }
        ensures { self.new ≡ with_note self.old slot };

    ghost notes: { Lens note_of with_note };

    ghost apart: { Apart Self.Slot.entry_of Self.Slot.with_entry note_of with_note };
}

// Stays: the slots, n and what holds of them are in the contract of each call, as in `heap`.

// Inserts e into a queue of n whose notes are right, and returns the deepest slot that changed. The home of e has no entry in the queue.
pub fn insert<Q, R: Homed<Q>>(slots: &mut [R], n: usize, e: R::Entry) -> usize
    requires room { n < length slots.old }
    requires limit { length slots.old ≤ R.note_limit }
    requires notes { NotesRight R.home_of R.Slot.entry_of R.note_of n slots.old }
    requires home { R.home_of e < length slots.old }
    requires absent { Absent R.home_of R.Slot.entry_of n slots.old (R.home_of e) }
    ensures queue { Inserted R.Entry.Ranked.at_most e (entries R.Slot.entry_of n slots.old) (entries R.Slot.entry_of (n + 1) slots.new) }
    ensures notes { NotesRight R.home_of R.Slot.entry_of R.note_of (n + 1) slots.new }
    ensures frame { IndexedFrame R.home_of R.Slot.entry_of R.Slot.with_entry R.note_of R.with_note result slots.old slots.new }
    ensures deepest { result ≡ n }
{
    let deepest = heap::insert::<Q, R>(slots, n, e);
    write_notes::<Q, R>(slots, deepest);
    deepest
}

// Removes the entry of a home from a queue of n whose notes are right, and returns the deepest slot that changed.
pub fn remove<Q, R: Homed<Q>>(slots: &mut [R], n: usize, home: usize) -> usize
    requires queue { n ≤ length slots.old }
    requires limit { length slots.old ≤ R.note_limit }
    requires notes { NotesRight R.home_of R.Slot.entry_of R.note_of n slots.old }
    requires present { Present R.home_of R.Slot.entry_of R.note_of n slots.old home }
    ensures queue { (r : _) → RemovedAt R.Entry.Ranked.at_most (R.note_of (slice_index_or slots.old home r)) (entries R.Slot.entry_of n slots.old) (entries R.Slot.entry_of (n - 1) slots.new) }
    ensures notes { NotesRight R.home_of R.Slot.entry_of R.note_of (n - 1) slots.new }
    ensures frame { IndexedFrame R.home_of R.Slot.entry_of R.Slot.with_entry R.note_of R.with_note result slots.old slots.new }
    ensures deepest { result ≤ n - 2 }
{
    let slot = slot_of::<Q, R>(slots, home);
    let deepest = heap::remove_at::<Q, R>(slots, n, slot);
    write_notes::<Q, R>(slots, deepest);
    deepest
}

// Replaces the entry of a home by another of the same home in a queue of n whose notes are right, and returns the deepest slot that changed.
pub fn replace<Q, R: Homed<Q>>(slots: &mut [R], n: usize, home: usize, e: R::Entry) -> usize
    requires queue { n ≤ length slots.old }
    requires limit { length slots.old ≤ R.note_limit }
    requires notes { NotesRight R.home_of R.Slot.entry_of R.note_of n slots.old }
    requires present { Present R.home_of R.Slot.entry_of R.note_of n slots.old home }
    requires home { R.home_of e ≡ home }
    ensures queue { (r : _) → ReplacedAt R.Entry.Ranked.at_most (R.note_of (slice_index_or slots.old home r)) e (entries R.Slot.entry_of n slots.old) (entries R.Slot.entry_of n slots.new) }
    ensures notes { NotesRight R.home_of R.Slot.entry_of R.note_of n slots.new }
    ensures frame { IndexedFrame R.home_of R.Slot.entry_of R.Slot.with_entry R.note_of R.with_note result slots.old slots.new }
    ensures deepest { result < n }
{
    let slot = slot_of::<Q, R>(slots, home);
    let deepest = heap::replace_at::<Q, R>(slots, n, slot, e);
    write_notes::<Q, R>(slots, deepest);
    deepest
}

// The slot that the home notes.
pub fn slot_of<Q, R: Homed<Q>>(slots: &[R], home: usize) -> usize
    requires { home < length slots.now }
    ensures { (r : _) → R.note_of (slice_index_or slots.now home r) ≡ result }
{
    slots[home].note()
}

// Writes the note of the entry in the slot.
fn write_note<Q, R: Homed<Q>>(slots: &mut [R], slot: usize)
    requires slot { slot < length slots.old }
    requires limit { slot < R.note_limit }
    requires home { (d : _) → R.home_of (entry_at R.Slot.entry_of slots.old d slot) < length slots.old }
    ensures { NoteWritten R.home_of R.Slot.entry_of R.note_of R.with_note slot slots.old slots.new }
{
    let e = heap::slot_entry::<Q, R>(slots, slot);
    let home = R::home(&e);
    slots[home].set_note(slot);
}

// Writes the notes of the entries on the path of the slot `deepest`.
fn write_notes<Q, R: Homed<Q>>(slots: &mut [R], deepest: usize)
    requires slot { deepest < length slots.old }
    requires limit { deepest < R.note_limit }
    requires homes { (d : _) (i : ℕ) → i ≤ deepest → R.home_of (entry_at R.Slot.entry_of slots.old d i) < length slots.old }
    ensures { Noted R.home_of R.Slot.entry_of R.note_of R.with_note (λ _. ⊥) deepest slots.old slots.new }
{
    let mut slot = deepest;
    while slot > 0 {
        write_note::<Q, R>(slots, slot);
        slot = heap::parent_slot(slot);
    }
    write_note::<Q, R>(slots, slot);
}
