ghost use Rattle.std.specs.Prelude.{◌≡◌, ℕ, ◌+◌, ◌-◌, ◌*◌, ◌/◌, ◌<◌, ◌≤◌, length};
ghost use Rattle.queue.specs.Calls.{Head, Inserted, RemovedAt, ReplacedAt};
ghost use Rattle.queue.specs.Entries.{entries, entry_at};
ghost use Rattle.queue.specs.Frame.{Frame, SameFrom};
ghost use Rattle.queue.specs.Heap.{parent_slot};
ghost use Rattle.queue.specs.Hole.{LeastChild};
ghost use Rattle.queue.specs.Sift.{Risen, Sunk};

use crate::order::Ranked;
use crate::slot::Slot;

// Stays: a queue is the first n of the slots that its caller lends for the call, and the caller keeps n. A struct over the `&mut` slots would be made in each
// call, and each contract would need a clause that it still holds the same slots.

// The head of a queue of n: its least entry, or none if it is empty.
pub fn head<Q, R: Slot<Q>>(slots: &[R], n: usize) -> Option<R::Entry>
    requires { n ≤ length slots.now }
    ensures { Head R.Entry.Ranked.at_most n (entries R.entry_of n slots.now) result }
{
    slots[..n].first().map(|slot| slot.entry())
}

// Inserts e into a queue of n, and returns the deepest slot that changed.
pub fn insert<Q, R: Slot<Q>>(slots: &mut [R], n: usize, e: R::Entry) -> usize
    requires { n < length slots.old }
    ensures queue { Inserted R.Entry.Ranked.at_most e (entries R.entry_of n slots.old) (entries R.entry_of (n + 1) slots.new) }
    ensures frame { Frame R.entry_of R.with_entry result slots.old slots.new }
    ensures deepest { result ≡ n }
{
    settle::<Q, R>(slots, n + 1, n, e)
}

// Removes the entry in slot i of a queue of n, and returns the deepest slot that changed, or 0 where i was the last slot and nothing moved.
// Stays: 0 is on every path, so one walk up from the answer serves both cases, which an `Option` would tell apart.
pub fn remove_at<Q, R: Slot<Q>>(slots: &mut [R], n: usize, i: usize) -> usize
    requires queue { n ≤ length slots.old }
    requires slot { i < n }
    ensures queue { RemovedAt R.Entry.Ranked.at_most i (entries R.entry_of n slots.old) (entries R.entry_of (n - 1) slots.new) }
    ensures frame { Frame R.entry_of R.with_entry result slots.old slots.new }
    ensures deepest { result ≤ n - 2 }
    ensures beyond { SameFrom (n - 1) slots.old slots.new }
{
    let last = slot_entry::<Q, R>(slots, n - 1);
    if i < n - 1 {
        settle::<Q, R>(slots, n - 1, i, last)
    } else {
        0
    }
}

// Replaces the entry in slot i of a queue of n by e, and returns the deepest slot that changed.
pub fn replace_at<Q, R: Slot<Q>>(slots: &mut [R], n: usize, i: usize, e: R::Entry) -> usize
    requires queue { n ≤ length slots.old }
    requires slot { i < n }
    ensures queue { ReplacedAt R.Entry.Ranked.at_most i e (entries R.entry_of n slots.old) (entries R.entry_of n slots.new) }
    ensures frame { Frame R.entry_of R.with_entry result slots.old slots.new }
    ensures deepest { result < n }
{
    settle::<Q, R>(slots, n, i, e)
}

// The entry in slot i.
pub(crate) fn slot_entry<Q, R: Slot<Q>>(slots: &[R], i: usize) -> R::Entry
    requires { i < length slots.now }
    ensures { (d : _) → entry_at R.entry_of slots.now d i ≡ result }
{
    slots[i].entry()
}

// Writes e where it fits among the first n slots, with the hole in slot i, and returns the deepest slot that changed.
fn settle<Q, R: Slot<Q>>(slots: &mut [R], n: usize, i: usize, e: R::Entry) -> usize
    requires queue { n ≤ length slots.old }
    requires slot { i < n }
    ensures inserted { n ≡ i + 1 → Inserted R.Entry.Ranked.at_most e (entries R.entry_of i slots.old) (entries R.entry_of n slots.new) }
    ensures replaced { ReplacedAt R.Entry.Ranked.at_most i e (entries R.entry_of n slots.old) (entries R.entry_of n slots.new) }
    ensures frame { Frame R.entry_of R.with_entry result slots.old slots.new }
    ensures low { i ≤ result }
    ensures deepest { result < n }
{
    let top = sift_up::<Q, R>(slots, i, e);
    if top < i {
        slots[top].set_entry(e);
        i
    } else {
        let bottom = sift_down::<Q, R>(slots, n, i, e);
        slots[bottom].set_entry(e);
        bottom
    }
}

// The slot above slot i.
pub(crate) fn parent_slot(i: usize) -> usize
    requires { 0 < i }
    ensures { result ≡ parent_slot i }
{
    (i - 1) / 2
}

// The first child slot of slot i, which is a slot of a queue of n.
fn left_child(i: usize, n: usize) -> usize
    requires { i < n / 2 }
    ensures { result ≡ 2 * i + 1 }
{
    i * 2 + 1
}

// Whether e may stand below the entry in slot i.
fn fits_above<Q, R: Slot<Q>>(slots: &[R], i: usize, e: R::Entry) -> bool
    requires { i < length slots.now }
    ensures { (d : _) → R.Entry.Ranked.at_most (entry_at R.entry_of slots.now d i) e ≡ result }
{
    slot_entry::<Q, R>(slots, i).at_most(&e)
}

// Whether e may stand above the entry in slot i.
fn fits_below<Q, R: Slot<Q>>(slots: &[R], i: usize, e: R::Entry) -> bool
    requires { i < length slots.now }
    ensures { (d : _) → R.Entry.Ranked.at_most e (entry_at R.entry_of slots.now d i) ≡ result }
{
    e.at_most(&slot_entry::<Q, R>(slots, i))
}

// Moves the hole up while its parent slot's entry is above e, and returns where it ended.
fn sift_up<Q, R: Slot<Q>>(slots: &mut [R], from: usize, e: R::Entry) -> usize
    requires { from < length slots.old }
    ensures { Risen R.Entry.Ranked.at_most R.entry_of R.with_entry slots.old from e slots.new result }
{
    let mut hole = from;
    while hole > 0 {
        let parent = parent_slot(hole);
        if fits_above::<Q, R>(slots, parent, e) {
            break;
        }
        let above = slot_entry::<Q, R>(slots, parent);
        slots[hole].set_entry(above);
        hole = parent;
    }
    hole
}

// The child slot of the hole whose entry is least.
fn least_child<Q, R: Slot<Q>>(slots: &[R], n: usize, hole: usize) -> usize
    requires queue { n ≤ length slots.now }
    requires inner { hole < n / 2 }
    ensures { LeastChild R.Entry.Ranked.at_most (entry_at R.entry_of slots.now) n hole result }
{
    let left = left_child(hole, n);
    let right = left + 1;
    if right < n && !fits_above::<Q, R>(slots, left, slot_entry::<Q, R>(slots, right)) {
        right
    } else {
        left
    }
}

// Moves the hole down while a child slot's entry is below e, and returns where it ended.
fn sift_down<Q, R: Slot<Q>>(slots: &mut [R], n: usize, from: usize, e: R::Entry) -> usize
    requires queue { n ≤ length slots.old }
    requires slot { from < n }
    ensures { Sunk R.Entry.Ranked.at_most R.entry_of R.with_entry n slots.old from e slots.new result }
{
    let mut hole = from;
    while hole < n / 2 {
        let child = least_child::<Q, R>(slots, n, hole);
        if fits_below::<Q, R>(slots, child, e) {
            break;
        }
        let below = slot_entry::<Q, R>(slots, child);
        slots[hole].set_entry(below);
        hole = child;
    }
    hole
}
