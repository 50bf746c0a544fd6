// The check of a roster: whether a queue holds exactly what is expected, and with how many entries.
ghost use Rattle.std.specs.Prelude.{◌≡◌, ℕ, ◌<◌, ◌≤◌, length, if◌then◌else◌, Some, None, Option, slice_index_or};
ghost use Rattle.roster.specs.Holds.{expected_count};
ghost use Rattle.roster.specs.Check.{expected_in, expects, fits_slot, entry_right, slot_right, names_home, home_right, roster_right, Decided, Tested};

use queue::indexed::Homed;
use queue::order::Ranked;
use queue::slot::Slot;
use std::marker::PhantomData;

// What each record expects of itself as a home: the entry that it should have in the queue `Q`, if any.
pub trait Expect<Q, R: Homed<Q>> {
    ghost wanted: { Self → R → ℕ → Option R.Entry };

    fn expected(&self, node: &R, home: usize) -> Option<R::Entry>
        requires { home < R.Homed.note_limit }
        ensures { result ≡ wanted self.now node.now home };
}

// The records of a queue `Q`, and the rule that says what each expects of itself.
#[derive(Drop)]
struct Roster<'a, Q, R: Homed<Q>, M> {
    rule: &'a M,
    slots: &'a [R],
    queue: PhantomData<Q>,
    ghost noted: { length slots.now ≤ R.Homed.note_limit },
}

impl<'a, Q, R: Homed<Q>, M: Expect<Q, R>> Roster<'a, Q, R, M> {
    // The entry that the home expects.
    fn expected(&self, home: usize) -> Option<R::Entry>
        requires { home < length self.now.slots.now }
        ensures { result ≡ expected_in (M.Expect.wanted self.now.rule.now) self.now.slots.now home }
    {
        self.rule.expected(&self.slots[home], home)
    }

    // How many homes have an expected entry.
    fn count(&self) -> usize
        ensures count { result ≡ expected_count (expected_in (M.Expect.wanted self.now.rule.now) self.now.slots.now) (length self.now.slots.now) }
        ensures few { result ≤ length self.now.slots.now }
    {
        (0..self.slots.len())
            .filter(|home| self.expected(*home).is_some())
            .count()
    }

    // The entry in slot i.
    fn entry(&self, i: usize) -> R::Entry
        requires { i < length self.now.slots.now }
        ensures { (d : _) → R.Slot.entry_of (slice_index_or self.now.slots.now i d) ≡ result }
    {
        self.slots[i].entry()
    }

    // Whether e may stand in slot i.
    fn fits(&self, i: usize, e: R::Entry) -> bool
        requires { i < length self.now.slots.now }
        ensures { (d : _) → fits_slot R.Entry.Ranked.at_most R.Slot.entry_of d self.now.slots.now i e ≡ result }
    {
        i == 0 || self.entry((i - 1) / 2).at_most(&e)
    }

    // Whether the entry e in slot i is right.
    fn is_entry_right(&self, i: usize, e: R::Entry) -> bool
        requires { i < length self.now.slots.now }
        ensures { (d : _) → entry_right R.Entry.Ranked.at_most R.Homed.home_of R.Slot.entry_of R.Homed.note_of (expected_in (M.Expect.wanted self.now.rule.now) self.now.slots.now) d self.now.slots.now i e ≡ result }
    {
        let home = R::home(&e);
        home < self.slots.len()
            && is_expected(self.expected(home), e)
            && self.slots[home].note() == i
            && self.fits(i, e)
    }

    // Whether the entry in slot i is right.
    fn is_slot_right(&self, i: usize) -> bool
        requires { i < length self.now.slots.now }
        ensures { (d : _) → slot_right R.Entry.Ranked.at_most R.Homed.home_of R.Slot.entry_of R.Homed.note_of (expected_in (M.Expect.wanted self.now.rule.now) self.now.slots.now) d self.now.slots.now i ≡ result }
    {
        self.is_entry_right(i, self.entry(i))
    }

    // Whether the entries in n slots are right.
    fn are_slots_right(&self, n: usize) -> bool
        requires { n ≤ length self.now.slots.now }
        ensures { Tested (λ d. slot_right R.Entry.Ranked.at_most R.Homed.home_of R.Slot.entry_of R.Homed.note_of (expected_in (M.Expect.wanted self.now.rule.now) self.now.slots.now) d self.now.slots.now) n result }
    {
        (0..n).all(|i| self.is_slot_right(i))
    }

    // Whether slot s, which the home notes, is one of n with an entry of that home.
    fn names(&self, n: usize, home: usize, s: usize) -> bool
        requires { n ≤ length self.now.slots.now }
        ensures { (d : _) → names_home R.Homed.home_of R.Slot.entry_of n d self.now.slots.now home s ≡ result }
    {
        s < n && R::home(&self.entry(s)) == home
    }

    // Whether the home is right in a queue of n.
    fn is_home_right(&self, n: usize, home: usize) -> bool
        requires queue { n ≤ length self.now.slots.now }
        requires home { home < length self.now.slots.now }
        ensures { (d : _) → home_right R.Homed.home_of R.Slot.entry_of R.Homed.note_of (expected_in (M.Expect.wanted self.now.rule.now) self.now.slots.now) n d self.now.slots.now home ≡ result }
    {
        self.expected(home).is_none() || self.names(n, home, self.slots[home].note())
    }

    // Whether every home is right in a queue of n.
    fn are_homes_right(&self, n: usize) -> bool
        requires { n ≤ length self.now.slots.now }
        ensures { Tested (λ d. home_right R.Homed.home_of R.Slot.entry_of R.Homed.note_of (expected_in (M.Expect.wanted self.now.rule.now) self.now.slots.now) n d self.now.slots.now) (length self.now.slots.now) result }
    {
        (0..self.slots.len()).all(|home| self.is_home_right(n, home))
    }
}

// Whether e is the expected entry.
fn is_expected<E: Ranked + Copy>(expected: Option<E>, e: E) -> bool
    ensures { result ≡ expects E.Ranked.at_most expected e }
{
    expected.is_some_and(|x| x.at_most(&e) && e.at_most(&x))
}

// The number of entries in the queue, if it holds exactly what is expected.
pub fn check<Q, R: Homed<Q>, M: Expect<Q, R>>(rule: &M, slots: &[R]) -> Option<usize>
    requires { length slots.now ≤ R.Homed.note_limit }
    ensures answer { result ≡ (if roster_right R.Entry.Ranked.at_most R.Homed.home_of R.Slot.entry_of R.Homed.note_of (expected_in (M.Expect.wanted rule.now) slots.now) slots.now then Some (expected_count (expected_in (M.Expect.wanted rule.now) slots.now) (length slots.now)) else None) }
    ensures holds { Decided R.Entry.Ranked.at_most R.Homed.home_of R.Slot.entry_of R.Homed.note_of (expected_in (M.Expect.wanted rule.now) slots.now) slots.now result }
{
    let roster = Roster::<Q, R, M> {
        rule,
        slots,
        queue: PhantomData,
    };
    let n = roster.count();
    (roster.are_slots_right(n) && roster.are_homes_right(n)).then_some(n)
}
