// What an advance does after a choice.
ghost use Rattle.std.specs.Prelude.{◌≡◌};
ghost use Rattle.search.specs.Next.{mark_of, next_of, one_more};

use floors::floor::Floor;
use frontier::choose::Choice;
use std::ops::ControlFlow;

// The greatest total.
pub const GREATEST_TOTAL: u64 = 1_099_511_627_775;

// How an advance ends: nothing is open, a goal is chosen, or the budget is used up.
#[derive(Clone, Copy)]
pub enum End {
    Barren,
    Settled(Choice),
    More(Choice),
}

impl End {
    // The low mark.
    pub fn low_mark(&self) -> Option<u32>
        ensures { result ≡ mark_of self.now }
    {
        match *self {
            End::Barren => None,
            End::Settled(choice) | End::More(choice) => Some(choice.mark),
        }
    }
}

// An advance ends, or goes on and expands a place. The goal is asked for before the budget.
pub fn decide<F: Floor>(
    floor: &F,
    picked: Option<Choice>,
    spent: u64,
    budget: u64,
) -> ControlFlow<End, u32>
    ensures { result ≡ next_of (F.meaning floor.now) picked spent budget }
{
    match picked {
        None => ControlFlow::Break(End::Barren),
        Some(choice) if floor.is_goal(choice.place) => ControlFlow::Break(End::Settled(choice)),
        Some(choice) if spent < budget => ControlFlow::Continue(choice.place),
        Some(choice) => ControlFlow::Break(End::More(choice)),
    }
}

// A total with one more expansion; it stops at the greatest.
pub fn raise_total(total: u64) -> u64
    ensures { result ≡ one_more total }
{
    total.saturating_add(1).min(GREATEST_TOTAL)
}
