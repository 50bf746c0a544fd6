// A set of at most 64 places.
ghost use Rattle.std.specs.Prelude.{List, Bool, ◌≡◌, ◌<◌, ◌≤◌, IsTrue, slice_set};
ghost use Rattle.floors.specs.Shut.{no_places, contains as contains_place, members};

use std::marker::Model;
use std::mem::replace;

// A flag for each place that a floor can have, and how many are set.
// Stays: a call of the library has no heap for a set, and the count spares a walk over 4,096 flags.
#[derive(Drop)]
pub struct ShutSet {
    flags: [bool; 4096],
    count: u32,
}

impl Model for ShutSet {
    ghost Value = { List Bool };

    ghost view = { λ set. set.flags };

    ghost invariant = { λ set. (set.count ≡ members set.flags) × (set.count ≤ 64) };
}

impl ShutSet {
    // The empty set.
    pub fn new() -> ShutSet
        ensures { result ≡ no_places }
    {
        ShutSet {
            flags: [false; 4096],
            count: 0,
        }
    }

    // How many places are in the set.
    pub fn count(&self) -> u32
        ensures count { result ≡ members self.now }
        ensures few { result ≤ 64 }
    {
        self.count
    }

    // Whether the place is in the set.
    pub fn contains(&self, place: u32) -> bool
        ensures { result ≡ contains_place self.now place }
    {
        self.flags.get(place as usize).copied().unwrap_or(false)
    }

    // Puts the place into a set that has room for it, or takes it out.
    pub fn set(&mut self, place: u32, inside: bool)
        requires place { place < 4096 }
        requires room { IsTrue inside → members self.old < 64 }
        ensures { self.new ≡ slice_set self.old place inside }
    {
        let was = replace(&mut self.flags[place as usize], inside);
        self.count = self.count + u32::from(inside) - u32::from(was);
    }
}
