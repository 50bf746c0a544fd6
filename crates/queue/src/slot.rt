ghost use Rattle.std.specs.Prelude.{◌≡◌};
ghost use Rattle.queue.specs.Lens.{Lens};

use crate::order::Ranked;

// A record that carries one slot of the queue `Q`: an entry that is read and written with nothing else of the record.
pub trait Slot<Q> {
    type Entry: Ranked + Copy;

    ghost entry_of: { Self → Self.Entry };

    ghost with_entry: { Self → Self.Entry → Self };

    fn entry(&self) -> Self::Entry
        ensures { result ≡ entry_of self.now };

    fn set_entry(&mut self, e: Self::Entry)
        ensures { self.new ≡ with_entry self.old e };

    ghost lens: { Lens entry_of with_entry };
}
