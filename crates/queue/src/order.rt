ghost use Rattle.std.specs.Prelude.{◌≡◌, Bool};
ghost use Rattle.queue.specs.Order.{Ordered};

// A type with a total order.
// Stays: std's `Ord` lets different values compare as equal, and the law of a queue says that such values are one.
pub trait Ranked {
    ghost at_most: { Self → Self → Bool };

    fn at_most(&self, other: &Self) -> bool
        ensures { result ≡ at_most self.now other.now };

    ghost ordered: { Ordered at_most };
}
