// The six-place sample with a place shut.
ghost use Rattle.std.specs.Prelude.{◌≡◌};
ghost use Rattle.layout.specs.ShutSample.{PlaceFourShut};

// The place that is shut in the sample, and what shutting it does to the legs of place 2.
pub fn shut_place() -> u32
    ensures place { result ≡ 4 }
    ensures bars { PlaceFourShut }
{
    4
}
