// A sample grid: two cells in a row.
ghost use Rattle.std.specs.Prelude.{◌≡◌};
ghost use Rattle.floors.specs.GridSample.{two_cells, TwoCells};

// The bytes of the sample, and what the grid that they make with a goal at place 1 means.
pub fn two_cells() -> [u8; 2]
    ensures bytes { result ≡ two_cells }
    ensures means { TwoCells }
{
    [3, 5]
}
