// What the estimates take from the bytes of a grid's cells.
ghost use Rattle.std.specs.Prelude.{◌≡◌, max};
ghost use Rattle.floors.specs.Bytes.{IsLeast, IsGreatest};
ghost use Rattle.floors.specs.Grid.{lesser_nonzero, least_nonzero, greatest};

// The lesser of two bytes, where 0 is no byte.
fn lesser(a: u8, b: u8) -> u8
    ensures { result ≡ lesser_nonzero a b }
{
    match (a, b) {
        (_, 0) => a,
        (0, _) => b,
        _ => a.min(b),
    }
}

// The least byte that is not 0, or 0 if there is none.
pub fn least_nonzero(cells: &[u8]) -> u8
    ensures is { result ≡ least_nonzero cells.now }
    ensures least { IsLeast cells.now result }
{
    cells.iter().fold(0, |least, cell| lesser(least, *cell))
}

// The greatest byte.
pub fn greatest_byte(cells: &[u8]) -> u8
    ensures is { result ≡ greatest cells.now }
    ensures greatest { IsGreatest cells.now result }
{
    cells.iter().fold(0, |most, cell| most.max(*cell))
}
