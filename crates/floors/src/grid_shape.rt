// The shape of a grid as it is asked for, its places as rows and columns, and the ways between them.
ghost use Rattle.std.specs.Prelude.{◌≡◌, ◌≤◌, nat_lt};
ghost use Rattle.std.specs.Bool.{then_some};
ghost use Rattle.floors.specs.Grid.{position, direction};

// The sides of a grid and its goal.
#[derive(Clone, Copy)]
pub struct GridShape {
    pub width: u32,
    pub height: u32,
    pub goal: u32,
}

#[derive(Clone, Copy)]
pub struct Position {
    pub row: u32,
    pub column: u32,
}

#[derive(Clone, Copy)]
pub enum Direction {
    North,
    East,
    South,
    West,
}

impl GridShape {
    // The row and column of a place.
    pub fn position(self, place: u32) -> Position
        requires { 1 ≤ self.width }
        ensures { result ≡ position self place }
    {
        Position {
            row: place / self.width,
            column: place % self.width,
        }
    }
}

impl Direction {
    // The way that the leg of that number goes, if there is one.
    // Stays: `TryFrom` would need a type of error that the one caller drops.
    pub fn of(number: u32) -> Option<Direction>
        ensures { result ≡ then_some (nat_lt number 4) (direction number) }
    {
        match number {
            0 => Some(Direction::North),
            1 => Some(Direction::East),
            2 => Some(Direction::South),
            3 => Some(Direction::West),
            _ => None,
        }
    }
}
