// A grid's shape once the questions put to it are answered yes.
ghost use Rattle.std.specs.Prelude.{◌≡◌, ◌<◌, ◌≤◌, length, OnOk, IfOk, IfSome, nat_lt};
ghost use Rattle.std.specs.Bool.{then_some};
ghost use Rattle.floors.specs.Grid.{area, place_at, position, neighbour as neighbour_of, to_goal};
ghost use Rattle.floors.specs.GridQuestions.{grid_number, grid_questions};
ghost use Rattle.floors.specs.GridSound.{Sides, OnGrid, Formed};
ghost use Rattle.floors.specs.Questions.{first_no, refusal};

use crate::grid_fault::GridFault;
use crate::grid_shape::{Direction, GridShape, Position};

// A shape with sides in range, and where its goal stands.
#[derive(Clone, Copy)]
pub struct Frame {
    pub shape: GridShape,
    goal: Position,
    ghost sides: { Sides shape },
    ghost goal_is_place: { shape.goal < area shape },
    ghost goal_is: { goal ≡ position shape shape.goal },
}

impl Frame {
    // The frame of cells of that shape, or the first question that is answered no.
    pub fn around(cells: &[u8], shape: GridShape) -> Result<Frame, GridFault>
        ensures answer { refusal grid_number result ≡ first_no (grid_questions shape (length cells.now)) }
        ensures shape { IfOk result (λ frame. frame.shape ≡ shape) }
        ensures formed { OnOk result (Formed cells.now shape) }
    {
        if !(1..=64).contains(&shape.width) {
            return Err(GridFault::Width);
        }
        if !(1..=64).contains(&shape.height) {
            return Err(GridFault::Height);
        }
        let places = shape.width * shape.height;
        if cells.len() != places as usize {
            return Err(GridFault::Bytes);
        }
        if shape.goal >= places {
            return Err(GridFault::Goal);
        }
        let goal = shape.position(shape.goal);
        Ok(Frame { shape, goal })
    }

    // How many places there are.
    pub fn places(self) -> u32
        ensures { result ≡ area self.shape }
    {
        self.shape.width * self.shape.height
    }

    // The row and column of the place, if it is on the grid.
    pub fn position(self, place: u32) -> Option<Position>
        ensures is { result ≡ then_some (nat_lt place (area self.shape)) (position self.shape place) }
        ensures inside { IfSome result (OnGrid self.shape) }
    {
        (place < self.places()).then(|| self.shape.position(place))
    }

    // The distance from the place to the goal, if it is on the grid.
    pub fn to_goal(self, place: u32) -> Option<u32>
        ensures is { result ≡ then_some (nat_lt place (area self.shape)) (to_goal self.shape place) }
        ensures near { IfSome result (λ distance. distance ≤ 126) }
    {
        let at = self.position(place)?;
        Some(at.row.abs_diff(self.goal.row) + at.column.abs_diff(self.goal.column))
    }

    // The place in that row and column.
    pub fn place_at(self, at: Position) -> u32
        requires { OnGrid self.shape at }
        ensures is { result ≡ place_at self.shape at }
        ensures inside { result < area self.shape }
    {
        at.row * self.shape.width + at.column
    }

    // One step that way, if it stays on the grid.
    pub fn neighbour(self, at: Position, direction: Direction) -> Option<Position>
        requires { OnGrid self.shape at }
        ensures is { result ≡ neighbour_of self.shape at direction }
        ensures inside { IfSome result (OnGrid self.shape) }
    {
        let GridShape { width, height, .. } = self.shape;
        let Position { row, column } = at;
        match direction {
            Direction::North if row > 0 => Some(Position {
                row: row - 1,
                column,
            }),
            Direction::East if column + 1 < width => Some(Position {
                row,
                column: column + 1,
            }),
            Direction::South if row + 1 < height => Some(Position {
                row: row + 1,
                column,
            }),
            Direction::West if column > 0 => Some(Position {
                row,
                column: column - 1,
            }),
            _ => None,
        }
    }
}
