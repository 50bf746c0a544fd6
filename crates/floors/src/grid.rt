// The grid floor, which keeps the bytes of its cells.
ghost use Rattle.std.specs.Prelude.{◌≡◌, ◌*◌, ◌<◌, ◌≤◌, if◌then◌else◌, nat_lt, slice_index};
ghost use Rattle.floors.specs.Grid.{area, entering, to_goal, least_nonzero, greatest, grid_floor, grid_guesses};
ghost use Rattle.floors.specs.GridSound.{Formed, grid_sound, grid_limited};

use crate::floor::Floor;
use crate::grid_cells::{greatest_byte, least_nonzero};
use crate::grid_fault::GridRefused;
use crate::grid_frame::Frame;
use crate::grid_shape::{Direction, GridShape};
use crate::guided::GuidedFloor;
use crate::leg::Leg;

#[derive(Drop)]
pub struct Grid {
    cells: Vec<u8>,
    frame: Frame,
    least: u8,
    most: u8,
    ghost formed: { Formed cells.items frame.shape },
    ghost least_is: { least ≡ least_nonzero cells.items },
    ghost most_is: { most ≡ greatest cells.items },
}

impl Grid {
    ghost use Rattle.floors.specs.GridMade.{GridMade};

    // The grid of these cells, in rows, or the first fault with the cells handed back.
    pub fn new(width: u32, height: u32, cells: Vec<u8>, goal: u32) -> Result<Grid, GridRefused>
        ensures { GridMade (record { width = width; height = height; goal = goal }) cells result }
    {
        let shape = GridShape {
            width,
            height,
            goal,
        };
        // Stays: both arms take the cells, and of two closures only one could.
        match Frame::around(cells.as_slice(), shape) {
            Ok(frame) => Ok(Grid {
                least: least_nonzero(cells.as_slice()),
                most: greatest_byte(cells.as_slice()),
                frame,
                cells,
            }),
            Err(fault) => Err(GridRefused { fault, cells }),
        }
    }

    // The cells again.
    pub fn into_cells(self) -> Vec<u8>
        ensures { result ≡ self.cells }
    {
        let Grid { cells, .. } = self;
        cells
    }

    // The leg into the cell of that place; where its byte is 0 it is barred.
    fn enter(&self, target: u32) -> Option<Leg>
        requires { target < area self.now.frame.shape }
        ensures { result ≡ entering target (slice_index self.now.cells.items target) }
    {
        let byte = self.cells[target as usize];
        (byte != 0).then_some(Leg {
            target,
            cost: u32::from(byte),
        })
    }

    // So much for each leg of the way to the goal; off the grid 0.
    fn estimate(&self, place: u32, each: u32) -> u32
        requires { each ≤ 255 }
        ensures { result ≡ (if nat_lt place (area self.now.frame.shape) then each * to_goal self.now.frame.shape place else 0) }
    {
        self.frame.to_goal(place).map_or(0, |legs| each * legs)
    }
}

impl Floor for Grid {
    ghost meaning = { λ g. grid_floor g.cells.items g.frame.shape };

    ghost sound = { λ g. grid_sound g.cells.items g.frame.shape g.formed };

    fn places(&self) -> u32 {
        self.frame.places()
    }

    fn legs(&self, place: u32) -> u32 {
        if place < self.frame.places() { 4 } else { 0 }
    }

    fn leg(&self, place: u32, number: u32) -> Option<Leg> {
        let direction = Direction::of(number)?;
        let at = self.frame.position(place)?;
        let next = self.frame.neighbour(at, direction)?;
        self.enter(self.frame.place_at(next))
    }

    fn is_goal(&self, place: u32) -> bool {
        place == self.frame.shape.goal
    }

    fn low(&self, place: u32) -> u32 {
        self.estimate(place, u32::from(self.least))
    }
}

impl GuidedFloor for Grid {
    ghost guesses = { λ g. grid_guesses g.cells.items g.frame.shape };

    ghost limited = { λ g. grid_limited g.cells.items g.frame.shape g.formed };

    fn hope(&self, place: u32) -> u32 {
        self.estimate(place, (u32::from(self.least) + u32::from(self.most)) / 2)
    }

    fn steps(&self, place: u32) -> u32 {
        self.estimate(place, 1)
    }
}
