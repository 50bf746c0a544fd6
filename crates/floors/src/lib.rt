// Floors: places, the legs between them and what is estimated of the way to a goal.
#![tactic(auto)]

pub mod floor;
pub mod grid;
mod grid_cells;
pub mod grid_fault;
mod grid_frame;
pub mod grid_sample;
mod grid_shape;
pub mod guided;
pub mod leg;
pub mod limit;
pub mod shut;
pub mod shut_fault;
mod shut_set;
