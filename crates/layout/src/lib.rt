// The layout floor: 16-byte records of places and legs, taken in by nine questions.
#![tactic(auto)]

mod accept;
mod counts;
mod divided;
mod draft;
mod encode;
mod fault;
mod law;
mod layout_floor;
mod question;
mod raw;
mod record;
mod records;
mod refused;
mod sample;
mod shape;
pub mod shut_sample;

pub use accept::intake;
pub use encode::{encode_leg, encode_place};
pub use fault::{LayoutFault, RecordFault};
pub use layout_floor::LayoutFloor;
pub use refused::Refused;
pub use sample::six_places;
