// Tests of the grid floor and of the shut floor.
#![tactic(auto)]

#[cfg(test)]
mod build;
#[cfg(test)]
mod grid_answers;
#[cfg(test)]
mod grid_questions;
#[cfg(test)]
mod shut_answers;
#[cfg(test)]
mod shut_questions;
