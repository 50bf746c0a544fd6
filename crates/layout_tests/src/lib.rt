// Tests of the layout intake, run on layouts that are built record by record.
#![tactic(auto)]

#[cfg(test)]
mod answers;
#[cfg(test)]
mod build;
#[cfg(test)]
mod limits;
#[cfg(test)]
mod questions;
