//! Runs of a program over CSV tables: a start state and a list of inputs give the table of the run.
#![tactic(auto)]

mod fault;
mod fields;
mod header;
pub mod laws;
mod names;
mod records;
mod runs;
mod simulation;
mod table;
#[cfg(test)]
mod tests;
mod values;
mod writing;

pub use fault::{SimFault, Simulated, Which};
pub use simulation::simulate;
