//! The ruled dual simplex method with bounds over exact numbers: a relaxed point of least cost, a
//! proof that there is none, or the first number that doesn't fit.
#![tactic(auto)]

mod bound;
mod bounding;
mod choice;
mod end;
mod entering;
#[cfg(test)]
mod examples;
mod finish;
pub mod laws;
mod multipliers;
mod node;
mod off_range;
mod point;
mod products;
mod raised;
mod ranges;
mod relaxed;
mod run;
mod solver;
mod stand;
#[cfg(test)]
mod tests;
mod warm;

pub use bounding::bound_at;
pub use relaxed::Relaxed;
pub use solver::{solve, solve_from};
pub use warm::{Warm, first};
