//! The exact tableau of a linear problem, and its pivots in place.
#![tactic(auto)]

mod cells;
mod reading;
mod slack_basis;
mod tableau;
#[cfg(test)]
mod tests;

pub use tableau::{Cell, Tableau, start};
