//! The check of a certificate: whether a branch and bound tree with multipliers at its leaves shows the
//! claim made of a problem, or the first test that fails. It rests on weak duality alone and knows
//! nothing of how the tree was found.
#![tactic(auto)]

mod checker;
#[cfg(test)]
mod examples;
pub mod laws;
mod leaf;
mod point;
mod sum;
#[cfg(test)]
mod tests;
mod verdict;
mod walk;

pub use checker::check;
pub use verdict::{At, CheckWhy, Verdict};
