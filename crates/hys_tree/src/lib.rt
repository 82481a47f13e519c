//! Certificates of plans: the places of a branch and bound tree with the multipliers of its leaves, the claim that a
//! tree shows, and what it is for a tree to show it.
#![tactic(auto)]

mod answer;
pub mod laws;
mod tree;

pub use answer::{Answer, Best, Claim, Why};
pub use tree::{Tree, TreePlace};
