//! Nodes of a branch and bound search, their relaxations, and the bounds that multipliers give.
#![tactic(auto)]

mod fixing;
pub mod laws;
mod multipliers;
mod range;

pub use fixing::Fixing;
pub use multipliers::Multipliers;
pub use range::{RangeAt, TablePlace, Var};
