//! Mixed logical dynamical systems, and which points solve them.
#![tactic(auto)]

pub mod laws;
mod solves;
mod system;

pub use solves::holds;
pub use system::{Column, ColumnRole, Kind2, Output, System};
