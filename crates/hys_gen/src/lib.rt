//! Example plants of any size: the source of a chain of tanks, and a request for a plan of it.
#![tactic(auto)]

mod asked;
mod chain;
pub mod laws;
mod section;
mod write;

pub use asked::request;
pub use chain::source;
