//! The intervals of the names of a program.
#![tactic(auto)]

mod along;
mod fault;
pub mod laws;
mod ranges;

pub use along::bounds;
pub use fault::BoundFault;
pub use ranges::interval_of;

#[cfg(test)]
mod tests;
