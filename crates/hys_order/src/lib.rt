//! The order in which the auxiliaries of a program are defined, or a cycle of them.
#![tactic(auto)]

mod auxiliaries;
mod definition_order;
mod fault;
pub mod laws;
mod links;
mod mentions;
mod round;
mod selection;

pub use definition_order::order;
pub use fault::OrderFault;

#[cfg(test)]
mod tests;
