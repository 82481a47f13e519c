//! From the bytes of a source to the system of its automaton.
#![tactic(auto)]

mod building;
mod compiler;
mod defining;
mod fault;
mod front;
pub mod laws;
mod naming;
pub mod number;
#[cfg(test)]
mod tests;
mod typing;

pub use compiler::{Compiled, compile};
pub use fault::{Detail, LimitKind, SourceFault};
pub use front::MOST_BYTES;
pub use naming::name_fault;
