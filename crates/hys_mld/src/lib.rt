//! The mixed logical dynamical system of a program.
#![tactic(auto)]

mod building;
mod columns;
mod fault;
mod forms;
mod fresh;
mod items;
pub mod laws;
mod placing;

pub use building::build;
pub use fault::BuildFault;

#[cfg(test)]
mod tests;
