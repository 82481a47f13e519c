//! Requests for a plan, and the linear problem of a system over the steps of a request.
#![tactic(auto)]

mod boxes;
mod cost;
mod fault;
mod fields;
pub mod laws;
mod named;
mod paths;
mod reader;
mod request;
mod rows;
mod scalars;
mod stacker;
#[cfg(test)]
mod tests;

pub use fault::{RequestFault, StackFault};
pub use fields::{read_final, read_start, read_step};
pub use reader::{MOST_BYTES, read_request};
pub use request::{Pick, Request};
pub use scalars::{read_pick, read_whole};
pub use stacker::stack;
