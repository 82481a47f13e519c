//! The parser: lexemes are read from left to right, with one of them looked at ahead.
#![tactic(auto)]

mod ahead;
mod declaration;
mod deep;
mod descent;
mod draft;
pub mod examples;
mod item;
pub mod laws;
mod parser;
#[cfg(test)]
mod print_tests;
mod repeat;
mod section;
mod stop;
#[cfg(test)]
mod tests;

pub use deep::MOST;
pub use parser::{ParseFault, parse};
