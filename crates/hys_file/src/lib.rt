//! The matrix text of a system: written, and read back as that system.
#![tactic(auto)]

mod column;
mod fault;
mod form;
mod guess;
pub mod laws;
mod names;
mod output;
mod reader;
mod row;
mod rules;
mod system;
mod words;
mod writer;

pub use fault::{FileFault, of_text, of_value, over_limit};
pub use reader::{MOST_BYTES, read_system};
pub use writer::write_system;

#[cfg(test)]
mod tests;
