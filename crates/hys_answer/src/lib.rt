//! The text of an answer: a claim with the tree that shows it, written as JSON and read back.
#![tactic(auto)]

mod claim;
mod forms;
mod guess;
pub mod laws;
mod lists;
mod places;
mod reader;
mod rising;
mod why;
mod writer;

pub use reader::{MOST_BYTES, MOST_PLACES, is_too_large, read_answer, read_one};
pub use writer::{write_answer, write_one};

#[cfg(test)]
mod tests;
