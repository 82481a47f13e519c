//! Cuts a source text into tokens.
#![tactic(auto)]

mod byte;
mod comment;
mod cut;
pub mod keyword;
pub mod laws;
mod literal;
mod piece;
pub mod sign;
#[cfg(test)]
mod tests;
mod token;
mod words;

pub use cut::{LexFault, tokens};
pub use token::{Token, TokenKind};
