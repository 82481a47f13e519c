//! That the lexer and the reader of numbers agree on what a literal is: laws, no code.
#![tactic(auto)]

pub mod laws;
