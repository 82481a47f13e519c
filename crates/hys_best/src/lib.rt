//! What an answer of a plan means for the automaton of the source. Definitions and laws.
#![tactic(auto)]

pub mod laws;
