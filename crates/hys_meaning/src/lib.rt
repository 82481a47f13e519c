//! What a source means: names, kinds, values, steps, gaps, and which sources are accepted. Definitions and laws.
#![tactic(auto)]

pub mod laws;
