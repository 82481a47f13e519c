//! Systems whose rows mean the items of a program, and why they are exact for it. Definitions and laws.
#![tactic(auto)]

pub mod laws;
