//! What small sources mean, worked out by hand: theorems over the definitions alone. The calls do
//! nothing.
#![tactic(auto)]

pub mod casts;
pub mod choices;
pub mod fitting;
pub mod guards;
pub mod last;
pub mod rules;
pub mod sums;
pub mod systems;
