//! A program: names, formulas and items, with their meaning under an assignment.
#![tactic(auto)]

mod along;
mod definition;
pub mod examples;
mod given;
pub mod laws;
mod number;
mod program;
mod settle;
mod stepping;
mod stop;
#[cfg(test)]
mod tests;

pub use definition::definitions;
pub use given::places_of;
pub use hys_formula::{Connective, Formula, NameId};
pub use program::{Body, Name, Order, ProgItem, Program, Role};
pub use stepping::step;
pub use stop::{StepFault, Stepped, Stop};
