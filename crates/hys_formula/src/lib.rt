//! Formulas over Boolean names, and their truth.
#![tactic(auto)]

mod formula;

pub use formula::{Connective, Formula, NameId};
