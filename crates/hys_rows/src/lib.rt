//! The rows of an item of a program over the columns of names, with fresh columns for formulas, and
//! the form of a next value or an output.
#![tactic(auto)]

mod added;
mod body;
mod choice;
mod demand;
mod fault;
mod formula;
mod fresh;
mod guard;
mod item;
pub mod laws;
mod moved;
mod range;

pub use added::Added;
pub use fault::RowFault;
pub use fresh::fresh_in;
pub use item::add_item;

#[cfg(test)]
mod tests;
