//! Formulas turned into rows: a truth table where there are few names, else a fresh column for each
//! connective, which the rows tie to its truth.
#![tactic(auto)]

mod formula;
pub mod laws;
mod literal;
mod row;
mod small;
mod table;
mod usage;

pub use literal::Logic;
pub use usage::{Use, define_rows, fresh_columns, must_rows, rows_of};

#[cfg(test)]
mod tests;
