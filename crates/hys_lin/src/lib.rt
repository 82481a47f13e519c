//! Linear forms, rows, intervals, points and problems over columns.
#![tactic(auto)]

mod checked;
mod form;
pub mod laws;
mod lost;
mod multiple;
mod problem;
mod range;
mod sum;
#[cfg(test)]
mod tests;

pub use checked::{add, add_product, divide, multiply, subtract};
pub use form::{Affine, Interval, Point, Row, Term};
pub use lost::{LinFault, Lost, Op};
pub use multiple::{add_scaled, scale};
pub use problem::Problem;
pub use range::range_of;
pub use sum::{dot, row_holds, value};
