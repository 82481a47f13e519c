//! Exact fractions whose two parts fit 64 bits.
#![tactic(auto)]

mod digits;
mod frac;
pub mod laws;
mod numeral;
#[cfg(test)]
mod quotient_tests;
mod quotients;
mod read;
mod reduce;
mod scaled;
mod shift;
#[cfg(test)]
mod tests;

pub use frac::Frac;
pub use hys_base::{List, Text};
pub use read::FracFault;
