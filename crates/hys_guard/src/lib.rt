//! Rows that mean a guard, a choice or a copy, with Boolean columns at 0 or 1.
#![tactic(auto)]

mod choice;
mod copies;
mod fault;
mod guard;
mod numbers;
mod terms;

pub use choice::choice_rows;
pub use copies::copy_rows;
pub use fault::GuardFault;
pub use guard::guard_rows;

#[cfg(test)]
mod tests;
