//! Plans: the search to its end with any picker, and its answer with the tree that shows it.
#![tactic(auto)]

mod end;
#[cfg(test)]
mod examples;
mod planner;
#[cfg(test)]
mod tests;

pub use planner::plan;
