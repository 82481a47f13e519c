//! A branch and bound search over a problem's nodes: any waiting node may be worked on next, and the tree
//! shows a lower bound after each step.
#![tactic(auto)]

mod branching;
mod columns;
mod expand;
mod nodes;
mod outcome;
mod pick;
mod search;
mod steps;
mod tree;

pub use expand::Expanded;
pub use nodes::Waiting;
pub use pick::{BestBound, DepthFirst, Picker};
pub use search::Search;
