//! The bound that multipliers of rows give over the boxes of a node, as a sum over exact numbers that
//! shows the first operation that doesn't fit.
#![tactic(auto)]

mod bound;
mod coefficients;
mod gather;
mod node;
mod products;

pub use bound::bound_sum;
pub use node::node_boxes;
pub use products::{factor, less_product, plus_product};
