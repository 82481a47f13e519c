//! Lists and texts that contracts see as lists, and names that differ.
#![tactic(auto)]

mod list;
mod text;

pub use list::List;
pub use text::Text;
