//! Trees of a source, the places of its tokens, and the grammar that ties the two.
#![tactic(auto)]

mod count;
pub mod laws;
mod level;
mod lexeme;
mod place;
mod print_expr;
mod print_parts;
mod printer;
mod source;
mod tree;
mod write;

pub use count::{NodeCount, count_nodes};
pub use level::Level;
pub use lexeme::{Lexeme, lexemes};
pub use place::{Place, place_of};
pub use printer::print;
pub use source::{Decl, Item, Kind, Section, Shape, Source};
pub use tree::{BinaryOp, Expr, UnaryOp};
