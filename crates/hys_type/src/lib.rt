//! From the tree of a source to its program: names, kinds, constants and affine forms.
#![tactic(auto)]

mod body;
mod bounds;
mod built;
mod constant;
mod declared;
mod dense;
mod fault;
mod item;
mod judge;
mod kinds;
pub mod laws;
mod missing;
mod names;
mod node;
mod parameters;
mod right;
pub mod rules;
mod scope;
mod translation;
mod weight;

pub use body::body_of;
pub use built::{Guard, affine, difference, formula, guard_number, sparse};
pub use constant::{Constant, Known, evaluate};
pub use declared::check_names;
pub use dense::{Dense, fold, is_constant, spread};
pub use fault::TypeFault;
pub use item::check_items;
pub use judge::{Judged, judge_parts};
pub use kinds::evaluate_as;
pub use missing::check_all_defined;
pub use names::{declared_names, scope_of};
pub use node::{Node, folded};
pub use parameters::known_names;
pub use scope::{Declared, Scope, look};
pub use translation::program;
