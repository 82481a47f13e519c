//! Reading JSON values key by key: the first thing that is wrong, with the path where it stands; and writing them part
//! by part.
#![tactic(auto)]

mod fault;
mod list;
mod object;
mod text;
mod value;
mod writer;

pub use fault::{ValueFault, within, within_item};
pub use list::{Reader, read_list};
pub use object::{check_keys, member};
pub use text::{push_list, push_value};
pub use value::{check, check_word, here, read_fraction, read_items, read_text, read_whole};
pub use writer::{Writer, number_text, pair, write_list};
