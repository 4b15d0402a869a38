//! The attributes of a node (DOM Standard, concept: attribute list): their names, which many nodes share, and their values. They stand in
//! the order in which they were set first.
#![tactic(auto)]

mod attribute_list;
mod name_index;
mod several_attributes;
mod shared_names;
mod signs;
mod texts;

pub use attribute_list::AttributeList;
pub use shared_names::SharedNames;
pub use signs::{Signs, is_space, mix};
pub use texts::{is_same_string, is_same_text};
