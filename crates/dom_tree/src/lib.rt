//! The trees of all owners (DOM Standard, 1.1 Trees): nodes with a kind, attributes and data, how they stand, and
//! which insertions and replacements are refused.
//!
//! A forest is seen as the names of its nodes, by their keys, and as a list of trees, in the order of their roots'
//! names. Each read and each change is one of those lists of trees. Every call that is passed a key asks that it is
//! the key of a node of that forest.
#![tactic(auto)]

mod data;
mod forest;
mod ids;
mod own;
mod owners;
mod page_keys;
mod shared;
mod short_text;
mod splicing;
mod stored;
mod table;

pub use data::NodeData;
pub use forest::{Forest, NodeAt};
pub use owners::{law_changes_add_up, law_changes_are_own, law_reads_are_own};
