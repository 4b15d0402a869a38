//! Commands that ask: where nodes stand, which nodes a selector matches, and which nodes iterators and walkers reach. And commands on
//! mutation observers, with their records, and on microtasks. Each handler first makes the tests that all commands share, and last opens
//! the owner's turn and replies.
#![tactic(auto)]

pub mod cursors;
pub mod looks;
pub mod microtasks;
pub mod observing;
pub mod reads;
mod records;
pub mod selecting;
mod structure;
pub mod telling;
pub mod things;
mod tree_text;

pub use looks::NodeLinks;
pub use structure::StructureRow;
