//! Node iterators and tree walkers: cursors over the nodes of a forest, alone and of each owner by their numbers (DOM Standard, 6
//! Traversal).
#![tactic(auto)]

mod by_owner;
mod cursors;
mod filter;
mod iter;
mod laws;
mod references;
mod search;
mod siblings;
mod tables;
mod walker;

pub use cursors::Cursors;
pub use filter::Filter;
pub use iter::{Iter, law_iterators_go_along, law_iterators_stay};
pub use laws::law_rest;
pub use search::beyond;
pub use walker::Walker;
