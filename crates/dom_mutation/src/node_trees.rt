//! What a step on the node trees does to slots and signals, and node documents of whole trees.

mod documents;
mod steps;

pub(crate) use documents::{roots_below, set_documents, set_each};
pub(crate) use steps::NodeTrees;
