//! The operations on a live range: its text, the deletion and the extraction of its contents, and the insertion of a node (DOM
//! Standard, 5.5 Interface Range).
#![tactic(auto)]

mod cloning;
mod contained;
mod deleting;
mod ends;
mod extracting;
mod inserting;
mod pieces;
mod points;
mod ready;
mod taking;
mod text;

pub use deleting::delete;
pub use extracting::extract;
pub use inserting::insert_node;
pub use ready::law_ready;
pub use text::range_text;
