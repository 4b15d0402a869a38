//! The text of what the engine answers, put at the end of a buffer: replies, refusals, events and their paths, records,
//! microtasks, trees, strings and owners' words. A call puts its whole text, or nothing where memory is refused.
#![tactic(auto)]

mod buffers;
mod named;
mod names;
mod pieces;
mod records;
mod replies;
mod strings;
mod trees;

pub use named::{LentName, Names};
pub use names::{put_owner_word, put_path};
pub use records::{Change, Event, put_event, put_micro, put_record};
pub use replies::{Boundary, Value, put_list_reply, put_node_reply, put_refusal, put_reply};
pub use strings::put_string;
pub use trees::{Attribute, NodeContent, Opening, TreeStep, put_tree};
