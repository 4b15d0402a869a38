//! Callers of the crates that serve alone, each a call that the author of a toolkit makes, with its
//! exact result in the words of the crate called; and a note that is written, asked and rearranged. `docs/CRATES.md` shows them.
#![tactic(auto)]

mod arena;
mod editing;
mod items;
mod moving;
mod notes;
mod observing;
mod outline;
mod path;
mod ranges;
mod rearranging;
mod selecting;
mod traversal;
mod tree;
mod widgets;

pub use arena::move_to_front;
pub use editing::rewrite;
pub use items::{add_item, count_items, item_at, last_comes_first};
pub use moving::move_before;
pub use notes::{Note, write_note};
pub use observing::watch_attributes;
pub use outline::headings;
pub use path::count_visits;
pub use ranges::select_contents;
pub use rearranging::rearrange;
pub use selecting::has_match;
pub use traversal::next_focus;
pub use tree::{label, relabel};
pub use widgets::{count_widget_visits, press};
