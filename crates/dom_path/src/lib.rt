//! Event paths (DOM Standard, 2.9 Dispatching events): the nodes that an event visits, through slots and closed shadow roots,
//! and what it shows at each of them.
#![tactic(auto)]

mod event;
mod item;
mod laws;
mod path;
mod path_node;
mod trees;

pub use item::Item;
pub use laws::{law_hosts_nest, law_paths_end};
pub use path::Path;
