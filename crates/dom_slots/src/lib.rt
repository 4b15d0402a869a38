//! Shadow hosts, and the slots of their shadow trees with what is assigned to them and what steps signal (DOM Standard,
//! 4.2.2 Shadow tree).
#![tactic(auto)]

mod changes;
mod find;
mod index;
mod key_lists;
mod key_map;
mod laws;
mod marks;
mod node_slots;
mod slots;
mod step;
mod table;
mod waiting;

pub use laws::{law_new_nodes_are_free, law_slots_are_of_worlds, law_slots_stay, law_steps_end};
pub use slots::Slots;
pub use step::{SlotChange, Step};
