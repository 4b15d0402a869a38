//! What one command does: how commands come to their handlers; the handlers on live ranges, listeners and events; and the ends of turns.
#![tactic(auto)]

mod answering;
mod calls;
mod commands;
mod events;
mod hearing;
mod looks;
mod machine;
mod notifying;
mod path_text;
mod ranging;
mod refusing;
mod tasks;
mod turns;
mod visits;

pub use dom_dispatch::HeldWords;
pub use dom_query_commands::{NodeLinks, StructureRow};
pub use machine::Machine;
pub use notifying::Pending;
pub use visits::Visit;
