//! The documents of a run with its open turn, and which lines of an owner may pass: the tests that all commands share, before
//! their own.
#![tactic(auto)]

mod accepting;
mod admission;
mod names;
mod state;
mod turns;

pub use admission::Operand;
pub use names::{NodeNames, lent_name, names_of, put_names};
pub use state::State;
