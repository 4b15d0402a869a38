//! The parts of the program `domrun` beside its runs: what its words ask for, buffers for its input and output, and how it ends.
#![tactic(auto)]

mod buffers;
mod exit_cause;
mod exits;
mod words;

pub use buffers::{Input, Output};
pub use exit_cause::ExitCause;
pub use exits::{ending_of, exit_of};
pub use words::{Request, request_of, view_of, words_refused};
