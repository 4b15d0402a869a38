//! The engine. A session takes a line, or a call with a command as a value, and answers it. A run takes all lines of a source, and writes
//! their answers. A document takes calls alone, of any owner at any time.
#![tactic(auto)]

mod document;
pub mod laws;
mod looks;
mod runner;
mod session;

pub use document::Document;
pub use dom_commands::{NodeLinks, StructureRow};
pub use dom_streams::{Count, FromReader, IntoWriter, RunFault, Sink, Source, lines_seen_by};
pub use runner::run;
pub use session::Session;
