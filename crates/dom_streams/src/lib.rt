//! What a run reads from and writes to: sources and sinks, why a run stops, and the lines that a view keeps.
#![tactic(auto)]

mod count;
mod fault;
mod piece;
mod streams;
mod view;
mod writing;

pub use count::Count;
pub use fault::RunFault;
pub use piece::line_end;
pub use streams::{FromReader, IntoWriter, Sink, Source};
pub use view::{View, lines_seen_by};
pub use writing::{flush, flush_before_read};
