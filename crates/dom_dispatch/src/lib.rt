//! Listeners and the dispatch of events (DOM Standard, 2.7 and 2.9): the table of listeners,
//! dispatches along event paths, and laws by which a dispatch by keys is the dispatch in a world.
#![tactic(auto)]

mod dispatch;
mod event;
mod handed;
mod kinds;
mod laws;
mod listeners;
mod place_list;
mod places;
mod progress;
mod room;
mod shown;
mod table;
mod types;
mod visit;

pub use event::{EventInit, LogLine, Outcome};
pub use kinds::{HeldWords, ListenerKind};
pub use laws::{law_keys_stand_for_names, law_listeners_stay, law_one_list_serves_all};
pub use listeners::{ListenerInit, Listeners};
