//! Live documents in code: what is under way, the innermost first, over any documents. Listeners, mutation observers and microtasks call their owner
//! while an event, a notification or a checkpoint is under way.
#![tactic(auto)]

mod acts;
mod calling;
mod checkpoints;
mod documents;
mod events;
mod frames;
mod live_tasks;
mod notifications;
mod removal;
mod state;
mod steps;
mod visits;
mod words;

pub use calling::{Called, Calling};
pub use documents::{Documents, Pending, Task};
pub use frames::{Checkpoint, EventUnderWay, Frame, Notification};
pub use state::LiveState;
pub use visits::{Visit, VisitUnderWay};
