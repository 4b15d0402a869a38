//! How far a dispatch is.
ghost use Rattle.std.specs.Prelude.{◌≡◌, ℕ, List, []};
ghost use Rattle.dom_model.specs.Listeners.{Listener, begun, after_action};
ghost use Rattle.dom_dispatch.specs.Dispatches.{dispatching_in};

use crate::event::LogLine;
use dom_base::Action;

/// The flags of an event that is dispatched, and the lines of the calls so far (DOM Standard, event flags: stop propagation, stop
/// immediate propagation, canceled).
#[derive(Drop)]
pub(crate) struct Progress {
    pub(crate) stopped: bool,
    pub(crate) stopped_now: bool,
    pub(crate) cancelled: bool,
    pub(crate) lines: Vec<LogLine>,
}

impl Progress {
    /// No flag is set, and there is no line. The lines will stand in this room.
    pub(crate) fn new(mut lines: Vec<LogLine>) -> Self
        ensures begins { (ls : List (Listener ℕ)) → dispatching_in ls result ≡ begun ls }
        ensures lines { result.lines.items ≡ [] }
    {
        if !lines.is_empty() {
            lines.clear();
        }
        Progress {
            stopped: false,
            stopped_now: false,
            cancelled: false,
            lines,
        }
    }

    /// A listener acts; `cancels` says whether it may cancel the event (own rule).
    pub(crate) fn act(&mut self, action: Action, cancels: bool)
        ensures flags { (ls : List (Listener ℕ)) → dispatching_in ls self.new ≡ after_action action cancels (dispatching_in ls self.old) }
        ensures lines { self.new.lines.items ≡ self.old.lines.items }
    {
        match action {
            Action::Log => {}
            Action::Stop => self.stopped = true,
            Action::StopNow => {
                self.stopped = true;
                self.stopped_now = true;
            }
            Action::Cancel => self.cancelled = self.cancelled || cancels,
        }
    }
}
