//! What listeners do to an event under way.
ghost use Rattle.std.specs.Prelude.{◌≡◌};
ghost use Rattle.dom_base.specs.declared.Owner.{Owner as Acting};
ghost use Rattle.dom_model.specs.Listeners.{may_cancel};
ghost use Rattle.dom_live.specs.Frames.{acted};
ghost use Rattle.dom_reader.specs.Views.{event_view, listener_view};
ghost use Rattle.dom_callbacks.specs.Bare.{bare_event};
ghost use Rattle.dom_callbacks.specs.Views.{under_way};

use crate::frames::EventUnderWay;
use dom_base::Action;
use dom_reader::{EventWords, ListenerWords};

/// Whether a listener with these words may cancel an event (DOM Standard, 2.2: set the canceled flag).
pub(crate) fn may_cancel(event: &EventWords, words: &ListenerWords) -> bool
    ensures { result ≡ may_cancel (event_view event.now) (listener_view words.now) }
{
    event.cancelable && !words.passive
}

impl EventUnderWay {
    /// The flags after what a listener does. `cancels` says whether it may cancel this event (DOM Standard, 2.2: event flags, set the canceled flag).
    pub(crate) fn act(&mut self, action: Action, cancels: bool)
        ensures { (o : Acting) → under_way self.new ≡ bare_event (acted o cancels action (under_way self.old)) }
    {
        match action {
            Action::Log => {}
            Action::Stop => self.stopped = true,
            Action::StopNow => {
                self.stopped = true;
                if let Some(visit) = &mut self.visiting {
                    visit.stopped_now = true;
                }
            }
            Action::Cancel => self.cancelled = self.cancelled || cancels,
        }
    }
}
