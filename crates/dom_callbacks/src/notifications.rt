//! Small steps of a notification under way: an observer is told, the event of a slot begins, the notification is over.
ghost use Rattle.std.specs.Prelude.{◌≡◌, map, IfOk, OnOk, None};
ghost use Rattle.dom_model.specs.Turns as turns;
ghost use Rattle.dom_live.specs.Documents.{world_documents, world_visits};
ghost use Rattle.dom_live.specs.Frames.{a_notification, an_event};
ghost use Rattle.dom_live.specs.SmallSteps.{fired_at, notification_step, pushed, telling};
ghost use Rattle.dom_base.specs.declared.NodeName.{NodeName as Name};
ghost use Rattle.dom_reader.specs.Views.{event_view};
ghost use Rattle.dom_callbacks.specs.declared.frames.Frame.TheVariants as frame;
ghost use Rattle.dom_callbacks.specs.Bare.{bare_event};
ghost use Rattle.dom_callbacks.specs.Views.{notification_view, under_way, visit_view};
ghost use Rattle.dom_callbacks.specs.States.{live_of, Ran, HasSlots, IsNode, IsReady};

use crate::calling::{Called, Calling};
use crate::documents::Documents;
use crate::frames::{EventUnderWay, Frame, Notification};
use crate::live_tasks::is_live_observer;
use crate::state::LiveState;
use crate::visits::Visit;
use dom_answers::Answers;
use dom_base::NodeName;
use dom_reader::EventWords;
use std::alloc::{AllocError, Global};
use std::collections::VecDeque;

/// The words of `slotchange`: it bubbles, and is neither composed nor cancelable (DOM Standard, concept: signal a slot change).
fn slotchange(alloc: Global) -> Result<EventWords, AllocError>
    ensures { IfOk result (λ event. event_view event ≡ turns.slotchange) }
{
    Ok(EventWords {
        event: String::from_str(alloc, "slotchange")?,
        bubbles: true,
        cancelable: false,
        composed: false,
    })
}

/// The event of a slot, as it begins with these visits.
fn fired_with(event: EventWords, visits: VecDeque<Visit>) -> EventUnderWay
    ensures { (x : Name) → event_view event ≡ turns.slotchange → under_way result ≡ bare_event (fired_at x (map visit_view visits.items)) }
{
    EventUnderWay {
        event,
        by: None,
        visits,
        visiting: None,
        stopped: false,
        cancelled: false,
    }
}

impl<D: Documents> LiveState<D> {
    /// One observer is told its records of this moment. Where there were records and it is live, its owner is called (DOM Standard, notify mutation
    /// observers).
    fn tell_next<A: Answers>(
        &mut self,
        mut notification: Notification,
        observer: u32,
        answer: &mut A,
    ) -> Result<Option<Calling>, AllocError>
        requires ready { IsReady D.world self.old }
        requires slots { HasSlots (D.world self.old.documents) (frame.Notification notification) }
        ensures ran { IfOk result (λ called. Ran A.adds (telling world_documents (live_of D.world self.old) (notification_view notification) observer)
            (live_of D.world self.new) answer.old answer.new called) }
        ensures ready { OnOk result (IsReady D.world self.new) }
    {
        let owner = notification.owner;
        let is_live = is_live_observer(self.live_observers.as_slice(), &owner, observer);
        let any = self.documents.tell_observer(&owner, observer, answer)?;
        if is_live && any {
            notification.called = Some(observer);
            self.push(Frame::Notification(notification))?;
            return Ok(Some(Calling {
                owner,
                called: Called::Observer(observer),
            }));
        }
        self.push(Frame::Notification(notification))?;
        Ok(None)
    }

    /// The event of a slot begins, inside the notification.
    fn fire_at(
        &mut self,
        notification: Notification,
        slot: NodeName,
    ) -> Result<Option<Calling>, AllocError>
        requires ready { IsReady D.world self.old }
        requires node { IsNode (D.world self.old.documents) slot }
        requires slots { HasSlots (D.world self.old.documents) (frame.Notification notification) }
        ensures state { let s = live_of D.world self.old in OnOk result (live_of D.world self.new
            ≡ pushed (an_event (bare_event (fired_at slot (world_visits s.documents slot None turns.slotchange))))
            (pushed (a_notification (notification_view notification)) s)) }
        ensures none { IfOk result (λ called. called ≡ None) }
        ensures ready { OnOk result (IsReady D.world self.new) }
    {
        let event = slotchange(self.alloc)?;
        let visits = self.documents.visits(&slot, None, &event)?;
        self.push(Frame::Notification(notification))?;
        self.push(Frame::Event(fired_with(event, visits)))?;
        Ok(None)
    }

    /// A small step of a notification under way: the next observer is told, or else the event of the next slot begins, or else it is over. The frames are
    /// those around it (DOM Standard, notify mutation observers).
    pub(crate) fn step_notification<A: Answers>(
        &mut self,
        mut notification: Notification,
        answer: &mut A,
    ) -> Result<Option<Calling>, AllocError>
        requires ready { IsReady D.world self.old }
        requires slots { HasSlots (D.world self.old.documents) (frame.Notification notification) }
        ensures ran { IfOk result (λ called. Ran A.adds (notification_step world_documents (live_of D.world self.old) (notification_view notification)
            notification.observers.items) (live_of D.world self.new) answer.old answer.new called) }
        ensures ready { OnOk result (IsReady D.world self.new) }
    {
        if let Some(observer) = notification.observers.pop_front() {
            return self.tell_next(notification, observer, answer);
        }
        match notification.slots.pop_front() {
            None => Ok(None),
            Some(slot) => self.fire_at(notification, slot),
        }
    }
}
