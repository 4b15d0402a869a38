//! Small steps of an event under way: a visit begins, a listener is called, a visit is over, the event is over.
ghost use Rattle.std.specs.Prelude.{◌≡◌, ◌∷◌, [], IfOk, OnOk, None, Some};
ghost use Rattle.dom_model.specs.Listeners.{line_of};
ghost use Rattle.dom_model.specs.Output.{event_seen, says};
ghost use Rattle.dom_live.specs.Documents.{world_documents};
ghost use Rattle.dom_live.specs.Frames.{an_event};
ghost use Rattle.dom_live.specs.SmallSteps.{answered, begun_visit, between_visits, calling, event_step, going_on, pushed};
ghost use Rattle.dom_reader.specs.Views.{listener_view};
ghost use Rattle.dom_callbacks.specs.Outputs.{call_at_event, lines_in};
ghost use Rattle.dom_callbacks.specs.Views.{listener_at, under_way, visit_view, visiting_view};
ghost use Rattle.dom_callbacks.specs.States.{live_of, Ran, IsReady};

use crate::acts::may_cancel;
use crate::calling::{Called, Calling};
use crate::documents::Documents;
use crate::frames::{EventUnderWay, Frame};
use crate::state::LiveState;
use crate::visits::{Visit, VisitUnderWay};
use crate::words::is_live_listener;
use dom_answers::Answers;
use dom_base::Owner;
use dom_printer::{Event, Value};
use dom_reader::ListenerWords;
use std::alloc::AllocError;
use std::rc::Rc;

/// Tells the owner of a visit's node the call of a listener with these words. The path's text is written to `text`, in place of what was there.
fn tell_event<A: Answers>(
    text: &mut Vec<u8>,
    visit: &Visit,
    words: &ListenerWords,
    answer: &mut A,
) -> Result<(), AllocError>
    ensures { OnOk result (A.adds answer.old
        (says visit.now.current.owner (event_seen (line_of (visit_view visit.now) (listener_view words.now))) ∷ []) answer.new) }
{
    let owner = visit.current.owner;
    answer.place_path(text, &owner, visit.path.as_slice())?;
    let event = Event {
        label: words.label.as_bytes(),
        event: words.event.as_bytes(),
        phase: visit.phase,
        target: visit.target,
        current: visit.current,
        related: visit.related,
        path: text.as_slice(),
    };
    answer.event(&owner, &event)
}

/// An event is over: who dispatched it is told whether it was cancelled, if an owner did (DOM Standard, dispatchEvent()).
fn end_event<A: Answers>(
    event: EventUnderWay,
    answer: &mut A,
) -> Result<Option<Calling>, AllocError>
    ensures told { OnOk result (A.adds answer.old (lines_in (answered (under_way event) event.by)) answer.new) }
    ensures none { IfOk result (λ called. called ≡ None) }
{
    if let Some(owner) = event.by {
        answer.reply(&owner, &Value::Truth(!event.cancelled))?;
    }
    Ok(None)
}

/// The call of the owner of a listener, which is told of the event.
fn call_of(event: &EventUnderWay, owner: Owner) -> Calling
    ensures { result ≡ call_at_event owner (under_way event.now) }
{
    Calling {
        owner,
        called: Called::Event {
            bubbles: event.event.bubbles,
            cancelable: event.event.cancelable,
            composed: event.event.composed,
            prevented: event.cancelled,
        },
    }
}

impl<D: Documents> LiveState<D> {
    /// A listener is called in the visit of an event: its line comes, and then its action, or, where it is live, the call of its owner (DOM Standard,
    /// concept: inner invoke).
    fn call_listener<A: Answers>(
        &mut self,
        mut event: EventUnderWay,
        mut visit: VisitUnderWay,
        words: Rc<ListenerWords>,
        answer: &mut A,
    ) -> Result<Option<Calling>, AllocError>
        requires { IsReady D.world self.old }
        ensures ran { IfOk result (λ called. Ran A.adds (calling world_documents (live_of D.world self.old) (under_way event) (visiting_view visit)
            (listener_at visit.visit.current words.value)) (live_of D.world self.new) answer.old answer.new called) }
        ensures ready { OnOk result (IsReady D.world self.new) }
    {
        let node = visit.visit.current;
        tell_event(&mut self.text, &visit.visit, &words, answer)?;
        let is_live = is_live_listener(self.live_listeners.as_slice(), &node, &words);
        self.remove_once(&node, &words);
        if is_live {
            let calling = call_of(&event, node.owner);
            visit.called = Some(words);
            event.visiting = Some(visit);
            self.push(Frame::Event(event))?;
            return Ok(Some(calling));
        }
        let cancels = may_cancel(&event.event, &words);
        event.visiting = Some(visit);
        event.act(words.action, cancels);
        self.push(Frame::Event(event))?;
        Ok(None)
    }

    /// A visit goes on: where the other listeners are stopped, or none is left, it is over (DOM Standard, concept: inner invoke).
    fn go_on<A: Answers>(
        &mut self,
        event: EventUnderWay,
        mut visit: VisitUnderWay,
        answer: &mut A,
    ) -> Result<Option<Calling>, AllocError>
        requires { IsReady D.world self.old }
        ensures ran { IfOk result (λ called. Ran A.adds (going_on world_documents (live_of D.world self.old) (under_way event) (visiting_view visit)
            (visiting_view visit).calls) (live_of D.world self.new) answer.old answer.new called) }
        ensures ready { OnOk result (IsReady D.world self.new) }
    {
        if visit.stopped_now {
            return self.end_visit(event);
        }
        match visit.calls.pop_front() {
            None => self.end_visit(event),
            Some(words) => self.call_listener(event, visit, words, answer),
        }
    }

    /// A visit is over.
    fn end_visit(&mut self, mut event: EventUnderWay) -> Result<Option<Calling>, AllocError>
        requires { IsReady D.world self.old }
        ensures state { OnOk result (live_of D.world self.new
            ≡ pushed (an_event (record (under_way event) { visiting = None })) (live_of D.world self.old)) }
        ensures none { IfOk result (λ called. called ≡ None) }
        ensures ready { OnOk result (IsReady D.world self.new) }
    {
        event.visiting = None;
        self.push(Frame::Event(event))?;
        Ok(None)
    }

    /// Between visits the next one begins, with the listeners that fit of the node's list at this moment. Where the event is stopped, or no visit is
    /// left, it is over (DOM Standard, concept: dispatch; invoke).
    fn go_to_next_visit<A: Answers>(
        &mut self,
        mut event: EventUnderWay,
        answer: &mut A,
    ) -> Result<Option<Calling>, AllocError>
        requires { IsReady D.world self.old }
        ensures ran { IfOk result (λ called. Ran A.adds (between_visits world_documents (live_of D.world self.old) (under_way event)
            (under_way event).visits) (live_of D.world self.new) answer.old answer.new called) }
        ensures ready { OnOk result (IsReady D.world self.new) }
    {
        if event.stopped {
            return end_event(event, answer);
        }
        match event.visits.pop_front() {
            None => end_event(event, answer),
            Some(visit) => self.begin_visit(event, visit),
        }
    }

    /// A visit begins.
    fn begin_visit(
        &mut self,
        mut event: EventUnderWay,
        visit: Visit,
    ) -> Result<Option<Calling>, AllocError>
        requires { IsReady D.world self.old }
        ensures state { let s = live_of D.world self.old in let u = under_way event in OnOk result (live_of D.world self.new
            ≡ pushed (an_event (record u { visiting = Some (begun_visit world_documents s.documents u.event (visit_view visit)) })) s) }
        ensures none { IfOk result (λ called. called ≡ None) }
        ensures ready { OnOk result (IsReady D.world self.new) }
    {
        let calls = self.documents.heard(&event.event, &visit)?;
        event.visiting = Some(VisitUnderWay {
            visit,
            calls,
            called: None,
            stopped_now: false,
        });
        self.push(Frame::Event(event))?;
        Ok(None)
    }

    /// A small step of an event under way; the frames are those around it.
    pub(crate) fn step_event<A: Answers>(
        &mut self,
        mut event: EventUnderWay,
        answer: &mut A,
    ) -> Result<Option<Calling>, AllocError>
        requires { IsReady D.world self.old }
        ensures ran { IfOk result (λ called. Ran A.adds (event_step world_documents (live_of D.world self.old) (under_way event)
            (under_way event).visiting) (live_of D.world self.new) answer.old answer.new called) }
        ensures ready { OnOk result (IsReady D.world self.new) }
    {
        match event.visiting.take() {
            None => self.go_to_next_visit(event, answer),
            Some(visit) => self.go_on(event, visit, answer),
        }
    }
}
