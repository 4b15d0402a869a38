//! One small step of what is under way.
ghost use Rattle.std.specs.Prelude.{◌≡◌, is_some, if◌then◌else◌, option_map, IfOk, OnOk};
ghost use Rattle.dom_live.specs.Documents.{world_documents};
ghost use Rattle.dom_live.specs.Frames.{caller, returned, returned_visit};
ghost use Rattle.dom_live.specs.Lines.{still};
ghost use Rattle.dom_live.specs.SmallSteps.{advance, frame_step, put_back};
ghost use Rattle.dom_callbacks.specs.Views.{frame_view, under_way};
ghost use Rattle.dom_callbacks.specs.States.{live_of, Ran, HasSlots, IsReady};

use crate::calling::Calling;
use crate::documents::Documents;
use crate::frames::{EventUnderWay, Frame};
use crate::state::LiveState;
use dom_answers::Answers;
use std::alloc::AllocError;

impl EventUnderWay {
    /// The call that is under way returns, if one is.
    fn return_call(&mut self)
        ensures { under_way self.new ≡ record (under_way self.old) { visiting = option_map returned_visit (under_way self.old).visiting } }
    {
        if let Some(visit) = &mut self.visiting {
            visit.called = None;
        }
    }
}

impl Frame {
    /// Whether a call of an owner is under way in the frame.
    pub(crate) fn is_called(&self) -> bool
        ensures { result ≡ is_some (caller (frame_view self.now)) }
    {
        match self {
            Frame::Event(under_way) => match &under_way.visiting {
                None => false,
                Some(visit) => visit.called.is_some(),
            },
            Frame::Notification(notification) => notification.called.is_some(),
            Frame::Microtask(_) => true,
            Frame::Checkpoint(_) => false,
        }
    }
}

impl<D: Documents> LiveState<D> {
    /// A small step of a frame whose call, if there was one, has returned. The frames are those around it.
    fn step<A: Answers>(
        &mut self,
        frame: Frame,
        answer: &mut A,
    ) -> Result<Option<Calling>, AllocError>
        requires ready { IsReady D.world self.old }
        requires slots { HasSlots (D.world self.old.documents) frame }
        ensures ran { IfOk result (λ called. Ran A.adds (frame_step world_documents (live_of D.world self.old) (frame_view frame))
            (live_of D.world self.new) answer.old answer.new called) }
        ensures ready { OnOk result (IsReady D.world self.new) }
    {
        match frame {
            Frame::Event(event) => self.step_event(event, answer),
            Frame::Notification(notification) => self.step_notification(notification, answer),
            Frame::Microtask(_) => Ok(None),
            Frame::Checkpoint(checkpoint) => self.step_checkpoint(checkpoint, answer),
        }
    }

    /// A call has returned, whose frame was taken from those that are under way: what is left of the frame goes back. A microtask is over.
    fn put_back(&mut self, frame: Frame) -> Result<(), AllocError>
        requires ready { IsReady D.world self.old }
        requires slots { HasSlots (D.world self.old.documents) frame }
        ensures state { OnOk result (live_of D.world self.new ≡ put_back (returned (frame_view frame)) (live_of D.world self.old)) }
        ensures ready { OnOk result (IsReady D.world self.new) }
    {
        match frame {
            Frame::Event(mut event) => {
                event.return_call();
                self.push(Frame::Event(event))
            }
            Frame::Notification(mut notification) => {
                notification.called = None;
                self.push(Frame::Notification(notification))
            }
            Frame::Microtask(_) => Ok(()),
            Frame::Checkpoint(checkpoint) => self.push(Frame::Checkpoint(checkpoint)),
        }
    }

    /// A small step of a frame, where a call that is under way in it returns. The frames are those around it.
    fn step_or_return<A: Answers>(
        &mut self,
        frame: Frame,
        answer: &mut A,
    ) -> Result<Option<Calling>, AllocError>
        requires ready { IsReady D.world self.old }
        requires slots { HasSlots (D.world self.old.documents) frame }
        ensures ran { IfOk result (λ called. Ran A.adds (let s = live_of D.world self.old in let f = frame_view frame in
            if is_some (caller f) then still (put_back (returned f) s) else frame_step world_documents s f)
            (live_of D.world self.new) answer.old answer.new called) }
        ensures ready { OnOk result (IsReady D.world self.new) }
    {
        if frame.is_called() {
            self.put_back(frame)?;
            return Ok(None);
        }
        self.step(frame, answer)
    }

    /// Makes one small step of the innermost frame that is under way, if there is one. If an owner's call is under way in that frame, the call returns.
    /// Else an event goes to its next visit or calls its next listener, a notification tells its next observer or fires at its next slot, a checkpoint
    /// begins its first task, or the frame is over. What owners are told is added to `answer`. The result is the call that begins, if one does: its
    /// owner has it until the next step of this frame. The state is ready where each slot that waits in a notification is a node, and it stays so.
    /// Where memory is refused the result is an error, and nothing is promised of the state or of the answer (DOM Standard, concept: dispatch; notify
    /// mutation observers; HTML Standard, perform a microtask checkpoint).
    pub fn advance<A: Answers>(&mut self, answer: &mut A) -> Result<Option<Calling>, AllocError>
        requires { IsReady D.world self.old }
        ensures ran { IfOk result (λ called. Ran A.adds (advance world_documents (live_of D.world self.old)) (live_of D.world self.new)
            answer.old answer.new called) }
        ensures ready { OnOk result (IsReady D.world self.new) }
    {
        match self.frames.pop_front() {
            None => Ok(None),
            Some(frame) => self.step_or_return(frame, answer),
        }
    }
}
