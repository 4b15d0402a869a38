//! Small steps of a microtask checkpoint: a task begins, the checkpoint is over.
ghost use Rattle.std.specs.Prelude.{◌≡◌, IfOk, OnOk, None};
ghost use Rattle.dom_model.specs.World.{part_of, notify_task};
ghost use Rattle.dom_live.specs.Documents.{world_documents};
ghost use Rattle.dom_live.specs.SmallSteps.{checked, checkpoint_step, starting};
ghost use Rattle.dom_callbacks.specs.declared.documents.Task.TheVariants as task;
ghost use Rattle.dom_callbacks.specs.Outputs.{lines_in};
ghost use Rattle.dom_callbacks.specs.Views.{checkpoint_view, task_view};
ghost use Rattle.dom_callbacks.specs.States.{live_of, Ran, IsReady};

use crate::calling::{Called, Calling};
use crate::documents::{Documents, Task};
use crate::frames::{Checkpoint, Frame, Notification};
use crate::live_tasks::take_first;
use crate::state::LiveState;
use dom_answers::Answers;
use dom_base::Owner;
use dom_printer::Value;
use std::alloc::AllocError;

/// A checkpoint is over: who asked for it is told, if an owner did.
fn end_checkpoint<A: Answers>(
    checkpoint: Checkpoint,
    answer: &mut A,
) -> Result<Option<Calling>, AllocError>
    ensures told { OnOk result (A.adds answer.old (lines_in (checked (checkpoint_view checkpoint))) answer.new) }
    ensures none { IfOk result (λ called. called ≡ None) }
{
    if let Checkpoint::AskedBy(owner) = checkpoint {
        answer.reply(&owner, &Value::Nothing)?;
    }
    Ok(None)
}

impl<D: Documents> LiveState<D> {
    /// A microtask begins: it prints its label, and where it is live calls its owner (HTML Standard, microtask).
    fn start_microtask<A: Answers>(
        &mut self,
        owner: Owner,
        label: Vec<u8>,
        answer: &mut A,
    ) -> Result<Option<Calling>, AllocError>
        requires { IsReady D.world self.old }
        ensures ran { IfOk result (λ called. Ran A.adds (starting world_documents (task_view (task.Micro owner label)) (live_of D.world self.old))
            (live_of D.world self.new) answer.old answer.new called) }
        ensures ready { OnOk result (IsReady D.world self.new) }
    {
        answer.microtask(&owner, label.as_slice())?;
        if take_first(&mut self.live_tasks, &owner) {
            self.push(Frame::Microtask(owner))?;
            return Ok(Some(Calling {
                owner,
                called: Called::Microtask,
            }));
        }
        Ok(None)
    }

    /// A notification begins: it takes the pending observers and the signalled slots of its owner (DOM Standard, notify mutation observers).
    fn start_notification(&mut self, owner: Owner) -> Result<Option<Calling>, AllocError>
        requires { IsReady D.world self.old }
        ensures state { OnOk result (live_of D.world self.new ≡ (starting world_documents (task_view (task.Notify owner)) (live_of D.world self.old)).0) }
        ensures none { IfOk result (λ called. called ≡ None) }
        ensures ready { OnOk result (IsReady D.world self.new) }
    {
        let pending = self.documents.take_pending(&owner)?;
        self.push(Frame::Notification(Notification {
            owner,
            observers: pending.observers,
            slots: pending.slots,
            called: None,
        }))?;
        Ok(None)
    }

    /// A task begins.
    fn start<A: Answers>(
        &mut self,
        task: Task,
        answer: &mut A,
    ) -> Result<Option<Calling>, AllocError>
        requires { IsReady D.world self.old }
        ensures ran { IfOk result (λ called. Ran A.adds (starting world_documents (task_view task) (live_of D.world self.old))
            (live_of D.world self.new) answer.old answer.new called) }
        ensures ready { OnOk result (IsReady D.world self.new) }
    {
        match task {
            Task::Micro(owner, label) => self.start_microtask(owner, label, answer),
            Task::Notify(owner) => self.start_notification(owner),
        }
    }

    /// A small step of a checkpoint: the first task begins, or it is over. The frames are those around it (HTML Standard, perform a microtask checkpoint).
    pub(crate) fn step_checkpoint<A: Answers>(
        &mut self,
        checkpoint: Checkpoint,
        answer: &mut A,
    ) -> Result<Option<Calling>, AllocError>
        requires { IsReady D.world self.old }
        ensures ran { IfOk result (λ called. Ran A.adds (checkpoint_step world_documents (live_of D.world self.old) (checkpoint_view checkpoint)
            (D.world self.old.documents).tasks) (live_of D.world self.new) answer.old answer.new called) }
        ensures ready { OnOk result (IsReady D.world self.new) }
    {
        match self.documents.next_task() {
            None => end_checkpoint(checkpoint, answer),
            Some(task) => {
                self.push(Frame::Checkpoint(checkpoint))?;
                self.start(task, answer)
            }
        }
    }
}
