//! Documents: any owner's call is taken at any time, and tasks wait for a checkpoint.
ghost use Rattle.std.specs.Prelude.{◌≡◌, ◌&&◌, ◌++◌, [], true, false, IfOk, OnOk, OnErr, None, map};
ghost use Rattle.dom_model.specs.Command.{end_turn};
ghost use Rattle.dom_model.specs.DocumentMachine.{first_world, is_busy};
ghost use Rattle.dom_model.specs.Turns.{has_other_turn};
ghost use Rattle.dom_model.specs.World.{is_there};
ghost use Rattle.dom_reader.specs.Views.{command_view};
ghost use Rattle.dom_answers.specs.Told.{empty, shown_output, told};
ghost use Rattle.dom_microtasks.specs.Tasks.{task_of};
ghost use Rattle.dom_engine.specs.Documents.{called, checkpoint, is_end_turn, queued, turnless, with_task, IsReady};

use crate::session::settle;
use dom_answers::{Answer, Answers};
use dom_base::Owner;
use dom_commands::Machine;
use dom_microtasks::{Queue, Task};
use dom_printer::Value;
use dom_reader::Command;
use std::alloc::{AllocError, Global};
use std::marker::Model;
use std::mem;

/// A document that any owner calls at any time: no call is refused as `busy`, and none ends another owner's turn, since no turn is ever open. The
/// tasks of all owners wait in one queue, and run at a checkpoint.
///
/// After out of memory in one call every call answers `AllocError`.
#[derive(Drop)]
pub struct Document {
    pub(crate) machine: Machine,
    waiting: Queue,
    pub(crate) has_failed: bool,
    alloc: Global,
}

impl Model for Document {
    ghost use Rattle.std.specs.Coded.{codes};
    ghost use Rattle.dom_model.specs.Codes.{trees_code};
    ghost use Rattle.dom_engine.specs.Documents.{DocumentState, turnless};

    ghost Value = { DocumentState };

    ghost coded = { Prim.hlevel (codes, trees_code) };

    ghost view = { λ d. record { world = turnless d.machine.world d.waiting; has_failed = d.has_failed } };

    ghost use Rattle.std.specs.Prelude.{◌≡◌, false};
    ghost use Rattle.dom_engine.specs.Documents.{IsReady};

    ghost invariant = { λ d. d.has_failed ≡ false → IsReady d.machine d.waiting };
}

impl Document {
    /// A document before its first call: the page has its first document node, `n0`. There is none if memory is refused.
    pub fn new(alloc: Global) -> Result<Document, AllocError>
        ensures { IfOk result (λ document. document ≡ record { world = first_world; has_failed = false }) }
    {
        let machine = Machine::new(alloc)?;
        Ok(Document {
            machine,
            waiting: Queue::new(alloc),
            has_failed: false,
            alloc,
        })
    }

    /// Does a command of an owner. What it tells is then in the answer, in place of what was there: what the listeners of its own event were told, and
    /// at last the reply or refusal. The tasks that it queues come after those that wait, and none of them runs. The end of a turn alone is a
    /// checkpoint, and then the owner's reply. What the command holds may be taken out of it. An error is out of memory alone, now or in a call
    /// before, and leaves the answer empty.
    pub fn call(
        &mut self,
        owner: &Owner,
        command: &mut Command,
        answer: &mut Answer,
    ) -> Result<(), AllocError>
        ensures was { OnOk result (self.old.has_failed ≡ false) }
        ensures told { OnOk result (told answer.new ≡ map shown_output (called self.old.world owner.now (command_view command.old)).1) }
        ensures world { OnOk result (
            self.new ≡ record { world = (called self.old.world owner.now (command_view command.old)).0; has_failed = false }) }
        ensures err { OnErr result (self.new.has_failed ≡ true) }
        ensures nothing { OnErr result (answer.new ≡ empty) }
    {
        self.begin(answer)?;
        let done = call(
            &mut self.machine,
            &mut self.waiting,
            self.alloc,
            owner,
            command,
            answer,
        );
        self.has_failed = done.is_err();
        settle(done, answer)
    }

    /// A checkpoint: the tasks run, first in, first out, until none is left (HTML Standard, perform a microtask checkpoint). What they tell is then in
    /// the answer, in place of what was there. An error is out of memory alone, now or in a call before, and leaves the answer empty.
    pub fn checkpoint(&mut self, answer: &mut Answer) -> Result<(), AllocError>
        ensures was { OnOk result (self.old.has_failed ≡ false) }
        ensures told { OnOk result (told answer.new ≡ map shown_output (checkpoint self.old.world).1) }
        ensures world { OnOk result (self.new ≡ record { world = (checkpoint self.old.world).0; has_failed = false }) }
        ensures err { OnErr result (self.new.has_failed ≡ true) }
        ensures nothing { OnErr result (answer.new ≡ empty) }
    {
        self.begin(answer)?;
        let done = run_tasks(&mut self.machine, &mut self.waiting, self.alloc, answer);
        self.has_failed = done.is_err();
        settle(done, answer)
    }

    /// Begins a call: the answer is emptied. A document that has failed does no more.
    fn begin(&self, answer: &mut Answer) -> Result<(), AllocError>
        ensures ok { OnOk result (self.now.has_failed ≡ false) }
        ensures err { OnErr result (self.now.has_failed ≡ true) }
        ensures nothing { answer.new ≡ empty }
    {
        answer.clear();
        if self.has_failed {
            return Err(AllocError);
        }
        Ok(())
    }
}

/// What a call does. After an error the machine may stand between two steps.
fn call(
    machine: &mut Machine,
    waiting: &mut Queue,
    alloc: Global,
    owner: &Owner,
    command: &mut Command,
    answer: &mut Answer,
) -> Result<(), AllocError>
    requires { IsReady machine.old waiting.old }
    ensures told { OnOk result (told answer.new ≡ told answer.old ++ map shown_output
        (called (turnless machine.old.world waiting.old) owner.now (command_view command.old)).1) }
    ensures world { OnOk result (turnless machine.new.world waiting.new ≡
        (called (turnless machine.old.world waiting.old) owner.now (command_view command.old)).0) }
    ensures ready { OnOk result (IsReady machine.new waiting.new) }
{
    if is_checkpoint(machine, owner, command) {
        return reply_after_tasks(machine, waiting, alloc, owner, answer);
    }
    make_way(machine, waiting, owner)?;
    machine.answer(owner, command, answer)
}

/// Whether a command is the end of a turn, of an owner that is there.
fn is_checkpoint(machine: &Machine, owner: &Owner, command: &Command) -> bool
    ensures { result ≡ (is_end_turn (command_view command.now) && is_there machine.now.world owner.now) }
{
    matches!(command, Command::EndTurn) && machine.is_there(owner)
}

/// The end of a turn, of an owner that is there: a checkpoint, and then the owner's reply.
fn reply_after_tasks(
    machine: &mut Machine,
    waiting: &mut Queue,
    alloc: Global,
    owner: &Owner,
    answer: &mut Answer,
) -> Result<(), AllocError>
    requires ready { IsReady machine.old waiting.old }
    requires there { is_there machine.old.world owner.now ≡ true }
    ensures told { OnOk result (told answer.new ≡ told answer.old ++ map shown_output
        (called (turnless machine.old.world waiting.old) owner.now end_turn).1) }
    ensures world { OnOk result (turnless machine.new.world waiting.new ≡ (called (turnless machine.old.world waiting.old) owner.now end_turn).0) }
    ensures ready { OnOk result (IsReady machine.new waiting.new) }
{
    run_tasks(machine, waiting, alloc, answer)?;
    answer.reply(owner, &Value::Nothing)
}

/// Runs all tasks, and puts what they tell.
fn run_tasks(
    machine: &mut Machine,
    waiting: &mut Queue,
    alloc: Global,
    answer: &mut Answer,
) -> Result<(), AllocError>
    requires { IsReady machine.old waiting.old }
    ensures told { OnOk result (told answer.new ≡ told answer.old ++ map shown_output (checkpoint (turnless machine.old.world waiting.old)).1) }
    ensures world { OnOk result (turnless machine.new.world waiting.new ≡ (checkpoint (turnless machine.old.world waiting.old)).0) }
    ensures ready { OnOk result (IsReady machine.new waiting.new) }
{
    set_aside(machine, waiting)?;
    let tasks = mem::replace(waiting, Queue::new(alloc));
    machine.run_tasks(tasks, answer)
}

/// Sees to it that no other owner's turn is open in the machine, before a call of an owner: its tasks are set aside.
fn make_way(machine: &mut Machine, waiting: &mut Queue, owner: &Owner) -> Result<(), AllocError>
    requires { IsReady machine.old waiting.old }
    ensures world { OnOk result (turnless machine.new.world waiting.new ≡ turnless machine.old.world waiting.old) }
    ensures ended { OnOk result (has_other_turn machine.new.world owner.now ≡ false) }
    ensures calm { OnOk result (is_busy machine.new.world owner.now ≡ false) }
    ensures ready { OnOk result (IsReady machine.new waiting.new) }
{
    if !machine.has_turn_of_another(owner) {
        return Ok(());
    }
    set_aside(machine, waiting)
}

/// Puts the tasks of the machine's open turn after those that wait, and closes the turn.
fn set_aside(machine: &mut Machine, waiting: &mut Queue) -> Result<(), AllocError>
    requires { IsReady machine.old waiting.old }
    ensures tasks { OnOk result (waiting.new ≡ queued waiting.old machine.old.world.tasks) }
    ensures world { OnOk result (machine.new.world ≡ record machine.old.world { tasks = []; turn = None }) }
    ensures ready { OnOk result (IsReady machine.new waiting.new) }
{
    let tasks = machine.take_tasks();
    queue_all(waiting, tasks)
}

/// Queues tasks after those that wait, in their order.
fn queue_all(waiting: &mut Queue, mut tasks: Queue) -> Result<(), AllocError>
    ensures { OnOk result (waiting.new ≡ queued waiting.old tasks) }
{
    while let Some(task) = tasks.pop() {
        queue(waiting, task)?;
    }
    Ok(())
}

/// Queues a task after those that wait.
fn queue(waiting: &mut Queue, task: Task) -> Result<(), AllocError>
    ensures { OnOk result (waiting.new ≡ with_task waiting.old (task_of task)) }
{
    match task {
        Task::Micro(owner, label) => waiting.push_micro(owner, label),
        Task::Notify(owner) => waiting.push_notify(owner),
    }
}
