//! The queue of microtasks (HTML Standard, concept: microtask queue): labels to print, and notifications of mutation
//! observers, of which each owner has one queued at most (own rule). The first task in is the first out.
#![tactic(auto)]

ghost use Rattle.std.specs.Prelude.{◌≡◌, ◌++◌, ◌∷◌, [], false, drop, OnOk, OnErr};
ghost use Rattle.std.specs.List.{list_any};
ghost use Rattle.std.specs.Option.{option_map};
ghost use Rattle.dom_model.specs.Names.{first_of};
ghost use Rattle.dom_model.specs.World.{micro_task, is_notify_of, queued_notify};
ghost use Rattle.dom_microtasks.specs.Tasks.{task_of};

mod by_owner;
mod owner_numbers;
mod signals;
mod slot_numbers;

use crate::owner_numbers::OwnerNumbers;
use dom_base::Owner;
pub use signals::Signals;
use std::alloc::{AllocError, Global};
use std::collections::VecDeque;
use std::marker::Model;

/// What is to be run when a turn ends (HTML Standard, concept: microtask): a label that an owner asked to be printed, or
/// an owner's mutation observers to be notified.
#[derive(Drop)]
pub enum Task {
    Micro(Owner, Vec<u8>),
    Notify(Owner),
}

/// The tasks that are still to be run, in their order (HTML Standard, concept: microtask queue). A contract sees it as
/// the list of them.
pub struct Queue {
    tasks: VecDeque<Task>,
    waiting: OwnerNumbers,
}

impl Drop for Queue {
    // Written out, so that the crates above cite it, and do not prove again how each field is let go.
    fn drop(self) {
        let Self { tasks, waiting } = self;
    }
}

impl Model for Queue {
    ghost use Rattle.std.specs.Prelude.{List};
    ghost use Rattle.dom_model.specs.World.{Task as Meant};

    ghost Value = { List Meant };

    ghost use Rattle.dom_microtasks.specs.Tasks.{tasks_of, WaitsOnce};

    ghost view = { tasks_of };

    ghost invariant = { WaitsOnce };
}

impl Queue {
    /// A queue without tasks, which takes no memory yet. It will take its memory from `alloc`.
    pub fn new(alloc: Global) -> Self
        ensures { result ≡ [] }
    {
        Queue {
            tasks: VecDeque::new(alloc),
            waiting: OwnerNumbers::new(alloc),
        }
    }

    /// Queues an owner's label behind all tasks (HTML Standard, queue a microtask). Where memory is refused, the queue
    /// is as it was.
    pub fn push_micro(&mut self, owner: Owner, label: Vec<u8>) -> Result<(), AllocError>
        ensures ok { OnOk result (self.new ≡ self.old ++ micro_task owner label.items ∷ []) }
        ensures err { OnErr result (self.new ≡ self.old) }
    {
        self.tasks.push_back(Task::Micro(owner, label))?;
        Ok(())
    }

    /// Queues an owner's notification behind all tasks, where it is not queued yet (DOM Standard, queue a mutation
    /// observer microtask; that each owner has its own is an own rule). It is found to be queued without a search. Where
    /// memory is refused, the queue is as it was.
    #[inline(always)]
    pub fn push_notify(&mut self, owner: Owner) -> Result<(), AllocError>
        ensures ok { OnOk result (self.new ≡ queued_notify owner self.old) }
        ensures err { OnErr result (self.new ≡ self.old) }
    {
        if self.waiting.get(&owner) != 0 {
            return Ok(());
        }
        self.push_first_notify(owner)
    }

    /// Queues an owner's notification, which is not queued yet, behind all tasks, as `push_notify` says.
    #[inline(never)]
    fn push_first_notify(&mut self, owner: Owner) -> Result<(), AllocError>
        requires { list_any (is_notify_of owner) self.old ≡ false }
        ensures ok { OnOk result (self.new ≡ queued_notify owner self.old) }
        ensures err { OnErr result (self.new ≡ self.old) }
    {
        self.tasks.reserve(1)?;
        self.waiting.set(owner, 1)?;
        let _ = self.tasks.push_back(Task::Notify(owner));
        Ok(())
    }

    /// Takes the first task out, if there is one (HTML Standard, perform a microtask checkpoint). A notification that is
    /// taken out may be queued again.
    pub fn pop(&mut self) -> Option<Task>
        ensures task { option_map task_of result ≡ first_of self.old }
        ensures rest { self.new ≡ drop 1 self.old }
    {
        let task = self.tasks.pop_front()?;
        if let Task::Notify(owner) = &task {
            self.waiting.clear(*owner);
        }
        Some(task)
    }
}
