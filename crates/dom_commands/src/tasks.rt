//! Microtasks: what they do when a turn ends.
ghost use Rattle.std.specs.Prelude.{◌≡◌, ◌<◌, All, map, length, OnOk};
ghost use Rattle.dom_model.specs.Runs.{run_each};
ghost use Rattle.dom_model.specs.Turns.{notifying, firing_slotchange, running_task};
ghost use Rattle.dom_worlds.specs.Worlds.{IsThere, task_owner};
ghost use Rattle.dom_tree.specs.Forest.{name_at};
ghost use Rattle.dom_microtasks.specs.Tasks.{task_of};
ghost use Rattle.dom_commands.specs.Machine.{AreThere, IsAtRest};

use crate::machine::Machine;
use dom_answers::Answers;
use dom_base::Owner;
use dom_dispatch::EventInit;
use dom_microtasks::{Queue, Task};
use dom_query_commands::microtasks::{take_signals, tell_observers};
use node_arena::Key;
use std::alloc::AllocError;

impl Machine {
    /// Runs tasks, first in, first out, until none is left, and adds what they tell to the answers (HTML Standard, perform a microtask
    /// checkpoint). After an error the machine may stand between two steps.
    pub fn run_tasks<A: Answers>(&mut self, mut tasks: Queue, out: &mut A) -> Result<(), AllocError>
        requires sound { IsAtRest self.old }
        requires there { AreThere self.old.world tasks }
        ensures told { OnOk result (A.adds out.old (run_each running_task self.old.world tasks).1 out.new) }
        ensures world { OnOk result (self.new.world ≡ (run_each running_task self.old.world tasks).0) }
        ensures sound { OnOk result (IsAtRest self.new) }
    {
        while let Some(task) = tasks.pop() {
            self.run_task(task, out)?;
        }
        Ok(())
    }

    /// Runs a task: tells that a microtask ran, or notifies an owner's observers.
    fn run_task<A: Answers>(&mut self, task: Task, out: &mut A) -> Result<(), AllocError>
        requires sound { IsAtRest self.old }
        requires there { IsThere self.old.world (task_owner (task_of task)) }
        ensures told { OnOk result (A.adds out.old (running_task self.old.world (task_of task)).1 out.new) }
        ensures world { OnOk result (self.new.world ≡ (running_task self.old.world (task_of task)).0) }
        ensures sound { OnOk result (IsAtRest self.new) }
    {
        match task {
            Task::Micro(owner, label) => out.microtask(&owner, &label),
            Task::Notify(owner) => self.notify(owner, out),
        }
    }

    /// Gives each pending observer of an owner its records, and then fires `slotchange` at each signalled slot of the owner (DOM
    /// Standard, notify mutation observers).
    fn notify<A: Answers>(&mut self, owner: Owner, out: &mut A) -> Result<(), AllocError>
        requires sound { IsAtRest self.old }
        requires there { IsThere self.old.world owner }
        ensures told { OnOk result (A.adds out.old (notifying self.old.world owner).1 out.new) }
        ensures world { OnOk result (self.new.world ≡ (notifying self.old.world owner).0) }
        ensures sound { OnOk result (IsAtRest self.new) }
    {
        self.state.law_names_tell_nodes();
        let slots = take_signals(&mut self.state, owner)?;
        tell_observers(&mut self.state, owner, out)?;
        self.signal_slots(slots.as_slice(), out)
    }

    /// Fires `slotchange` at each of these slots, in their order.
    fn signal_slots<A: Answers>(&mut self, slots: &[Key], out: &mut A) -> Result<(), AllocError>
        requires sound { IsAtRest self.old }
        requires nodes { All (λ k. k < length self.old.names) slots.now }
        ensures told { OnOk result (A.adds out.old (run_each firing_slotchange self.old.world (map (name_at self.old.names) slots.now)).1 out.new) }
        ensures world { OnOk result (self.new.world ≡ (run_each firing_slotchange self.old.world (map (name_at self.old.names) slots.now)).0) }
        ensures sound { OnOk result (IsAtRest self.new) }
    {
        for slot in slots {
            self.signal_slot(*slot, out)?;
        }
        Ok(())
    }

    /// Fires `slotchange` at a slot: it bubbles, and is neither composed nor cancelable.
    fn signal_slot<A: Answers>(&mut self, slot: Key, out: &mut A) -> Result<(), AllocError>
        requires sound { IsAtRest self.old }
        requires node { slot < length self.old.names }
        ensures told { OnOk result (A.adds out.old (firing_slotchange self.old.world (name_at self.old.names slot)).1 out.new) }
        ensures world { OnOk result (self.new.world ≡ (firing_slotchange self.old.world (name_at self.old.names slot)).0) }
        ensures names { OnOk result (self.new.names ≡ self.old.names) }
        ensures sound { OnOk result (IsAtRest self.new) }
    {
        let event = EventInit {
            name: String::from_str(self.alloc, "slotchange")?,
            bubbles: true,
            cancelable: false,
            composed: false,
            related: None,
        };
        let _ = self.fire(slot, event, out)?;
        Ok(())
    }
}
