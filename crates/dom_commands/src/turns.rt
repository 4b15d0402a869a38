//! The ends of turns.
ghost use Rattle.std.specs.Prelude.{◌≡◌, ◌||◌, [], None, OnOk};
ghost use Rattle.dom_model.specs.Command.{end_turn};
ghost use Rattle.dom_model.specs.DocumentMachine.{is_busy};
ghost use Rattle.dom_model.specs.Turns.{has_other_turn, ending_turn, ending_other_turn, ending_any_turn};
ghost use Rattle.dom_model.specs.World.{is_there};
ghost use Rattle.dom_admission.specs.Handled.{IsHandled};
ghost use Rattle.dom_commands.specs.Machine.{AreThere, IsAtRest, KeepsListeners};

use crate::machine::Machine;
use dom_answers::Answers;
use dom_base::{Fault, Owner};
use dom_microtasks::Queue;
use dom_printer::Value;
use std::alloc::AllocError;

impl Machine {
    /// Whether a turn of another owner is open, the page's among them.
    pub fn has_turn_of_another(&self, owner: &Owner) -> bool
        ensures { result ≡ (has_other_turn self.now.world owner.now || is_busy self.now.world owner.now) }
    {
        self.state.has_other_turn(owner) || self.state.is_busy(*owner)
    }

    /// Whether an owner has a part.
    pub fn is_there(&self, owner: &Owner) -> bool
        ensures { result ≡ is_there self.now.world owner.now }
    {
        self.state.is_there(*owner)
    }

    /// Takes all tasks out, for the caller to run them, and closes the open turn, if there is one.
    pub fn take_tasks(&mut self) -> Queue
        requires { IsAtRest self.old }
        ensures tasks { result ≡ self.old.world.tasks }
        ensures world { self.new.world ≡ record self.old.world { tasks = []; turn = None } }
        ensures there { AreThere self.new.world result }
        ensures sound { IsAtRest self.new }
    {
        self.state.take_tasks()
    }

    /// Ends the open turn, if there is one: runs the microtasks, and adds what they tell to the answers.
    fn close_turn<A: Answers>(&mut self, out: &mut A) -> Result<(), AllocError>
        requires { IsAtRest self.old }
        ensures told { OnOk result (A.adds out.old (ending_turn self.old.world).1 out.new) }
        ensures world { OnOk result (self.new.world ≡ (ending_turn self.old.world).0) }
        ensures sound { OnOk result (IsAtRest self.new) }
    {
        let tasks = self.take_tasks();
        self.run_tasks(tasks, out)
    }

    /// Ends another component's turn, if one is open, before a command of an owner.
    pub(crate) fn close_other_turn<A: Answers>(
        &mut self,
        owner: &Owner,
        out: &mut A,
    ) -> Result<(), AllocError>
        requires { IsAtRest self.old }
        ensures told { OnOk result (A.adds out.old (ending_other_turn self.old.world owner.now).1 out.new) }
        ensures world { OnOk result (self.new.world ≡ (ending_other_turn self.old.world owner.now).0) }
        ensures sound { OnOk result (IsAtRest self.new) }
    {
        if self.state.has_other_turn(owner) {
            return self.close_turn(out);
        }
        Ok(())
    }

    /// Ends any open turn, at the end of input.
    pub fn close_any_turn<A: Answers>(&mut self, out: &mut A) -> Result<(), AllocError>
        requires { IsAtRest self.old }
        ensures told { OnOk result (A.adds out.old (ending_any_turn self.old.world).1 out.new) }
        ensures world { OnOk result (self.new.world ≡ (ending_any_turn self.old.world).0) }
        ensures sound { OnOk result (IsAtRest self.new) }
    {
        if self.state.has_turn() {
            return self.close_turn(out);
        }
        Ok(())
    }

    /// `.`: the end of a turn.
    pub(crate) fn end_turn<A: Answers>(&mut self, owner: Owner, out: &mut A) -> Result<(), Fault>
        requires { IsAtRest self.old }
        ensures handled { IsHandled A.adds owner end_turn self.old.world self.new.world out.old out.new result }
        ensures listeners { KeepsListeners self.new result }
    {
        self.state.law_names_tell_nodes();
        self.state.admit(owner, &[])?;
        self.close_turn(out)?;
        out.reply(&owner, &Value::Nothing)?;
        Ok(())
    }
}
