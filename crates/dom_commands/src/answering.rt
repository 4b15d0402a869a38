//! Carrying out a command, and answering it.
ghost use Rattle.std.specs.Prelude.{◌≡◌, ◌∷◌, [], true, false, Some, OnOk};
ghost use Rattle.std.specs.Option.{option_map};
ghost use Rattle.dom_model.specs.Command.{command as model_command};
ghost use Rattle.dom_model.specs.DocumentMachine.{step, run_command};
ghost use Rattle.dom_printer.specs.Replies.{refusal_output};
ghost use Rattle.dom_reader.specs.Views.{command_view, refused_view};
ghost use Rattle.dom_admission.specs.Handled.{IsHandled};
ghost use Rattle.dom_commands.specs.Machine.{AreAtNodes, IsAtRest, KeepsListeners};
ghost use Rattle.dom_commands.specs.CommandGroups.{is_plain};

use crate::commands;
use crate::machine::Machine;
use dom_answers::Answers;
use dom_base::{Fault, Owner, Refusal};
use dom_reader::Command;
use std::alloc::AllocError;
use std::mem;

impl Machine {
    /// Does a command of an owner, and adds what it tells to the answers: last its reply or refusal. What the command holds may be taken
    /// out of it. The only error is that memory ran out; then the machine may stand between two steps. It is not inlined, so that a
    /// command stays where it was read.
    #[inline(never)]
    pub fn answer<A: Answers>(
        &mut self,
        owner: &Owner,
        command: &mut Command,
        out: &mut A,
    ) -> Result<(), AllocError>
        requires { IsAtRest self.old }
        ensures told { OnOk result (A.adds out.old (step self.old.world (model_command owner.now (command_view command.old))).1 out.new) }
        ensures world { OnOk result (self.new.world ≡ (step self.old.world (model_command owner.now (command_view command.old))).0) }
        ensures sound { OnOk result (IsAtRest self.new) }
    {
        self.command(owner, command, out)
    }

    /// Refuses a line that has no command, of an owner if it has one. It is not inlined, since few lines have no command. The only error
    /// is that memory ran out; then the machine may stand between two steps.
    #[cold]
    #[inline(never)]
    pub fn answer_no_command<A: Answers>(
        &mut self,
        owner: Option<&Owner>,
        out: &mut A,
    ) -> Result<(), AllocError>
        requires { IsAtRest self.old }
        ensures told { OnOk result (A.adds out.old (step self.old.world (refused_view (option_map (λ o. o.now) owner.entry))).1 out.new) }
        ensures world { OnOk result (self.new.world ≡ (step self.old.world (refused_view (option_map (λ o. o.now) owner.entry))).0) }
        ensures sound { OnOk result (IsAtRest self.new) }
    {
        self.no_command(owner.copied(), out)
    }

    /// Refuses a line that has no command, after it has ended another component's turn.
    fn no_command<A: Answers>(
        &mut self,
        owner: Option<Owner>,
        out: &mut A,
    ) -> Result<(), AllocError>
        requires { IsAtRest self.old }
        ensures told { OnOk result (A.adds out.old (step self.old.world (refused_view owner)).1 out.new) }
        ensures world { OnOk result (self.new.world ≡ (step self.old.world (refused_view owner)).0) }
        ensures listeners { OnOk result (AreAtNodes self.new) }
    {
        if let Some(owner) = owner {
            self.close_other_turn(&owner, out)?;
        }
        out.refuse(owner, Refusal::Syntax)
    }

    /// Does a command of an owner: first ends another component's turn, if one is open.
    fn command<A: Answers>(
        &mut self,
        owner: &Owner,
        command: &mut Command,
        out: &mut A,
    ) -> Result<(), AllocError>
        requires { IsAtRest self.old }
        ensures told { OnOk result (A.adds out.old (step self.old.world (model_command owner.now (command_view command.old))).1 out.new) }
        ensures world { OnOk result (self.new.world ≡ (step self.old.world (model_command owner.now (command_view command.old))).0) }
        ensures listeners { OnOk result (AreAtNodes self.new) }
    {
        self.close_other_turn(owner, out)?;
        self.run(owner, command, out)
    }

    /// Does a command, and adds the refusal if it is refused. No other component's turn is open.
    fn run<A: Answers>(
        &mut self,
        owner: &Owner,
        command: &mut Command,
        out: &mut A,
    ) -> Result<(), AllocError>
        requires sound { IsAtRest self.old }
        ensures told { OnOk result (A.adds out.old (run_command owner.now (command_view command.old) self.old.world).1 out.new) }
        ensures world { OnOk result (self.new.world ≡ (run_command owner.now (command_view command.old) self.old.world).0) }
        ensures listeners { OnOk result (AreAtNodes self.new) }
    {
        match self.perform(owner, command, out) {
            Ok(()) => Ok(()),
            Err(Fault::Refused(refusal)) => refuse(out, owner, refusal),
            Err(Fault::Memory) => Err(AllocError),
        }
    }

    /// Gives a command to its handler. Only a handler that keeps what the command holds takes that out of its place, so that no other
    /// command needs room for it.
    fn perform<A: Answers>(
        &mut self,
        owner: &Owner,
        command: &mut Command,
        out: &mut A,
    ) -> Result<(), Fault>
        requires sound { IsAtRest self.old }
        ensures handled { IsHandled A.adds owner.now (command_view command.old) self.old.world self.new.world out.old out.new result }
        ensures listeners { KeepsListeners self.new result }
    {
        match command {
            Command::Listen(..)
            | Command::Unlisten(..)
            | Command::Dispatch(..)
            | Command::EndTurn => self.perform_heard(owner, command, out),
            _ => self.perform_plain(owner, command, out),
        }
    }

    /// Gives a command on listeners or events, or the end of a turn, to its handler. It is not inlined, so that no other command needs
    /// room for these.
    #[inline(never)]
    fn perform_heard<A: Answers>(
        &mut self,
        owner: &Owner,
        command: &mut Command,
        out: &mut A,
    ) -> Result<(), Fault>
        requires heard { is_plain (command_view command.old) ≡ false }
        requires sound { IsAtRest self.old }
        ensures handled { IsHandled A.adds owner.now (command_view command.old) self.old.world self.new.world out.old out.new result }
        ensures listeners { KeepsListeners self.new result }
    {
        match mem::replace(command, Command::EndTurn) {
            Command::Listen(node, words) => self.listen(*owner, node, words, out),
            Command::Unlisten(node, event, label, capture) => {
                self.unlisten(*owner, node, &event, &label, capture, out)
            }
            Command::Dispatch(target, event, related) => {
                self.dispatch(*owner, target, event, related, out)
            }
            Command::EndTurn => self.end_turn(*owner, out),
            _ => unreachable!(),
        }
    }

    /// Gives a command that neither reads nor changes listeners to its handler.
    fn perform_plain<A: Answers>(
        &mut self,
        owner: &Owner,
        command: &mut Command,
        out: &mut A,
    ) -> Result<(), Fault>
        requires plain { is_plain (command_view command.old) ≡ true }
        requires sound { IsAtRest self.old }
        ensures handled { IsHandled A.adds owner.now (command_view command.old) self.old.world self.new.world out.old out.new result }
        ensures listeners { KeepsListeners self.new result }
    {
        self.state.law_names_tell_nodes();
        commands::perform(&mut self.state, owner, command, out)
    }
}

/// Adds the refusal of an owner's command. It is not inlined, so that a command that is done needs no room for it.
#[cold]
#[inline(never)]
fn refuse<A: Answers>(out: &mut A, owner: &Owner, refusal: Refusal) -> Result<(), AllocError>
    ensures { OnOk result (A.adds out.old (refusal_output (Some owner.now) refusal ∷ []) out.new) }
{
    out.refuse(Some(*owner), refusal)
}
