//! Sessions: lines or calls in, answers out.
ghost use Rattle.std.specs.Prelude.{◌≡◌, ◌++◌, None, Some, true, false, IfOk, OnOk, OnErr, map};
ghost use Rattle.dom_model.specs.Command.{command as model_command};
ghost use Rattle.dom_model.specs.DocumentMachine.{first_world, step, finish};
ghost use Rattle.dom_text.specs.Text.{output_text};
ghost use Rattle.dom_commands.specs.Machine.{IsAtRest};
ghost use Rattle.dom_text.specs.Decode.{decode, owner_at as spec_owner_at};
ghost use Rattle.dom_reader.specs.Views.{command_view};
ghost use Rattle.dom_answers.specs.Told.{empty, shown_output, told};
ghost use Rattle.dom_engine.specs.Session.{RefusesForeign};

use dom_answers::Answer;
use dom_base::Owner;
use dom_commands::Machine;
use dom_reader::{Command, owner_at, page_bytes, parse_command};
use dom_words::NotRead;
use std::alloc::{AllocError, Global};
use std::marker::Model;

/// A session: the world as the lines and calls so far have made it.
///
/// After one call has run out of memory, every call answers `AllocError`.
#[derive(Drop)]
pub struct Session {
    machine: Machine,
    has_failed: bool,
    alloc: Global,
}

impl Model for Session {
    ghost use Rattle.std.specs.Coded.{codes};
    ghost use Rattle.dom_model.specs.Codes.{trees_code};
    ghost use Rattle.dom_engine.specs.Session.{SessionState};

    ghost Value = { SessionState };

    ghost coded = { Prim.hlevel (codes, trees_code) };

    ghost view = { λ s. record { world = s.machine.world; has_failed = s.has_failed } };

    ghost use Rattle.std.specs.Prelude.{◌≡◌, false};
    ghost use Rattle.dom_commands.specs.Machine.{IsAtRest};

    ghost invariant = { λ s. s.has_failed ≡ false → IsAtRest s.machine };
}

impl Session {
    /// A session before its first line. The page has its first document, `n0`. The only error is that memory ran out.
    pub fn new(alloc: Global) -> Result<Session, AllocError>
        ensures { IfOk result (λ session. session ≡ record { world = first_world; has_failed = false }) }
    {
        let machine = Machine::new(alloc)?;
        Ok(Session {
            machine,
            has_failed: false,
            alloc,
        })
    }

    /// Takes a line, without its 0x0A, and gives the lines that answer it, each with its 0x0A. A line that is refused is answered too
    /// (own rule), also if it names another owner's node (`foreign`). The only error is that memory ran out, in this call or an earlier
    /// one.
    pub fn line(&mut self, line: &[u8]) -> Result<Vec<u8>, AllocError>
        ensures was { OnOk result (self.old.has_failed ≡ false) }
        ensures text { IfOk result (λ text. text.items ≡ output_text (step self.old.world (decode line.now)).1) }
        ensures world { OnOk result (self.new ≡ record { world = (step self.old.world (decode line.now)).0; has_failed = false }) }
        ensures foreign { IfOk result (λ text. RefusesForeign self.old.world line.now self.new.world text.items) }
        ensures err { OnErr result (self.new.has_failed ≡ true) }
    {
        let mut out = Vec::new(self.alloc);
        self.put_line(line, &mut out)?;
        Ok(out)
    }

    /// Takes a line as `line` does, and adds the lines that answer it to a buffer.
    #[inline(always)]
    pub(crate) fn put_line(&mut self, line: &[u8], out: &mut Vec<u8>) -> Result<(), AllocError>
        ensures was { OnOk result (self.old.has_failed ≡ false) }
        ensures text { OnOk result (out.new.items ≡ out.old.items ++ output_text (step self.old.world (decode line.now)).1) }
        ensures world { OnOk result (self.new ≡ record { world = (step self.old.world (decode line.now)).0; has_failed = false }) }
        ensures err { OnErr result (self.new.has_failed ≡ true) }
    {
        if self.has_failed {
            return Err(AllocError);
        }
        let answer = answer(&mut self.machine, self.alloc, line, out);
        self.has_failed = answer.is_err();
        answer
    }

    /// Does a command of an owner, as a line with this command does. The answer then has what the command tells, in place of what was
    /// there, and its last item is the reply or refusal. A command that no line can say is done too: a text or a number may be longer.
    /// What the command holds may be taken out of it. The only error is that memory ran out, in this call or an earlier one. It leaves
    /// the answer empty.
    pub fn call(
        &mut self,
        owner: &Owner,
        command: &mut Command,
        answer: &mut Answer,
    ) -> Result<(), AllocError>
        ensures was { OnOk result (self.old.has_failed ≡ false) }
        ensures told { OnOk result (told answer.new ≡ map shown_output (step self.old.world (model_command owner.now (command_view command.old))).1) }
        ensures world { OnOk result (
            self.new ≡ record { world = (step self.old.world (model_command owner.now (command_view command.old))).0; has_failed = false }) }
        ensures err { OnErr result (self.new.has_failed ≡ true) }
        ensures nothing { OnErr result (answer.new ≡ empty) }
    {
        self.begin(answer)?;
        let done = self.machine.answer(owner, command, answer);
        self.has_failed = done.is_err();
        settle(done, answer)
    }

    /// Ends the input as `finish` does. The answer then has what the microtasks of an open turn tell, in place of what was there. No turn
    /// is open afterwards. More calls and lines may follow (own rule). The only error is that memory ran out, in this call or an earlier
    /// one. It leaves the answer empty.
    #[tactic(auto, using(crate::proofs::ForeignLines::closing))]
    pub fn close(&mut self, answer: &mut Answer) -> Result<(), AllocError>
        ensures was { OnOk result (self.old.has_failed ≡ false) }
        ensures told { OnOk result (told answer.new ≡ map shown_output (finish self.old.world).1) }
        ensures world { OnOk result (self.new ≡ record { world = (finish self.old.world).0; has_failed = false }) }
        ensures closed { OnOk result (self.new.world.turn ≡ None) }
        ensures err { OnErr result (self.new.has_failed ≡ true) }
        ensures nothing { OnErr result (answer.new ≡ empty) }
    {
        self.begin(answer)?;
        let done = self.machine.close_any_turn(answer);
        self.has_failed = done.is_err();
        settle(done, answer)
    }

    /// Begins a call: empties the answer. An error says that the session has run out of memory before.
    fn begin(&self, answer: &mut Answer) -> Result<(), AllocError>
        ensures ok { OnOk result (self.now.has_failed ≡ false) }
        ensures err { OnErr result (self.now.has_failed ≡ true) }
        ensures nothing { answer.new ≡ empty }
    {
        answer.clear();
        if self.has_failed {
            return Err(AllocError);
        }
        Ok(())
    }

    /// Ends the input: ends an open turn, and gives the lines of its microtasks. No turn is open afterwards. More lines may follow (own
    /// rule). The only error is that memory ran out, in this call or an earlier one.
    pub fn finish(&mut self) -> Result<Vec<u8>, AllocError>
        ensures was { OnOk result (self.old.has_failed ≡ false) }
        ensures text { IfOk result (λ text. text.items ≡ output_text (finish self.old.world).1) }
        ensures world { OnOk result (self.new ≡ record { world = (finish self.old.world).0; has_failed = false }) }
        ensures closed { OnOk result (self.new.world.turn ≡ None) }
        ensures err { OnErr result (self.new.has_failed ≡ true) }
    {
        if self.has_failed {
            return Err(AllocError);
        }
        let ending = end(&mut self.machine, self.alloc);
        self.has_failed = ending.is_err();
        ending
    }
}

/// Ends a call: empties the answer if memory ran out.
pub(crate) fn settle(done: Result<(), AllocError>, partial: &mut Answer) -> Result<(), AllocError>
    ensures same { result ≡ done }
    ensures ok { OnOk result (partial.new ≡ partial.old) }
    ensures err { OnErr result (partial.new ≡ empty) }
{
    if done.is_err() {
        partial.clear();
    }
    done
}

/// Ends an open turn, and gives its lines.
fn end(machine: &mut Machine, alloc: Global) -> Result<Vec<u8>, AllocError>
    requires { IsAtRest machine.old }
    ensures text { IfOk result (λ text. text.items ≡ output_text (finish machine.old.world).1) }
    ensures world { OnOk result (machine.new.world ≡ (finish machine.old.world).0) }
    ensures closed { OnOk result (machine.new.world.turn ≡ None) }
    ensures sound { OnOk result (IsAtRest machine.new) }
{
    let mut out = Vec::new(alloc);
    machine.close_any_turn(&mut out)?;
    Ok(out)
}

/// The owner of most lines, as one value for all of them.
static PAGE: Owner = Owner::Page;

/// Carries out a line, and adds the lines that answer it.
fn answer(
    machine: &mut Machine,
    alloc: Global,
    line: &[u8],
    out: &mut Vec<u8>,
) -> Result<(), AllocError>
    requires { IsAtRest machine.old }
    ensures text { OnOk result (out.new.items ≡ out.old.items ++ output_text (step machine.old.world (decode line.now)).1) }
    ensures world { OnOk result (machine.new.world ≡ (step machine.old.world (decode line.now)).0) }
    ensures sound { OnOk result (IsAtRest machine.new) }
{
    match page_bytes(line) {
        Some(bytes) => answer_owner(machine, alloc, line, &PAGE, bytes, out),
        None => answer_spelled(machine, alloc, line, out),
    }
}

/// Carries out a line of any owner. It is not inlined, so that the page's lines need no room for an owner.
#[inline(never)]
fn answer_spelled(
    machine: &mut Machine,
    alloc: Global,
    line: &[u8],
    out: &mut Vec<u8>,
) -> Result<(), AllocError>
    requires { IsAtRest machine.old }
    ensures text { OnOk result (out.new.items ≡ out.old.items ++ output_text (step machine.old.world (decode line.now)).1) }
    ensures world { OnOk result (machine.new.world ≡ (step machine.old.world (decode line.now)).0) }
    ensures sound { OnOk result (IsAtRest machine.new) }
{
    match &owner_at(line) {
        Some((owner, bytes)) => answer_owner(machine, alloc, line, owner, bytes, out),
        None => machine.answer_no_command(None, out),
    }
}

/// Carries out an owner's line, with these bytes after the owner's word.
#[inline(always)]
fn answer_owner(
    machine: &mut Machine,
    alloc: Global,
    line: &[u8],
    owner: &Owner,
    bytes: &[u8],
    out: &mut Vec<u8>,
) -> Result<(), AllocError>
    requires sound { IsAtRest machine.old }
    requires owner { spec_owner_at line.now ≡ Some (owner.now, bytes.now) }
    ensures text { OnOk result (out.new.items ≡ out.old.items ++ output_text (step machine.old.world (decode line.now)).1) }
    ensures world { OnOk result (machine.new.world ≡ (step machine.old.world (decode line.now)).0) }
    ensures sound { OnOk result (IsAtRest machine.new) }
{
    let mut command = Command::EndTurn;
    match parse_command(alloc, line, owner, bytes, &mut command) {
        Ok(()) => machine.answer(owner, &mut command, out),
        Err(NotRead::Syntax) => machine.answer_no_command(Some(owner), out),
        Err(NotRead::Memory) => Err(AllocError),
    }
}
