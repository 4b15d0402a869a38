//! What an open handle holds: a document, the answer of its last call, and the table of owners.
ghost use Rattle.std.specs.Prelude.{◌≡◌, ◌∷◌, [], true, false, IfOk, OnOk, Ok, Err, Some, length};
ghost use Rattle.dom_base.specs.declared.Fault.TheVariants.{Memory, Refused};
ghost use Rattle.dom_base.specs.declared.Refusal.{Refusal as Refusals};
ghost use Rattle.dom_model.specs.Output.{replied, refused};
ghost use Rattle.dom_reader.specs.Views.{command_view};
ghost use Rattle.dom_answers.specs.Arrays.{IsReply, value_of};
ghost use Rattle.dom_calls.specs.Asked.{Asked, IsAsked, IsMemory};
ghost use Rattle.dom_calls.specs.Calls.{Does, EndsSo, IsNew, RunsTasks, deliveries_of};

use crate::owners::owner_in;
use crate::shown::Shown;
use dom_answers::{Answer, Item, Reply, Said};
use dom_base::{Fault, Owner};
use dom_engine::Document;
use dom_engine::laws::law_last_is_reply;
use dom_reader::Command;
use std::alloc::{AllocError, Global};
use std::marker::Model;

/// A document, what its last call told, the owners that were shown, each at its place, and the arrays that are lent. After out of memory in one call
/// every call answers `Memory`.
#[derive(Drop)]
pub struct Held {
    pub(crate) document: Document,
    pub(crate) answer: Answer,
    pub(crate) has_reply: bool,
    pub(crate) owners: Vec<Owner>,
    pub(crate) shown: Shown,
    has_failed: bool,
}

impl Model for Held {
    ghost use Rattle.std.specs.Coded.{codes};
    ghost use Rattle.std_alloc.specs.Vec.{vec_ptr};
    ghost use Rattle.dom_model.specs.Codes.{trees_code};
    ghost use Rattle.dom_calls.specs.State.{CallState};

    ghost Value = { CallState };

    ghost coded = { Prim.hlevel (codes, trees_code) };

    ghost view = { λ h. record {
      world = h.document.world;
      answer = h.answer;
      has_reply = h.has_reply;
      owners = h.owners.items;
      lent = record {
        nodes_at = vec_ptr h.shown.nodes;
        nodes = h.shown.nodes.items;
        units_at = vec_ptr h.shown.units;
        units = h.shown.units.items;
        bytes_at = vec_ptr h.shown.bytes;
        bytes = h.shown.bytes.items;
        attributes_at = vec_ptr h.shown.attributes;
        attributes = h.shown.attributes.items;
        rows_at = vec_ptr h.shown.rows;
        rows = h.shown.rows.items;
        deliveries_at = vec_ptr h.shown.deliveries;
        deliveries = h.shown.deliveries.items;
      };
      has_failed = h.has_failed;
    } };
}

impl Held {
    /// A document before its first call.
    pub(crate) fn new(alloc: Global) -> Result<Box<Held>, AllocError>
        ensures { IfOk result (λ held. IsNew (Some held.value)) }
    {
        let mut owners = Vec::new(alloc);
        owners.push(Owner::Page)?;
        let held = Held {
            document: Document::new(alloc)?,
            answer: Answer::new(alloc),
            has_reply: false,
            owners,
            shown: Shown::new(alloc),
            has_failed: false,
        };
        Ok(Box::new(alloc, held)?)
    }

    /// Asks the owner at a place for a command, or for the refusal of what says none, and gives the reply.
    pub(crate) fn call(
        &mut self,
        place: u32,
        command: Result<Command, Fault>,
    ) -> Result<Reply, Fault>
        ensures ok { (asked : Asked) → IsAsked command asked →
            IfOk result (λ reply. Does place asked (replied (value_of self.new.answer.arrays reply)) self.old self.new) }
        ensures within { IfOk result (λ reply. IsReply self.new.answer.arrays reply) }
        ensures refused { (asked : Asked) → IsAsked command asked →
            (r : Refusals) → result ≡ Err (Refused r) → Does place asked (refused r) self.old self.new }
        ensures memory { result ≡ Err Memory → self.new.has_failed ≡ true }
        ensures owners { self.new.owners ≡ self.old.owners }
    {
        if self.has_failed {
            return Err(Fault::Memory);
        }
        match command {
            Ok(mut command) => self.perform(place, &mut command),
            Err(Fault::Refused(refusal)) => {
                self.answer.clear();
                self.has_reply = true;
                Err(Fault::Refused(refusal))
            }
            Err(Fault::Memory) => {
                self.has_failed = true;
                Err(Fault::Memory)
            }
        }
    }

    /// Does the command of the owner at a place, and gives the reply.
    fn perform(&mut self, place: u32, command: &mut Command) -> Result<Reply, Fault>
        requires { self.old.has_failed ≡ false }
        ensures ok { IfOk result (λ reply.
            Does place (Ok (command_view command.old)) (replied (value_of self.new.answer.arrays reply)) self.old self.new) }
        ensures within { IfOk result (λ reply. IsReply self.new.answer.arrays reply) }
        ensures refused { (r : Refusals) → result ≡ Err (Refused r) →
            Does place (Ok (command_view command.old)) (refused r) self.old self.new }
        ensures memory { result ≡ Err Memory → self.new.has_failed ≡ true }
        ensures owners { self.new.owners ≡ self.old.owners }
    {
        law_last_is_reply();
        let owner = owner_in(&self.owners, place);
        self.has_reply = true;
        if self
            .document
            .call(owner, command, &mut self.answer)
            .is_err()
        {
            self.has_failed = true;
            return Err(Fault::Memory);
        }
        match ending_of(&self.answer) {
            Some(ending) => ending,
            None => {
                self.has_failed = true;
                Err(Fault::Memory)
            }
        }
    }

    /// Runs the tasks of all owners.
    pub(crate) fn checkpoint(&mut self) -> Result<(), Fault>
        ensures ok { OnOk result (RunsTasks self.old self.new) }
        ensures memory { IsMemory result }
        ensures err { result ≡ Err Memory → self.new.has_failed ≡ true }
    {
        if self.has_failed {
            return Err(Fault::Memory);
        }
        self.has_reply = false;
        if self.document.checkpoint(&mut self.answer).is_err() {
            self.has_failed = true;
            return Err(Fault::Memory);
        }
        Ok(())
    }

    /// Marks that memory was refused.
    pub(crate) fn fail(&mut self)
        ensures { self.new ≡ record self.old { has_failed = true } }
    {
        self.has_failed = true;
    }

    /// How many deliveries the last call left.
    pub(crate) fn told(&self) -> usize
        ensures { result ≡ length (deliveries_of self.now) }
    {
        if self.has_reply {
            self.answer.deliveries().len()
        } else {
            self.answer.items().len()
        }
    }

    /// Whether memory was refused to a call.
    pub(crate) fn has_failed(&self) -> bool
        ensures { result ≡ self.now.has_failed }
    {
        self.has_failed
    }
}

/// How the answer of a call ends: with a reply, or a refusal. None if it does not end so.
pub(crate) fn ending_of(answer: &Answer) -> Option<Result<Reply, Fault>>
    ensures { EndsSo answer.now result }
{
    match answer.last() {
        Some(Item::Says(_, Said::Replied(reply))) => Some(Ok(*reply)),
        Some(Item::Says(_, Said::Refused(refusal))) => Some(Err(Fault::Refused(*refusal))),
        _ => None,
    }
}
