//! Mutation observers of each owner, by their numbers (DOM Standard, 4.3 Mutation observers).
ghost use Rattle.std.specs.Prelude.{◌≡◌, ◌↔◌, ◌⊎◌, length, map, true, is_some, slice_get, IfOk, IfErr, OnOk, OnErr};
ghost use Rattle.std.specs.List.{AllByRecursion};
ghost use Rattle.dom_base.specs.declared.Refusal.TheVariants.{Limit, TypeFault};
ghost use Rattle.dom_model.specs.Command.{Command, own};
ghost use Rattle.dom_model.specs.Observers.{options_of, asks_for_nothing};
ghost use Rattle.dom_model.specs.Output.{nothing, an_observer, a_count, recorded};
ghost use Rattle.dom_model.specs.Part.{queue_of};
ghost use Rattle.dom_model.specs.Turns.{notified};
ghost use Rattle.dom_model.specs.World.{part_of, with_part, is_there};
ghost use Rattle.dom_model.specs.CommandRefusals.{past_limit};
ghost use Rattle.dom_observers.specs.Views.{words_of};
ghost use Rattle.dom_mutation.specs.Doc.{name_in, owner_in, change_in, notice_in, notices_of, none_pending, after_telling, NamesNodes};
ghost use Rattle.dom_mutation.specs.Doc.{Makes, MakesSaying, HoldsNode};

use crate::Doc;
use crate::parts::give_up_observers;
use dom_base::{Fault, Owner};
use dom_observers::{Options, Record};
use node_arena::Key;
use std::alloc::AllocError;

impl Doc {
    /// Whether an owner has an observer of a number.
    pub fn has_observer(&self, owner: Owner, number: u32) -> bool
        ensures { result ≡ is_some (slice_get (part_of self.now.world owner).record_queues number) }
    {
        let parts = &self.parts;
        parts.observers.has(owner, number)
    }

    /// How many observers an owner has made.
    pub fn observer_count(&self, owner: Owner) -> usize
        ensures { result ≡ length (part_of self.now.world owner).record_queues }
    {
        let parts = &self.parts;
        parts.observers.count(owner)
    }

    /// Adds an observer of an owner, and gives its number (DOM Standard, constructor of MutationObserver). It is refused
    /// with `Limit` where the owner has a million observers, and with `Memory` where memory is refused.
    /// It asks that the owner is there: `is_there` is the test.
    pub fn observer_make(&mut self, owner: Owner) -> Result<u32, Fault>
        requires { is_there self.old.world owner ≡ true }
        ensures names { self.new.names ≡ self.old.names }
        ensures world { IfOk result (λ number. Makes owner Command.observer (an_observer number) self.old.world self.new.world) }
        ensures limit { (result ≡ Err (Fault.Refused Limit)) ↔ (past_limit (length (part_of self.old.world owner).record_queues) 1 ≡ true) }
        ensures other { IfErr result (λ fault. (fault ≡ Fault.Refused Limit) ⊎ (fault ≡ Fault.Memory)) }
        ensures err { OnErr result (self.new ≡ self.old) }
    {
        let parts = &mut self.parts;
        parts.observers.make(owner)
    }

    /// Registers an observer on a node of its owner, or gives its registration there other options (DOM Standard,
    /// observe()). It is refused with `TypeFault` where the options ask for no kind of change, and with `Memory` where
    /// memory is refused.
    /// It asks that the owner has an observer of this number: `has_observer` is the test.
    pub fn observe(
        &mut self,
        owner: Owner,
        number: u32,
        node: Key,
        options: Options,
    ) -> Result<(), Fault>
        requires there { is_some (slice_get (part_of self.old.world owner).record_queues number) ≡ true }
        requires node_is_node { HoldsNode self.old node }
        requires own { owner_in self.old node ≡ owner }
        ensures names { self.new.names ≡ self.old.names }
        ensures world { OnOk result (Makes owner (Command.observe number (own (name_in self.old node).number) (words_of options)) nothing
            self.old.world self.new.world) }
        ensures no_kind { (result ≡ Err (Fault.Refused TypeFault)) ↔ (asks_for_nothing (options_of (words_of options)) ≡ true) }
        ensures other { IfErr result (λ fault. (fault ≡ Fault.Refused TypeFault) ⊎ (fault ≡ Fault.Memory)) }
        ensures err { OnErr result (self.new ≡ self.old) }
    {
        let parts = &mut self.parts;
        parts.trees.forest.law_nodes_stand_once();
        parts
            .observers
            .observe(&parts.trees.forest, owner, number, node, options)
    }

    /// Takes the registrations of an observer away, transient ones too, and empties its record queue (DOM Standard,
    /// disconnect()). The observer stays pending where it was.
    /// It asks that the owner has an observer of this number: `has_observer` is the test.
    pub fn disconnect(&mut self, owner: Owner, number: u32)
        requires { is_some (slice_get (part_of self.old.world owner).record_queues number) ≡ true }
        ensures names { self.new.names ≡ self.old.names }
        ensures world { Makes owner (Command.disconnect number) nothing self.old.world self.new.world }
    {
        let parts = &mut self.parts;
        let _ = parts.observers.disconnect(owner, number);
    }

    /// Empties the record queue of an observer, and gives the records in it, in order (DOM Standard, takeRecords()). The
    /// observer stays pending where it was.
    /// It asks that the owner has an observer of this number: `has_observer` is the test.
    pub fn take_records(&mut self, owner: Owner, number: u32) -> Vec<Record>
        requires { is_some (slice_get (part_of self.old.world owner).record_queues number) ≡ true }
        ensures names { self.new.names ≡ self.old.names }
        ensures nodes { AllByRecursion (NamesNodes self.old) result.items }
        ensures world { MakesSaying owner (Command.take number) (map (λ r. recorded number (change_in self.old r)) result.items)
            (a_count (length result.items)) self.old.world self.new.world }
    {
        let parts = &mut self.parts;
        let Some(records) = parts.observers.take(owner, number) else {
            unreachable!()
        };
        records
    }

    /// Empties an owner's set of pending observers, and gives their numbers, in the order in which they became pending (DOM Standard,
    /// notify mutation observers). Where memory is refused, nothing changes.
    /// It asks that the owner is there: `is_there` is the test.
    pub fn take_pending(&mut self, owner: Owner) -> Result<Vec<u32>, AllocError>
        requires { is_there self.old.world owner ≡ true }
        ensures names { self.new.names ≡ self.old.names }
        ensures numbers { IfOk result (λ numbers. numbers.items ≡ (part_of self.old.world owner).pending) }
        ensures world { OnOk result (self.new.world ≡ with_part self.old.world (none_pending (part_of self.old.world owner))) }
        ensures err { OnErr result (self.new ≡ self.old) }
    {
        let parts = &mut self.parts;
        parts.observers.take_pending(owner)
    }

    /// Empties the record queue of an owner's observer, and gives the records in it, in order; the observer's transient registrations are
    /// then gone (DOM Standard, notify mutation observers). There are none of an observer that is not there.
    /// It asks that the owner is there: `is_there` is the test.
    pub fn tell(&mut self, owner: Owner, number: u32) -> Vec<Record>
        requires { is_there self.old.world owner ≡ true }
        ensures names { self.new.names ≡ self.old.names }
        ensures records { map (change_in self.old) result.items ≡ queue_of (part_of self.old.world owner).record_queues number }
        ensures nodes { AllByRecursion (NamesNodes self.old) result.items }
        ensures world { self.new.world ≡ with_part self.old.world (after_telling number (part_of self.old.world owner)) }
    {
        let parts = &mut self.parts;
        parts.observers.tell(owner, number)
    }

    /// Empties an owner's set of pending observers, and gives each with the records of its queue, in order; their queues
    /// are then empty, and their transient registrations gone (DOM Standard, notify mutation observers). After a refusal
    /// of memory no owner has an observer.
    /// It asks that the owner is there: `is_there` is the test.
    pub fn notify(&mut self, owner: Owner) -> Result<Vec<(u32, Vec<Record>)>, AllocError>
        requires { is_there self.old.world owner ≡ true }
        ensures names { self.new.names ≡ self.old.names }
        ensures notices { IfOk result (λ list. map (notice_in self.old) list.items ≡ notices_of (part_of self.old.world owner)) }
        ensures nodes { IfOk result (λ list. AllByRecursion (λ n. AllByRecursion (NamesNodes self.old) n.1.items) list.items) }
        ensures world { OnOk result (self.new.world ≡ with_part self.old.world (notified (part_of self.old.world owner))) }
    {
        let parts = &mut self.parts;
        let notices = match parts.observers.notify(owner) {
            Ok(notices) => notices,
            Err(error) => {
                give_up_observers(&mut parts.observers, parts.alloc);
                return Err(error);
            }
        };
        Ok(notices)
    }
}
