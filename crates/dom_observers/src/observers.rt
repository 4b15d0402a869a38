//! The mutation observers of all owners.
ghost use Rattle.std.specs.Prelude.{◌≡◌, ◌↔◌, ◌⊎◌, nat_eq, nat_lt, true, false, not, map, length, option_map, slice_get, is_some, IfOk, IfErr};
ghost use Rattle.std.specs.Prelude.{OnOk, OnErr, if◌then◌else◌};
ghost use Rattle.dom_base.specs.declared.Owner.{Owner as Owners};
ghost use Rattle.dom_model.specs.Names.{is_empty};
ghost use Rattle.dom_model.specs.CommandRefusals.{past_limit};
ghost use Rattle.dom_model.specs.Observers.{options_of, asks_for_nothing, target_of};
ghost use Rattle.dom_tree.specs.Forest.{IsNode, name_of};
ghost use Rattle.dom_observers.specs.Tables.{no_tables, with_observer, observing, disconnected, emptied, is_taken, told, left, notices, notified};
ghost use Rattle.dom_observers.specs.Tables.{none_pending, after_telling, queue_at};
ghost use Rattle.dom_observers.specs.Views.{words_of, change_of, notice_of};
ghost use Rattle.dom_observers.specs.Paths.{path_keys};
ghost use Rattle.dom_observers.specs.Owners.{tables_of, ChangesTables, KeepsTables};

use crate::by_owner::ByOwner;
use crate::change::{Change, Record};
use crate::options::Options;
use dom_base::{Fault, Owner, Refusal};
use dom_tree::Forest;
use node_arena::Key;
use std::alloc::{AllocError, Global};
use std::marker::Model;

/// The mutation observers of all owners (DOM Standard, 4.3 Mutation observers): each owner's registrations, record queues
/// and pending observers. An owner's observers have the numbers 0, 1, .. in the order of their making.
pub struct Observers {
    tables: ByOwner,
    alloc: Global,
}

impl Drop for Observers {
    // Written out, so that the crates above cite it, and do not prove again how each field is let go.
    fn drop(self) {
        let Self { tables, alloc } = self;
    }
}

impl Model for Observers {
    ghost use Rattle.dom_observers.specs.TablesByOwner.{TablesByOwner};

    ghost Value = { TablesByOwner };

    ghost use Rattle.dom_observers.specs.Owners.{all_tables};

    ghost view = { all_tables };
}

impl Observers {
    /// No owner has an observer. No memory is taken yet; it will be taken from `alloc`.
    pub fn new(alloc: Global) -> Self
        ensures { (o : Owners) → tables_of result o ≡ no_tables }
    {
        Observers {
            tables: ByOwner::new(alloc),
            alloc,
        }
    }

    /// Makes an observer of an owner, and gives its number (DOM Standard, constructor of MutationObserver). It is refused
    /// with `Limit` where the owner has made a million, and with `Memory` where memory is refused; then all is as it was.
    pub fn make(&mut self, owner: Owner) -> Result<u32, Fault>
        ensures number { IfOk result (λ k. k ≡ length (tables_of self.old owner).record_queues) }
        ensures tables { OnOk result (ChangesTables owner (with_observer (tables_of self.old owner)) self.old self.new) }
        ensures limit { (result ≡ Err (Fault.Refused Refusal.Limit)) ↔ (past_limit (length (tables_of self.old owner).record_queues) 1 ≡ true) }
        ensures other { IfErr result (λ fault. (fault ≡ Fault.Refused Refusal.Limit) ⊎ (fault ≡ Fault.Memory)) }
        ensures err { OnErr result (KeepsTables self.old self.new) }
    {
        self.tables.prepare(owner)?;
        let Some(table) = self.tables.get_mut(&owner) else {
            unreachable!()
        };
        table.make()
    }

    /// Registers an owner's observer on a node of this owner, or gives its registration there other options (DOM Standard,
    /// observe(); own rule for the owner: nobody is told of changes of another one's nodes). It is refused with `Unknown` where the
    /// owner has no observer of this number, with `TypeFault` where the options ask for no kind of change, and with `Memory` where
    /// memory is refused; then all is as it was.
    pub fn observe(
        &mut self,
        forest: &Forest,
        owner: Owner,
        observer: u32,
        node: Key,
        options: Options,
    ) -> Result<(), Fault>
        requires node_is_node { IsNode forest.now node }
        requires own { (name_of forest.now node).owner ≡ owner }
        ensures tables { OnOk result (ChangesTables owner (observing nat_eq observer node (words_of options) (tables_of self.old owner)) self.old self.new) }
        ensures unknown { (result ≡ Err (Fault.Refused Refusal.Unknown)) ↔ (nat_lt observer (length (tables_of self.old owner).record_queues) ≡ false) }
        ensures no_kind { (result ≡ Err (Fault.Refused Refusal.TypeFault)) ↔
            ((nat_lt observer (length (tables_of self.old owner).record_queues) ≡ true) × (asks_for_nothing (options_of (words_of options)) ≡ true)) }
        ensures other { IfErr result (λ fault. (fault ≡ Fault.Refused Refusal.Unknown) ⊎ ((fault ≡ Fault.Refused Refusal.TypeFault) ⊎ (fault ≡ Fault.Memory))) }
        ensures err { OnErr result (KeepsTables self.old self.new) }
    {
        prove!(forest.name(node).owner == owner);
        let Some(table) = self.tables.get_mut(&owner) else {
            return Err(Fault::Refused(Refusal::Unknown));
        };
        table.observe(observer, node, options)
    }

    /// Whether an owner has an observer of a number.
    pub fn has(&self, owner: Owner, observer: u32) -> bool
        ensures { result ≡ is_some (slice_get (tables_of self.now owner).record_queues observer) }
    {
        match self.tables.get(&owner) {
            Some(table) => table.has(observer),
            None => false,
        }
    }

    /// How many observers an owner has made. Those that come have the numbers from this one on.
    pub fn count(&self, owner: Owner) -> usize
        ensures { result ≡ length (tables_of self.now owner).record_queues }
    {
        match self.tables.get(&owner) {
            Some(table) => table.count(),
            None => 0,
        }
    }

    /// Whether an owner has registrations, so that a change of a node of it may be recorded (own rule). Where no component has had an
    /// observer there is no look-up.
    pub fn is_watched(&self, owner: Owner) -> bool
        ensures { result ≡ not (is_empty (tables_of self.now owner).registrations) }
    {
        let (watched, _) = self.watch(&owner);
        watched
    }

    /// Whether an owner has registrations, as `is_watched` says, and the one node from which what is below it may be observed, where
    /// no other is known (own rule): the forest is to remember of it that it stands above a node of which a record is queued.
    #[inline(always)]
    pub fn watch(&self, owner: &Owner) -> (bool, Option<Key>)
        ensures { result.0 ≡ not (is_empty (tables_of self.now owner.now).registrations) }
    {
        match self.tables.get(owner) {
            Some(table) => table.watch(),
            None => (false, None),
        }
    }

    /// Takes the registrations of an owner's observer away, transient ones too, and empties its record queue, where there is
    /// such an observer, which it answers (DOM Standard, disconnect()). The observer stays pending where it was.
    pub fn disconnect(&mut self, owner: Owner, observer: u32) -> bool
        ensures value { result ≡ nat_lt observer (length (tables_of self.old owner).record_queues) }
        ensures tables { ChangesTables owner (if result then disconnected observer (tables_of self.old owner) else tables_of self.old owner) self.old self.new }
    {
        let Some(table) = self.tables.get_mut(&owner) else {
            return false;
        };
        table.disconnect(observer)
    }

    /// Empties the record queue of an owner's observer, and gives the records in it, if there is such an observer (DOM
    /// Standard, takeRecords()). The observer stays pending where it was.
    pub fn take(&mut self, owner: Owner, observer: u32) -> Option<Vec<Record>>
        ensures records { option_map (λ records. map change_of records.items) result ≡ slice_get (tables_of self.old owner).record_queues observer }
        ensures tables { ChangesTables owner (emptied observer (tables_of self.old owner)) self.old self.new }
    {
        let Some(table) = self.tables.get_mut(&owner) else {
            return None;
        };
        table.take(observer)
    }

    /// Gives the record of a change to the observers of the target's owner that are interested in it, each once, which are
    /// then pending; it answers whether there are some (DOM Standard, queue a mutation record). A change of a node of an
    /// owner without registrations takes no walk, and where nobody is interested one look for each inclusive ancestor serves. No
    /// registration on another node is looked at, but those that came since the last change, or all where the places of those that have
    /// gone were closed up since then.
    /// After a refusal of memory some may have it and others not.
    pub fn queue_record(&mut self, forest: &Forest, change: Change) -> Result<bool, AllocError>
        requires { IsNode forest.now (target_of (change_of change)) }
        ensures taken { IfOk result (λ taken. taken ≡ is_taken nat_eq (path_keys forest.now (target_of (change_of change)))
            (tables_of self.old (name_of forest.now (target_of (change_of change))).owner) (change_of change)) }
        ensures tables { OnOk result (ChangesTables (name_of forest.now (target_of (change_of change))).owner
            (told nat_eq (path_keys forest.now (target_of (change_of change))) (change_of change)
            (tables_of self.old (name_of forest.now (target_of (change_of change))).owner)) self.old self.new) }
    {
        let (owner, _) = forest.lent_name(change.target());
        let Some(table) = self.tables.get_mut(owner) else {
            return Ok(false);
        };
        table.queue_record(forest, change)
    }

    /// Gives a node that leaves a parent its transient registrations: copies of the registrations on the parent's inclusive
    /// ancestors that observe their subtrees (DOM Standard, remove). The parent is still to stand where it stood, and the
    /// registrations are those of the node's owner. A value to which memory was refused is only dropped.
    pub fn transient(&mut self, forest: &Forest, parent: Key, node: Key) -> Result<(), AllocError>
        requires parent_is_node { IsNode forest.now parent }
        requires node_is_node { IsNode forest.now node }
        ensures { OnOk result (ChangesTables (name_of forest.now node).owner
            (left nat_eq node (path_keys forest.now parent) (tables_of self.old (name_of forest.now node).owner)) self.old self.new) }
    {
        let (owner, _) = forest.lent_name(node);
        let Some(table) = self.tables.get_mut(owner) else {
            return Ok(());
        };
        table.add_transients(forest, parent, node)
    }

    /// Empties an owner's set of pending observers, and gives their numbers, in the order in which they became pending (DOM Standard,
    /// notify mutation observers). Where memory is refused, nothing changes.
    pub fn take_pending(&mut self, owner: Owner) -> Result<Vec<u32>, AllocError>
        ensures numbers { IfOk result (λ numbers. numbers.items ≡ (tables_of self.old owner).pending) }
        ensures tables { OnOk result (ChangesTables owner (none_pending (tables_of self.old owner)) self.old self.new) }
        ensures err { OnErr result (KeepsTables self.old self.new) }
    {
        let alloc = self.alloc;
        let Some(table) = self.tables.get_mut(&owner) else {
            return Ok(Vec::new(alloc));
        };
        table.take_pending()
    }

    /// Empties the record queue of an owner's observer, and gives the records in it; the observer's transient registrations are then gone
    /// (DOM Standard, notify mutation observers). There are none of an observer that is not there.
    pub fn tell(&mut self, owner: Owner, observer: u32) -> Vec<Record>
        ensures records { map change_of result.items ≡ queue_at (tables_of self.old owner).record_queues observer }
        ensures tables { ChangesTables owner (after_telling observer (tables_of self.old owner)) self.old self.new }
    {
        let alloc = self.alloc;
        let Some(table) = self.tables.get_mut(&owner) else {
            return Vec::new(alloc);
        };
        table.tell(observer)
    }

    /// Empties an owner's set of pending observers, and gives each with the records of its queue, in order (DOM Standard,
    /// notify mutation observers). Their queues are then empty, and their transient registrations gone. After a refusal of
    /// memory some of the records are lost.
    pub fn notify(&mut self, owner: Owner) -> Result<Vec<(u32, Vec<Record>)>, AllocError>
        ensures notices { IfOk result (λ list. map notice_of list.items ≡ notices (tables_of self.old owner)) }
        ensures tables { OnOk result (ChangesTables owner (notified (tables_of self.old owner)) self.old self.new) }
    {
        let alloc = self.alloc;
        let Some(table) = self.tables.get_mut(&owner) else {
            return Ok(Vec::new(alloc));
        };
        table.notify()
    }
}
