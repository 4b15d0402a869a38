//! What one owner has of observers.
ghost use Rattle.std.specs.Prelude.{◌≡◌, ◌↔◌, ◌⊎◌, ℕ, nat_eq, nat_lt, true, false, not, [], map, fold, length, option_map, slice_get, is_some, IfOk, IfErr};
ghost use Rattle.std.specs.Prelude.{◌++◌, ◌∷◌, OnOk, OnErr, if◌then◌else◌};
ghost use Rattle.dom_model.specs.Names.{is_empty};
ghost use Rattle.dom_model.specs.CommandRefusals.{past_limit};
ghost use Rattle.dom_model.specs.Output.{Change as Changed};
ghost use Rattle.dom_model.specs.Observers.{options_of, asks_for_nothing, target_of, interested, record_for};
ghost use Rattle.dom_observers.specs.Tables.{no_tables, with_observer, observing, disconnected, emptied, appended, given, is_taken, told, left};
ghost use Rattle.dom_observers.specs.Tables.{notices, notified, none_pending, after_telling, queue_at};
ghost use Rattle.dom_observers.specs.Views.{words_of, change_of, notice_of};
ghost use Rattle.dom_observers.specs.TableView.{table_of};
ghost use Rattle.dom_observers.specs.Numbers.{numbers_in};
ghost use Rattle.dom_observers.specs.Paths.{path_keys};
ghost use Rattle.dom_observers.specs.InterestedObservers.{record_of};
ghost use Rattle.dom_tree.specs.Forest.{IsNode};

use crate::change::{Change, Record};
use crate::interested::InterestedObservers;
use crate::numbers::Numbers;
use crate::options::Options;
use crate::registrations::Registrations;
use crate::removal::Removal;
use dom_base::{Fault, MAX_NODES, Refusal};
use dom_tree::Forest;
use node_arena::Key;
use std::alloc::{AllocError, Global};
use std::mem;
use std::rc::Rc;

/// An owner's registrations in the order of their making, its observers' record queues by their numbers, and the pending
/// observers in the order in which they became pending (DOM Standard, 4.3 Mutation observers).
#[derive(Drop)]
pub struct Table {
    registrations: Registrations,
    queues: Vec<Vec<Record>>,
    pending: Numbers,
    alloc: Global,
}

impl Table {
    /// An owner without observers.
    pub(crate) fn new(alloc: Global) -> Self
        ensures { table_of result ≡ no_tables }
    {
        Table {
            registrations: Registrations::new(alloc),
            queues: Vec::new(alloc),
            pending: Numbers::Empty,
            alloc,
        }
    }

    /// Whether an observer is registered on a node, and the one node from which what is below it may be observed, where no other is
    /// known (own rule).
    #[inline(always)]
    pub(crate) fn watch(&self) -> (bool, Option<Key>)
        ensures { result.0 ≡ not (is_empty (table_of self.now).registrations) }
    {
        if self.registrations.is_empty() {
            return (false, None);
        }
        (true, self.registrations.only_above())
    }

    /// Whether there is an observer of a number.
    pub(crate) fn has(&self, observer: u32) -> bool
        ensures { result ≡ is_some (slice_get (table_of self.now).record_queues observer) }
    {
        self.queues.get(observer as usize).is_some()
    }

    /// How many observers were made.
    pub(crate) fn count(&self) -> usize
        ensures { result ≡ length (table_of self.now).record_queues }
    {
        self.queues.len()
    }

    /// Makes an observer, and gives its number (DOM Standard, constructor of MutationObserver).
    pub(crate) fn make(&mut self) -> Result<u32, Fault>
        ensures number { IfOk result (λ k. k ≡ length (table_of self.old).record_queues) }
        ensures tables { OnOk result (table_of self.new ≡ with_observer (table_of self.old)) }
        ensures limit { (result ≡ Err (Fault.Refused Refusal.Limit)) ↔ (past_limit (length (table_of self.old).record_queues) 1 ≡ true) }
        ensures other { IfErr result (λ fault. (fault ≡ Fault.Refused Refusal.Limit) ⊎ (fault ≡ Fault.Memory)) }
        ensures err { OnErr result (table_of self.new ≡ table_of self.old) }
    {
        let number = self.queues.len();
        if number >= MAX_NODES as usize {
            return Err(Fault::Refused(Refusal::Limit));
        }
        self.queues.push(Vec::new(self.alloc))?;
        Ok(number as u32)
    }

    /// Registers an observer on a node, or gives its registration there other options (DOM Standard, observe()).
    pub(crate) fn observe(
        &mut self,
        observer: u32,
        node: Key,
        options: Options,
    ) -> Result<(), Fault>
        ensures tables { OnOk result (table_of self.new ≡ observing nat_eq observer node (words_of options) (table_of self.old)) }
        ensures unknown { (result ≡ Err (Fault.Refused Refusal.Unknown)) ↔ (nat_lt observer (length (table_of self.old).record_queues) ≡ false) }
        ensures no_kind { (result ≡ Err (Fault.Refused Refusal.TypeFault)) ↔
            ((nat_lt observer (length (table_of self.old).record_queues) ≡ true) × (asks_for_nothing (options_of (words_of options)) ≡ true)) }
        ensures other { IfErr result (λ fault. (fault ≡ Fault.Refused Refusal.Unknown) ⊎ ((fault ≡ Fault.Refused Refusal.TypeFault) ⊎ (fault ≡ Fault.Memory))) }
        ensures err { OnErr result (table_of self.new ≡ table_of self.old) }
    {
        if observer as usize >= self.queues.len() {
            return Err(Fault::Refused(Refusal::Unknown));
        }
        let options = options.completed();
        if options.ask_for_nothing() {
            return Err(Fault::Refused(Refusal::TypeFault));
        }
        self.registrations
            .observe(observer, node, Rc::new(self.alloc, options)?)?;
        Ok(())
    }

    /// Takes an observer's registrations away, transient ones too, and empties its record queue, where there is such an
    /// observer (DOM Standard, disconnect()).
    pub(crate) fn disconnect(&mut self, observer: u32) -> bool
        ensures value { result ≡ nat_lt observer (length (table_of self.old).record_queues) }
        ensures tables { table_of self.new ≡ (if result then disconnected observer (table_of self.old) else table_of self.old) }
    {
        if self.take(observer).is_none() {
            return false;
        }
        self.registrations.remove(&Removal::Of(observer));
        true
    }

    /// Empties an observer's record queue, and gives the records in it (DOM Standard, takeRecords()).
    pub(crate) fn take(&mut self, observer: u32) -> Option<Vec<Record>>
        ensures records { option_map (λ records. map change_of records.items) result ≡ slice_get (table_of self.old).record_queues observer }
        ensures tables { table_of self.new ≡ emptied observer (table_of self.old) }
    {
        let alloc = self.alloc;
        let queue = self.queues.get_mut(observer as usize)?;
        Some(mem::replace(queue, Vec::new(alloc)))
    }

    /// Gives the record of a change of a node to the observers that are interested in it (DOM Standard, queue a mutation
    /// record). The last of them gets the change itself. Where nobody is, it costs a look for each inclusive ancestor.
    pub(crate) fn queue_record(
        &mut self,
        forest: &Forest,
        change: Change,
    ) -> Result<bool, AllocError>
        requires { IsNode forest.now (target_of (change_of change)) }
        ensures taken { IfOk result (λ taken. taken ≡ is_taken nat_eq (path_keys forest.now (target_of (change_of change))) (table_of self.old)
            (change_of change)) }
        ensures tables { OnOk result (table_of self.new ≡ told nat_eq (path_keys forest.now (target_of (change_of change))) (change_of change)
            (table_of self.old)) }
    {
        let interested = self.registrations.interested_in(forest, &change)?;
        self.give_to(&interested, change)
    }

    /// Gives the record of a change to these observers, and answers whether there are some. The last of them gets the change
    /// itself.
    fn give_to(
        &mut self,
        interested: &InterestedObservers,
        change: Change,
    ) -> Result<bool, AllocError>
        ensures taken { IfOk result (λ taken. taken ≡ not (is_empty (numbers_in interested.now.observers))) }
        ensures tables { OnOk result (table_of self.new ≡
            fold (λ t k. given (record_of interested.now (change_of change) k) t k) (table_of self.old) (numbers_in interested.now.observers)) }
    {
        let Some((last, others)) = interested.observers.as_slice().split_last() else {
            return Ok(false);
        };
        self.give_copies(others, interested, &change)?;
        self.give(*last, change.recorded(interested.get_old(*last)))?;
        Ok(true)
    }

    /// Gives each of these observers a copy of a change as its record.
    fn give_copies(
        &mut self,
        observers: &[u32],
        interested: &InterestedObservers,
        change: &Change,
    ) -> Result<(), AllocError>
        ensures { OnOk result (table_of self.new ≡
            fold (λ t k. given (record_of interested.now (change_of change.now) k) t k) (table_of self.old) observers.now) }
    {
        let alloc = self.alloc;
        for observer in observers {
            let copy = change.copied(alloc, interested.get_old(*observer))?;
            self.give(*observer, copy)?;
        }
        Ok(())
    }

    /// Puts a record behind those of an observer, which is then pending.
    #[inline(always)]
    fn give(&mut self, observer: u32, entry: Record) -> Result<(), AllocError>
        ensures { OnOk result (table_of self.new ≡ given (change_of entry) (table_of self.old) observer) }
    {
        self.append(observer, entry)?;
        self.pending.insert(self.alloc, observer)?;
        Ok(())
    }

    /// Puts a record behind those of an observer.
    #[inline(always)]
    fn append(&mut self, observer: u32, entry: Record) -> Result<(), AllocError>
        ensures { OnOk result (table_of self.new ≡ appended (change_of entry) (table_of self.old) observer) }
    {
        match self.queues.get_mut(observer as usize) {
            Some(queue) => push_record(queue, entry),
            None => Ok(()),
        }
    }

    /// Adds the transient registrations of a node that leaves a parent (DOM Standard, remove). Where it gets none, it costs
    /// a look for each inclusive ancestor of the parent, and where nobody is registered, nothing.
    pub(crate) fn add_transients(
        &mut self,
        forest: &Forest,
        parent: Key,
        node: Key,
    ) -> Result<(), AllocError>
        requires { IsNode forest.now parent }
        ensures { OnOk result (table_of self.new ≡ left nat_eq node (path_keys forest.now parent) (table_of self.old)) }
    {
        if self.registrations.is_empty() {
            return Ok(());
        }
        self.registrations.add_transients(forest, parent, node)
    }

    /// Empties the set of pending observers, and gives their numbers, in order (DOM Standard, notify mutation observers). Where memory is
    /// refused, nothing changes.
    pub(crate) fn take_pending(&mut self) -> Result<Vec<u32>, AllocError>
        ensures numbers { IfOk result (λ numbers. numbers.items ≡ (table_of self.old).pending) }
        ensures tables { OnOk result (table_of self.new ≡ none_pending (table_of self.old)) }
        ensures err { OnErr result (table_of self.new ≡ table_of self.old) }
    {
        let numbers = self.pending.as_slice().to_vec(self.alloc)?;
        self.pending = Numbers::Empty;
        Ok(numbers)
    }

    /// Empties an observer's record queue, and gives the records in it; the observer's transient registrations are then gone (DOM
    /// Standard, notify mutation observers).
    pub(crate) fn tell(&mut self, observer: u32) -> Vec<Record>
        ensures records { map change_of result.items ≡ queue_at (table_of self.old).record_queues observer }
        ensures tables { table_of self.new ≡ after_telling observer (table_of self.old) }
    {
        let alloc = self.alloc;
        let records = self.take(observer).unwrap_or(Vec::new(alloc));
        self.registrations
            .remove(&Removal::TransientsOf(Numbers::One(observer)));
        records
    }

    /// Empties the set of pending observers, and gives each with its records, in order; these are then gone from the queues,
    /// and the observers' transient registrations are gone too (DOM Standard, notify mutation observers).
    pub(crate) fn notify(&mut self) -> Result<Vec<(u32, Vec<Record>)>, AllocError>
        ensures notices { IfOk result (λ list. map notice_of list.items ≡ notices (table_of self.old)) }
        ensures tables { OnOk result (table_of self.new ≡ notified (table_of self.old)) }
    {
        let alloc = self.alloc;
        let pending = mem::replace(&mut self.pending, Numbers::Empty);
        let mut notices = Vec::new(alloc);
        for observer in pending.as_slice() {
            let records = self.take(*observer).unwrap_or(Vec::new(alloc));
            notices.push((*observer, records))?;
        }
        self.registrations.remove(&Removal::TransientsOf(pending));
        Ok(notices)
    }
}

/// Puts a record behind those of a queue. The first one takes memory for itself alone.
#[inline(always)]
fn push_record(queue: &mut Vec<Record>, entry: Record) -> Result<(), AllocError>
    ensures { OnOk result (queue.new.items ≡ queue.old.items ++ entry ∷ []) }
{
    if queue.is_empty() {
        queue.reserve_exact(1)?;
    }
    queue.push(entry)?;
    Ok(())
}
