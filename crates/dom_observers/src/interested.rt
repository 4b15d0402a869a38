//! The observers that take the record of a change.
ghost use Rattle.std.specs.Prelude.{◌≡◌, nat_eq, fold, IfOk, OnOk};
ghost use Rattle.std.specs.List.{list_any};
ghost use Rattle.dom_model.specs.Observers.{target_of};
ghost use Rattle.dom_observers.specs.Views.{change_of};
ghost use Rattle.dom_observers.specs.Taking.{none_found, and_found, found_by, picked};
ghost use Rattle.dom_observers.specs.InterestedObservers.{found_of, HasFound};
ghost use Rattle.dom_observers.specs.Numbers.{numbers_in};
ghost use Rattle.dom_tree.specs.Forest.{IsNode};

use crate::change::Change;
use crate::numbers::Numbers;
use crate::registered::{Registered, there_at};
use crate::watched::Watched;
use dom_tree::Forest;
use std::alloc::{AllocError, Global};

/// The observers that take the record of a change, in their order, and those of them that asked for the old value (DOM
/// Standard, queue a mutation record: interested observers).
#[derive(Drop)]
pub struct InterestedObservers {
    pub observers: Numbers,
    with_old: Numbers,
    alloc: Global,
}

impl InterestedObservers {
    /// No observers. It takes no memory yet.
    pub(crate) fn new(alloc: Global) -> Self
        ensures { found_of result ≡ none_found }
    {
        InterestedObservers {
            observers: Numbers::Empty,
            with_old: Numbers::Empty,
            alloc,
        }
    }

    /// The interested observers of a change, by an owner's registrations and their places, from the changed node upwards.
    pub(crate) fn of(
        alloc: Global,
        forest: &Forest,
        registrations: &[Registered],
        watched: &Watched,
        change: &Change,
    ) -> Result<InterestedObservers, AllocError>
        requires { IsNode forest.now (target_of (change_of change.now)) }
        ensures { IfOk result (HasFound forest.now registrations.now watched.now (change_of change.now)) }
    {
        forest.law_nodes_stand_once();
        let target = change.target();
        let mut interested = InterestedObservers::new(alloc);
        interested.add_from(registrations, watched.places(target), change)?;
        let mut at = watched.nearest_above(forest, forest.parent(target));
        while let Some(node) = at {
            interested.add_from(registrations, watched.places(node), change)?;
            at = watched.nearest_above(forest, forest.parent(node));
        }
        Ok(interested)
    }

    /// Adds the observers of the registrations in some places that fit a change.
    fn add_from(
        &mut self,
        registrations: &[Registered],
        places: &[usize],
        change: &Change,
    ) -> Result<(), AllocError>
        ensures { OnOk result (found_of self.new ≡
            fold (found_by (change_of change.now)) (found_of self.old) (picked registrations.now places.now)) }
    {
        for place in places {
            if let Some(registered) = there_at(registrations, *place) {
                if registered.fits(change) {
                    self.add(registered.observer, registered.options.ask_for_old(change))?;
                }
            }
        }
        Ok(())
    }

    /// Adds an observer where it is not there yet, and where it asks for the old value, that too.
    fn add(&mut self, observer: u32, with_old: bool) -> Result<(), AllocError>
        ensures { OnOk result (found_of self.new ≡ and_found (found_of self.old) observer with_old) }
    {
        self.observers.insert(self.alloc, observer)?;
        if with_old {
            self.with_old.insert(self.alloc, observer)?;
        }
        Ok(())
    }

    /// Whether an observer gets the old value.
    pub(crate) fn get_old(&self, observer: u32) -> bool
        ensures { result ≡ list_any (nat_eq observer) (numbers_in self.now.with_old) }
    {
        self.with_old.contains(observer)
    }
}
