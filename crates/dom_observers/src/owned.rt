//! Whose the registrations are, and which are transient.
ghost use Rattle.std.specs.Prelude.{◌≡◌, ℕ, nat_eq, true, OnOk};
ghost use Rattle.dom_model.specs.Names.{is_in};
ghost use Rattle.dom_observers.specs.Views.{registration_of};
ghost use Rattle.dom_observers.specs.Removals.{goes};
ghost use Rattle.dom_observers.specs.Watching.{among, AreThinned};

use crate::places::{Places, put};
use crate::registered::Registered;
use crate::removal::Removal;
use indexmap::IndexMap;
use std::alloc::{AllocError, Global};

/// Places of a list among which are those of each observer's registrations, and those of the transient ones (own rule).
#[derive(Drop)]
pub struct Owned {
    observers: IndexMap<usize, Places>,
    transients: Places,
    alloc: Global,
}

impl Owned {
    /// No places. It takes no memory yet.
    pub(crate) fn new(alloc: Global) -> Self {
        Owned {
            observers: IndexMap::new(alloc),
            transients: Places::More {
                list: Vec::new(alloc),
                gone: 0,
            },
            alloc,
        }
    }

    /// Adds the place of a registration to those of its observer, and to the transient ones where it is one.
    pub(crate) fn add(&mut self, registered: &Registered, place: usize) -> Result<(), AllocError>
        ensures stay { (removal : Removal) (i : ℕ) → is_in nat_eq i (among self.old removal) ≡ true → is_in nat_eq i (among self.new removal) ≡ true }
        ensures found { OnOk result ((removal : Removal) → goes removal (registration_of registered.now) ≡ true
            → is_in nat_eq place (among self.new removal) ≡ true) }
    {
        let observer = registered.observer as usize;
        put(self.alloc, &mut self.observers, observer, place)?;
        if !registered.is_transient() {
            return Ok(());
        }
        self.transients.push(self.alloc, place)
    }

    /// The places among which are those of the registrations that go.
    pub(crate) fn among(&self, removal: &Removal) -> &[usize]
        ensures { result.now ≡ among self.now removal.now }
    {
        match removal {
            Removal::Of(observer) => match self.observers.get(&(*observer as usize)) {
                Some(places) => places.as_slice(),
                None => &[],
            },
            _ => self.transients.as_slice(),
        }
    }

    /// Drops places of registrations that have gone, of those among which a removal finds its own.
    pub(crate) fn drop_gone(&mut self, registrations: &[Registered], removal: &Removal)
        ensures { (r : Removal) → AreThinned registrations.now (among self.old r) (among self.new r) }
    {
        match removal {
            Removal::Of(observer) => {
                if let Some(places) = self.observers.get_mut(&(*observer as usize)) {
                    places.drop_gone(registrations);
                }
            }
            _ => self.transients.drop_gone(registrations),
        }
    }
}
