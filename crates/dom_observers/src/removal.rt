//! Which registrations are taken away.
ghost use Rattle.std.specs.Prelude.{◌≡◌, ◌∷◌, [], false};
ghost use Rattle.std.specs.Option.{option_map_or};
ghost use Rattle.dom_observers.specs.Views.{registration_of, there_in};
ghost use Rattle.dom_observers.specs.Removals.{goes, HaveLeft};

use crate::numbers::Numbers;
use crate::registered::{Registered, there_at};
use node_arena::Key;

/// Which registrations go: all of an observer (DOM Standard, disconnect()), the transient ones of some observers (DOM Standard,
/// notify mutation observers), or the transient copies of the one that an observer asked for on a node (DOM Standard, observe()).
#[derive(Drop)]
pub enum Removal {
    Of(u32),
    TransientsOf(Numbers),
    CopiesOf(u32, Key),
}

impl Removal {
    /// Whether a registration goes.
    pub(crate) fn takes(&self, registered: &Registered) -> bool
        ensures { result ≡ goes self.now (registration_of registered.now) }
    {
        match self {
            Removal::Of(observer) => registered.observer == *observer,
            Removal::TransientsOf(observers) => {
                registered.is_transient() && observers.contains(registered.observer)
            }
            Removal::CopiesOf(observer, node) => registered.stems_from(*observer, *node),
        }
    }
    /// Whether a place of a list has one that goes.
    fn takes_at(&self, registrations: &[Registered], place: usize) -> bool
        ensures { result ≡ option_map_or (goes self.now) (there_in registrations.now place) false }
    {
        match there_at(registrations, place) {
            Some(registered) => self.takes(registered),
            None => false,
        }
    }

    /// Takes the registration in a place away if it goes, and answers how many went.
    fn take_at(&self, registrations: &mut Vec<Registered>, place: usize) -> usize
        ensures { HaveLeft self.now (place ∷ []) result registrations.old.items registrations.new.items }
    {
        if !self.takes_at(registrations.as_slice(), place) {
            return 0;
        }
        registrations[place].has_gone = true;
        1
    }

    /// Takes those away that go of the registrations in some places, and answers how many went. The others stay in their places.
    pub(crate) fn take_in(&self, registrations: &mut Vec<Registered>, places: &[usize]) -> usize
        ensures { HaveLeft self.now places.now result registrations.old.items registrations.new.items }
    {
        let mut went = 0;
        for place in places {
            went += self.take_at(registrations, *place);
        }
        went
    }
}
