//! Where a node's or an observer's registrations stand in a list.
ghost use Rattle.std.specs.Prelude.{◌≡◌, ℕ, ◌++◌, ◌∷◌, [], nat_eq, OnOk, OnErr, if◌then◌else◌};
ghost use Rattle.indexmap.specs.IndexMap.{get};
ghost use Rattle.dom_observers.specs.Watching.{places_in, places_or, AreThinned};

use crate::registered::{Registered, is_there};
use indexmap::IndexMap;
use std::alloc::{AllocError, Global};
use std::slice;

/// The places of some registrations in a list, in order, and how many of them are counted as gone. One place takes no memory.
#[derive(Drop)]
pub enum Places {
    One(usize),
    More { list: Vec<usize>, gone: usize },
}

impl Places {
    /// The places as a slice.
    pub(crate) fn as_slice(&self) -> &[usize]
        ensures { result.now ≡ places_in self.now }
    {
        match self {
            Places::One(place) => slice::from_ref(place),
            Places::More { list, .. } => list.as_slice(),
        }
    }

    /// Puts a place behind the others. Where memory is refused, these stay as they are.
    pub(crate) fn push(&mut self, alloc: Global, place: usize) -> Result<(), AllocError>
        ensures ok { OnOk result (places_in self.new ≡ places_in self.old ++ place ∷ []) }
        ensures err { OnErr result (places_in self.new ≡ places_in self.old) }
    {
        let both = match self {
            Places::More { list, .. } => {
                list.push(place)?;
                return Ok(());
            }
            Places::One(first) => Vec::from_slice(alloc, &[*first, place])?,
        };
        *self = Places::More {
            list: both,
            gone: 0,
        };
        Ok(())
    }

    /// Drops the places of a list's registrations that have gone. One alone may stay.
    pub(crate) fn drop_gone(&mut self, registrations: &[Registered])
        ensures { AreThinned registrations.now (places_in self.old) (places_in self.new) }
    {
        if let Places::More { list, gone } = self {
            list.retain(|place| is_there(registrations, *place));
            *gone = 0;
        }
    }

    /// Counts one more of a list's registrations here as gone. Where half of them are counted so already, the places of those that
    /// have gone are dropped. So at most two places are looked at for each that goes.
    fn count_gone(&mut self, registrations: &[Registered])
        ensures { AreThinned registrations.now (places_in self.old) (places_in self.new) }
    {
        if let Places::More { list, gone } = self {
            if *gone < list.len() / 2 {
                *gone += 1;
                return;
            }
        }
        self.drop_gone(registrations);
    }
}

/// Puts a place behind those of a node or an observer with a number.
pub(crate) fn put(
    alloc: Global,
    lists: &mut IndexMap<usize, Places>,
    number: usize,
    place: usize,
) -> Result<(), AllocError>
    ensures ok { OnOk result ((x : ℕ) → places_or (get nat_eq lists.new x) ≡
        (if nat_eq number x then places_or (get nat_eq lists.old x) ++ place ∷ [] else places_or (get nat_eq lists.old x))) }
    ensures err { OnErr result ((x : ℕ) → places_or (get nat_eq lists.new x) ≡ places_or (get nat_eq lists.old x)) }
{
    match lists.get_mut(&number) {
        Some(places) => places.push(alloc, place)?,
        None => {
            let _ = lists.insert(number, Places::One(place))?;
        }
    }
    Ok(())
}

/// Counts one more of the registrations on a node with a number as gone, if it has places.
pub(crate) fn count_gone(
    lists: &mut IndexMap<usize, Places>,
    registrations: &[Registered],
    number: usize,
)
    ensures { (x : ℕ) → AreThinned registrations.now (places_or (get nat_eq lists.old x)) (places_or (get nat_eq lists.new x)) }
{
    if let Some(places) = lists.get_mut(&number) {
        places.count_gone(registrations);
    }
}
