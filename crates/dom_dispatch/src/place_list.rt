//! The places of one node's listeners in a table.
ghost use Rattle.std.specs.Prelude.{◌≡◌, ◌++◌, ◌∷◌, [], ℕ, List, filter, nat_eq, not, if◌then◌else◌, IfOk, OnOk, OnErr};
ghost use Rattle.dom_model.specs.Names.{text_eq};
ghost use Rattle.dom_dispatch.specs.Tables.{first_in, rest_in, listed_under, places_in, MayPut};

use std::alloc::{AllocError, Global};
use std::collections::BTreeMap;
use std::{mem, slice};

/// How many places of a node stand in one list. Those of the listeners that come later stand by their types.
const FEW: usize = 8;

/// The places of a node's listeners in order. Most nodes have one, which takes no memory beside the list.
#[derive(Drop)]
pub(crate) enum PlaceList {
    Empty,
    One(usize),
    More(Box<Vec<usize>>),
    ByType(Box<PlacesByType>),
}

/// The places of the listeners that came first at a node, of any type, and for each type the places of those that came later. They are
/// ordered by their types and not hashed, so that no choice of types makes them slow.
#[derive(Drop)]
pub(crate) struct PlacesByType {
    first: Vec<usize>,
    rest: BTreeMap<String, Vec<usize>>,
}

impl PlaceList {
    /// The places of the listeners that came first, of any type.
    #[inline(always)]
    pub(crate) fn first(&self) -> &[usize]
        ensures { result.now ≡ first_in self.now }
    {
        match self {
            PlaceList::Empty => &[],
            PlaceList::One(place) => slice::from_ref(place),
            PlaceList::More(places) => places.as_slice(),
            PlaceList::ByType(places) => places.first.as_slice(),
        }
    }

    /// The places of the listeners that came later and are of this type.
    #[inline(always)]
    pub(crate) fn rest(&self, event: &str) -> &[usize]
        ensures { result.now ≡ rest_in self.now event.now }
    {
        match self {
            PlaceList::ByType(places) => places.of(event),
            _ => &[],
        }
    }

    /// Puts the place of a listener of this type behind the others. Where memory is refused, the list is as it was.
    pub(crate) fn push(
        &mut self,
        alloc: Global,
        event: &str,
        place: usize,
    ) -> Result<(), AllocError>
        ensures ok { OnOk result ((t : List ℕ) → MayPut (text_eq event.now t) place (places_in self.old t) (places_in self.new t)) }
        ensures err { OnErr result ((t : List ℕ) → places_in self.new t ≡ places_in self.old t) }
    {
        match self {
            PlaceList::Empty => *self = PlaceList::One(place),
            PlaceList::One(first) => *self = two(alloc, *first, place)?,
            PlaceList::More(places) if places.len() < FEW => places.push(place)?,
            PlaceList::More(places) => {
                let mut by_type = PlacesByType::new(alloc)?;
                by_type.push(alloc, event, place)?;
                by_type.first = mem::replace(&mut **places, Vec::new(alloc));
                *self = PlaceList::ByType(by_type);
            }
            PlaceList::ByType(places) => places.push(alloc, event, place)?,
        }
        Ok(())
    }

    /// Takes the place of a listener of this type out of the list.
    pub(crate) fn remove(&mut self, event: &str, place: usize)
        ensures first { first_in self.new ≡ filter (λ j. not (nat_eq j place)) (first_in self.old) }
        ensures rest { (t : List ℕ) → rest_in self.new t ≡
            (if text_eq event.now t then filter (λ j. not (nat_eq j place)) (rest_in self.old t) else rest_in self.old t) }
    {
        match self {
            PlaceList::Empty => {}
            PlaceList::One(only) => {
                if *only == place {
                    *self = PlaceList::Empty;
                }
            }
            PlaceList::More(places) => places.retain(|other| *other != place),
            PlaceList::ByType(places) => places.remove(event, place),
        }
    }
}

/// A list of two places.
fn two(alloc: Global, first: usize, second: usize) -> Result<PlaceList, AllocError>
    ensures { IfOk result (λ list. (t : List ℕ) → places_in list t ≡ first ∷ second ∷ []) }
{
    let places = vec![in alloc; first, second]?;
    Ok(PlaceList::More(Box::new(alloc, places)?))
}

impl PlacesByType {
    /// No places.
    fn new(alloc: Global) -> Result<Box<Self>, AllocError>
        ensures { IfOk result (λ places. (t : List ℕ) → listed_under places.value.rest t ≡ []) }
    {
        let places = PlacesByType {
            first: Vec::new(alloc),
            rest: BTreeMap::new(alloc),
        };
        Ok(Box::new(alloc, places)?)
    }

    /// The places of the listeners that came later and are of this type.
    fn of(&self, event: &str) -> &[usize]
        ensures { result.now ≡ listed_under self.now.rest event.now }
    {
        match self.rest.get(event) {
            Some(places) => places.as_slice(),
            None => &[],
        }
    }

    /// Puts the place of a listener of this type behind the others. Where memory is refused, the places are as they were.
    fn push(&mut self, alloc: Global, event: &str, place: usize) -> Result<(), AllocError>
        ensures first { self.new.first ≡ self.old.first }
        ensures ok { OnOk result ((t : List ℕ) → listed_under self.new.rest t ≡
            (if text_eq event.now t then listed_under self.old.rest t ++ place ∷ [] else listed_under self.old.rest t)) }
        ensures err { OnErr result ((t : List ℕ) → listed_under self.new.rest t ≡ listed_under self.old.rest t) }
    {
        match self.rest.get_mut(event) {
            Some(places) => places.push(place)?,
            None => {
                let places = vec![in alloc; place]?;
                let _ = self.rest.insert(String::from_str(alloc, event)?, places)?;
            }
        }
        Ok(())
    }

    /// Takes the place of a listener of this type out of the places.
    fn remove(&mut self, event: &str, place: usize)
        ensures first { self.new.first.items ≡ filter (λ j. not (nat_eq j place)) self.old.first.items }
        ensures rest { (t : List ℕ) → listed_under self.new.rest t ≡
            (if text_eq event.now t then filter (λ j. not (nat_eq j place)) (listed_under self.old.rest t) else listed_under self.old.rest t) }
    {
        self.first.retain(|other| *other != place);
        if let Some(places) = self.rest.get_mut(event) {
            places.retain(|other| *other != place);
        }
    }
}
