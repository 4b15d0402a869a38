//! The signalled slots of each owner, by their numbers.
ghost use Rattle.std.specs.Prelude.{◌≡◌, ◌<◌, ◌++◌, ◌∷◌, ℕ, [], true, false, is_some, nat_eq, length, if◌then◌else◌, OnOk, OnErr};
ghost use Rattle.std.specs.HashMap.{get};
ghost use Rattle.std.specs.Option.{option_map_or};
ghost use Rattle.dom_base.specs.declared.Owner.{Owner as Owners};
ghost use Rattle.dom_model.specs.Names.{is_in, owner_eq};
ghost use Rattle.dom_microtasks.specs.ByOwner.{since_of, numbers_of, since_at, numbers_at, since_in, numbers_in, IsThere};

use crate::owner_numbers::place_of;
use crate::slot_numbers::SlotNumbers;
use dom_base::{NodeName, Owner};
use std::alloc::{AllocError, Global};
use std::collections::HashMap;

/// An owner's signalled slots, by their numbers in the order of their signals, and how many slots had been signalled when
/// they were last taken.
#[derive(Drop)]
pub(crate) struct OwnSlots {
    since: usize,
    numbers: SlotNumbers,
}

impl OwnSlots {
    /// No slots. Takes no memory yet.
    fn new(alloc: Global) -> Self
        ensures numbers { result.numbers ≡ [] }
        ensures since { result.since ≡ 0 }
    {
        OwnSlots {
            since: 0,
            numbers: SlotNumbers::new(alloc),
        }
    }
}

/// The signalled slots of each owner that has had one. Those of the page and of its components, which are counted one by one, stand in
/// a list, and are found without a hash.
#[derive(Drop)]
pub(crate) struct ByOwner {
    listed: Vec<OwnSlots>,
    others: HashMap<Owner, OwnSlots>,
    alloc: Global,
}

impl ByOwner {
    /// No slots.
    pub(crate) fn new(alloc: Global) -> Self
        ensures numbers { (o : Owners) → numbers_of result o ≡ [] }
        ensures since { (o : Owners) → since_of result o ≡ 0 }
    {
        ByOwner {
            listed: Vec::new(alloc),
            others: HashMap::new(alloc),
            alloc,
        }
    }

    /// What is kept of an owner, if it has had a slot.
    fn slots(&self, owner: &Owner) -> Option<&OwnSlots>
        ensures { option_map_or (λ own. own.now.numbers) result [] ≡ numbers_of self.now owner.now }
    {
        match place_of(owner) {
            Some(place) => self.listed.get(place),
            None => self.others.get(owner),
        }
    }

    /// The numbers of an owner's slots.
    pub(crate) fn numbers(&self, owner: &Owner) -> &[u32]
        ensures { result.now ≡ numbers_of self.now owner.now }
    {
        match self.slots(owner) {
            Some(own) => own.numbers.as_slice(),
            None => &[],
        }
    }

    /// Whether a slot is among them.
    pub(crate) fn has(&self, owner: &Owner, number: u32) -> bool
        ensures { result ≡ is_in nat_eq number (numbers_of self.now owner.now) }
    {
        match self.slots(owner) {
            Some(own) => own.numbers.has(number),
            None => false,
        }
    }

    /// Whether it is time for a new table: so many slots count, which are none, and so many were signalled, which are as many as
    /// the places of the list.
    pub(crate) fn is_over(&self, counting: usize, signalled: usize) -> bool
        ensures { result ≡ true → counting ≡ 0 }
    {
        counting == 0 && self.listed.len() <= signalled
    }

    /// Puts a slot that is not among them behind the others of its owner.
    pub(crate) fn push(&mut self, slot: NodeName) -> Result<(), AllocError>
        requires { is_in nat_eq slot.number (numbers_of self.old slot.owner) ≡ false }
        ensures numbers { OnOk result ((o : Owners) →
            numbers_of self.new o ≡ (if owner_eq slot.owner o then numbers_of self.old o ++ slot.number ∷ [] else numbers_of self.old o)) }
        ensures since { (o : Owners) → since_of self.new o ≡ since_of self.old o }
        ensures err { OnErr result ((o : Owners) → numbers_of self.new o ≡ numbers_of self.old o) }
    {
        self.prepare(slot.owner)?;
        match place_of(&slot.owner) {
            Some(place) => push_at(self.alloc, &mut self.listed, place, slot.number),
            None => push_other(self.alloc, &mut self.others, slot.owner, slot.number),
        }
    }

    /// Makes an owner's entry where there is none.
    fn prepare(&mut self, owner: Owner) -> Result<(), AllocError>
        ensures numbers { (o : Owners) → numbers_of self.new o ≡ numbers_of self.old o }
        ensures since { (o : Owners) → since_of self.new o ≡ since_of self.old o }
        ensures there { OnOk result (IsThere self.new owner) }
    {
        if let Some(place) = place_of(&owner) {
            return reach(self.alloc, &mut self.listed, place);
        }
        if self.others.contains_key(&owner) {
            return Ok(());
        }
        drop(self.others.insert(owner, OwnSlots::new(self.alloc))?);
        Ok(())
    }

    /// Takes an owner's slots away, of which there are some; those that come are behind so many.
    pub(crate) fn empty(&mut self, owner: Owner, since: usize)
        requires { 0 < length (numbers_of self.old owner) }
        ensures numbers { (o : Owners) → numbers_of self.new o ≡ (if owner_eq owner o then [] else numbers_of self.old o) }
        ensures since { (o : Owners) → since_of self.new o ≡ (if owner_eq owner o then since else since_of self.old o) }
    {
        match place_of(&owner) {
            Some(place) => empty_at(&mut self.listed, place, since),
            None => empty_other(&mut self.others, owner, since),
        }
    }
}

/// Lets a list have a place, with no slots at each new one.
fn reach(alloc: Global, listed: &mut Vec<OwnSlots>, place: usize) -> Result<(), AllocError>
    requires { place < 65536 }
    ensures numbers { (i : ℕ) → numbers_at listed.new.items i ≡ numbers_at listed.old.items i }
    ensures since { (i : ℕ) → since_at listed.new.items i ≡ since_at listed.old.items i }
    ensures there { OnOk result (place < length listed.new.items) }
{
    for _ in listed.len()..place + 1 {
        listed.push(OwnSlots::new(alloc))?;
    }
    Ok(())
}

/// Puts a slot that is not among those at a place of a list behind them.
fn push_at(
    alloc: Global,
    listed: &mut Vec<OwnSlots>,
    place: usize,
    number: u32,
) -> Result<(), AllocError>
    requires there { place < length listed.old.items }
    requires new { is_in nat_eq number (numbers_at listed.old.items place) ≡ false }
    ensures numbers { OnOk result ((i : ℕ) → numbers_at listed.new.items i ≡
        (if nat_eq place i then numbers_at listed.old.items i ++ number ∷ [] else numbers_at listed.old.items i)) }
    ensures since { (i : ℕ) → since_at listed.new.items i ≡ since_at listed.old.items i }
    ensures err { OnErr result ((i : ℕ) → numbers_at listed.new.items i ≡ numbers_at listed.old.items i) }
{
    listed[place].numbers.push(alloc, number)
}

/// Takes the slots at a place of a list away.
fn empty_at(listed: &mut Vec<OwnSlots>, place: usize, since: usize)
    requires { place < length listed.old.items }
    ensures numbers { (i : ℕ) → numbers_at listed.new.items i ≡ (if nat_eq place i then [] else numbers_at listed.old.items i) }
    ensures since { (i : ℕ) → since_at listed.new.items i ≡ (if nat_eq place i then since else since_at listed.old.items i) }
{
    let own = &mut listed[place];
    own.since = since;
    own.numbers.clear();
}

/// Puts a slot that is not among those of an owner behind them.
fn push_other(
    alloc: Global,
    others: &mut HashMap<Owner, OwnSlots>,
    owner: Owner,
    number: u32,
) -> Result<(), AllocError>
    requires there { is_some (get owner_eq others.old owner) ≡ true }
    requires new { is_in nat_eq number (numbers_in others.old owner) ≡ false }
    ensures numbers { OnOk result ((o : Owners) → numbers_in others.new o ≡
        (if owner_eq owner o then numbers_in others.old o ++ number ∷ [] else numbers_in others.old o)) }
    ensures since { (o : Owners) → since_in others.new o ≡ since_in others.old o }
    ensures err { OnErr result ((o : Owners) → numbers_in others.new o ≡ numbers_in others.old o) }
{
    if let Some(own) = others.get_mut(&owner) {
        own.numbers.push(alloc, number)?;
    }
    Ok(())
}

/// Takes the slots of an owner away.
fn empty_other(others: &mut HashMap<Owner, OwnSlots>, owner: Owner, since: usize)
    requires { is_some (get owner_eq others.old owner) ≡ true }
    ensures numbers { (o : Owners) → numbers_in others.new o ≡ (if owner_eq owner o then [] else numbers_in others.old o) }
    ensures since { (o : Owners) → since_in others.new o ≡ (if owner_eq owner o then since else since_in others.old o) }
{
    if let Some(own) = others.get_mut(&owner) {
        own.since = since;
        own.numbers.clear();
    }
}
