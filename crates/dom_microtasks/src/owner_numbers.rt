//! A number for each owner.
ghost use Rattle.std.specs.Prelude.{◌≡◌, ℕ, ◌<◌, nat_eq, slice_index_or, if◌then◌else◌, OnOk, OnErr};
ghost use Rattle.std.specs.Option.{ForSome};
ghost use Rattle.dom_base.specs.declared.Owner.{Owner as Owners};
ghost use Rattle.dom_model.specs.Names.{owner_eq};
ghost use Rattle.dom_microtasks.specs.OwnerNumbers.{place_of, number_at};

use dom_base::Owner;
use std::alloc::{AllocError, Global};
use std::collections::HashMap;

/// How many owners have a place in the list at most.
const PLACES: u32 = 65_536;

/// A number for each owner, 0 for one that was not given any. Those of the page and of its components, which are counted one by one,
/// stand in a list, and are found without a hash.
#[derive(Drop)]
pub(crate) struct OwnerNumbers {
    listed: Vec<usize>,
    others: HashMap<Owner, usize>,
}

impl OwnerNumbers {
    /// All have 0. Takes no memory yet.
    pub(crate) fn new(alloc: Global) -> Self
        ensures { (o : Owners) → number_at result o ≡ 0 }
    {
        OwnerNumbers {
            listed: Vec::new(alloc),
            others: HashMap::new(alloc),
        }
    }

    /// The number of an owner.
    #[inline(always)]
    pub(crate) fn get(&self, owner: &Owner) -> usize
        ensures { result ≡ number_at self.now owner.now }
    {
        match place_of(owner) {
            Some(place) => self.listed.get(place).copied().unwrap_or(0),
            None => self.others.get(owner).copied().unwrap_or(0),
        }
    }

    /// Gives an owner a number. Where memory is refused all have the numbers that they had.
    pub(crate) fn set(&mut self, owner: Owner, number: usize) -> Result<(), AllocError>
        ensures ok { OnOk result ((o : Owners) → number_at self.new o ≡ (if owner_eq owner o then number else number_at self.old o)) }
        ensures err { OnErr result ((o : Owners) → number_at self.new o ≡ number_at self.old o) }
    {
        match place_of(&owner) {
            Some(place) => put(&mut self.listed, place, number)?,
            None => {
                let _ = self.others.insert(owner, number)?;
            }
        }
        Ok(())
    }

    /// Gives an owner 0.
    pub(crate) fn clear(&mut self, owner: Owner)
        ensures { (o : Owners) → number_at self.new o ≡ (if owner_eq owner o then 0 else number_at self.old o) }
    {
        match place_of(&owner) {
            Some(place) => put_zero(&mut self.listed, place),
            None => {
                if let Some(number) = self.others.get_mut(&owner) {
                    *number = 0;
                }
            }
        }
    }
}

/// The place of the page or of a component of it in the list, none of another owner.
#[tactic(auto, unfolding(crate::specs::OwnerNumbers::placed))]
pub(crate) fn place_of(owner: &Owner) -> Option<usize>
    ensures value { result ≡ place_of owner.now }
    ensures small { ForSome result (λ place. place < 65536) }
{
    let Owner::Component(path) = owner else {
        return Some(0);
    };
    match path.parts {
        [number, 0, 0, 0, 0, 0, 0, 0] if path.depth == 1 && number != 0 && number < PLACES => {
            Some(number as usize)
        }
        _ => None,
    }
}

/// Puts a number into a place of a list, which has zeros behind it.
fn put(numbers: &mut Vec<usize>, place: usize, number: usize) -> Result<(), AllocError>
    requires { place < 65536 }
    ensures ok { OnOk result ((i : ℕ) →
        slice_index_or numbers.new.items i 0 ≡ (if nat_eq place i then number else slice_index_or numbers.old.items i 0)) }
    ensures err { OnErr result (numbers.new.items ≡ numbers.old.items) }
{
    if place >= numbers.len() {
        numbers.resize(place + 1, 0)?;
    }
    numbers[place] = number;
    Ok(())
}

/// Puts 0 into a place of a list, which has zeros behind it.
fn put_zero(numbers: &mut Vec<usize>, place: usize)
    ensures { (i : ℕ) → slice_index_or numbers.new.items i 0 ≡ (if nat_eq place i then 0 else slice_index_or numbers.old.items i 0) }
{
    if place < numbers.len() {
        numbers[place] = 0;
    }
}
