//! Numbers of observers.
ghost use Rattle.std.specs.Prelude.{◌≡◌, ◌∷◌, [], nat_eq, IfOk, OnOk};
ghost use Rattle.std.specs.List.{list_any, IsDistinct};
ghost use Rattle.dom_model.specs.Names.{append_once};
ghost use Rattle.dom_observers.specs.Numbers.{numbers_in};

use indexmap::IndexSet;
use std::alloc::{AllocError, Global};
use std::slice;

/// Numbers in order, each once (Infra Standard, ordered set). One alone takes no memory, and more are told apart by a hash.
#[derive(Drop)]
pub enum Numbers {
    Empty,
    One(u32),
    More(Box<IndexSet<u32>>),
}

impl Numbers {
    /// All of them.
    pub(crate) fn as_slice(&self) -> &[u32]
        ensures numbers { result.now ≡ numbers_in self.now }
        ensures unique { IsDistinct nat_eq result.now }
    {
        match self {
            Numbers::Empty => &[],
            Numbers::One(only) => slice::from_ref(only),
            Numbers::More(set) => set.as_slice(),
        }
    }

    /// Whether a number is among them.
    pub(crate) fn contains(&self, number: u32) -> bool
        ensures { result ≡ list_any (nat_eq number) (numbers_in self.now) }
    {
        match self {
            Numbers::Empty => false,
            Numbers::One(only) => number == *only,
            Numbers::More(set) => set.contains(&number),
        }
    }

    /// Puts a number behind the others where it is not among them.
    #[inline(always)]
    pub(crate) fn insert(&mut self, alloc: Global, number: u32) -> Result<(), AllocError>
        ensures { OnOk result (numbers_in self.new ≡ append_once nat_eq (numbers_in self.old) number) }
    {
        match self {
            Numbers::Empty => *self = Numbers::One(number),
            Numbers::One(only) if *only == number => {}
            Numbers::One(only) => *self = Numbers::More(set_of(alloc, *only, number)?),
            Numbers::More(set) => insert_into(set, number)?,
        }
        Ok(())
    }
}

/// Puts a number behind those of a set where it is not among them.
#[inline(never)]
fn insert_into(set: &mut Box<IndexSet<u32>>, number: u32) -> Result<(), AllocError>
    ensures { OnOk result (set.new.value.keys ≡ append_once nat_eq set.old.value.keys number) }
{
    set.insert(number)?;
    Ok(())
}

/// The set of a number and of another one.
#[inline(never)]
fn set_of(alloc: Global, first: u32, number: u32) -> Result<Box<IndexSet<u32>>, AllocError>
    ensures { IfOk result (λ set. set.value.keys ≡ append_once nat_eq (first ∷ []) number) }
{
    let mut set = IndexSet::new(alloc);
    set.insert(first)?;
    set.insert(number)?;
    Ok(Box::new(alloc, set)?)
}
