//! The numbers of slots, in the order in which they came.
ghost use Rattle.std.specs.Prelude.{◌≡◌, ◌++◌, ◌∷◌, [], false, nat_eq, IfOk, OnOk, OnErr};
ghost use Rattle.dom_model.specs.Names.{is_in};
ghost use Rattle.dom_microtasks.specs.EachOnce.{IsEachOnce};

use indexmap::IndexSet;
use std::alloc::{AllocError, Global};
use std::marker::Model;

/// How many numbers stand in a list, where one is compared with the others in turn. Among more it is found by a hash.
const FEW: usize = 8;

/// Numbers that stand in a list while they are few. Where there are more they go into a set, and those that come later stand there too.
#[derive(Drop)]
enum Numbers {
    Few(Vec<u32>),
    Many(Box<IndexSet<u32>>),
}

/// Numbers, each once, in the order in which they came. A contract sees them as the list of them.
#[derive(Drop)]
pub(crate) struct SlotNumbers {
    numbers: Numbers,
}

impl Model for SlotNumbers {
    ghost use Rattle.std.specs.Prelude.{ℕ, List};
    ghost use Rattle.dom_microtasks.specs.SlotNumbers.{numbers_now, AreOnce};

    ghost Value = { List ℕ };

    ghost view = { λ s. numbers_now s.numbers };

    ghost invariant = { λ s. AreOnce s.numbers };
}

impl SlotNumbers {
    /// No numbers. Takes no memory yet.
    pub(crate) fn new(alloc: Global) -> Self
        ensures { result ≡ [] }
    {
        SlotNumbers {
            numbers: Numbers::Few(Vec::new(alloc)),
        }
    }

    /// All of them.
    pub(crate) fn as_slice(&self) -> &[u32]
        ensures { result.now ≡ self.now }
    {
        match &self.numbers {
            Numbers::Few(list) => list.as_slice(),
            Numbers::Many(set) => set.as_slice(),
        }
    }

    /// Whether a number is among them.
    pub(crate) fn has(&self, number: u32) -> bool
        ensures { result ≡ is_in nat_eq number self.now }
    {
        match &self.numbers {
            Numbers::Few(list) => list.contains(&number),
            Numbers::Many(set) => set.contains(&number),
        }
    }

    /// Puts a number that is not among them behind them. Where memory is refused, they are as they were.
    pub(crate) fn push(&mut self, alloc: Global, number: u32) -> Result<(), AllocError>
        requires { is_in nat_eq number self.old ≡ false }
        ensures ok { OnOk result (self.new ≡ self.old ++ number ∷ []) }
        ensures err { OnErr result (self.new ≡ self.old) }
    {
        match &mut self.numbers {
            Numbers::Few(list) if list.len() < FEW => {
                list.push(number)?;
            }
            Numbers::Few(list) => {
                self.numbers = Numbers::Many(set_with(alloc, list, number)?);
            }
            Numbers::Many(set) => {
                set.insert(number)?;
            }
        }
        Ok(())
    }

    /// Takes all of them away. Takes no memory.
    pub(crate) fn clear(&mut self)
        ensures { self.new ≡ [] }
    {
        match &mut self.numbers {
            Numbers::Few(list) => list.clear(),
            Numbers::Many(set) => set.clear(),
        }
    }
}

/// The set of the numbers of a list and of one that is not among them.
fn set_with(alloc: Global, list: &[u32], number: u32) -> Result<Box<IndexSet<u32>>, AllocError>
    requires once { IsEachOnce list.now }
    requires new { is_in nat_eq number list.now ≡ false }
    ensures { IfOk result (λ set. set.value.keys ≡ list.now ++ number ∷ []) }
{
    let mut set = IndexSet::from_iter(alloc, list.iter().copied())?;
    set.insert(number)?;
    Ok(Box::new(alloc, set)?)
}
