//! The handle that a C program has of a document, and the shapes of calls.
ghost use Rattle.std.specs.Prelude.{◌≡◌, ◌≤◌, ◌∷◌, [], Some, None, IsSome, is_some, option_map, IsTrue};
ghost use Rattle.dom_base.specs.Refusals.{refusal_number};
ghost use Rattle.dom_base.specs.declared.Fault.TheVariants.{Memory, Refused};
ghost use Rattle.dom_base.specs.declared.Refusal.{Refusal as Refusals};
ghost use Rattle.dom_calls.specs.Calls.{Both, HasFailed, IsNew, IsSound, RunsTasks, told_by};
ghost use Rattle.dom_calls.specs.Statuses.{is_one_of};

use crate::held::Held;
use crate::place::Place;
use dom_base::Fault;
use node_arena::Raw;
use std::alloc::Global;
use std::mem;

/// The call is done.
pub const DONE: u32 = 0;

/// There is no such thing: the refusal `unknown`.
pub const UNKNOWN: u32 = 4;

/// Memory was refused, to this call or to one before.
pub const MEMORY: u32 = 14;

/// The handle is closed.
pub const CLOSED: u32 = 15;

/// The handle is open already.
pub const OPEN: u32 = 17;

/// A handle. It is the caller's block, and is closed where all its bytes are zero; C reads `told` alone, how many deliveries the last call left.
#[repr(C)]
pub struct DomDocument {
    is_open: bool,
    pub held: Place,
    pub told: usize,
    ghost matches: { is_open ≡ is_some held.value },
}

/// The status of a call that was not done.
pub(crate) fn status_of(fault: Fault) -> u32
    ensures refusal { (r : Refusals) → result ≡ refusal_number r → fault ≡ Refused r }
    ensures memory { result ≡ MEMORY → fault ≡ Memory }
    ensures least { 1 ≤ result }
    ensures most { result ≤ 14 }
{
    match fault {
        Fault::Refused(refusal) => refusal.number() as u32,
        Fault::Memory => MEMORY,
    }
}

impl DomDocument {
    /// A handle that holds nothing.
    pub fn closed() -> DomDocument
        ensures held { result.held.value ≡ None }
        ensures told { result.told ≡ 0 }
    {
        DomDocument {
            is_open: false,
            held: Place::empty(),
            told: 0,
        }
    }

    /// A handle that holds this.
    fn opened(held: Box<Held>) -> DomDocument
        ensures held { result.held.value ≡ Some held.value }
        ensures told { result.told ≡ told_by (Some held.value) }
    {
        let told = held.told();
        DomDocument {
            is_open: true,
            held: Place::of(Raw::of(held)),
            told,
        }
    }

    /// Takes out what the handle holds, and leaves it closed.
    pub(crate) fn take(&mut self, alloc: Global) -> Option<Box<Held>>
        ensures taken { option_map (λ held. held.value) result ≡ self.old.held.value }
        ensures left { self.new.held.value ≡ None }
        ensures told { self.new.told ≡ 0 }
    {
        let DomDocument {
            is_open,
            held,
            told: _,
        } = mem::replace(self, DomDocument::closed());
        if is_open {
            return Some(held.into_raw(alloc).into_box());
        }
        held.end();
        None
    }

    /// Puts this into a closed handle.
    pub(crate) fn put(&mut self, held: Box<Held>)
        requires { self.old.held.value ≡ None }
        ensures held { self.new.held.value ≡ Some held.value }
        ensures told { self.new.told ≡ told_by (Some held.value) }
    {
        let DomDocument {
            is_open: _,
            held: nothing,
            told: _,
        } = mem::replace(self, DomDocument::opened(held));
        nothing.end();
    }

    /// Opens a handle: a document before its first call. If memory is refused the handle stays closed, and may be opened later.
    pub fn open(&mut self, alloc: Global) -> u32
        ensures done { result ≡ DONE → (self.old.held.value ≡ None) × IsNew self.new.held.value }
        ensures memory { result ≡ MEMORY → (self.old.held.value ≡ None) × (self.new.held.value ≡ None) }
        ensures open { result ≡ OPEN → IsSome self.old.held.value × (self.new.held.value ≡ self.old.held.value) }
        ensures status { IsTrue (is_one_of result (DONE ∷ MEMORY ∷ OPEN ∷ [])) }
    {
        if self.is_open {
            return OPEN;
        }
        match Held::new(alloc) {
            Ok(held) => {
                self.put(held);
                DONE
            }
            Err(_) => MEMORY,
        }
    }

    /// Closes a handle. That what it held is freed is tested, and in no clause.
    pub fn close(&mut self, alloc: Global) -> u32
        ensures done { result ≡ DONE → IsSome self.old.held.value }
        ensures closed { result ≡ CLOSED → self.old.held.value ≡ None }
        ensures left { self.new.held.value ≡ None }
        ensures status { IsTrue (is_one_of result (DONE ∷ CLOSED ∷ [])) }
    {
        match self.take(alloc) {
            Some(held) => {
                drop(held);
                DONE
            }
            None => CLOSED,
        }
    }

    /// Runs the tasks of all owners, first in, first out, until none is left.
    pub fn checkpoint(&mut self, alloc: Global) -> u32
        ensures done { result ≡ DONE → Both RunsTasks self.old.held.value self.new.held.value }
        ensures memory { result ≡ MEMORY → IsSome self.old.held.value × HasFailed self.new.held.value }
        ensures closed { result ≡ CLOSED → (self.old.held.value ≡ None) × (self.new.held.value ≡ None) }
        ensures told { self.new.told ≡ told_by self.new.held.value }
        ensures status { IsTrue (is_one_of result (DONE ∷ MEMORY ∷ CLOSED ∷ [])) }
    {
        let Some(mut held) = self.take(alloc) else {
            return CLOSED;
        };
        let done = held.checkpoint();
        self.put(held);
        if done.is_ok() { DONE } else { MEMORY }
    }

    /// Says that no callback is under way: none is made.
    pub fn no_callback(&mut self, alloc: Global) -> u32
        ensures unknown { result ≡ UNKNOWN → IsSound self.old.held.value }
        ensures memory { result ≡ MEMORY → HasFailed self.old.held.value }
        ensures closed { result ≡ CLOSED → self.old.held.value ≡ None }
        ensures same { self.new.held.value ≡ self.old.held.value }
        ensures status { IsTrue (is_one_of result (UNKNOWN ∷ MEMORY ∷ CLOSED ∷ [])) }
    {
        let Some(held) = self.take(alloc) else {
            return CLOSED;
        };
        let has_failed = held.has_failed();
        self.put(held);
        if has_failed { MEMORY } else { UNKNOWN }
    }
}

#[cfg(test)]
impl DomDocument {
    /// Ends a closed handle.
    pub(crate) fn end(self)
        requires { self.held.value ≡ None }
    {
        let DomDocument {
            is_open: _,
            held,
            told: _,
        } = self;
        held.end();
    }
}
