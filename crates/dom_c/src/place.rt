//! Where a handle keeps what it holds.
ghost use Rattle.std.specs.Prelude.{◌≡◌, Some, None, Option, IsSome};
ghost use Rattle.std.specs.Coded.{codes};
ghost use Rattle.dom_model.specs.Codes.{trees_code};
ghost use Rattle.dom_c.specs.State.{HeldState};

use crate::held::Held;
use node_arena::Raw;
use std::alloc::Global;
use std::marker::Model;
use std::ptr;

/// The address of a block of the heap with what a handle holds. Or nothing, and then the address has no meaning.
#[repr(C)]
pub struct Place {
    at: *mut u8,
    pub ghost value: { Option HeldState } by { Prim.hlevel (codes, trees_code) },
}

impl Model for Place {
    ghost use Rattle.dom_c.specs.Owned.{owns_held};
    ghost use Rattle.dom_c.specs.contracts.held.Held.{the_row};

    ghost also_owns = { λ p. owns_held the_row p.value p.at };
}

impl Place {
    /// The place of nothing.
    pub(crate) fn empty() -> Place
        ensures { result.value ≡ None }
    {
        Place {
            at: ptr::null_mut(),
        }
    }

    /// The place of a box. The box's allocator takes no space, and is forgotten.
    pub(crate) fn of(held: Raw<Held, Global>) -> Place
        ensures { result.value ≡ Some held.value }
    {
        let Raw { at, alloc: _ } = held;
        Place { at: at as *mut u8 }
    }

    /// The box again.
    pub(crate) fn into_raw(self, alloc: Global) -> Raw<Held, Global>
        requires { IsSome self.value }
        ensures { self.value ≡ Some result.value }
    {
        let Place { at } = self;
        Raw {
            at: at as *mut Held,
            alloc,
        }
    }

    /// Ends the place of nothing.
    pub(crate) fn end(self)
        requires { self.value ≡ None }
    {
        let Place { at: _ } = self;
    }
}
