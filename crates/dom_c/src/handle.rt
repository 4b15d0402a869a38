//! The handle that a C program has of a session.
ghost use Rattle.std.specs.Prelude.{◌≡◌, Some, None, is_some, option_map};

use crate::held::Held;
use crate::place::Place;
use node_arena::Raw;
use std::alloc::Global;
use std::mem;

/// A handle. It is a block of the caller's, and holds nothing if all its bytes are zero. C sets it to zeros, and neither reads nor writes
/// it otherwise.
#[repr(C)]
pub struct DomSession {
    is_open: bool,
    pub held: Place,
    ghost matches: { is_open ≡ is_some held.value },
}

impl DomSession {
    /// A handle that holds nothing.
    fn closed() -> DomSession
        ensures { result.held.value ≡ None }
    {
        DomSession {
            is_open: false,
            held: Place::empty(),
        }
    }

    /// A handle that holds this.
    fn opened(held: Box<Held>) -> DomSession
        ensures { result.held.value ≡ Some held.value }
    {
        DomSession {
            is_open: true,
            held: Place::of(Raw::of(held)),
        }
    }

    /// Whether the handle holds anything.
    pub(crate) fn is_open(&self) -> bool
        ensures { result ≡ is_some self.now.held.value }
    {
        self.is_open
    }

    /// Takes out what the handle holds, and leaves it closed.
    pub(crate) fn take(&mut self, alloc: Global) -> Option<Box<Held>>
        ensures taken { option_map (λ held. held.value) result ≡ self.old.held.value }
        ensures left { self.new.held.value ≡ None }
    {
        let DomSession { is_open, held } = mem::replace(self, DomSession::closed());
        if is_open {
            return Some(held.into_raw(alloc).into_box());
        }
        held.end();
        None
    }

    /// Puts this into a closed handle.
    pub(crate) fn put(&mut self, held: Box<Held>)
        requires { self.old.held.value ≡ None }
        ensures { self.new.held.value ≡ Some held.value }
    {
        let DomSession {
            is_open: _,
            held: nothing,
        } = mem::replace(self, DomSession::opened(held));
        nothing.end();
    }
}
