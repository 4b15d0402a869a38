//! A box taken apart.
ghost use Rattle.std.specs.Prelude.{◌≡◌};
ghost use Rattle.std.specs.Box.{box_allocator};
ghost use Rattle.std.specs.Box.Ownership.{box_owns};

use std::alloc::Allocator;
use std::marker::Model;

/// A box, as its pointer and its allocator (own rule). Whoever has one owns the block there, and what lies in it.
pub struct Raw<T, A: Allocator> {
    pub at: *mut T,
    pub alloc: A,
    pub ghost value: { T },
}

impl<T, A: Allocator> Model for Raw<T, A> {
    ghost also_owns = { λ l. box_owns (A.dealloc_token l.alloc) T.row l.at l.value };
}

impl<T: Drop, A: Allocator> Raw<T, A> {
    /// The box taken apart.
    pub fn of(value: Box<T, A>) -> Raw<T, A>
        ensures value { result.value ≡ value.value }
        ensures allocator { result.alloc ≡ box_allocator value }
    {
        let (at, alloc) = Box::into_raw_with_allocator(value);
        Raw { at, alloc }
    }

    /// The box again.
    pub fn into_box(self) -> Box<T, A>
        ensures { result.value ≡ self.value }
    {
        let Raw { at, alloc } = self;
        unsafe { Box::from_raw(alloc, at) }
    }
}
