//! The cells that a pool owns, each in a block of a bump allocator.
ghost use Rattle.std.specs.Prelude.{◌≡◌, ◌<◌, List, [], ◌∷◌, ◌++◌, IsSome, Some, None};
ghost use prog.Memory.{size};
ghost use denote.Param.{layout};
ghost use denote.RawPtr.{null_ptr, InBlock};
ghost use Rattle.std.specs.Borrow.{sem};
ghost use Rattle.std.specs.Box.Ownership.{box_owns};
ghost use Rattle.node_arena.specs.Owned.{Heap, heap_code, may_free, Placed, placed, value_at, without_at, pool_owns, pool_lent};

use crate::boxes::Raw;
use bumpalo::Bump;
use std::marker::{Model, PhantomData};
use std::ptr;

/// Where a cell lies, whatever it holds, or null. It owns nothing.
#[derive(Clone, Copy)]
pub(crate) struct Place {
    ptr: *mut u8,
}

impl Place {
    /// The place of no cell.
    pub(crate) fn nowhere() -> Place
        ensures { result.ptr ≡ null_ptr }
    {
        Place {
            ptr: ptr::null_mut(),
        }
    }
}

/// A boxed cell that is in no pool, by its pointer, and the heap of its block.
pub(crate) struct Loose<V> {
    pub(crate) at: *mut V,
    pub(crate) ghost heap: { Heap } by { heap_code },
    pub(crate) ghost value: { V },
}

impl<V> Model for Loose<V> {
    ghost also_owns = { λ l. box_owns (may_free l.heap) V.row l.at l.value };
}

impl<V> Loose<V> {
    /// The cell of a box, whose allocator is forgotten.
    pub(crate) fn of(cell: Raw<V, &Bump>) -> Loose<V>
        ensures value { result.value ≡ cell.entry.value }
        ensures heap { result.heap ≡ cell.entry.alloc.now }
    {
        let Raw { at, alloc: _ } = cell;
        Loose { at }
    }

    /// The box again, of its heap.
    pub(crate) fn into_raw<'a>(self, alloc: &'a Bump) -> Raw<V, &'a Bump>
        requires { self.heap ≡ alloc.now }
        ensures { result.value ≡ self.value }
    {
        let Loose { at } = self;
        Raw { at, alloc }
    }
}

/// The owner of the cells, all of one heap. It takes no space.
pub(crate) struct Pool<V> {
    mark: PhantomData<*mut V>,
    ghost heap: { Heap } by { heap_code },
    ghost cells: { List (Placed V) },
}

impl<V> Model for Pool<V> {
    ghost also_owns = { λ p. pool_owns p.heap V.row p.cells };

    ghost also_shares = { λ p _ κ. pool_lent V.row p.cells κ };
}

impl<V> Pool<V> {
    ghost use Rattle.node_arena.specs.PoolLends.{lends_cell};

    /// The cell at a place.
    pub(crate) fn get(&self, at: Place) -> &V
        requires { IsSome (value_at self.now.cells at.ptr) }
        ensures { value_at self.now.cells at.ptr ≡ Some result.now }
    {
        unsafe { &*(at.ptr as *mut V) }
    }

    /// The cell at a place, for writing.
    pub(crate) fn get_mut(&mut self, at: Place) -> &mut V
        requires { IsSome (value_at self.old.cells at.ptr) }
        ensures* writes_back { sem 𝓛 (lends_cell V.row self.entry at.ptr result) }
        ensures value { value_at self.old.cells at.ptr ≡ Some result.now }
    {
        unsafe { &mut *(at.ptr as *mut V) }
    }
}

impl<V> Pool<V> {
    /// A pool without cells, for those of a heap.
    pub(crate) fn new(_heap: &Bump) -> Pool<V>
        ensures cells { result.cells ≡ [] }
        ensures heap { result.heap ≡ _heap.now }
    {
        Pool { mark: PhantomData }
    }

    /// Ends a pool without cells.
    pub(crate) fn end(self)
        requires { self.cells ≡ [] }
    {
        let Pool { mark: _ } = self;
    }

    /// Takes a cell in, and tells where it lies.
    pub(crate) fn put(&mut self, cell: Loose<V>) -> Place
        requires sized { 0 < size (layout V.row) }
        requires heap { cell.heap ≡ self.old.heap }
        ensures fresh { value_at self.old.cells result.ptr ≡ None }
        ensures within { InBlock result.ptr }
        ensures same_heap { self.new.heap ≡ self.old.heap }
        ensures cells { self.new.cells ≡ self.old.cells ++ placed result.ptr cell.value ∷ [] }
    {
        let Loose { at } = cell;
        Place { ptr: at as *mut u8 }
    }

    /// Takes a cell out.
    pub(crate) fn take(&mut self, at: Place) -> Loose<V>
        requires { IsSome (value_at self.old.cells at.ptr) }
        ensures value { value_at self.old.cells at.ptr ≡ Some result.value }
        ensures heap { result.heap ≡ self.old.heap }
        ensures same_heap { self.new.heap ≡ self.old.heap }
        ensures cells { self.new.cells ≡ without_at self.old.cells at.ptr }
    {
        Loose {
            at: at.ptr as *mut V,
        }
    }
}
