//! A cell of a store, where it lies.
ghost use Rattle.std.specs.Prelude.{◌≡◌, ◌<◌, length, Some, slice_get};
ghost use Rattle.std.specs.Option.{ForSome};
ghost use Rattle.node_arena.specs.Links.{link_at, last_at};
ghost use Rattle.node_arena.specs.Spots.{key_in};

use crate::Key;
use crate::cell::{Cell, Link};
use crate::pool::{Place, Pool};
use std::marker::Model;

/// A cell, the pool of those to which its links lead, and their places. It is seen as the cells of the store, and the key of this one.
#[derive(Drop)]
pub(crate) struct CellAt<'a, T> {
    pub(crate) list: &'a [Place],
    pub(crate) pool: &'a Pool<Cell<T>>,
    pub(crate) cell: &'a Cell<T>,
}

impl<'a, T> Model for CellAt<'a, T> {
    ghost use Rattle.node_arena.specs.Links.{Cells, cells_code};
    ghost use Rattle.node_arena.specs.Spots.{Spot, spot_code};
    ghost use Rattle.node_arena.specs.Store.{seen, IsCellOf};

    ghost Value = { Spot (Cells T) };

    ghost coded = { spot_code (cells_code T.code) };

    ghost view = { λ c. record { whole = seen c.pool.now.cells; key = c.cell.now.key } };

    ghost invariant = { λ c. IsCellOf c.list.now c.pool.now.cells c.cell.now };
}

impl<'a, T> CellAt<'a, T> {
    /// The cell that a link leads to, if there is one.
    #[inline(always)]
    pub(crate) fn to(&self, link: Link) -> Option<CellAt<'a, T>>
        ensures value { key_in result ≡ link_at self.now.whole.links self.now.key link }
        ensures same { ForSome result (λ c. c.whole ≡ self.now.whole) }
        ensures cell { ForSome (key_in result) (λ k. k < length self.now.whole.links) }
    {
        if !self.cell.leads(link) {
            return None;
        }
        let list = self.list;
        let pool = self.pool;
        let cell = pool.get(self.cell.place(list, link));
        Some(CellAt { list, pool, cell })
    }

    /// The key of the cell that a link leads to, if there is one. The keys of those above and below stand in the cell itself.
    #[inline(always)]
    pub(crate) fn key_to(&self, link: Link) -> Option<Key>
        ensures value { result ≡ link_at self.now.whole.links self.now.key link }
        ensures cell { ForSome result (λ k. k < length self.now.whole.links) }
    {
        if !self.cell.leads(link) {
            return None;
        }
        let cell = self.cell;
        match link {
            Link::Parent => Some(cell.parent),
            Link::First => Some(cell.first),
            Link::Next => Some(self.pool.get(cell.next).key),
            Link::Prev | Link::Back => Some(self.pool.get(cell.back).key),
        }
    }

    /// The cell of the last child, if there is one.
    #[inline(always)]
    pub(crate) fn last(&self) -> Option<CellAt<'a, T>>
        ensures value { key_in result ≡ last_at self.now.whole.links self.now.key }
        ensures same { ForSome result (λ c. c.whole ≡ self.now.whole) }
    {
        match self.to(Link::First) {
            Some(first) => first.to(Link::Back),
            None => None,
        }
    }

    /// Its key.
    #[inline(always)]
    pub(crate) fn key(&self) -> Key
        ensures { result ≡ self.now.key }
    {
        self.cell.key
    }

    /// What it holds.
    #[inline(always)]
    pub(crate) fn payload(&self) -> &'a T
        ensures { slice_get self.now.whole.payloads self.now.key ≡ Some result.now }
    {
        let cell = self.cell;
        &cell.payload
    }
}
