//! A cell of an arena: its payload, its key, and four links to other cells, with a mark for each.
ghost use Rattle.std.specs.Prelude.{◌≡◌, length};
ghost use Rattle.node_arena.specs.Store.{mark_in, IsListed, IsPlaceOf, with_parent, with_first, with_pointer};
ghost use Rattle.node_arena.specs.LinkMarks.{without_own};

use crate::Key;
use crate::link_marks::Marks;
use crate::pool::Place;

/// Which of its links a cell is asked for. The one back leads to the sibling before the cell or, of a first child, to the last child of
/// its parent.
#[derive(Clone, Copy)]
pub(crate) enum Link {
    Parent,
    First,
    Next,
    Prev,
    Back,
}

/// A link of a cell to a sibling, or of a first child to the last one. These are pointers, and the others are keys.
#[derive(Clone, Copy)]
pub(crate) enum Sideways {
    Next,
    Prev,
    Back,
}

/// A cell, which stays where it is. A link that leads to no cell is not marked. Those up and down are keys, which take half as much as
/// pointers. A cell has no link to its last child, since the link back of its first child leads there. The links stand beside the
/// beginning of the payload, which is read with them.
#[derive(Drop)]
pub(crate) struct Cell<T> {
    pub(crate) key: Key,
    pub(crate) marks: Marks,
    pub(crate) parent: Key,
    pub(crate) first: Key,
    pub(crate) next: Place,
    pub(crate) back: Place,
    pub(crate) payload: T,
}

impl<T> Cell<T> {
    /// Where the cell lies that one link leads to, by the places of all cells.
    #[inline(always)]
    pub(crate) fn place(&self, list: &[Place], link: Link) -> Place
        requires { IsListed (length list.now) self.now link }
        ensures { IsPlaceOf list.now self.now link result }
    {
        match link {
            Link::Parent => list[self.parent.index as usize],
            Link::First => list[self.first.index as usize],
            Link::Next => self.next,
            Link::Prev | Link::Back => self.back,
        }
    }

    /// Whether one link of the cell leads to a cell.
    pub(crate) fn leads(&self, link: Link) -> bool
        ensures { result ≡ mark_in self.now link }
    {
        self.marks.has(link)
    }

    /// Takes away the marks of the links that the cell has as a child: to its parent, to the next, and back.
    pub(crate) fn clear_own(&mut self)
        ensures { self.new ≡ record self.old { marks = without_own self.old.marks } }
    {
        self.marks.clear_own();
    }

    /// Sets the key of its parent, and marks it.
    pub(crate) fn set_parent(&mut self, to: Key)
        ensures { self.new ≡ with_parent self.old to }
    {
        self.marks.set(Link::Parent, true);
        self.parent = to;
    }

    /// Sets the key of its first child, and its mark.
    pub(crate) fn set_first(&mut self, to: Key, leads: bool)
        ensures { self.new ≡ with_first self.old to leads }
    {
        self.marks.set(Link::First, leads);
        self.first = to;
    }

    /// Sets the pointer of one link of the cell, and its mark.
    pub(crate) fn set_pointer(&mut self, link: Sideways, to: Place, leads: bool)
        ensures { self.new ≡ with_pointer self.old link to leads }
    {
        match link {
            Sideways::Next => {
                self.marks.set(Link::Next, leads);
                self.next = to;
            }
            Sideways::Prev => {
                self.marks.set(Link::Prev, leads);
                self.back = to;
            }
            Sideways::Back => {
                self.marks.set(Link::Back, leads);
                self.back = to;
            }
        }
    }
}
