//! Which links of a cell lead to a cell.
ghost use Rattle.std.specs.Prelude.{◌≡◌, false};
ghost use Rattle.node_arena.specs.LinkMarks.{unmarked, without_own, is_prev, is_back, mark_of, with_mark};

use crate::cell::Link;

/// Where the link back of a cell leads: to no cell, around to the last child of its parent, or to the sibling before it.
#[derive(Clone, Copy)]
pub(crate) enum Back {
    Nowhere,
    Around,
    Before,
}

impl Back {
    fn is_prev(self) -> bool
        ensures { result ≡ is_prev self }
    {
        matches!(self, Back::Before)
    }

    fn is_back(self) -> bool
        ensures { result ≡ is_back self }
    {
        !matches!(self, Back::Nowhere)
    }
}

/// The links of a cell that lead to a cell. They take the four bytes beside its key. The one back comes first, where it is read at the least cost.
#[derive(Clone, Copy)]
pub(crate) struct Marks {
    back: Back,
    parent: bool,
    first: bool,
    next: bool,
}

impl Marks {
    /// Those of a cell without links.
    pub(crate) fn none() -> Marks
        ensures { result ≡ unmarked }
    {
        Marks {
            parent: false,
            first: false,
            next: false,
            back: Back::Nowhere,
        }
    }

    /// Whether a link leads to a cell.
    pub(crate) fn has(self, link: Link) -> bool
        ensures { result ≡ mark_of self link }
    {
        match link {
            Link::Parent => self.parent,
            Link::First => self.first,
            Link::Next => self.next,
            Link::Prev => self.back.is_prev(),
            Link::Back => self.back.is_back(),
        }
    }

    /// Takes the marks of a child's own links away: to its parent, to the next, and back.
    pub(crate) fn clear_own(&mut self)
        ensures { self.new ≡ without_own self.old }
    {
        self.parent = false;
        self.next = false;
        self.back = Back::Nowhere;
    }

    /// Marks one link, or takes its mark away.
    pub(crate) fn set(&mut self, link: Link, leads: bool)
        ensures { self.new ≡ with_mark self.old link leads }
    {
        match link {
            Link::Parent => self.parent = leads,
            Link::First => self.first = leads,
            Link::Next => self.next = leads,
            Link::Prev => self.back = if leads { Back::Before } else { Back::Nowhere },
            Link::Back => self.back = if leads { Back::Around } else { Back::Nowhere },
        }
    }
}
