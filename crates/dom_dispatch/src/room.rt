//! The memory that a dispatch leaves for the next one.
ghost use Rattle.std.specs.Prelude.{◌≡◌};

use crate::event::LogLine;
use crate::handed::Handed;
use crate::listeners::{Entry, Listeners};
use dom_path::Item;
use node_arena::Key;
use smallvec::SmallVec;
use std::alloc::Global;
use std::collections::VecDeque;
use std::mem;
use std::rc::Rc;

/// The memory that a dispatch leaves for the next one: that of the items of its path, of the nodes that the event showed last, of the copies of
/// the listeners that heard it, and of its lines. What stands in it is of no use.
#[derive(Drop)]
pub(crate) struct Room {
    pub(crate) items: Vec<Item>,
    pub(crate) nodes: Option<Rc<SmallVec<Key, 16>>>,
    pub(crate) heard: VecDeque<Entry>,
    pub(crate) lines: Vec<LogLine>,
}

impl Room {
    /// No memory yet. It will come from `alloc`.
    pub(crate) fn new(alloc: Global) -> Self {
        Room {
            items: Vec::new(alloc),
            nodes: None,
            heard: VecDeque::new(alloc),
            lines: Vec::new(alloc),
        }
    }
}

impl Listeners {
    /// Takes the memory that was left for the next dispatch.
    pub(crate) fn take_room(&mut self) -> Room
        ensures { self.new ≡ self.old }
    {
        mem::replace(&mut self.room, Room::new(self.alloc))
    }

    /// Keeps the memory of the items of a path, and of what was handed on along it, for the next dispatch.
    pub(crate) fn keep_room(&mut self, items: Vec<Item>, handed: Handed)
        ensures { self.new ≡ self.old }
    {
        let Handed { shown, heard } = handed;
        self.room.items = items;
        self.room.nodes = shown.into_room();
        self.room.heard = heard;
    }

    /// Takes the lines of a dispatch back, and keeps their memory for those of the next one. The listeners stay as they are.
    pub fn reuse(&mut self, mut lines: Vec<LogLine>)
        ensures { self.new ≡ self.old }
    {
        lines.clear();
        self.room.lines = lines;
    }
}
