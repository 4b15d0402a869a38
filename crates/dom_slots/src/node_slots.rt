//! The slots of each node.
ghost use Rattle.std.specs.Prelude.{◌≡◌, ℕ, ◌<◌, [], length, nat_eq, slice_get, slice_index_or, None, if◌then◌else◌, OnOk};
ghost use Rattle.node_arena.specs.Nodes.{insert_before, without};
ghost use Rattle.dom_slots.specs.NodeSlots.{slots_in};

use crate::key_lists::KeyLists;
use node_arena::Key;
use std::alloc::{AllocError, Global};

/// The slots of each node. The first one stands in line, so that a node with one slot takes no list. Where none stands there the
/// place has the default, and a slot that is the default stands in the list with the further ones.
#[derive(Drop)]
pub(crate) struct NodeSlots {
    first: Vec<Key>,
    rest: KeyLists,
}

impl NodeSlots {
    /// No slots. Takes no memory yet.
    pub(crate) fn new(alloc: Global) -> Self
        ensures first { result.first.items ≡ [] }
        ensures rest { result.rest.rows.items ≡ [] }
    {
        NodeSlots {
            first: Vec::new(alloc),
            rest: KeyLists::new(alloc),
        }
    }

    /// The first slot of a node, if it has one.
    pub(crate) fn one(&self, node: Key) -> Option<Key>
        ensures { result ≡ slice_get (slots_in self.now node) 0 }
    {
        match self.first.get(node.index()) {
            Some(slot) if *slot != Key::default() => Some(*slot),
            _ => self.rest.of(node).first().copied(),
        }
    }

    /// Takes a slot from a node.
    pub(crate) fn take_out(&mut self, node: Key, slot: Key)
        ensures { (k : ℕ) → slots_in self.new k ≡
            (if nat_eq node k then without slot (slots_in self.old k)
            else slots_in self.old k) }
    {
        if self.first.get(node.index()).copied() == Some(slot) {
            self.first[node.index()] = Key::default();
        }
        self.rest.take_all_out(node, slot);
    }

    /// Gives a node one slot more.
    pub(crate) fn put(&mut self, alloc: Global, node: Key, slot: Key) -> Result<(), AllocError>
        ensures { OnOk result ((k : ℕ) → slots_in self.new k ≡
            (if nat_eq node k then insert_before (slots_in self.old k) slot None
            else slots_in self.old k)) }
    {
        if slot == Key::default() || self.one(node).is_some() {
            return self.rest.put(alloc, node, slot, None);
        }
        self.reach(node)?;
        self.first[node.index()] = slot;
        Ok(())
    }

    /// Makes a place in line for a node, where there is none.
    fn reach(&mut self, node: Key) -> Result<(), AllocError>
        ensures first { OnOk result ((k : ℕ) → slice_index_or self.new.first.items k 0 ≡ slice_index_or self.old.first.items k 0) }
        ensures rest { OnOk result (self.new.rest ≡ self.old.rest) }
        ensures there { OnOk result (node < length self.new.first.items) }
    {
        let places = node.index().checked_add(1).ok_or(AllocError)?;
        if self.first.len() < places {
            self.first.resize(places, Key::default())?;
        }
        Ok(())
    }
}
