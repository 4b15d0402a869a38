//! Which nodes are marked.
ghost use Rattle.std.specs.Prelude.{◌≡◌, ℕ, ◌<◌, [], length, nat_eq, true, false, if◌then◌else◌, OnOk, OnErr};
ghost use Rattle.dom_slots.specs.KeyMaps.{is_marked};

use node_arena::Key;
use std::alloc::{AllocError, Global};

/// Which nodes are marked, by one look without a hash. There is a byte for each number of a node up to the greatest that was
/// marked.
#[derive(Drop)]
pub(crate) struct Marks {
    marked: Vec<bool>,
}

impl Marks {
    /// No node is marked. Takes no memory yet.
    pub(crate) fn new(alloc: Global) -> Self
        ensures { result.marked.items ≡ [] }
    {
        Marks {
            marked: Vec::new(alloc),
        }
    }

    /// Whether a node is marked.
    pub(crate) fn contains(&self, node: Key) -> bool
        ensures { result ≡ is_marked self.now.marked.items node }
    {
        self.marked.get(node.index()).copied().unwrap_or(false)
    }

    /// Makes a place for the mark of a node, where there is none. Where memory is refused, all is as it was.
    fn reach(&mut self, node: Key) -> Result<(), AllocError>
        ensures same { (k : ℕ) → is_marked self.new.marked.items k ≡ is_marked self.old.marked.items k }
        ensures there { OnOk result (node < length self.new.marked.items) }
        ensures err { OnErr result (self.new.marked.items ≡ self.old.marked.items) }
    {
        let places = node.index().checked_add(1).ok_or(AllocError)?;
        if self.marked.len() < places {
            self.marked.resize(places, false)?;
        }
        Ok(())
    }

    /// Marks a node, for which there is a place.
    fn set(&mut self, node: Key)
        requires { node < length self.old.marked.items }
        ensures { (k : ℕ) → is_marked self.new.marked.items k ≡ (if nat_eq node k then true else is_marked self.old.marked.items k) }
    {
        self.marked[node.index()] = true;
    }

    /// Marks a node. Where memory is refused, all is as it was.
    pub(crate) fn insert(&mut self, node: Key) -> Result<(), AllocError>
        ensures ok { OnOk result ((k : ℕ) → is_marked self.new.marked.items k ≡ (if nat_eq node k then true else is_marked self.old.marked.items k)) }
        ensures err { OnErr result (self.new.marked.items ≡ self.old.marked.items) }
    {
        self.reach(node)?;
        self.set(node);
        Ok(())
    }

    /// Takes a node's mark away.
    pub(crate) fn remove(&mut self, node: Key)
        ensures { (k : ℕ) → is_marked self.new.marked.items k ≡ (if nat_eq node k then false else is_marked self.old.marked.items k) }
    {
        if node.index() < self.marked.len() {
            self.marked[node.index()] = false;
        }
    }
}
