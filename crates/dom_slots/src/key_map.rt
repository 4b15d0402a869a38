//! A node for each node.
ghost use Rattle.std.specs.Prelude.{◌≡◌, ℕ, ◌<◌, length, nat_eq, Some, None, if◌then◌else◌, OnOk};
ghost use Rattle.dom_slots.specs.KeyMaps.{value_at};

use node_arena::Key;
use std::alloc::{AllocError, Global};

/// A node for each of some nodes. They stand by the numbers of those nodes, and are found without a hash.
#[derive(Drop)]
pub(crate) struct KeyMap {
    values: Vec<Option<Key>>,
}

impl KeyMap {
    /// No nodes. Takes no memory yet.
    pub(crate) fn new(alloc: Global) -> Self
        ensures { (k : ℕ) → value_at result.values.items k ≡ None }
    {
        KeyMap {
            values: Vec::new(alloc),
        }
    }

    /// The node for a node, if there is one.
    pub(crate) fn get(&self, key: Key) -> Option<Key>
        ensures { result ≡ value_at self.now.values.items key }
    {
        self.values.get(key.index()).copied().unwrap_or(None)
    }

    /// Makes a place for a node, where there is none. Where memory is refused, all is as it was.
    pub(crate) fn reach(&mut self, key: Key) -> Result<(), AllocError>
        ensures values { (k : ℕ) → value_at self.new.values.items k ≡ value_at self.old.values.items k }
        ensures there { OnOk result (key < length self.new.values.items) }
    {
        let places = key.index().checked_add(1).ok_or(AllocError)?;
        if self.values.len() < places {
            self.values.resize(places, None)?;
        }
        Ok(())
    }

    /// Gives a node, for which there is a place, another one.
    pub(crate) fn set(&mut self, key: Key, value: Key)
        requires { key < length self.old.values.items }
        ensures { (k : ℕ) → value_at self.new.values.items k ≡ (if nat_eq key k then Some value else value_at self.old.values.items k) }
    {
        self.values[key.index()] = Some(value);
    }
}
