//! The children of a node, by their indexes.
ghost use Rattle.std.specs.Prelude.{◌≡◌, ◌<◌, ◌+◌, ℕ, length, slice_get, Some};
ghost use Rattle.std.specs.Option.{ForSome};
ghost use Rattle.node_arena.specs.Nodes.{children_of, parent_of, IsSound};

use crate::{Arena, Key};

impl<T> Arena<T> {
    /// The child of a node at an index, if it has so many. Children that are remembered are not walked over, and those behind them are
    /// walked over one by one.
    pub fn child(&self, parent: Key, index: usize) -> Option<Key>
        requires { parent < length self.now.payloads }
        ensures value { result ≡ slice_get (children_of self.now.children parent) index }
        ensures node { ForSome result (λ k. k < length self.now.payloads) }
        ensures child { ForSome result (λ k. parent_of self.now.children k ≡ Some parent) }
        ensures sound { IsSound self.now }
    {
        let first = self.first(parent)?;
        if let Some(known) = self.known(Some(parent)) {
            if let Some(key) = known.get(index) {
                return Some(key);
            }
            if let Some(last) = known.last() {
                return self.sibling_behind(last, index - (known.len() - 1));
            }
        }
        self.sibling_behind(first, index)
    }

    /// The sibling so many behind a node, if there are so many.
    fn sibling_behind(&self, key: Key, count: usize) -> Option<Key>
        requires sound { IsSound self.now }
        requires key_is_node { key < length self.now.payloads }
        ensures { (p i : ℕ) → slice_get (children_of self.now.children p) i ≡ Some key →
            result ≡ slice_get (children_of self.now.children p) (i + count) }
    {
        let mut at = self.at(key);
        for _ in 0..count {
            at = at.next()?;
        }
        Some(at.key())
    }
}
