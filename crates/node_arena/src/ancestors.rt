//! A node and one above it that are remembered, so that whether that one stands above nodes near by is found without a walk.
ghost use Rattle.std.specs.Prelude.{◌≡◌, ◌<◌, ◌↔◌, length, IsTrue};
ghost use Rattle.node_arena.specs.Nodes.{IsInclusiveAncestor};

use crate::{Arena, Key};

/// So many nodes are looked at, from the one that is remembered upwards.
const NEAR: usize = 4;

/// A node, and the same one or one above it.
#[derive(Clone, Copy)]
pub(crate) struct Line {
    above: Key,
    below: Key,
}

impl Line {
    /// One node alone, which tells nothing.
    pub(crate) fn new() -> Self
        ensures { result.below ≡ result.above }
    {
        let node = Key { index: 0 };
        Line {
            above: node,
            below: node,
        }
    }

    /// Leaves the upper node alone.
    pub(crate) fn forget(&mut self)
        ensures { self.new.below ≡ self.new.above }
    {
        self.below = self.above;
    }
}

impl<T> Arena<T> {
    /// Whether what is remembered tells that a node stands above another one: this is so where the other one is a child of the
    /// lower of the nodes that are remembered, or of one of the few nodes from there up to the upper one. Where it is not told,
    /// it may yet be so.
    pub fn is_known_above(&self, above: Key, key: Key) -> bool
        requires { key < length self.now.payloads }
        ensures above { IsTrue result → IsInclusiveAncestor self.now.children above key }
        ensures node { IsTrue result → above < length self.now.payloads }
    {
        if above != self.line.above {
            return false;
        }
        let up = self.parent(key);
        let mut at = self.line.below;
        for _ in 0..NEAR {
            if up == Some(at) {
                return true;
            }
            if at == above {
                return false;
            }
            let Some(parent) = self.parent(at) else {
                return false;
            };
            at = parent;
        }
        false
    }

    /// Remembers that a node is another one or stands above it, where it is so, until a node is taken out of a list. What was
    /// remembered before is forgotten then.
    pub fn remember_ancestor(&mut self, above: Key, key: Key)
        requires { key < length self.old.payloads }
        ensures { self.new ≡ self.old }
    {
        if !self.stands_above(above, key) {
            return;
        }
        self.line = Line { above, below: key };
    }

    /// Whether a node is another one or stands above it, as it is remembered or by a walk.
    pub(crate) fn stands_above(&self, above: Key, key: Key) -> bool
        requires { key < length self.now.payloads }
        ensures { IsTrue result ↔ IsInclusiveAncestor self.now.children above key }
    {
        if self.is_known_above(above, key) {
            return true;
        }
        let mut at = Some(key);
        while let Some(node) = at {
            if node == above {
                return true;
            }
            at = self.parent(node);
        }
        false
    }
}
