//! What each step of a change does to a boundary point (DOM Standard, 5.3 and 5.5).
ghost use Rattle.std.specs.Prelude.{◌≡◌, ◌⊎◌, ℕ, nat_eq, true};
ghost use Rattle.dom_model.specs.Place.{Boundary};
ghost use Rattle.dom_model.specs.Ranges.{at, after_insert, after_replace_data, after_split, after_join};
ghost use Rattle.std.specs.Option.{ForSome};
ghost use Rattle.dom_ranges.specs.Pending.{after_insertion};
ghost use Rattle.dom_ranges.specs.Rules.{Fits, IsAtNode, KeepsOrder, KeepsOrderBut, is_inside, after_leaving, after_closing};
ghost use Rattle.dom_tree.specs.Forest.{IsNode};

use dom_tree::Forest;
use node_arena::Key;

/// A step of a change, by its rule for boundary points.
pub(crate) trait Change {
    ghost rule: { Self → Boundary ℕ → Boundary ℕ };

    ghost can_move: { Self → Boundary ℕ → Type 0 };

    ghost target: { Self → ℕ };

    /// The boundary point after the step.
    fn moved(&self, node: Key, offset: usize) -> (Key, usize)
        requires { can_move self.now (at node offset) }
        ensures moved { at result.0 result.1 ≡ rule self.now (at node offset) }
        ensures goes { (result.0 ≡ node) ⊎ (result.0 ≡ target self.now) };

    /// The node to which the step brings boundary points of other nodes.
    fn target(&self) -> Key
        ensures { result ≡ target self.now };

    /// Whether the step leaves all boundary points at their nodes, and those at one node in their order. That order is kept at
    /// all nodes but its target by each step.
    fn keeps_order(&self) -> bool
        ensures all { result ≡ true → KeepsOrder (rule self.now) }
        ensures others { KeepsOrderBut (target self.now) (rule self.now) };
}

/// `count` nodes come into `parent` before its child at `index`.
#[derive(Clone, Copy)]
pub(crate) struct Insertion {
    pub(crate) parent: Key,
    pub(crate) index: usize,
    pub(crate) count: usize,
}

impl Insertion {
    /// This insertion and the next one in one, where the next one's nodes come before, among or just behind this one's.
    pub(crate) fn with_next(&self, next: &Insertion) -> Option<Insertion>
        ensures { ForSome result (λ sum. (b : Boundary ℕ) → after_insertion sum b ≡ after_insertion next.now (after_insertion self.now b)) }
    {
        if next.parent != self.parent || next.index < self.index {
            return None;
        }
        if next.index - self.index > self.count {
            return None;
        }
        let count = self.count.checked_add(next.count)?;
        Some(Insertion {
            parent: self.parent,
            index: self.index,
            count,
        })
    }
}

impl Change for Insertion {
    ghost rule = { λ s. after_insert nat_eq s.parent s.index s.count };

    ghost can_move = { λ s b. Fits (after_insert nat_eq s.parent s.index s.count b) };

    ghost target = { λ s. s.parent };

    fn moved(&self, node: Key, offset: usize) -> (Key, usize) {
        if node == self.parent && offset > self.index {
            return (self.parent, offset + self.count);
        }
        (node, offset)
    }

    fn target(&self) -> Key {
        self.parent
    }

    fn keeps_order(&self) -> bool {
        true
    }
}

/// `node`, the child of `parent` at `index`, leaves it with the nodes inside it. It is still linked in the forest.
#[derive(Clone, Copy)]
pub(crate) struct Leaving<'a> {
    pub(crate) forest: &'a Forest,
    pub(crate) node: Key,
    pub(crate) parent: Key,
    pub(crate) index: usize,
}

impl Change for Leaving<'_> {
    ghost rule = { λ s. after_leaving (is_inside s.forest.now s.node) s.parent s.index };

    ghost can_move = { λ s b. (IsNode s.forest.now s.node) × IsAtNode s.forest.now.names b };

    ghost target = { λ s. s.parent };

    fn moved(&self, node: Key, offset: usize) -> (Key, usize) {
        if self.forest.is_inclusive_ancestor(self.node, node) {
            return (self.parent, self.index);
        }
        (node, offset)
    }

    fn target(&self) -> Key {
        self.parent
    }

    fn keeps_order(&self) -> bool {
        false
    }
}

/// The child of `parent` at `index` is gone: what was behind it moves up.
#[derive(Clone, Copy)]
pub(crate) struct Closing {
    pub(crate) parent: Key,
    pub(crate) index: usize,
}

impl Change for Closing {
    ghost rule = { λ s. after_closing s.parent s.index };

    ghost can_move = { λ s b. Unit {0} };

    ghost target = { λ s. s.parent };

    fn moved(&self, node: Key, offset: usize) -> (Key, usize) {
        if node == self.parent && self.index < offset {
            return (self.parent, offset - 1);
        }
        (node, offset)
    }

    fn target(&self) -> Key {
        self.parent
    }

    fn keeps_order(&self) -> bool {
        true
    }
}

/// From `offset` on, `count` code units of `node` give way to `length` others.
#[derive(Clone, Copy)]
pub(crate) struct Replacement {
    pub(crate) node: Key,
    pub(crate) offset: usize,
    pub(crate) count: usize,
    pub(crate) length: usize,
}

impl Change for Replacement {
    ghost rule = { λ s. after_replace_data nat_eq s.node s.offset s.count s.length };

    ghost can_move = { λ s b. Fits (after_replace_data nat_eq s.node s.offset s.count s.length b) };

    ghost target = { λ s. s.node };

    fn moved(&self, node: Key, offset: usize) -> (Key, usize) {
        if node != self.node || offset <= self.offset {
            return (node, offset);
        }
        if offset - self.offset <= self.count {
            return (self.node, self.offset);
        }
        (self.node, offset - self.count + self.length)
    }

    fn target(&self) -> Key {
        self.node
    }

    fn keeps_order(&self) -> bool {
        true
    }
}

/// What the Text `node`, the child of `parent` at `index`, has past `offset` is in the Text `new`.
#[derive(Clone, Copy)]
pub(crate) struct Split {
    pub(crate) node: Key,
    pub(crate) offset: usize,
    pub(crate) new: Key,
    pub(crate) parent: Key,
    pub(crate) index: usize,
}

impl Change for Split {
    ghost rule = { λ s. after_split nat_eq s.node s.offset s.new s.parent s.index };

    ghost can_move = { λ s b. Fits (after_split nat_eq s.node s.offset s.new s.parent s.index b) };

    ghost target = { λ s. s.new };

    fn moved(&self, node: Key, offset: usize) -> (Key, usize) {
        if node == self.node && self.offset < offset {
            return (self.new, offset - self.offset);
        }
        if node == self.parent && self.index < offset && offset - self.index == 1 {
            return (self.parent, offset + 1);
        }
        (node, offset)
    }

    fn target(&self) -> Key {
        self.new
    }

    fn keeps_order(&self) -> bool {
        false
    }
}

/// The data of the Text `next`, the child of `parent` at `index`, were put behind those of the Text `first`, which had
/// `length` code units.
#[derive(Clone, Copy)]
pub(crate) struct Join {
    pub(crate) first: Key,
    pub(crate) length: usize,
    pub(crate) next: Key,
    pub(crate) parent: Key,
    pub(crate) index: usize,
}

impl Change for Join {
    ghost rule = { λ s. after_join nat_eq s.first s.length s.next s.parent s.index };

    ghost can_move = { λ s b. Fits (after_join nat_eq s.first s.length s.next s.parent s.index b) };

    ghost target = { λ s. s.first };

    fn moved(&self, node: Key, offset: usize) -> (Key, usize) {
        if node == self.next {
            return (self.first, offset + self.length);
        }
        if node == self.parent && offset == self.index {
            return (self.first, self.length);
        }
        (node, offset)
    }

    fn target(&self) -> Key {
        self.first
    }

    fn keeps_order(&self) -> bool {
        false
    }
}
