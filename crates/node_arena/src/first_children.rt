//! The first children of one node, kept in order beside the links, so that their places are found without a walk.
ghost use Rattle.std.specs.Prelude.{◌≡◌, ◌≢◌, ◌<◌, ◌⊎◌, ℕ, List, [], ◌∷◌, ◌++◌, length, false};
ghost use Rattle.std.specs.Option.{ForSome};
ghost use Rattle.node_arena.specs.Cells.{lists_of, IsLinked};
ghost use Rattle.node_arena.specs.Known.{AreFirst, AreKept};
ghost use Rattle.node_arena.specs.Nodes.{children_of, contains, siblings_in, insert_before, without};

use crate::Key;
use crate::cell::Link;
use crate::ordered_keys::OrderedKeys;
use crate::store::Store;
use std::alloc::Global;
use std::mem;

/// After so many changes of the children at which no place was asked for they are given up.
const MOST_UNASKED: u32 = 64;

/// The keys of the first children of a node, in order. They may be fewer than the node has, or none.
#[derive(Drop)]
pub(crate) struct FirstChildren {
    parent: Key,
    keys: OrderedKeys,
    unasked: u32,
}

impl FirstChildren {
    /// No children, which take no memory yet.
    pub(crate) fn new(alloc: Global) -> Self
        ensures { result.keys ≡ [] }
    {
        FirstChildren {
            parent: Key { index: 0 },
            keys: OrderedKeys::new(alloc),
            unasked: 0,
        }
    }

    /// The first children of a node that are kept, where it is the node whose they are.
    pub(crate) fn of(&self, parent: Option<Key>) -> Option<&OrderedKeys>
        ensures { ForSome result (λ keys. (lists : List (List ℕ)) → AreFirst self.now.keys (children_of lists self.now.parent) →
            AreFirst keys.now (siblings_in lists parent)) }
    {
        let parent = parent?;
        if parent != self.parent {
            return None;
        }
        Some(&self.keys)
    }

    /// Keeps the first children of a node from now on, and no longer those of another one. The place of one of them is
    /// being asked for.
    pub(crate) fn turn_to(&mut self, parent: Key)
        ensures parent { self.new.parent ≡ parent }
        ensures first { (lists : List (List ℕ)) → AreFirst self.old.keys (children_of lists self.old.parent) →
            AreFirst self.new.keys (children_of lists parent) }
    {
        if parent != self.parent {
            self.keys.clear();
            self.parent = parent;
        }
        self.unasked = 0;
    }

    /// The child behind those that are kept, if there is one.
    fn next_child<T>(&self, store: &Store<T>) -> Option<Key>
        requires linked { IsLinked store.now }
        requires parent_is_cell { self.now.parent < length store.now.links }
        requires first { AreFirst self.now.keys (children_of (lists_of store.now.links) self.now.parent) }
        ensures first { ForSome result (λ k. AreFirst (self.now.keys ++ k ∷ []) (children_of (lists_of store.now.links) self.now.parent)) }
        ensures other { ForSome result (λ k. contains self.now.keys k ≡ false) }
    {
        match self.keys.last() {
            Some(last) => store.link(last, Link::Next),
            None => store.link(self.parent, Link::First),
        }
    }

    /// Keeps the next children too, until so many are kept, as far as memory allows.
    pub(crate) fn extend<T>(&mut self, store: &Store<T>, count: usize)
        requires linked { IsLinked store.now }
        requires parent_is_cell { self.old.parent < length store.now.links }
        requires first { AreFirst self.old.keys (children_of (lists_of store.now.links) self.old.parent) }
        ensures parent { self.new.parent ≡ self.old.parent }
        ensures first { AreFirst self.new.keys (children_of (lists_of store.now.links) self.old.parent) }
    {
        for _ in self.keys.len()..count {
            let Some(child) = self.next_child(store) else {
                return;
            };
            if self.keys.push(child).is_err() {
                return;
            }
        }
    }

    /// Tells that a child came into the list of a parent, just before the one given or last. Where memory is refused, what
    /// was kept is given up.
    #[inline(always)]
    pub(crate) fn on_link(&mut self, parent: Key, child: Key, before: Option<Key>)
        requires other { contains self.old.keys child ≡ false }
        ensures parent { self.new.parent ≡ self.old.parent }
        ensures there { parent ≡ self.old.parent → (siblings : List ℕ) → AreFirst self.old.keys siblings →
            AreFirst self.new.keys (insert_before siblings child before) }
        ensures elsewhere { parent ≢ self.old.parent → self.new.keys ≡ self.old.keys }
    {
        if parent != self.parent {
            return;
        }
        let Some(next) = before else {
            return;
        };
        self.tire();
        if self.keys.put_before(child, next).is_err() {
            self.keys.clear();
        }
    }

    /// Tells that a child left the list of a parent.
    #[inline(always)]
    pub(crate) fn on_unlink(&mut self, parent: Key, child: Key)
        ensures parent { self.new.parent ≡ self.old.parent }
        ensures there { parent ≡ self.old.parent → (siblings : List ℕ) → AreFirst self.old.keys siblings →
            AreFirst self.new.keys (without child siblings) }
        ensures elsewhere { parent ≢ self.old.parent → self.new.keys ≡ self.old.keys }
    {
        if parent != self.parent {
            return;
        }
        self.tire();
        self.keys.remove(child);
    }

    /// Counts a change, and gives up what is kept where too many have come since a place was asked for.
    fn tire(&mut self)
        ensures parent { self.new.parent ≡ self.old.parent }
        ensures kept { (self.new.keys ≡ self.old.keys) ⊎ (self.new.keys ≡ []) }
    {
        if self.unasked < MOST_UNASKED {
            self.unasked += 1;
        } else {
            self.keys.clear();
        }
    }
}

/// Keeps the first children of a node from now on, as the one that is asked for most recently. Of two others the one that was asked for
/// longest ago gives way.
pub(crate) fn turn(recent: &mut FirstChildren, other: &mut FirstChildren, parent: Key)
    ensures parent { recent.new.parent ≡ parent }
    ensures recent { (lists : List (List ℕ)) → AreKept lists recent.old → AreKept lists other.old → AreKept lists recent.new }
    ensures other { (lists : List (List ℕ)) → AreKept lists recent.old → AreKept lists other.old → AreKept lists other.new }
{
    if parent != recent.parent {
        mem::swap(recent, other);
    }
    recent.turn_to(parent);
}
