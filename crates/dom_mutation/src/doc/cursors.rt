//! Iterators and walkers of each owner, by their numbers (DOM Standard, 6 Traversal).
ghost use Rattle.std.specs.Prelude.{◌≡◌, ◌↔◌, ◌⊎◌, length, true, is_some, slice_get, IfOk, IfErr, OnErr};
ghost use Rattle.std.specs.Option.{option_map, ForSome};
ghost use Rattle.dom_base.specs.declared.Refusal.TheVariants.{Limit};
ghost use Rattle.dom_model.specs.Command.{Command, own};
ghost use Rattle.dom_model.specs.Output.{nothing, a_node, an_iterator, a_walker, reference};
ghost use Rattle.dom_model.specs.Effects.{node_or_null};
ghost use Rattle.dom_model.specs.World.{part_of};
ghost use Rattle.dom_model.specs.CommandRefusals.{past_limit};
ghost use Rattle.dom_traversal.specs.Filters.{filter_of};
ghost use Rattle.dom_mutation.specs.Doc.{name_in, owner_in, Makes, HoldsNode};

use crate::Doc;
use crate::parts::Parts;
use dom_base::{Fault, Move, Owner};
use dom_traversal::Filter;
use node_arena::Key;

impl Doc {
    /// Whether an owner has an iterator of a number.
    pub fn has_iter(&self, owner: Owner, number: u32) -> bool
        ensures { result ≡ is_some (slice_get (part_of self.now.world owner).iterators number) }
    {
        let parts = &self.parts;
        parts.cursors.has_iter(owner, number)
    }

    /// Whether an owner has a walker of a number.
    pub fn has_walker(&self, owner: Owner, number: u32) -> bool
        ensures { result ≡ is_some (slice_get (part_of self.now.world owner).walkers number) }
    {
        let parts = &self.parts;
        parts.cursors.has_walker(owner, number)
    }

    /// Adds an iterator of an owner just before its root, and gives its number (DOM Standard, createNodeIterator). It is
    /// refused with `Limit` where the owner has a million iterators, and with `Memory` where memory is refused.
    pub fn iter_make(&mut self, owner: Owner, root: Key, filter: Filter) -> Result<u32, Fault>
        requires root_is_node { HoldsNode self.old root }
        requires own { owner_in self.old root ≡ owner }
        ensures names { self.new.names ≡ self.old.names }
        ensures world { IfOk result (λ number. Makes owner (Command.iterator_new (own (name_in self.old root).number) (filter_of filter))
            (an_iterator number) self.old.world self.new.world) }
        ensures limit { (result ≡ Err (Fault.Refused Limit)) ↔ (past_limit (length (part_of self.old.world owner).iterators) 1 ≡ true) }
        ensures other { IfErr result (λ fault. (fault ≡ Fault.Refused Limit) ⊎ (fault ≡ Fault.Memory)) }
        ensures err { OnErr result (self.new ≡ self.old) }
    {
        let parts = &mut self.parts;
        parts.trees.forest.law_nodes_stand_once();
        parts.cursors.add_iter(owner, root, filter)
    }

    /// Adds a walker of an owner at its root, and gives its number (DOM Standard, createTreeWalker). It is refused with
    /// `Limit` where the owner has a million walkers, and with `Memory` where memory is refused.
    pub fn walk_make(&mut self, owner: Owner, root: Key, filter: Filter) -> Result<u32, Fault>
        requires root_is_node { HoldsNode self.old root }
        requires own { owner_in self.old root ≡ owner }
        ensures names { self.new.names ≡ self.old.names }
        ensures world { IfOk result (λ number. Makes owner (Command.walker_new (own (name_in self.old root).number) (filter_of filter))
            (a_walker number) self.old.world self.new.world) }
        ensures limit { (result ≡ Err (Fault.Refused Limit)) ↔ (past_limit (length (part_of self.old.world owner).walkers) 1 ≡ true) }
        ensures other { IfErr result (λ fault. (fault ≡ Fault.Refused Limit) ⊎ (fault ≡ Fault.Memory)) }
        ensures err { OnErr result (self.new ≡ self.old) }
    {
        let parts = &mut self.parts;
        parts.cursors.add_walker(owner, root, filter)
    }

    /// Moves an iterator behind the next node that its filter accepts, and answers that node; where there is none, it
    /// stays (DOM Standard, nextNode).
    /// It asks that the owner has an iterator of this number: `has_iter` is the test.
    pub fn iter_next(&mut self, owner: Owner, number: u32) -> Option<Key>
        requires { is_some (slice_get (part_of self.old.world owner).iterators number) ≡ true }
        ensures names { self.new.names ≡ self.old.names }
        ensures node { ForSome result (HoldsNode self.old) }
        ensures world { Makes owner (Command.iterator_next number) (node_or_null (option_map (name_in self.old) result)) self.old.world self.new.world }
    {
        let parts = &mut self.parts;
        parts.cursors.iter_next(owner, &parts.trees.forest, number)
    }

    /// Moves an iterator before the node before it that its filter accepts, and answers that node; where there is none, it
    /// stays (DOM Standard, previousNode).
    /// It asks that the owner has an iterator of this number: `has_iter` is the test.
    pub fn iter_previous(&mut self, owner: Owner, number: u32) -> Option<Key>
        requires { is_some (slice_get (part_of self.old.world owner).iterators number) ≡ true }
        ensures names { self.new.names ≡ self.old.names }
        ensures node { ForSome result (HoldsNode self.old) }
        ensures world { Makes owner (Command.iterator_previous number) (node_or_null (option_map (name_in self.old) result)) self.old.world self.new.world }
    {
        let parts = &mut self.parts;
        parts
            .cursors
            .iter_previous(owner, &parts.trees.forest, number)
    }

    /// The reference of an iterator, and whether it stands before that one (DOM Standard, referenceNode and
    /// pointerBeforeReferenceNode).
    /// It asks that the owner has an iterator of this number: `has_iter` is the test.
    pub fn iter_at(&self, owner: Owner, number: u32) -> (Key, bool)
        requires { is_some (slice_get (part_of self.now.world owner).iterators number) ≡ true }
        ensures node { HoldsNode self.now result.0 }
        ensures value { Makes owner (Command.iterator_at number) (reference (name_in self.now result.0) result.1) self.now.world self.now.world }
    {
        let parts = &self.parts;
        parts.cursors.iter_at(owner, number)
    }

    /// Moves a walker, and answers its new current node; where there is no node to move to, it stays (DOM Standard,
    /// interface TreeWalker).
    /// It asks that the owner has a walker of this number: `has_walker` is the test.
    pub fn walk(&mut self, owner: Owner, number: u32, step: Move) -> Option<Key>
        requires { is_some (slice_get (part_of self.old.world owner).walkers number) ≡ true }
        ensures names { self.new.names ≡ self.old.names }
        ensures node { ForSome result (HoldsNode self.old) }
        ensures world { Makes owner (Command.walk number step) (node_or_null (option_map (name_in self.old) result)) self.old.world self.new.world }
    {
        remember_root(&mut self.parts, owner, number);
        let parts = &mut self.parts;
        parts.cursors.walk(owner, &parts.trees.forest, number, step)
    }

    /// The current node of a walker (DOM Standard, currentNode).
    /// It asks that the owner has a walker of this number: `has_walker` is the test.
    pub fn walk_at(&self, owner: Owner, number: u32) -> Key
        requires { is_some (slice_get (part_of self.now.world owner).walkers number) ≡ true }
        ensures node { HoldsNode self.now result }
        ensures value { Makes owner (Command.walker_at number) (a_node (name_in self.now result)) self.now.world self.now.world }
    {
        let parts = &self.parts;
        parts.cursors.walker_at(owner, number)
    }

    /// Makes a node of its owner the current one of a walker (DOM Standard, currentNode).
    /// It asks that the owner has a walker of this number: `has_walker` is the test.
    pub fn walk_set(&mut self, owner: Owner, number: u32, current: Key)
        requires there { is_some (slice_get (part_of self.old.world owner).walkers number) ≡ true }
        requires current_is_node { HoldsNode self.old current }
        requires own { owner_in self.old current ≡ owner }
        ensures names { self.new.names ≡ self.old.names }
        ensures world { Makes owner (Command.walker_set number (own (name_in self.old current).number)) nothing self.old.world self.new.world }
    {
        let parts = &mut self.parts;
        parts.cursors.set_walker(owner, number, current);
    }
}

/// Has the forest remember that a walker's current node stands in the tree of its root: the move asks for this, and most moves
/// go to a node near by, from which the next one asks again (own rule). Nothing is changed that can be seen.
fn remember_root(parts: &mut Parts, owner: Owner, number: u32)
    requires { is_some (slice_get (part_of parts.old.world owner).walkers number) ≡ true }
    ensures { parts.new ≡ parts.old }
{
    let (root, current) = parts.cursors.walker_ends(owner, number);
    parts.trees.forest.remember_ancestor(root, current);
}
