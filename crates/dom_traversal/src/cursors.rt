//! The node iterators and tree walkers of all owners.
ghost use Rattle.std.specs.Prelude.{◌≡◌, ◌≤◌, ◌↔◌, ◌⊎◌, ◌++◌, ◌∷◌, [], length, true, false, is_some, slice_get, slice_set, IfOk, IfErr, OnOk, OnErr};
ghost use Rattle.std.specs.Option.{option_map, ForSome};
ghost use Rattle.dom_base.specs.declared.Owner.{Owner as Owners};
ghost use Rattle.dom_base.specs.declared.Refusal.TheVariants.{Limit};
ghost use Rattle.dom_model.specs.Traversal.{iterator_next_node, iterator_previous_node, walker_move};
ghost use Rattle.dom_tree.specs.Forest.{IsNode, name_of};
ghost use Rattle.dom_traversal.specs.Filters.{filter_of};
ghost use Rattle.dom_traversal.specs.Iterators.{iterator_view, iterator_at, IsIteratorOf, iterator_found, stands_before};
ghost use Rattle.dom_traversal.specs.Walkers.{walker_view, walker_at, IsWalkerOf};
ghost use Rattle.dom_traversal.specs.OwnTables.{EachItem, AreLeft, no_keyed_tables};
ghost use Rattle.dom_traversal.specs.Cursors.{cursors_of, with_cursors};

use crate::Filter;
use crate::by_owner::ByOwner;
use crate::iter::Direction;
use dom_base::{Fault, Move, Owner};
use dom_tree::Forest;
use node_arena::Key;
use std::alloc::Global;
use std::marker::Model;

/// The iterators and walkers of all owners. An owner's have the numbers 0, 1, .. in the order of their making.
pub struct Cursors {
    tables: ByOwner,
}

impl Drop for Cursors {
    // Written out, so that the crates above cite it, and do not prove again how each field is let go.
    fn drop(self) {
        let Self { tables } = self;
    }
}

impl Model for Cursors {
    ghost use Rattle.dom_traversal.specs.Cursors.{AllCursors};

    ghost Value = { AllCursors };

    ghost use Rattle.dom_traversal.specs.ByOwner.{entries_of};

    ghost view = { λ c. entries_of c.tables };
}

impl Cursors {
    /// No owner has a cursor. No memory is taken yet; it will be taken from `alloc`.
    pub fn new(alloc: Global) -> Self
        ensures { (o : Owners) → cursors_of result o ≡ no_keyed_tables }
    {
        Cursors {
            tables: ByOwner::new(alloc),
        }
    }

    /// Whether an owner has an iterator of a number.
    pub fn has_iter(&self, owner: Owner, number: u32) -> bool
        ensures { result ≡ is_some (slice_get (cursors_of self.now owner).iterators number) }
    {
        match self.tables.get(&owner) {
            Some(tables) => tables.has_iter(number),
            None => false,
        }
    }

    /// Whether an owner has a walker of a number.
    pub fn has_walker(&self, owner: Owner, number: u32) -> bool
        ensures { result ≡ is_some (slice_get (cursors_of self.now owner).walkers number) }
    {
        match self.tables.get(&owner) {
            Some(tables) => tables.has_walker(number),
            None => false,
        }
    }

    /// Adds an iterator of an owner just before its root, and gives its number. Refused with `Limit` where the owner has a
    /// million, and with `Memory` where memory is refused; then all is as it was.
    pub fn add_iter(&mut self, owner: Owner, root: Key, filter: Filter) -> Result<u32, Fault>
        requires { length (cursors_of self.old owner).iterators ≤ 1000000 }
        ensures number { IfOk result (λ n. n ≡ length (cursors_of self.old owner).iterators) }
        ensures added { OnOk result (cursors_of self.new ≡ with_cursors (cursors_of self.old) owner (record (cursors_of self.old owner)
            { iterators = (cursors_of self.old owner).iterators ++ record { root = root; reference = root; before = true; filter = filter_of filter } ∷ [] })) }
        ensures limit { (result ≡ Err (Fault.Refused Limit)) ↔ (length (cursors_of self.old owner).iterators ≡ 1000000) }
        ensures other { IfErr result (λ fault. (fault ≡ Fault.Refused Limit) ⊎ (fault ≡ Fault.Memory)) }
        ensures err { OnErr result (cursors_of self.new ≡ cursors_of self.old) }
    {
        self.tables.prepare(owner)?;
        let Some(tables) = self.tables.get_mut(&owner) else {
            unreachable!()
        };
        tables.add_iter(root, filter)
    }

    /// Adds a walker of an owner at its root, and gives its number. Refused with `Limit` where the owner has a million, and
    /// with `Memory` where memory is refused; then all is as it was.
    pub fn add_walker(&mut self, owner: Owner, root: Key, filter: Filter) -> Result<u32, Fault>
        requires { length (cursors_of self.old owner).walkers ≤ 1000000 }
        ensures number { IfOk result (λ n. n ≡ length (cursors_of self.old owner).walkers) }
        ensures added { OnOk result (cursors_of self.new ≡ with_cursors (cursors_of self.old) owner (record (cursors_of self.old owner)
            { walkers = (cursors_of self.old owner).walkers ++ record { root = root; current = root; filter = filter_of filter } ∷ [] })) }
        ensures limit { (result ≡ Err (Fault.Refused Limit)) ↔ (length (cursors_of self.old owner).walkers ≡ 1000000) }
        ensures other { IfErr result (λ fault. (fault ≡ Fault.Refused Limit) ⊎ (fault ≡ Fault.Memory)) }
        ensures err { OnErr result (cursors_of self.new ≡ cursors_of self.old) }
    {
        self.tables.prepare(owner)?;
        let Some(tables) = self.tables.get_mut(&owner) else {
            unreachable!()
        };
        tables.add_walker(root, filter)
    }

    /// Lets each iterator of an owner leave the tree of a node that is about to be removed (DOM Standard, NodeIterator
    /// pre-remove steps). Where no component has had a cursor there is no look-up.
    pub fn leave(&mut self, owner: &Owner, forest: &Forest, node: Key)
        requires node_is_node { IsNode forest.now node }
        requires iterators { EachItem (IsIteratorOf forest.now) (cursors_of self.old owner.now).iterators }
        ensures iterators { AreLeft forest.now node (cursors_of self.old owner.now).iterators (cursors_of self.new owner.now).iterators }
        ensures others { cursors_of self.new ≡ with_cursors (cursors_of self.old) owner.now (record (cursors_of self.old owner.now)
            { iterators = (cursors_of self.new owner.now).iterators }) }
    {
        let Some(tables) = self.tables.get_mut(owner) else {
            return;
        };
        tables.leave(forest, node);
    }

    /// Moves an owner's iterator on, and answers the node that it comes to, if there is one (DOM Standard, nextNode).
    pub fn iter_next(&mut self, owner: Owner, forest: &Forest, number: u32) -> Option<Key>
        requires there { is_some (slice_get (cursors_of self.old owner).iterators number) ≡ true }
        requires iterators { EachItem (IsIteratorOf forest.now) (cursors_of self.old owner).iterators }
        ensures value { ForSome (slice_get (cursors_of self.old owner).iterators number)
            (λ i. option_map (name_of forest.now) result ≡ iterator_next_node forest.now.trees (iterator_view forest.now.names i)) }
        ensures state { ForSome (slice_get (cursors_of self.old owner).iterators number)
            (λ i. cursors_of self.new ≡ with_cursors (cursors_of self.old) owner (record (cursors_of self.old owner)
            { iterators = slice_set (cursors_of self.old owner).iterators number (iterator_at i false result) })) }
        ensures kept { ForSome (slice_get (cursors_of self.old owner).iterators number) (λ i. IsIteratorOf forest.now (iterator_at i false result)) }
    {
        self.traverse(owner, forest, number, Direction::Next)
    }

    /// Moves an owner's iterator back, and answers the node that it comes to, if there is one (DOM Standard, previousNode).
    pub fn iter_previous(&mut self, owner: Owner, forest: &Forest, number: u32) -> Option<Key>
        requires there { is_some (slice_get (cursors_of self.old owner).iterators number) ≡ true }
        requires iterators { EachItem (IsIteratorOf forest.now) (cursors_of self.old owner).iterators }
        ensures value { ForSome (slice_get (cursors_of self.old owner).iterators number)
            (λ i. option_map (name_of forest.now) result ≡ iterator_previous_node forest.now.trees (iterator_view forest.now.names i)) }
        ensures state { ForSome (slice_get (cursors_of self.old owner).iterators number)
            (λ i. cursors_of self.new ≡ with_cursors (cursors_of self.old) owner (record (cursors_of self.old owner)
            { iterators = slice_set (cursors_of self.old owner).iterators number (iterator_at i true result) })) }
        ensures kept { ForSome (slice_get (cursors_of self.old owner).iterators number) (λ i. IsIteratorOf forest.now (iterator_at i true result)) }
    {
        self.traverse(owner, forest, number, Direction::Previous)
    }

    /// Moves an owner's iterator on or back (DOM Standard, interface NodeIterator).
    fn traverse(
        &mut self,
        owner: Owner,
        forest: &Forest,
        number: u32,
        direction: Direction,
    ) -> Option<Key>
        requires there { is_some (slice_get (cursors_of self.old owner).iterators number) ≡ true }
        requires iterators { EachItem (IsIteratorOf forest.now) (cursors_of self.old owner).iterators }
        ensures value { ForSome (slice_get (cursors_of self.old owner).iterators number)
            (λ i. option_map (name_of forest.now) result ≡ iterator_found direction forest.now.trees (iterator_view forest.now.names i)) }
        ensures state { ForSome (slice_get (cursors_of self.old owner).iterators number)
            (λ i. cursors_of self.new ≡ with_cursors (cursors_of self.old) owner (record (cursors_of self.old owner)
            { iterators = slice_set (cursors_of self.old owner).iterators number (iterator_at i (stands_before direction) result) })) }
        ensures kept { ForSome (slice_get (cursors_of self.old owner).iterators number)
            (λ i. IsIteratorOf forest.now (iterator_at i (stands_before direction) result)) }
    {
        let Some(tables) = self.tables.get_mut(&owner) else {
            unreachable!()
        };
        tables.traverse(forest, number, direction)
    }

    /// Where an owner's iterator stands: its reference, and whether it stands before that one (DOM Standard, referenceNode
    /// and pointerBeforeReferenceNode).
    pub fn iter_at(&self, owner: Owner, number: u32) -> (Key, bool)
        requires { is_some (slice_get (cursors_of self.now owner).iterators number) ≡ true }
        ensures { ForSome (slice_get (cursors_of self.now owner).iterators number) (λ i. result ≡ (i.reference, i.before)) }
    {
        let Some(tables) = self.tables.get(&owner) else {
            unreachable!()
        };
        tables.iter_at(number)
    }

    /// Moves an owner's walker, and answers its new current node; where there is no node to move to, it stays (DOM Standard,
    /// interface TreeWalker).
    pub fn walk(&mut self, owner: Owner, forest: &Forest, number: u32, step: Move) -> Option<Key>
        requires there { is_some (slice_get (cursors_of self.old owner).walkers number) ≡ true }
        requires walkers { EachItem (IsWalkerOf forest.now) (cursors_of self.old owner).walkers }
        ensures value { ForSome (slice_get (cursors_of self.old owner).walkers number)
            (λ w. option_map (name_of forest.now) result ≡ walker_move forest.now.trees (walker_view forest.now.names w) step) }
        ensures state { ForSome (slice_get (cursors_of self.old owner).walkers number)
            (λ w. cursors_of self.new ≡ with_cursors (cursors_of self.old) owner (record (cursors_of self.old owner)
            { walkers = slice_set (cursors_of self.old owner).walkers number (walker_at w result) })) }
        ensures kept { ForSome (slice_get (cursors_of self.old owner).walkers number) (λ w. IsWalkerOf forest.now (walker_at w result)) }
    {
        let Some(tables) = self.tables.get_mut(&owner) else {
            unreachable!()
        };
        tables.walk(forest, number, step)
    }

    /// The current node of an owner's walker (DOM Standard, currentNode).
    pub fn walker_at(&self, owner: Owner, number: u32) -> Key
        requires { is_some (slice_get (cursors_of self.now owner).walkers number) ≡ true }
        ensures { ForSome (slice_get (cursors_of self.now owner).walkers number) (λ w. result ≡ w.current) }
    {
        let Some(tables) = self.tables.get(&owner) else {
            unreachable!()
        };
        tables.walker_at(number)
    }

    /// The root of an owner's walker and its current node, which may stand elsewhere (DOM Standard, root and currentNode).
    pub fn walker_ends(&self, owner: Owner, number: u32) -> (Key, Key)
        requires { is_some (slice_get (cursors_of self.now owner).walkers number) ≡ true }
        ensures { ForSome (slice_get (cursors_of self.now owner).walkers number) (λ w. result ≡ (w.root, w.current)) }
    {
        let Some(tables) = self.tables.get(&owner) else {
            unreachable!()
        };
        tables.walker_ends(number)
    }

    /// Makes a node the current one of an owner's walker (DOM Standard, currentNode).
    pub fn set_walker(&mut self, owner: Owner, number: u32, current: Key)
        requires { is_some (slice_get (cursors_of self.old owner).walkers number) ≡ true }
        ensures { ForSome (slice_get (cursors_of self.old owner).walkers number)
            (λ w. cursors_of self.new ≡ with_cursors (cursors_of self.old) owner (record (cursors_of self.old owner)
            { walkers = slice_set (cursors_of self.old owner).walkers number (record w { current = current }) })) }
    {
        let Some(tables) = self.tables.get_mut(&owner) else {
            unreachable!()
        };
        tables.set_walker(number, current);
    }
}
