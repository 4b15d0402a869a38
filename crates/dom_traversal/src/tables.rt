//! What one owner has of cursors.
ghost use Rattle.std.specs.Prelude.{◌≡◌, ℕ, ◌≤◌, ◌↔◌, ◌⊎◌, ◌++◌, ◌∷◌, [], length, true, is_some, slice_get, slice_set, IfOk, IfErr, OnOk, OnErr};
ghost use Rattle.std.specs.Prelude.{◌<◌, Some};
ghost use Rattle.std.specs.Option.{option_map, ForSome};
ghost use Rattle.dom_base.specs.declared.Refusal.TheVariants.{Limit};
ghost use Rattle.dom_model.specs.Traversal.{walker_move};
ghost use Rattle.dom_tree.specs.Forest.{IsNode, name_of};
ghost use Rattle.dom_traversal.specs.Filters.{filter_of};
ghost use Rattle.dom_traversal.specs.Iterators.{KeyedIterator, iterator_view, iterator_at, IsIteratorOf, iterator_found, stands_before};
ghost use Rattle.dom_traversal.specs.Walkers.{walker_view, walker_at, IsWalkerOf};
ghost use Rattle.dom_traversal.specs.OwnTables.{EachItem, AreLeft, IsLeftIf, no_keyed_tables};
ghost use Rattle.dom_traversal.specs.References.{MayHaveLeft};

use crate::iter::Direction;
use crate::references::{Reference, bring, is_apart, list, number_at};
use crate::{Filter, Iter, Walker};
use dom_base::{Fault, MAX_NODES, Move, Refusal};
use dom_tree::Forest;
use node_arena::Key;
use std::alloc::Global;
use std::marker::Model;

/// One owner's iterators and walkers, each by its number, and the iterators' references by their nodes.
#[derive(Drop)]
pub(crate) struct OwnTables {
    iterators: Vec<Iter>,
    references: Vec<Reference>,
    walkers: Vec<Walker>,
}

impl Model for OwnTables {
    ghost use Rattle.dom_traversal.specs.OwnTables.{KeyedTables};

    ghost Value = { KeyedTables };

    ghost use Rattle.dom_traversal.specs.References.{AreListed, AreSorted};

    ghost view = { λ t. record { iterators = t.iterators.items; walkers = t.walkers.items } };

    ghost invariant = { λ t. AreSorted t.references.items × AreListed t.iterators.items t.references.items };
}

impl OwnTables {
    /// Empty tables.
    pub(crate) fn new(alloc: Global) -> Self
        ensures { result ≡ no_keyed_tables }
    {
        OwnTables {
            iterators: Vec::new(alloc),
            references: Vec::new(alloc),
            walkers: Vec::new(alloc),
        }
    }

    /// Whether there is an iterator of a number.
    pub(crate) fn has_iter(&self, number: u32) -> bool
        ensures { result ≡ is_some (slice_get self.now.iterators number) }
    {
        self.iterators.get(number as usize).is_some()
    }

    /// Whether there is a walker of a number.
    pub(crate) fn has_walker(&self, number: u32) -> bool
        ensures { result ≡ is_some (slice_get self.now.walkers number) }
    {
        self.walkers.get(number as usize).is_some()
    }

    /// Adds an iterator just before its root, and gives its number. Refused with `Limit` where there are a million.
    pub(crate) fn add_iter(&mut self, root: Key, filter: Filter) -> Result<u32, Fault>
        requires { length self.old.iterators ≤ 1000000 }
        ensures number { IfOk result (λ n. n ≡ length self.old.iterators) }
        ensures added { OnOk result (self.new ≡ record self.old
            { iterators = self.old.iterators ++ record { root = root; reference = root; before = true; filter = filter_of filter } ∷ [] }) }
        ensures limit { (result ≡ Err (Fault.Refused Limit)) ↔ (length self.old.iterators ≡ 1000000) }
        ensures other { IfErr result (λ fault. (fault ≡ Fault.Refused Limit) ⊎ (fault ≡ Fault.Memory)) }
        ensures err { OnErr result (self.new ≡ self.old) }
    {
        let number = self.iterators.len();
        if number == MAX_NODES as usize {
            return Err(Fault::Refused(Refusal::Limit));
        }
        self.references.reserve(1)?;
        self.iterators.push(Iter::new(root, filter))?;
        list(&mut self.references, number, root);
        Ok(number as u32)
    }

    /// Adds a walker at its root, and gives its number. Refused with `Limit` where there are a million.
    pub(crate) fn add_walker(&mut self, root: Key, filter: Filter) -> Result<u32, Fault>
        requires { length self.old.walkers ≤ 1000000 }
        ensures number { IfOk result (λ n. n ≡ length self.old.walkers) }
        ensures added { OnOk result (self.new ≡ record self.old
            { walkers = self.old.walkers ++ record { root = root; current = root; filter = filter_of filter } ∷ [] }) }
        ensures limit { (result ≡ Err (Fault.Refused Limit)) ↔ (length self.old.walkers ≡ 1000000) }
        ensures other { IfErr result (λ fault. (fault ≡ Fault.Refused Limit) ⊎ (fault ≡ Fault.Memory)) }
        ensures err { OnErr result (self.new ≡ self.old) }
    {
        let number = self.walkers.len();
        if number == MAX_NODES as usize {
            return Err(Fault::Refused(Refusal::Limit));
        }
        self.walkers.push(Walker::new(root, filter))?;
        Ok(number as u32)
    }

    /// Lets each iterator leave the tree of a node that is about to be removed (DOM Standard, NodeIterator pre-remove
    /// steps). Where going up from the references shows soon that none is in the tree, nothing is looked for in it. Else those are
    /// looked for that stand at each node of the tree. Where it has more nodes than there are iterators, the search stops after as
    /// many: to ask each iterator is less then.
    pub(crate) fn leave(&mut self, forest: &Forest, node: Key)
        requires node_is_node { IsNode forest.now node }
        requires iterators { EachItem (IsIteratorOf forest.now) self.old.iterators }
        ensures iterators { AreLeft forest.now node self.old.iterators self.new.iterators }
        ensures walkers { self.new.walkers ≡ self.old.walkers }
    {
        if self.iterators.is_empty() {
            return;
        }
        if forest.first(node).is_some() && is_apart(self.references.as_slice(), forest, node) {
            return;
        }
        forest.law_nodes_stand_once();
        let mut left = self.iterators.len();
        let mut near = 0;
        let mut at = Some(node);
        while let Some(key) = at {
            if left == 0 {
                self.leave_each(forest, node);
                return;
            }
            left -= 1;
            self.leave_from(forest, node, key, &mut near);
            at = forest.following(key, node);
        }
    }

    /// Lets the iterators that stand at a key's node leave the tree of a node. Their references are sought near a place first.
    fn leave_from(&mut self, forest: &Forest, node: Key, key: Key, near: &mut usize)
        requires node_is_node { IsNode forest.now node }
        requires iterators { EachItem (IsIteratorOf forest.now) self.old.iterators }
        ensures may { MayHaveLeft forest.now node self.old.iterators self.new.iterators }
        ensures left { (k : ℕ) → ForSome (slice_get self.old.iterators k) (λ i. i.reference ≡ key →
            IsLeftIf forest.now node (Some i) (slice_get self.new.iterators k)) }
        ensures len { length self.new.iterators ≡ length self.old.iterators }
        ensures walkers { self.new.walkers ≡ self.old.walkers }
    {
        let mut least = 0;
        while let Some(number) = number_at(self.references.as_slice(), key, least, near) {
            self.leave_one(forest, node, number);
            least = number + 1;
        }
    }

    /// Lets each iterator leave the tree of a node, one after the other.
    fn leave_each(&mut self, forest: &Forest, node: Key)
        requires node_is_node { IsNode forest.now node }
        requires iterators { EachItem (IsIteratorOf forest.now) self.old.iterators }
        ensures iterators { AreLeft forest.now node self.old.iterators self.new.iterators }
        ensures walkers { self.new.walkers ≡ self.old.walkers }
    {
        for number in 0..self.iterators.len() {
            self.leave_one(forest, node, number);
        }
    }

    /// Lets one iterator leave the tree of a node.
    fn leave_one(&mut self, forest: &Forest, node: Key, number: usize)
        requires node_is_node { IsNode forest.now node }
        requires there { number < length self.old.iterators }
        requires iterators { EachItem (IsIteratorOf forest.now) self.old.iterators }
        ensures may { MayHaveLeft forest.now node self.old.iterators self.new.iterators }
        ensures left { IsLeftIf forest.now node (slice_get self.old.iterators number) (slice_get self.new.iterators number) }
        ensures len { length self.new.iterators ≡ length self.old.iterators }
        ensures walkers { self.new.walkers ≡ self.old.walkers }
    {
        let iterator = &mut self.iterators[number];
        let (from, _) = iterator.at();
        iterator.on_remove(forest, node);
        let (to, _) = iterator.at();
        bring(&mut self.references, number, from, to);
    }

    /// Moves an iterator on or back.
    pub(crate) fn traverse(
        &mut self,
        forest: &Forest,
        number: u32,
        direction: Direction,
    ) -> Option<Key>
        requires there { is_some (slice_get self.old.iterators number) ≡ true }
        requires iterators { EachItem (IsIteratorOf forest.now) self.old.iterators }
        ensures value { ForSome (slice_get self.old.iterators number)
            (λ i. option_map (name_of forest.now) result ≡ iterator_found direction forest.now.trees (iterator_view forest.now.names i)) }
        ensures state { ForSome (slice_get self.old.iterators number)
            (λ i. self.new ≡ record self.old { iterators = slice_set self.old.iterators number (iterator_at i (stands_before direction) result) }) }
        ensures kept { ForSome (slice_get self.old.iterators number) (λ i. IsIteratorOf forest.now (iterator_at i (stands_before direction) result)) }
    {
        let iterator = &mut self.iterators[number as usize];
        let (from, _) = iterator.at();
        let found = traverse(iterator, forest, direction);
        let (to, _) = iterator.at();
        bring(&mut self.references, number as usize, from, to);
        found
    }

    /// Where an iterator stands.
    pub(crate) fn iter_at(&self, number: u32) -> (Key, bool)
        requires { is_some (slice_get self.now.iterators number) ≡ true }
        ensures { ForSome (slice_get self.now.iterators number) (λ i. result ≡ (i.reference, i.before)) }
    {
        self.iterators[number as usize].at()
    }

    /// Moves a walker.
    pub(crate) fn walk(&mut self, forest: &Forest, number: u32, step: Move) -> Option<Key>
        requires there { is_some (slice_get self.old.walkers number) ≡ true }
        requires walkers { EachItem (IsWalkerOf forest.now) self.old.walkers }
        ensures value { ForSome (slice_get self.old.walkers number)
            (λ w. option_map (name_of forest.now) result ≡ walker_move forest.now.trees (walker_view forest.now.names w) step) }
        ensures state { ForSome (slice_get self.old.walkers number)
            (λ w. self.new ≡ record self.old { walkers = slice_set self.old.walkers number (walker_at w result) }) }
        ensures kept { ForSome (slice_get self.old.walkers number) (λ w. IsWalkerOf forest.now (walker_at w result)) }
    {
        let walker = &mut self.walkers[number as usize];
        walk(walker, forest, step)
    }

    /// The current node of a walker.
    pub(crate) fn walker_at(&self, number: u32) -> Key
        requires { is_some (slice_get self.now.walkers number) ≡ true }
        ensures { ForSome (slice_get self.now.walkers number) (λ w. result ≡ w.current) }
    {
        self.walkers[number as usize].at()
    }

    /// The root and the current node of a walker.
    pub(crate) fn walker_ends(&self, number: u32) -> (Key, Key)
        requires { is_some (slice_get self.now.walkers number) ≡ true }
        ensures { ForSome (slice_get self.now.walkers number) (λ w. result ≡ (w.root, w.current)) }
    {
        let walker = &self.walkers[number as usize];
        (walker.root(), walker.at())
    }

    /// Makes a node the current one of a walker.
    pub(crate) fn set_walker(&mut self, number: u32, current: Key)
        requires { is_some (slice_get self.old.walkers number) ≡ true }
        ensures { ForSome (slice_get self.old.walkers number)
            (λ w. self.new ≡ record self.old { walkers = slice_set self.old.walkers number (record w { current = current }) }) }
    {
        let walker = &mut self.walkers[number as usize];
        walker.set(current);
    }
}

/// Moves an iterator on or back.
fn traverse(iterator: &mut Iter, forest: &Forest, direction: Direction) -> Option<Key>
    requires { IsIteratorOf forest.now iterator.old }
    ensures value { option_map (name_of forest.now) result ≡ iterator_found direction forest.now.trees (iterator_view forest.now.names iterator.old) }
    ensures state { iterator.new ≡ iterator_at iterator.old (stands_before direction) result }
    ensures kept { IsIteratorOf forest.now iterator.new }
{
    match direction {
        Direction::Next => iterator.next(forest),
        Direction::Previous => iterator.previous(forest),
    }
}

/// Moves a walker.
fn walk(walker: &mut Walker, forest: &Forest, step: Move) -> Option<Key>
    requires { IsWalkerOf forest.now walker.old }
    ensures value { option_map (name_of forest.now) result ≡ walker_move forest.now.trees (walker_view forest.now.names walker.old) step }
    ensures state { walker.new ≡ walker_at walker.old result }
    ensures kept { IsWalkerOf forest.now walker.new }
{
    match step {
        Move::Parent => walker.parent(forest),
        Move::First => walker.first(forest),
        Move::Last => walker.last(forest),
        Move::Next => walker.next(forest),
        Move::Previous => walker.previous(forest),
        Move::NextSibling => walker.next_sibling(forest),
        Move::PreviousSibling => walker.previous_sibling(forest),
    }
}
