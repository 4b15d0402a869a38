//! Iterators over the nodes of a tree, which survive removals.
ghost use Rattle.std.specs.Prelude.{◌≡◌, ℕ, ◌<◌, length, true, false, count_by, Option, None};
ghost use Rattle.std.specs.Option.{option_map, ForSome};
ghost use Rattle.dom_base.specs.declared.NodeName.{NodeName as Name};
ghost use Rattle.dom_model.specs.Names.{name_eq};
ghost use Rattle.dom_model.specs.Traversal.{nodes_ahead, nodes_passed, iterator_next_node, iterator_previous_node, adjusted_iterator};
ghost use Rattle.dom_model.specs.Tree.{nodes, parent_of, inclusive_ancestors, is_inclusive_ancestor};
ghost use Rattle.dom_tree.specs.Forest.{NamedTrees, name_at, IsNode, name_of};
ghost use Rattle.dom_traversal.specs.Filters.{filter_of};
ghost use Rattle.dom_traversal.specs.Iterators.{KeyedIterator, iterator_view, IsIteratorOf, iterator_at, iterator_left, HasLeft, with_taken_out, with_placed};
ghost use Rattle.dom_laws.specs.Within.{from_node, up_to_node};
ghost use Rattle.dom_tree.specs.Within.{StandsIn};

use crate::filter::Filter;
use crate::search::beyond;
use dom_tree::Forest;
use node_arena::Key;
use std::marker::Model;

/// The direction in which a cursor moves (DOM Standard, 6 Traversal).
#[derive(Clone, Copy)]
pub(crate) enum Direction {
    Next,
    Previous,
}

/// A NodeIterator: it goes over the nodes of the tree of a root, in tree order (DOM Standard, interface NodeIterator). It stands just
/// before or just behind a node, its reference.
#[derive(Drop)]
pub struct Iter {
    root: Key,
    reference: Key,
    before: bool,
    filter: Filter,
}

impl Model for Iter {
    ghost use Rattle.dom_traversal.specs.Filters.{filter_of};
    ghost use Rattle.dom_traversal.specs.Iterators.{KeyedIterator};

    ghost Value = { KeyedIterator };

    ghost view = { λ i. record { root = i.root; reference = i.reference; before = i.before; filter = filter_of i.filter } };
}

impl Iter {
    /// An iterator just before its root (DOM Standard, createNodeIterator).
    pub fn new(root: Key, filter: Filter) -> Self
        ensures value { result ≡ record { root = root; reference = root; before = true; filter = filter_of filter } }
        // The last condition is what a forest's `law_nodes_stand_once` says of its nodes.
        ensures begins { (f : NamedTrees) → root < length f.names → count_by (λ n. name_eq n.name (name_at f.names root)) (nodes f.trees) ≡ 1 →
            IsIteratorOf f result }
    {
        Iter {
            root,
            reference: root,
            before: true,
            filter,
        }
    }

    /// The reference, and whether the iterator stands before it (DOM Standard, referenceNode and
    /// pointerBeforeReferenceNode).
    pub fn at(&self) -> (Key, bool)
        ensures { result ≡ (self.now.reference, self.now.before) }
    {
        (self.reference, self.before)
    }

    /// Goes behind the next node that the filter accepts, and answers it; where there is none, stays (DOM Standard,
    /// nextNode).
    pub fn next(&mut self, forest: &Forest) -> Option<Key>
        requires { IsIteratorOf forest.now self.old }
        ensures value { option_map (name_of forest.now) result ≡ iterator_next_node forest.now.trees (iterator_view forest.now.names self.old) }
        ensures state { self.new ≡ iterator_at self.old false result }
        ensures kept { IsIteratorOf forest.now self.new }
        // So a loop over the nodes ends.
        ensures fewer { ForSome result (λ _. iterator_left forest.now self.new < iterator_left forest.now self.old) }
    {
        forest.law_nodes_stand_once();
        let found = self
            .filter
            .first_from(forest, self.ahead(forest), self.root)?;
        self.reference = found;
        self.before = false;
        Some(found)
    }

    /// Goes before the node before it that the filter accepts, and answers it; where there is none, stays (DOM Standard,
    /// previousNode).
    pub fn previous(&mut self, forest: &Forest) -> Option<Key>
        requires { IsIteratorOf forest.now self.old }
        ensures value { option_map (name_of forest.now) result ≡ iterator_previous_node forest.now.trees (iterator_view forest.now.names self.old) }
        ensures state { self.new ≡ iterator_at self.old true result }
        ensures kept { IsIteratorOf forest.now self.new }
    {
        let found = self
            .filter
            .last_up_to(forest, self.passed(forest), self.root)?;
        self.reference = found;
        self.before = true;
        Some(found)
    }

    /// The pre-remove steps of a NodeIterator: it leaves the tree of a node that is about to be removed, while it is still linked (DOM
    /// Standard, NodeIterator pre-remove steps).
    pub fn on_remove(&mut self, forest: &Forest, node: Key)
        requires node_is_node { IsNode forest.now node }
        requires iterator { IsIteratorOf forest.now self.old }
        ensures value { iterator_view forest.now.names self.new ≡ adjusted_iterator forest.now.trees (name_of forest.now node)
            (iterator_view forest.now.names self.old) }
        ensures root { self.new.root ≡ self.old.root }
        ensures kept { IsIteratorOf forest.now self.new }
        ensures left { HasLeft forest.now self.new node }
    {
        forest.law_nodes_stand_once();
        if forest.is_inclusive_ancestor(node, self.root)
            || !forest.is_inclusive_ancestor(node, self.reference)
        {
            return;
        }
        if self.before {
            if let Some(next) = beyond(forest, node, self.root) {
                self.reference = next;
                return;
            }
        }
        if let Some(previous) = forest.preceding(node, self.root) {
            self.reference = previous;
            self.before = false;
        }
    }

    /// The first node behind the iterator.
    fn ahead(&self, forest: &Forest) -> Option<Key>
        requires { IsIteratorOf forest.now self.now }
        ensures value { from_node forest.now.trees (name_of forest.now self.now.root)
            (option_map (name_of forest.now) result) ≡ nodes_ahead forest.now.trees (iterator_view forest.now.names self.now) }
        ensures stands { ForSome result (StandsIn forest.now self.now.root) }
    {
        forest.law_nodes_stand_once();
        if self.before {
            return Some(self.reference);
        }
        forest.following(self.reference, self.root)
    }

    /// The last node before the iterator.
    fn passed(&self, forest: &Forest) -> Option<Key>
        requires { IsIteratorOf forest.now self.now }
        ensures value { up_to_node forest.now.trees (name_of forest.now self.now.root)
            (option_map (name_of forest.now) result) ≡ nodes_passed forest.now.trees (iterator_view forest.now.names self.now) }
        ensures stands { ForSome result (StandsIn forest.now self.now.root) }
    {
        forest.law_nodes_stand_once();
        if self.before {
            return forest.preceding(self.reference, self.root);
        }
        Some(self.reference)
    }
}

/// Holds of every forest: an iterator whose reference has left a node's tree stays one of the forest when that tree is
/// taken out.
pub fn law_iterators_stay(forest: &Forest)
    ensures { (i : KeyedIterator) (node : ℕ) → IsNode forest.now node → IsIteratorOf forest.now i → HasLeft forest.now i node →
        IsIteratorOf (with_taken_out forest.now node) i }
{
    forest.law_nodes_stand_once();
}

/// Holds of every forest (own rule): an iterator whose root is in the tree of a node that moves goes along. It stays one of the
/// forest when that tree is taken out, without a call of `on_remove`. So does every iterator when a tree is placed below a node, and
/// while above each node stands what stood there, as under changes of contents.
pub fn law_iterators_go_along(forest: &Forest)
    ensures taken_out { (i : KeyedIterator) (node : ℕ) → IsNode forest.now node → IsIteratorOf forest.now i →
        is_inclusive_ancestor forest.now.trees (name_of forest.now node) (name_of forest.now i.root) ≡ true →
        IsIteratorOf (with_taken_out forest.now node) i }
    ensures placed { (i : KeyedIterator) (node parent : ℕ) (before : Option ℕ) → IsNode forest.now node → IsNode forest.now parent →
        parent_of forest.now.trees (name_of forest.now node) ≡ None →
        is_inclusive_ancestor forest.now.trees (name_of forest.now node) (name_of forest.now parent) ≡ false →
        IsIteratorOf forest.now i → IsIteratorOf (with_placed forest.now node parent before) i }
    ensures kept { (i : KeyedIterator) (f : NamedTrees) → f.names ≡ forest.now.names →
        ((x : Name) → inclusive_ancestors f.trees x ≡ inclusive_ancestors forest.now.trees x) → IsIteratorOf forest.now i → IsIteratorOf f i }
{
    forest.law_nodes_stand_once();
    law_iterators_stay(forest);
}
