//! Walkers, which move from node to node in a tree.
ghost use Rattle.std.specs.Prelude.{◌≡◌, ◌<◌, ◌≤◌, length, filter};
ghost use Rattle.std.specs.Option.{option_map, ForSome};
ghost use Rattle.dom_base.specs.declared.Move.TheVariants as moves;
ghost use Rattle.dom_model.specs.Names.{first_of, last_of};
ghost use Rattle.dom_model.specs.Traversal.{walker_move, walker_nodes};
ghost use Rattle.dom_tree.specs.Forest.{IsNode, name_of};
ghost use Rattle.dom_traversal.specs.Filters.{filter_of};
ghost use Rattle.dom_traversal.specs.Walkers.{walker_view, IsWalkerOf, walker_at, walker_left, is_reached, stop_of, is_candidate, BeginsForward};
ghost use Rattle.dom_traversal.specs.Walkers.{ComesBack, BeginsBackward, Begins, reached_from};
ghost use Rattle.dom_traversal.specs.Directions.{child_move, sibling_move};
ghost use Rattle.dom_laws.specs.Within.{ahead_of, from_node, up_to_node, up_to_tree};

use crate::filter::Filter;
use crate::iter::Direction;
use crate::search::beyond;
use crate::siblings::outer_child;
use dom_base::Verdict;
use dom_tree::Forest;
use node_arena::Key;
use std::marker::Model;

/// A TreeWalker: a node of the tree of a root, from which one moves to others that a filter accepts (DOM Standard, interface TreeWalker).
/// Moves do not look at what is below a node that the filter rejects, and see the children of a node that it skips in
/// the place of that node. A move that finds no node leaves the walker where it is. Own rule: while the current node does
/// not stand in the tree of the root, no move finds a node.
#[derive(Drop)]
pub struct Walker {
    root: Key,
    current: Key,
    filter: Filter,
}

impl Model for Walker {
    ghost use Rattle.dom_traversal.specs.Filters.{filter_of};
    ghost use Rattle.dom_traversal.specs.Walkers.{KeyedWalker};

    ghost Value = { KeyedWalker };

    ghost view = { λ w. record { root = w.root; current = w.current; filter = filter_of w.filter } };
}

impl Walker {
    /// A walker at its root (DOM Standard, createTreeWalker).
    pub fn new(root: Key, filter: Filter) -> Self
        ensures { result ≡ record { root = root; current = root; filter = filter_of filter } }
    {
        Walker {
            root,
            current: root,
            filter,
        }
    }

    /// The root (DOM Standard, root).
    pub(crate) fn root(&self) -> Key
        ensures { result ≡ self.now.root }
    {
        self.root
    }

    /// The current node (DOM Standard, currentNode).
    pub fn at(&self) -> Key
        ensures { result ≡ self.now.current }
    {
        self.current
    }

    /// Makes any node the current one (DOM Standard, currentNode).
    pub fn set(&mut self, current: Key)
        ensures { self.new ≡ record self.old { current = current } }
    {
        self.current = current;
    }

    /// Goes to the first accepted node behind the current one in tree order (DOM Standard, nextNode).
    pub fn next(&mut self, forest: &Forest) -> Option<Key>
        requires { IsWalkerOf forest.now self.old }
        ensures value { option_map (name_of forest.now) result ≡ walker_move forest.now.trees (walker_view forest.now.names self.old) moves.Next }
        ensures state { self.new ≡ walker_at self.old result }
        ensures kept { IsWalkerOf forest.now self.new }
        // So a loop over the nodes ends.
        ensures fewer { ForSome result (λ _. walker_left forest.now self.new < walker_left forest.now self.old) }
    {
        forest.law_nodes_stand_once();
        let found = self.next_node(forest)?;
        self.current = found;
        Some(found)
    }

    /// Where `next` goes.
    fn next_node(&self, forest: &Forest) -> Option<Key>
        requires { IsWalkerOf forest.now self.now }
        ensures value { option_map (name_of forest.now) result ≡ walker_move forest.now.trees (walker_view forest.now.names self.now) moves.Next }
        ensures node { ForSome result (IsNode forest.now) }
    {
        forest.law_nodes_stand_once();
        if !forest.is_inclusive_ancestor(self.root, self.current) {
            return None;
        }
        let mut at = forest.following(self.current, self.root);
        while let Some(key) = at {
            at = match self.filter.answer(forest, key) {
                None => return Some(key),
                Some(Verdict::Skip) => forest.following(key, self.root),
                Some(Verdict::Reject) => beyond(forest, key, self.root),
            };
        }
        None
    }

    /// Goes to the first child, where skipped nodes give way to their children (DOM Standard, firstChild).
    pub fn first(&mut self, forest: &Forest) -> Option<Key>
        requires { IsWalkerOf forest.now self.old }
        ensures value { option_map (name_of forest.now) result ≡ walker_move forest.now.trees (walker_view forest.now.names self.old) moves.First }
        ensures state { self.new ≡ walker_at self.old result }
        ensures kept { IsWalkerOf forest.now self.new }
    {
        let found = self.child_node(forest, Direction::Next)?;
        self.current = found;
        Some(found)
    }

    /// Goes to the next sibling, where skipped nodes give way to their children (DOM Standard, nextSibling).
    pub fn next_sibling(&mut self, forest: &Forest) -> Option<Key>
        requires { IsWalkerOf forest.now self.old }
        ensures value { option_map (name_of forest.now) result ≡ walker_move forest.now.trees (walker_view forest.now.names self.old) moves.NextSibling }
        ensures state { self.new ≡ walker_at self.old result }
        ensures kept { IsWalkerOf forest.now self.new }
    {
        let found = self.sibling_node(forest, Direction::Next)?;
        self.current = found;
        Some(found)
    }

    /// Where `first` goes, and in the other direction `last`.
    fn child_node(&self, forest: &Forest, direction: Direction) -> Option<Key>
        requires { IsWalkerOf forest.now self.now }
        ensures value { option_map (name_of forest.now) result ≡ walker_move forest.now.trees (walker_view forest.now.names self.now)
            (child_move direction) }
        ensures node { ForSome result (IsNode forest.now) }
    {
        forest.law_nodes_stand_once();
        if !forest.is_inclusive_ancestor(self.root, self.current) {
            return None;
        }
        let child = outer_child(forest, direction, self.current);
        self.reached(forest, direction, child, self.current)
    }

    /// Where `next_sibling` goes, and in the other direction `previous_sibling`.
    fn sibling_node(&self, forest: &Forest, direction: Direction) -> Option<Key>
        requires { IsWalkerOf forest.now self.now }
        ensures value { option_map (name_of forest.now) result ≡ walker_move forest.now.trees (walker_view forest.now.names self.now)
            (sibling_move direction) }
        ensures node { ForSome result (IsNode forest.now) }
    {
        forest.law_nodes_stand_once();
        if self.current == self.root || !forest.is_inclusive_ancestor(self.root, self.current) {
            return None;
        }
        let from = self
            .filter
            .beside(forest, direction, self.current, self.root);
        self.reached(forest, direction, from, self.root)
    }

    /// The first node in a direction that is accepted and reached through opened nodes alone, from a node on in the tree of
    /// the nearest node above it that is accepted or is `top`.
    fn reached(
        &self,
        forest: &Forest,
        direction: Direction,
        from: Option<Key>,
        top: Key,
    ) -> Option<Key>
        requires walker { IsWalkerOf forest.now self.now }
        requires top_is_node { IsNode forest.now top }
        requires begins { ForSome from (Begins direction forest.now self.now top) }
        ensures value { option_map (name_of forest.now) result ≡ reached_from direction forest.now.trees (walker_view forest.now.names self.now)
            (stop_of forest.now.trees self.now.filter (name_of forest.now top) (option_map (name_of forest.now) from))
            (option_map (name_of forest.now) from) }
        ensures node { ForSome result (IsNode forest.now) }
    {
        match direction {
            Direction::Next => self.first_reached(forest, from, top),
            Direction::Previous => self.last_reached(forest, from, top),
        }
    }

    /// The first node that is accepted and reached through opened nodes alone, from a node on in the tree of the nearest
    /// node above it that is accepted or is `top`.
    fn first_reached(&self, forest: &Forest, from: Option<Key>, top: Key) -> Option<Key>
        requires walker { IsWalkerOf forest.now self.now }
        requires top_is_node { IsNode forest.now top }
        requires begins { ForSome from (BeginsForward forest.now self.now top) }
        ensures value { option_map (name_of forest.now) result ≡ first_of
            (filter (is_reached forest.now.trees (walker_view forest.now.names self.now))
            (from_node forest.now.trees (stop_of forest.now.trees self.now.filter (name_of forest.now top)
            (option_map (name_of forest.now) from)) (option_map (name_of forest.now) from))) }
        ensures node { ForSome result (IsNode forest.now) }
    {
        forest.law_nodes_stand_once();
        let mut at = from;
        while let Some(key) = at {
            at = match self.filter.answer(forest, key) {
                None => return Some(key),
                Some(Verdict::Skip) => self.filter.onward(forest, key, top),
                Some(Verdict::Reject) => self.filter.beside(forest, Direction::Next, key, top),
            };
        }
        None
    }

    /// Goes to the last accepted node before the current one in tree order (DOM Standard, previousNode).
    pub fn previous(&mut self, forest: &Forest) -> Option<Key>
        requires { IsWalkerOf forest.now self.old }
        ensures value { option_map (name_of forest.now) result ≡ walker_move forest.now.trees (walker_view forest.now.names self.old) moves.Previous }
        ensures state { self.new ≡ walker_at self.old result }
        ensures kept { IsWalkerOf forest.now self.new }
    {
        let found = self.previous_node(forest)?;
        self.current = found;
        Some(found)
    }

    /// Where `previous` goes.
    fn previous_node(&self, forest: &Forest) -> Option<Key>
        requires { IsWalkerOf forest.now self.now }
        ensures value { option_map (name_of forest.now) result ≡ walker_move forest.now.trees (walker_view forest.now.names self.now) moves.Previous }
        ensures node { ForSome result (IsNode forest.now) }
    {
        forest.law_nodes_stand_once();
        if !forest.is_inclusive_ancestor(self.root, self.current) {
            return None;
        }
        let mut at = self.back(forest, self.current);
        while let Some(key) = at {
            if self.filter.accepts(forest, key) {
                return Some(key);
            }
            at = self.back(forest, key);
        }
        None
    }

    /// The node to look at next in a search backward, behind all nodes before a node that are still to be looked at.
    fn back(&self, forest: &Forest, key: Key) -> Option<Key>
        requires walker { IsWalkerOf forest.now self.now }
        requires comes { ComesBack forest.now self.now key }
        ensures value { walker_nodes forest.now.trees (walker_view forest.now.names self.now)
            (up_to_node forest.now.trees (name_of forest.now self.now.root) (option_map (name_of forest.now) result)) ≡ walker_nodes
            forest.now.trees (walker_view forest.now.names self.now)
            (ahead_of forest.now.trees (name_of forest.now self.now.root) (name_of forest.now key)) }
        ensures comes { ForSome result (ComesBack forest.now self.now) }
        ensures shorter { length (up_to_node forest.now.trees (name_of forest.now self.now.root)
            (option_map (name_of forest.now) result)) ≤ length
            (ahead_of forest.now.trees (name_of forest.now self.now.root) (name_of forest.now key)) }
    {
        forest.law_nodes_stand_once();
        if key == self.root {
            return None;
        }
        let Some(sibling) = forest.prev(key) else {
            return forest.parent(key);
        };
        Some(self.filter.lowest(forest, sibling, true))
    }

    /// Goes to the nearest accepted node above the current one, up to the root (DOM Standard, parentNode).
    pub fn parent(&mut self, forest: &Forest) -> Option<Key>
        requires { IsWalkerOf forest.now self.old }
        ensures value { option_map (name_of forest.now) result ≡ walker_move forest.now.trees (walker_view forest.now.names self.old) moves.Parent }
        ensures state { self.new ≡ walker_at self.old result }
        ensures kept { IsWalkerOf forest.now self.new }
    {
        let found = self.parent_node(forest)?;
        self.current = found;
        Some(found)
    }

    /// Where `parent` goes.
    fn parent_node(&self, forest: &Forest) -> Option<Key>
        requires { IsWalkerOf forest.now self.now }
        ensures value { option_map (name_of forest.now) result ≡ walker_move forest.now.trees (walker_view forest.now.names self.now) moves.Parent }
        ensures node { ForSome result (IsNode forest.now) }
    {
        forest.law_nodes_stand_once();
        if !forest.is_inclusive_ancestor(self.root, self.current) {
            return None;
        }
        let mut at = self.current;
        while at != self.root {
            at = forest.parent(at)?;
            if self.filter.accepts(forest, at) {
                return Some(at);
            }
        }
        None
    }

    /// Goes to the last child, where skipped nodes give way to their children (DOM Standard, lastChild).
    pub fn last(&mut self, forest: &Forest) -> Option<Key>
        requires { IsWalkerOf forest.now self.old }
        ensures value { option_map (name_of forest.now) result ≡ walker_move forest.now.trees (walker_view forest.now.names self.old) moves.Last }
        ensures state { self.new ≡ walker_at self.old result }
        ensures kept { IsWalkerOf forest.now self.new }
    {
        let found = self.child_node(forest, Direction::Previous)?;
        self.current = found;
        Some(found)
    }

    /// Goes to the previous sibling, where skipped nodes give way to their children (DOM Standard, previousSibling).
    pub fn previous_sibling(&mut self, forest: &Forest) -> Option<Key>
        requires { IsWalkerOf forest.now self.old }
        ensures value { option_map (name_of forest.now) result ≡ walker_move forest.now.trees (walker_view forest.now.names self.old)
            moves.PreviousSibling }
        ensures state { self.new ≡ walker_at self.old result }
        ensures kept { IsWalkerOf forest.now self.new }
    {
        let found = self.sibling_node(forest, Direction::Previous)?;
        self.current = found;
        Some(found)
    }

    /// The last node that is accepted and reached through opened nodes alone, up to a node and its tree in the tree of the
    /// nearest node above it that is accepted or is `top`.
    fn last_reached(&self, forest: &Forest, from: Option<Key>, top: Key) -> Option<Key>
        requires walker { IsWalkerOf forest.now self.now }
        requires top_is_node { IsNode forest.now top }
        requires begins { ForSome from (BeginsBackward forest.now self.now top) }
        ensures value { option_map (name_of forest.now) result ≡ last_of
            (filter (is_candidate forest.now.trees (walker_view forest.now.names self.now)
            (stop_of forest.now.trees self.now.filter (name_of forest.now top) (option_map (name_of forest.now) from)))
            (up_to_tree forest.now.trees
            (stop_of forest.now.trees self.now.filter (name_of forest.now top) (option_map (name_of forest.now) from))
            (option_map (name_of forest.now) from))) }
        ensures node { ForSome result (IsNode forest.now) }
    {
        forest.law_nodes_stand_once();
        let mut at = from;
        while let Some(key) = at {
            let low = self.filter.lowest(forest, key, false);
            if self.filter.accepts(forest, low) {
                return Some(low);
            }
            at = self.filter.beside(forest, Direction::Previous, low, top);
        }
        None
    }
}
