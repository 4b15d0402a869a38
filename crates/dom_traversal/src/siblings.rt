//! Searches among the nodes that stand in the place of the siblings of a node, or of the children of a node: those that are
//! accepted and reached through skipped nodes alone.
ghost use Rattle.std.specs.Prelude.{◌≡◌, ◌++◌, List, false};
ghost use Rattle.std.specs.Option.{option_map, ForSome};
ghost use Rattle.dom_model.specs.Names.{first_of};
ghost use Rattle.dom_model.specs.Traversal.{accepts};
ghost use Rattle.dom_base.specs.declared.NodeName.{NodeName as Name};
ghost use Rattle.dom_model.specs.Tree.{ancestors};
ghost use Rattle.dom_tree.specs.Forest.{IsNode, name_of};
ghost use Rattle.dom_traversal.specs.Filters.{filter_of};
ghost use Rattle.dom_traversal.specs.Directions.{sibling_in, outer_child};
ghost use Rattle.dom_traversal.specs.Walkers.{is_stop, stop_above, StepsBeside};
ghost use Rattle.dom_laws.specs.Within.{behind};
ghost use Rattle.dom_tree.specs.Within.{StandsBelow};

use crate::filter::Filter;
use crate::iter::Direction;
use dom_tree::Forest;
use node_arena::Key;

impl Filter {
    /// The node beside a node and its tree in a direction, in the tree of the nearest node above it that is accepted or is `top`:
    /// the sibling of the node in that direction, or of the nearest node above it that has one.
    pub(crate) fn beside(
        &self,
        forest: &Forest,
        direction: Direction,
        key: Key,
        top: Key,
    ) -> Option<Key>
        requires top_is_node { IsNode forest.now top }
        requires below { StandsBelow forest.now top key }
        ensures value { StepsBeside direction forest.now.trees (filter_of self.now)
            (stop_above forest.now.trees (filter_of self.now) (name_of forest.now top) (name_of forest.now key))
            (name_of forest.now key) (option_map (name_of forest.now) result) }
        ensures below { ForSome result (StandsBelow forest.now top) }
        ensures stop { ForSome result (λ k. stop_above forest.now.trees (filter_of self.now) (name_of forest.now top)
            (name_of forest.now k) ≡ stop_above forest.now.trees (filter_of self.now) (name_of forest.now top)
            (name_of forest.now key)) }
        ensures path { ForSome result (λ k. (above : List Name) ×
            (ancestors forest.now.trees (name_of forest.now key) ≡ above ++ ancestors forest.now.trees (name_of forest.now k))) }
    {
        forest.law_nodes_stand_once();
        let mut at = key;
        'up: loop {
            let found = sibling(forest, direction, at);
            if found.is_some() {
                return found;
            }
            let parent = forest.parent(at)?;
            if self.is_stop(forest, parent, top) {
                return None;
            }
            at = parent;
        }
    }

    /// The first child of a skipped node, and the node beside one without children.
    pub(crate) fn onward(&self, forest: &Forest, key: Key, top: Key) -> Option<Key>
        requires top_is_node { IsNode forest.now top }
        requires below { StandsBelow forest.now top key }
        requires skipped { accepts forest.now.trees (filter_of self.now) (name_of forest.now key) ≡ false }
        ensures value { option_map (name_of forest.now) result ≡ first_of
            (behind forest.now.trees (stop_above forest.now.trees (filter_of self.now) (name_of forest.now top)
            (name_of forest.now key)) (name_of forest.now key)) }
        ensures below { ForSome result (StandsBelow forest.now top) }
        ensures stop { ForSome result (λ k. stop_above forest.now.trees (filter_of self.now) (name_of forest.now top)
            (name_of forest.now k) ≡ stop_above forest.now.trees (filter_of self.now) (name_of forest.now top)
            (name_of forest.now key)) }
    {
        forest.law_nodes_stand_once();
        let child = forest.first(key);
        if child.is_some() {
            return child;
        }
        self.beside(forest, Direction::Next, key, top)
    }

    /// Whether a node is accepted or is `top`.
    fn is_stop(&self, forest: &Forest, key: Key, top: Key) -> bool
        requires key_is_node { IsNode forest.now key }
        requires top_is_node { IsNode forest.now top }
        ensures { result ≡ is_stop forest.now.trees (filter_of self.now) (name_of forest.now top) (name_of forest.now key) }
    {
        forest.law_nodes_stand_once();
        self.accepts(forest, key) || key == top
    }
}

/// The sibling of a node in a direction (DOM Standard, concepts: next sibling, previous sibling).
fn sibling(forest: &Forest, direction: Direction, key: Key) -> Option<Key>
    requires { IsNode forest.now key }
    ensures value { option_map (name_of forest.now) result ≡ sibling_in direction forest.now.trees (name_of forest.now key) }
    ensures node { ForSome result (IsNode forest.now) }
{
    match direction {
        Direction::Next => forest.next(key),
        Direction::Previous => forest.prev(key),
    }
}

/// The child of a node with which a search in a direction begins (DOM Standard, concepts: first child, last child).
pub(crate) fn outer_child(forest: &Forest, direction: Direction, key: Key) -> Option<Key>
    requires { IsNode forest.now key }
    ensures value { option_map (name_of forest.now) result ≡ outer_child direction forest.now.trees (name_of forest.now key) }
    ensures node { ForSome result (IsNode forest.now) }
{
    match direction {
        Direction::Next => forest.first(key),
        Direction::Previous => forest.last(key),
    }
}
