//! Searches for the nodes that a filter accepts, along the links of a tree.
ghost use Rattle.std.specs.Prelude.{◌≡◌, ◌++◌, ◌∷◌, [], List, Some, true, filter};
ghost use Rattle.std.specs.List.{list_all};
ghost use Rattle.dom_base.specs.declared.NodeName.{NodeName as Name};
ghost use Rattle.std.specs.Option.{option_map, ForSome};
ghost use Rattle.dom_model.specs.Names.{first_of, last_of};
ghost use Rattle.dom_model.specs.Traversal.{accepts};
ghost use Rattle.dom_model.specs.Tree.{ancestors, inclusive_descendants, is_inclusive_ancestor};
ghost use Rattle.dom_tree.specs.Forest.{IsNode, name_of};
ghost use Rattle.dom_traversal.specs.Filters.{filter_of};
ghost use Rattle.dom_laws.specs.Within.{beyond, from_node, up_to_node, up_to_tree};
ghost use Rattle.dom_tree.specs.Within.{StandsIn};
ghost use Rattle.dom_traversal.specs.Walkers.{is_entered};

use crate::filter::Filter;
use dom_base::Verdict;
use dom_tree::Forest;
use node_arena::Key;

impl Filter {
    /// The first node that the filter accepts, from a node on in the tree of `top`.
    pub(crate) fn first_from(&self, forest: &Forest, from: Option<Key>, top: Key) -> Option<Key>
        requires top_is_node { IsNode forest.now top }
        requires from_stands { ForSome from (StandsIn forest.now top) }
        ensures value { option_map (name_of forest.now) result ≡ first_of
            (filter (accepts forest.now.trees (filter_of self.now))
            (from_node forest.now.trees (name_of forest.now top) (option_map (name_of forest.now) from))) }
        ensures stands { ForSome result (StandsIn forest.now top) }
    {
        forest.law_nodes_stand_once();
        let mut at = from;
        while let Some(key) = at {
            if self.accepts(forest, key) {
                return Some(key);
            }
            at = forest.following(key, top);
        }
        None
    }

    /// The last node that the filter accepts, up to a node in the tree of `top`.
    pub(crate) fn last_up_to(&self, forest: &Forest, to: Option<Key>, top: Key) -> Option<Key>
        requires top_is_node { IsNode forest.now top }
        requires to_stands { ForSome to (StandsIn forest.now top) }
        ensures value { option_map (name_of forest.now) result ≡ last_of
            (filter (accepts forest.now.trees (filter_of self.now))
            (up_to_node forest.now.trees (name_of forest.now top) (option_map (name_of forest.now) to))) }
        ensures stands { ForSome result (StandsIn forest.now top) }
    {
        forest.law_nodes_stand_once();
        let mut at = to;
        while let Some(key) = at {
            if self.accepts(forest, key) {
                return Some(key);
            }
            at = forest.preceding(key, top);
        }
        None
    }

    /// From a node down to the last child again and again, as far as there is one and the node is skipped, or, where the
    /// way is to go through accepted nodes too, not rejected.
    pub(crate) fn lowest(&self, forest: &Forest, key: Key, through: bool) -> Key
        requires { IsNode forest.now key }
        ensures node { IsNode forest.now result }
        ensures within { (top : Name) → is_inclusive_ancestor forest.now.trees top (name_of forest.now key) ≡ true →
            is_inclusive_ancestor forest.now.trees top (name_of forest.now result) ≡ true }
        ensures tree { (top : Name) → is_inclusive_ancestor forest.now.trees top (name_of forest.now key) ≡ true →
            up_to_tree forest.now.trees top (Some (name_of forest.now result)) ≡ up_to_tree forest.now.trees top
            (Some (name_of forest.now key)) }
        ensures ends { is_entered forest.now.trees (filter_of self.now) through (name_of forest.now result) ≡ true →
            inclusive_descendants forest.now.trees (name_of forest.now result) ≡ name_of forest.now result ∷ [] }
        ensures path { (between : List Name) ×
            (ancestors forest.now.trees (name_of forest.now result) ≡ between ++ ancestors forest.now.trees (name_of forest.now key))
            × (list_all (is_entered forest.now.trees (filter_of self.now) through) between ≡ true) }
    {
        forest.law_nodes_stand_once();
        let mut at = key;
        while self.is_entered(forest, at, through) {
            let Some(last) = forest.last(at) else {
                return at;
            };
            at = last;
        }
        at
    }

    /// Whether a node is skipped, or, where the way is to go through accepted nodes too, not rejected.
    fn is_entered(&self, forest: &Forest, key: Key, through: bool) -> bool
        requires { IsNode forest.now key }
        ensures { result ≡ is_entered forest.now.trees (filter_of self.now) through (name_of forest.now key) }
    {
        match self.answer(forest, key) {
            Some(Verdict::Skip) => true,
            Some(Verdict::Reject) => false,
            None => through,
        }
    }
}

/// The first node of the tree of `top` that stands behind a node of it, in tree order, and is not below that (own rule); none where
/// there is no such node.
pub fn beyond(forest: &Forest, key: Key, top: Key) -> Option<Key>
    requires top_is_node { IsNode forest.now top }
    requires stands { StandsIn forest.now top key }
    ensures value { option_map (name_of forest.now) result ≡ first_of
        (beyond forest.now.trees (name_of forest.now top) (name_of forest.now key)) }
    ensures stands { ForSome result (StandsIn forest.now top) }
{
    forest.law_nodes_stand_once();
    let mut at = key;
    while at != top {
        let next = forest.next(at);
        if next.is_some() {
            return next;
        }
        at = forest.parent(at)?;
    }
    None
}
