//! The child of a node at an offset (DOM Standard, 5.2 Boundary points).
ghost use Rattle.std.specs.Prelude.{◌≡◌, ◌↔◌, drop, Some, IsTrue};
ghost use Rattle.std.specs.Option.{option_map, ForSome};
ghost use Rattle.dom_model.specs.Names.{first_of};
ghost use Rattle.dom_model.specs.Tree.{children_of};
ghost use Rattle.dom_tree.specs.Forest.{IsNode, name_of};

use dom_tree::Forest;
use node_arena::Key;

/// The child of a node at an index, where there are so many, as the first of those from there on.
pub(crate) fn child_at(forest: &Forest, node: Key, index: usize) -> Option<Key>
    requires { IsNode forest.now node }
    ensures value { option_map (name_of forest.now) result ≡ first_of (drop index (children_of forest.now.trees (name_of forest.now node))) }
    ensures node { ForSome result (IsNode forest.now) }
{
    forest.child(node, index)
}

/// Whether a node is the one found.
pub(crate) fn is_node(found: Option<Key>, key: Key) -> bool
    ensures { IsTrue result ↔ (found ≡ Some key) }
{
    match found {
        Some(node) => node == key,
        None => false,
    }
}
