//! The elements among the siblings of a node.
ghost use Rattle.std.specs.Prelude.{◌≡◌};
ghost use Rattle.std.specs.Option.{option_map, ForSome};
ghost use Rattle.dom_model.specs.Tree.{is_element as spec_is_element, kind_of};
ghost use Rattle.dom_selectors.specs.Siblings.{sibling_on, element_on};
ghost use Rattle.dom_tree.specs.Forest.{IsNode, name_of};

use dom_base::Kind;
use dom_tree::Forest;
use node_arena::Key;

/// A side of a node among its siblings.
#[derive(Clone, Copy)]
pub(crate) enum Side {
    Before,
    Behind,
}

/// Whether a node is an element.
fn is_element(forest: &Forest, key: Key) -> bool
    requires { IsNode forest.now key }
    ensures { result ≡ spec_is_element (kind_of forest.now.trees (name_of forest.now key)) }
{
    matches!(forest.kind(key), Kind::Element)
}

/// The sibling just beside a node on a side.
#[inline(always)]
fn sibling(forest: &Forest, side: Side, key: Key) -> Option<Key>
    requires { IsNode forest.now key }
    ensures value { option_map (name_of forest.now) result ≡ sibling_on side forest.now.trees (name_of forest.now key) }
    ensures node { ForSome result (IsNode forest.now) }
{
    match side {
        Side::Before => forest.prev(key),
        Side::Behind => forest.next(key),
    }
}

/// The nearest element on a side of a node among its siblings.
#[inline(always)]
pub(crate) fn element_beside(forest: &Forest, side: Side, key: Key) -> Option<Key>
    requires { IsNode forest.now key }
    ensures value { option_map (name_of forest.now) result ≡ element_on side forest.now.trees (name_of forest.now key) }
    ensures node { ForSome result (IsNode forest.now) }
{
    forest.law_nodes_stand_once();
    let mut at = sibling(forest, side, key);
    while let Some(beside) = at {
        if is_element(forest, beside) {
            return Some(beside);
        }
        at = sibling(forest, side, beside);
    }
    None
}
