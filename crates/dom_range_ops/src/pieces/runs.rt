//! Runs of siblings that are taken as they are.
ghost use Rattle.std.specs.Prelude.{map, take, drop, OnOk, if◌then◌else◌};
ghost use Rattle.std.specs.Option.{option_map, ForSome};
ghost use Rattle.dom_model.specs.Tree.{children_of};
ghost use Rattle.dom_range_ops.specs.Pieces.{Adds, whole_item, from_sibling, up_to};
ghost use Rattle.dom_tree.specs.Forest.{IsNode, name_of};

use super::Piece;
use crate::points::{child_at, is_node};
use dom_tree::Forest;
use node_arena::Key;
use std::alloc::AllocError;

/// A node and the siblings behind it are added to pieces, up to another one of them; none where there is no node, and all
/// where there is no other one.
pub(super) fn push_siblings(
    pieces: &mut Vec<Piece>,
    forest: &Forest,
    from: Option<Key>,
    until: Option<Key>,
) -> Result<(), AllocError>
    requires from_is_node { ForSome from (IsNode forest.now) }
    requires until_is_node { ForSome until (IsNode forest.now) }
    ensures { OnOk result (Adds forest.now.names pieces.old.items pieces.new.items
        (map whole_item (up_to (option_map (name_of forest.now) until)
        (from_sibling forest.now.trees (option_map (name_of forest.now) from))))) }
{
    forest.law_nodes_stand_once();
    let mut at = from;
    while let Some(key) = at {
        let stop = until;
        if is_node(stop, key) {
            break;
        }
        pieces.push(Piece::Whole(key))?;
        at = forest.next(key);
    }
    Ok(())
}

/// The children of a node from an offset on, or else those in front of it.
pub(super) fn push_children(
    pieces: &mut Vec<Piece>,
    forest: &Forest,
    point: (Key, usize),
    behind: bool,
) -> Result<(), AllocError>
    requires { IsNode forest.now point.0 }
    ensures { OnOk result (Adds forest.now.names pieces.old.items pieces.new.items
        (map whole_item (if behind then drop point.1 (children_of forest.now.trees (name_of forest.now point.0)) else take point.1
        (children_of forest.now.trees (name_of forest.now point.0))))) }
{
    forest.law_nodes_stand_once();
    let (node, offset) = point;
    let first_behind = child_at(forest, node, offset);
    if behind {
        return push_siblings(pieces, forest, first_behind, None);
    }
    push_siblings(pieces, forest, forest.first(node), first_behind)
}
