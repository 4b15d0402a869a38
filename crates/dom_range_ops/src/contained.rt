//! The outermost nodes that a range contains (DOM Standard, concept: contained).
ghost use Rattle.std.specs.Prelude.{◌≡◌, ◌∷◌, [], map, option_to_list, IfOk};
ghost use Rattle.std.specs.List.{AllByRecursion};
ghost use Rattle.dom_model.specs.RangeOps.{outermost_contained};
ghost use Rattle.dom_range_ops.specs.Pieces.{AreSpanned, whole_keys};
ghost use Rattle.dom_range_ops.specs.Texts.{range_at_points};
ghost use Rattle.dom_tree.specs.Forest.{IsNode, name_of};

use crate::pieces::{Piece, pieces_apart};
use dom_ranges::{Points, is_before};
use dom_tree::Forest;
use node_arena::Key;
use std::alloc::{AllocError, Global};

/// The nodes that a range contains and whose parents it does not, in tree order: those that an extraction takes as they are. It
/// is refused where memory is refused.
pub(crate) fn outermost_contained(
    alloc: Global,
    forest: &Forest,
    points: &Points,
) -> Result<Vec<Key>, AllocError>
    requires { AreSpanned forest.now points.now }
    ensures value { IfOk result (λ keys. map (name_of forest.now) keys.items ≡ outermost_contained forest.now.trees
        (range_at_points forest.now.names points.now)) }
    ensures nodes { IfOk result (λ keys. AllByRecursion (IsNode forest.now) keys.items) }
{
    forest.law_nodes_stand_once();
    if is_before(forest, points.end, points.start) {
        return Ok(Vec::new(alloc));
    }
    let pieces = pieces_apart(alloc, forest, points)?;
    whole_nodes(alloc, pieces.as_slice())
}

/// The nodes of pieces that are taken as they are.
fn whole_nodes(alloc: Global, pieces: &[Piece]) -> Result<Vec<Key>, AllocError>
    ensures { IfOk result (λ keys. keys.items ≡ whole_keys pieces.now) }
{
    let mut keys = Vec::new(alloc);
    for piece in pieces {
        if let Some(key) = whole_node(*piece) {
            keys.push(key)?;
        }
    }
    Ok(keys)
}

/// The node of a piece that is taken as it is.
fn whole_node(piece: Piece) -> Option<Key>
    ensures { whole_keys (piece ∷ []) ≡ option_to_list result }
{
    match piece {
        Piece::Whole(node) => Some(node),
        _ => None,
    }
}
