//! What is taken on the side of each end of a range, and between the two.
ghost use Rattle.std.specs.Prelude.{◌≡◌, ◌++◌, ◌∷◌, [], map, filter, OnOk, if◌then◌else◌};
ghost use Rattle.std.specs.List.{AllByRecursion};
ghost use Rattle.std.specs.Option.{option_map, ForSome};
ghost use Rattle.dom_model.specs.Extract.{pieces_apart, common_ancestor};
ghost use Rattle.dom_model.specs.Names.{name_eq, items_before, items_after};
ghost use Rattle.dom_model.specs.Ranges.{at, is_contained};
ghost use Rattle.dom_model.specs.Tree.{children_of, siblings, length_of};
ghost use Rattle.dom_range_ops.specs.Pieces.{Adds, AreSpanned, ArePaths, items_of, whole_item, clone_item, end_item, wholes_if, heads, tails};
ghost use Rattle.dom_range_ops.specs.Pieces.{end_items, side_items, first_behind, first_from};
ghost use Rattle.dom_range_ops.specs.Texts.{range_at_points};
ghost use Rattle.dom_tree.specs.Forest.{IsNode, name_of};

use super::Piece;
use super::runs::{push_children, push_siblings};
use crate::ends::has_data;
use crate::points::child_at;
use dom_ranges::{Points, is_before};
use dom_tree::Forest;
use node_arena::Key;
use std::alloc::AllocError;

/// An end of a range, and whether what is behind it is taken, or else what is in front of it.
#[derive(Clone, Copy)]
struct Side {
    point: (Key, usize),
    behind: bool,
}

/// The pieces of a range that is neither collapsed nor in one Text or Comment, by the paths from its ends up to the
/// children of their lowest common inclusive ancestor: what is behind the start in its child, the children between, and
/// what is in front of the end in its child.
pub(super) fn push_pieces(
    pieces: &mut Vec<Piece>,
    forest: &Forest,
    points: &Points,
    start_path: &[Key],
    end_path: &[Key],
) -> Result<(), AllocError>
    requires spanned { AreSpanned forest.now points.now }
    requires paths { ArePaths forest.now points.now start_path.now end_path.now }
    ensures { OnOk result (Adds forest.now.names pieces.old.items pieces.new.items
        (items_of (pieces_apart forest.now.trees (range_at_points forest.now.names points.now)))) }
{
    forest.law_nodes_stand_once();
    let start = Side {
        point: points.start,
        behind: true,
    };
    let end = Side {
        point: points.end,
        behind: false,
    };
    push_side(pieces, forest, start_path, start)?;
    push_between(pieces, forest, points, start_path, end_path)?;
    push_side(pieces, forest, end_path, end)
}

/// The contained children of the lowest common inclusive ancestor: those between the two paths, and none where the end
/// comes before the start.
fn push_between(
    pieces: &mut Vec<Piece>,
    forest: &Forest,
    points: &Points,
    start_path: &[Key],
    end_path: &[Key],
) -> Result<(), AllocError>
    requires spanned { AreSpanned forest.now points.now }
    requires paths { ArePaths forest.now points.now start_path.now end_path.now }
    ensures { OnOk result (Adds forest.now.names pieces.old.items pieces.new.items
        (map whole_item (filter (is_contained forest.now.trees (range_at_points forest.now.names points.now))
        (children_of forest.now.trees (common_ancestor forest.now.trees (range_at_points forest.now.names points.now)))))) }
{
    forest.law_nodes_stand_once();
    if is_before(forest, points.end, points.start) {
        return Ok(());
    }
    let from = first_behind(forest, points.start, start_path);
    let until = first_from(forest, points.end, end_path);
    push_siblings(pieces, forest, from, until)
}

/// The first node behind a point among the children of the node above the last of a path up from it.
fn first_behind(forest: &Forest, point: (Key, usize), path: &[Key]) -> Option<Key>
    requires point_is_node { IsNode forest.now point.0 }
    requires nodes { AllByRecursion (IsNode forest.now) path.now }
    ensures value { option_map (name_of forest.now) result ≡ first_behind forest.now.trees (at (name_of forest.now point.0) point.1)
        (map (name_of forest.now) path.now) }
    ensures node { ForSome result (IsNode forest.now) }
{
    let (node, offset) = point;
    match path.last() {
        Some(child) => forest.next(*child),
        None => child_at(forest, node, offset),
    }
}

/// The first of them that is not in front of it.
fn first_from(forest: &Forest, point: (Key, usize), path: &[Key]) -> Option<Key>
    requires point_is_node { IsNode forest.now point.0 }
    requires nodes { AllByRecursion (IsNode forest.now) path.now }
    ensures value { option_map (name_of forest.now) result ≡ first_from forest.now.trees (at (name_of forest.now point.0) point.1)
        (map (name_of forest.now) path.now) }
    ensures node { ForSome result (IsNode forest.now) }
{
    let (node, offset) = point;
    match path.last() {
        Some(child) => Some(*child),
        None => child_at(forest, node, offset),
    }
}

/// What is taken of the tree of the last node of a path up from an end; nothing where there is no path.
fn push_side(
    pieces: &mut Vec<Piece>,
    forest: &Forest,
    path: &[Key],
    side: Side,
) -> Result<(), AllocError>
    requires point_is_node { IsNode forest.now side.point.0 }
    requires nodes { AllByRecursion (IsNode forest.now) path.now }
    ensures { OnOk result (Adds forest.now.names pieces.old.items pieces.new.items
        (side_items forest.now.trees (at (name_of forest.now side.point.0) side.point.1) side.behind
        (map (name_of forest.now) path.now))) }
{
    if path.is_empty() {
        return Ok(());
    }
    let behind = side.behind;
    push_heads(pieces, forest, path, !behind)?;
    push_end(pieces, forest, side)?;
    push_tails(pieces, forest, path, behind)
}

/// The clones of the nodes above the first of a path, from the outermost in, each with the children in front of the path
/// where these are taken.
fn push_heads(
    pieces: &mut Vec<Piece>,
    forest: &Forest,
    path: &[Key],
    before: bool,
) -> Result<(), AllocError>
    requires { AllByRecursion (IsNode forest.now) path.now }
    ensures { OnOk result (Adds forest.now.names pieces.old.items pieces.new.items (heads forest.now.trees before (map (name_of forest.now) path.now))) }
{
    let mut at = path.len();
    while at > 1 {
        at -= 1;
        push_head(pieces, forest, path[at], path[at - 1], before)?;
    }
    Ok(())
}

/// The clone of a node, and its children in front of one of them where these are taken.
fn push_head(
    pieces: &mut Vec<Piece>,
    forest: &Forest,
    node: Key,
    child: Key,
    before: bool,
) -> Result<(), AllocError>
    requires node { IsNode forest.now node }
    requires child { IsNode forest.now child }
    ensures { OnOk result (Adds forest.now.names pieces.old.items pieces.new.items
        (clone_item (name_of forest.now node) ∷ wholes_if before
        (items_before name_eq (name_of forest.now child) (children_of forest.now.trees (name_of forest.now node))))) }
{
    forest.law_nodes_stand_once();
    pieces.push(Piece::Clone(node))?;
    if before {
        push_siblings(pieces, forest, forest.first(node), Some(child))?;
    }
    Ok(())
}

/// The ends of the clones of the nodes above the first of a path, from the innermost out, each behind the children behind
/// the path where these are taken.
fn push_tails(
    pieces: &mut Vec<Piece>,
    forest: &Forest,
    path: &[Key],
    behind: bool,
) -> Result<(), AllocError>
    requires { AllByRecursion (IsNode forest.now) path.now }
    ensures { OnOk result (Adds forest.now.names pieces.old.items pieces.new.items (tails forest.now.trees behind (map (name_of forest.now) path.now))) }
{
    for at in 1..path.len() {
        push_tail(pieces, forest, path[at - 1], behind)?;
    }
    Ok(())
}

/// The siblings behind a node where these are taken, and the end of their parent's clone.
fn push_tail(
    pieces: &mut Vec<Piece>,
    forest: &Forest,
    child: Key,
    behind: bool,
) -> Result<(), AllocError>
    requires { IsNode forest.now child }
    ensures { OnOk result (Adds forest.now.names pieces.old.items pieces.new.items
        (wholes_if behind (items_after name_eq (name_of forest.now child) (siblings forest.now.trees (name_of forest.now child))) ++
        end_item ∷ [])) }
{
    forest.law_nodes_stand_once();
    if behind {
        push_siblings(pieces, forest, forest.next(child), None)?;
    }
    pieces.push(Piece::End)?;
    Ok(())
}

/// What is taken of the node of an end: a part of its data, or a clone with the children that are taken.
fn push_end(pieces: &mut Vec<Piece>, forest: &Forest, side: Side) -> Result<(), AllocError>
    requires { IsNode forest.now side.point.0 }
    ensures { OnOk result (Adds forest.now.names pieces.old.items pieces.new.items
        (end_items forest.now.trees (at (name_of forest.now side.point.0) side.point.1) side.behind)) }
{
    let Side { point, behind } = side;
    let node = point.0;
    if has_data(forest, node) {
        pieces.push(cut_of(forest, side))?;
        return Ok(());
    }
    pieces.push(Piece::Clone(node))?;
    push_children(pieces, forest, point, behind)?;
    pieces.push(Piece::End)?;
    Ok(())
}

/// The part of a Text or Comment behind an end, or else that in front of it.
fn cut_of(forest: &Forest, side: Side) -> Piece
    requires { IsNode forest.now side.point.0 }
    ensures { result ≡ Piece.Cut side.point.0 (if side.behind then side.point.1 else 0)
        (if side.behind then length_of forest.now.trees (name_of forest.now side.point.0) else side.point.1) }
{
    let (node, offset) = side.point;
    if side.behind {
        Piece::Cut(node, offset, forest.length(node))
    } else {
        Piece::Cut(node, 0, offset)
    }
}
