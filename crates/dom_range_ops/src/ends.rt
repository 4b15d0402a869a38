//! How the two ends of a live range stand to one another (DOM Standard, 5.5 Interface Range).
ghost use Rattle.std.specs.Prelude.{◌≡◌, true, false, is_some, Some, List, IfOk};
ghost use Rattle.dom_base.specs.declared.NodeName.{NodeName as Name};
ghost use Rattle.dom_model.specs.Extract.{is_in_one_data, behind_node, new_place};
ghost use Rattle.dom_model.specs.Names.{name_eq};
ghost use Rattle.dom_model.specs.Part.{range_at};
ghost use Rattle.dom_model.specs.Ranges.{at, is_collapsed};
ghost use Rattle.dom_model.specs.Tree.{kind_of, has_data, parent_of};
ghost use Rattle.dom_model.specs.World.{part_of};
ghost use Rattle.dom_range_ops.specs.Deletions.{IsOfPoints};
ghost use Rattle.dom_range_ops.specs.Pieces.{AreSpanned};
ghost use Rattle.dom_range_ops.specs.Texts.{range_at_points, AreEnds};
ghost use Rattle.dom_tree.specs.Forest.{name_at, IsNode, name_of};

use crate::pieces::paths::parted_paths;
use dom_base::{Kind, Owner};
use dom_mutation::Doc;
use dom_ranges::Points;
use dom_tree::Forest;
use node_arena::Key;
use std::alloc::{AllocError, Global};

/// The ends of an owner's live range that is there.
pub(crate) fn live_points(doc: &Doc, owner: Owner, number: u32) -> Points
    requires there { is_some (range_at (part_of doc.now.world owner) number) ≡ true }
    ensures { IsOfPoints doc.now owner number result }
{
    doc.laws();
    doc.range_points(owner, number)
}

/// Whether both ends of a range are one boundary point (DOM Standard, 5.3: collapsed), whatever the names of the
/// nodes are that tell them apart.
pub(crate) fn is_collapsed(points: &Points) -> bool
    ensures { (names : List Name) → (name_at names points.now.start.0 ≡ name_at names points.now.end.0 → points.now.start.0 ≡ points.now.end.0) →
        result ≡ is_collapsed name_eq (range_at_points names points.now) }
{
    let (first, from) = points.start;
    let (last, to) = points.end;
    first == last && from == to
}

/// Whether both ends of a range are in one Text or Comment (DOM Standard, deleteContents(), extractContents()).
pub(crate) fn is_in_one_data(forest: &Forest, points: &Points) -> bool
    requires { AreEnds forest.now points.now }
    ensures { result ≡ is_in_one_data forest.now.trees (range_at_points forest.now.names points.now) }
{
    forest.law_nodes_stand_once();
    let first = points.start.0;
    let last = points.end.0;
    first == last && has_data(forest, first)
}

/// Whether a node is a Text or a Comment.
pub(crate) fn has_data(forest: &Forest, key: Key) -> bool
    requires { IsNode forest.now key }
    ensures { result ≡ has_data (kind_of forest.now.trees (name_of forest.now key)) }
{
    matches!(forest.kind(key), Kind::Text | Kind::Comment)
}

/// Where a range stands after its contents were taken (DOM Standard, concept: extract, new node and new offset): its start,
/// where the start node is an inclusive ancestor of the end node, else just behind the start node's outermost inclusive
/// ancestor that is none of the end node. It is refused where memory is refused.
pub(crate) fn new_place(
    alloc: Global,
    forest: &Forest,
    points: &Points,
) -> Result<(Key, usize), AllocError>
    requires { AreSpanned forest.now points.now }
    ensures value { IfOk result (λ place. at (name_of forest.now place.0) place.1 ≡ new_place forest.now.trees (range_at_points forest.now.names points.now)) }
    ensures node { IfOk result (λ place. IsNode forest.now place.0) }
{
    forest.law_nodes_stand_once();
    let (start_path, _) = parted_paths(alloc, forest, points)?;
    let path = start_path.as_slice();
    match path.last() {
        Some(low) => Ok(behind_node(forest, *low)),
        None => Ok(points.start),
    }
}

/// The boundary point just behind a node whose parent is no Text and no Comment.
fn behind_node(forest: &Forest, key: Key) -> (Key, usize)
    requires node { IsNode forest.now key }
    requires below_no_data { (p : Name) → parent_of forest.now.trees (name_of forest.now key) ≡ Some p → has_data (kind_of forest.now.trees p) ≡ false }
    ensures value { at (name_of forest.now result.0) result.1 ≡ behind_node forest.now.trees (name_of forest.now key) }
    ensures node { IsNode forest.now result.0 }
{
    forest.law_nodes_stand_once();
    let Some(parent) = forest.parent(key) else {
        return (key, 1);
    };
    match forest.next(key) {
        Some(next) => (parent, forest.index(next)),
        None => (parent, forest.length(parent)),
    }
}
