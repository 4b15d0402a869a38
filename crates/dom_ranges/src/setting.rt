//! Ranges with another start or end (DOM Standard, 5.5: set the start or end).
ghost use Rattle.std.specs.Prelude.{◌≡◌, length, nat_lt};
ghost use Rattle.dom_model.specs.Ranges.{at};
ghost use Rattle.dom_model.specs.Tree.{children_of, length_of};
ghost use Rattle.dom_ranges.specs.Tables.{range_from, BothEnds};
ghost use Rattle.dom_ranges.specs.Rules.{IsAtNode};
ghost use Rattle.dom_ranges.specs.Settings.{start_set, end_set};
ghost use Rattle.dom_tree.specs.Forest.{IsNode, name_of};

use crate::order::{is_before, share_root};
use crate::table::Points;
use dom_base::Kind;
use dom_tree::Forest;
use node_arena::Key;

/// The range with this start. The end stays where it is in the same tree and not before the start, and else goes there.
pub(crate) fn with_start(forest: &Forest, points: Points, node: Key, offset: usize) -> Points
    requires node_is_node { IsNode forest.now node }
    requires ends { BothEnds (IsAtNode forest.now.names) (range_from points) }
    ensures { range_from result ≡ start_set forest.now (at node offset) (range_from points) }
{
    let (end, to) = points.end;
    let stays = share_root(forest, node, end) && !is_before(forest, (end, to), (node, offset));
    let end = if stays { (end, to) } else { (node, offset) };
    Points {
        start: (node, offset),
        end,
    }
}

/// The range with this end. The start stays where it is in the same tree and not after the end, and else goes there.
pub(crate) fn with_end(forest: &Forest, points: Points, node: Key, offset: usize) -> Points
    requires node_is_node { IsNode forest.now node }
    requires ends { BothEnds (IsAtNode forest.now.names) (range_from points) }
    ensures { range_from result ≡ end_set forest.now (at node offset) (range_from points) }
{
    let (start, from) = points.start;
    let stays = share_root(forest, node, start)
        && !is_before(forest, (node, offset), (start, from));
    let start = if stays { (start, from) } else { (node, offset) };
    Points {
        start,
        end: (node, offset),
    }
}

/// Whether an offset is past a node's length (DOM Standard, 4.2: length). Of its children no more are looked at than the offset.
pub(crate) fn is_past_end(forest: &Forest, node: Key, offset: usize) -> bool
    requires { IsNode forest.now node }
    ensures { result ≡ nat_lt (length_of forest.now.trees (name_of forest.now node)) offset }
{
    match forest.kind(node) {
        Kind::Text | Kind::Comment => forest.text(node).len() < offset,
        _ => has_fewer_children(forest, node, offset),
    }
}

/// Whether a node has fewer children than a number, by the last child's index.
fn has_fewer_children(forest: &Forest, node: Key, number: usize) -> bool
    requires { IsNode forest.now node }
    ensures { result ≡ nat_lt (length (children_of forest.now.trees (name_of forest.now node))) number }
{
    forest.law_nodes_stand_once();
    match forest.last(node) {
        Some(last) => forest.index_below(last, number.saturating_sub(1)).is_some(),
        None => number > 0,
    }
}
