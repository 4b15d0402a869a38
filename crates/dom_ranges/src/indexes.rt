//! The index of a child, which is looked for only as far as ends of live ranges stand behind the child in its parent.
ghost use Rattle.std.specs.Prelude.{◌≡◌, ◌⊎◌, ℕ, ◌<◌, ◌≤◌, length, slice_index_or, None};
ghost use Rattle.std.specs.Option.{ForSome};
ghost use Rattle.dom_model.specs.Ranges.{at};
ghost use Rattle.dom_model.specs.Tree.{index_of};
ghost use Rattle.dom_tree.specs.Forest.{IsNode, name_of};
ghost use Rattle.dom_ranges.specs.Listed.{IsSortedByPoint, IsListedAt, point_of};
ghost use Rattle.dom_ranges.specs.Rules.{IsUpTo};

use crate::ends::RangeEnd;
use crate::searching::behind_node;
use dom_tree::Forest;
use node_arena::Key;

/// The greatest offset of the ends at a node, which is that of the last one; 0 where there are none.
pub(crate) fn reach(ends: &[RangeEnd], node: Key) -> usize
    requires { IsSortedByPoint ends.now }
    ensures up_to { (k : ℕ) (d : RangeEnd) → k < length ends.now → IsUpTo node result (point_of (slice_index_or ends.now k d)) }
    ensures reached { (result ≡ 0) ⊎ IsListedAt ends.now (at node result) }
{
    let behind = behind_node(ends, node);
    if behind > 0 && ends[behind - 1].node == node {
        return ends[behind - 1].offset;
    }
    0
}

/// The index of a child, where ends of live ranges stand behind the child in its parent. As many siblings as the greatest
/// offset of an end there are looked at, and no more: without an end in the parent, none.
pub(crate) fn index_before_ends(
    ends: &[RangeEnd],
    forest: &Forest,
    parent: Key,
    child: Key,
) -> Option<usize>
    requires child_is_node { IsNode forest.now child }
    requires sorted { IsSortedByPoint ends.now }
    ensures index { ForSome result (λ i. i ≡ index_of forest.now.trees (name_of forest.now child)) }
    ensures none { result ≡ None → (k : ℕ) (d : RangeEnd) → k < length ends.now →
        IsUpTo parent (index_of forest.now.trees (name_of forest.now child)) (point_of (slice_index_or ends.now k d)) }
{
    let limit = reach(ends, parent);
    if limit == 0 {
        return None;
    }
    forest.index_below(child, limit)
}

/// The index of a child, or a lesser number that is greater than an offset. As many siblings as the offset are looked at, and one
/// more.
pub(crate) fn index_past(forest: &Forest, child: Key, offset: usize) -> usize
    requires { IsNode forest.now child }
    ensures { (result ≡ index_of forest.now.trees (name_of forest.now child)) ⊎
        ((result ≤ index_of forest.now.trees (name_of forest.now child)) × (offset < result)) }
{
    match offset.checked_add(1) {
        Some(limit) => forest.index_below(child, limit).unwrap_or(limit),
        None => forest.index(child),
    }
}
