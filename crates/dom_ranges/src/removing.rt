//! What the removal of a node does to the ends of live ranges (DOM Standard, concept: remove).
ghost use Rattle.std.specs.Prelude.{◌≡◌, ◌≢◌, ℕ, ◌<◌, ◌≤◌, true, false, length, slice_index_or, nat_eq, None};
ghost use Rattle.std.specs.Option.{option_map, ForSome};
ghost use Rattle.slab.specs.Slab.{get};
ghost use Rattle.dom_model.specs.Ranges.{map_ends, after_removal};
ghost use Rattle.dom_model.specs.Tree.{index_of};
ghost use Rattle.dom_tree.specs.Forest.{IsNode, name_of};
ghost use Rattle.dom_ranges.specs.Tables.{BothEnds, range_from};
ghost use Rattle.dom_ranges.specs.Climbs.{AreTested};
ghost use Rattle.dom_ranges.specs.Listed.{IsListed, IsSortedByPoint, is_in};
ghost use Rattle.dom_ranges.specs.Rules.{IsAtNode, is_inside, after_closing};

use crate::change::{Closing, Leaving};
use crate::ends::{RangeEnd, Span};
use crate::indexes::index_before_ends;
use crate::moving::{move_concerned, move_ends};
use crate::searching::{behind_node, part_near};
use crate::table::Points;
use dom_tree::Forest;
use node_arena::Key;
use slab::Slab;

/// Moves the ends of all ranges for a child that is to leave its parent, and is still linked. Where no end is at a node in
/// its tree, its index is looked for only as far as ends stand behind it. Where one is, it goes to that index, which is
/// found by going through all siblings before the child.
pub(crate) fn move_out(
    live: &mut Slab<Points>,
    ends: &mut [RangeEnd],
    forest: &Forest,
    node: Key,
    parent: Key,
)
    requires listed { IsListed live.old ends.old }
    requires sorted { IsSortedByPoint ends.old }
    requires node_is_node { IsNode forest.now node }
    requires ends { (slot : ℕ) → ForSome (get live.old slot) (λ p. BothEnds (IsAtNode forest.now.names) (range_from p)) }
    ensures moved { (slot : ℕ) → option_map range_from (get live.new slot) ≡ option_map
        (λ p. map_ends (after_removal nat_eq (is_inside forest.now node) parent (index_of forest.now.trees (name_of forest.now node)))
        (range_from p)) (get live.old slot) }
    ensures listed { IsListed live.new ends.new }
    ensures sorted { IsSortedByPoint ends.new }
{
    let inside = part_inside(forest, node, ends);
    if inside.is_empty() {
        if let Some(index) = index_before_ends(ends, forest, parent, node) {
            close(live, ends, parent, index);
        }
        return;
    }
    let index = forest.index(node);
    let nothing = Span {
        first: 0,
        behind: 0,
    };
    let leaving = Leaving {
        forest,
        node,
        parent,
        index,
    };
    move_ends(live, ends, &leaving, inside, nothing);
    close(live, ends, parent, index);
}

/// Moves the ends behind the child of a node that is gone, by the index that it had.
fn close(live: &mut Slab<Points>, ends: &mut [RangeEnd], parent: Key, index: usize)
    requires listed { IsListed live.old ends.old }
    requires sorted { IsSortedByPoint ends.old }
    ensures moved { (slot : ℕ) → option_map range_from (get live.new slot) ≡ option_map
        (λ p. map_ends (after_closing parent index) (range_from p)) (get live.old slot) }
    ensures listed { IsListed live.new ends.new }
    ensures sorted { IsSortedByPoint ends.new }
{
    move_concerned(live, ends, &Closing { parent, index });
}

/// The places from the first to the last of the ends that are at nodes in the tree of `top`. Where going up from the ends' nodes
/// shows soon that there are none, the tree is not walked through. Else a node of it costs two binary searches in the list,
/// unless no end is at it or between it and the node before it. Where the tree has more nodes than the list has ends, the
/// walk stops after as many: to test each end is less then.
fn part_inside(forest: &Forest, top: Key, ends: &[RangeEnd]) -> Span
    requires sorted { IsSortedByPoint ends.now }
    requires nodes { (k : ℕ) (d : RangeEnd) → k < length ends.now → (IsNode forest.now top) ×
        (IsNode forest.now (slice_index_or ends.now k d).node) }
    ensures within { result.behind ≤ length ends.now }
    ensures all { (k : ℕ) (d : RangeEnd) → k < length ends.now → is_in result k ≡ false → is_inside forest.now top (slice_index_or ends.now k d).node ≡ false }
{
    let mut part = Span {
        first: ends.len(),
        behind: 0,
    };
    if is_apart(forest, top, ends) {
        return part;
    }
    forest.law_nodes_stand_once();
    let mut left = ends.len();
    let mut near = 0;
    let mut at = Some(top);
    while let Some(key) = at {
        if left == 0 {
            return part_tested(forest, top, ends);
        }
        left -= 1;
        let here = part_near(ends, near, key);
        near = here.first;
        part = part.around(here);
        at = forest.following(key, top);
    }
    part
}

/// Whether no end is at a node in the tree of `top`, as far as going up from the ends' nodes shows it. It is given up after as many
/// steps as the tree has nodes below `top`, or the list has ends. Of the ends at one node, one is tested.
fn is_apart(forest: &Forest, top: Key, ends: &[RangeEnd]) -> bool
    requires sorted { IsSortedByPoint ends.now }
    requires nodes { (k : ℕ) (d : RangeEnd) → k < length ends.now → (IsNode forest.now top) ×
        (IsNode forest.now (slice_index_or ends.now k d).node) }
    ensures { result ≡ true → (k : ℕ) (d : RangeEnd) → k < length ends.now → is_inside forest.now top (slice_index_or ends.now k d).node ≡ false }
{
    forest.law_nodes_stand_once();
    if ends.is_empty() {
        return true;
    }
    let mut place = 0;
    let mut at = ends[0].node;
    let mut walked = forest.following(top, top);
    for _ in 0..ends.len() {
        let Some(key) = walked else {
            return false;
        };
        if at == top {
            return false;
        }
        let Some((next, above)) = test_on(forest, top, ends, place, at) else {
            return true;
        };
        place = next;
        at = above;
        walked = forest.following(key, top);
    }
    false
}

/// Goes on with a test of the ends before and at a place: from a node that was reached from that of the end there to the parent, and
/// from a root to the next node that has ends. Gives none where there is no such node: all ends are outside then.
fn test_on(
    forest: &Forest,
    top: Key,
    ends: &[RangeEnd],
    place: usize,
    at: Key,
) -> Option<(usize, Key)>
    requires sorted { IsSortedByPoint ends.now }
    requires nodes { (k : ℕ) (d : RangeEnd) → k < length ends.now → (IsNode forest.now top) ×
        (IsNode forest.now (slice_index_or ends.now k d).node) }
    requires tested { AreTested forest.now top ends.now place at }
    requires other { at ≢ top }
    ensures tested { ForSome result (λ next. AreTested forest.now top ends.now next.0 next.1) }
    ensures none { result ≡ None → (k : ℕ) (d : RangeEnd) → k < length ends.now → is_inside forest.now top (slice_index_or ends.now k d).node ≡ false }
{
    forest.law_nodes_stand_once();
    if let Some(above) = forest.parent(at) {
        return Some((place, above));
    }
    let behind = behind_node(ends, ends[place].node);
    if behind == ends.len() {
        return None;
    }
    Some((behind, ends[behind].node))
}

/// The places of the ends inside a tree, where each end is tested by going up from its node.
fn part_tested(forest: &Forest, top: Key, ends: &[RangeEnd]) -> Span
    requires nodes { (k : ℕ) (d : RangeEnd) → k < length ends.now → (IsNode forest.now top) ×
        (IsNode forest.now (slice_index_or ends.now k d).node) }
    ensures within { result.behind ≤ length ends.now }
    ensures all { (k : ℕ) (d : RangeEnd) → k < length ends.now → is_in result k ≡ false → is_inside forest.now top (slice_index_or ends.now k d).node ≡ false }
{
    let mut part = Span {
        first: ends.len(),
        behind: 0,
    };
    for i in 0..ends.len() {
        if forest.is_inclusive_ancestor(top, ends[i].node) {
            part = part.around(Span {
                first: i,
                behind: i + 1,
            });
        }
    }
    part
}
