//! Where the ends at nodes and boundary points stand in a sorted list, by binary search.
ghost use Rattle.std.specs.Prelude.{◌≡◌, ℕ, ◌+◌, ◌≤◌, ◌<◌, true, length, slice_index_or};
ghost use Rattle.dom_model.specs.Ranges.{at};
ghost use Rattle.dom_ranges.specs.Listed.{IsSortedByNode, IsSortedByPoint, AtMost, LessThan, point_of, is_in};

use crate::ends::{RangeEnd, Span};
use node_arena::Key;

/// Where the ends are at their end that are at a node, or at greater ones, which come first. Where the last end is among them, nothing
/// is searched for.
pub(crate) fn behind_node(ends: &[RangeEnd], node: Key) -> usize
    requires { IsSortedByNode ends.now }
    ensures within { result ≤ length ends.now }
    ensures less { (k : ℕ) (d : RangeEnd) → k < result → node ≤ (slice_index_or ends.now k d).node }
    ensures more { (k : ℕ) (d : RangeEnd) → result ≤ k → k < length ends.now → (slice_index_or ends.now k d).node < node }
{
    if are_from(ends, ends.len(), node) {
        return ends.len();
    }
    ends.partition_point(|end| node <= end.node)
}

/// Whether all ends before a place are at a node, or at greater ones.
fn are_from(ends: &[RangeEnd], place: usize, node: Key) -> bool
    requires sorted { IsSortedByNode ends.now }
    requires within { place ≤ length ends.now }
    ensures { result ≡ true → (k : ℕ) (d : RangeEnd) → k < place → node ≤ (slice_index_or ends.now k d).node }
{
    if place == 0 {
        return true;
    }
    node <= ends[place - 1].node
}

/// Where the ends are at their end that are at a boundary point or before it.
pub(crate) fn place_behind(ends: &[RangeEnd], node: Key, offset: usize) -> usize
    requires { IsSortedByPoint ends.now }
    ensures within { result ≤ length ends.now }
    ensures less { (k : ℕ) (d : RangeEnd) → k < result → AtMost (point_of (slice_index_or ends.now k d)) (at node offset) }
    ensures more { (k : ℕ) (d : RangeEnd) → result ≤ k → k < length ends.now → LessThan (at node offset) (point_of (slice_index_or ends.now k d)) }
{
    ends.partition_point(|end| node < end.node || end.node == node && end.offset <= offset)
}

/// The places of the ends at a node.
pub(crate) fn part_of(ends: &[RangeEnd], node: Key) -> Span
    requires { IsSortedByNode ends.now }
    ensures order { result.first ≤ result.behind }
    ensures within { result.behind ≤ length ends.now }
    ensures all { (k : ℕ) (d : RangeEnd) → k < length ends.now → (slice_index_or ends.now k d).node ≡ node → is_in result k ≡ true }
    ensures only { (k : ℕ) (d : RangeEnd) → result.first ≤ k → k < result.behind → (slice_index_or ends.now k d).node ≡ node }
{
    Span {
        first: ends.partition_point(|end| node < end.node),
        behind: behind_node(ends, node),
    }
}

/// The places of the ends at a node. A place is tried first: where the node is between those of the two ends around it, no end
/// is at the node, and nothing is searched for.
pub(crate) fn part_near(ends: &[RangeEnd], place: usize, node: Key) -> Span
    requires sorted { IsSortedByPoint ends.now }
    requires within { place ≤ length ends.now }
    ensures order { result.first ≤ result.behind }
    ensures within { result.behind ≤ length ends.now }
    ensures all { (k : ℕ) (d : RangeEnd) → k < length ends.now → (slice_index_or ends.now k d).node ≡ node → is_in result k ≡ true }
{
    if are_before(ends, place, node) && are_behind(ends, place, node) {
        return Span {
            first: place,
            behind: place,
        };
    }
    part_of(ends, node)
}

/// Whether all ends before a place are at greater nodes than one.
fn are_before(ends: &[RangeEnd], place: usize, node: Key) -> bool
    requires sorted { IsSortedByPoint ends.now }
    requires within { place ≤ length ends.now }
    ensures { result ≡ true → (k : ℕ) (d : RangeEnd) → k < place → node < (slice_index_or ends.now k d).node }
{
    if place == 0 {
        return true;
    }
    node < ends[place - 1].node
}

/// Whether all ends from a place on are at lesser nodes than one.
fn are_behind(ends: &[RangeEnd], place: usize, node: Key) -> bool
    requires sorted { IsSortedByPoint ends.now }
    requires within { place ≤ length ends.now }
    ensures { result ≡ true → (k : ℕ) (d : RangeEnd) → place ≤ k → k < length ends.now → (slice_index_or ends.now k d).node < node }
{
    if place == ends.len() {
        return true;
    }
    ends[place].node < node
}

/// The places of the ends at a boundary point.
pub(crate) fn part_at(ends: &[RangeEnd], node: Key, offset: usize) -> Span
    requires { IsSortedByPoint ends.now }
    ensures within { result.behind ≤ length ends.now }
    ensures all { (k : ℕ) (d : RangeEnd) → k < length ends.now → point_of (slice_index_or ends.now k d) ≡ at node offset → is_in result k ≡ true }
{
    Span {
        first: ends.partition_point(|end| node < end.node
            || end.node == node && end.offset < offset),
        behind: place_behind(ends, node, offset),
    }
}

/// The places of the ends at a node that are past an offset.
pub(crate) fn part_past(ends: &[RangeEnd], node: Key, offset: usize) -> Span
    requires { IsSortedByPoint ends.now }
    ensures within { result.behind ≤ length ends.now }
    ensures all { (k : ℕ) (d : RangeEnd) → k < length ends.now → (slice_index_or ends.now k d).node ≡ node →
        offset < (slice_index_or ends.now k d).offset → is_in result k ≡ true }
{
    Span {
        first: place_behind(ends, node, offset),
        behind: behind_node(ends, node),
    }
}

/// The places of the ends at a node that are past an offset, by no more than `count`.
pub(crate) fn part_among(ends: &[RangeEnd], node: Key, offset: usize, count: usize) -> Span
    requires { IsSortedByPoint ends.now }
    ensures within { result.behind ≤ length ends.now }
    ensures all { (k : ℕ) (d : RangeEnd) → k < length ends.now → (slice_index_or ends.now k d).node ≡ node →
        offset < (slice_index_or ends.now k d).offset → (slice_index_or ends.now k d).offset ≤ offset + count → is_in result k ≡ true }
{
    match offset.checked_add(count) {
        Some(last) => Span {
            first: place_behind(ends, node, offset),
            behind: place_behind(ends, node, last),
        },
        None => part_past(ends, node, offset),
    }
}
