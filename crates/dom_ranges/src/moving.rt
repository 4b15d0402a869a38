//! What a step of a change does to the ends of the live ranges and to their list.
ghost use Rattle.std.specs.Prelude.{◌≡◌, ◌≢◌, ◌⊎◌, ℕ, ◌≤◌, ◌<◌, true, length, slice_index_or, IsSome, None};
ghost use Rattle.std.specs.Option.{option_map, ForSome};
ghost use Rattle.dom_model.specs.Ranges.{map_ends};
ghost use Rattle.slab.specs.Slab.{get, Updates};
ghost use Rattle.dom_ranges.specs.Tables.{BothEnds, range_from};
ghost use Rattle.dom_ranges.specs.Listed.{IsListed, IsSortedByPoint, IsMovedPart, AreAllIn, is_chosen, point_of, with_end_at};

use crate::change::Change;
use crate::concerned::LocalChange;
use crate::ends::{RangeEnd, Span, bring, drop_end, put_in_order, settle};
use crate::table::Points;
use node_arena::Key;
use slab::Slab;

/// Moves the ends that are listed in a part, but for those of another part, and says in the list where they stand then.
/// Answers a part outside which no node changed.
fn move_part<C: Change>(
    live: &mut Slab<Points>,
    ends: &mut [RangeEnd],
    change: &C,
    part: Span,
    skipped: Span,
) -> Span
    requires within { part.behind ≤ length ends.old }
    requires listed { IsListed live.old ends.old }
    requires can_move { (k : ℕ) (d : RangeEnd) → k < length ends.old → is_chosen part skipped k ≡ true →
        C.can_move change.now (point_of (slice_index_or ends.old k d)) }
    ensures moved { IsMovedPart (C.rule change.now) (C.target change.now) ends.old ends.new (is_chosen part skipped) }
    ensures listed { IsListed live.new ends.new }
    ensures within { result.behind ≤ length ends.old }
    ensures nodes { (k : ℕ) (d : RangeEnd) → (k < result.first) ⊎ (result.behind ≤ k) →
        (slice_index_or ends.new k d).node ≡ (slice_index_or ends.old k d).node }
{
    let mut changed = Span {
        first: usize::MAX,
        behind: 0,
    };
    for i in part.first..part.behind {
        if !skipped.has(i) {
            let end = &mut ends[i];
            let from = end.node;
            let (node, offset) = change.moved(from, end.offset);
            put_point(live, end.slot, end.is_end, (node, offset));
            end.node = node;
            end.offset = offset;
            if node != from {
                changed.first = changed.first.min(i);
                changed.behind = i + 1;
            }
        }
    }
    changed
}

/// Moves the ends of all ranges, by two parts of their list outside which a step of a change moves none: those are not
/// looked at. Where the step brings ends to another node, they are put in order there by a sort of that node's ends.
pub(crate) fn move_ends<C: Change>(
    live: &mut Slab<Points>,
    ends: &mut [RangeEnd],
    change: &C,
    one: Span,
    two: Span,
)
    requires listed { IsListed live.old ends.old }
    requires sorted { IsSortedByPoint ends.old }
    requires one_within { one.behind ≤ length ends.old }
    requires two_within { two.behind ≤ length ends.old }
    requires all { AreAllIn (C.rule change.now) ends.old one two }
    requires can_move { (slot : ℕ) → ForSome (get live.old slot) (λ p. BothEnds (C.can_move change.now) (range_from p)) }
    ensures moved { (slot : ℕ) → option_map range_from (get live.new slot) ≡ option_map (λ p. map_ends (C.rule change.now) (range_from p)) (get live.old slot) }
    ensures listed { IsListed live.new ends.new }
    ensures sorted { IsSortedByPoint ends.new }
{
    if one.is_empty() && two.is_empty() {
        return;
    }
    let nothing = Span {
        first: 0,
        behind: 0,
    };
    let here = move_part(live, ends, change, one, nothing);
    let there = move_part(live, ends, change, two, one);
    if change.keeps_order() {
        return;
    }
    let low = here.first.min(there.first);
    let high = here.behind.max(there.behind);
    if low < high {
        settle(ends, low, high, change.target());
    }
    put_in_order(ends, change.target());
}

/// Moves the ends of all ranges by a step that tells which of them it may move: the others are not looked at.
pub(crate) fn move_concerned<C: LocalChange>(
    live: &mut Slab<Points>,
    ends: &mut [RangeEnd],
    change: &C,
)
    requires listed { IsListed live.old ends.old }
    requires sorted { IsSortedByPoint ends.old }
    requires can_move { (slot : ℕ) → ForSome (get live.old slot) (λ p. BothEnds (C.can_move change.now) (range_from p)) }
    ensures moved { (slot : ℕ) → option_map range_from (get live.new slot) ≡ option_map (λ p. map_ends (C.rule change.now) (range_from p)) (get live.old slot) }
    ensures listed { IsListed live.new ends.new }
    ensures sorted { IsSortedByPoint ends.new }
{
    let (one, two) = change.parts(ends);
    move_ends(live, ends, change, one, two);
}

/// Writes one end of the range in a slot.
fn put_point(live: &mut Slab<Points>, slot: usize, is_end: bool, point: (Key, usize))
    requires { IsSome (get live.old slot) }
    ensures put { get live.new slot ≡ option_map (with_end_at is_end point.0 point.1) (get live.old slot) }
    ensures others { (s : ℕ) → s ≢ slot → get live.new s ≡ get live.old s }
{
    if let Some(points) = live.get_mut(slot) {
        if is_end {
            points.end = point;
        } else {
            points.start = point;
        }
    }
}

/// Gives an end of a range a boundary point. Where it stands there already, nothing is moved.
pub(crate) fn put_end(
    live: &mut Slab<Points>,
    ends: &mut [RangeEnd],
    slot: usize,
    is_end: bool,
    point: (Key, usize),
)
    requires held { IsSome (get live.old slot) }
    requires listed { IsListed live.old ends.old }
    requires sorted { IsSortedByPoint ends.old }
    ensures put { get live.new slot ≡ option_map (with_end_at is_end point.0 point.1) (get live.old slot) }
    ensures others { (s : ℕ) → s ≢ slot → get live.new s ≡ get live.old s }
    ensures listed { IsListed live.new ends.new }
    ensures sorted { IsSortedByPoint ends.new }
{
    if let Some(points) = live.get(slot).copied() {
        let (from, at) = if is_end { points.end } else { points.start };
        let (node, offset) = point;
        if from == node && at == offset {
            return;
        }
        put_point(live, slot, is_end, (node, offset));
        let end = RangeEnd {
            node: from,
            offset: at,
            slot,
            is_end,
        };
        bring(ends, end, node, offset);
    }
}

/// Drops the range in a slot, and its ends from the list.
pub(crate) fn drop_range(live: &mut Slab<Points>, ends: &mut Vec<RangeEnd>, slot: usize)
    requires listed { IsListed live.old ends.old.items }
    requires sorted { IsSortedByPoint ends.old.items }
    ensures updates { Updates live.old live.new slot None }
    ensures listed { IsListed live.new ends.new.items }
    ensures sorted { IsSortedByPoint ends.new.items }
{
    if let Some(points) = live.try_remove(slot) {
        let (start, from) = points.start;
        let (end, to) = points.end;
        drop_end(
            ends,
            RangeEnd {
                node: start,
                offset: from,
                slot,
                is_end: false,
            },
        );
        drop_end(
            ends,
            RangeEnd {
                node: end,
                offset: to,
                slot,
                is_end: true,
            },
        );
    }
}
