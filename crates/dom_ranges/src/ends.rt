//! The ends of live ranges, listed by the nodes where they stand, from the node that was made last to the first one. A range
//! begins in a document, which is made before most other nodes: so the ends of new ranges come last, and few are moved for them.
ghost use Rattle.std.specs.Prelude.{◌≡◌, ℕ, ◌+◌, ◌≤◌, ◌<◌, true, false, ◌∷◌, [], ◌++◌, length, slice_index_or};
ghost use Rattle.std.specs.List.Sorted.{IsPermutation};
ghost use Rattle.std.specs.Vec.{vec_len, vec_capacity};
ghost use Rattle.dom_model.specs.Ranges.{at};
ghost use Rattle.dom_ranges.specs.Listed.{IsSortedByPoint, IsSortedBut, IsSortedIn, IsSortedBeside, AreAt, IsTurned, IsListedOnce, HasChanged, end_in, is_in};

use crate::searching::{part_at, part_of, place_behind};
use node_arena::Key;

/// An end of a live range: the boundary point where it stands, the slot in which the range is kept, and whether it is the
/// end of the range and not the start.
#[derive(Clone, Copy)]
pub(crate) struct RangeEnd {
    pub(crate) node: Key,
    pub(crate) offset: usize,
    pub(crate) slot: usize,
    pub(crate) is_end: bool,
}

/// The places of a list from one up to another.
#[derive(Clone, Copy)]
pub(crate) struct Span {
    pub(crate) first: usize,
    pub(crate) behind: usize,
}

impl Span {
    /// Whether a place is in the part.
    pub(crate) fn has(self, place: usize) -> bool
        ensures { result ≡ is_in self place }
    {
        self.first <= place && place < self.behind
    }

    /// Whether no place is in the part.
    pub(crate) fn is_empty(self) -> bool
        ensures { result ≡ true → (k : ℕ) → is_in self k ≡ false }
    {
        self.behind <= self.first
    }

    /// The places from the first to the last of two parts.
    pub(crate) fn around(self, other: Span) -> Span
        ensures first { (k : ℕ) → is_in self k ≡ true → is_in result k ≡ true }
        ensures second { (k : ℕ) → is_in other k ≡ true → is_in result k ≡ true }
        ensures within { (n : ℕ) → self.behind ≤ n → other.behind ≤ n → result.behind ≤ n }
    {
        if other.behind <= other.first {
            return self;
        }
        Span {
            first: self.first.min(other.first),
            behind: self.behind.max(other.behind),
        }
    }
}

/// A place for an end with a boundary point in a part of a list that is sorted by node there. Where the part is sorted by
/// offset too, it is behind all ends that are at the point or before it.
fn place_in(ends: &[RangeEnd], part: Span, node: Key, offset: usize) -> usize
    requires order { part.first ≤ part.behind }
    requires within { part.behind ≤ length ends.now }
    requires sorted { IsSortedIn ends.now part }
    ensures first { part.first ≤ result }
    ensures behind { result ≤ part.behind }
    ensures less { (k : ℕ) (d : RangeEnd) → part.first ≤ k → k < result → node ≤ (slice_index_or ends.now k d).node }
    ensures more { (k : ℕ) (d : RangeEnd) → result ≤ k → k < part.behind → (slice_index_or ends.now k d).node ≤ node }
{
    let mut low = part.first;
    let mut high = part.behind;
    while low < high {
        let middle = low + (high - low) / 2;
        let end = ends[middle];
        if node < end.node || end.node == node && end.offset <= offset {
            low = middle + 1;
        } else {
            high = middle;
        }
    }
    low
}

/// Brings the ends from `low` to `high` that are at a node behind the others there, which keep their order. Answers
/// where they begin.
fn gather(ends: &mut [RangeEnd], low: usize, high: usize, node: Key) -> usize
    requires within { high ≤ length ends.old }
    requires order { low ≤ high }
    requires sorted { IsSortedBeside ends.old low high node }
    ensures permutation { IsPermutation ends.old ends.new }
    ensures first { (low ≤ result) × (result ≤ high) }
    ensures gathered { AreAt ends.new result high node }
    ensures sorted { IsSortedBeside ends.new result high node }
{
    let mut kept = low;
    for i in low..high {
        if ends[i].node != node {
            ends.swap(kept, i);
            kept += 1;
        }
    }
    kept
}

/// Brings the ends from `middle` to `behind` before those from `first` to `middle`.
fn turn(ends: &mut [RangeEnd], first: usize, middle: usize, behind: usize)
    requires order { (first ≤ middle) × (middle ≤ behind) }
    requires within { behind ≤ length ends.old }
    ensures permutation { IsPermutation ends.old ends.new }
    ensures len { length ends.new ≡ length ends.old }
    ensures turned { IsTurned ends.old ends.new first middle behind }
{
    if first == middle || middle == behind {
        return;
    }
    rotate(ends, first, middle, behind);
}

/// Brings them, where there are some of both. Where there is one of each, the two are swapped.
fn rotate(ends: &mut [RangeEnd], first: usize, middle: usize, behind: usize)
    requires order { (first < middle) × (middle < behind) }
    requires within { behind ≤ length ends.old }
    ensures permutation { IsPermutation ends.old ends.new }
    ensures len { length ends.new ≡ length ends.old }
    ensures turned { IsTurned ends.old ends.new first middle behind }
{
    let is_pair = behind - first == 2;
    if is_pair {
        ends.swap(first, middle);
    } else {
        rotate_all(ends, first, middle, behind);
    }
}

/// Brings them, however many there are.
#[inline(never)]
fn rotate_all(ends: &mut [RangeEnd], first: usize, middle: usize, behind: usize)
    requires order { (first ≤ middle) × (middle ≤ behind) }
    requires within { behind ≤ length ends.old }
    ensures permutation { IsPermutation ends.old ends.new }
    ensures len { length ends.new ≡ length ends.old }
    ensures turned { IsTurned ends.old ends.new first middle behind }
{
    ends[first..behind].rotate_left(middle - first);
}

/// Sorts a list by node that is sorted but for ends from `low` to `high` that are at one node: only they, and what stands
/// between them and the others there, are moved. The ends at that node may be in any order then; all others are sorted.
pub(crate) fn settle(ends: &mut [RangeEnd], low: usize, high: usize, node: Key)
    requires within { high ≤ length ends.old }
    requires order { low < high }
    requires sorted { IsSortedBeside ends.old low high node }
    ensures permutation { IsPermutation ends.old ends.new }
    ensures sorted { IsSortedBut node ends.new }
{
    let offset = ends[low].offset;
    let first = gather(ends, low, high, node);
    let front = Span {
        first: 0,
        behind: first,
    };
    let before = place_in(ends, front, node, offset);
    if before < first {
        turn(ends, before, first, high);
        return;
    }
    let back = Span {
        first: high,
        behind: ends.len(),
    };
    let behind = place_in(ends, back, node, offset);
    turn(ends, first, high, behind);
}

/// Sorts a list that is sorted but for the offsets of the ends at one node. Only these ends are looked at: once at each where they
/// are in order already, and else as often as a sort of them takes.
pub(crate) fn put_in_order(ends: &mut [RangeEnd], node: Key)
    requires { IsSortedBut node ends.old }
    ensures permutation { IsPermutation ends.old ends.new }
    ensures sorted { IsSortedByPoint ends.new }
{
    let part = part_of(ends, node);
    ends[part.first..part.behind].sort_unstable_by_key(|end| end.offset);
}

/// Where an end stands in a sorted list that has it. Of the ends at its boundary point the last ones are looked at first.
fn find(ends: &[RangeEnd], end: RangeEnd) -> usize
    requires sorted { IsSortedByPoint ends.now }
    requires there { IsListedOnce ends.now end }
    ensures within { result < length ends.now }
    ensures found { (d : RangeEnd) → slice_index_or ends.now result d ≡ end }
{
    let part = part_at(ends, end.node, end.offset);
    let mut behind = part.behind;
    while part.first < behind {
        behind -= 1;
        if ends[behind].slot == end.slot && ends[behind].is_end == end.is_end {
            return behind;
        }
    }
    part.first
}

/// Brings a listed end to another boundary point. It comes behind the ends that are there: only it, and what stands between
/// it and that place, are moved.
pub(crate) fn bring(ends: &mut [RangeEnd], end: RangeEnd, node: Key, offset: usize)
    requires sorted { IsSortedByPoint ends.old }
    requires there { IsListedOnce ends.old end }
    ensures brought { HasChanged ends.old ends.new (end ∷ []) (end_in end.slot end.is_end (at node offset) ∷ []) }
    ensures sorted { IsSortedByPoint ends.new }
{
    let moved = RangeEnd {
        node,
        offset,
        slot: end.slot,
        is_end: end.is_end,
    };
    let place = find(ends, end);
    let to = place_behind(ends, node, offset);
    ends[place] = moved;
    if to <= place {
        turn(ends, to, place, place + 1);
    } else {
        turn(ends, place, place + 1, to);
    }
}

/// Drops a listed end.
pub(crate) fn drop_end(ends: &mut Vec<RangeEnd>, end: RangeEnd)
    requires sorted { IsSortedByPoint ends.old.items }
    requires there { IsListedOnce ends.old.items end }
    ensures dropped { IsPermutation ends.old.items (end ∷ ends.new.items) }
    ensures sorted { IsSortedByPoint ends.new.items }
{
    let place = find(ends.as_slice(), end);
    let _ = ends.remove(place);
}

/// Lists both ends of a range at the beginning of a node, for which there is room.
pub(crate) fn list_range(ends: &mut Vec<RangeEnd>, slot: usize, node: Key)
    requires sorted { IsSortedByPoint ends.old.items }
    requires room { vec_len ends.old + 2 ≤ vec_capacity ends.old }
    ensures listed { IsPermutation (ends.old.items ++ end_in slot false (at node 0) ∷ end_in slot true (at node 0) ∷ []) ends.new.items }
    ensures sorted { IsSortedByPoint ends.new.items }
{
    let to = place_behind(ends.as_slice(), node, 0);
    let first = ends.len();
    let start = RangeEnd {
        node,
        offset: 0,
        slot,
        is_end: false,
    };
    let end = RangeEnd {
        node,
        offset: 0,
        slot,
        is_end: true,
    };
    let _ = ends.push(start);
    let _ = ends.push(end);
    let behind = ends.len();
    turn(ends.as_mut_slice(), to, first, behind);
}
