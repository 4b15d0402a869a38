//! The live ranges of all owners.
ghost use Rattle.std.specs.Prelude.{◌≡◌, ℕ, ◌≤◌, ◌<◌, ◌+◌, ◌++◌, ◌∷◌, [], ◌↔◌, ◌⊎◌, true, length, slice_set, nat_eq, is_some, IsSome, Some, None};
ghost use Rattle.std.specs.Prelude.{IfOk, IfErr, OnOk, OnErr};
ghost use Rattle.std.specs.Option.{option_map, ForSome};
ghost use Rattle.dom_base.specs.declared.Owner.{Owner as Owners};
ghost use Rattle.dom_model.specs.CommandRefusals.{past_limit};
ghost use Rattle.dom_model.specs.Place.{Boundary};
ghost use Rattle.dom_model.specs.Ranges.{at, from_to, map_ends, after_insert, after_removal, after_replace_data, after_split, with_start, with_end};
ghost use Rattle.dom_model.specs.Tree.{parent_of, index_of, length_of};
ghost use Rattle.dom_tree.specs.Forest.{IsNode, name_of};
ghost use Rattle.dom_ranges.specs.Rules.{Fits, IsAtNode, IsNear, IsUpTo, is_inside};
ghost use Rattle.dom_ranges.specs.Settings.{start_set, end_set, named_ranges, with_named, without_named};
ghost use Rattle.dom_ranges.specs.Tables.{ranges_of, range_in, with_ranges, range_from, ends_by, EachRange, BothEnds, HasEndAt, collapsed_range};

use crate::change::{Change, Insertion, Replacement, Split};
use crate::concerned::LocalChange;
use crate::indexes::index_past;
use crate::setting::{is_past_end, with_end, with_start};
use crate::stored::StoredRanges;
use dom_base::{Fault, MAX_NODES, Owner, Refusal};
use dom_tree::Forest;
use node_arena::Key;
use std::alloc::Global;
use std::marker::Model;

/// The boundary points of a range, each a node and an offset (DOM Standard, 5.2 Boundary points).
#[derive(Clone, Copy, PartialEq, Eq, Debug)]
pub struct Points {
    pub start: (Key, usize),
    pub end: (Key, usize),
}

/// The live ranges of all owners (DOM Standard, interface Range). An owner's ranges are numbered in the order in which
/// it made them. Changes of the trees are told to the table step by step.
///
/// An insertion is remembered, and the ends behind it are not moved yet. Further ones whose nodes come before, among or just behind
/// the nodes of that one are added to it: so each of them costs the same, however many ends stand behind. What is asked of the table is
/// answered as if they were carried out, and each other call that changes the table or moves ends carries them out first.
pub struct RangeTable {
    stored: StoredRanges,
    pending: Option<Insertion>,
}

impl Drop for RangeTable {
    // Written out, so that the crates above cite it, and do not prove again how each field is let go.
    fn drop(self) {
        let Self { stored, pending } = self;
    }
}

impl Model for RangeTable {
    ghost use Rattle.dom_ranges.specs.Tables.{RangeLists};

    ghost Value = { RangeLists };

    ghost use Rattle.dom_ranges.specs.Pending.{shown_after, CanFollow};

    ghost view = { λ t. shown_after t.pending t.stored };

    ghost invariant = { λ t. CanFollow t.pending t.stored };
}

impl RangeTable {
    /// A table without ranges, which takes no memory yet. It will take its memory from `alloc`.
    pub fn new(alloc: Global) -> Self
        ensures { (o : Owners) → ranges_of result o ≡ [] }
    {
        RangeTable {
            stored: StoredRanges::new(alloc),
            pending: None,
        }
    }

    /// Makes a range with both ends at offset 0 of a node, and gives its number, the owner's next (DOM Standard, new
    /// Range()). It is refused with `Limit` where the owner has made a million ranges, removed ones counted, and with
    /// `Memory` where memory is refused (own rules); then the table is as it was.
    pub fn make(&mut self, owner: Owner, node: Key) -> Result<u32, Fault>
        ensures number { IfOk result (λ number. number ≡ length (ranges_of self.old owner)) }
        ensures made { OnOk result ((o : Owners) →
            ranges_of self.new o ≡ with_ranges self.old owner (ranges_of self.old owner ++ Some (from_to (at node 0) (at node 0)) ∷ []) o) }
        ensures limit { (result ≡ Err (Fault.Refused Refusal.Limit)) ↔ (past_limit (length (ranges_of self.old owner)) 1 ≡ true) }
        ensures other { IfErr result (λ fault. (fault ≡ Fault.Refused Refusal.Limit) ⊎ (fault ≡ Fault.Memory)) }
        ensures err { OnErr result ((o : Owners) → ranges_of self.new o ≡ ranges_of self.old o) }
    {
        self.stored.settle(&self.pending);
        self.pending = None;
        if self.stored.count(owner) >= MAX_NODES as usize {
            return Err(Fault::Refused(Refusal::Limit));
        }
        Ok(self.stored.add(owner, node)?)
    }

    /// Drops a range, whose number is not given again (own rule). Answers whether it was there.
    pub fn remove(&mut self, owner: Owner, number: u32) -> bool
        ensures there { result ≡ is_some (range_in (ranges_of self.old owner) number) }
        ensures table { (o : Owners) → ranges_of self.new o ≡ with_ranges self.old owner (slice_set (ranges_of self.old owner) number None) o }
    {
        self.stored.settle(&self.pending);
        self.pending = None;
        self.stored.remove(owner, number)
    }

    /// The ends of a range that is there (DOM Standard, interface AbstractRange).
    pub fn points(&self, owner: Owner, number: u32) -> Option<Points>
        ensures { option_map range_from result ≡ range_in (ranges_of self.now owner) number }
    {
        let points = self.stored.points(owner, number)?;
        let Some(insertion) = &self.pending else {
            return Some(points);
        };
        let (start, from) = points.start;
        let (end, to) = points.end;
        Some(Points {
            start: insertion.moved(start, from),
            end: insertion.moved(end, to),
        })
    }

    /// Gives a range another start (DOM Standard, setStart()): the end goes there too where it stands in another tree or
    /// would be before it. It is refused with `Unknown` where the range is not there (own rule), and then with
    /// `IndexSize` where the offset is past the node's length; then the table is as it was.
    pub fn set_start(
        &mut self,
        owner: Owner,
        number: u32,
        forest: &Forest,
        node: Key,
        offset: usize,
    ) -> Result<(), Refusal>
        requires node_is_node { IsNode forest.now node }
        requires ends { EachRange (BothEnds (IsAtNode forest.now.names)) (ranges_of self.old owner) }
        ensures unknown { (result ≡ Err Refusal.Unknown) ↔ (range_in (ranges_of self.old owner) number ≡ None) }
        ensures index_size { (result ≡ Err Refusal.IndexSize) ↔
            (IsSome (range_in (ranges_of self.old owner) number) × (length_of forest.now.trees (name_of forest.now node) < offset)) }
        ensures other { IfErr result (λ refusal. (refusal ≡ Refusal.Unknown) ⊎ (refusal ≡ Refusal.IndexSize)) }
        ensures set { OnOk result ((o : Owners) →
            ranges_of self.new o ≡ with_ranges self.old owner
            (slice_set (ranges_of self.old owner) number
            (option_map (start_set forest.now (at node offset)) (range_in (ranges_of self.old owner) number))) o) }
        ensures named { OnOk result ((o : Owners) →
            named_ranges forest.now.names (ranges_of self.new o) ≡ with_named forest.now.names self.old owner number
            (with_start forest.now.trees (at (name_of forest.now node) offset)) o) }
        ensures err { OnErr result ((o : Owners) → ranges_of self.new o ≡ ranges_of self.old o) }
    {
        let points = self.check(owner, number, forest, node, offset)?;
        self.write(owner, number, with_start(forest, points, node, offset));
        Ok(())
    }

    /// Gives a range another end (DOM Standard, setEnd()): the start goes there too where it stands in another tree or
    /// would be after it. It is refused as `set_start` is.
    pub fn set_end(
        &mut self,
        owner: Owner,
        number: u32,
        forest: &Forest,
        node: Key,
        offset: usize,
    ) -> Result<(), Refusal>
        requires node_is_node { IsNode forest.now node }
        requires ends { EachRange (BothEnds (IsAtNode forest.now.names)) (ranges_of self.old owner) }
        ensures unknown { (result ≡ Err Refusal.Unknown) ↔ (range_in (ranges_of self.old owner) number ≡ None) }
        ensures index_size { (result ≡ Err Refusal.IndexSize) ↔
            (IsSome (range_in (ranges_of self.old owner) number) × (length_of forest.now.trees (name_of forest.now node) < offset)) }
        ensures other { IfErr result (λ refusal. (refusal ≡ Refusal.Unknown) ⊎ (refusal ≡ Refusal.IndexSize)) }
        ensures set { OnOk result ((o : Owners) →
            ranges_of self.new o ≡ with_ranges self.old owner
            (slice_set (ranges_of self.old owner) number
            (option_map (end_set forest.now (at node offset)) (range_in (ranges_of self.old owner) number))) o) }
        ensures named { OnOk result ((o : Owners) →
            named_ranges forest.now.names (ranges_of self.new o) ≡ with_named forest.now.names self.old owner number
            (with_end forest.now.trees (at (name_of forest.now node) offset)) o) }
        ensures err { OnErr result ((o : Owners) → ranges_of self.new o ≡ ranges_of self.old o) }
    {
        let points = self.check(owner, number, forest, node, offset)?;
        self.write(owner, number, with_end(forest, points, node, offset));
        Ok(())
    }

    /// The ends of a range that is there, where a node has an offset.
    fn check(
        &self,
        owner: Owner,
        number: u32,
        forest: &Forest,
        node: Key,
        offset: usize,
    ) -> Result<Points, Refusal>
        requires { IsNode forest.now node }
        ensures unknown { (result ≡ Err Refusal.Unknown) ↔ (range_in (ranges_of self.now owner) number ≡ None) }
        ensures index_size { (result ≡ Err Refusal.IndexSize) ↔
            (IsSome (range_in (ranges_of self.now owner) number) × (length_of forest.now.trees (name_of forest.now node) < offset)) }
        ensures other { IfErr result (λ refusal. (refusal ≡ Refusal.Unknown) ⊎ (refusal ≡ Refusal.IndexSize)) }
        ensures points { IfOk result (λ points. range_in (ranges_of self.now owner) number ≡ Some (range_from points)) }
    {
        let points = self.points(owner, number).ok_or(Refusal::Unknown)?;
        if is_past_end(forest, node, offset) {
            return Err(Refusal::IndexSize);
        }
        Ok(points)
    }

    /// Sets both ends of a range to its start, or to its end (DOM Standard, collapse). Answers whether it is there.
    pub fn collapse(&mut self, owner: Owner, number: u32, to_start: bool) -> bool
        ensures there { result ≡ is_some (range_in (ranges_of self.old owner) number) }
        ensures table { (o : Owners) → ranges_of self.new o ≡ with_ranges self.old owner
            (slice_set (ranges_of self.old owner) number (option_map (collapsed_range to_start) (range_in (ranges_of self.old owner) number))) o }
    {
        let Some(points) = self.points(owner, number) else {
            return false;
        };
        let point = if to_start { points.start } else { points.end };
        let (node, offset) = point;
        self.write(
            owner,
            number,
            Points {
                start: (node, offset),
                end: (node, offset),
            },
        );
        true
    }

    /// Gives a range that is there other ends, whichever comes first (own rule).
    pub fn write(&mut self, owner: Owner, number: u32, points: Points)
        requires { IsSome (range_in (ranges_of self.old owner) number) }
        ensures { (o : Owners) → ranges_of self.new o ≡ with_ranges self.old owner (slice_set (ranges_of self.old owner) number (Some (range_from points))) o }
    {
        self.stored.settle(&self.pending);
        self.pending = None;
        self.stored.write(owner, number, points);
    }

    /// Whether no owner has a live range. Where it is so, no step of a change has to be told to the table.
    pub fn is_empty(&self) -> bool
        ensures { (result ≡ true) ↔ ((o : Owners) (k : ℕ) → range_in (ranges_of self.now o) k ≡ None) }
    {
        self.stored.is_empty()
    }

    /// A number that no offset of a boundary point in a node is greater than: the greatest of these offsets, or 0 where there
    /// are none (own rule).
    pub fn reach(&self, node: Key) -> usize
        ensures up_to { (o : Owners) → EachRange (BothEnds (IsUpTo node result)) (ranges_of self.now o) }
        ensures reached { (result ≡ 0) ⊎ HasEndAt self.now (at node result) }
    {
        let offset = self.stored.reach(node);
        let Some(insertion) = &self.pending else {
            return offset;
        };
        let (_, moved) = insertion.moved(node, offset);
        moved
    }

    /// The index of a child, where boundary points stand behind the child in its parent.
    pub(crate) fn index_before(&self, forest: &Forest, parent: Key, child: Key) -> Option<usize>
        requires { IsNode forest.now child }
        ensures index { ForSome result (λ i. i ≡ index_of forest.now.trees (name_of forest.now child)) }
        ensures none { result ≡ None → (o : Owners) →
            EachRange (BothEnds (IsUpTo parent (index_of forest.now.trees (name_of forest.now child)))) (ranges_of self.now o) }
    {
        forest.index_below(child, self.reach(parent))
    }

    /// Tells the table that `count` nodes are to come into `parent` before its child at `index` (DOM Standard, concept:
    /// insert): offsets in the parent that are greater than the index grow by the count. That is remembered: no end is moved yet, but
    /// for an insertion that was remembered before and cannot be added to.
    pub fn on_insert(&mut self, parent: Key, index: usize, count: usize)
        requires { (o : Owners) → EachRange (BothEnds (λ b. Fits (after_insert nat_eq parent index count b))) (ranges_of self.old o) }
        ensures { (o : Owners) → ranges_of self.new o ≡ ends_by (after_insert nat_eq parent index count) (ranges_of self.old o) }
    {
        let next = Insertion {
            parent,
            index,
            count,
        };
        if let Some(insertion) = &self.pending {
            if let Some(sum) = insertion.with_next(&next) {
                self.pending = Some(sum);
                return;
            }
        }
        self.stored.settle(&self.pending);
        self.pending = Some(next);
    }

    /// Tells the table that a node is to leave its parent, in whose tree it is still linked (DOM Standard, concept:
    /// remove): the boundary points inside it go to where it stands, and greater offsets in the parent drop by one. Of
    /// a root, nothing.
    pub fn on_remove(&mut self, forest: &Forest, node: Key)
        requires node_is_node { IsNode forest.now node }
        requires ends { (o : Owners) → EachRange (BothEnds (IsAtNode forest.now.names)) (ranges_of self.old o) }
        ensures root { parent_of forest.now.trees (name_of forest.now node) ≡ None → (o : Owners) → ranges_of self.new o ≡ ranges_of self.old o }
        ensures child { (parent : ℕ) → IsNode forest.now parent →
            parent_of forest.now.trees (name_of forest.now node) ≡ Some (name_of forest.now parent) → (o : Owners) →
            ranges_of self.new o ≡ ends_by
            (after_removal nat_eq (is_inside forest.now node) parent (index_of forest.now.trees (name_of forest.now node)))
            (ranges_of self.old o) }
        ensures named { (o : Owners) → named_ranges forest.now.names (ranges_of self.new o) ≡ without_named forest.now
            (name_of forest.now node) (named_ranges forest.now.names (ranges_of self.old o)) }
    {
        forest.law_nodes_stand_once();
        if let Some(parent) = forest.parent(node) {
            self.remove_child(forest, node, parent);
        }
    }

    /// Moves the ends of all ranges for a child that is to leave its parent.
    fn remove_child(&mut self, forest: &Forest, node: Key, parent: Key)
        requires node_is_node { IsNode forest.now node }
        requires ends { (o : Owners) → EachRange (BothEnds (IsAtNode forest.now.names)) (ranges_of self.old o) }
        ensures { (o : Owners) → ranges_of self.new o ≡ ends_by
            (after_removal nat_eq (is_inside forest.now node) parent (index_of forest.now.trees (name_of forest.now node)))
            (ranges_of self.old o) }
    {
        self.stored.settle(&self.pending);
        self.pending = None;
        self.stored.remove_child(forest, node, parent);
    }

    /// Tells the table that from `offset` on, `count` code units of a node give way to `length` others (DOM Standard,
    /// concept: replace data): a boundary point among them goes to `offset`, and one behind them moves with what follows.
    #[inline(always)]
    pub fn on_replace_data(&mut self, node: Key, offset: usize, count: usize, length: usize)
        requires { (o : Owners) → EachRange (BothEnds (λ b. Fits (after_replace_data nat_eq node offset count length b))) (ranges_of self.old o) }
        ensures { (o : Owners) → ranges_of self.new o ≡ ends_by (after_replace_data nat_eq node offset count length) (ranges_of self.old o) }
    {
        let change = Replacement {
            node,
            offset,
            count,
            length,
        };
        self.apply(&change);
    }

    /// Tells the table that a Text was split at `offset`, and what was past it is in the Text `new` (DOM Standard,
    /// concept: split a Text node). Of a Text that is the child of a parent at an index, the boundary points past
    /// `offset` go to the new Text, and those just behind the split Text go behind the new one. Of a root, nothing.
    pub fn on_split(&mut self, node: Key, offset: usize, new: Key, place: Option<(Key, usize)>)
        requires { ForSome place (λ p. (o : Owners) → EachRange (BothEnds (λ b. Fits (after_split nat_eq node offset new p.0 p.1 b))) (ranges_of self.old o)) }
        ensures root { place ≡ None → (o : Owners) → ranges_of self.new o ≡ ranges_of self.old o }
        ensures child { ForSome place (λ p. (o : Owners) → ranges_of self.new o ≡ ends_by (after_split nat_eq node offset new p.0 p.1) (ranges_of self.old o)) }
    {
        if let Some(at) = place {
            let (parent, index) = at;
            let change = Split {
                node,
                offset,
                new,
                parent,
                index,
            };
            self.apply(&change);
        }
    }

    /// The index of a child, as far as boundary points stand in its parent.
    pub(crate) fn index_among(&self, forest: &Forest, parent: Key, child: Key) -> usize
        requires { IsNode forest.now child }
        ensures { (o : Owners) → EachRange (BothEnds (IsNear parent (index_of forest.now.trees (name_of forest.now child)) result))
            (ranges_of self.now o) }
    {
        index_past(forest, child, self.reach(parent))
    }

    /// Rewrites the ends of all ranges for a step of a change that tells which of them it may move.
    pub(crate) fn apply<C: LocalChange>(&mut self, change: &C)
        requires { (o : Owners) → EachRange (BothEnds (C.can_move change.now)) (ranges_of self.old o) }
        ensures { (o : Owners) → ranges_of self.new o ≡ ends_by (C.rule change.now) (ranges_of self.old o) }
    {
        self.stored.settle(&self.pending);
        self.pending = None;
        self.stored.apply(change);
    }
}
