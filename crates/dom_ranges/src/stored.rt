//! The live ranges of all owners as they are kept: each in a slot, and its ends in a sorted list.
ghost use Rattle.std.specs.Prelude.{◌≡◌, ℕ, ◌<◌, ◌++◌, ◌∷◌, [], ◌↔◌, ◌⊎◌, true, length, slice_set, nat_eq, is_some, IsSome, Some, None};
ghost use Rattle.std.specs.Prelude.{IfOk, OnOk, OnErr};
ghost use Rattle.std.specs.Option.{option_map};
ghost use Rattle.dom_base.specs.declared.Owner.{Owner as Owners};
ghost use Rattle.dom_model.specs.Ranges.{at, from_to, after_removal};
ghost use Rattle.dom_model.specs.Tree.{index_of};
ghost use Rattle.dom_tree.specs.Forest.{IsNode, name_of};
ghost use Rattle.dom_ranges.specs.Pending.{shown_after, CanFollow};
ghost use Rattle.dom_ranges.specs.Rules.{IsAtNode, IsUpTo, is_inside};
ghost use Rattle.dom_ranges.specs.Tables.{ranges_of, range_in, with_ranges, range_from, all_ends_by, EachRange, BothEnds, HasEndAt};

use crate::change::Insertion;
use crate::concerned::LocalChange;
use crate::ends::{RangeEnd, list_range};
use crate::indexes::reach;
use crate::moving::{drop_range, move_concerned, put_end};
use crate::numbers::Numbers;
use crate::removing::move_out;
use crate::table::Points;
use dom_base::{MAX_NODES, Owner};
use dom_tree::Forest;
use node_arena::Key;
use slab::Slab;
use std::alloc::{AllocError, Global};
use std::marker::Model;

/// The live ranges of all owners. Each call that moves ends writes all of them.
#[derive(Drop)]
pub(crate) struct StoredRanges {
    live: Slab<Points>,
    ends: Vec<RangeEnd>,
    numbers: Numbers,
}

impl Model for StoredRanges {
    ghost use Rattle.dom_ranges.specs.Tables.{RangeLists};

    ghost Value = { RangeLists };

    ghost use Rattle.dom_ranges.specs.RangeSlots.{shown, HaveNumbers};
    ghost use Rattle.dom_ranges.specs.Listed.{IsListed, IsSortedByPoint};

    ghost view = { λ t. shown t.live t.numbers };

    ghost invariant = { λ t. HaveNumbers t.live t.numbers × IsListed t.live t.ends.items × IsSortedByPoint t.ends.items };
}

impl StoredRanges {
    /// No ranges.
    pub(crate) fn new(alloc: Global) -> Self
        ensures { (o : Owners) → ranges_of result o ≡ [] }
    {
        StoredRanges {
            live: Slab::new(alloc),
            ends: Vec::new(alloc),
            numbers: Numbers::new(alloc),
        }
    }

    /// How many ranges an owner has made, removed ones counted.
    pub(crate) fn count(&self, owner: Owner) -> usize
        ensures { result ≡ length (ranges_of self.now owner) }
    {
        self.numbers.of(owner).len()
    }

    /// Makes a range with both ends at offset 0 of a node.
    pub(crate) fn add(&mut self, owner: Owner, node: Key) -> Result<u32, AllocError>
        requires { length (ranges_of self.old owner) < MAX_NODES }
        ensures number { IfOk result (λ number. number ≡ length (ranges_of self.old owner)) }
        ensures made { OnOk result ((o : Owners) →
            ranges_of self.new o ≡ with_ranges self.old owner (ranges_of self.old owner ++ Some (from_to (at node 0) (at node 0)) ∷ []) o) }
        ensures err { OnErr result ((o : Owners) → ranges_of self.new o ≡ ranges_of self.old o) }
    {
        let number = self.numbers.of(owner).len();
        self.numbers.reserve(owner)?;
        self.ends.reserve(2)?;
        let slot = self.live.insert(Points {
            start: (node, 0),
            end: (node, 0),
        })?;
        self.numbers.push(owner, slot);
        list_range(&mut self.ends, slot, node);
        Ok(number as u32)
    }

    /// Drops a range. Answers whether it was there.
    pub(crate) fn remove(&mut self, owner: Owner, number: u32) -> bool
        ensures there { result ≡ is_some (range_in (ranges_of self.old owner) number) }
        ensures table { (o : Owners) → ranges_of self.new o ≡ with_ranges self.old owner (slice_set (ranges_of self.old owner) number None) o }
    {
        let Some(slot) = self.numbers.slot(owner, number) else {
            return false;
        };
        self.numbers.clear(owner, number);
        drop_range(&mut self.live, &mut self.ends, slot);
        true
    }

    /// The ends of a range that is there.
    pub(crate) fn points(&self, owner: Owner, number: u32) -> Option<Points>
        ensures { option_map range_from result ≡ range_in (ranges_of self.now owner) number }
    {
        let slot = self.numbers.slot(owner, number)?;
        self.live.get(slot).copied()
    }

    /// Gives a range that is there other ends.
    pub(crate) fn write(&mut self, owner: Owner, number: u32, points: Points)
        requires { IsSome (range_in (ranges_of self.old owner) number) }
        ensures { (o : Owners) → ranges_of self.new o ≡ with_ranges self.old owner (slice_set (ranges_of self.old owner) number (Some (range_from points))) o }
    {
        if let Some(slot) = self.numbers.slot(owner, number) {
            let ends = self.ends.as_mut_slice();
            put_end(&mut self.live, ends, slot, false, points.start);
            put_end(&mut self.live, ends, slot, true, points.end);
        }
    }

    /// Whether no owner has a live range.
    pub(crate) fn is_empty(&self) -> bool
        ensures { (result ≡ true) ↔ ((o : Owners) (k : ℕ) → range_in (ranges_of self.now o) k ≡ None) }
    {
        self.live.is_empty()
    }

    /// The greatest offset of the boundary points in a node, or 0 where there are none.
    pub(crate) fn reach(&self, node: Key) -> usize
        ensures up_to { (o : Owners) → EachRange (BothEnds (IsUpTo node result)) (ranges_of self.now o) }
        ensures reached { (result ≡ 0) ⊎ HasEndAt self.now (at node result) }
    {
        reach(self.ends.as_slice(), node)
    }

    /// Moves the ends of all ranges for a child that is to leave its parent.
    pub(crate) fn remove_child(&mut self, forest: &Forest, node: Key, parent: Key)
        requires node_is_node { IsNode forest.now node }
        requires ends { (o : Owners) → EachRange (BothEnds (IsAtNode forest.now.names)) (ranges_of self.old o) }
        ensures { self.new ≡ all_ends_by
            (after_removal nat_eq (is_inside forest.now node) parent (index_of forest.now.trees (name_of forest.now node))) self.old }
    {
        let ends = self.ends.as_mut_slice();
        move_out(&mut self.live, ends, forest, node, parent);
    }

    /// Rewrites the ends of all ranges for a step of a change that tells which of them it may move.
    pub(crate) fn apply<C: LocalChange>(&mut self, change: &C)
        requires { (o : Owners) → EachRange (BothEnds (C.can_move change.now)) (ranges_of self.old o) }
        ensures { self.new ≡ all_ends_by (C.rule change.now) self.old }
    {
        move_concerned(&mut self.live, self.ends.as_mut_slice(), change);
    }

    /// Rewrites the ends of all ranges for an insertion that was remembered, where there is one.
    pub(crate) fn settle(&mut self, pending: &Option<Insertion>)
        requires { CanFollow pending.now self.old }
        ensures { self.new ≡ shown_after pending.now self.old }
    {
        if let Some(insertion) = pending {
            self.apply(insertion);
        }
    }
}
