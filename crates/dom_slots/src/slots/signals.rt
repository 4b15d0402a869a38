//! Steps that are begun and ended, and the slots that they signal.
ghost use Rattle.std.specs.Prelude.{◌≡◌, ◌≢◌, [], true, false, Bool as Truth, map, filter, All, OnOk, IfOk};
ghost use Rattle.std.specs.Option.{option_map, ForSome};
ghost use Rattle.dom_base.specs.declared.NodeName.{NodeName as Name};
ghost use Rattle.dom_model.specs.Tree.{Trees};
ghost use Rattle.dom_tree.specs.Forest.{IsNode, name_of};
ghost use Rattle.dom_slots.specs.Hosts.{HostsAreNodes};
ghost use Rattle.dom_slots.specs.Insides.{own_slots, IsMoved};
ghost use Rattle.dom_slots.specs.Index.{AreIndexed};
ghost use Rattle.dom_slots.specs.Kept.{AreSlotsOf, Hints, IsBegun, IsEndOf, hints_of, with_hints};
ghost use Rattle.dom_slots.specs.Parked.{IsParked};
ghost use Rattle.dom_slots.specs.Renewals.{AreRenewed};
ghost use Rattle.dom_slots.specs.Shadows.{shadows, shadow_trees, slot_at};
ghost use Rattle.dom_slots.specs.Steps.{StepHasNodes, step_node, step_signals};
ghost use Rattle.dom_slots.specs.Tables.{SlotTable, IsTableOf};
ghost use Rattle.dom_slots.specs.declared.step.Step.{Step as StepOf};

use super::bare::Moved;
use crate::Slots;
use crate::step::{SlotChange, Step};
use dom_tree::Forest;
use node_arena::Key;
use smallvec::SmallVec;
use std::alloc::AllocError;

impl Slots {
    /// What `end` needs of the forest before a step that is about to be done (own rule). It costs the look-ups of a parent and of a
    /// slot. Takes no memory.
    #[inline(always)]
    pub fn begin(&self, forest: &Forest, step: Step) -> SlotChange
        requires nodes { StepHasNodes forest.now.names step }
        requires slots { AreSlotsOf forest.now self.now }
        ensures step { result.step ≡ step }
        ensures begun { IsBegun forest.now self.now.hosts result }
    {
        forest.law_nodes_stand_once();
        let kept = step;
        let left = match step {
            Step::Place(node, _, _) | Step::Removal(node) => forest.parent(node),
            Step::Attribute(_) => None,
        };
        let slot = self.slot_of(forest, step.node());
        SlotChange {
            step: kept,
            left,
            slot,
        }
    }

    /// The slots that a step signals which has been done since it was begun, in order (own rule; DOM Standard, concept: signal a
    /// slot change). Up to two of them take no memory. A value to which memory was refused is only dropped. Where there is no host
    /// this costs one look. A step whose node is no slot, and has no child where it is moved, costs no way up to a root. Any other
    /// one costs those from the parents that its node left and has now, and where one of them stands in a shadow tree a walk
    /// through what is moved, unless it is known that the tree that it left has no slot. Where the parent is a host, the slot is found by
    /// one look under the number of the name that its node looks for, and by the way up from the slot that is found; if several slots
    /// of the shadow tree had that number, by a walk through the tree up to the first slot of the name. Where the slot is another one
    /// than before, the list of the old one is read, and of the siblings behind the node those up to the first that has the new one.
    /// Only where what is moved holds a slot, or a slot's attributes change, the trees that were left and reached are walked, each
    /// once, and where they have such a slot the children of their hosts are read once. Where what is moved holds one slot, they
    /// are walked only if several slots of them had the number of its name, and if it comes back into the tree that it left in
    /// the step before, its list is copied, and no child of the host is read.
    pub fn end(
        &mut self,
        forest: &Forest,
        change: SlotChange,
    ) -> Result<SmallVec<Key, 2>, AllocError>
        requires { (was : Trees) × IsEndOf was forest.now self.old change }
        ensures value { (was : Trees) → IsEndOf was forest.now self.old change →
            IfOk result (λ keys. map (name_of forest.now) keys.items ≡ step_signals forest.now.names
            (shadow_trees forest.now.names was self.old.hosts) (shadows forest.now self.old.hosts) change.step change.left) }
        ensures nodes { IfOk result (λ keys. All (IsNode forest.now) keys.items) }
        ensures hosts { OnOk result (self.new.hosts ≡ self.old.hosts) }
        ensures slots { OnOk result (AreSlotsOf forest.now self.new) }
    {
        forest.law_nodes_stand_once();
        if self.is_hostless() {
            return Ok(SmallVec::new(self.alloc));
        }
        let kept = change;
        let done = change;
        self.park(forest, done)?;
        let moved = self.follow(forest, kept)?;
        let slot = self.slot_found(forest, change.step.node());
        let signals = self.step_signals(forest, change, moved, slot)?;
        Ok(signals)
    }

    /// The slots that a step signals which is done, where there are hosts, by what it moved.
    fn step_signals(
        &mut self,
        forest: &Forest,
        change: SlotChange,
        moved: Moved,
        slot: Option<Key>,
    ) -> Result<SmallVec<Key, 2>, AllocError>
        requires ended { (was : Trees) × (hints : Hints) × IsEndOf was forest.now (with_hints hints self.old) change }
        requires indexed { AreIndexed forest.now self.old.hosts self.old.index }
        requires parked { ForSome self.old.parked (IsParked forest.now self.old.hosts) }
        requires moved { IsMoved forest.now self.old.hosts change moved }
        requires own { option_map (name_of forest.now) slot ≡ slot_at (shadows forest.now self.old.hosts) (name_of forest.now (step_node change.step)) }
        requires own_node { ForSome slot (IsNode forest.now) }
        ensures value { (was : Trees) (hints : Hints) → IsEndOf was forest.now (with_hints hints self.old) change →
            IfOk result (λ keys. map (name_of forest.now) keys.items ≡ step_signals forest.now.names
            (shadow_trees forest.now.names was self.old.hosts) (shadows forest.now self.old.hosts) change.step change.left) }
        ensures nodes { IfOk result (λ keys. All (IsNode forest.now) keys.items) }
        ensures hosts { OnOk result (self.new.hosts ≡ self.old.hosts) }
        ensures hints { OnOk result (hints_of self.new ≡ hints_of self.old) }
        ensures table { OnOk result (IsTableOf forest.now self.old.hosts self.new.table) }
    {
        forest.law_nodes_stand_once();
        let node = change.step.node();
        let moves = change.step.is_move();
        match moved {
            Moved::NoSlot => self.still_signals(forest, change, slot),
            Moved::Apart => self.moved_signals(forest, node, moves, change.slot, slot),
            Moved::Slots(slots) => self.stirred_signals(forest, change, &slots, slot),
        }
    }

    /// Holds where there is no host (own rule): a step that was begun and has been done signals no slot, and the slots are those of the
    /// forest that it leaves.
    #[inline(always)]
    pub fn law_hostless(&self, forest: &Forest, change: SlotChange)
        requires { self.now.hosts ≡ [] }
        ensures signals { (was : Trees) → step_signals forest.now.names (shadow_trees forest.now.names was self.now.hosts)
            (shadows forest.now self.now.hosts) change.step change.left ≡ [] }
        ensures slots { (was : Trees) → IsEndOf was forest.now self.now change → AreSlotsOf forest.now self.now }
    {}

    /// Whether there is no host.
    #[inline(always)]
    pub fn is_hostless(&self) -> bool
        ensures none { result ≡ true → self.now.hosts ≡ [] }
        ensures some { result ≡ false → self.now.hosts ≢ [] }
    {
        self.hosts.is_empty()
    }

    /// Renews the lists of the slot that a step's node had and of the one that it has now, and gives those of the two whose lists
    /// were others.
    pub(super) fn own_signals(
        &mut self,
        forest: &Forest,
        node: Key,
        was: Option<Key>,
        slot: Option<Key>,
    ) -> Result<SmallVec<Key, 2>, AllocError>
        requires hosts { HostsAreNodes forest.now.names self.old.hosts }
        requires node { IsNode forest.now node }
        requires slot { ForSome was (IsNode forest.now) }
        requires own { option_map (name_of forest.now) slot ≡ slot_at (shadows forest.now self.old.hosts) (name_of forest.now node) }
        requires own_node { ForSome slot (IsNode forest.now) }
        ensures hosts { IfOk result (λ keys. self.new.hosts ≡ self.old.hosts) }
        ensures hints { IfOk result (λ keys. hints_of self.new ≡ hints_of self.old) }
        ensures renewed { (p : Name → Truth) (old : SlotTable) (step : StepOf) → step_node step ≡ node →
            AreRenewed forest.now self.old.hosts p old [] [] self.old.table [] →
            IfOk result (λ keys. AreRenewed forest.now self.old.hosts p old (own_slots forest.now self.old.hosts was step)
            (filter p (own_slots forest.now self.old.hosts was step)) self.new.table keys.items) }
    {
        forest.law_nodes_stand_once();
        let mut signals = SmallVec::new(self.alloc);
        self.renew(forest, was.as_slice(), &mut signals)?;
        self.renew(forest, slot.as_slice(), &mut signals)?;
        Ok(signals)
    }
}
