//! Steps that are made inside of shadow trees.
ghost use Rattle.std.specs.Prelude.{◌≡◌, ℕ, ◌++◌, [], true, false, Bool as Truth, List, Some, map, filter, All, OnOk, IfOk};
ghost use Rattle.std.specs.Option.{option_map, ForSome};
ghost use Rattle.dom_base.specs.declared.NodeName.{NodeName as Name};
ghost use Rattle.dom_model.specs.Names.{name_eq, is_in};
ghost use Rattle.dom_model.specs.Slots.{slots_among};
ghost use Rattle.dom_model.specs.Tree.{subtree};
ghost use Rattle.dom_tree.specs.Forest.{IsNode, name_of};
ghost use Rattle.dom_slots.specs.Hosts.{HostsAreNodes};
ghost use Rattle.dom_slots.specs.Insides.{is_called, tree_slots, bare_around, left_slots, AreRight, AreSilent, MovesNone, MovesCalled, MayMove, IsInside};
ghost use Rattle.dom_slots.specs.Index.{AreIndexed};
ghost use Rattle.dom_slots.specs.Kept.{hints_of};
ghost use Rattle.dom_slots.specs.KeyMaps.{IsSingle};
ghost use Rattle.dom_slots.specs.Parked.{IsParked};
ghost use Rattle.dom_slots.specs.Renewals.{AreRenewed, Renews, IsButFor};
ghost use Rattle.dom_slots.specs.Shadows.{shadows, slot_at, is_bare_at};
ghost use Rattle.dom_slots.specs.Steps.{StepHasNodes, step_node, is_move};
ghost use Rattle.dom_slots.specs.Tables.{SlotTable, list_of};

use crate::Slots;
use crate::changes::add_once;
use crate::find::{is_slot, slot_name};
use crate::step::{SlotChange, Step};
use dom_tree::Forest;
use node_arena::Key;
use smallvec::SmallVec;
use std::alloc::AllocError;

impl Slots {
    /// The slots that a step inside a shadow tree signals, where it moved or changed no slot.
    pub(super) fn still_signals(
        &mut self,
        forest: &Forest,
        change: SlotChange,
        slot: Option<Key>,
    ) -> Result<SmallVec<Key, 2>, AllocError>
        requires hosts { HostsAreNodes forest.now.names self.old.hosts }
        requires nodes { StepHasNodes forest.now.names change.step }
        requires left { ForSome change.left (IsNode forest.now) }
        requires slot { ForSome change.slot (IsNode forest.now) }
        requires own { option_map (name_of forest.now) slot ≡ slot_at (shadows forest.now self.old.hosts) (name_of forest.now (step_node change.step)) }
        requires own_node { ForSome slot (IsNode forest.now) }
        requires single { (k : ℕ) → change.slot ≡ Some k → IsSingle (list_of self.old.table k) }
        requires still { MovesNone forest.now self.old.hosts change.step }
        ensures hosts { IfOk result (λ keys. self.new.hosts ≡ self.old.hosts) }
        ensures hints { IfOk result (λ keys. hints_of self.new ≡ hints_of self.old) }
        ensures renewed { (p : Name → Truth) → IsButFor forest.now self.old.hosts self.old.table change.slot change.step →
            AreRenewed forest.now self.old.hosts p self.old.table [] [] self.old.table [] →
            IfOk result (λ keys. IsInside forest.now self.old.hosts p self.old.table change.step change.left change.slot self.new.table keys.items) }
    {
        let node = change.step.node();
        let moves = change.step.is_move();
        let mut signals = self.moved_signals(forest, node, moves, change.slot, slot)?;
        if let Some(around) = change.step.around(change.left) {
            self.add_bare(forest, change.step, around, &mut signals)?;
        }
        Ok(signals)
    }

    /// The slots that a step inside a shadow tree signals, where these slots were moved or may have been changed.
    pub(super) fn stirred_signals(
        &mut self,
        forest: &Forest,
        change: SlotChange,
        moved: &[Key],
        slot: Option<Key>,
    ) -> Result<SmallVec<Key, 2>, AllocError>
        requires hosts { HostsAreNodes forest.now.names self.old.hosts }
        requires indexed { AreIndexed forest.now self.old.hosts self.old.index }
        requires parked { ForSome self.old.parked (IsParked forest.now self.old.hosts) }
        requires nodes { StepHasNodes forest.now.names change.step }
        requires left { ForSome change.left (IsNode forest.now) }
        requires slot { ForSome change.slot (IsNode forest.now) }
        requires own { option_map (name_of forest.now) slot ≡ slot_at (shadows forest.now self.old.hosts) (name_of forest.now (step_node change.step)) }
        requires own_node { ForSome slot (IsNode forest.now) }
        requires moved { map (name_of forest.now) moved.now ≡ slots_among (subtree forest.now.trees (name_of forest.now (step_node change.step))) }
        requires moved_nodes { All (IsNode forest.now) moved.now }
        ensures hosts { IfOk result (λ keys. self.new.hosts ≡ self.old.hosts) }
        ensures hints { IfOk result (λ keys. hints_of self.new ≡ hints_of self.old) }
        ensures renewed { (p : Name → Truth) (old : SlotTable) → AreRenewed forest.now self.old.hosts p old [] [] self.old.table [] →
            IfOk result (λ keys. IsInside forest.now self.old.hosts p old change.step change.left change.slot self.new.table keys.items) }
    {
        let mut signals = self.own_signals(forest, change.step.node(), change.slot, slot)?;
        if let Some(around) = change.step.around(change.left) {
            let step = change.step;
            self.add_bare(forest, step, around, &mut signals)?;
            self.renew_moved(forest, change, around, moved, &mut signals)?;
        }
        Ok(signals)
    }

    /// Adds the node around to the signals, where a child was placed or removed and it is a slot without assigned nodes.
    fn add_bare(
        &self,
        forest: &Forest,
        step: Step,
        around: Key,
        signals: &mut SmallVec<Key, 2>,
    ) -> Result<(), AllocError>
        requires hosts { HostsAreNodes forest.now.names self.now.hosts }
        requires around { IsNode forest.now around }
        ensures { (p : Name → Truth) (old : SlotTable) (done told : List Name) (table : SlotTable) →
            AreRenewed forest.now self.now.hosts p old done told table signals.old.items →
            OnOk result (AreRenewed forest.now self.now.hosts p old done
            (told ++ bare_around forest.now self.now.hosts step (name_of forest.now around)) table signals.new.items) }
    {
        forest.law_nodes_stand_once();
        if step.is_move() && self.is_bare(forest, around)? {
            add_once(signals, around)?;
        }
        Ok(())
    }

    /// Whether a node is a slot of a shadow tree and nothing is assigned to it.
    fn is_bare(&self, forest: &Forest, key: Key) -> Result<bool, AllocError>
        requires hosts { HostsAreNodes forest.now.names self.now.hosts }
        requires node { IsNode forest.now key }
        ensures { IfOk result (λ bare. bare ≡ is_bare_at (shadows forest.now self.now.hosts) (name_of forest.now key)) }
    {
        forest.law_nodes_stand_once();
        if !is_slot(forest, key) || self.host_of(forest.root(key)).is_none() {
            return Ok(false);
        }
        let list = self.assigned_now(forest, key)?;
        Ok(list.is_empty())
    }

    /// Renews the lists of the slots in the tree around and of those that a step moves, and then those of the tree that a
    /// placed node left, which are not signalled. Where one slot alone is moved, those of other names stay as they are.
    fn renew_moved(
        &mut self,
        forest: &Forest,
        change: SlotChange,
        around: Key,
        moved: &[Key],
        signals: &mut SmallVec<Key, 2>,
    ) -> Result<(), AllocError>
        requires hosts { HostsAreNodes forest.now.names self.old.hosts }
        requires indexed { AreIndexed forest.now self.old.hosts self.old.index }
        requires parked { ForSome self.old.parked (IsParked forest.now self.old.hosts) }
        requires nodes { StepHasNodes forest.now.names change.step }
        requires left { ForSome change.left (IsNode forest.now) }
        requires around { IsNode forest.now around }
        requires moved { map (name_of forest.now) moved.now ≡ slots_among (subtree forest.now.trees (name_of forest.now (step_node change.step))) }
        requires moved_nodes { All (IsNode forest.now) moved.now }
        ensures hosts { OnOk result (self.new.hosts ≡ self.old.hosts) }
        ensures hints { OnOk result (hints_of self.new ≡ hints_of self.old) }
        ensures renewed { (p : Name → Truth) (old : SlotTable) (done told : List Name) →
            AreRenewed forest.now self.old.hosts p old done told self.old.table signals.old.items →
            OnOk result (MayMove forest.now self.old.hosts p old done told change.step change.left (name_of forest.now around) self.new.table
            signals.new.items) }
    {
        let name = moved_name(forest, change.step, moved);
        self.renew_tree(forest, around, name, signals)?;
        self.renew_below(forest, change.step.node(), around, moved, signals)?;
        self.renew_left(forest, change, around, name)
    }

    /// Renews the lists of the slots in the tree of a node, unless that stands in the tree of another one, whose slots are done.
    fn renew_below(
        &mut self,
        forest: &Forest,
        node: Key,
        around: Key,
        moved: &[Key],
        signals: &mut SmallVec<Key, 2>,
    ) -> Result<(), AllocError>
        requires hosts { HostsAreNodes forest.now.names self.old.hosts }
        requires node { IsNode forest.now node }
        requires around { IsNode forest.now around }
        requires moved { map (name_of forest.now) moved.now ≡ slots_among (subtree forest.now.trees (name_of forest.now node)) }
        requires moved_nodes { All (IsNode forest.now) moved.now }
        ensures hosts { OnOk result (self.new.hosts ≡ self.old.hosts) }
        ensures hints { OnOk result (hints_of self.new ≡ hints_of self.old) }
        ensures renewed { (p q : Name → Truth) (old : SlotTable) (done told : List Name) →
            ((y : Name) → is_in name_eq y (map (name_of forest.now) moved.now) ≡ true → q y ≡ true) →
            AreRenewed forest.now self.old.hosts p old (done ++ filter q (tree_slots forest.now.trees (name_of forest.now around))) told
            self.old.table signals.old.items →
            OnOk result (AreRenewed forest.now self.old.hosts p old
            ((done ++ filter q (tree_slots forest.now.trees (name_of forest.now around))) ++ map (name_of forest.now) moved.now)
            (told ++ filter p (map (name_of forest.now) moved.now)) self.new.table signals.new.items) }
    {
        forest.law_nodes_stand_once();
        if forest.root(node) == forest.root(around) {
            return Ok(());
        }
        self.renew(forest, moved, signals)
    }

    /// Renews the lists of the slots in the tree in which a node stands, of a name alone if one is given, and adds those to the
    /// signals whose lists were others. Where there is no such slot, no child of the host is looked at.
    fn renew_tree(
        &mut self,
        forest: &Forest,
        node: Key,
        name: Option<&[u16]>,
        signals: &mut SmallVec<Key, 2>,
    ) -> Result<(), AllocError>
        requires hosts { HostsAreNodes forest.now.names self.old.hosts }
        requires indexed { AreIndexed forest.now self.old.hosts self.old.index }
        requires parked { ForSome self.old.parked (IsParked forest.now self.old.hosts) }
        requires node { IsNode forest.now node }
        ensures hosts { OnOk result (self.new.hosts ≡ self.old.hosts) }
        ensures hints { OnOk result (hints_of self.new ≡ hints_of self.old) }
        ensures renewed { OnOk result (Renews forest.now self.old.hosts (filter (is_called forest.now.trees (option_map (λ a. a.now) name.entry))
            (tree_slots forest.now.trees (name_of forest.now node))) self.old.table signals.old.items self.new.table signals.new.items) }
    {
        forest.law_nodes_stand_once();
        let root = forest.root(node);
        let slots = self.slots_called(forest, root, name)?;
        match self.host_of(root) {
            Some(host) if !slots.is_empty() && self.root_of(host) == Some(root) => {
                let waiting = self.waiting_for(forest, host, name)?;
                self.renew_waiting(forest, &slots, waiting, signals)
            }
            _ => self.renew(forest, &slots, signals),
        }
    }

    /// Renews the lists of the slots, of a name alone if one is given, in the tree that a placed node left, unless that is the tree
    /// around, whose slots are done.
    fn renew_left(
        &mut self,
        forest: &Forest,
        change: SlotChange,
        around: Key,
        name: Option<&[u16]>,
    ) -> Result<(), AllocError>
        requires hosts { HostsAreNodes forest.now.names self.old.hosts }
        requires indexed { AreIndexed forest.now self.old.hosts self.old.index }
        requires parked { ForSome self.old.parked (IsParked forest.now self.old.hosts) }
        requires left { ForSome change.left (IsNode forest.now) }
        requires around { IsNode forest.now around }
        ensures hosts { OnOk result (self.new.hosts ≡ self.old.hosts) }
        ensures hints { OnOk result (hints_of self.new ≡ hints_of self.old) }
        ensures renewed { AreRight forest.now self.old.hosts (filter (is_called forest.now.trees (option_map (λ a. a.now) name.entry))
            (tree_slots forest.now.trees (name_of forest.now around))) self.old.table →
            OnOk result (AreSilent forest.now self.old.hosts (filter (is_called forest.now.trees (option_map (λ a. a.now) name.entry))
            (left_slots forest.now self.old.hosts change.step change.left)) self.old.table self.new.table) }
    {
        forest.law_nodes_stand_once();
        let Some(left) = change.step.left_behind(change.left) else {
            return Ok(());
        };
        if forest.root(left) == forest.root(around) {
            return Ok(());
        }
        let mut signals = SmallVec::new(self.alloc);
        self.renew_tree(forest, left, name, &mut signals)
    }
}

/// The name of the slot that a step moves, if it moves just one.
fn moved_name<'a>(forest: &'a Forest, step: Step, moved: &[Key]) -> Option<&'a [u16]>
    requires moved { map (name_of forest.now) moved.now ≡ slots_among (subtree forest.now.trees (name_of forest.now (step_node step))) }
    requires moved_nodes { All (IsNode forest.now) moved.now }
    ensures { MovesCalled forest.now step (option_map (λ a. a.now) result) }
{
    let count = moved.len();
    if !step.is_move() {
        return None;
    }
    if count != 1 {
        return None;
    }
    Some(slot_name(forest, moved[0]))
}
