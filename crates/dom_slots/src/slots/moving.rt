//! Steps that move no slot: their node leaves the list of its old slot and joins that of its new one.
ghost use Rattle.std.specs.Prelude.{◌≡◌, ℕ, [], true, Bool as Truth, Some, None, map, filter, option_to_list, OnOk, IfOk};
ghost use Rattle.std.specs.Prelude.{if◌then◌else◌};
ghost use Rattle.std.specs.Option.{option_map, ForSome};
ghost use Rattle.dom_base.specs.declared.NodeName.{NodeName as Name};
ghost use Rattle.dom_model.specs.Names.{name_eq, is_empty, first_of, items_after};
ghost use Rattle.dom_model.specs.Slots.{slot_name};
ghost use Rattle.dom_model.specs.Tree.{node_in, parent_of, root_of, siblings};
ghost use Rattle.dom_tree.specs.Forest.{IsNode, name_of};
ghost use Rattle.node_arena.specs.Nodes.{without};
ghost use Rattle.dom_slots.specs.Hosts.{HostsAreNodes, host_named};
ghost use Rattle.dom_slots.specs.Insides.{own_slots};
ghost use Rattle.dom_slots.specs.Kept.{hints_of};
ghost use Rattle.dom_slots.specs.KeyMaps.{IsSingle};
ghost use Rattle.dom_slots.specs.Renewals.{AreRenewed, Renews, IsButFor, names_but};
ghost use Rattle.dom_slots.specs.Shadows.{shadows, slot_at, assigned_at, looks_for};
ghost use Rattle.dom_slots.specs.Steps.{step_node, is_move};
ghost use Rattle.dom_slots.specs.Tables.{list_of};
ghost use Rattle.dom_slots.specs.declared.step.Step.{Step};

use crate::Slots;
use crate::changes::add_once;
use crate::find::next_looking_for;
use dom_tree::Forest;
use node_arena::Key;
use smallvec::SmallVec;
use std::alloc::AllocError;

impl Slots {
    /// Renews the lists of the slot that a step's node had and of the one that it has now, where all other nodes in the lists of
    /// slots stay, and gives those of the two whose lists were others. Where the two are one and
    /// the node is not moved, no list is looked at.
    pub(super) fn moved_signals(
        &mut self,
        forest: &Forest,
        node: Key,
        moves: bool,
        was: Option<Key>,
        slot: Option<Key>,
    ) -> Result<SmallVec<Key, 2>, AllocError>
        requires hosts { HostsAreNodes forest.now.names self.old.hosts }
        requires node { IsNode forest.now node }
        requires slot { ForSome was (IsNode forest.now) }
        requires own { option_map (name_of forest.now) slot ≡ slot_at (shadows forest.now self.old.hosts) (name_of forest.now node) }
        requires own_node { ForSome slot (IsNode forest.now) }
        requires single { (k : ℕ) → was ≡ Some k → IsSingle (list_of self.old.table k) }
        ensures hosts { IfOk result (λ keys. self.new.hosts ≡ self.old.hosts) }
        ensures hints { IfOk result (λ keys. hints_of self.new ≡ hints_of self.old) }
        ensures renewed { (p : Name → Truth) (step : Step) → step_node step ≡ node → is_move step ≡ moves →
            IsButFor forest.now self.old.hosts self.old.table was step → AreRenewed forest.now self.old.hosts p self.old.table [] [] self.old.table [] →
            IfOk result (λ keys. AreRenewed forest.now self.old.hosts p self.old.table (own_slots forest.now self.old.hosts was step)
            (filter p (own_slots forest.now self.old.hosts was step)) self.new.table keys.items) }
    {
        forest.law_nodes_stand_once();
        let mut signals = SmallVec::new(self.alloc);
        if slot == was {
            if moves {
                return self.own_signals(forest, node, was, slot);
            }
            return Ok(signals);
        }
        self.leave(forest, was, node, &mut signals)?;
        self.join(forest, slot, node, &mut signals)?;
        Ok(signals)
    }

    /// Takes a node out of the list of a slot, if there is one, and adds the slot to the signals where the node stood there.
    fn leave(
        &mut self,
        forest: &Forest,
        slot: Option<Key>,
        node: Key,
        signals: &mut SmallVec<Key, 2>,
    ) -> Result<(), AllocError>
        requires node { IsNode forest.now node }
        requires slot { ForSome slot (IsNode forest.now) }
        requires single { (k : ℕ) → slot ≡ Some k → IsSingle (list_of self.old.table k) }
        ensures hosts { OnOk result (self.new.hosts ≡ self.old.hosts) }
        ensures hints { OnOk result (hints_of self.new ≡ hints_of self.old) }
        ensures renewed { ((k : ℕ) → slot ≡ Some k → map (name_of forest.now) (without node (list_of self.old.table k)) ≡ assigned_at
            (shadows forest.now self.old.hosts) (name_of forest.now k)) →
            OnOk result (Renews forest.now self.old.hosts (option_to_list (option_map (name_of forest.now) slot)) self.old.table signals.old.items
            self.new.table signals.new.items) }
    {
        forest.law_nodes_stand_once();
        let Some(key) = slot else {
            return Ok(());
        };
        if !self.table.take_out(key, node) {
            return Ok(());
        }
        add_once(signals, key)
    }

    /// Puts a node into the list of its slot, if it has one, just before the first sibling behind it that has this slot, and adds
    /// the slot to the signals. Where the list is empty no sibling is looked at.
    fn join(
        &mut self,
        forest: &Forest,
        slot: Option<Key>,
        node: Key,
        signals: &mut SmallVec<Key, 2>,
    ) -> Result<(), AllocError>
        requires hosts { HostsAreNodes forest.now.names self.old.hosts }
        requires node { IsNode forest.now node }
        requires slot { ForSome slot (IsNode forest.now) }
        requires own { option_map (name_of forest.now) slot ≡ slot_at (shadows forest.now self.old.hosts) (name_of forest.now node) }
        ensures hosts { OnOk result (self.new.hosts ≡ self.old.hosts) }
        ensures hints { OnOk result (hints_of self.new ≡ hints_of self.old) }
        ensures renewed { ((k : ℕ) → slot ≡ Some k → map (name_of forest.now) (list_of self.old.table k) ≡ names_but (name_of forest.now node)
            (assigned_at (shadows forest.now self.old.hosts) (name_of forest.now k))) →
            OnOk result (Renews forest.now self.old.hosts (option_to_list (option_map (name_of forest.now) slot)) self.old.table signals.old.items
            self.new.table signals.new.items) }
    {
        forest.law_nodes_stand_once();
        let Some(key) = slot else {
            return Ok(());
        };
        if !self.is_of_parent(forest, key, node) {
            return self.renew(forest, &[key], signals);
        }
        let before = self.sibling_behind(forest, key, node);
        self.table.put(self.alloc, key, node, before)?;
        add_once(signals, key)
    }

    /// The first sibling behind a node that looks for the name of this slot; none where the list of the slot is empty, and no
    /// sibling is looked at.
    fn sibling_behind(&self, forest: &Forest, slot: Key, node: Key) -> Option<Key>
        requires slot { IsNode forest.now slot }
        requires node { IsNode forest.now node }
        requires parent { (h : Name) × (parent_of forest.now.trees (name_of forest.now node) ≡ Some h) }
        ensures value { option_map (name_of forest.now) result ≡ (if is_empty (list_of self.now.table slot) then None else first_of
            (filter (λ y. looks_for (slot_name (node_in forest.now.trees (name_of forest.now slot))) (node_in forest.now.trees y))
            (items_after name_eq (name_of forest.now node) (siblings forest.now.trees (name_of forest.now node))))) }
        ensures node { ForSome result (IsNode forest.now) }
    {
        if self.table.list(slot).is_empty() {
            return None;
        }
        next_looking_for(forest, node, slot)
    }

    /// Whether a slot stands in the shadow tree of the parent of a node.
    fn is_of_parent(&self, forest: &Forest, slot: Key, node: Key) -> bool
        requires hosts { HostsAreNodes forest.now.names self.now.hosts }
        requires slot { IsNode forest.now slot }
        requires node { IsNode forest.now node }
        ensures { result ≡ true → (h : Name) ×
            (host_named forest.now.names self.now.hosts (root_of forest.now.trees (name_of forest.now slot)) ≡ Some h) ×
            (parent_of forest.now.trees (name_of forest.now node) ≡ Some h) }
    {
        forest.law_nodes_stand_once();
        match self.host_of(forest.root(slot)) {
            Some(host) => forest.parent(node) == Some(host),
            None => false,
        }
    }
}
