//! The list of a slot that a step took out of its tree, for when it comes back.
ghost use Rattle.std.specs.Prelude.{◌≡◌, ℕ, List, true, map, filter, All, IfOk, OnOk};
ghost use Rattle.std.specs.Option.{option_map, ForSome};
ghost use Rattle.dom_model.specs.Tree.{Trees, node_in, children_of};
ghost use Rattle.dom_tree.specs.Forest.{IsNode, name_of};
ghost use Rattle.dom_slots.specs.Kept.{SlotsNow, IsEndOf};
ghost use Rattle.dom_slots.specs.Parked.{IsBeside, IsParked};
ghost use Rattle.dom_slots.specs.Shadows.{looks_for};
ghost use Rattle.dom_slots.specs.Steps.{StepHasNodes, is_move, step_node};
ghost use Rattle.dom_slots.specs.Waiting.{waiting_under, is_wanted};

use crate::Slots;
use crate::find::{is_slot, slot_name};
use crate::step::SlotChange;
use crate::waiting::{Waiting, copied, waiting_below};
use dom_attributes::is_same_string;
use dom_tree::Forest;
use node_arena::Key;
use std::alloc::AllocError;
use std::marker::Model;

/// A slot with a host, and the children of the host that look for the name of the slot, in their order.
#[derive(Drop)]
pub(super) struct Parked {
    slot: Key,
    host: Key,
    list: Vec<Key>,
}

impl Model for Parked {
    ghost use Rattle.dom_slots.specs.Parked.{ParkedNow};

    ghost Value = { ParkedNow };

    ghost view = { λ p. record { slot = p.slot; host = p.host; list = p.list.items } };
}

impl Slots {
    /// Keeps the list of a slot that was taken out of its tree, behind a step that is done, of which nothing else knows yet: a step that
    /// takes out a slot which alone has its name leaves that slot's list, and one that places a node leaves what is kept, if the
    /// host has the children that it had. Nothing is kept behind other steps.
    pub(super) fn park(&mut self, forest: &Forest, change: SlotChange) -> Result<(), AllocError>
        requires ended { (was : Trees) × IsEndOf was forest.now self.old change }
        ensures hosts { OnOk result (self.new.hosts ≡ self.old.hosts) }
        ensures table { OnOk result (self.new.table ≡ self.old.table) }
        ensures bare { OnOk result (self.new.bare ≡ self.old.bare) }
        ensures index { OnOk result (self.new.index ≡ self.old.index) }
        ensures parked { OnOk result (ForSome self.new.parked (IsParked forest.now self.old.hosts)) }
    {
        let kept = change;
        if self.is_kept(forest, kept) {
            return Ok(());
        }
        self.parked = self.parked_by(forest, change)?;
        Ok(())
    }

    /// Whether what is kept of a slot is right behind a step too, which placed a node.
    fn is_kept(&self, forest: &Forest, change: SlotChange) -> bool
        requires ended { (was : Trees) × IsEndOf was forest.now self.now change }
        ensures { result ≡ true → ForSome self.now.parked (IsParked forest.now self.now.hosts) }
    {
        forest.law_nodes_stand_once();
        match &self.parked {
            Some(parked) => forest.parent(change.step.node()).is_some()
                && is_beside(forest, change, parked.host),
            None => false,
        }
    }

    /// The list that a slot had which a step took out of the tree of a shadow root, where it alone had its name there.
    fn parked_by(&self, forest: &Forest, change: SlotChange) -> Result<Option<Parked>, AllocError>
        requires ended { (was : Trees) × IsEndOf was forest.now self.now change }
        ensures { IfOk result (λ parked. ForSome parked (IsParked forest.now self.now.hosts)) }
    {
        forest.law_nodes_stand_once();
        let slot = change.step.node();
        let Some(left) = change.left else {
            return Ok(None);
        };
        if forest.parent(slot).is_some() || !is_slot(forest, slot) {
            return Ok(None);
        }
        let root = forest.root(left);
        let Some(host) = self.host_of(root) else {
            return Ok(None);
        };
        if self.root_of(host) == Some(root)
            && is_beside(forest, change, host)
            && self.index.has_only(root, slot_name(forest, slot), slot)
        {
            let list = copied(self.alloc, self.table.list(slot))?;
            return Ok(Some(Parked { slot, host, list }));
        }
        Ok(None)
    }

    /// The children of a host that are slottables, as `waiting_below` finds them; where those of a name are wanted that a slot had which
    /// was kept, no child is looked at.
    pub(super) fn waiting_for<'a>(
        &self,
        forest: &'a Forest,
        host: Key,
        wanted: Option<&[u16]>,
    ) -> Result<Waiting<'a>, AllocError>
        requires host { IsNode forest.now host }
        requires parked { ForSome self.now.parked (IsParked forest.now self.now.hosts) }
        ensures names { IfOk result (λ w. (name : List ℕ) → is_wanted (option_map (λ a. a.now) wanted.entry) name ≡ true →
            map (name_of forest.now) (waiting_under w name) ≡
            filter (λ y. looks_for name (node_in forest.now.trees y)) (children_of forest.now.trees (name_of forest.now host))) }
        ensures nodes { IfOk result (λ w. (name : List ℕ) → All (IsNode forest.now) (waiting_under w name)) }
    {
        let Some(name) = wanted else {
            return waiting_below(self.alloc, forest, host, None);
        };
        if let Some(parked) = &self.parked
            && parked.host == host
        {
            let own = slot_name(forest, parked.slot);
            if is_same_string(own, name) {
                return Waiting::of(self.alloc, own, &parked.list);
            }
        }
        waiting_below(self.alloc, forest, host, Some(name))
    }
}

/// Whether a step that is done moved a node which was no child of this host and is none.
fn is_beside(forest: &Forest, change: SlotChange, host: Key) -> bool
    requires { StepHasNodes forest.now.names change.step }
    ensures { (was : Trees) (s : SlotsNow) → IsEndOf was forest.now s change → IsNode forest.now host → result ≡ true →
        (is_move change.step ≡ true) × IsBeside was forest.now.trees (name_of forest.now (step_node change.step)) (name_of forest.now host) }
{
    forest.law_nodes_stand_once();
    let node = change.step.node();
    change.step.is_move() && change.left != Some(host) && forest.parent(node) != Some(host)
}
