//! Slots that are found by their names, without a walk where at most one slot of a tree may have a name.
ghost use Rattle.std.specs.Prelude.{◌≡◌, ◌⊎◌, ◌∷◌, ℕ, [], true, false, nat_eq, Option as Maybe, None, Some, map, find, filter, All, IfOk, OnOk};
ghost use Rattle.std.specs.Option.{option_map, ForSome};
ghost use Rattle.dom_model.specs.Names.{is_in};
ghost use Rattle.dom_model.specs.Slots.{has_slot_name, slot_name, slots_among};
ghost use Rattle.dom_model.specs.Tree.{Trees, Node, node_in, nodes, subtree};
ghost use Rattle.dom_tree.specs.Forest.{IsNode, name_of};
ghost use Rattle.dom_slots.specs.Hosts.{HostsAreNodes, host_of_root};
ghost use Rattle.dom_slots.specs.Index.{AreIndexed, MayHave, bearer_at, name_code};
ghost use Rattle.dom_slots.specs.Insides.{is_called, IsMoved};
ghost use Rattle.dom_slots.specs.Kept.{IsEndOf, with_parked};
ghost use Rattle.dom_slots.specs.Parked.{ParkedNow};
ghost use Rattle.dom_slots.specs.Shadows.{shadows, slot_at};

use super::bare::{Moved, top_of};
use crate::Slots;
use crate::find::{has_name, slot_name, slot_named, slots_below, slottable_name};
use crate::index::{Bearer, NameIndex};
use crate::step::SlotChange;
use dom_tree::Forest;
use node_arena::Key;
use std::alloc::AllocError;

impl Slots {
    /// Finds the slot of a node by the maps and the index, so also in a forest that is not that of the table. Where several slots of
    /// the shadow tree may have the name for which the node looks, all up to the first that has it are looked at.
    pub(super) fn slot_found(&self, forest: &Forest, node: Key) -> Option<Key>
        requires node_is_node { IsNode forest.now node }
        requires hosts { HostsAreNodes forest.now.names self.now.hosts }
        requires indexed { AreIndexed forest.now self.now.hosts self.now.index }
        ensures value { option_map (name_of forest.now) result ≡ slot_at (shadows forest.now self.now.hosts) (name_of forest.now node) }
        ensures node { ForSome result (IsNode forest.now) }
    {
        forest.law_nodes_stand_once();
        let parent = forest.parent(node)?;
        let root = self.root_of(parent)?;
        let name = slottable_name(forest, node)?;
        self.first_called(forest, root, name)
    }

    /// The first slot of a name in the tree of a root.
    fn first_called(&self, forest: &Forest, root: Key, name: &[u16]) -> Option<Key>
        requires root { IsNode forest.now root }
        requires indexed { AreIndexed forest.now self.now.hosts self.now.index }
        ensures value { option_map (name_of forest.now) result ≡ option_map (λ (n : Node). n.name)
            (find (has_slot_name name.now) (nodes (subtree forest.now.trees (name_of forest.now root)))) }
        ensures node { ForSome result (IsNode forest.now) }
    {
        forest.law_nodes_stand_once();
        match self.called(forest, root, name)? {
            Bearer::Only(slot) => Some(slot),
            Bearer::Several => slot_named(forest, root, name),
        }
    }

    /// The slots in the tree of a root, in tree order; of a name alone, if one is given.
    pub(super) fn slots_called(
        &self,
        forest: &Forest,
        root: Key,
        name: Option<&[u16]>,
    ) -> Result<Vec<Key>, AllocError>
        requires root { IsNode forest.now root }
        requires indexed { AreIndexed forest.now self.now.hosts self.now.index }
        ensures value { IfOk result (λ keys. map (name_of forest.now) keys.items ≡ filter (is_called forest.now.trees (option_map (λ a. a.now) name.entry))
            (slots_among (subtree forest.now.trees (name_of forest.now root)))) }
        ensures nodes { IfOk result (λ keys. All (IsNode forest.now) keys.items) }
    {
        let Some(name) = name else {
            return slots_below(self.alloc, forest, root, None);
        };
        let Some(bearer) = self.called(forest, root, name) else {
            return Ok(Vec::new(self.alloc));
        };
        let Bearer::Only(slot) = bearer else {
            return slots_below(self.alloc, forest, root, Some(name));
        };
        let mut keys = Vec::new(self.alloc);
        keys.push(slot)?;
        Ok(keys)
    }

    /// Who is a slot of a name in the tree of a shadow root: nobody, or one alone; several where several may have the name, and of
    /// another node.
    fn called(&self, forest: &Forest, root: Key, name: &[u16]) -> Option<Bearer>
        requires root { IsNode forest.now root }
        requires indexed { AreIndexed forest.now self.now.hosts self.now.index }
        ensures none { result ≡ None → [] ≡ filter (is_called forest.now.trees (Some name.now))
            (slots_among (subtree forest.now.trees (name_of forest.now root))) }
        ensures only { (s : ℕ) → result ≡ Some (Bearer.Only s) → name_of forest.now s ∷ [] ≡ filter (is_called forest.now.trees (Some name.now))
            (slots_among (subtree forest.now.trees (name_of forest.now root))) }
        ensures node { (s : ℕ) → result ≡ Some (Bearer.Only s) → IsNode forest.now s }
    {
        forest.law_nodes_stand_once();
        if self.host_of(root).is_none() || forest.parent(root).is_some() {
            return Some(Bearer::Several);
        }
        let bearer = self.index.bearer(root, name)?;
        let Bearer::Only(slot) = bearer else {
            return Some(Bearer::Several);
        };
        if has_name(forest, slot, name) && forest.root(slot) == root {
            return Some(Bearer::Only(slot));
        }
        None
    }

    /// Keeps the index behind a step that is done, by what it moved: slots have their names no more in the tree that they left, and
    /// where they stand in the tree of a shadow root now, they may have them there. It costs ways up to two roots, and two looks for
    /// each slot.
    pub(super) fn reindex(
        &mut self,
        forest: &Forest,
        change: SlotChange,
        moved: &Moved,
    ) -> Result<(), AllocError>
        requires moved { IsMoved forest.now self.old.hosts change moved.now }
        requires ended { (was : Trees) × (parked : Maybe ParkedNow) × IsEndOf was forest.now (with_parked parked self.old) change }
        ensures hosts { OnOk result (self.new.hosts ≡ self.old.hosts) }
        ensures table { OnOk result (self.new.table ≡ self.old.table) }
        ensures bare { OnOk result (self.new.bare ≡ self.old.bare) }
        ensures parked { OnOk result (self.new.parked ≡ self.old.parked) }
        ensures indexed { OnOk result (AreIndexed forest.now self.old.hosts self.new.index) }
    {
        forest.law_nodes_stand_once();
        let slots = match moved {
            Moved::NoSlot => return Ok(()),
            Moved::Apart => return Ok(()),
            Moved::Slots(slots) => slots,
        };
        let node = change.step.node();
        let left = self.hosted_root(top_of(forest, node, change.left));
        let reached = self.hosted_root(forest.root(node));
        forget_names(&mut self.index, forest, slots, left);
        note_names(&mut self.index, forest, slots, reached)
    }

    /// A node, where it is a shadow root.
    fn hosted_root(&self, node: Key) -> Option<Key>
        ensures { (h : ℕ) → host_of_root self.now.hosts node ≡ Some h → result ≡ Some node }
    {
        match self.host_of(node) {
            Some(_) => Some(node),
            None => None,
        }
    }
}

/// Slots have their names no more in the tree of a root, if one is given.
fn forget_names(index: &mut NameIndex, forest: &Forest, slots: &[Key], left: Option<Key>)
    requires { All (IsNode forest.now) slots.now }
    ensures kept { (h k : ℕ) → is_in nat_eq k slots.now ≡ false →
        MayHave (bearer_at index.old.bearers.entries h) k → MayHave (bearer_at index.new.bearers.entries h) k }
    ensures inside { (h k : ℕ) → bearer_at index.new.bearers.entries h ≡ Some (Bearer.Only k) →
        bearer_at index.old.bearers.entries h ≡ Some (Bearer.Only k) }
{
    let Some(root) = left else {
        return;
    };
    for slot in slots {
        index.forget(root, slot_name(forest, *slot), *slot);
    }
}

/// Slots may have their names in the tree of a root from now on, if one is given.
fn note_names(
    index: &mut NameIndex,
    forest: &Forest,
    slots: &[Key],
    reached: Option<Key>,
) -> Result<(), AllocError>
    requires { All (IsNode forest.now) slots.now }
    ensures kept { (h k : ℕ) → MayHave (bearer_at index.old.bearers.entries h) k → MayHave (bearer_at index.new.bearers.entries h) k }
    ensures inside { (h k : ℕ) → bearer_at index.new.bearers.entries h ≡ Some (Bearer.Only k) →
        (bearer_at index.old.bearers.entries h ≡ Some (Bearer.Only k)) ⊎ (is_in nat_eq k slots.now ≡ true) }
    ensures noted { OnOk result ((r k : ℕ) → reached ≡ Some r → is_in nat_eq k slots.now ≡ true → MayHave
        (bearer_at index.new.bearers.entries (name_code r (slot_name (node_in forest.now.trees (name_of forest.now k))))) k) }
{
    let Some(root) = reached else {
        return Ok(());
    };
    for slot in slots {
        index.note(root, slot_name(forest, *slot), *slot)?;
    }
    Ok(())
}
