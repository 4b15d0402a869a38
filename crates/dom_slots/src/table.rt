//! Which nodes are assigned to each slot, and the slots of each node.
ghost use Rattle.std.specs.Prelude.{◌≡◌, ℕ, ◌&&◌, ◌||◌, [], true, false, nat_eq, not, if◌then◌else◌, None, OnOk};
ghost use Rattle.std.specs.Option.{ForSome};
ghost use Rattle.dom_model.specs.Names.{is_in, list_eq};
ghost use Rattle.node_arena.specs.Nodes.{insert_before, without};
ghost use Rattle.dom_slots.specs.KeyMaps.{IsSingle};
ghost use Rattle.dom_slots.specs.NodeSlots.{slots_in};
ghost use Rattle.dom_slots.specs.Tables.{list_of};

use crate::key_lists::KeyLists;
use crate::node_slots::NodeSlots;
use node_arena::Key;
use std::alloc::{AllocError, Global};
use std::marker::Model;

/// Lists of nodes by slots, and the slots of each node in whose lists it stands: one as a rule, and two while a node's old list
/// is still to be renewed. A slot without a list has an empty one, and so has a node; who had one keeps it, empty.
#[derive(Drop)]
pub(crate) struct Table {
    lists: KeyLists,
    slots: NodeSlots,
}

impl Model for Table {
    ghost use Rattle.dom_slots.specs.Tables.{SlotTable};

    ghost Value = { SlotTable };

    ghost use Rattle.dom_slots.specs.Lists.{table_in, SlotsAgree};

    ghost view = { λ t. table_in t.lists.rows.items };

    ghost invariant = { λ t. SlotsAgree t.lists.rows.items t.slots.first.items t.slots.rest.rows.items };
}

impl Table {
    /// A table without lists.
    pub(crate) fn new(alloc: Global) -> Self
        ensures { result ≡ [] }
    {
        Table {
            lists: KeyLists::new(alloc),
            slots: NodeSlots::new(alloc),
        }
    }

    /// The list of a slot.
    pub(crate) fn list(&self, slot: Key) -> &[Key]
        ensures { result.now ≡ list_of self.now slot }
    {
        self.lists.of(slot)
    }

    /// A slot in whose list a node stands, found by one look-up; none where it stands in no list.
    pub(crate) fn slot(&self, node: Key) -> Option<Key>
        ensures some { ForSome result (λ slot. is_in nat_eq node (list_of self.now slot) ≡ true) }
        ensures none { result ≡ None → (slot : ℕ) → is_in nat_eq node (list_of self.now slot) ≡ false }
    {
        self.slots.one(node)
    }

    /// Whether the list of a slot is another one than these nodes.
    pub(crate) fn has_other(&self, slot: Key, nodes: &[Key]) -> bool
        ensures { result ≡ not (list_eq nat_eq (list_of self.now slot) nodes.now) }
    {
        self.list(slot) != nodes
    }

    /// Gives a slot its list. Where memory is refused the table is given up, and has no lists, or it is as it was.
    pub(crate) fn insert(
        &mut self,
        alloc: Global,
        slot: Key,
        list: Vec<Key>,
    ) -> Result<(), AllocError>
        ensures { OnOk result ((k : ℕ) → list_of self.new k ≡ (if nat_eq slot k then list.items else list_of self.old k)) }
    {
        forget(&mut self.slots, self.lists.of(slot), slot);
        if remember(alloc, &mut self.slots, &list, slot).is_err() {
            *self = Table::new(alloc);
            return Err(AllocError);
        }
        if self.lists.set(alloc, slot, list).is_err() {
            *self = Table::new(alloc);
            return Err(AllocError);
        }
        Ok(())
    }

    /// Takes a node, which stands there at most once, out of the list of a slot, and tells whether it stood there.
    pub(crate) fn take_out(&mut self, slot: Key, node: Key) -> bool
        requires { IsSingle (list_of self.old slot) }
        ensures stood { result ≡ is_in nat_eq node (list_of self.old slot) }
        ensures lists { (k : ℕ) → list_of self.new k ≡ (if nat_eq slot k then without node (list_of self.old k) else list_of self.old k) }
    {
        self.slots.take_out(node, slot);
        self.lists.take_out(slot, node)
    }

    /// Puts a node into the list of a slot, just before another one of its nodes or last. Where memory is refused the table is
    /// given up, and has no lists, or it is as it was.
    pub(crate) fn put(
        &mut self,
        alloc: Global,
        slot: Key,
        node: Key,
        before: Option<Key>,
    ) -> Result<(), AllocError>
        ensures { OnOk result ((k : ℕ) → list_of self.new k ≡ (if nat_eq slot k then insert_before (list_of self.old k) node before else list_of self.old k)) }
    {
        self.lists.put(alloc, slot, node, before)?;
        if self.slots.put(alloc, node, slot).is_err() {
            *self = Table::new(alloc);
            return Err(AllocError);
        }
        Ok(())
    }
}

/// Takes this slot from these nodes.
fn forget(slots: &mut NodeSlots, nodes: &[Key], slot: Key)
    ensures { (k s : ℕ) → is_in nat_eq s (slots_in slots.new k) ≡
        (is_in nat_eq s (slots_in slots.old k) && not (nat_eq slot s && is_in nat_eq k nodes.now)) }
{
    for node in nodes {
        slots.take_out(*node, slot);
    }
}

/// Gives these nodes this slot.
fn remember(
    alloc: Global,
    slots: &mut NodeSlots,
    nodes: &[Key],
    slot: Key,
) -> Result<(), AllocError>
    ensures { OnOk result ((k s : ℕ) → is_in nat_eq s (slots_in slots.new k) ≡
        (is_in nat_eq s (slots_in slots.old k) || (nat_eq slot s && is_in nat_eq k nodes.now))) }
{
    for node in nodes {
        slots.put(alloc, *node, slot)?;
    }
    Ok(())
}
