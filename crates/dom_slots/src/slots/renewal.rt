//! The lists of slots that a step may have changed.
ghost use Rattle.std.specs.Prelude.{◌≡◌, ℕ, ◌∷◌, [], List, map, All, OnOk};
ghost use Rattle.dom_tree.specs.Forest.{IsNode, name_of};
ghost use Rattle.dom_slots.specs.Hosts.{HostsAreNodes};
ghost use Rattle.dom_slots.specs.Kept.{hints_of};
ghost use Rattle.dom_slots.specs.Renewals.{Renews};
ghost use Rattle.dom_slots.specs.Shadows.{shadows, assigned_at};
ghost use Rattle.dom_slots.specs.Waiting.{waiting_under, Serves};

use crate::Slots;
use crate::changes::add_once;
use crate::find::slot_name;
use crate::waiting::Waiting;
use dom_tree::Forest;
use node_arena::Key;
use smallvec::SmallVec;
use std::alloc::AllocError;

impl Slots {
    /// Renews the lists of slots, one after another, and adds those to the signals whose lists were others.
    pub(super) fn renew(
        &mut self,
        forest: &Forest,
        slots: &[Key],
        signals: &mut SmallVec<Key, 2>,
    ) -> Result<(), AllocError>
        requires hosts { HostsAreNodes forest.now.names self.old.hosts }
        requires nodes { All (IsNode forest.now) slots.now }
        ensures hosts { OnOk result (self.new.hosts ≡ self.old.hosts) }
        ensures hints { OnOk result (hints_of self.new ≡ hints_of self.old) }
        ensures renewed { OnOk result (Renews forest.now self.old.hosts (map (name_of forest.now) slots.now) self.old.table
            signals.old.items self.new.table signals.new.items) }
    {
        for slot in slots {
            let list = self.assigned_now(forest, *slot)?;
            self.renew_as(forest, *slot, list, signals)?;
        }
        Ok(())
    }

    /// Renews the lists of slots, one after another, with the children that wait for them, and adds those to the signals whose lists
    /// were others.
    pub(super) fn renew_waiting(
        &mut self,
        forest: &Forest,
        slots: &[Key],
        mut waiting: Waiting<'_>,
        signals: &mut SmallVec<Key, 2>,
    ) -> Result<(), AllocError>
        requires hosts { HostsAreNodes forest.now.names self.old.hosts }
        requires nodes { All (IsNode forest.now) slots.now }
        requires served { Serves forest.now self.old.hosts (waiting_under waiting) slots.now }
        requires waiting_nodes { (name : List ℕ) → All (IsNode forest.now) (waiting_under waiting name) }
        ensures hosts { OnOk result (self.new.hosts ≡ self.old.hosts) }
        ensures hints { OnOk result (hints_of self.new ≡ hints_of self.old) }
        ensures renewed { OnOk result (Renews forest.now self.old.hosts (map (name_of forest.now) slots.now) self.old.table
            signals.old.items self.new.table signals.new.items) }
    {
        for slot in slots {
            let list = waiting.take(slot_name(forest, *slot));
            self.renew_as(forest, *slot, list, signals)?;
        }
        Ok(())
    }

    /// Gives a slot the list of what is assigned to it, and adds the slot to the signals where its list was another one.
    fn renew_as(
        &mut self,
        forest: &Forest,
        slot: Key,
        list: Vec<Key>,
        signals: &mut SmallVec<Key, 2>,
    ) -> Result<(), AllocError>
        requires node { IsNode forest.now slot }
        requires right { map (name_of forest.now) list.items ≡ assigned_at (shadows forest.now self.old.hosts) (name_of forest.now slot) }
        requires nodes { All (IsNode forest.now) list.items }
        ensures hosts { OnOk result (self.new.hosts ≡ self.old.hosts) }
        ensures hints { OnOk result (hints_of self.new ≡ hints_of self.old) }
        ensures renewed { OnOk result (Renews forest.now self.old.hosts (name_of forest.now slot ∷ []) self.old.table
            signals.old.items self.new.table signals.new.items) }
    {
        forest.law_nodes_stand_once();
        if self.table.has_other(slot, &list) {
            self.table.insert(self.alloc, slot, list)?;
            add_once(signals, slot)?;
        }
        Ok(())
    }
}
