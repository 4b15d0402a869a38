//! The step by which observers are told of a change. Where an owner has no registrations it costs one look.
ghost use Rattle.std.specs.Prelude.{◌≡◌, false, map, IfOk, OnOk, Some};
ghost use Rattle.std.specs.Option.{option_map};
ghost use Rattle.dom_model.specs.Tree.{attribute_value, node_in};
ghost use Rattle.dom_model.specs.Observers.{target_of};
ghost use Rattle.dom_base.specs.declared.NodeName.{NodeName};
ghost use Rattle.dom_model.specs.Output.{Change as ChangeOf, child_list, attributes, character_data};
ghost use Rattle.dom_model.specs.Steps.{queue_record};
ghost use Rattle.dom_observers.specs.Views.{change_of};
ghost use Rattle.dom_mutation.specs.Doc.{name_in, owner_in, trees_in, change_in, NamesNodes, AreNodes, IsNodeIf, stepped, HoldsNode};

use super::settling::give_up_observers;
use crate::parts::Parts;
use dom_observers::Change;
use node_arena::Key;
use smallvec::SmallVec;
use std::alloc::AllocError;

impl Parts {
    /// Queues a tree mutation record: observers are told that a node's children change (DOM Standard, queue a tree mutation record).
    #[inline(always)]
    pub(crate) fn queue_tree_record(
        &mut self,
        target: Key,
        added: &[Key],
        removed: &[Key],
        prev: Option<Key>,
        next: Option<Key>,
    ) -> Result<(), AllocError>
        requires target_is_node { HoldsNode self.old target }
        requires added_are_nodes { AreNodes self.old added.now }
        requires removed_are_nodes { AreNodes self.old removed.now }
        requires prev_is_node { IsNodeIf self.old prev }
        requires next_is_node { IsNodeIf self.old next }
        ensures { OnOk result (self.new ≡ stepped (owner_in self.old target)
            (queue_record (child_list (name_in self.old target) (map (name_in self.old) added.now) (map (name_in self.old) removed.now)
            (option_map (name_in self.old) prev) (option_map (name_in self.old) next))) self.old) }
    {
        let (watched, top) = self.watch(target);
        if !watched {
            return Ok(());
        }
        self.record_children(top, target, added, removed, prev, next)
    }

    /// The record of a change of a node's children goes to the observers that are interested in it, as `record` says.
    #[inline(never)]
    fn record_children(
        &mut self,
        top: Option<Key>,
        target: Key,
        added: &[Key],
        removed: &[Key],
        prev: Option<Key>,
        next: Option<Key>,
    ) -> Result<(), AllocError>
        requires target_is_node { HoldsNode self.old target }
        requires added_are_nodes { AreNodes self.old added.now }
        requires removed_are_nodes { AreNodes self.old removed.now }
        requires prev_is_node { IsNodeIf self.old prev }
        requires next_is_node { IsNodeIf self.old next }
        ensures { OnOk result (self.new ≡ stepped (owner_in self.old target)
            (queue_record (child_list (name_in self.old target) (map (name_in self.old) added.now) (map (name_in self.old) removed.now)
            (option_map (name_in self.old) prev) (option_map (name_in self.old) next))) self.old) }
    {
        let alloc = self.alloc;
        let change = Change::ChildList {
            target,
            added: SmallVec::from_slice(alloc, added)?,
            removed: SmallVec::from_slice(alloc, removed)?,
            previous: prev,
            next,
        };
        self.record(top, change)
    }

    /// Queues a mutation record of an attribute, before it changes (DOM Standard, queue a mutation record).
    #[inline(always)]
    pub(crate) fn queue_attribute_record(&mut self, node: Key, name: &str) -> Result<(), AllocError>
        requires { HoldsNode self.old node }
        ensures { OnOk result (self.new ≡ stepped (owner_in self.old node)
            (queue_record (attributes (name_in self.old node) name.now
            (attribute_value (node_in (trees_in self.old node) (name_in self.old node)) name.now))) self.old) }
    {
        let (watched, top) = self.watch(node);
        if !watched {
            return Ok(());
        }
        self.record_attribute(top, node, name)
    }

    /// The record of a change of a node's attribute goes to the observers that are interested in it, as `record` says.
    #[inline(never)]
    fn record_attribute(
        &mut self,
        top: Option<Key>,
        node: Key,
        name: &str,
    ) -> Result<(), AllocError>
        requires { HoldsNode self.old node }
        ensures { OnOk result (self.new ≡ stepped (owner_in self.old node)
            (queue_record (attributes (name_in self.old node) name.now
            (attribute_value (node_in (trees_in self.old node) (name_in self.old node)) name.now))) self.old) }
    {
        let alloc = self.alloc;
        let old = self.old_value(node, name)?;
        let change = Change::Attributes {
            target: node,
            name: String::from_str(alloc, name)?,
            old,
        };
        self.record(top, change)
    }

    /// Queues a mutation record of data, before they change (DOM Standard, queue a mutation record).
    #[inline(always)]
    pub(crate) fn queue_data_record(&mut self, node: Key) -> Result<(), AllocError>
        requires { HoldsNode self.old node }
        ensures { OnOk result (self.new ≡ stepped (owner_in self.old node)
            (queue_record (character_data (name_in self.old node) (Some (node_in (trees_in self.old node) (name_in self.old node)).text))) self.old) }
    {
        let (watched, top) = self.watch(node);
        if !watched {
            return Ok(());
        }
        self.record_data(top, node)
    }

    /// The record of a change of a node's data goes to the observers that are interested in it, as `record` says.
    #[inline(never)]
    fn record_data(&mut self, top: Option<Key>, node: Key) -> Result<(), AllocError>
        requires { HoldsNode self.old node }
        ensures { OnOk result (self.new ≡ stepped (owner_in self.old node)
            (queue_record (character_data (name_in self.old node) (Some (node_in (trees_in self.old node) (name_in self.old node)).text))) self.old) }
    {
        let alloc = self.alloc;
        let old = SmallVec::from_slice(alloc, self.text(node))?;
        let change = Change::CharacterData {
            target: node,
            old: Some(old),
        };
        self.record(top, change)
    }

    /// A copy of the value of an attribute, where there is one.
    fn old_value(&self, node: Key, name: &str) -> Result<Option<SmallVec<u16, 8>>, AllocError>
        requires { HoldsNode self.now node }
        ensures { IfOk result (λ old. option_map (λ s. s.items) old ≡ attribute_value (node_in (trees_in self.now node) (name_in self.now node)) name.now) }
    {
        match self.trees.forest.attr(node, name) {
            Some(value) => Ok(Some(SmallVec::from_slice(self.alloc, value)?)),
            None => Ok(None),
        }
    }

    /// Whether a node's owner has registrations, and the one node from which what is below it may be observed, where no other is
    /// known. Where the owner has none the record of a change of the node changes nothing.
    #[inline(always)]
    fn watch(&self, node: Key) -> (bool, Option<Key>)
        requires { HoldsNode self.now node }
        ensures { result.0 ≡ false → (c : ChangeOf NodeName) → self.now ≡ stepped (owner_in self.now node) (queue_record c) self.now }
    {
        let (owner, _) = self.trees.forest.lent_name(node);
        self.observers.watch(owner)
    }

    /// The record of a change goes to the observers that are interested in it, and where there are some their owner's
    /// notification is queued (DOM Standard, queue a mutation record). Where memory is refused no owner has an observer, or
    /// the notification is not queued. A node from which what is below it is observed helps to find them sooner.
    #[inline(always)]
    fn record(&mut self, top: Option<Key>, change: Change) -> Result<(), AllocError>
        requires { NamesNodes self.old change }
        ensures { OnOk result (self.new ≡ stepped (owner_in self.old (target_of (change_of change))) (queue_record (change_in self.old change)) self.old) }
    {
        self.remember_top(top, change.target());
        self.tell(change)
    }

    /// Has the forest remember that a node stands above one that changes, where it does (own rule). Nothing is changed that can be
    /// seen.
    fn remember_top(&mut self, top: Option<Key>, node: Key)
        requires { HoldsNode self.old node }
        ensures { self.new ≡ self.old }
    {
        let Some(top) = top else {
            return;
        };
        self.trees.forest.remember_ancestor(top, node);
    }

    /// The record of a change goes to the observers that are interested in it, as `record` says.
    #[inline(always)]
    fn tell(&mut self, change: Change) -> Result<(), AllocError>
        requires { NamesNodes self.old change }
        ensures { OnOk result (self.new ≡ stepped (owner_in self.old (target_of (change_of change))) (queue_record (change_in self.old change)) self.old) }
    {
        self.trees.forest.law_nodes_stand_once();
        let (owner, _) = self.trees.forest.lent_name(change.target());
        match self.observers.queue_record(&self.trees.forest, change) {
            Ok(true) => self.trees.queue.push_notify(*owner),
            Ok(false) => Ok(()),
            Err(error) => {
                give_up_observers(&mut self.observers, self.alloc);
                Err(error)
            }
        }
    }
}
