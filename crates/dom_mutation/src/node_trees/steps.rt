//! The node trees with what a step on them signals: each step between its beginning and its end (DOM Standard, concept: signal a
//! slot change).
ghost use Rattle.std.specs.Prelude.{◌≡◌, ℕ, All, List, filter, fold, map, false, IfOk, OnOk, Some, None};
ghost use Rattle.std.specs.Option.{option_map, ForSome};
ghost use Rattle.dom_base.specs.declared.NodeName.{NodeName as Name};
ghost use Rattle.dom_model.specs.Names.{append_once, name_eq};
ghost use Rattle.dom_model.specs.Tree.{Trees as TreesOf, parent_of, is_inclusive_ancestor};
ghost use Rattle.dom_model.specs.TreeChanges.{placed, taken_out, change_node, with_attribute};
ghost use Rattle.dom_model.specs.Turns.{is_owned_by};
ghost use Rattle.dom_model.specs.World.{Task, queued_notify};
ghost use Rattle.dom_tree.specs.Forest.{IsNode, name_of};
ghost use Rattle.dom_slots.specs.Kept.{IsEndOf};
ghost use Rattle.dom_slots.specs.declared.step.Step.TheVariants.{Place, Removal, Attribute};
ghost use Rattle.dom_mutation.specs.Signalled.{no_trees, with_trees, AreNames, AreSignals, HasStepped};

use dom_base::{DomStr, NodeName, Owner};
use dom_microtasks::{Queue, Signals};
use dom_slots::{SlotChange, Slots, Step, law_steps_end};
use dom_tree::Forest;
use node_arena::Key;
use std::alloc::{AllocError, Global};

/// The trees of all owners, the hosts with the slots of their shadow trees, the slots of all owners that are signalled, and the
/// microtasks: all that a step on the trees changes.
#[derive(Drop)]
pub(crate) struct NodeTrees {
    pub(crate) forest: Forest,
    pub(crate) slots: Slots,
    pub(crate) signalled: Signals,
    pub(crate) queue: Queue,
}

impl NodeTrees {
    /// No nodes and no microtasks. Takes no memory yet; later calls take theirs from `alloc`.
    pub(crate) fn new(alloc: Global) -> Self
        ensures { result ≡ no_trees }
    {
        NodeTrees {
            forest: Forest::new(alloc),
            slots: Slots::new(alloc),
            signalled: Signals::new(alloc),
            queue: Queue::new(alloc),
        }
    }

    /// A node becomes a child of another one, just before the child given or last. A value to which memory was refused, here
    /// and below, is only dropped.
    pub(crate) fn link(
        &mut self,
        node: Key,
        parent: Key,
        before: Option<Key>,
    ) -> Result<(), AllocError>
        requires node_is_node { IsNode self.old.forest node }
        requires parent_is_node { IsNode self.old.forest parent }
        requires unlinked { parent_of self.old.forest.trees (name_of self.old.forest node) ≡ None }
        requires not_above { is_inclusive_ancestor self.old.forest.trees (name_of self.old.forest node) (name_of self.old.forest parent) ≡ false }
        requires before_is_node { ForSome before (IsNode self.old.forest) }
        requires before_is_child { ForSome before (λ b. parent_of self.old.forest.trees (name_of self.old.forest b) ≡ Some (name_of self.old.forest parent)) }
        requires signals { AreSignals self.old }
        ensures { OnOk result (HasStepped (Place node parent before) (placed (name_of self.old.forest node) (name_of self.old.forest parent)
            (option_map (name_of self.old.forest) before) self.old.forest.trees) self.old self.new) }
    {
        // An `Option<Key>` that is passed on and used again is passed under a second name, since the first one counts as lent.
        let child = before;
        let change = self
            .slots
            .begin(&self.forest, Step::Place(node, parent, child));
        self.forest.link_before(parent, node, before);
        law_steps_end();
        self.end(change)
    }

    /// A node leaves its parent.
    pub(crate) fn unlink(&mut self, node: Key) -> Result<(), AllocError>
        requires node_is_node { IsNode self.old.forest node }
        requires signals { AreSignals self.old }
        ensures { OnOk result (HasStepped (Removal node) (taken_out (name_of self.old.forest node) self.old.forest.trees) self.old self.new) }
    {
        let change = self.slots.begin(&self.forest, Step::Removal(node));
        self.forest.unlink(node);
        law_steps_end();
        self.end(change)
    }

    /// An attribute gets a value, or goes.
    pub(crate) fn change_attr(
        &mut self,
        node: Key,
        name: &str,
        value: Option<DomStr>,
    ) -> Result<(), AllocError>
        requires node_is_node { IsNode self.old.forest node }
        requires signals { AreSignals self.old }
        ensures { OnOk result (HasStepped (Attribute node) (change_node (with_attribute name.now (option_map (λ v. v.items) value))
            (name_of self.old.forest node) self.old.forest.trees) self.old self.new) }
    {
        let change = self.slots.begin(&self.forest, Step::Attribute(node));
        write_attr(&mut self.forest, node, name, value)?;
        law_steps_end();
        self.end(change)
    }

    /// The step that was begun ends, and its slots are signalled. Where there are no hosts this is one look, in line.
    #[inline(always)]
    fn end(&mut self, change: SlotChange) -> Result<(), AllocError>
        requires step { (was : TreesOf) × IsEndOf was self.old.forest self.old.slots change }
        requires nodes { AreNames self.old.forest.names self.old.signalled }
        ensures { (was : TreesOf) → IsEndOf was self.old.forest self.old.slots change →
            OnOk result (HasStepped change.step self.old.forest.trees (with_trees was self.old) self.new) }
    {
        if self.slots.is_hostless() {
            self.slots.law_hostless(&self.forest, change);
            return Ok(());
        }
        self.end_among_hosts(change)
    }

    /// The step that was begun ends, as `end` says. It is out of line, since most pages have no hosts.
    #[inline(never)]
    fn end_among_hosts(&mut self, change: SlotChange) -> Result<(), AllocError>
        requires step { (was : TreesOf) × IsEndOf was self.old.forest self.old.slots change }
        requires nodes { AreNames self.old.forest.names self.old.signalled }
        ensures { (was : TreesOf) → IsEndOf was self.old.forest self.old.slots change →
            OnOk result (HasStepped change.step self.old.forest.trees (with_trees was self.old) self.new) }
    {
        let keys = self.slots.end(&self.forest, change)?;
        signal_each(
            &self.forest,
            keys.as_slice(),
            &mut self.signalled,
            &mut self.queue,
        )
    }

    /// The signalled slots that an owner has, in their order. Other owners' are not looked at.
    pub(crate) fn own_slots(&self, alloc: Global, owner: Owner) -> Result<Vec<Key>, AllocError>
        requires { AreNames self.now.forest.names self.now.signalled }
        ensures names { IfOk result (λ keys. map (name_of self.now.forest) keys.items ≡ filter (is_owned_by owner) self.now.signalled) }
        ensures nodes { IfOk result (λ keys. All (IsNode self.now.forest) keys.items) }
    {
        let mut keys = Vec::new(alloc);
        for number in self.signalled.of(owner) {
            let name = NodeName {
                owner,
                number: *number,
            };
            let Some(key) = self.forest.find(name) else {
                unreachable!()
            };
            keys.push(key)?;
        }
        Ok(keys)
    }
}

/// An attribute of a node gets a value, or goes. Where memory is refused, nothing is said of the trees.
fn write_attr(
    forest: &mut Forest,
    node: Key,
    name: &str,
    value: Option<DomStr>,
) -> Result<(), AllocError>
    requires { IsNode forest.old node }
    ensures names { OnOk result (forest.new.names ≡ forest.old.names) }
    ensures trees { OnOk result (forest.new.trees ≡ change_node (with_attribute name.now (option_map (λ v. v.items) value))
        (name_of forest.old node) forest.old.trees) }
{
    match value {
        Some(value) => forest.set_attr(node, name, value),
        None => {
            let _ = forest.remove_attr(node, name);
            Ok(())
        }
    }
}

/// Slots are signalled, one after another.
fn signal_each(
    forest: &Forest,
    slots: &[Key],
    signalled: &mut Signals,
    queue: &mut Queue,
) -> Result<(), AllocError>
    requires { All (IsNode forest.now) slots.now }
    ensures signalled { OnOk result (signalled.new ≡ fold (append_once name_eq) signalled.old (map (name_of forest.now) slots.now)) }
    ensures queue { OnOk result (queue.new ≡ fold (λ (ts : List Task) (s : Name). queued_notify s.owner ts) queue.old (map (name_of forest.now) slots.now)) }
{
    for slot in slots {
        signal(forest, *slot, signalled, queue)?;
    }
    Ok(())
}

/// A slot is signalled: it is kept, once, and its owner's notification is queued.
fn signal(
    forest: &Forest,
    slot: Key,
    signalled: &mut Signals,
    queue: &mut Queue,
) -> Result<(), AllocError>
    requires { IsNode forest.now slot }
    ensures signalled { OnOk result (signalled.new ≡ append_once name_eq signalled.old (name_of forest.now slot)) }
    ensures queue { OnOk result (queue.new ≡ queued_notify (name_of forest.now slot).owner queue.old) }
{
    let (owner, number) = forest.lent_name(slot);
    signalled.add(owner, number)?;
    queue.push_notify(*owner)
}
