//! The elementary steps of which all changes consist.
ghost use Rattle.std.specs.Prelude.{◌≡◌, ◌<◌, ◌≤◌, ◌+◌, ◌-◌, length, true, false, is_some, map, IsOk, OnOk, OnErr, Some, None};
ghost use Rattle.std.specs.Option.{option_map, ForSome};
ghost use Rattle.std.specs.List.{AllByRecursion};
ghost use Rattle.dom_model.specs.Tree.{parent_of, is_inclusive_ancestor, index_of, node_in, kind_of, has_data, length_of};
ghost use Rattle.dom_model.specs.Steps.{make_room, place, take_out, set_attribute, replace_data, split_at, join_at};
ghost use Rattle.dom_model.specs.Changes.{steps_of};
ghost use Rattle.dom_model.specs.TextChanges.{joins};
ghost use Rattle.dom_model.specs.World.{part_of};
ghost use Rattle.dom_worlds.specs.Bounds.{HasBounds};
ghost use Rattle.dom_mutation.specs.Doc.{name_in, owner_in, trees_in, stepped, planned, IsChild, IsOwnNode, MayCome, JoinsFit, HoldsNode};

use super::settling::{give_up_observers, settle};
use crate::parts::Parts;
use dom_base::DomStr;
use dom_traversal::law_iterators_stay;
use node_arena::Key;
use std::alloc::AllocError;

/// So many siblings are counted, and not remembered.
const FEW: usize = 64;

/// A change of the data of a node: from an offset on, so many code units give way to others (DOM Standard, replace data).
#[derive(Drop)]
pub(crate) struct DataChange {
    pub(crate) offset: usize,
    pub(crate) count: usize,
    pub(crate) units: DomStr,
}

impl Parts {
    /// A node leaves its parent, after it got its transient registrations, and its owner's iterators and live ranges left its
    /// tree; slots are signalled.
    pub(crate) fn take_out(&mut self, node: Key) -> Result<(), AllocError>
        requires node_is_node { HoldsNode self.old node }
        requires has_parent { is_some (parent_of (trees_in self.old node) (name_in self.old node)) ≡ true }
        ensures { OnOk result (self.new ≡ stepped (owner_in self.old node) (take_out (name_in self.old node)) self.old) }
    {
        self.remember_siblings(node);
        self.leave(node)
    }

    /// Has the forest remember the siblings before a child, as far as ends of live ranges stand in its parent: for these
    /// its index is asked for (own rule). Nothing is changed that can be seen.
    fn remember_siblings(&mut self, child: Key)
        requires { HoldsNode self.old child }
        ensures { self.new ≡ self.old }
    {
        let Some(parent) = self.trees.forest.parent(child) else {
            return;
        };
        if self.trees.forest.prev(child).is_none() {
            return;
        }
        let reach = self.ranges.reach(parent);
        self.trees.forest.remember_siblings(child, reach);
    }

    /// The index of a child, as `index` says. Many siblings before it are remembered, so that it is found sooner when it is asked
    /// for again (own rule). Nothing is changed that can be seen.
    pub(crate) fn index_remembered(&mut self, child: Key) -> usize
        requires { HoldsNode self.old child }
        ensures value { result ≡ index_of (trees_in self.old child) (name_in self.old child) }
        ensures state { self.new ≡ self.old }
    {
        if let Some(index) = self.trees.forest.index_below(child, FEW) {
            return index;
        }
        self.trees.forest.remember_siblings(child, usize::MAX);
        self.trees.forest.index(child)
    }

    /// A node leaves its parent, as `take_out` says.
    fn leave(&mut self, node: Key) -> Result<(), AllocError>
        requires node_is_node { HoldsNode self.old node }
        requires has_parent { is_some (parent_of (trees_in self.old node) (name_in self.old node)) ≡ true }
        ensures { OnOk result (self.new ≡ stepped (owner_in self.old node) (take_out (name_in self.old node)) self.old) }
    {
        law_iterators_stay(&self.trees.forest);
        self.trees.forest.law_nodes_stand_once();
        let Some(parent) = self.trees.forest.parent(node) else {
            unreachable!()
        };
        if let Err(error) = self.observers.transient(&self.trees.forest, parent, node) {
            give_up_observers(&mut self.observers, self.alloc);
            return Err(error);
        }
        let (owner, _) = self.trees.forest.lent_name(node);
        self.cursors.leave(owner, &self.trees.forest, node);
        self.ranges.on_remove(&self.trees.forest, node);
        let done = self.trees.unlink(node);
        settle(
            done,
            &mut self.trees,
            &mut self.cursors,
            &mut self.observers,
            &mut self.ranges,
            self.alloc,
        )
    }

    /// The tree of a node becomes a child of another one, just before the child given or last.
    pub(crate) fn place(
        &mut self,
        node: Key,
        parent: Key,
        before: Option<Key>,
    ) -> Result<(), AllocError>
        requires node_is_node { HoldsNode self.old node }
        requires parent_is_node { HoldsNode self.old parent }
        requires one_owner { owner_in self.old node ≡ owner_in self.old parent }
        requires unlinked { parent_of (trees_in self.old node) (name_in self.old node) ≡ None }
        requires not_above { is_inclusive_ancestor (trees_in self.old parent) (name_in self.old node) (name_in self.old parent) ≡ false }
        requires before_is_node { ForSome before (HoldsNode self.old) }
        requires before_is_child { ForSome before (λ b. parent_of (trees_in self.old b) (name_in self.old b) ≡ Some (name_in self.old parent)) }
        ensures { OnOk result (self.new ≡ stepped (owner_in self.old parent)
            (place (name_in self.old node) (name_in self.old parent) (option_map (name_in self.old) before)) self.old) }
    {
        self.trees.forest.law_nodes_stand_once();
        let done = self.trees.link(node, parent, before);
        settle(
            done,
            &mut self.trees,
            &mut self.cursors,
            &mut self.observers,
            &mut self.ranges,
            self.alloc,
        )
    }

    /// An attribute gets a value.
    pub(crate) fn set_attribute(
        &mut self,
        node: Key,
        name: &str,
        value: DomStr,
    ) -> Result<(), AllocError>
        requires { HoldsNode self.old node }
        ensures { OnOk result (self.new ≡ stepped (owner_in self.old node) (set_attribute (name_in self.old node) name.now (Some value.items)) self.old) }
    {
        self.change_attribute(node, name, Some(value))
    }

    /// An attribute goes.
    pub(crate) fn unset_attribute(&mut self, node: Key, name: &str) -> Result<(), AllocError>
        requires { HoldsNode self.old node }
        ensures { OnOk result (self.new ≡ stepped (owner_in self.old node) (set_attribute (name_in self.old node) name.now None) self.old) }
    {
        self.change_attribute(node, name, None)
    }

    /// An attribute gets a value, or goes.
    fn change_attribute(
        &mut self,
        node: Key,
        name: &str,
        value: Option<DomStr>,
    ) -> Result<(), AllocError>
        requires { HoldsNode self.old node }
        ensures { OnOk result (self.new ≡ stepped (owner_in self.old node)
            (set_attribute (name_in self.old node) name.now (option_map (λ v. v.items) value)) self.old) }
    {
        let done = self.trees.change_attr(node, name, value);
        settle(
            done,
            &mut self.trees,
            &mut self.cursors,
            &mut self.observers,
            &mut self.ranges,
            self.alloc,
        )
    }

    /// Code units of a Text or a Comment give way to others, after the ends of live ranges moved with them. All of them give
    /// way without taking memory.
    pub(crate) fn change_data(&mut self, node: Key, change: DataChange) -> Result<(), AllocError>
        requires node_is_node { HoldsNode self.old node }
        requires may_come { MayCome (part_of self.old.world (owner_in self.old node)) (name_in self.old node) change.units.items }
        requires there { change.count ≤ length (node_in (trees_in self.old node) (name_in self.old node)).text - change.offset }
        ensures ok { OnOk result (self.new ≡ stepped (owner_in self.old node)
            (replace_data (name_in self.old node) change.offset change.count change.units.items) self.old) }
        ensures whole { change.offset ≡ 0 → length (node_in (trees_in self.old node) (name_in self.old node)).text ≤ change.count → IsOk result }
        ensures err { OnErr result (self.new ≡ self.old) }
    {
        self.trees.forest.law_nodes_stand_once();
        let offset = change.offset;
        let count = change.count;
        let size = change.units.len();
        self.trees
            .forest
            .replace_data(node, offset, count, change.units)?;
        // The length of the data that stand there is a number of the code's.
        let _length = self.trees.forest.text(node).len();
        self.ranges.on_replace_data(node, offset, count, size);
        Ok(())
    }

    /// The data of another Text or Comment of the same owner come behind those of one (DOM Standard, concept: replace data). No end of
    /// a live range stands behind these, so none is moved. Where memory is refused, all is as it was.
    pub(crate) fn append_data(&mut self, node: Key, of: Key) -> Result<(), AllocError>
        requires node_is_node { HoldsNode self.old node }
        requires of_is_node { IsOwnNode self.old node of }
        requires has_data { has_data (kind_of (trees_in self.old node) (name_in self.old node)) ≡ true }
        requires bounds { HasBounds (part_of self.old.world (owner_in self.old node)) }
        ensures ok { OnOk result (self.new ≡ stepped (owner_in self.old node) (replace_data (name_in self.old node)
            (length (node_in (trees_in self.old node) (name_in self.old node)).text) 0
            (node_in (trees_in self.old node) (name_in self.old of)).text) self.old) }
        ensures err { OnErr result (self.new ≡ self.old) }
    {
        self.trees.forest.law_nodes_stand_once();
        self.trees.forest.append_data(node, of)?;
        // The length of the data that stand there is a number of the code's.
        let _length = self.trees.forest.text(node).len();
        Ok(())
    }

    /// So many nodes are to come into a parent before a child: the ends of live ranges make room.
    pub(crate) fn make_room(&mut self, parent: Key, child: Key, count: usize)
        requires parent_is_node { HoldsNode self.old parent }
        requires is_child { IsChild self.old parent child }
        requires bounds { HasBounds (part_of self.old.world (owner_in self.old parent)) }
        requires few { count ≤ 1000000 }
        ensures { self.new ≡ stepped (owner_in self.old parent)
            (make_room (name_in self.old parent) (index_of (trees_in self.old child) (name_in self.old child)) count) self.old }
    {
        self.remember_siblings(child);
        self.move_ends(parent, child, count);
    }

    /// The ends of live ranges make room, as `make_room` says.
    fn move_ends(&mut self, parent: Key, child: Key, count: usize)
        requires parent_is_node { HoldsNode self.old parent }
        requires is_child { IsChild self.old parent child }
        requires bounds { HasBounds (part_of self.old.world (owner_in self.old parent)) }
        requires few { count ≤ 1000000 }
        ensures { self.new ≡ stepped (owner_in self.old parent)
            (make_room (name_in self.old parent) (index_of (trees_in self.old child) (name_in self.old child)) count) self.old }
    {
        self.trees.forest.law_nodes_stand_once();
        self.ranges
            .on_insert_before(&self.trees.forest, parent, child, count);
    }

    /// A Text, the child of a parent at an index, was split at an offset, and its tail is in a new Text: the ends of live
    /// ranges go with it.
    pub(crate) fn split_at(&mut self, node: Key, offset: usize, new: Key, parent: Key, index: usize)
        requires node_is_node { HoldsNode self.old node }
        requires new_is_node { HoldsNode self.old new }
        requires parent_is_node { HoldsNode self.old parent }
        requires new_owner { owner_in self.old new ≡ owner_in self.old node }
        requires parent_owner { owner_in self.old parent ≡ owner_in self.old node }
        requires few { index < 1000000 }
        ensures { self.new ≡ stepped (owner_in self.old node)
            (split_at (name_in self.old node) offset (name_in self.old new) (name_in self.old parent) index) self.old }
    {
        self.trees.forest.law_nodes_stand_once();
        self.ranges
            .on_split(node, offset, new, Some((parent, index)));
    }

    /// A first Text got the data of others, the children of its parent, from a size on: the ends of live ranges go with them.
    pub(crate) fn join_each(&mut self, first: Key, size: usize, nexts: &[Key], parent: Key)
        requires first_is_node { HoldsNode self.old first }
        requires parent_is_node { HoldsNode self.old parent }
        requires parent_owner { owner_in self.old parent ≡ owner_in self.old first }
        requires nexts_are_nodes { AllByRecursion (IsOwnNode self.old first) nexts.now }
        requires bounds { HasBounds (part_of self.old.world (owner_in self.old first)) }
        requires fit { JoinsFit (trees_in self.old first) (name_in self.old first) size (map (name_in self.old) nexts.now) }
        ensures { self.new ≡ planned (owner_in self.old first)
            (steps_of (joins (trees_in self.old first) (name_in self.old first) (name_in self.old parent) size
            (map (name_in self.old) nexts.now))) self.old }
    {
        self.laws();
        self.trees.forest.law_nodes_stand_once();
        if self.ranges.is_empty() {
            return;
        }
        let mut length = size;
        for next in nexts {
            length = self.join_at(first, length, *next, parent);
        }
    }

    /// A first Text got the data of the next one, a child of its parent, from a size on: the ends of live ranges go with
    /// them. The answer is the size up to which they are joined then.
    fn join_at(&mut self, first: Key, size: usize, next: Key, parent: Key) -> usize
        requires first_is_node { HoldsNode self.old first }
        requires next_is_node { HoldsNode self.old next }
        requires parent_is_node { HoldsNode self.old parent }
        requires next_owner { owner_in self.old next ≡ owner_in self.old first }
        requires parent_owner { owner_in self.old parent ≡ owner_in self.old first }
        requires bounds { HasBounds (part_of self.old.world (owner_in self.old first)) }
        requires fits { size + length_of (trees_in self.old first) (name_in self.old next) ≤ length_of (trees_in self.old first) (name_in self.old first) }
        ensures joined { result ≡ size + length_of (trees_in self.old first) (name_in self.old next) }
        ensures state { self.new ≡ stepped (owner_in self.old first)
            (join_at (name_in self.old first) size (name_in self.old next) (name_in self.old parent)
            (index_of (trees_in self.old first) (name_in self.old next))) self.old }
    {
        self.trees.forest.law_nodes_stand_once();
        // What is joined is within the first Text, whose length is a number of the code's.
        let _whole = self.trees.forest.length(first);
        let joined = size + self.trees.forest.length(next);
        self.ranges
            .on_join_child(&self.trees.forest, first, size, next, parent);
        joined
    }
}
