//! Insertion (DOM Standard, concepts: ensure pre-insert validity, pre-insert, insert).
ghost use Rattle.std.specs.Prelude.{◌≡◌, false, OnOk, ◌↔◌, Some};
ghost use Rattle.std.specs.Option.{option_map, ForSome};
ghost use Rattle.dom_model.specs.Names.{name_eq};
ghost use Rattle.dom_model.specs.Tree.{kind_of, has_data, is_shadow};
ghost use Rattle.dom_model.specs.Changes.{pre_insert_plan, reference_child, insert_plan, observed};
ghost use Rattle.dom_base.specs.declared.Refusal.{Refusal as RefusalOf};
ghost use Rattle.dom_model.specs.Validity.{pre_insert_refusal};
ghost use Rattle.dom_tree.specs.Forest.{err_of};
ghost use Rattle.dom_mutation.specs.Doc.{made, planned, name_in, owner_in, trees_in, MayMove, IsChild, HoldsNode};

use crate::Doc;
use crate::inserting::{inserting, reference_child};
use crate::removing::SuppressObserversFlag;
use crate::settling::given_up;
use dom_base::{Fault, Refusal};
use node_arena::Key;
use std::alloc::AllocError;

impl Doc {
    /// The Standard's *pre-insert*: puts a node among the children of a parent, before the child given or last; of a fragment its
    /// children. It leaves its parent and gets the parent's node document. Refused with `Hierarchy` or `NotFound` as the Standard's tests
    /// say, in their order, with nothing changed. Where memory is refused, the document is given up: its keys name no nodes any more.
    pub fn insert(&mut self, parent: Key, node: Key, child: Option<Key>) -> Result<(), Fault>
        requires parent_is_node { HoldsNode self.old parent }
        requires node_is_node { HoldsNode self.old node }
        requires child_is_node { ForSome child (HoldsNode self.old) }
        requires node_owner { owner_in self.old node ≡ owner_in self.old parent }
        requires child_owner { ForSome child (λ c. owner_in self.old c ≡ owner_in self.old parent) }
        ensures names { OnOk result (self.new.names ≡ self.old.names) }
        ensures world { OnOk result (self.new.world ≡ made (owner_in self.old parent)
            (pre_insert_plan (name_in self.old node) (name_in self.old parent) (option_map (name_in self.old) child)) self.old.world) }

        // A refusal is the Standard's, and changes nothing; nothing else but memory stops an insertion.
        ensures refused { (r : RefusalOf) →
            (result ≡ Err (Fault.Refused r)) ↔
            (pre_insert_refusal (trees_in self.old parent) (name_in self.old parent) (name_in self.old node)
            (option_map (name_in self.old) child) ≡ Some r) }
        ensures unchanged { (r : RefusalOf) → result ≡ Err (Fault.Refused r) → self.new ≡ self.old }
    {
        // An `Option<Key>` that is passed on and used again is passed under a second name, since the first one counts as lent.
        let at = child;
        if let Err(refusal) = self.check_insert(parent, node, at) {
            return Err(Fault::Refused(refusal));
        }
        self.laws();
        let before = self.reference_child(parent, node, child);
        self.insert_unchecked(parent, node, before)?;
        Ok(())
    }

    /// The Standard's *insert*, which tests nothing: puts a node among the children of a parent, before a child of it or last; of a
    /// fragment its children. It leaves its parent and gets the parent's node document. Where memory is refused, the document is given
    /// up: its keys name no nodes any more.
    pub fn insert_unchecked(
        &mut self,
        parent: Key,
        node: Key,
        child: Option<Key>,
    ) -> Result<(), AllocError>
        requires parent_is_node { HoldsNode self.old parent }
        requires may_move { MayMove self.old parent child node }
        requires child_is_child { ForSome child (IsChild self.old parent) }
        requires open { has_data (kind_of (trees_in self.old parent) (name_in self.old parent)) ≡ false }
        requires no_shadow { is_shadow (kind_of (trees_in self.old node) (name_in self.old node)) ≡ false }
        ensures state { OnOk result (self.new ≡ planned (owner_in self.old parent)
            (insert_plan observed (name_in self.old node) (name_in self.old parent) (option_map (name_in self.old) child)) self.old) }
    {
        self.parts.laws();
        let how = SuppressObserversFlag::Observed;
        match inserting(&mut self.parts, how, node, parent, child) {
            Ok(()) => Ok(()),
            Err(error) => Err(given_up(&mut self.parts, error)),
        }
    }

    /// Tests whether a node may be put among the children of a parent, before the child given or last: `Hierarchy` or `NotFound`
    /// where not (DOM Standard, ensure pre-insert validity).
    pub fn check_insert(&self, parent: Key, node: Key, child: Option<Key>) -> Result<(), Refusal>
        requires parent_is_node { HoldsNode self.now parent }
        requires node_is_node { HoldsNode self.now node }
        requires child_is_node { ForSome child (HoldsNode self.now) }
        requires node_owner { owner_in self.now node ≡ owner_in self.now parent }
        requires child_owner { ForSome child (λ c. owner_in self.now c ≡ owner_in self.now parent) }
        ensures { err_of result ≡ pre_insert_refusal (trees_in self.now parent) (name_in self.now parent) (name_in self.now node)
            (option_map (name_in self.now) child) }
    {
        let parts = &self.parts;
        parts.trees.forest.check_insert(parent, node, child)
    }

    /// The Standard's *reference child*, before which a node is put: the child given, or the node's next sibling where that is the node
    /// itself (DOM Standard, pre-insert).
    pub fn reference_child(&self, parent: Key, node: Key, child: Option<Key>) -> Option<Key>
        requires parent_is_node { HoldsNode self.now parent }
        requires node_is_node { HoldsNode self.now node }
        requires child_is_child { ForSome child (IsChild self.now parent) }
        ensures value { option_map (name_in self.now) result ≡ reference_child (trees_in self.now parent) (name_in self.now node)
            (option_map (name_in self.now) child) }
        ensures child { ForSome result (IsChild self.now parent) }
        ensures apart { ForSome result (λ b. name_eq (name_in self.now node) (name_in self.now b) ≡ false) }
    {
        reference_child(&self.parts, parent, node, child)
    }
}
