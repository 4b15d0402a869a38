//! Replacement (DOM Standard, concept: replace).
ghost use Rattle.std.specs.Prelude.{◌≡◌, ◌↔◌, false, map, IfOk, OnOk, Some};
ghost use Rattle.dom_base.specs.declared.Refusal.{Refusal as RefusalOf};
ghost use Rattle.dom_model.specs.Changes.{placed_nodes, replace_plan};
ghost use Rattle.dom_model.specs.Tree.{is_inclusive_ancestor};
ghost use Rattle.dom_model.specs.Validity.{replace_refusal};
ghost use Rattle.dom_model.specs.World.{part_of};
ghost use Rattle.dom_worlds.specs.Bounds.{HasBounds};
ghost use Rattle.dom_mutation.specs.Doc.{made, planned, name_in, owner_in, trees_in, IsChild, AreNodes, HoldsNode};

use crate::Doc;
use crate::inserting::{children, inserting, is_fragment, reference_child};
use crate::parts::Parts;
use crate::removing::{SuppressObserversFlag, removing};
use crate::settling::given_up;
use dom_base::Fault;
use node_arena::Key;
use smallvec::SmallVec;
use std::alloc::AllocError;

impl Doc {
    /// A node, or the children of a fragment, take the place of a child of a parent, with one record of the parent (DOM
    /// Standard, replace). Refused with `Hierarchy` or `NotFound` as the Standard's tests say, in their order, with nothing
    /// changed. Where memory is refused, the document is given up: its keys name no nodes any more.
    pub fn replace(&mut self, parent: Key, node: Key, child: Key) -> Result<(), Fault>
        requires parent_is_node { HoldsNode self.old parent }
        requires node_is_node { HoldsNode self.old node }
        requires child_is_node { HoldsNode self.old child }
        requires node_owner { owner_in self.old node ≡ owner_in self.old parent }
        requires child_owner { owner_in self.old child ≡ owner_in self.old parent }
        ensures names { OnOk result (self.new.names ≡ self.old.names) }
        ensures world { OnOk result (self.new.world ≡ made (owner_in self.old parent)
            (replace_plan (name_in self.old parent) (name_in self.old node) (name_in self.old child)) self.old.world) }

        // A refusal is the Standard's, and changes nothing; nothing else but memory stops a replacement.
        ensures refused { (r : RefusalOf) →
            (result ≡ Err (Fault.Refused r)) ↔
            (replace_refusal (trees_in self.old parent) (name_in self.old parent) (name_in self.old node) (name_in self.old child) ≡ Some r) }
        ensures unchanged { (r : RefusalOf) → result ≡ Err (Fault.Refused r) → self.new ≡ self.old }
    {
        if let Err(refusal) = self.parts.check_replace(parent, node, child) {
            return Err(Fault::Refused(refusal));
        }
        self.parts.laws();
        match replacing(&mut self.parts, parent, node, child) {
            Ok(()) => Ok(()),
            Err(error) => Err(Fault::from(given_up(&mut self.parts, error))),
        }
    }
}

/// A replacement that is not refused. The reference is the child's next sibling, or the node's own where that is the
/// node.
fn replacing(parts: &mut Parts, parent: Key, node: Key, child: Key) -> Result<(), AllocError>
    requires parent_is_node { HoldsNode parts.old parent }
    requires node_is_node { HoldsNode parts.old node }
    requires node_owner { owner_in parts.old node ≡ owner_in parts.old parent }
    requires not_above { is_inclusive_ancestor (trees_in parts.old parent) (name_in parts.old node) (name_in parts.old parent) ≡ false }
    requires child_is_child { IsChild parts.old parent child }
    requires bounds { HasBounds (part_of parts.old.world (owner_in parts.old parent)) }
    ensures names { OnOk result (parts.new.names ≡ parts.old.names) }
    ensures world { OnOk result (parts.new ≡ planned (owner_in parts.old parent)
        (replace_plan (name_in parts.old parent) (name_in parts.old node) (name_in parts.old child)) parts.old) }
{
    parts.laws();
    let next = parts.next(child);
    let reference = reference_child(parts, parent, node, next);
    let prev = parts.prev(child);
    let added = placed_nodes(parts, node)?;
    removing(parts, SuppressObserversFlag::Suppressed, child)?;
    // An `Option<Key>` that is passed on and used again is passed under a second name, since the first one counts as lent.
    let before = reference;
    inserting(
        parts,
        SuppressObserversFlag::Suppressed,
        node,
        parent,
        before,
    )?;
    parts.queue_tree_record(parent, added.as_slice(), &[child], prev, reference)
}

/// The nodes that an insertion places: a fragment's children, or the node itself.
fn placed_nodes(parts: &Parts, node: Key) -> Result<SmallVec<Key, 8>, AllocError>
    requires { HoldsNode parts.now node }
    ensures value { IfOk result (λ keys. map (name_in parts.now) keys.items ≡ placed_nodes (trees_in parts.now node) (name_in parts.now node)) }
    ensures nodes { IfOk result (λ keys. AreNodes parts.now keys.items) }
{
    if is_fragment(parts, node) {
        return children(parts, node);
    }
    SmallVec::from_slice(parts.alloc(), &[node])
}
