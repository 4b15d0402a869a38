//! What is read of a node, in its owner's trees.
ghost use Rattle.std.specs.Prelude.{◌≡◌, ℕ, ◌≤◌, true, false, count_by, is_some};
ghost use Rattle.dom_model.specs.Names.{first_of, last_of, name_eq};
ghost use Rattle.dom_model.specs.Tree.{nodes, node_in, attribute_value, kind_of, parent_of, children_of, next_sibling, previous_sibling, length_of};
ghost use Rattle.dom_model.specs.Tree.{has_node};
ghost use Rattle.dom_base.specs.declared.NodeName.{NodeName as Name};
ghost use Rattle.dom_base.specs.declared.Owner.{Owner as OwnerOf};
ghost use Rattle.dom_model.specs.Validity.{replace_refusal};
ghost use Rattle.dom_tree.specs.Forest.{err_of};
ghost use Rattle.dom_model.specs.World.{part_of, is_there};
ghost use Rattle.dom_model.specs.CommandRefusals.{past_limit};
ghost use Rattle.dom_worlds.specs.Worlds.{IsPart};
ghost use Rattle.dom_mutation.specs.Doc.{name_in, owner_in, trees_in, HoldsNode, IsReadFrom};
ghost use Rattle.dom_mutation.specs.Hosting.{IsAlone};

use crate::parts::Parts;
use dom_base::{Kind, Owner, Refusal};
use node_arena::Key;

impl Parts {
    /// Holds of every document: names tell the nodes apart, each node stands once in its owner's trees, an owner's steps
    /// do in its part what they do in a part alone, no owner has more nodes than it may, each node's owner is there, and each
    /// owner's part is one as every world has it that is reached.
    pub(crate) fn laws(&self)
        ensures distinct { (j k : ℕ) → HoldsNode self.now j → HoldsNode self.now k → name_in self.now j ≡ name_in self.now k → j ≡ k }
        ensures once { (o : OwnerOf) (x : Name) → count_by (λ n. name_eq n.name x) (nodes (part_of self.now.world o).trees) ≤ 1 }
        ensures alone { (k : ℕ) → HoldsNode self.now k → IsAlone self.now.world (owner_in self.now k) }
        ensures limited { (o : OwnerOf) → past_limit (part_of self.now.world o).node_count 0 ≡ false }
        ensures present { (k : ℕ) → HoldsNode self.now k → is_there self.now.world (owner_in self.now k) ≡ true }
        ensures parts { (o : OwnerOf) → IsPart (part_of self.now.world o) }
        ensures stand { (k : ℕ) → HoldsNode self.now k → has_node (trees_in self.now k) (name_in self.now k) ≡ true }
    {
        self.trees.forest.law_nodes_stand_once();
    }

    /// The owner of a node.
    pub(crate) fn owner(&self, node: Key) -> Owner
        requires { HoldsNode self.now node }
        ensures { result ≡ owner_in self.now node }
    {
        self.trees.forest.name(node).owner
    }

    /// The kind of a node (DOM Standard, interface Node; own rule for a shadow root).
    pub(crate) fn kind(&self, node: Key) -> Kind
        requires { HoldsNode self.now node }
        ensures { result ≡ kind_of (trees_in self.now node) (name_in self.now node) }
    {
        self.trees.forest.kind(node)
    }

    /// The data of a Text or a Comment, in code units.
    pub(crate) fn text(&self, node: Key) -> &[u16]
        requires { HoldsNode self.now node }
        ensures { result.now ≡ (node_in (trees_in self.now node) (name_in self.now node)).text }
    {
        self.trees.forest.text(node)
    }

    /// The number of code units of a Text or a Comment, and of another node that of its children, which are counted (DOM
    /// Standard, concept: length).
    pub(crate) fn length(&self, node: Key) -> usize
        requires { HoldsNode self.now node }
        ensures { result ≡ length_of (trees_in self.now node) (name_in self.now node) }
    {
        self.trees.forest.length(node)
    }

    /// Whether a node has an attribute.
    pub(crate) fn has_attr(&self, node: Key, name: &str) -> bool
        requires { HoldsNode self.now node }
        ensures { result ≡ is_some (attribute_value (node_in (trees_in self.now node) (name_in self.now node)) name.now) }
    {
        self.trees.forest.attr(node, name).is_some()
    }

    /// The parent of a node, which a root has not (DOM Standard, concept: parent).
    pub(crate) fn parent(&self, node: Key) -> Option<Key>
        requires { HoldsNode self.now node }
        ensures { IsReadFrom self.now node parent_of result }
    {
        self.trees.forest.parent(node)
    }

    /// The first child of a node.
    pub(crate) fn first(&self, node: Key) -> Option<Key>
        requires { HoldsNode self.now node }
        ensures { IsReadFrom self.now node (λ ts x. first_of (children_of ts x)) result }
    {
        self.trees.forest.first(node)
    }

    /// The last child of a node.
    pub(crate) fn last(&self, node: Key) -> Option<Key>
        requires { HoldsNode self.now node }
        ensures { IsReadFrom self.now node (λ ts x. last_of (children_of ts x)) result }
    {
        self.trees.forest.last(node)
    }

    /// The sibling just after a node.
    pub(crate) fn next(&self, node: Key) -> Option<Key>
        requires { HoldsNode self.now node }
        ensures { IsReadFrom self.now node next_sibling result }
    {
        self.trees.forest.next(node)
    }

    /// The sibling just before a node.
    pub(crate) fn prev(&self, node: Key) -> Option<Key>
        requires { HoldsNode self.now node }
        ensures { IsReadFrom self.now node previous_sibling result }
    {
        self.trees.forest.prev(node)
    }

    /// Tests whether a node may take the place of a child of a parent: `Hierarchy` or `NotFound` where not (DOM Standard, concept: replace).
    pub(crate) fn check_replace(&self, parent: Key, node: Key, child: Key) -> Result<(), Refusal>
        requires parent_is_node { HoldsNode self.now parent }
        requires node_is_node { HoldsNode self.now node }
        requires child_is_node { HoldsNode self.now child }
        requires node_owner { owner_in self.now node ≡ owner_in self.now parent }
        requires child_owner { owner_in self.now child ≡ owner_in self.now parent }
        ensures { err_of result ≡ replace_refusal (trees_in self.now parent) (name_in self.now parent) (name_in self.now node) (name_in self.now child) }
    {
        self.trees.forest.check_replace(parent, node, child)
    }
}
