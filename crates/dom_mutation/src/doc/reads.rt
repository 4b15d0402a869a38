//! What is read of a node, in its owner's trees.
ghost use Rattle.std.specs.Prelude.{◌≡◌, ℕ, ◌≤◌, true, false, count_by};
ghost use Rattle.std.specs.Option.{option_map, ForSome};
ghost use Rattle.dom_model.specs.Names.{name_eq};
ghost use Rattle.dom_model.specs.Tree.{nodes, kind_of, parent_of, length_of, index_of, has_node, is_document, root_of};
ghost use Rattle.dom_base.specs.declared.NodeName.{NodeName as Name};
ghost use Rattle.dom_base.specs.declared.Owner.{Owner as OwnerOf};
ghost use Rattle.dom_model.specs.World.{part_of, is_there, is_connected};
ghost use Rattle.dom_model.specs.CommandRefusals.{past_limit};
ghost use Rattle.dom_worlds.specs.Worlds.{IsPart};
ghost use Rattle.dom_mutation.specs.Doc.{name_in, owner_in, trees_in, HoldsNode};
ghost use Rattle.dom_slots.specs.Hosts.{HostsAreNodes};
ghost use Rattle.dom_slots.specs.Shadows.{shadows};
ghost use Rattle.dom_tree.specs.Forest.{IsNode, name_of};
ghost use Rattle.dom_mutation.specs.Hosting.{IsAlone, outermost_root};
ghost use Rattle.dom_mutation.specs.Ready.{IsReady};

use crate::Doc;
use dom_base::Kind;
use dom_slots::Slots;
use dom_tree::Forest;
use node_arena::Key;

impl Doc {
    /// Holds of every document: names tell the nodes apart, each node stands once in its owner's trees, an owner's steps
    /// do in its part what they do in a part alone, no owner has more nodes than it may, each node's owner is there, each owner's part
    /// is one as every world has it that is reached, and live ranges and shadow roots stand as they should (`IsReady`).
    pub fn laws(&self)
        ensures distinct { (j k : ℕ) → HoldsNode self.now j → HoldsNode self.now k → name_in self.now j ≡ name_in self.now k → j ≡ k }
        ensures once { (o : OwnerOf) (x : Name) → count_by (λ n. name_eq n.name x) (nodes (part_of self.now.world o).trees) ≤ 1 }
        ensures alone { (k : ℕ) → HoldsNode self.now k → IsAlone self.now.world (owner_in self.now k) }
        ensures limited { (o : OwnerOf) → past_limit (part_of self.now.world o).node_count 0 ≡ false }
        ensures present { (k : ℕ) → HoldsNode self.now k → is_there self.now.world (owner_in self.now k) ≡ true }
        ensures parts { (o : OwnerOf) → IsPart (part_of self.now.world o) }
        ensures stand { (k : ℕ) → HoldsNode self.now k → has_node (trees_in self.now k) (name_in self.now k) ≡ true }
        ensures ready { IsReady self.now }
    {
        self.parts.laws();
    }

    /// The kind of a node (DOM Standard, interface Node; own rule for a shadow root).
    pub fn kind(&self, node: Key) -> Kind
        requires { HoldsNode self.now node }
        ensures { result ≡ kind_of (trees_in self.now node) (name_in self.now node) }
    {
        self.parts.kind(node)
    }

    /// The number of code units of a Text or a Comment, and of another node that of its children, which are counted (DOM
    /// Standard, concept: length).
    pub fn length(&self, node: Key) -> usize
        requires { HoldsNode self.now node }
        ensures { result ≡ length_of (trees_in self.now node) (name_in self.now node) }
    {
        self.parts.length(node)
    }

    /// The place of a node among its parent's children (DOM Standard, concept: index).
    pub fn index(&self, node: Key) -> usize
        requires { HoldsNode self.now node }
        ensures { result ≡ index_of (trees_in self.now node) (name_in self.now node) }
    {
        let parts = &self.parts;
        parts.trees.forest.index(node)
    }

    /// Whether a node's shadow-including root is a document (DOM Standard, concept: connected). Above a node's root there are at most as
    /// many hosts as its owner is deep, so eight at most.
    pub fn is_connected(&self, node: Key) -> bool
        requires { HoldsNode self.now node }
        ensures { result ≡ is_connected self.now.world (name_in self.now node) }
    {
        let parts = &self.parts;
        parts.trees.forest.law_nodes_stand_once();
        let depth = parts.trees.forest.name(node).owner.depth();
        let root = outermost_root(&parts.trees.forest, &parts.trees.slots, node, depth);
        is_document(parts.trees.forest.kind(root))
    }

    /// The parent of a node, which a root has not (DOM Standard, concept: parent).
    pub fn parent(&self, node: Key) -> Option<Key>
        requires { HoldsNode self.now node }
        ensures value { option_map (name_in self.now) result ≡ parent_of (trees_in self.now node) (name_in self.now node) }
        ensures node { ForSome result (HoldsNode self.now) }
        ensures owner { ForSome result (λ k. owner_in self.now k ≡ owner_in self.now node) }
    {
        self.parts.parent(node)
    }
}

/// The root of a node's tree, or where that has a host the root of the host's tree, and so on, from host to host, so often at
/// most (DOM Standard, concept: shadow-including root).
fn outermost_root(forest: &Forest, slots: &Slots, node: Key, depth: u8) -> Key
    requires node_is_node { IsNode forest.now node }
    requires hosts { HostsAreNodes forest.now.names slots.now.hosts }
    ensures node { IsNode forest.now result }
    ensures value { name_of forest.now result ≡ outermost_root (shadows forest.now slots.now.hosts) depth
        (root_of forest.now.trees (name_of forest.now node)) }
{
    forest.law_nodes_stand_once();
    let mut root = forest.root(node);
    let mut left = depth;
    while left > 0 {
        let Some(host) = slots.host_of(root) else {
            return root;
        };
        root = forest.root(host);
        left -= 1;
    }
    root
}

/// Whether a kind is that of documents.
fn is_document(kind: Kind) -> bool
    ensures { result ≡ is_document kind }
{
    matches!(kind, Kind::Document)
}
