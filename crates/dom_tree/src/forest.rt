//! The nodes of all owners, and the trees in which they stand.
ghost use Rattle.std.specs.Prelude.{◌≡◌, ℕ, ◌↔◌, ◌++◌, ◌∷◌, [], ◌⊎◌, length, true, false, count_by, Some, None, is_some, slice_get};
ghost use Rattle.std.specs.Prelude.{IfOk, IfErr, OnOk, OnErr};
ghost use Rattle.std.specs.Option.{ForSome};
ghost use Rattle.dom_base.specs.declared.NodeName.{NodeName as Name};
ghost use Rattle.dom_model.specs.Names.{name_eq, is_in};
ghost use Rattle.dom_model.specs.Tree.{none, nodes, has_node, inclusive_descendants, inclusive_ancestors, is_inclusive_ancestor, parent_of, children_of};
ghost use Rattle.dom_model.specs.Tree.{node_in};
ghost use Rattle.dom_tree.specs.Owners.{AreInOrder};
ghost use Rattle.dom_model.specs.TreeChanges.{with_node};
ghost use Rattle.dom_tree.specs.Forest.{next_name, count_of, node_from, IsNode, name_of};
ghost use Rattle.dom_tree.specs.Ids.{HasId, MayBear};

mod contents;
mod links;
mod node_at;
mod order;
mod validity;

use crate::data::NodeData;
use crate::ids::{IdTable, id_code};
use crate::shared::SharedTable;
use crate::stored::StoredNode;
use crate::table::KeyTable;
use dom_attributes::SharedNames;
use dom_base::{Fault, MAX_NODES, NodeName, Owner, Refusal};
use node_arena::{Arena, Key};
pub use node_at::NodeAt;
use std::alloc::Global;
use std::marker::Model;

/// The nodes of all owners, and the trees in which they stand. Nodes are never taken away.
pub struct Forest {
    arena: Arena<StoredNode>,
    keys: KeyTable,
    shared: SharedTable,
    attribute_names: SharedNames,
    ids: IdTable,
    alloc: Global,
}

impl Drop for Forest {
    // Written out, so that the crates above cite it, and do not prove again how each field is let go.
    fn drop(self) {
        let Self {
            arena,
            keys,
            shared,
            attribute_names,
            ids,
            alloc,
        } = self;
    }
}

impl Model for Forest {
    ghost use Rattle.dom_tree.specs.Forest.{NamedTrees, named_trees_code, stored_names, nodes_of};
    ghost use Rattle.dom_tree.specs.Rows.{trees_of};
    ghost use Rattle.dom_tree.specs.Table.{keys_of};
    ghost use Rattle.dom_tree.specs.Ids.{bearers_of, IsKeptWithIds};

    ghost Value = { NamedTrees };

    ghost coded = { named_trees_code };

    ghost view = { λ f. record { names = stored_names f.arena.payloads; trees = trees_of (nodes_of f.arena.payloads) f.arena.children } };

    ghost invariant = { λ f. IsKeptWithIds f.arena.payloads f.arena.children (keys_of f.keys) (bearers_of f.ids) };
}

impl Forest {
    /// A forest without nodes, which takes no memory yet. It and its nodes will take theirs from `alloc`.
    pub fn new(alloc: Global) -> Self
        ensures { result ≡ record { names = []; trees = none } }
    {
        Forest {
            arena: Arena::new(alloc),
            keys: KeyTable::new(alloc),
            shared: SharedTable::new(alloc),
            attribute_names: SharedNames::new(alloc),
            ids: IdTable::new(alloc),
            alloc,
        }
    }

    /// Makes a node with the next number of an owner, in a tree of its own, and gives its key (own rule). It is
    /// refused with `Limit` where the owner has a million nodes, and with `Memory` where memory is refused; then the
    /// forest is as it was.
    pub fn add(&mut self, owner: Owner, node: NodeData) -> Result<Key, Fault>
        requires document_is_node { ForSome node.document (IsNode self.old) }
        ensures key { IfOk result (λ key. key ≡ length self.old.names) }
        ensures names { OnOk result (self.new.names ≡ self.old.names ++ next_name owner self.old.names ∷ []) }
        ensures trees { OnOk result (self.new.trees ≡ with_node (node_from self.old.names (next_name owner self.old.names) node) self.old.trees) }
        ensures unlinked { IfOk result (λ key. parent_of self.new.trees (name_of self.new key) ≡ None) }
        ensures childless { IfOk result (λ key. children_of self.new.trees (name_of self.new key) ≡ []) }
        ensures above_none { IfOk result (λ key. (k : ℕ) → IsNode self.old k →
            is_inclusive_ancestor self.new.trees (name_of self.new key) (name_of self.new k) ≡ false) }
        ensures named { OnOk result ((k : ℕ) → IsNode self.old k → name_of self.new k ≡ name_of self.old k) }
        ensures above { OnOk result ((k : ℕ) → IsNode self.old k →
            inclusive_ancestors self.new.trees (name_of self.old k) ≡ inclusive_ancestors self.old.trees (name_of self.old k)) }
        ensures children { OnOk result ((k : ℕ) → IsNode self.old k →
            children_of self.new.trees (name_of self.old k) ≡ children_of self.old.trees (name_of self.old k)) }
        ensures holds { IfOk result (λ key.
            node_in self.new.trees (name_of self.new key) ≡ node_from self.old.names (next_name owner self.old.names) node) }
        ensures held { OnOk result ((k : ℕ) → IsNode self.old k →
            node_in self.new.trees (name_of self.old k) ≡ node_in self.old.trees (name_of self.old k)) }

        // An owner's nodes are at most 1,000,000. Nothing else but memory stops one more.
        ensures limit { (result ≡ Err (Fault.Refused Refusal.Limit)) ↔ (count_of owner self.old.names ≡ MAX_NODES) }
        ensures other { IfErr result (λ fault. (fault ≡ Fault.Refused Refusal.Limit) ⊎ (fault ≡ Fault.Memory)) }
        ensures err { OnErr result (self.new ≡ self.old) }
    {
        let number = self.keys.count(owner);
        if number == MAX_NODES as usize {
            return Err(Fault::Refused(Refusal::Limit));
        }
        self.keys.reserve(owner)?;
        let name = NodeName {
            owner,
            number: number as u32,
        };
        let stored = StoredNode::of(self.alloc, &mut self.shared, name, node)?;
        let number = stored.id_number();
        self.ids.make_room(number)?;
        let key = self.arena.add(stored)?;
        self.keys.push(owner, key);
        self.ids.put(number, key);
        Ok(key)
    }

    /// How many nodes an owner has (own rule).
    pub fn node_count(&self, owner: Owner) -> usize
        ensures { result ≡ count_of owner self.now.names }
    {
        self.keys.count(owner)
    }

    /// The key of the node of this name, if there is one (own rule). It is found by its number in its owner's list.
    #[inline(always)]
    pub fn find(&self, name: NodeName) -> Option<Key>
        ensures found { ForSome result (λ k. slice_get self.now.names k ≡ Some name) }
        ensures kept { (k : ℕ) → slice_get self.now.names k ≡ Some name → result ≡ Some k }
        ensures present { is_some result ≡ has_node self.now.trees name }
        ensures node { ForSome result (IsNode self.now) }
    {
        self.keys.find(name)
    }

    /// The only node of an owner that may have an ID, if any may; nothing where it is not known (own rule). It takes the time that
    /// the ID's length asks for. Where several had the ID, or one with the same number, at once, it is not known from then on.
    pub fn only_bearer(&self, owner: Owner, id: &[u16]) -> Option<Option<Key>>
        ensures kept { (k : ℕ) → IsNode self.now k → (name_of self.now k).owner ≡ owner →
            HasId self.now.trees (name_of self.now k) id.now → MayBear result k }
        ensures node { (k : ℕ) → result ≡ Some (Some k) → IsNode self.now k }
    {
        self.ids.only_bearer(id_code(owner, id))
    }

    /// Holds of every forest (own rule): names tell the nodes apart, each node stands once in the trees, no others
    /// stand there, what is below a node is what it is above, and the roots stand in the order of their names.
    pub fn law_nodes_stand_once(&self)
        ensures distinct { (j k : ℕ) → IsNode self.now j → IsNode self.now k → name_of self.now j ≡ name_of self.now k → j ≡ k }
        ensures once { (k : ℕ) → IsNode self.now k → count_by (λ n. name_eq n.name (name_of self.now k)) (nodes self.now.trees) ≡ 1 }
        ensures only { (x : Name) → has_node self.now.trees x ≡ true → (k : ℕ) × (slice_get self.now.names k ≡ Some x) }
        ensures present { (k : ℕ) → IsNode self.now k → has_node self.now.trees (name_of self.now k) ≡ true }
        ensures below { (j k : ℕ) → IsNode self.now j → IsNode self.now k →
            is_in name_eq (name_of self.now k) (inclusive_descendants self.now.trees (name_of self.now j)) ≡ is_inclusive_ancestor
            self.now.trees (name_of self.now j) (name_of self.now k) }
        ensures order { AreInOrder self.now.trees }
    {
        let _ = &self.arena;
    }

    /// The name of a node: its owner, and its number among the owner's nodes (own rule).
    pub fn name(&self, key: Key) -> NodeName
        requires { IsNode self.now key }
        ensures value { slice_get self.now.names key ≡ Some result }
        ensures at { name_of self.now key ≡ result }
    {
        self.arena.payload(key).name()
    }

    /// The name of a node in its two parts, of which the owner is lent: no name is copied (own rule).
    #[inline(always)]
    pub fn lent_name(&self, key: Key) -> (&Owner, u32)
        requires { IsNode self.now key }
        ensures owner { result.0.now ≡ (name_of self.now key).owner }
        ensures number { result.1 ≡ (name_of self.now key).number }
    {
        let stored = self.arena.payload(key);
        (stored.owner(), stored.number())
    }
}
