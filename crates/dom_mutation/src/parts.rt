//! What the documents of a run hold of each owner, and the reads of it.
ghost use Rattle.std.specs.Prelude.{◌≡◌, ℕ, ◌↔◌, ◌⊎◌, ◌++◌, ◌∷◌, [], true, false, length, None, IfOk, IfErr, OnOk, OnErr};
ghost use Rattle.std.specs.Option.{ForSome};
ghost use Rattle.dom_base.specs.declared.Owner.{Owner as OwnerOf};
ghost use Rattle.dom_base.specs.declared.Owner.TheVariants.{Page};
ghost use Rattle.dom_base.specs.declared.Refusal.TheVariants.{Limit};
ghost use Rattle.dom_model.specs.Names.{node_of};
ghost use Rattle.dom_model.specs.Tree.{is_shadow};
ghost use Rattle.dom_model.specs.Part.{next_name};
ghost use Rattle.dom_model.specs.Steps.{make};
ghost use Rattle.dom_model.specs.Changes.{doing};
ghost use Rattle.dom_model.specs.World.{part_of, is_there};
ghost use Rattle.dom_model.specs.CommandRefusals.{past_limit};
ghost use Rattle.dom_model.specs.DocumentMachine.{first_world};
ghost use Rattle.dom_tree.specs.Forest.{node_from};
ghost use Rattle.dom_tree.specs.Owners.{trees_of_owner, AreOwned};
ghost use Rattle.dom_mutation.specs.Doc.{made, HoldsNode, name_in};

mod attaching;
mod documents;
mod reads;
mod records;
mod settling;
mod steps;

use crate::node_trees::NodeTrees;
use dom_base::{Fault, Kind, Owner};
use dom_observers::Observers;
use dom_ranges::RangeTable;
use dom_traversal::Cursors;
use dom_tree::{Forest, NodeData};
use indexmap::IndexMap;
use node_arena::Key;
pub(crate) use settling::give_up_observers;
use std::alloc::{AllocError, Global};
use std::marker::Model;
pub(crate) use steps::DataChange;

/// The nodes of all owners, how they stand, the iterators and walkers, the observers, the live ranges, the hosts with the slots
/// of their shadow trees, the signalled slots of all owners in order, and the microtasks.
#[derive(Drop)]
pub(crate) struct Parts {
    pub(crate) trees: NodeTrees,
    pub(crate) cursors: Cursors,
    pub(crate) observers: Observers,
    pub(crate) ranges: RangeTable,
    pub(crate) alloc: Global,
}

impl Model for Parts {
    ghost use Rattle.std.specs.Coded.{codes};
    ghost use Rattle.dom_model.specs.Codes.{trees_code};
    ghost use Rattle.dom_mutation.specs.Doc.{DocState, all_tables, state_from, IsDoc};

    ghost Value = { DocState };

    ghost coded = { Prim.hlevel (codes, trees_code) };

    ghost view = { λ d. state_from d.trees.forest.names d.trees.forest.trees (all_tables d) };

    ghost invariant = { λ d. IsDoc d.trees.forest.names d.trees.forest.trees (all_tables d) };
}

impl Parts {
    /// The page with its first document, and no component. It is refused where memory is refused, and only then.
    pub(crate) fn new(alloc: Global) -> Result<Self, AllocError>
        ensures { IfOk result (λ doc. doc ≡ record { names = node_of Page 0 ∷ []; world = first_world }) }
    {
        let mut trees = NodeTrees::new(alloc);
        let document = NodeData {
            kind: Kind::Document,
            element: String::new(alloc),
            attributes: IndexMap::new(alloc),
            text: Vec::new(alloc),
            document: None,
        };
        match trees.forest.add(Owner::Page, document) {
            Ok(_) => Ok(Parts {
                trees,
                cursors: Cursors::new(alloc),
                observers: Observers::new(alloc),
                ranges: RangeTable::new(alloc),
                alloc,
            }),
            Err(_) => Err(AllocError),
        }
    }

    /// The forest, for reading.
    pub(crate) fn forest(&self) -> &Forest
        ensures names { result.now.names ≡ self.now.names }
        ensures trees { (o : OwnerOf) → trees_of_owner o result.now.trees ≡ (part_of self.now.world o).trees }
        ensures owned { AreOwned result.now.trees }
        ensures present { (k : ℕ) → HoldsNode self.now k → is_there self.now.world (name_in self.now k).owner ≡ true }
    {
        &self.trees.forest
    }

    /// Makes a node with an owner's next number, in a tree of its own, and gives its key. It is refused with `Limit` where the
    /// owner has as many nodes as it may, and then, as where memory is refused, nothing is changed.
    #[inline(always)]
    pub(crate) fn add(&mut self, owner: Owner, node: NodeData) -> Result<Key, Fault>
        requires owner_is_there { is_there self.old.world owner ≡ true }
        requires no_shadow { is_shadow node.kind ≡ false }
        requires document_is_node { ForSome node.document (HoldsNode self.old) }
        ensures key { IfOk result (λ key. key ≡ length self.old.names) }
        ensures names { OnOk result (self.new.names ≡ self.old.names ++ next_name (part_of self.old.world owner) ∷ []) }
        ensures world { OnOk result (self.new.world ≡ made owner
            (doing (make (node_from self.old.names (next_name (part_of self.old.world owner)) node))) self.old.world) }

        // An owner's nodes are at most 1,000,000. Nothing else but memory stops one more.
        ensures limit { (result ≡ Err (Fault.Refused Limit)) ↔ (past_limit (part_of self.old.world owner).node_count 1 ≡ true) }
        ensures other { IfErr result (λ fault. (fault ≡ Fault.Refused Limit) ⊎ (fault ≡ Fault.Memory)) }
        ensures err { OnErr result (self.new ≡ self.old) }
    {
        let added = self.trees.forest.add(owner, node);
        self.trees.forest.law_nodes_stand_once();
        added
    }

    /// The allocator of all that is held.
    pub(crate) fn alloc(&self) -> Global {
        self.alloc
    }
}
