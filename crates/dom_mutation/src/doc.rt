//! The documents of a run.
ghost use Rattle.std.specs.Prelude.{◌≡◌, ℕ, ◌∷◌, [], true, IfOk};
ghost use Rattle.dom_base.specs.declared.Owner.{Owner as OwnerOf};
ghost use Rattle.dom_base.specs.declared.Owner.TheVariants.{Page};
ghost use Rattle.dom_model.specs.Names.{node_of};
ghost use Rattle.dom_model.specs.World.{part_of, is_there};
ghost use Rattle.dom_model.specs.DocumentMachine.{first_world};
ghost use Rattle.dom_tree.specs.Owners.{trees_of_owner, AreOwned};
ghost use Rattle.dom_slots.specs.Kept.{AreSlotsOf};
ghost use Rattle.dom_slots.specs.Shadows.{shadows, IsShownBy};
ghost use Rattle.dom_mutation.specs.Doc.{HoldsNode, name_in};

mod attaching;
mod attributes;
mod cursors;
mod data;
mod inserting;
mod making;
mod normalizing;
mod observing;
mod ranging;
mod reads;
mod removing;
mod replacing;
mod splitting;
mod tasks;
mod texts;

use crate::parts::Parts;
pub use attributes::is_name;
use dom_base::Owner;
use dom_slots::Slots;
use dom_tree::Forest;
use std::alloc::{AllocError, Global};
use std::marker::Model;

/// The nodes of all owners, how they stand, and all that each owner has beside them but its listeners: the page and the
/// components, their cursors, observers, live ranges, hosts, signalled slots and microtasks. Between calls the live ranges end within
/// their nodes, both ends of one in one tree, and no shadow root has a parent (`IsReady`), so calls follow each other as they please. A
/// call that changes the document and is refused memory gives it up, unless it says that nothing is changed then: there are no nodes
/// then, and the page alone is there.
#[derive(Drop)]
pub struct Doc {
    parts: Parts,
}

impl Model for Doc {
    ghost use Rattle.std.specs.Coded.{codes};
    ghost use Rattle.dom_model.specs.Codes.{trees_code};
    ghost use Rattle.dom_mutation.specs.Doc.{DocState};
    ghost use Rattle.dom_mutation.specs.Ready.{IsReady};

    ghost Value = { DocState };

    ghost coded = { Prim.hlevel (codes, trees_code) };

    ghost view = { λ d. d.parts };

    ghost invariant = { λ d. IsReady d.parts };
}

impl Doc {
    /// The page with its first document, and no component. It is refused where memory is refused, and only then.
    pub fn new(alloc: Global) -> Result<Self, AllocError>
        ensures value { IfOk result (λ doc. doc ≡ record { names = node_of Page 0 ∷ []; world = first_world }) }
    {
        let parts = Parts::new(alloc)?;
        Ok(Doc { parts })
    }

    /// The forest, for reading.
    pub fn forest(&self) -> &Forest
        ensures names { result.now.names ≡ self.now.names }
        ensures trees { (o : OwnerOf) → trees_of_owner o result.now.trees ≡ (part_of self.now.world o).trees }
        ensures owned { AreOwned result.now.trees }
        ensures present { (k : ℕ) → HoldsNode self.now k → is_there self.now.world (name_in self.now k).owner ≡ true }
    {
        self.parts.forest()
    }

    /// The forest and the slots of its shadow trees, for reading: what an event path is built from.
    pub fn forest_and_slots(&self) -> (&Forest, &Slots)
        ensures names { result.0.now.names ≡ self.now.names }
        ensures trees { (o : OwnerOf) → trees_of_owner o result.0.now.trees ≡ (part_of self.now.world o).trees }
        ensures slots { AreSlotsOf result.0.now result.1.now }
        ensures shown { IsShownBy (shadows result.0.now result.1.now.hosts) self.now.world }
    {
        let parts = &self.parts;
        (&parts.trees.forest, &parts.trees.slots)
    }

    /// Whether an owner has a part: the page has one, and a component has nodes from the attach on that made it.
    pub fn is_there(&self, owner: Owner) -> bool
        ensures { result ≡ is_there self.now.world owner }
    {
        let parts = &self.parts;
        matches!(owner, Owner::Page) || parts.trees.forest.node_count(owner) > 0
    }

    /// How many nodes an owner has (own rule).
    pub fn node_count(&self, owner: Owner) -> usize
        requires { is_there self.now.world owner ≡ true }
        ensures { result ≡ (part_of self.now.world owner).node_count }
    {
        let parts = &self.parts;
        parts.trees.forest.node_count(owner)
    }
}
