//! Removal and adoption (DOM Standard, concepts: remove, adopt).
ghost use Rattle.std.specs.Prelude.{◌≡◌, ◌↔◌, ◌⊎◌, true, Some, IfErr, OnOk};
ghost use Rattle.dom_base.specs.declared.Refusal.{Refusal as RefusalOf};
ghost use Rattle.dom_base.specs.declared.Refusal.TheVariants.{Hierarchy, NotSupported};
ghost use Rattle.dom_model.specs.Tree.{kind_of, is_document};
ghost use Rattle.dom_model.specs.Changes.{remove_plan, adopt_plan, observed};
ghost use Rattle.dom_mutation.specs.Doc.{made, name_in, owner_in, trees_in, adoption_refusal, HoldsNode};

use crate::Doc;
use crate::removing::{SuppressObserversFlag, adopting, removing};
use crate::settling::given_up;
use dom_base::{Fault, Kind, Refusal};
use node_arena::Key;
use std::alloc::AllocError;

impl Doc {
    /// A node leaves its parent, with a record of the parent. One without a parent stays as it is (DOM Standard, remove). Where
    /// memory is refused, the document is given up: its keys name no nodes any more.
    pub fn remove(&mut self, node: Key) -> Result<(), AllocError>
        requires { HoldsNode self.old node }
        ensures names { OnOk result (self.new.names ≡ self.old.names) }
        ensures world { OnOk result (self.new.world ≡ made (owner_in self.old node) (remove_plan observed (name_in self.old node)) self.old.world) }
    {
        self.parts.laws();
        match removing(&mut self.parts, SuppressObserversFlag::Observed, node) {
            Ok(()) => Ok(()),
            Err(error) => Err(given_up(&mut self.parts, error)),
        }
    }

    /// A node leaves its parent and gets a node document, with all below it (DOM Standard, adopt). A shadow root is refused
    /// with `Hierarchy` and a document with `NotSupported`, with nothing changed. Where memory is refused, the document is
    /// given up: its keys name no nodes any more.
    pub fn adopt(&mut self, document: Key, node: Key) -> Result<(), Fault>
        requires document_is_node { HoldsNode self.old document }
        requires document { is_document (kind_of (trees_in self.old document) (name_in self.old document)) ≡ true }
        requires node_is_node { HoldsNode self.old node }
        requires one_owner { owner_in self.old document ≡ owner_in self.old node }
        ensures refused { (r : RefusalOf) →
            (result ≡ Err (Fault.Refused r)) ↔ (adoption_refusal (kind_of (trees_in self.old node) (name_in self.old node)) ≡ Some r) }
        ensures other { IfErr result (λ fault. (fault ≡ Fault.Refused NotSupported) ⊎ ((fault ≡ Fault.Refused Hierarchy) ⊎ (fault ≡ Fault.Memory))) }
        ensures unchanged { (r : RefusalOf) → result ≡ Err (Fault.Refused r) → self.new ≡ self.old }
        ensures names { OnOk result (self.new.names ≡ self.old.names) }
        ensures world { OnOk result (self.new.world ≡ made (owner_in self.old node) (adopt_plan (name_in self.old document) (name_in self.old node))
            self.old.world) }
    {
        match self.kind(node) {
            Kind::Document => Err(Fault::Refused(Refusal::NotSupported)),
            Kind::Shadow => Err(Fault::Refused(Refusal::Hierarchy)),
            _ => {
                self.parts.laws();
                match adopting(&mut self.parts, document, node) {
                    Ok(()) => Ok(()),
                    Err(error) => Err(Fault::from(given_up(&mut self.parts, error))),
                }
            }
        }
    }
}
