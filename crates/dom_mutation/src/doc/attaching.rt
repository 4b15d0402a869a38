//! Shadow roots (DOM Standard, concept: attach a shadow root).
ghost use Rattle.std.specs.Prelude.{◌≡◌, ◌↔◌, ◌++◌, ◌∷◌, [], length, true, false, Some, IfOk, OnOk};
ghost use Rattle.dom_base.specs.declared.Kind.TheVariants.{Shadow};
ghost use Rattle.dom_base.specs.declared.Refusal.{Refusal as RefusalOf};
ghost use Rattle.dom_model.specs.DocumentMachine.{attaching};
ghost use Rattle.dom_model.specs.Tree.{kind_of, is_element};
ghost use Rattle.dom_model.specs.World.{part_of, is_there, component_made, shadow_root_of};
ghost use Rattle.dom_mutation.specs.Doc.{name_in, owner_in, trees_in, attaching_refusal, HoldsNode};

use crate::Doc;
use crate::settling::given_up;
use dom_base::Fault;
use node_arena::Key;
use std::alloc::AllocError;

impl Doc {
    /// Attaches a shadow root to an element: node 0 of a new component of its owner, with the element's node document; the
    /// answer is its key. Refused with `NotSupported` to a host and to an element whose name may be no host's, and then with
    /// `Limit` where the owner has made as many components as it may or its word has as many numbers as it may, with nothing
    /// changed (DOM Standard, attach a shadow root; the limit is an own rule). Where memory is refused, the document is given up:
    /// its keys name no nodes any more.
    pub fn attach(&mut self, host: Key) -> Result<Key, Fault>
        requires host_is_node { HoldsNode self.old host }
        requires element { is_element (kind_of (trees_in self.old host) (name_in self.old host)) ≡ true }
        ensures key { IfOk result (λ key. key ≡ length self.old.names) }
        ensures names { OnOk result (self.new.names ≡ self.old.names ++
            shadow_root_of (component_made (owner_in self.old host) (length (part_of self.old.world (owner_in self.old host)).attached)) ∷ []) }
        ensures world { OnOk result (self.new.world ≡ (attaching self.old.world (owner_in self.old host) (name_in self.old host)).0) }
        ensures refused { (r : RefusalOf) → (result ≡ Err (Fault.Refused r)) ↔
            (attaching_refusal (part_of self.old.world (owner_in self.old host)) (name_in self.old host) ≡ Some r) }
        ensures unchanged { (r : RefusalOf) → result ≡ Err (Fault.Refused r) → self.new ≡ self.old }

        // The component is a new one.
        ensures fresh { OnOk result (is_there self.old.world
            (component_made (owner_in self.old host) (length (part_of self.old.world (owner_in self.old host)).attached)) ≡ false) }
    {
        match self.parts.attach(host) {
            Ok(root) => Ok(root),
            Err(Fault::Refused(refusal)) => Err(Fault::Refused(refusal)),
            Err(Fault::Memory) => Err(Fault::from(given_up(&mut self.parts, AllocError))),
        }
    }
}
