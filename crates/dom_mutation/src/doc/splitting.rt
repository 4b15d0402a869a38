//! The splitting of a Text (DOM Standard, concept: split a Text node).
ghost use Rattle.std.specs.Prelude.{◌≡◌, ◌↔◌, ◌⊎◌, ◌++◌, ◌∷◌, [], length, true, IfOk, OnOk, Some};
ghost use Rattle.dom_base.specs.declared.Refusal.{Refusal as RefusalOf};
ghost use Rattle.dom_base.specs.declared.Refusal.TheVariants.{IndexSize};
ghost use Rattle.dom_model.specs.Part.{next_name};
ghost use Rattle.dom_model.specs.TextChanges.{splitting};
ghost use Rattle.dom_model.specs.Tree.{kind_of, is_text};
ghost use Rattle.dom_model.specs.World.{part_of};
ghost use Rattle.dom_model.specs.CommandRefusals.{past_end};
ghost use Rattle.dom_mutation.specs.Doc.{made, name_in, owner_in, trees_in, splitting_refusal, HoldsNode};

use crate::Doc;
use crate::splitting::split;
use dom_base::Fault;
use node_arena::Key;

impl Doc {
    /// The code units of a Text from an offset on go into a new Text just behind it, which is the answer (DOM Standard,
    /// split a Text node). Refused with `IndexSize` where the offset is past the node's length, and with `Limit` where the
    /// owner has as many nodes as it may. Where memory is refused, nothing is changed, or the document is given up: its keys name no
    /// nodes any more.
    pub fn split(&mut self, node: Key, offset: usize) -> Result<Key, Fault>
        requires node_is_node { HoldsNode self.old node }
        requires text { is_text (kind_of (trees_in self.old node) (name_in self.old node)) ≡ true }
        ensures key { IfOk result (λ key. key ≡ length self.old.names) }
        ensures names { OnOk result (self.new.names ≡ self.old.names ++ next_name (part_of self.old.world (owner_in self.old node)) ∷ []) }
        ensures world { OnOk result (self.new.world ≡ made (owner_in self.old node) (splitting (name_in self.old node) offset) self.old.world) }

        // A refusal is one of these, in their order, and changes nothing; nothing else but memory stops a split.
        ensures index { (result ≡ Err (Fault.Refused IndexSize)) ↔
            (past_end (part_of self.old.world (owner_in self.old node)) (name_in self.old node) offset ≡ true) }
        ensures refused { (r : RefusalOf) → result ≡ Err (Fault.Refused r) →
            splitting_refusal (part_of self.old.world (owner_in self.old node)) (name_in self.old node) offset ≡ Some r }
        ensures stopped { (r : RefusalOf) →
            splitting_refusal (part_of self.old.world (owner_in self.old node)) (name_in self.old node) offset ≡ Some r →
            (result ≡ Err (Fault.Refused r)) ⊎ (result ≡ Err Fault.Memory) }
        ensures unchanged { (r : RefusalOf) → result ≡ Err (Fault.Refused r) → self.new ≡ self.old }
    {
        self.parts.laws();
        split(&mut self.parts, node, offset)
    }
}
