//! The text of a node (DOM Standard, textContent; concept: string replace all).
ghost use Rattle.std.specs.Prelude.{◌≡◌, ◌↔◌, ◌⊎◌, ◌++◌, true, IfErr, OnOk};
ghost use Rattle.dom_base.specs.declared.Refusal.TheVariants.{Limit};
ghost use Rattle.dom_model.specs.TextChanges.{setting_text};
ghost use Rattle.dom_model.specs.World.{part_of};
ghost use Rattle.dom_model.specs.CommandRefusals.{past_limit, made_by_text};
ghost use Rattle.dom_mutation.specs.Doc.{made, name_in, owner_in, texts_made, HoldsNode};

use crate::Doc;
use crate::texts::replace_children;
use dom_base::{DomStr, Fault, Kind};
use node_arena::Key;

impl Doc {
    /// A Text or a Comment gets these data; a document stays as it is; the children of another node give way to one new
    /// Text with these data, or to none where these are none (DOM Standard, textContent). Refused with `Limit` where a Text
    /// is made and the owner has as many nodes as it may. Where memory is refused, nothing is changed, or the document is given up: its
    /// keys name no nodes any more.
    pub fn set_text(&mut self, node: Key, data: DomStr) -> Result<(), Fault>
        requires node_is_node { HoldsNode self.old node }
        ensures names { OnOk result (self.new.names ≡ self.old.names ++ texts_made (part_of self.old.world (owner_in self.old node))
            (name_in self.old node) «data».items) }
        ensures world { OnOk result (self.new.world ≡ made (owner_in self.old node) (setting_text (name_in self.old node) «data».items) self.old.world) }

        // A refusal changes nothing; nothing else but memory stops a change of text.
        ensures refused { (result ≡ Err (Fault.Refused Limit)) ↔
            (past_limit (part_of self.old.world (owner_in self.old node)).node_count
            (made_by_text (part_of self.old.world (owner_in self.old node)) (name_in self.old node) «data».items) ≡ true) }
        ensures other { IfErr result (λ fault. (fault ≡ Fault.Refused Limit) ⊎ (fault ≡ Fault.Memory)) }
        ensures unchanged { result ≡ Err (Fault.Refused Limit) → self.new ≡ self.old }
    {
        self.laws();
        match self.kind(node) {
            Kind::Text | Kind::Comment => {
                self.set_data(node, data)?;
                Ok(())
            }
            Kind::Document => Ok(()),
            _ => replace_children(&mut self.parts, node, data),
        }
    }
}
