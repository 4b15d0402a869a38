//! Data of Texts and Comments (DOM Standard, concept: replace data).
ghost use Rattle.std.specs.Prelude.{◌≡◌, ◌<◌, ◌↔◌, ◌⊎◌, [], length, true, IfErr, OnOk};
ghost use Rattle.dom_base.specs.declared.Refusal.TheVariants.{IndexSize};
ghost use Rattle.dom_model.specs.Tree.{kind_of, has_data};
ghost use Rattle.dom_model.specs.TextChanges.{replacing_data, replacing_all_data};
ghost use Rattle.dom_model.specs.World.{part_of};
ghost use Rattle.dom_model.specs.CommandRefusals.{past_end};
ghost use Rattle.dom_mutation.specs.Doc.{made, planned, name_in, owner_in, trees_in, HoldsNode};

use crate::Doc;
use crate::character_data::replacing_data;
use crate::parts::DataChange;
use crate::settling::given_up;
use dom_base::{DomStr, Fault, Refusal};
use node_arena::Key;
use std::alloc::AllocError;

impl Doc {
    /// From an offset on, so many code units of a Text or a Comment, or as many as there are, give way to others (DOM
    /// Standard, replace data). Refused with `IndexSize` where the offset is past the node's length, with nothing
    /// changed. Where memory is refused, the document is given up: its keys name no nodes any more.
    pub fn replace_data(
        &mut self,
        node: Key,
        offset: usize,
        count: usize,
        data: DomStr,
    ) -> Result<(), Fault>
        requires node_is_node { HoldsNode self.old node }
        requires has_data { has_data (kind_of (trees_in self.old node) (name_in self.old node)) ≡ true }
        ensures refused { (result ≡ Err (Fault.Refused IndexSize)) ↔
            (past_end (part_of self.old.world (owner_in self.old node)) (name_in self.old node) offset ≡ true) }
        ensures other { IfErr result (λ fault. (fault ≡ Fault.Refused IndexSize) ⊎ (fault ≡ Fault.Memory)) }
        ensures unchanged { past_end (part_of self.old.world (owner_in self.old node)) (name_in self.old node) offset ≡ true → self.new ≡ self.old }
        ensures names { OnOk result (self.new.names ≡ self.old.names) }
        ensures world { OnOk result (self.new.world ≡ made (owner_in self.old node)
            (replacing_data (name_in self.old node) offset count «data».items) self.old.world) }
    {
        if offset > self.length(node) {
            return Err(Fault::Refused(Refusal::IndexSize));
        }
        let change = DataChange {
            offset,
            count,
            units: data,
        };
        self.replace_units(node, change)?;
        Ok(())
    }

    /// All data of a Text or a Comment give way to others, which are not copied (DOM Standard, replace data). Where
    /// memory is refused, the document is given up: its keys name no nodes any more.
    pub fn set_data(&mut self, node: Key, data: DomStr) -> Result<(), AllocError>
        requires node_is_node { HoldsNode self.old node }
        requires has_data { has_data (kind_of (trees_in self.old node) (name_in self.old node)) ≡ true }
        ensures names { OnOk result (self.new.names ≡ self.old.names) }
        ensures world { OnOk result (self.new.world ≡ made (owner_in self.old node) (replacing_all_data (name_in self.old node) «data».items) self.old.world) }
    {
        let count = self.length(node);
        let change = DataChange {
            offset: 0,
            count,
            units: data,
        };
        self.replace_units(node, change)
    }

    /// From an offset on, so many code units of a node, or as many as there are, go (DOM Standard, replace data with the empty
    /// string). Where memory is refused, the document is given up: its keys name no nodes any more.
    pub fn delete_data(&mut self, node: Key, offset: usize, count: usize) -> Result<(), AllocError>
        requires { HoldsNode self.old node }
        ensures state { OnOk result (self.new ≡ planned (owner_in self.old node) (replacing_data (name_in self.old node) offset count []) self.old) }
    {
        let none = Vec::new(self.parts.alloc());
        let change = DataChange {
            offset,
            count,
            units: none,
        };
        self.replace_units(node, change)
    }

    /// From an offset on, so many code units of a node give way to others, if it is a Text or a Comment or there are no others.
    fn replace_units(&mut self, node: Key, change: DataChange) -> Result<(), AllocError>
        requires node_is_node { HoldsNode self.old node }
        requires may_come { 0 < length change.units.items → has_data (kind_of (trees_in self.old node) (name_in self.old node)) ≡ true }
        ensures { OnOk result (self.new ≡ planned (owner_in self.old node)
            (replacing_data (name_in self.old node) change.offset change.count change.units.items) self.old) }
    {
        self.parts.laws();
        match replacing_data(&mut self.parts, node, change) {
            Ok(()) => Ok(()),
            Err(error) => Err(given_up(&mut self.parts, error)),
        }
    }
}
