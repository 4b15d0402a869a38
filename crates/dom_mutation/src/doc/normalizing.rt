//! Normalization (DOM Standard, normalize(); concept: contiguous exclusive Text nodes).
ghost use Rattle.std.specs.Prelude.{◌≡◌, OnOk};
ghost use Rattle.dom_model.specs.TextChanges.{normalizing};
ghost use Rattle.dom_model.specs.World.{part_of};
ghost use Rattle.dom_mutation.specs.Doc.{made, name_in, owner_in, HoldsNode};

use crate::Doc;
use crate::normalizing::{normalize_each, texts_below};
use crate::settling::given_up;
use node_arena::Key;
use std::alloc::AllocError;

impl Doc {
    /// Of the Texts below a node those without data leave, and each other one gets the data of the Texts directly after it,
    /// which leave (DOM Standard, normalize()). Nothing but memory stops it; then nothing is changed, or the document is given up: its keys
    /// name no nodes any more.
    pub fn normalize(&mut self, node: Key) -> Result<(), AllocError>
        requires node_is_node { HoldsNode self.old node }
        ensures names { OnOk result (self.new.names ≡ self.old.names) }
        ensures world { OnOk result (self.new.world ≡ made (owner_in self.old node) (normalizing (name_in self.old node)) self.old.world) }
    {
        self.parts.laws();
        let texts = texts_below(&self.parts, node)?;
        match normalize_each(&mut self.parts, node, texts.as_slice()) {
            Ok(()) => Ok(()),
            Err(error) => Err(given_up(&mut self.parts, error)),
        }
    }
}
