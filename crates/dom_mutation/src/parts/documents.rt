//! Node documents (DOM Standard, concepts: node document, adopt).
ghost use Rattle.std.specs.Prelude.{◌≡◌, OnOk};
ghost use Rattle.std.specs.Option.{option_map, ForSome};
ghost use Rattle.dom_model.specs.Tree.{node_in};
ghost use Rattle.dom_model.specs.Steps.{set_document};
ghost use Rattle.dom_mutation.specs.Doc.{name_in, owner_in, trees_in, stepped, HoldsNode};

use crate::node_trees::{roots_below, set_documents, set_each};
use crate::parts::Parts;
use dom_base::MAX_DEPTH;
use node_arena::Key;
use std::alloc::AllocError;

impl Parts {
    /// The node document of a node.
    pub(crate) fn document(&self, node: Key) -> Option<Key>
        requires { HoldsNode self.now node }
        ensures value { option_map (name_in self.now) result ≡ (node_in (trees_in self.now node) (name_in self.now node)).document }
        ensures node { ForSome result (HoldsNode self.now) }
    {
        self.trees.forest.document(node)
    }

    /// A node and all below it get a node document, with the shadow trees of the hosts among them, and of those in these (DOM
    /// Standard, adopt: each shadow-including inclusive descendant). All shadow roots are found before the first change.
    pub(crate) fn set_document(&mut self, node: Key, document: Key) -> Result<(), AllocError>
        requires node_is_node { HoldsNode self.old node }
        requires document_is_node { HoldsNode self.old document }
        ensures { OnOk result (self.new ≡ stepped (owner_in self.old node) (set_document (name_in self.old node) (name_in self.old document)) self.old) }
    {
        let roots = roots_below(
            self.alloc,
            &self.trees.forest,
            &self.trees.slots,
            node,
            MAX_DEPTH,
        )?;
        set_documents(&mut self.trees.forest, node, document);
        set_each(&mut self.trees.forest, roots.as_slice(), document);
        Ok(())
    }
}
