//! Node documents (DOM Standard, concepts: node document, adopt).
ghost use Rattle.std.specs.Prelude.{◌≡◌, OnOk};
ghost use Rattle.dom_model.specs.Steps.{set_document};
ghost use Rattle.dom_model.specs.Changes.{changing_document, document_below, has_document};
ghost use Rattle.dom_mutation.specs.Doc.{name_in, owner_in, trees_in, planned, HoldsNode};

use crate::parts::Parts;
use dom_base::Kind;
use node_arena::Key;
use std::alloc::AllocError;

/// The node document of what is below a node.
pub(crate) fn document_below(parts: &Parts, node: Key) -> Key
    requires { HoldsNode parts.now node }
    ensures value { name_in parts.now result ≡ document_below (trees_in parts.now node) (name_in parts.now node) }
    ensures node { HoldsNode parts.now result }
{
    if matches!(parts.kind(node), Kind::Document) {
        return node;
    }
    parts.document(node).unwrap_or(node)
}

/// A node with another node document gets this one, with all below it.
pub(crate) fn change_document(parts: &mut Parts, document: Key, node: Key) -> Result<(), AllocError>
    requires document_is_node { HoldsNode parts.old document }
    requires node_is_node { HoldsNode parts.old node }
    ensures { OnOk result (parts.new ≡ planned (owner_in parts.old node) (changing_document (name_in parts.old document) (name_in parts.old node)) parts.old) }
{
    if !has_document(parts, node, document) {
        parts.set_document(node, document)?;
    }
    Ok(())
}

/// Whether a node has another one for its node document.
fn has_document(parts: &Parts, node: Key, document: Key) -> bool
    requires node_is_node { HoldsNode parts.now node }
    requires document_is_node { HoldsNode parts.now document }
    ensures { result ≡ has_document (trees_in parts.now node) (name_in parts.now document) (name_in parts.now node) }
{
    parts.laws();
    match parts.document(node) {
        Some(own) => own == document,
        None => false,
    }
}
