//! Removal and adoption (DOM Standard, concepts: remove, adopt).
ghost use Rattle.std.specs.Prelude.{◌≡◌, Some, OnOk};
ghost use Rattle.dom_model.specs.Changes.{remove_plan, adopt_plan};
ghost use Rattle.dom_mutation.specs.Doc.{planned, name_in, owner_in, HoldsNode};
ghost use Rattle.dom_mutation.specs.Observing.{observing_of};

use crate::documents::change_document;
use crate::parts::Parts;
use node_arena::Key;
use std::alloc::AllocError;

/// Whether observers are told of a removal or an insertion (DOM Standard, suppress observers flag).
#[derive(Clone, Copy)]
pub(crate) enum SuppressObserversFlag {
    Observed,
    Suppressed,
}

/// A removal, of which observers are told or not.
#[inline(always)]
pub(crate) fn removing(
    parts: &mut Parts,
    how: SuppressObserversFlag,
    node: Key,
) -> Result<(), AllocError>
    requires { HoldsNode parts.old node }
    ensures { OnOk result (parts.new ≡ planned (owner_in parts.old node) (remove_plan (observing_of how) (name_in parts.old node)) parts.old) }
{
    let Some(parent) = parts.parent(node) else {
        return Ok(());
    };
    let prev = parts.prev(node);
    let next = parts.next(node);
    parts.take_out(node)?;
    if matches!(how, SuppressObserversFlag::Observed) {
        parts.queue_tree_record(parent, &[], &[node], prev, next)?;
    }
    Ok(())
}

/// A node leaves its parent and gets a node document, with all below it.
#[inline(always)]
pub(crate) fn adopting(parts: &mut Parts, document: Key, node: Key) -> Result<(), AllocError>
    requires document_is_node { HoldsNode parts.old document }
    requires node_is_node { HoldsNode parts.old node }
    ensures { OnOk result (parts.new ≡ planned (owner_in parts.old node) (adopt_plan (name_in parts.old document) (name_in parts.old node)) parts.old) }
{
    parts.laws();
    removing(parts, SuppressObserversFlag::Observed, node)?;
    change_document(parts, document, node)
}
