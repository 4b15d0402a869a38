//! The text of a node (DOM Standard, textContent; concept: string replace all).
ghost use Rattle.std.specs.Prelude.{◌≡◌, ◌↔◌, ◌⊎◌, ◌++◌, ◌||◌, [], true, false, IfErr, OnOk, if◌then◌else◌};
ghost use Rattle.dom_base.specs.declared.Refusal.TheVariants.{Limit};
ghost use Rattle.dom_model.specs.Names.{is_empty};
ghost use Rattle.dom_model.specs.Tree.{kind_of, has_data, is_document, is_inclusive_ancestor};
ghost use Rattle.dom_model.specs.TextChanges.{replacing_children};
ghost use Rattle.dom_model.specs.World.{part_of};
ghost use Rattle.dom_model.specs.CommandRefusals.{past_limit};
ghost use Rattle.dom_worlds.specs.Bounds.{HasBounds};
ghost use Rattle.dom_mutation.specs.Ready.{IsReady};
ghost use Rattle.dom_mutation.specs.Doc.{made, name_in, owner_in, trees_in, planned, children_texts, putting_text, HoldsNode};

use crate::documents::document_below;
use crate::inserting::{children, inserting, take_each};
use crate::parts::Parts;
use crate::removing::SuppressObserversFlag;
use crate::settling::given_up;
use crate::splitting::make_text;
use dom_base::{DomStr, Fault};
use node_arena::Key;
use std::alloc::AllocError;

/// The children of a node give way to one new Text with these data, or to none where these are none. Where memory is refused, all is given up.
pub(crate) fn replace_children(parts: &mut Parts, node: Key, units: DomStr) -> Result<(), Fault>
    requires node_is_node { HoldsNode parts.old node }
    requires inner { (has_data (kind_of (trees_in parts.old node) (name_in parts.old node)) || is_document
        (kind_of (trees_in parts.old node) (name_in parts.old node))) ≡ false }
    requires ready { IsReady parts.old }
    ensures names { OnOk result (parts.new.names ≡ parts.old.names ++ children_texts (part_of parts.old.world (owner_in parts.old node)) units.items) }
    ensures world { OnOk result (parts.new.world ≡ made (owner_in parts.old node) (replacing_children (name_in parts.old node) units.items) parts.old.world) }
    ensures limit { (result ≡ Err (Fault.Refused Limit)) ↔
        (past_limit (part_of parts.old.world (owner_in parts.old node)).node_count (if is_empty units.items then 0 else 1) ≡ true) }
    ensures other { IfErr result (λ fault. (fault ≡ Fault.Refused Limit) ⊎ (fault ≡ Fault.Memory)) }
    ensures unchanged { result ≡ Err (Fault.Refused Limit) → parts.new ≡ parts.old }
    ensures ready { IsReady parts.new }
{
    parts.laws();
    if units.as_slice().is_empty() {
        match clear(parts, node) {
            Ok(()) => return Ok(()),
            Err(error) => return Err(Fault::from(given_up(parts, error))),
        }
    }
    let document = document_below(parts, node);
    let text = make_text(parts, node, Some(document), units)?;
    parts.laws();
    match put_text(parts, node, text) {
        Ok(()) => Ok(()),
        Err(error) => Err(Fault::from(given_up(parts, error))),
    }
}

/// A node loses its children, of which observers are told once.
fn clear(parts: &mut Parts, node: Key) -> Result<(), AllocError>
    requires { HoldsNode parts.old node }
    ensures { OnOk result (parts.new ≡ planned (owner_in parts.old node) (replacing_children (name_in parts.old node) []) parts.old) }
{
    parts.laws();
    let children = children(parts, node)?;
    take_each(
        parts,
        SuppressObserversFlag::Suppressed,
        node,
        children.as_slice(),
    )?;
    if children.as_slice().is_empty() {
        return Ok(());
    }
    parts.queue_tree_record(node, &[], children.as_slice(), None, None)
}

/// The children of a node give way to a Text that was made, of which observers are told once.
fn put_text(parts: &mut Parts, node: Key, text: Key) -> Result<(), AllocError>
    requires node_is_node { HoldsNode parts.old node }
    requires text_is_node { HoldsNode parts.old text }
    requires one_owner { owner_in parts.old text ≡ owner_in parts.old node }
    requires not_above { is_inclusive_ancestor (trees_in parts.old node) (name_in parts.old text) (name_in parts.old node) ≡ false }
    requires bounds { HasBounds (part_of parts.old.world (owner_in parts.old node)) }
    ensures { OnOk result (parts.new ≡ planned (owner_in parts.old node) (putting_text (name_in parts.old node) (name_in parts.old text)) parts.old) }
{
    parts.laws();
    let children = children(parts, node)?;
    take_each(
        parts,
        SuppressObserversFlag::Suppressed,
        node,
        children.as_slice(),
    )?;
    inserting(parts, SuppressObserversFlag::Suppressed, text, node, None)?;
    parts.queue_tree_record(node, &[text], children.as_slice(), None, None)
}
