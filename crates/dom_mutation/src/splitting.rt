//! The splitting of a Text (DOM Standard, concept: split a Text node).
ghost use Rattle.std.specs.Prelude.{◌≡◌, ◌↔◌, ◌⊎◌, ◌++◌, ◌∷◌, [], length, drop, true, false, IfOk, IfErr, OnOk, OnErr, Some, None};
ghost use Rattle.std.specs.Option.{option_map, ForSome};
ghost use Rattle.dom_base.specs.declared.Refusal.{Refusal as RefusalOf};
ghost use Rattle.dom_base.specs.declared.Refusal.TheVariants.{IndexSize, Limit};
ghost use Rattle.dom_model.specs.Tree.{parent_of, is_inclusive_ancestor, index_of, node_in, kind_of, is_text};
ghost use Rattle.dom_model.specs.Part.{next_name};
ghost use Rattle.dom_model.specs.Steps.{make};
ghost use Rattle.dom_model.specs.Changes.{doing};
ghost use Rattle.dom_model.specs.TextChanges.{new_text_node, placing_tail, splitting};
ghost use Rattle.dom_model.specs.World.{part_of};
ghost use Rattle.dom_model.specs.CommandRefusals.{past_end, past_limit};
ghost use Rattle.dom_worlds.specs.Bounds.{HasBounds};
ghost use Rattle.dom_mutation.specs.Ready.{IsReady};
ghost use Rattle.dom_mutation.specs.Doc.{made, planned, name_in, owner_in, trees_in, IsChild, splitting_refusal, cutting_tail, HoldsNode};

use crate::character_data::replacing_data;
use crate::inserting::inserting;
use crate::parts::{DataChange, Parts};
use crate::removing::SuppressObserversFlag;
use crate::settling::given_up;
use dom_base::{DomStr, Fault, Kind, Refusal};
use dom_tree::NodeData;
use indexmap::IndexMap;
use node_arena::Key;
use std::alloc::AllocError;

/// The code units of a Text from an offset on go into a new Text just behind it, which is the answer (DOM Standard,
/// split a Text node). Refused with `IndexSize` where the offset is past the node's length, and with `Limit` where the
/// owner has as many nodes as it may. Where memory is refused, nothing is changed, or all is given up.
pub(crate) fn split(parts: &mut Parts, node: Key, offset: usize) -> Result<Key, Fault>
    requires node_is_node { HoldsNode parts.old node }
    requires text { is_text (kind_of (trees_in parts.old node) (name_in parts.old node)) ≡ true }
    requires ready { IsReady parts.old }
    ensures key { IfOk result (λ key. key ≡ length parts.old.names) }
    ensures names { OnOk result (parts.new.names ≡ parts.old.names ++ next_name (part_of parts.old.world (owner_in parts.old node)) ∷ []) }
    ensures world { OnOk result (parts.new.world ≡ made (owner_in parts.old node) (splitting (name_in parts.old node) offset) parts.old.world) }

    // A refusal is one of these, in their order, and changes nothing; nothing else but memory stops a split.
    ensures index { (result ≡ Err (Fault.Refused IndexSize)) ↔
        (past_end (part_of parts.old.world (owner_in parts.old node)) (name_in parts.old node) offset ≡ true) }
    ensures refused { (r : RefusalOf) → result ≡ Err (Fault.Refused r) →
        splitting_refusal (part_of parts.old.world (owner_in parts.old node)) (name_in parts.old node) offset ≡ Some r }
    ensures stopped { (r : RefusalOf) → splitting_refusal (part_of parts.old.world (owner_in parts.old node)) (name_in parts.old node)
        offset ≡ Some r → (result ≡ Err (Fault.Refused r)) ⊎ (result ≡ Err Fault.Memory) }
    ensures unchanged { (r : RefusalOf) → result ≡ Err (Fault.Refused r) → parts.new ≡ parts.old }
    ensures ready { IsReady parts.new }
{
    if offset > parts.length(node) {
        return Err(Fault::Refused(Refusal::IndexSize));
    }
    parts.laws();
    let document = parts.document(node);
    let count = parts.text(node).len().saturating_sub(offset);
    let tail = tail(parts, node, offset)?;
    let new = make_text(parts, node, document, tail)?;
    parts.laws();
    match cut_tail(parts, node, offset, count, new) {
        Ok(()) => Ok(new),
        Err(error) => Err(Fault::from(given_up(parts, error))),
    }
}

/// The code units of a Text from an offset on.
fn tail(parts: &Parts, node: Key, offset: usize) -> Result<DomStr, AllocError>
    requires { HoldsNode parts.now node }
    ensures { IfOk result (λ units. units.items ≡ drop offset (node_in (trees_in parts.now node) (name_in parts.now node)).text) }
{
    let text = parts.text(node);
    let (_, tail) = text.split_at(offset.min(text.len()));
    Vec::from_slice(parts.alloc(), tail)
}

/// A new Text of the owner of a node, with a node document and data.
pub(crate) fn make_text(
    parts: &mut Parts,
    like: Key,
    document: Option<Key>,
    units: DomStr,
) -> Result<Key, Fault>
    requires node_is_node { HoldsNode parts.old like }
    requires document_is_node { ForSome document (HoldsNode parts.old) }
    ensures key { IfOk result (λ key. key ≡ length parts.old.names) }
    ensures names { OnOk result (parts.new.names ≡ parts.old.names ++ next_name (part_of parts.old.world (owner_in parts.old like)) ∷ []) }
    ensures world { OnOk result (parts.new.world ≡ made (owner_in parts.old like)
        (doing (make (new_text_node (next_name (part_of parts.old.world (owner_in parts.old like))) (option_map (name_in parts.old) document)
        units.items))) parts.old.world) }
    ensures limit { (result ≡ Err (Fault.Refused Limit)) ↔ (past_limit (part_of parts.old.world (owner_in parts.old like)).node_count 1 ≡ true) }
    ensures other { IfErr result (λ fault. (fault ≡ Fault.Refused Limit) ⊎ (fault ≡ Fault.Memory)) }
    ensures err { OnErr result (parts.new ≡ parts.old) }
{
    parts.laws();
    let owner = parts.owner(like);
    let node = NodeData {
        kind: Kind::Text,
        element: String::new(parts.alloc()),
        attributes: IndexMap::new(parts.alloc()),
        text: units,
        document,
    };
    parts.add(owner, node)
}

/// The new Text is placed just behind the one that was split, where that has a parent, and the tail is cut off.
fn cut_tail(
    parts: &mut Parts,
    node: Key,
    offset: usize,
    count: usize,
    new: Key,
) -> Result<(), AllocError>
    requires node_is_node { HoldsNode parts.old node }
    requires new_is_node { HoldsNode parts.old new }
    requires one_owner { owner_in parts.old new ≡ owner_in parts.old node }
    requires unlinked { parent_of (trees_in parts.old node) (name_in parts.old new) ≡ None }
    requires not_above { is_inclusive_ancestor (trees_in parts.old node) (name_in parts.old new) (name_in parts.old node) ≡ false }
    requires bounds { HasBounds (part_of parts.old.world (owner_in parts.old node)) }
    ensures { OnOk result (parts.new ≡ planned (owner_in parts.old node)
        (cutting_tail (name_in parts.old node) offset count (name_in parts.old new)) parts.old) }
{
    parts.laws();
    if let Some(parent) = parts.parent(node) {
        placing_tail(parts, node, offset, new, parent)?;
    }
    let none = Vec::new(parts.alloc());
    let change = DataChange {
        offset,
        count,
        units: none,
    };
    replacing_data(parts, node, change)
}

/// The new Text is placed just behind the one that was split, a child of this parent.
fn placing_tail(
    parts: &mut Parts,
    node: Key,
    offset: usize,
    new: Key,
    parent: Key,
) -> Result<(), AllocError>
    requires new_is_node { HoldsNode parts.old new }
    requires parent_is_node { HoldsNode parts.old parent }
    requires node_is_child { IsChild parts.old parent node }
    requires one_owner { owner_in parts.old new ≡ owner_in parts.old parent }
    requires unlinked { parent_of (trees_in parts.old node) (name_in parts.old new) ≡ None }
    requires not_above { is_inclusive_ancestor (trees_in parts.old node) (name_in parts.old new) (name_in parts.old node) ≡ false }
    requires bounds { HasBounds (part_of parts.old.world (owner_in parts.old node)) }
    ensures { OnOk result (parts.new ≡ planned (owner_in parts.old node)
        (placing_tail (name_in parts.old node) offset (name_in parts.old new) (Some (name_in parts.old parent))) parts.old) }
{
    let index = parts.index_remembered(node);
    placing_at(parts, node, offset, new, parent, index)
}

/// The new Text is placed just behind the one that was split, the child of this parent at an index.
fn placing_at(
    parts: &mut Parts,
    node: Key,
    offset: usize,
    new: Key,
    parent: Key,
    index: usize,
) -> Result<(), AllocError>
    requires new_is_node { HoldsNode parts.old new }
    requires parent_is_node { HoldsNode parts.old parent }
    requires node_is_child { IsChild parts.old parent node }
    requires one_owner { owner_in parts.old new ≡ owner_in parts.old parent }
    requires unlinked { parent_of (trees_in parts.old node) (name_in parts.old new) ≡ None }
    requires not_above { is_inclusive_ancestor (trees_in parts.old node) (name_in parts.old new) (name_in parts.old node) ≡ false }
    requires bounds { HasBounds (part_of parts.old.world (owner_in parts.old node)) }
    requires at_index { index ≡ index_of (trees_in parts.old node) (name_in parts.old node) }
    ensures { OnOk result (parts.new ≡ planned (owner_in parts.old node)
        (placing_tail (name_in parts.old node) offset (name_in parts.old new) (Some (name_in parts.old parent))) parts.old) }
{
    parts.laws();
    let next = parts.next(node);
    inserting(parts, SuppressObserversFlag::Observed, new, parent, next)?;
    parts.split_at(node, offset, new, parent, index);
    Ok(())
}
