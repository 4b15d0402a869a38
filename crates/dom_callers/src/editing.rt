//! A caller of `dom_mutation` and `dom_range_ops`: eleven calls in a row on one document.
ghost use Rattle.std.specs.Prelude.{◌≡◌, IfOk, OnOk};
ghost use Rattle.std.specs.Option.{ForSome};
ghost use Rattle.dom_base.specs.declared.Kind.TheVariants.{Text};
ghost use Rattle.dom_model.specs.Names.{node_of};
ghost use Rattle.dom_mutation.specs.Doc.{name_in, HoldsNode};
ghost use Rattle.dom_mutation.specs.Still.{HasStillAll};
ghost use Rattle.dom_callers.specs.Editing.{IsNodeOf, IsTextOf, IsTextToAdd, IsRangeOf};

use dom_base::{Fault, Owner};
use dom_mutation::{Doc, law_new_node, law_newly_there, law_still};
use dom_range_ops::{delete, extract, insert_node};
use dom_tree::NodeData;
use node_arena::Key;
use std::alloc::Global;

/// Writes a Text into an owner's paragraph, takes its first part out and puts it back, deletes it, and lets the Text that was written stand
/// for the rest of the text: eleven calls on one document, of which each asks what the ones before it promise. The answer is that
/// Text, and the number of the live range that went with it. `first` is the owner's first node. Refused as the calls are.
pub fn rewrite(
    alloc: Global,
    doc: &mut Doc,
    owner: Owner,
    first: Key,
    paragraph: Key,
    node: NodeData,
) -> Result<(Key, u32), Fault>
    requires paragraph { IsNodeOf doc.old owner paragraph }
    requires first_is_node { HoldsNode doc.old first }
    requires is_first { name_in doc.old first ≡ node_of owner 0 }
    requires is_text { node.kind ≡ Text }
    requires document_is_node { ForSome node.document (HoldsNode doc.old) }
    ensures still { OnOk result (HasStillAll doc.old doc.new) }
    ensures text { IfOk result (λ r. IsTextOf doc.new owner r.0) }
    ensures range { IfOk result (λ r. IsRangeOf doc.new owner r.1) }
{
    law_still();
    let written = write(doc, owner, paragraph, node)?;
    let (text, tail) = written;
    let range = select(doc, owner, first, text, tail)?;
    take_and_put_back(alloc, doc, owner, range)?;
    tidy(alloc, doc, owner, range, paragraph)?;
    doc.laws();
    doc.replace(paragraph, text, tail)?;
    doc.laws();
    Ok((text, range))
}

/// A new Text of an owner becomes a paragraph's last child, and is split behind its first code unit: the two Texts.
fn write(doc: &mut Doc, owner: Owner, paragraph: Key, node: NodeData) -> Result<(Key, Key), Fault>
    requires paragraph { IsNodeOf doc.old owner paragraph }
    requires node { IsTextToAdd doc.old node }
    ensures still { OnOk result (HasStillAll doc.old doc.new) }
    ensures text { IfOk result (λ r. IsTextOf doc.new owner r.0) }
    ensures tail { IfOk result (λ r. IsTextOf doc.new owner r.1) }
{
    law_still();
    law_new_node();
    let text = add_last(doc, owner, paragraph, node)?;
    doc.laws();
    let tail = doc.split(text, 1)?;
    doc.laws();
    Ok((text, tail))
}

/// A new Text of an owner becomes a paragraph's last child.
fn add_last(doc: &mut Doc, owner: Owner, paragraph: Key, node: NodeData) -> Result<Key, Fault>
    requires paragraph { IsNodeOf doc.old owner paragraph }
    requires node { IsTextToAdd doc.old node }
    ensures still { OnOk result (HasStillAll doc.old doc.new) }
    ensures text { IfOk result (λ text. IsTextOf doc.new owner text) }
{
    doc.laws();
    law_still();
    law_new_node();
    let text = doc.add(owner, node)?;
    doc.laws();
    doc.insert(paragraph, text, None)?;
    doc.laws();
    Ok(text)
}

/// A new live range of an owner, from the beginning of a Text to behind the first code unit of another one. Refused with `IndexSize`
/// where that one is empty.
fn select(doc: &mut Doc, owner: Owner, first: Key, text: Key, tail: Key) -> Result<u32, Fault>
    requires first_is_node { HoldsNode doc.old first }
    requires is_first { name_in doc.old first ≡ node_of owner 0 }
    requires text { IsNodeOf doc.old owner text }
    requires tail { IsNodeOf doc.old owner tail }
    ensures still { OnOk result (HasStillAll doc.old doc.new) }
    ensures range { IfOk result (λ number. IsRangeOf doc.new owner number) }
{
    law_still();
    law_newly_there();
    let range = doc.range_make(owner, first)?;
    doc.range_set_start(owner, range, text, 0)?;
    doc.range_set_end(owner, range, tail, 1)?;
    Ok(range)
}

/// What is in a live range goes into a fragment, and comes back.
fn take_and_put_back(alloc: Global, doc: &mut Doc, owner: Owner, range: u32) -> Result<(), Fault>
    requires range { IsRangeOf doc.old owner range }
    ensures still { OnOk result (HasStillAll doc.old doc.new) }
    ensures range { OnOk result (IsRangeOf doc.new owner range) }
{
    law_still();
    law_new_node();
    doc.laws();
    let taken = extract(alloc, doc, owner, range)?;
    doc.laws();
    insert_node(doc, owner, range, taken)?;
    doc.laws();
    Ok(())
}

/// What is in a live range goes, and empty Texts below a node with it.
fn tidy(alloc: Global, doc: &mut Doc, owner: Owner, range: u32, top: Key) -> Result<(), Fault>
    requires range { IsRangeOf doc.old owner range }
    requires top { IsNodeOf doc.old owner top }
    ensures still { OnOk result (HasStillAll doc.old doc.new) }
{
    law_still();
    doc.laws();
    delete(alloc, doc, owner, range)?;
    doc.laws();
    doc.normalize(top)?;
    doc.laws();
    Ok(())
}
