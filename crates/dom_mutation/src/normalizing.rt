//! Normalization (DOM Standard, normalize(); concept: contiguous exclusive Text nodes).
ghost use Rattle.std.specs.Prelude.{◌≡◌, ◌≢◌, ◌&&◌, ◌++◌, ◌∷◌, [], map, filter, flat_map, true, IfOk, OnOk, Some, if◌then◌else◌};
ghost use Rattle.std.specs.List.{AllByRecursion};
ghost use Rattle.std.specs.Option.{option_map, ForSome};
ghost use Rattle.dom_model.specs.Names.{first_of};
ghost use Rattle.dom_model.specs.Tree.{kind_of, is_text, node_in, parent_of, length_of, descendants};
ghost use Rattle.dom_model.specs.Changes.{in_turn, observed, remove_plan};
ghost use Rattle.dom_model.specs.TextChanges.{contiguous_texts_after, joining, normalizing_text, replacing_data};
ghost use Rattle.dom_model.specs.World.{part_of};
ghost use Rattle.dom_worlds.specs.Bounds.{HasBounds};
ghost use Rattle.dom_worlds.specs.Texts.{needs_normalizing};
ghost use Rattle.dom_base.specs.declared.Owner.{Owner as OwnerOf};
ghost use Rattle.dom_tree.specs.Owners.{trees_of_owner, AreOwned};
ghost use Rattle.dom_tree.specs.Spots.{name_here};
ghost use Rattle.dom_mutation.specs.Doc.{planned, name_in, owner_in, trees_in, IsOwnNode, HoldsNode};

use crate::character_data::{appending_data, replacing_data};
use crate::inserting::take_each;
use crate::parts::{DataChange, Parts};
use crate::removing::{SuppressObserversFlag, removing};
use dom_base::{DomStr, Kind};
use dom_tree::{Forest, NodeAt};
use node_arena::Key;
use smallvec::SmallVec;
use std::alloc::AllocError;

/// Some Texts are normalized, one after another.
pub(crate) fn normalize_each(parts: &mut Parts, top: Key, texts: &[Key]) -> Result<(), AllocError>
    requires top_is_node { HoldsNode parts.old top }
    requires texts_are_nodes { AllByRecursion (IsOwnNode parts.old top) texts.now }
    requires are_texts { AllByRecursion (λ k. is_text (kind_of (trees_in parts.old top) (name_in parts.old k)) ≡ true) texts.now }
    requires bounds { HasBounds (part_of parts.old.world (owner_in parts.old top)) }
    ensures { OnOk result (parts.new ≡ planned (owner_in parts.old top) (in_turn normalizing_text (map (name_in parts.old) texts.now)) parts.old) }
{
    parts.laws();
    for text in texts {
        normalize_text(parts, *text)?;
    }
    Ok(())
}

/// A Text without data leaves, and another one is joined with those after it, if there are some.
#[inline(always)]
fn normalize_text(parts: &mut Parts, node: Key) -> Result<(), AllocError>
    requires node_is_node { HoldsNode parts.old node }
    requires is_text { is_text (kind_of (trees_in parts.old node) (name_in parts.old node)) ≡ true }
    requires bounds { HasBounds (part_of parts.old.world (owner_in parts.old node)) }
    ensures { OnOk result (parts.new ≡ planned (owner_in parts.old node) (normalizing_text (name_in parts.old node)) parts.old) }
{
    if parts.length(node) == 0 {
        return removing_text(parts, node);
    }
    let Some(next) = text_after(parts, node) else {
        return Ok(());
    };
    join_next(parts, node, next)
}

/// A Text leaves.
#[inline(never)]
fn removing_text(parts: &mut Parts, node: Key) -> Result<(), AllocError>
    requires { HoldsNode parts.old node }
    ensures { OnOk result (parts.new ≡ planned (owner_in parts.old node) (remove_plan observed (name_in parts.old node)) parts.old) }
{
    removing(parts, SuppressObserversFlag::Observed, node)
}

/// A Text with data is joined with those after it, of which the first is given. Where that is the only one, no list of them is made.
#[inline(never)]
fn join_next(parts: &mut Parts, node: Key, next: Key) -> Result<(), AllocError>
    requires node_is_node { HoldsNode parts.old node }
    requires next_is_node { IsOwnNode parts.old node next }
    requires is_text { is_text (kind_of (trees_in parts.old node) (name_in parts.old node)) ≡ true }
    requires has_data { length_of (trees_in parts.old node) (name_in parts.old node) ≢ 0 }
    requires is_next { first_of (contiguous_texts_after (trees_in parts.old node) (name_in parts.old node)) ≡ Some (name_in parts.old next) }
    requires bounds { HasBounds (part_of parts.old.world (owner_in parts.old node)) }
    ensures { OnOk result (parts.new ≡ planned (owner_in parts.old node) (normalizing_text (name_in parts.old node)) parts.old) }
{
    parts.laws();
    let Some(parent) = parts.parent(node) else {
        return Ok(());
    };
    let Some(_) = text_after(parts, next) else {
        return joining(parts, node, parent, &[next]);
    };
    let nexts = texts_after(parts, node)?;
    joining(parts, node, parent, nexts.as_slice())
}

/// A Text gets the data of others, which then leave.
fn joining(parts: &mut Parts, node: Key, parent: Key, nexts: &[Key]) -> Result<(), AllocError>
    requires node_is_node { HoldsNode parts.old node }
    requires nexts_are_nodes { AllByRecursion (IsOwnNode parts.old node) nexts.now }
    requires is_text { is_text (kind_of (trees_in parts.old node) (name_in parts.old node)) ≡ true }
    requires is_parent { parent_of (trees_in parts.old node) (name_in parts.old node) ≡ Some (name_in parts.old parent) }
    requires parent_is_node { HoldsNode parts.old parent }
    requires parent_owner { owner_in parts.old parent ≡ owner_in parts.old node }
    requires are_nexts { map (name_in parts.old) nexts.now ≡ contiguous_texts_after (trees_in parts.old node) (name_in parts.old node) }
    requires bounds { HasBounds (part_of parts.old.world (owner_in parts.old node)) }
    ensures { OnOk result (parts.new ≡ planned (owner_in parts.old node)
        (joining (name_in parts.old node) (name_in parts.old parent) (map (name_in parts.old) nexts.now)) parts.old) }
{
    parts.laws();
    let size = parts.length(node);
    gather(parts, node, nexts)?;
    parts.join_each(node, size, nexts, parent);
    take_each(parts, SuppressObserversFlag::Observed, node, nexts)
}

/// A Text gets the data of others behind its own. Those of one other are not copied into a string.
fn gather(parts: &mut Parts, node: Key, nexts: &[Key]) -> Result<(), AllocError>
    requires node_is_node { HoldsNode parts.old node }
    requires nexts_are_nodes { AllByRecursion (IsOwnNode parts.old node) nexts.now }
    requires is_text { is_text (kind_of (trees_in parts.old node) (name_in parts.old node)) ≡ true }
    requires bounds { HasBounds (part_of parts.old.world (owner_in parts.old node)) }
    ensures { OnOk result (parts.new ≡ planned (owner_in parts.old node) (replacing_data (name_in parts.old node)
        (length_of (trees_in parts.old node) (name_in parts.old node)) 0
        (flat_map (λ y. (node_in (trees_in parts.old node) y).text) (map (name_in parts.old) nexts.now))) parts.old) }
{
    if let [only] = nexts {
        return appending_data(parts, node, *only);
    }
    let change = DataChange {
        offset: parts.length(node),
        count: 0,
        units: data_of(parts, node, nexts)?,
    };
    replacing_data(parts, node, change)
}

/// The data of some Texts, one behind another; `top` is a node of their owner.
fn data_of(parts: &Parts, top: Key, texts: &[Key]) -> Result<DomStr, AllocError>
    requires { AllByRecursion (IsOwnNode parts.now top) texts.now }
    ensures { IfOk result (λ units. units.items ≡ flat_map (λ y. (node_in (trees_in parts.now top) y).text) (map (name_in parts.now) texts.now)) }
{
    let mut units = Vec::new(parts.alloc());
    for text in texts {
        units.extend_from_slice(parts.text(*text))?;
    }
    Ok(units)
}

/// The Texts directly after a Text.
fn texts_after(parts: &Parts, node: Key) -> Result<Vec<Key>, AllocError>
    requires { HoldsNode parts.now node }
    ensures names { IfOk result (λ keys. map (name_in parts.now) keys.items ≡ contiguous_texts_after (trees_in parts.now node) (name_in parts.now node)) }
    ensures nodes { IfOk result (λ keys. AllByRecursion (IsOwnNode parts.now node) keys.items) }
{
    parts.laws();
    let mut keys = Vec::new(parts.alloc());
    let mut at = text_after(parts, node);
    while let Some(text) = at {
        keys.push(text)?;
        at = text_after(parts, text);
    }
    Ok(keys)
}

/// The sibling just after a node, where it is a Text.
fn text_after(parts: &Parts, node: Key) -> Option<Key>
    requires { HoldsNode parts.now node }
    ensures value { option_map (name_in parts.now) result ≡ first_of (contiguous_texts_after (trees_in parts.now node) (name_in parts.now node)) }
    ensures node { ForSome result (IsOwnNode parts.now node) }
{
    let next = parts.next(node)?;
    if is_text(parts, next) {
        return Some(next);
    }
    None
}

/// Whether a node is a Text.
fn is_text(parts: &Parts, node: Key) -> bool
    requires { HoldsNode parts.now node }
    ensures { result ≡ is_text (kind_of (trees_in parts.now node) (name_in parts.now node)) }
{
    matches!(parts.kind(node), Kind::Text)
}

/// The Texts below a node that normalization changes, in tree order.
pub(crate) fn texts_below(parts: &Parts, top: Key) -> Result<SmallVec<Key, 8>, AllocError>
    requires { HoldsNode parts.now top }
    ensures names { IfOk result (λ keys. map (name_in parts.now) keys.items ≡ filter
        (λ y. is_text (kind_of (trees_in parts.now top) y) && needs_normalizing (trees_in parts.now top) y)
        (descendants (trees_in parts.now top) (name_in parts.now top))) }
    ensures nodes { IfOk result (λ keys. AllByRecursion (IsOwnNode parts.now top) keys.items) }
{
    texts_in(parts, parts.forest(), top)
}

/// The Texts below a node that normalization changes, in tree order, where the forest is given.
fn texts_in(parts: &Parts, forest: &Forest, top: Key) -> Result<SmallVec<Key, 8>, AllocError>
    requires top_is_node { HoldsNode parts.now top }
    requires names { forest.now.names ≡ parts.now.names }
    requires trees { (o : OwnerOf) → trees_of_owner o forest.now.trees ≡ (part_of parts.now.world o).trees }
    requires owned { AreOwned forest.now.trees }
    ensures names { IfOk result (λ keys. map (name_in parts.now) keys.items ≡ filter
        (λ y. is_text (kind_of (trees_in parts.now top) y) && needs_normalizing (trees_in parts.now top) y)
        (descendants (trees_in parts.now top) (name_in parts.now top))) }
    ensures nodes { IfOk result (λ keys. AllByRecursion (IsOwnNode parts.now top) keys.items) }
{
    parts.laws();
    let mut keys = SmallVec::new(parts.alloc());
    let mut at = forest.at(top).following(top);
    while let Some(node) = at {
        if is_text_at(&node) {
            list_needed(&mut keys, &node)?;
        }
        at = node.following(top);
    }
    Ok(keys)
}

/// A Text is listed where normalization changes it.
#[inline(always)]
fn list_needed(keys: &mut SmallVec<Key, 8>, text: &NodeAt) -> Result<(), AllocError>
    ensures { OnOk result (keys.new.items ≡ keys.old.items ++
        (if needs_normalizing text.now.whole.trees (name_here text.now) then text.now.key ∷ [] else [])) }
{
    if needs_normalizing(text) {
        keys.push(text.key())?;
    }
    Ok(())
}

/// Whether a Text has no data, or a Text directly behind it.
#[inline(always)]
fn needs_normalizing(text: &NodeAt) -> bool
    ensures { result ≡ needs_normalizing text.now.whole.trees (name_here text.now) }
{
    if text.text().is_empty() {
        return true;
    }
    match text.next() {
        Some(next) => is_text_at(&next),
        None => false,
    }
}

/// Whether a node is a Text, where it lies.
#[inline(always)]
fn is_text_at(node: &NodeAt) -> bool
    ensures { result ≡ is_text (kind_of node.now.whole.trees (name_here node.now)) }
{
    matches!(node.kind(), Kind::Text)
}
