//! Insertion (DOM Standard, concepts: ensure pre-insert validity, pre-insert, insert).
ghost use Rattle.std.specs.Prelude.{◌≡◌, ◌≤◌, length, false, true, map, [], IfOk, OnOk, Some};
ghost use Rattle.std.specs.List.{AllByRecursion};
ghost use Rattle.dom_base.specs.declared.NodeName.{NodeName as Name};
ghost use Rattle.std.specs.Option.{option_map, ForSome};
ghost use Rattle.dom_model.specs.Names.{name_eq};
ghost use Rattle.dom_model.specs.Tree.{kind_of, is_fragment, children_of, inclusive_ancestors};
ghost use Rattle.dom_model.specs.Changes.{reference_child, insert_plan, sibling_before, in_turn, making_room, steps_of, telling};
ghost use Rattle.dom_model.specs.Changes.{placing, emptying, remove_plan};
ghost use Rattle.dom_model.specs.World.{part_of};
ghost use Rattle.dom_worlds.specs.Bounds.{HasBounds};
ghost use Rattle.dom_model.specs.Output.{child_list};
ghost use Rattle.dom_mutation.specs.Doc.{AreNodes, IsNodeIf, planned, placed_all, name_in, owner_in, trees_in, MayMove, IsChild, KeepsPaths, NoneAbove};
ghost use Rattle.dom_mutation.specs.Doc.{HoldsNode};
ghost use Rattle.dom_mutation.specs.Observing.{observing_of};

use crate::documents::document_below;
use crate::parts::Parts;
use crate::removing::{SuppressObserversFlag, adopting, removing};
use dom_base::Kind;
use node_arena::Key;
use smallvec::SmallVec;
use std::alloc::AllocError;

/// The Standard's *reference child*, before which a node is put: the child given, or the node's next sibling where that is the node
/// itself (DOM Standard, pre-insert).
pub(crate) fn reference_child(
    parts: &Parts,
    parent: Key,
    node: Key,
    child: Option<Key>,
) -> Option<Key>
    requires parent_is_node { HoldsNode parts.now parent }
    requires node_is_node { HoldsNode parts.now node }
    requires child_is_child { ForSome child (IsChild parts.now parent) }
    ensures value { option_map (name_in parts.now) result ≡ reference_child (trees_in parts.now parent) (name_in parts.now node)
        (option_map (name_in parts.now) child) }
    ensures child { ForSome result (IsChild parts.now parent) }
    ensures apart { ForSome result (λ b. name_eq (name_in parts.now node) (name_in parts.now b) ≡ false) }
{
    parts.laws();
    let child = child?;
    if child == node {
        return parts.next(node);
    }
    Some(child)
}

/// An insertion, of which observers are told or not.
pub(crate) fn inserting(
    parts: &mut Parts,
    how: SuppressObserversFlag,
    node: Key,
    parent: Key,
    before: Option<Key>,
) -> Result<(), AllocError>
    requires parent_is_node { HoldsNode parts.old parent }
    requires may_move { MayMove parts.old parent before node }
    requires before_is_child { ForSome before (IsChild parts.old parent) }
    requires bounds { HasBounds (part_of parts.old.world (owner_in parts.old parent)) }
    ensures { OnOk result (parts.new ≡ planned (owner_in parts.old parent)
        (insert_plan (observing_of how) (name_in parts.old node) (name_in parts.old parent) (option_map (name_in parts.old) before)) parts.old) }
{
    // An `Option<Key>` that is passed on and used again is passed under a second name, since the first one counts as lent.
    let child = before;
    let prev = sibling_before(parts, parent, child);
    if is_fragment(parts, node) {
        let children = children(parts, node)?;
        return insert_children(parts, how, node, children.as_slice(), parent, before, prev);
    }
    parts.laws();
    place_all(parts, how, &[node], parent, before, prev)
}

/// Whether a node is a fragment.
pub(crate) fn is_fragment(parts: &Parts, node: Key) -> bool
    requires { HoldsNode parts.now node }
    ensures { result ≡ is_fragment (kind_of (trees_in parts.now node) (name_in parts.now node)) }
{
    matches!(parts.kind(node), Kind::Fragment)
}

/// The children of a fragment are inserted.
fn insert_children(
    parts: &mut Parts,
    how: SuppressObserversFlag,
    fragment: Key,
    children: &[Key],
    parent: Key,
    before: Option<Key>,
    prev: Option<Key>,
) -> Result<(), AllocError>
    requires parent_is_node { HoldsNode parts.old parent }
    requires may_move { MayMove parts.old parent before fragment }
    requires before_is_child { ForSome before (IsChild parts.old parent) }
    requires is_fragment { is_fragment (kind_of (trees_in parts.old fragment) (name_in parts.old fragment)) ≡ true }
    requires prev_is_before { option_map (name_in parts.old) prev ≡ sibling_before (trees_in parts.old parent) (name_in parts.old parent)
        (option_map (name_in parts.old) before) }
    requires are_children { map (name_in parts.old) children.now ≡ children_of (trees_in parts.old fragment) (name_in parts.old fragment) }
    requires are_nodes { AllByRecursion (λ k. (HoldsNode parts.old k) × (owner_in parts.old k ≡ owner_in parts.old fragment)) children.now }
    requires prev_is_node { IsNodeIf parts.old prev }
    requires bounds { HasBounds (part_of parts.old.world (owner_in parts.old parent)) }
    ensures { OnOk result (parts.new ≡ planned (owner_in parts.old parent)
        (insert_plan (observing_of how) (name_in parts.old fragment) (name_in parts.old parent) (option_map (name_in parts.old) before)) parts.old) }
{
    parts.laws();
    if children.is_empty() {
        return Ok(());
    }
    empty(parts, fragment, children)?;
    place_all(parts, how, children, parent, before, prev)
}

/// The sibling in front of nodes that are to be put before a child of a parent, or last.
fn sibling_before(parts: &Parts, parent: Key, before: Option<Key>) -> Option<Key>
    requires parent_is_node { HoldsNode parts.now parent }
    requires before_is_child { ForSome before (IsChild parts.now parent) }
    ensures value { option_map (name_in parts.now) result ≡ sibling_before (trees_in parts.now parent) (name_in parts.now parent)
        (option_map (name_in parts.now) before) }
    ensures node { IsNodeIf parts.now result }
{
    match before {
        Some(child) => parts.prev(child),
        None => parts.last(parent),
    }
}

/// The children of a node.
pub(crate) fn children(parts: &Parts, node: Key) -> Result<SmallVec<Key, 8>, AllocError>
    requires { HoldsNode parts.now node }
    ensures names { IfOk result (λ keys. map (name_in parts.now) keys.items ≡ children_of (trees_in parts.now node) (name_in parts.now node)) }
    ensures nodes { IfOk result (λ keys. AllByRecursion (λ k. (HoldsNode parts.now k) × (owner_in parts.now k ≡ owner_in parts.now node)) keys.items) }
{
    parts.laws();
    let mut keys = SmallVec::new(parts.alloc());
    let mut at = parts.first(node);
    while let Some(child) = at {
        keys.push(child)?;
        at = parts.next(child);
    }
    Ok(keys)
}

/// Room is made for some nodes below a parent, and they are placed there, with a record; `prev` is the sibling in front
/// of them.
fn place_all(
    parts: &mut Parts,
    how: SuppressObserversFlag,
    moved: &[Key],
    parent: Key,
    before: Option<Key>,
    prev: Option<Key>,
) -> Result<(), AllocError>
    requires parent_is_node { HoldsNode parts.old parent }
    requires may_move { AllByRecursion (MayMove parts.old parent before) moved.now }
    requires before_is_child { ForSome before (IsChild parts.old parent) }
    requires prev_is_node { IsNodeIf parts.old prev }
    requires bounds { HasBounds (part_of parts.old.world (owner_in parts.old parent)) }
    requires few { length moved.now ≤ 1000000 }
    ensures { OnOk result (parts.new ≡ placed_all (observing_of how) (map (name_in parts.old) moved.now) (name_in parts.old parent)
        (option_map (name_in parts.old) before) (option_map (name_in parts.old) prev) (owner_in parts.old parent) parts.old) }
{
    // An `Option<Key>` that is passed on and used again is passed under a second and a third name, since the first one counts as lent.
    let child = before;
    let next = before;
    room_before(parts, parent, child, moved.len());
    place_each(parts, moved, parent, before)?;
    tell_placed(parts, how, moved, parent, prev, next)
}

/// Room is made for some nodes below a parent, before a child of it or last.
fn room_before(parts: &mut Parts, parent: Key, before: Option<Key>, count: usize)
    requires parent_is_node { HoldsNode parts.old parent }
    requires before_is_child { ForSome before (IsChild parts.old parent) }
    requires bounds { HasBounds (part_of parts.old.world (owner_in parts.old parent)) }
    requires few { count ≤ 1000000 }
    ensures state { parts.new ≡ planned (owner_in parts.old parent)
        (making_room (name_in parts.old parent) (option_map (name_in parts.old) before) count) parts.old }
    ensures trees { trees_in parts.new parent ≡ trees_in parts.old parent }
{
    parts.laws();
    if let Some(child) = before {
        parts.make_room(parent, child, count);
    }
}

/// Observers are told of some nodes that were placed below a parent, unless that is suppressed.
fn tell_placed(
    parts: &mut Parts,
    how: SuppressObserversFlag,
    moved: &[Key],
    parent: Key,
    prev: Option<Key>,
    next: Option<Key>,
) -> Result<(), AllocError>
    requires parent_is_node { HoldsNode parts.old parent }
    requires moved_are_nodes { AreNodes parts.old moved.now }
    requires prev_is_node { IsNodeIf parts.old prev }
    requires next_is_node { IsNodeIf parts.old next }
    ensures { OnOk result (parts.new ≡ planned (owner_in parts.old parent)
        (steps_of (telling (observing_of how)
        (child_list (name_in parts.old parent) (map (name_in parts.old) moved.now) [] (option_map (name_in parts.old) prev)
        (option_map (name_in parts.old) next)))) parts.old) }
{
    if matches!(how, SuppressObserversFlag::Observed) {
        parts.queue_tree_record(parent, moved, &[], prev, next)?;
    }
    Ok(())
}

/// Some nodes are placed below a parent, one after another.
fn place_each(
    parts: &mut Parts,
    moved: &[Key],
    parent: Key,
    before: Option<Key>,
) -> Result<(), AllocError>
    requires parent_is_node { HoldsNode parts.old parent }
    requires may_move { AllByRecursion (MayMove parts.old parent before) moved.now }
    requires before_is_child { ForSome before (IsChild parts.old parent) }
    ensures { OnOk result (parts.new ≡ planned (owner_in parts.old parent)
        (in_turn (placing (name_in parts.old parent) (option_map (name_in parts.old) before)) (map (name_in parts.old) moved.now)) parts.old) }
{
    parts.laws();
    for node in moved {
        // An `Option<Key>` that is passed on and used again is passed under a second name, since the first one counts as lent.
        let reference = before;
        placing(parts, parent, reference, *node)?;
    }
    Ok(())
}

/// A fragment loses its children, of which observers are told once.
fn empty(parts: &mut Parts, fragment: Key, children: &[Key]) -> Result<(), AllocError>
    requires fragment_is_node { HoldsNode parts.old fragment }
    requires children_are_nodes { AllByRecursion (λ k. (HoldsNode parts.old k) × (owner_in parts.old k ≡ owner_in parts.old fragment)) children.now }
    ensures state { OnOk result (parts.new ≡ planned (owner_in parts.old fragment)
        (emptying (name_in parts.old fragment) (map (name_in parts.old) children.now)) parts.old) }
    ensures paths { OnOk result ((y : Name) → NoneAbove parts.old fragment y children.now →
        inclusive_ancestors (trees_in parts.new fragment) y ≡ inclusive_ancestors (trees_in parts.old fragment) y) }
{
    parts.laws();
    take_each(parts, SuppressObserversFlag::Suppressed, fragment, children)?;
    parts.queue_tree_record(fragment, &[], children, None, None)
}

/// Some nodes are taken out, one after another, of which observers are told or not; `top` is one of their owner.
pub(crate) fn take_each(
    parts: &mut Parts,
    how: SuppressObserversFlag,
    top: Key,
    children: &[Key],
) -> Result<(), AllocError>
    requires top_is_node { HoldsNode parts.old top }
    requires children_are_nodes { AllByRecursion (λ k. (HoldsNode parts.old k) × (owner_in parts.old k ≡ owner_in parts.old top)) children.now }
    ensures state { OnOk result (parts.new ≡ planned (owner_in parts.old top)
        (in_turn (remove_plan (observing_of how)) (map (name_in parts.old) children.now)) parts.old) }
    ensures paths { OnOk result ((y : Name) → NoneAbove parts.old top y children.now →
        inclusive_ancestors (trees_in parts.new top) y ≡ inclusive_ancestors (trees_in parts.old top) y) }
{
    parts.laws();
    for child in children {
        parts.laws();
        removing(parts, how, *child)?;
    }
    Ok(())
}

/// A node is adopted and placed below a parent, before a child of it or last.
fn placing(parts: &mut Parts, parent: Key, before: Option<Key>, node: Key) -> Result<(), AllocError>
    requires parent_is_node { HoldsNode parts.old parent }
    requires may_move { MayMove parts.old parent before node }
    requires before_is_child { ForSome before (IsChild parts.old parent) }
    ensures state { OnOk result (parts.new ≡ planned (owner_in parts.old parent)
        (placing (name_in parts.old parent) (option_map (name_in parts.old) before) (name_in parts.old node)) parts.old) }
    ensures paths { OnOk result (KeepsPaths parent (name_in parts.old node) parts.old parts.new) }
{
    parts.laws();
    let document = document_below(parts, parent);
    adopting(parts, document, node)?;
    parts.laws();
    parts.place(node, parent, before)
}
