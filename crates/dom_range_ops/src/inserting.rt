//! The insertion of a node into a live range (DOM Standard, concept: insert a node into a live range).
ghost use Rattle.std.specs.Prelude.{◌≡◌, ◌≤◌, ◌⊎◌, ◌++◌, ◌∷◌, [], true, false, is_some, slice_get, Some, None, OnOk};
ghost use Rattle.std.specs.Option.{option_map, ForSome};
ghost use Rattle.dom_base.specs.declared.Refusal.{Refusal as RefusalOf};
ghost use Rattle.dom_model.specs.CommandRefusals.{limit_on, made_by_insert_node};
ghost use Rattle.dom_model.specs.Part.{range_at, next_name};
ghost use Rattle.dom_model.specs.Ranges.{at};
ghost use Rattle.dom_model.specs.RangeOps.{start_reference, insertion_parent, cannot_take_node, insert_node_refusal, ending_at, inserting_before};
ghost use Rattle.dom_model.specs.RangeOps.{inserting_at, inserting_into_range};
ghost use Rattle.dom_model.specs.Tree.{kind_of, has_data, is_shadow, is_text, children_of, length_of, is_inclusive_ancestor};
ghost use Rattle.dom_model.specs.World.{part_of};
ghost use Rattle.dom_mutation.specs.Doc.{made, planned, name_in, owner_in, trees_in, MayMove, IsChild, HoldsNode};
ghost use Rattle.dom_mutation.specs.Ready.{AreReady};
ghost use Rattle.dom_range_ops.specs.Insertions.{inserting_node, inserting_before_tail, node_refusal, inserting_refusal, names_given, tail_names};
ghost use Rattle.dom_range_ops.specs.Insertions.{offset_behind};
ghost use Rattle.dom_range_ops.specs.Texts.{range_at_points};
ghost use Rattle.dom_tree.specs.Forest.{err_of};

use dom_base::{Fault, Kind, Owner, Refusal};
use dom_mutation::Doc;
use dom_ranges::Points;
use node_arena::Key;
use std::alloc::AllocError;

/// Inserts a node into a live range of its owner, at the range's start, where a Text is split; of a fragment its children. A
/// collapsed range ends behind what was inserted (DOM Standard, concept: insert a node into a live range). Refused with
/// `Hierarchy` as the Standard's tests say, and then with `Limit` where a Text is to be split and the owner has as many nodes as it may,
/// with nothing changed. Where memory is refused, which may also be in place of `Limit`, the document is given
/// up: its keys name no nodes any more.
pub fn insert_node(doc: &mut Doc, owner: Owner, number: u32, node: Key) -> Result<(), Fault>
    requires there { is_some (range_at (part_of doc.old.world owner) number) ≡ true }
    requires node_is_node { HoldsNode doc.old node }
    requires own { owner_in doc.old node ≡ owner }
    ensures names { OnOk result (doc.new.names ≡ doc.old.names ++ names_given (part_of doc.old.world owner) number) }
    ensures world { OnOk result (doc.new.world ≡ made owner (inserting_node number (name_in doc.old node)) doc.old.world) }

    // A refusal is one of these, in their order, and changes nothing; nothing else but memory stops an insertion.
    ensures tested { (r : RefusalOf) → node_refusal (part_of doc.old.world owner) number (name_in doc.old node) ≡ Some r → result ≡ Err (Fault.Refused r) }
    ensures refused { (r : RefusalOf) → result ≡ Err (Fault.Refused r) →
        inserting_refusal (part_of doc.old.world owner) number (name_in doc.old node) ≡ Some r }
    ensures stopped { (r : RefusalOf) → inserting_refusal (part_of doc.old.world owner) number (name_in doc.old node) ≡ Some r →
        (result ≡ Err (Fault.Refused r)) ⊎ (result ≡ Err Fault.Memory) }
    ensures unchanged { (r : RefusalOf) → result ≡ Err (Fault.Refused r) → doc.new ≡ doc.old }
    ensures there { OnOk result (is_some (range_at (part_of doc.new.world owner) number) ≡ true) }
{
    doc.laws();
    let points = doc.range_points(owner, number);
    let child = start_reference(doc, &points);
    let reference = child;
    let parent = insertion_parent(doc, &points, reference);
    let before = child;
    if let Err(refusal) = check(doc, &points, parent, node, before) {
        return Err(Fault::Refused(refusal));
    }
    insert_tested(doc, owner, number, &points, parent, node, child)
}

/// The node before which a node is to go: a Text at the start, or the child behind the start, if there is one.
fn start_reference(doc: &Doc, points: &Points) -> Option<Key>
    requires { HoldsNode doc.now points.now.start.0 }
    ensures value { option_map (name_in doc.now) result ≡ start_reference (trees_in doc.now points.now.start.0) (range_at_points doc.now.names points.now) }
    ensures node { ForSome result (HoldsNode doc.now) }
    ensures owner { ForSome result (λ k. owner_in doc.now k ≡ owner_in doc.now points.now.start.0) }
{
    let (start, offset) = points.start;
    if is_text(doc, start) {
        return Some(start);
    }
    nth_child(doc, start, offset)
}

/// Whether a node is a Text.
fn is_text(doc: &Doc, node: Key) -> bool
    requires { HoldsNode doc.now node }
    ensures { result ≡ is_text (kind_of (trees_in doc.now node) (name_in doc.now node)) }
{
    matches!(doc.kind(node), Kind::Text)
}

/// The child of a node at an index, where there are so many, in its owner's trees.
fn nth_child(doc: &Doc, node: Key, index: usize) -> Option<Key>
    requires { HoldsNode doc.now node }
    ensures value { option_map (name_in doc.now) result ≡ slice_get (children_of (trees_in doc.now node) (name_in doc.now node)) index }
    ensures child { ForSome result (IsChild doc.now node) }
{
    doc.laws();
    doc.forest().child(node, index)
}

/// The parent into which a node is to go: that of the reference, or the node of the start.
fn insertion_parent(doc: &Doc, points: &Points, child: Option<Key>) -> Key
    requires start_is_node { HoldsNode doc.now points.now.start.0 }
    requires value { option_map (name_in doc.now) child ≡ start_reference (trees_in doc.now points.now.start.0) (range_at_points doc.now.names points.now) }
    requires child_is_node { ForSome child (HoldsNode doc.now) }
    requires child_owner { ForSome child (λ k. owner_in doc.now k ≡ owner_in doc.now points.now.start.0) }
    ensures value { name_in doc.now result ≡ insertion_parent (trees_in doc.now points.now.start.0) (range_at_points doc.now.names points.now) }
    ensures node { HoldsNode doc.now result }
    ensures owner { owner_in doc.now result ≡ owner_in doc.now points.now.start.0 }
{
    let start = points.start.0;
    let Some(child) = child else {
        return start;
    };
    doc.parent(child).unwrap_or(start)
}

/// Tests whether a node may be inserted into a live range with these ends.
fn check(
    doc: &Doc,
    points: &Points,
    parent: Key,
    node: Key,
    child: Option<Key>,
) -> Result<(), Refusal>
    requires start_is_node { HoldsNode doc.now points.now.start.0 }
    requires parent_is_node { HoldsNode doc.now parent }
    requires node_is_node { HoldsNode doc.now node }
    requires child_is_node { ForSome child (HoldsNode doc.now) }
    requires start_owner { owner_in doc.now points.now.start.0 ≡ owner_in doc.now parent }
    requires node_owner { owner_in doc.now node ≡ owner_in doc.now parent }
    requires child_owner { ForSome child (λ k. owner_in doc.now k ≡ owner_in doc.now parent) }
    requires parent { name_in doc.now parent ≡ insertion_parent (trees_in doc.now points.now.start.0) (range_at_points doc.now.names points.now) }
    requires child { option_map (name_in doc.now) child ≡ start_reference (trees_in doc.now points.now.start.0) (range_at_points doc.now.names points.now) }
    ensures { err_of result ≡ insert_node_refusal (trees_in doc.now points.now.start.0) (range_at_points doc.now.names points.now) (name_in doc.now node) }
{
    if cannot_take(doc, points, node) {
        return Err(Refusal::Hierarchy);
    }
    doc.check_insert(parent, node, child)
}

/// Whether a live range with these ends takes no such node: its start is in a Comment, in a Text without parent, or in the
/// node itself.
fn cannot_take(doc: &Doc, points: &Points, node: Key) -> bool
    requires start_is_node { HoldsNode doc.now points.now.start.0 }
    requires node_is_node { HoldsNode doc.now node }
    ensures { result ≡ cannot_take_node (trees_in doc.now points.now.start.0) (range_at_points doc.now.names points.now) (name_in doc.now node) }
{
    doc.laws();
    let start = points.start.0;
    match doc.kind(start) {
        Kind::Comment => true,
        Kind::Text => doc.parent(start).is_none() || start == node,
        _ => start == node,
    }
}

/// An insertion that the tests do not refuse: a Text at the start is split, and the node goes before its tail.
fn insert_tested(
    doc: &mut Doc,
    owner: Owner,
    number: u32,
    points: &Points,
    parent: Key,
    node: Key,
    child: Option<Key>,
) -> Result<(), Fault>
    requires there { is_some (range_at (part_of doc.old.world owner) number) ≡ true }
    requires start_is_node { HoldsNode doc.old points.now.start.0 }
    requires parent_is_node { HoldsNode doc.old parent }
    requires node_is_node { HoldsNode doc.old node }
    requires start_own { owner_in doc.old points.now.start.0 ≡ owner }
    requires parent_own { owner_in doc.old parent ≡ owner }
    requires node_own { owner_in doc.old node ≡ owner }
    requires child_is_node { ForSome child (HoldsNode doc.old) }
    requires child_own { ForSome child (λ k. owner_in doc.old k ≡ owner) }
    requires parent { name_in doc.old parent ≡ insertion_parent (part_of doc.old.world owner).trees (range_at_points doc.old.names points.now) }
    requires child { option_map (name_in doc.old) child ≡ start_reference (part_of doc.old.world owner).trees (range_at_points doc.old.names points.now) }
    requires tested { insert_node_refusal (part_of doc.old.world owner).trees (range_at_points doc.old.names points.now) (name_in doc.old node) ≡ None }
    requires within { points.now.start.1 ≤ length_of (part_of doc.old.world owner).trees (name_in doc.old points.now.start.0) }
    requires ready { AreReady (made owner (inserting_into_range number (range_at_points doc.old.names points.now) (name_in doc.old node)) doc.old.world) }
    ensures names { OnOk result (doc.new.names ≡ doc.old.names ++ tail_names (part_of doc.old.world owner) (name_in doc.old points.now.start.0)) }
    ensures world { OnOk result (doc.new.world ≡ made owner
        (inserting_into_range number (range_at_points doc.old.names points.now) (name_in doc.old node)) doc.old.world) }
    ensures refused { (r : RefusalOf) → result ≡ Err (Fault.Refused r) →
        limit_on (part_of doc.old.world owner).node_count
        (made_by_insert_node (part_of doc.old.world owner) (range_at_points doc.old.names points.now)) ≡ Some r }
    ensures stopped { (r : RefusalOf) → limit_on (part_of doc.old.world owner).node_count
        (made_by_insert_node (part_of doc.old.world owner) (range_at_points doc.old.names points.now)) ≡ Some r →
        (result ≡ Err (Fault.Refused r)) ⊎ (result ≡ Err Fault.Memory) }
    ensures unchanged { (r : RefusalOf) → result ≡ Err (Fault.Refused r) → doc.new ≡ doc.old }
{
    doc.laws();
    if is_text(doc, points.start.0) {
        return insert_before_tail(doc, owner, number, points, parent, node);
    }
    insert_at(doc, owner, number, parent, node, child)?;
    Ok(())
}

/// The Text at the start is split, and the node goes before its tail.
fn insert_before_tail(
    doc: &mut Doc,
    owner: Owner,
    number: u32,
    points: &Points,
    parent: Key,
    node: Key,
) -> Result<(), Fault>
    requires there { is_some (range_at (part_of doc.old.world owner) number) ≡ true }
    requires parent_is_node { HoldsNode doc.old parent }
    requires node_is_node { HoldsNode doc.old node }
    requires parent_own { owner_in doc.old parent ≡ owner }
    requires node_own { owner_in doc.old node ≡ owner }
    requires not_above { is_inclusive_ancestor (part_of doc.old.world owner).trees (name_in doc.old node) (name_in doc.old parent) ≡ false }
    requires open { has_data (kind_of (part_of doc.old.world owner).trees (name_in doc.old parent)) ≡ false }
    requires text { is_text (kind_of (part_of doc.old.world owner).trees (name_in doc.old points.now.start.0)) ≡ true }
    requires start_is_child { IsChild doc.old parent points.now.start.0 }
    requires within { points.now.start.1 ≤ length_of (part_of doc.old.world owner).trees (name_in doc.old points.now.start.0) }
    requires no_shadow { is_shadow (kind_of (part_of doc.old.world owner).trees (name_in doc.old node)) ≡ false }
    requires ready { AreReady (made owner
        (inserting_before_tail number (range_at_points doc.old.names points.now) (name_in doc.old parent) (name_in doc.old node)) doc.old.world) }
    ensures names { OnOk result (doc.new.names ≡ doc.old.names ++ next_name (part_of doc.old.world owner) ∷ []) }
    ensures world { OnOk result (doc.new.world ≡ made owner
        (inserting_before_tail number (range_at_points doc.old.names points.now) (name_in doc.old parent) (name_in doc.old node)) doc.old.world) }
    ensures refused { (r : RefusalOf) → result ≡ Err (Fault.Refused r) → limit_on (part_of doc.old.world owner).node_count 1 ≡ Some r }
    ensures stopped { (r : RefusalOf) → limit_on (part_of doc.old.world owner).node_count 1 ≡ Some r → (result ≡ Err (Fault.Refused r)) ⊎
        (result ≡ Err Fault.Memory) }
    ensures unchanged { (r : RefusalOf) → result ≡ Err (Fault.Refused r) → doc.new ≡ doc.old }
{
    doc.laws();
    let (start, offset) = points.start;
    let tail = doc.split(start, offset)?;
    insert_at(doc, owner, number, parent, node, Some(tail))?;
    Ok(())
}

/// A node leaves its parent, and is inserted before a child of a parent, or before its own next sibling where it is that
/// child, or last; a collapsed range ends behind it.
fn insert_at(
    doc: &mut Doc,
    owner: Owner,
    number: u32,
    parent: Key,
    node: Key,
    child: Option<Key>,
) -> Result<(), AllocError>
    requires there { is_some (range_at (part_of doc.old.world owner) number) ≡ true }
    requires parent_is_node { HoldsNode doc.old parent }
    requires node_is_node { HoldsNode doc.old node }
    requires parent_own { owner_in doc.old parent ≡ owner }
    requires node_own { owner_in doc.old node ≡ owner }
    requires not_above { is_inclusive_ancestor (trees_in doc.old parent) (name_in doc.old node) (name_in doc.old parent) ≡ false }
    requires open { has_data (kind_of (trees_in doc.old parent) (name_in doc.old parent)) ≡ false }
    requires child_is_child { ForSome child (IsChild doc.old parent) }
    requires no_shadow { is_shadow (kind_of (trees_in doc.old node) (name_in doc.old node)) ≡ false }
    requires ready { AreReady (made owner
        (inserting_at number (name_in doc.old node) (name_in doc.old parent) (option_map (name_in doc.old) child)) doc.old.world) }
    ensures { OnOk result (doc.new ≡ planned owner
        (inserting_at number (name_in doc.old node) (name_in doc.old parent) (option_map (name_in doc.old) child)) doc.old) }
{
    doc.laws();
    let reference = doc.reference_child(parent, node, child);
    doc.remove(node)?;
    insert_before(doc, owner, number, parent, node, reference)
}

/// A node is inserted before a child of a parent that is another one, or last; a collapsed range ends behind it.
fn insert_before(
    doc: &mut Doc,
    owner: Owner,
    number: u32,
    parent: Key,
    node: Key,
    reference: Option<Key>,
) -> Result<(), AllocError>
    requires there { is_some (range_at (part_of doc.old.world owner) number) ≡ true }
    requires parent_is_node { HoldsNode doc.old parent }
    requires parent_own { owner_in doc.old parent ≡ owner }
    requires open { has_data (kind_of (trees_in doc.old parent) (name_in doc.old parent)) ≡ false }
    requires may_move { MayMove doc.old parent reference node }
    requires child_is_child { ForSome reference (IsChild doc.old parent) }
    requires no_shadow { is_shadow (kind_of (trees_in doc.old node) (name_in doc.old node)) ≡ false }
    requires ready { AreReady (made owner
        (inserting_before number (name_in doc.old node) (name_in doc.old parent) (option_map (name_in doc.old) reference)) doc.old.world) }
    ensures { OnOk result (doc.new ≡ planned owner
        (inserting_before number (name_in doc.old node) (name_in doc.old parent) (option_map (name_in doc.old) reference)) doc.old) }
{
    doc.laws();
    let child = reference;
    let offset = offset_behind(doc, parent, node, child);
    doc.insert_unchecked(parent, node, reference)?;
    end_at(doc, owner, number, parent, offset);
    Ok(())
}

/// The offset behind a node that is to be inserted before a child of a parent, or last; of a fragment behind its children.
fn offset_behind(doc: &Doc, parent: Key, node: Key, reference: Option<Key>) -> usize
    requires parent_is_node { HoldsNode doc.now parent }
    requires open { has_data (kind_of (trees_in doc.now parent) (name_in doc.now parent)) ≡ false }
    requires may_move { MayMove doc.now parent reference node }
    requires child_is_child { ForSome reference (IsChild doc.now parent) }
    ensures { result ≡ offset_behind (trees_in doc.now parent) (name_in doc.now parent) (name_in doc.now node) (option_map (name_in doc.now) reference) }
{
    doc.laws();
    let place = match reference {
        Some(child) => doc.index(child),
        None => doc.length(parent),
    };
    let size = match doc.kind(node) {
        Kind::Fragment => doc.length(node),
        _ => 1,
    };
    place + size
}

/// A collapsed range gets its end at an offset in a node of its owner; another one stays as it is.
fn end_at(doc: &mut Doc, owner: Owner, number: u32, node: Key, offset: usize)
    requires there { is_some (range_at (part_of doc.old.world owner) number) ≡ true }
    requires node_is_node { HoldsNode doc.old node }
    requires own { owner_in doc.old node ≡ owner }
    requires ready { AreReady (made owner (ending_at number (at (name_in doc.old node) offset)) doc.old.world) }
    ensures { doc.new ≡ planned owner (ending_at number (at (name_in doc.old node) offset)) doc.old }
{
    doc.laws();
    let points = doc.range_points(owner, number);
    let (start, from) = points.start;
    let (end, to) = points.end;
    if start == end && from == to {
        let extended = Points {
            start: (start, from),
            end: (node, offset),
        };
        doc.range_put(owner, number, extended);
    }
}
