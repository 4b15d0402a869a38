//! Slots by their names.
ghost use Rattle.std.specs.Prelude.{◌≡◌, map, find, filter, Some, IfOk, All, codes};
ghost use Rattle.std.specs.Option.{option_map, ForSome};
ghost use Rattle.dom_model.specs.Slots.{is_slot_element, has_slot_name, slottable_name, slot_name, slots_among};
ghost use Rattle.dom_base.specs.declared.NodeName.{NodeName as Name};
ghost use Rattle.dom_model.specs.Names.{text_eq, name_eq, first_of, items_after};
ghost use Rattle.dom_model.specs.Tree.{Node, node_in, nodes, subtree, parent_of, siblings};
ghost use Rattle.dom_tree.specs.Forest.{IsNode, name_of};
ghost use Rattle.dom_slots.specs.Insides.{is_called, is_slot_called};
ghost use Rattle.dom_slots.specs.Shadows.{looks_for};

use dom_attributes::is_same_string;
use dom_base::Kind;
use dom_tree::Forest;
use node_arena::Key;
use std::alloc::{AllocError, Global};

/// The first slot of a name in the tree of `top`.
pub(crate) fn slot_named(forest: &Forest, top: Key, name: &[u16]) -> Option<Key>
    requires { IsNode forest.now top }
    ensures value { option_map (name_of forest.now) result ≡ option_map (λ (n : Node). n.name)
        (find (has_slot_name name.now) (nodes (subtree forest.now.trees (name_of forest.now top)))) }
    ensures node { ForSome result (IsNode forest.now) }
{
    forest.law_nodes_stand_once();
    let mut at = Some(top);
    while let Some(key) = at {
        if has_name(forest, key, name) {
            return Some(key);
        }
        at = forest.following(key, top);
    }
    None
}

/// The elements named `slot` in the tree of `top`, in tree order; of a name alone, if one is given.
pub(crate) fn slots_below(
    alloc: Global,
    forest: &Forest,
    top: Key,
    name: Option<&[u16]>,
) -> Result<Vec<Key>, AllocError>
    requires { IsNode forest.now top }
    ensures value { IfOk result (λ keys. map (name_of forest.now) keys.items ≡ filter (is_called forest.now.trees (option_map (λ a. a.now) name.entry))
        (slots_among (subtree forest.now.trees (name_of forest.now top)))) }
    ensures nodes { IfOk result (λ keys. All (IsNode forest.now) keys.items) }
{
    forest.law_nodes_stand_once();
    let mut keys = Vec::new(alloc);
    let mut at = Some(top);
    while let Some(key) = at {
        if is_slot_called(forest, key, name) {
            keys.push(key)?;
        }
        at = forest.following(key, top);
    }
    Ok(keys)
}

/// Whether a node is an element named `slot` (DOM Standard, concept: slot).
pub(crate) fn is_slot(forest: &Forest, key: Key) -> bool
    requires { IsNode forest.now key }
    ensures { result ≡ is_slot_element (node_in forest.now.trees (name_of forest.now key)) }
{
    matches!(forest.kind(key), Kind::Element) && is_slot_word(forest.element(key))
}

/// Whether a node is a slot, and of a name if one is given.
fn is_slot_called(forest: &Forest, key: Key, name: Option<&[u16]>) -> bool
    requires { IsNode forest.now key }
    ensures { result ≡ is_slot_called forest.now.trees (option_map (λ a. a.now) name.entry) (name_of forest.now key) }
{
    is_slot(forest, key) && is_called(forest, key, name)
}

/// Whether a slot is of a name, if one is given.
fn is_called(forest: &Forest, key: Key, name: Option<&[u16]>) -> bool
    requires { IsNode forest.now key }
    ensures { result ≡ is_called forest.now.trees (option_map (λ a. a.now) name.entry) (name_of forest.now key) }
{
    match name {
        Some(name) => is_same_string(slot_name(forest, key), name),
        None => true,
    }
}

/// Whether a node is a slot of this name.
pub(crate) fn has_name(forest: &Forest, key: Key, name: &[u16]) -> bool
    requires { IsNode forest.now key }
    ensures { result ≡ has_slot_name name.now (node_in forest.now.trees (name_of forest.now key)) }
{
    is_slot(forest, key) && is_same_string(slot_name(forest, key), name)
}

/// The name of a slot, empty without the attribute (DOM Standard, concept: slot, name).
pub(crate) fn slot_name(forest: &Forest, key: Key) -> &[u16]
    requires { IsNode forest.now key }
    ensures { result.now ≡ slot_name (node_in forest.now.trees (name_of forest.now key)) }
{
    match forest.attr(key, "name") {
        Some(name) => name,
        None => &[],
    }
}

/// The name by which an element or a Text looks for its slot; other nodes are no slottables (DOM Standard, concept:
/// slottable, name).
pub(crate) fn slottable_name(forest: &Forest, key: Key) -> Option<&[u16]>
    requires { IsNode forest.now key }
    ensures { option_map (λ name. name.now) result ≡ slottable_name (node_in forest.now.trees (name_of forest.now key)) }
{
    match forest.kind(key) {
        Kind::Element => match forest.attr(key, "slot") {
            Some(name) => Some(name),
            None => Some(&[]),
        },
        Kind::Text => Some(&[]),
        _ => None,
    }
}

/// Whether a node looks for a slot of this name.
pub(crate) fn looks_for(forest: &Forest, key: Key, name: &[u16]) -> bool
    requires { IsNode forest.now key }
    ensures { result ≡ looks_for name.now (node_in forest.now.trees (name_of forest.now key)) }
{
    match slottable_name(forest, key) {
        Some(wanted) => is_same_string(wanted, name),
        None => false,
    }
}

/// The first sibling behind a child that looks for a slot of the name of this one. Where there is no sibling behind it the name is
/// not read.
pub(crate) fn next_looking_for(forest: &Forest, child: Key, slot: Key) -> Option<Key>
    requires node { IsNode forest.now child }
    requires slot { IsNode forest.now slot }
    requires parent { (h : Name) × (parent_of forest.now.trees (name_of forest.now child) ≡ Some h) }
    ensures value { option_map (name_of forest.now) result ≡ first_of
        (filter (λ y. looks_for (slot_name (node_in forest.now.trees (name_of forest.now slot))) (node_in forest.now.trees y))
        (items_after name_eq (name_of forest.now child) (siblings forest.now.trees (name_of forest.now child)))) }
    ensures node { ForSome result (IsNode forest.now) }
{
    forest.law_nodes_stand_once();
    let _sibling = forest.next(child)?;
    next_looking(forest, child, slot_name(forest, slot))
}

/// The first sibling behind a child that looks for a slot of this name. It looks at each sibling up to that one.
fn next_looking(forest: &Forest, child: Key, name: &[u16]) -> Option<Key>
    requires node { IsNode forest.now child }
    requires parent { (h : Name) × (parent_of forest.now.trees (name_of forest.now child) ≡ Some h) }
    ensures value { option_map (name_of forest.now) result ≡ first_of
        (filter (λ y. looks_for name.now (node_in forest.now.trees y))
        (items_after name_eq (name_of forest.now child) (siblings forest.now.trees (name_of forest.now child)))) }
    ensures node { ForSome result (IsNode forest.now) }
{
    forest.law_nodes_stand_once();
    let mut at = forest.next(child);
    while let Some(sibling) = at {
        if looks_for(forest, sibling, name) {
            return Some(sibling);
        }
        at = forest.next(sibling);
    }
    None
}

/// Whether a text is the word `slot`.
fn is_slot_word(text: &str) -> bool
    ensures { result ≡ text_eq text.now (codes "slot") }
{
    matches!(text.as_bytes(), [b's', b'l', b'o', b't'])
}
