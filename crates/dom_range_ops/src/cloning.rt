//! What a clone of a node holds (DOM Standard, concept: clone a single node).
ghost use Rattle.std.specs.Prelude.{◌≡◌, map, IfOk};
ghost use Rattle.std.specs.String.{string_bytes};
ghost use Rattle.std.specs.Option.{ForSome};
ghost use Rattle.dom_base.specs.declared.NodeName.{NodeName as Name};
ghost use Rattle.dom_model.specs.Extract.{clone_part};
ghost use Rattle.dom_model.specs.Tree.{kind_of, node_in};
ghost use Rattle.dom_model.specs.TreeChanges.{with_name};
ghost use Rattle.dom_attributes.specs.Attributes.{attribute_from};
ghost use Rattle.dom_tree.specs.Forest.{node_from, IsNode, name_of};

use crate::text::units_between;
use dom_base::DomStr;
use dom_tree::{Forest, NodeData};
use indexmap::IndexMap;
use node_arena::Key;
use std::alloc::{AllocError, Global};

/// What a clone of a node holds, without children: all that the node holds (DOM Standard, concept: clone a single node).
/// It is refused where memory is refused.
pub(crate) fn clone_node(alloc: Global, forest: &Forest, key: Key) -> Result<NodeData, AllocError>
    requires { IsNode forest.now key }
    ensures value { IfOk result (λ copy. (x : Name) →
        node_from forest.now.names x copy ≡ with_name x (node_in forest.now.trees (name_of forest.now key))) }
    ensures kind { IfOk result (λ copy. copy.kind ≡ kind_of forest.now.trees (name_of forest.now key)) }
    ensures document { IfOk result (λ copy. ForSome copy.document (IsNode forest.now)) }
{
    let text = Vec::from_slice(alloc, forest.text(key))?;
    data_with(alloc, forest, key, text)
}

/// What a clone of a node holds that has only the code units between two offsets, as far as there are such.
pub(crate) fn clone_units(
    alloc: Global,
    forest: &Forest,
    key: Key,
    from: usize,
    to: usize,
) -> Result<NodeData, AllocError>
    requires { IsNode forest.now key }
    ensures value { IfOk result (λ copy. (x : Name) →
        node_from forest.now.names x copy ≡ clone_part x from to (node_in forest.now.trees (name_of forest.now key))) }
    ensures kind { IfOk result (λ copy. copy.kind ≡ kind_of forest.now.trees (name_of forest.now key)) }
    ensures document { IfOk result (λ copy. ForSome copy.document (IsNode forest.now)) }
{
    let text = Vec::from_slice(alloc, units_between(forest.text(key), from, to))?;
    data_with(alloc, forest, key, text)
}

/// What a node holds, but for its code units, with these.
fn data_with(alloc: Global, forest: &Forest, key: Key, text: DomStr) -> Result<NodeData, AllocError>
    requires { IsNode forest.now key }
    ensures value { IfOk result (λ copy. (x : Name) →
        node_from forest.now.names x copy ≡ record (node_in forest.now.trees (name_of forest.now key)) { name = x; text = text.items }) }
    ensures kind { IfOk result (λ copy. copy.kind ≡ kind_of forest.now.trees (name_of forest.now key)) }
    ensures document { IfOk result (λ copy. ForSome copy.document (IsNode forest.now)) }
{
    Ok(NodeData {
        kind: forest.kind(key),
        element: String::from_str(alloc, forest.element(key))?,
        attributes: attributes(alloc, forest, key)?,
        text,
        document: forest.document(key),
    })
}

/// The attributes of a node, in their order.
fn attributes(
    alloc: Global,
    forest: &Forest,
    key: Key,
) -> Result<IndexMap<String, DomStr>, AllocError>
    requires { IsNode forest.now key }
    ensures { IfOk result (λ copied. map (λ e. attribute_from (string_bytes e.0) e.1.items)
        copied.entries ≡ (node_in forest.now.trees (name_of forest.now key)).attributes) }
{
    forest.law_attributes_have_own_names(key);
    let mut copied = IndexMap::new(alloc);
    while let Some((name, value)) = forest.attr_at(key, copied.len()) {
        let name = String::from_str(alloc, name)?;
        let value = Vec::from_slice(alloc, value)?;
        copied.insert(name, value)?;
    }
    Ok(copied)
}
