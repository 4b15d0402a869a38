//! A document of three elements, written into a new forest.
ghost use Rattle.std.specs.Prelude.{◌≡◌, [], List, length, IfOk, OnOk};
ghost use Rattle.std.specs.Option.{option_map};
ghost use Rattle.dom_base.specs.declared.NodeName.{NodeName as Name};
ghost use Rattle.dom_model.specs.Tree.{none};
ghost use Rattle.dom_tree.specs.Forest.{IsNode, name_at, node_from};
ghost use Rattle.dom_callers.specs.Notes.{node_with, appended, written_note};

use dom_base::{Fault, Kind, Owner};
use dom_tree::{Forest, NodeData};
use indexmap::IndexMap;
use node_arena::Key;
use std::alloc::{AllocError, Global};

/// The nodes of a note, by their keys.
#[derive(Drop)]
pub struct Note {
    pub document: Key,
    pub article: Key,
    pub heading: Key,
    pub paragraph: Key,
}

/// Writes a document of three elements into a new forest: an `article`, with an `h1` and a `p` in it. It is refused only where
/// memory is refused, or a page may have no more nodes.
pub fn write_note(alloc: Global, forest: &mut Forest) -> Result<Note, Fault>
    requires new { forest.old ≡ record { names = []; trees = none } }
    ensures written { OnOk result (forest.new ≡ written_note) }
    ensures keys { IfOk result (λ note. note ≡ record { document = 0; article = 1; heading = 2; paragraph = 3 }) }
{
    let data = data_of(alloc, Kind::Document, "", None)?;
    let document = forest.add(Owner::Page, data)?;
    let article = append(alloc, forest, document, document, "article")?;
    let heading = append(alloc, forest, document, article, "h1")?;
    let paragraph = append(alloc, forest, document, article, "p")?;
    Ok(Note {
        document,
        article,
        heading,
        paragraph,
    })
}

/// A new element of the page, of a name and with a node document, becomes the last child of a node, and is the answer.
fn append(
    alloc: Global,
    forest: &mut Forest,
    document: Key,
    parent: Key,
    word: &str,
) -> Result<Key, Fault>
    requires document_is_node { IsNode forest.old document }
    requires parent_is_node { IsNode forest.old parent }
    ensures key { IfOk result (λ key. key ≡ length forest.old.names) }
    ensures forest { OnOk result (forest.new ≡ appended document parent word.now forest.old) }
{
    let data = data_of(alloc, Kind::Element, word, Some(document))?;
    let key = forest.add(Owner::Page, data)?;
    forest.link_before(parent, key, None);
    Ok(key)
}

/// What a new node holds: a kind and a name, and no attributes and no text.
fn data_of(
    alloc: Global,
    kind: Kind,
    word: &str,
    document: Option<Key>,
) -> Result<NodeData, AllocError>
    ensures node { IfOk result (λ held. (names : List Name) (x : Name) →
        node_from names x held ≡ node_with x kind word.now (option_map (name_at names) document)) }
    ensures document { IfOk result (λ held. held.document ≡ document) }
{
    Ok(NodeData {
        kind,
        element: String::from_str(alloc, word)?,
        attributes: IndexMap::new(alloc),
        text: Vec::new(alloc),
        document,
    })
}
