//! The nodes of a tree as rows, each with its parent's place among them.
ghost use Rattle.std.specs.Prelude.{◌≡◌, IfOk, OnOk};
ghost use Rattle.dom_tree.specs.Forest.{IsNode, name_of};
ghost use Rattle.dom_query_commands.specs.TreeText.{key_of, place_view, step_at};
ghost use Rattle.dom_model.specs.Tree.{node_in};
ghost use Rattle.dom_text.specs.Text.{opens};
ghost use Rattle.dom_printer.specs.Steps.{shown};
ghost use Rattle.dom_query_commands.specs.Looks.{opened, structure_of, with_step};

use crate::tree_text::{Place, after};
use dom_base::{Kind, NodeName};
use dom_tree::Forest;
use node_arena::Key;
use std::alloc::{AllocError, Global};

/// A node in a list of nodes in tree order: its kind, and at which place of the list its parent stands, which is none for the first node.
#[derive(Clone, Copy)]
pub struct StructureRow {
    pub node: NodeName,
    pub kind: Kind,
    pub parent: Option<usize>,
}

/// The rows of the nodes of a node's tree, from the node itself down, in tree order. The only error is memory refused.
pub(crate) fn structure_rows(
    alloc: Global,
    forest: &Forest,
    top: Key,
) -> Result<Vec<StructureRow>, AllocError>
    requires { IsNode forest.now top }
    ensures { IfOk result (λ rows. rows.items ≡ structure_of forest.now.trees (name_of forest.now top)) }
{
    forest.law_nodes_stand_once();
    let mut rows = Vec::new(alloc);
    let mut places = Vec::new(alloc);
    let mut place = Some(Place::Opening(top));
    while let Some(at) = place {
        let here = at;
        take(&mut rows, &mut places, forest, here)?;
        place = after(forest, at, top);
    }
    Ok(rows)
}

/// Takes a place of a tree's text into the rows of the nodes that began so far: a node begins, or the last one that began ends. The places
/// are those of the rows whose nodes have not ended, the topmost first.
fn take(
    rows: &mut Vec<StructureRow>,
    places: &mut Vec<usize>,
    forest: &Forest,
    place: Place,
) -> Result<(), AllocError>
    requires { IsNode forest.now (key_of place) }
    ensures { OnOk result (opened rows.new.items places.new.items ≡ with_step (opened rows.old.items places.old.items)
        (step_at forest.now.trees (place_view forest.now.names place))) }
{
    match place {
        Place::Opening(key) => begin(rows, places, forest, key),
        Place::Closing(_) => {
            places.pop();
            Ok(())
        }
    }
}

/// Takes a node that begins.
fn begin(
    rows: &mut Vec<StructureRow>,
    places: &mut Vec<usize>,
    forest: &Forest,
    key: Key,
) -> Result<(), AllocError>
    requires { IsNode forest.now key }
    ensures { OnOk result (opened rows.new.items places.new.items ≡ with_step (opened rows.old.items places.old.items)
        (opens (shown (node_in forest.now.trees (name_of forest.now key))))) }
{
    let row = StructureRow {
        node: forest.name(key),
        kind: forest.kind(key),
        parent: places.last().copied(),
    };
    places.push(rows.len())?;
    rows.push(row)?;
    Ok(())
}
