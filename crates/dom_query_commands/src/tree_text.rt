//! The openings and closings of a node's tree, for the reply of `tree`.
ghost use Rattle.std.specs.Prelude.{◌≡◌, IfOk};
ghost use Rattle.std.specs.Option.{option_map, ForSome};
ghost use Rattle.dom_model.specs.Tree.{subtree, node_in};
ghost use Rattle.dom_tree.specs.Forest.{IsNode, name_of};
ghost use Rattle.dom_printer.specs.Steps.{attributes_view, opening_view, step_view, steps_view, shown, shown_steps};
ghost use Rattle.dom_query_commands.specs.TreeText.{place_view, key_of, place_after, step_at};

use dom_base::Kind;
use dom_printer::{Attribute, NodeContent, Opening, TreeStep};
use dom_tree::Forest;
use node_arena::Key;
use std::alloc::{AllocError, Global};

/// A step of a tree: a node opens, or it closes.
#[derive(Clone, Copy)]
pub(crate) enum Place {
    Opening(Key),
    Closing(Key),
}

/// The openings and closings of the tree of a node, in their order: a node opens, the trees of its children follow in tree order, and it
/// closes. Names and data are borrowed from the forest. The only error is memory refused.
///
/// Own rule.
pub(crate) fn tree_steps<'a>(
    alloc: Global,
    forest: &'a Forest,
    top: Key,
) -> Result<Vec<TreeStep<'a>>, AllocError>
    requires { IsNode forest.now top }
    ensures { IfOk result (λ steps. steps_view steps.items ≡ shown_steps (subtree forest.now.trees (name_of forest.now top))) }
{
    forest.law_nodes_stand_once();
    let mut steps = Vec::new(alloc);
    let mut place = Some(Place::Opening(top));
    while let Some(at) = place {
        steps.push(step(alloc, forest, at)?)?;
        place = after(forest, at, top);
    }
    Ok(steps)
}

/// The step after this one, until the node given closes. After an opening the first child opens, or the node closes if it has none. After
/// a closing the next sibling opens, or the parent closes if there is none.
pub(crate) fn after(forest: &Forest, place: Place, top: Key) -> Option<Place>
    requires place_is_node { IsNode forest.now (key_of place) }
    requires top_is_node { IsNode forest.now top }
    ensures value { option_map (place_view forest.now.names) result ≡ place_after forest.now.trees (name_of forest.now top)
        (place_view forest.now.names place) }
    ensures node { ForSome result (λ at. IsNode forest.now (key_of at)) }
{
    forest.law_nodes_stand_once();
    match place {
        Place::Opening(key) => match forest.first(key) {
            Some(child) => Some(Place::Opening(child)),
            None => Some(Place::Closing(key)),
        },
        Place::Closing(key) => {
            if key == top {
                return None;
            }
            match forest.next(key) {
                Some(sibling) => Some(Place::Opening(sibling)),
                None => Some(Place::Closing(forest.parent(key)?)),
            }
        }
    }
}

/// The step at a place.
fn step<'a>(alloc: Global, forest: &'a Forest, place: Place) -> Result<TreeStep<'a>, AllocError>
    requires { IsNode forest.now (key_of place) }
    ensures { IfOk result (λ step. step_view step ≡ step_at forest.now.trees (place_view forest.now.names place)) }
{
    match place {
        Place::Opening(key) => Ok(TreeStep::Opens(opening(alloc, forest, key)?)),
        Place::Closing(_) => Ok(TreeStep::Closes),
    }
}

/// A node where its tree begins: an element with its local name and its attributes, a Text or a Comment with its data.
pub(crate) fn opening<'a>(
    alloc: Global,
    forest: &'a Forest,
    key: Key,
) -> Result<Opening<'a>, AllocError>
    requires { IsNode forest.now key }
    ensures { IfOk result (λ opening. opening_view opening ≡ shown (node_in forest.now.trees (name_of forest.now key))) }
{
    let kind = forest.kind(key);
    let words = match kind {
        Kind::Element => NodeContent::Element {
            name: forest.element(key),
            attributes: attributes(alloc, forest, key)?,
        },
        Kind::Text | Kind::Comment => NodeContent::Data(forest.text(key)),
        Kind::Document | Kind::Fragment | Kind::Shadow => NodeContent::None,
    };
    Ok(Opening {
        name: forest.name(key),
        kind,
        words,
    })
}

/// The attributes of a node, in order.
fn attributes<'a>(
    alloc: Global,
    forest: &'a Forest,
    key: Key,
) -> Result<Vec<Attribute<'a>>, AllocError>
    requires { IsNode forest.now key }
    ensures { IfOk result (λ attributes. attributes_view attributes.items ≡ (node_in forest.now.trees (name_of forest.now key)).attributes) }
{
    let mut attributes = Vec::new(alloc);
    while let Some((name, value)) = forest.attr_at(key, attributes.len()) {
        attributes.push(Attribute { name, value })?;
    }
    Ok(attributes)
}
