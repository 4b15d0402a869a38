//! The text of a live range (DOM Standard, 5.5: stringification behavior).
ghost use Rattle.std.specs.Prelude.{◌≡◌, ◌++◌, true, is_some, slice_range, IfOk, OnOk};
ghost use Rattle.std.specs.Option.{ForSome};
ghost use Rattle.dom_model.specs.Part.{range_at};
ghost use Rattle.dom_model.specs.RangeOps.{range_text_of, text_part as spec_text_part};
ghost use Rattle.dom_model.specs.Tree.{kind_of, is_text};
ghost use Rattle.dom_model.specs.World.{part_of};
ghost use Rattle.dom_range_ops.specs.Pieces.{AreSpanned};
ghost use Rattle.dom_range_ops.specs.Texts.{range_at_points, AreEnds, contained_text, text_among, tree_text, nodes_around};
ghost use Rattle.dom_tree.specs.Forest.{IsNode, name_of};

use crate::contained::outermost_contained;
use crate::ends::live_points;
use dom_base::{DomStr, Kind, Owner};
use dom_mutation::Doc;
use dom_ranges::Points;
use dom_tree::Forest;
use node_arena::Key;
use std::alloc::{AllocError, Global};

/// The text of an owner's live range, in code units: the part of its start node, the contained Texts in tree order and the
/// part of its end node, of which nodes but Texts have none (DOM Standard, 5.5: stringification behavior). The outermost
/// contained nodes are found first, then their trees are walked, by their links. It is refused where memory is refused.
pub fn range_text(alloc: Global, doc: &Doc, owner: Owner, number: u32) -> Result<DomStr, AllocError>
    requires there { is_some (range_at (part_of doc.now.world owner) number) ≡ true }
    ensures { IfOk result (λ text. ForSome (range_at (part_of doc.now.world owner) number)
        (λ r. text.items ≡ range_text_of (part_of doc.now.world owner).trees r)) }
{
    let points = live_points(doc, owner, number);
    let forest = doc.forest();
    forest.law_nodes_stand_once();
    text_between(alloc, forest, &points)
}

/// The text between two points of one tree.
fn text_between(alloc: Global, forest: &Forest, points: &Points) -> Result<DomStr, AllocError>
    requires { AreSpanned forest.now points.now }
    ensures { IfOk result (λ text. text.items ≡ text_among forest.now.trees (range_at_points forest.now.names points.now)
        (nodes_around forest.now.trees (range_at_points forest.now.names points.now))) }
{
    forest.law_nodes_stand_once();
    let first = points.start.0;
    let last = points.end.0;
    let mut text = Vec::from_slice(alloc, text_part(forest, points, first))?;
    if first == last && is_text(forest, first) {
        return Ok(text);
    }
    push_contained(alloc, &mut text, forest, points)?;
    text.extend_from_slice(text_part(forest, points, last))?;
    Ok(text)
}

/// The text of the nodes that are contained between two points of one tree is put behind a text: that of the tree of each
/// outermost one.
fn push_contained(
    alloc: Global,
    text: &mut DomStr,
    forest: &Forest,
    points: &Points,
) -> Result<(), AllocError>
    requires { AreSpanned forest.now points.now }
    ensures { OnOk result (text.new.items ≡ text.old.items ++ contained_text forest.now.trees (range_at_points forest.now.names points.now)
        (nodes_around forest.now.trees (range_at_points forest.now.names points.now))) }
{
    forest.law_nodes_stand_once();
    let found = outermost_contained(alloc, forest, points)?;
    let tops = found.as_slice();
    for top in tops {
        push_tree(text, forest, points, *top)?;
    }
    Ok(())
}

/// The text of the nodes of a node's tree is put behind a text.
fn push_tree(
    text: &mut DomStr,
    forest: &Forest,
    points: &Points,
    top: Key,
) -> Result<(), AllocError>
    requires ends { AreEnds forest.now points.now }
    requires node { IsNode forest.now top }
    ensures { OnOk result (text.new.items ≡ text.old.items ++ tree_text forest.now.trees (range_at_points forest.now.names points.now)
        (name_of forest.now top)) }
{
    forest.law_nodes_stand_once();
    let mut at = Some(top);
    while let Some(key) = at {
        text.extend_from_slice(text_part(forest, points, key))?;
        at = forest.following(key, top);
    }
    Ok(())
}

/// The part of a Text between two points, where the points in other nodes are no limits; other nodes have none.
fn text_part<'a>(forest: &'a Forest, points: &Points, key: Key) -> &'a [u16]
    requires node { IsNode forest.now key }
    requires ends { AreEnds forest.now points.now }
    ensures { result.now ≡ spec_text_part forest.now.trees (range_at_points forest.now.names points.now) (name_of forest.now key) }
{
    forest.law_nodes_stand_once();
    if !is_text(forest, key) {
        return &[];
    }
    let (first, from) = points.start;
    let (last, to) = points.end;
    let start = if key == first { from } else { 0 };
    let end = if key == last { to } else { forest.length(key) };
    units_between(forest.text(key), start, end)
}

/// Whether a node is a Text.
fn is_text(forest: &Forest, key: Key) -> bool
    requires { IsNode forest.now key }
    ensures { result ≡ is_text (kind_of forest.now.trees (name_of forest.now key)) }
{
    matches!(forest.kind(key), Kind::Text)
}

/// The code units from an offset on up to another one, as far as there are such.
pub(crate) fn units_between(units: &[u16], start: usize, end: usize) -> &[u16]
    ensures { result.now ≡ slice_range units.now start end }
{
    let (_, tail) = units.split_at(start.min(units.len()));
    let (part, _) = tail.split_at(end.saturating_sub(start).min(tail.len()));
    part
}
