//! Deleting the contents of a live range (DOM Standard, 5.5 Interface Range).
ghost use Rattle.std.specs.Prelude.{◌≡◌, map, true, is_some, IfOk, IfErr, OnOk};
ghost use Rattle.std.specs.List.{AllByRecursion};
ghost use Rattle.dom_base.specs.declared.Fault.TheVariants.{Memory};
ghost use Rattle.dom_model.specs.Changes.{in_turn, remove_plan, observed};
ghost use Rattle.dom_model.specs.Effects.{plan_of_range};
ghost use Rattle.dom_model.specs.Extract.{is_in_one_data, new_place};
ghost use Rattle.dom_model.specs.Part.{range_at};
ghost use Rattle.dom_model.specs.RangeOps.{cutting_data, outermost_contained, deleting_contents, deleting};
ghost use Rattle.dom_model.specs.Ranges.{at};
ghost use Rattle.dom_model.specs.World.{part_of};
ghost use Rattle.dom_mutation.specs.Doc.{made, planned, name_in, owner_in, trees_in, HoldsNode};
ghost use Rattle.dom_range_ops.specs.Deletions.{IsRangeIn, cutting};
ghost use Rattle.dom_range_ops.specs.Texts.{range_at_points, AreEnds};
ghost use Rattle.dom_tree.specs.Forest.{IsNode, name_of};

use crate::contained::outermost_contained;
use crate::ends::{has_data, is_collapsed, is_in_one_data, live_points, new_place};
use dom_base::{Fault, Owner};
use dom_mutation::Doc;
use dom_ranges::Points;
use dom_tree::Forest;
use node_arena::Key;
use std::alloc::{AllocError, Global};

/// Deletes what is in an owner's live range: the parts of a Text or Comment at its ends, and each contained node whose parent
/// is not contained, in tree order; the range then stands at its start, or just behind what is left of it (DOM Standard,
/// deleteContents()). A collapsed range stays as it is. It is refused where memory is refused, and only
/// then; the document is then given up, and its keys name no nodes any more.
pub fn delete(alloc: Global, doc: &mut Doc, owner: Owner, number: u32) -> Result<(), Fault>
    requires there { is_some (range_at (part_of doc.old.world owner) number) ≡ true }
    ensures names { OnOk result (doc.new.names ≡ doc.old.names) }
    ensures world { OnOk result (doc.new.world ≡ made owner (λ p. plan_of_range p number (deleting number)) doc.old.world) }
    ensures other { IfErr result (λ fault. fault ≡ Memory) }
    ensures there { OnOk result (is_some (range_at (part_of doc.new.world owner) number) ≡ true) }
{
    doc.laws();
    let points = live_points(doc, owner, number);
    if is_collapsed(&points) {
        return Ok(());
    }
    let (node, offset) = place_after(alloc, doc, &points)?;
    delete_contents(alloc, doc, &points)?;
    let collapsed = Points {
        start: (node, offset),
        end: (node, offset),
    };
    doc.range_put(owner, number, collapsed);
    Ok(())
}

/// What is in a range is deleted, of which the parts are found first.
fn delete_contents(alloc: Global, doc: &mut Doc, points: &Points) -> Result<(), AllocError>
    requires { IsRangeIn doc.old points.now }
    ensures { OnOk result (doc.new ≡ planned (owner_in doc.old points.now.start.0)
        (deleting_contents (trees_in doc.old points.now.start.0) (range_at_points doc.old.names points.now)) doc.old) }
{
    doc.laws();
    let first = points.start.0;
    let last = points.end.0;
    let forest = doc.forest();
    forest.law_nodes_stand_once();
    let at_start = part_in(forest, points, first);
    if is_in_one_data(forest, points) {
        return cut(doc, first, at_start);
    }
    let at_end = part_in(forest, points, last);
    let found = outermost_contained(alloc, forest, points)?;
    cut(doc, first, at_start)?;
    remove_each(doc, first, found.as_slice())?;
    cut(doc, last, at_end)
}

/// Where a range of a document stands after its contents were taken. It is refused where memory is refused.
pub(crate) fn place_after(
    alloc: Global,
    doc: &Doc,
    points: &Points,
) -> Result<(Key, usize), AllocError>
    requires { IsRangeIn doc.now points.now }
    ensures value { IfOk result (λ place. at (name_in doc.now place.0) place.1 ≡
        new_place (trees_in doc.now points.now.start.0) (range_at_points doc.now.names points.now)) }
    ensures node { IfOk result (λ place. HoldsNode doc.now place.0) }
    ensures owner { IfOk result (λ place. owner_in doc.now place.0 ≡ owner_in doc.now points.now.start.0) }
{
    let forest = doc.forest();
    forest.law_nodes_stand_once();
    new_place(alloc, forest, points)
}

/// The part of a node in a range, by an offset and a count of code units, if the node is a Text or a Comment.
fn part_in(forest: &Forest, points: &Points, key: Key) -> Option<(usize, usize)>
    requires node { IsNode forest.now key }
    requires ends { AreEnds forest.now points.now }
    ensures { cutting (name_of forest.now key) result ≡ cutting_data forest.now.trees (range_at_points forest.now.names points.now)
        (name_of forest.now key) }
{
    forest.law_nodes_stand_once();
    if !has_data(forest, key) {
        return None;
    }
    let (first, start) = points.start;
    let (last, end) = points.end;
    let from = if key == first { start } else { 0 };
    let to = if key == last { end } else { forest.length(key) };
    Some((from, to.saturating_sub(from)))
}

/// A part of a node's data goes, if there is one.
fn cut(doc: &mut Doc, key: Key, part: Option<(usize, usize)>) -> Result<(), AllocError>
    requires { HoldsNode doc.old key }
    ensures { OnOk result (doc.new ≡ planned (owner_in doc.old key) (cutting (name_in doc.old key) part) doc.old) }
{
    let Some((from, count)) = part else {
        return Ok(());
    };
    doc.delete_data(key, from, count)
}

/// Some nodes of the owner of `first` leave their parents, one after another.
fn remove_each(doc: &mut Doc, first: Key, keys: &[Key]) -> Result<(), AllocError>
    requires first_is_node { HoldsNode doc.old first }
    requires nodes { AllByRecursion (λ k. (HoldsNode doc.old k) × (owner_in doc.old k ≡ owner_in doc.old first)) keys.now }
    ensures { OnOk result (doc.new ≡ planned (owner_in doc.old first) (in_turn (remove_plan observed) (map (name_in doc.old) keys.now)) doc.old) }
{
    doc.laws();
    for key in keys {
        doc.laws();
        doc.remove(*key)?;
    }
    Ok(())
}
