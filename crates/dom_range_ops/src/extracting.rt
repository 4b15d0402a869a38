//! The extraction of the contents of a live range (DOM Standard, concept: extract a live range).
ghost use Rattle.std.specs.Prelude.{◌≡◌, ◌⊎◌, suc, ◌<◌, ◌++◌, ◌∷◌, [], length, map, true, is_some, Some, None, IfOk, IfErr, OnOk};
ghost use Rattle.std.specs.List.{AllByRecursion};
ghost use Rattle.std.specs.Option.{option_map, ForSome};
ghost use Rattle.dom_base.specs.declared.Refusal.{Refusal as RefusalOf};
ghost use Rattle.dom_model.specs.Changes.{doing};
ghost use Rattle.dom_model.specs.CommandRefusals.{limit_on, of_range, past_limit};
ghost use Rattle.dom_model.specs.Effects.{plan_of_range};
ghost use Rattle.dom_model.specs.Extract.{own_document, new_fragment_node, pieces_of, made_by_extracting, extracting};
ghost use Rattle.dom_model.specs.Part.{range_at, next_name};
ghost use Rattle.dom_model.specs.Ranges.{at};
ghost use Rattle.dom_model.specs.Steps.{make, part_step};
ghost use Rattle.dom_model.specs.Tree.{kind_of, is_document};
ghost use Rattle.dom_model.specs.World.{part_of, is_there};
ghost use Rattle.dom_mutation.specs.Doc.{made, name_in, owner_in, trees_in, HoldsNode};
ghost use Rattle.dom_mutation.specs.Ready.{AreReady};
ghost use Rattle.dom_range_ops.specs.Extractions.{extracting_items};
ghost use Rattle.dom_range_ops.specs.Deletions.{IsRangeIn};
ghost use Rattle.dom_range_ops.specs.Pieces.{item_in, items_of, made_by};
ghost use Rattle.dom_range_ops.specs.Takings.{new_names, MayTake, IsPieceOf};
ghost use Rattle.dom_range_ops.specs.Texts.{range_at_points};
ghost use Rattle.dom_tree.specs.Forest.{IsNode, name_of};

use crate::deleting::place_after;
use crate::ends::live_points;
use crate::pieces::{Piece, count_made, pieces_between};
use crate::taking::take_pieces;
use dom_base::{Fault, Kind, MAX_NODES, Owner, Refusal};
use dom_mutation::Doc;
use dom_ranges::Points;
use dom_tree::{Forest, NodeData};
use indexmap::IndexMap;
use node_arena::Key;
use std::alloc::{AllocError, Global};

/// Extracts what is in an owner's live range into a new fragment, and gives the fragment: each contained node is moved, a node that
/// holds one end alone is cloned with what is taken from inside it, and of a Text or Comment at an end a clone gets the code units
/// that it loses. The range is then collapsed (DOM Standard, concept: extract a live range). It is refused with `Limit` where the
/// owner would have too many nodes, and then nothing is changed. Where memory is refused, which may also be in place of `Limit`, the
/// document is given up: its keys name no nodes any more.
pub fn extract(alloc: Global, doc: &mut Doc, owner: Owner, number: u32) -> Result<Key, Fault>
    requires there { is_some (range_at (part_of doc.old.world owner) number) ≡ true }
    ensures key { IfOk result (λ key. key ≡ length doc.old.names) }
    ensures names { OnOk result (ForSome (range_at (part_of doc.old.world owner) number)
        (λ r. doc.new.names ≡ doc.old.names ++ new_names owner (part_of doc.old.world owner).node_count
        (made_by_extracting (part_of doc.old.world owner) r))) }
    ensures world { OnOk result (doc.new.world ≡ made owner (λ p. plan_of_range p number (extracting number)) doc.old.world) }

    // The limit is the only refusal, and changes nothing; nothing else but memory stops an extraction.
    ensures refused { (r : RefusalOf) → result ≡ Err (Fault.Refused r) →
        of_range (part_of doc.old.world owner) number None
        (λ range. limit_on (part_of doc.old.world owner).node_count (made_by_extracting (part_of doc.old.world owner) range)) ≡ Some r }
    ensures stopped { (r : RefusalOf) → of_range (part_of doc.old.world owner) number None
        (λ range. limit_on (part_of doc.old.world owner).node_count (made_by_extracting (part_of doc.old.world owner) range)) ≡ Some r →
        (result ≡ Err (Fault.Refused r)) ⊎ (result ≡ Err Fault.Memory) }
    ensures unchanged { (r : RefusalOf) → result ≡ Err (Fault.Refused r) → doc.new ≡ doc.old }
    ensures there { OnOk result (is_some (range_at (part_of doc.new.world owner) number) ≡ true) }
{
    doc.laws();
    let points = live_points(doc, owner, number);
    let found = pieces_in(alloc, doc, &points)?;
    let pieces = found.as_slice();
    if is_past_limit(doc, owner, count_made(pieces)) {
        return Err(Fault::Refused(Refusal::Limit));
    }
    let place = place_after(alloc, doc, &points)?;
    extract_pieces(alloc, doc, owner, number, points.start.0, place, pieces)
}

/// The pieces that an extraction takes of a range of a document, in order.
fn pieces_in(alloc: Global, doc: &Doc, points: &Points) -> Result<Vec<Piece>, AllocError>
    requires { IsRangeIn doc.now points.now }
    ensures value { IfOk result (λ pieces. map (item_in doc.now.names) pieces.items ≡ items_of
        (pieces_of (trees_in doc.now points.now.start.0) (range_at_points doc.now.names points.now))) }
    ensures nodes { IfOk result (λ pieces. AllByRecursion (IsPieceOf doc.now.names) pieces.items) }
{
    let forest = doc.forest();
    forest.law_nodes_stand_once();
    pieces_between(alloc, forest, points)
}

/// Whether an owner may not make so many clones, and a fragment.
fn is_past_limit(doc: &Doc, owner: Owner, clones: usize) -> bool
    requires { is_there doc.now.world owner ≡ true }
    ensures { result ≡ past_limit (part_of doc.now.world owner).node_count (suc clones) }
{
    (MAX_NODES as usize).saturating_sub(doc.node_count(owner)) <= clones
}

/// Extracts pieces that were found of a live range whose start is at a node: a fragment is made with the start's node
/// document, gets the pieces, and is the answer; the range is then collapsed at its new place (DOM Standard, concept: extract
/// a live range). It is refused only where memory is refused.
fn extract_pieces(
    alloc: Global,
    doc: &mut Doc,
    owner: Owner,
    number: u32,
    start: Key,
    place: (Key, usize),
    pieces: &[Piece],
) -> Result<Key, Fault>
    requires there { is_some (range_at (part_of doc.old.world owner) number) ≡ true }
    requires start_is_node { HoldsNode doc.old start }
    requires start_owner { owner_in doc.old start ≡ owner }
    requires place_is_node { HoldsNode doc.old place.0 }
    requires place_owner { owner_in doc.old place.0 ≡ owner }
    requires pieces_are_nodes { AllByRecursion (IsPieceOf doc.old.names) pieces.now }
    requires may_take { MayTake (part_step (part_of doc.old.world owner)
        (make (new_fragment_node (next_name (part_of doc.old.world owner))
        (own_document (part_of doc.old.world owner).trees (name_in doc.old start))))) (next_name (part_of doc.old.world owner)) []
        (map (item_in doc.old.names) pieces.now) }
    requires ready { AreReady (made owner
        (extracting_items number (name_in doc.old start) (at (name_in doc.old place.0) place.1) (map (item_in doc.old.names) pieces.now))
        doc.old.world) }
    ensures key { IfOk result (λ key. key ≡ length doc.old.names) }
    ensures names { OnOk result (doc.new.names ≡ doc.old.names ++ new_names owner (part_of doc.old.world owner).node_count
        (suc (made_by (map (item_in doc.old.names) pieces.now)))) }
    ensures world { OnOk result (doc.new.world ≡ made owner
        (extracting_items number (name_in doc.old start) (at (name_in doc.old place.0) place.1) (map (item_in doc.old.names) pieces.now))
        doc.old.world) }
    ensures other { IfErr result (λ fault. fault ≡ Fault.Memory) }
{
    doc.laws();
    let document = own_document(doc, start);
    let into = add_fragment(alloc, doc, owner, document)?;
    doc.laws();
    take_pieces(alloc, doc, into, pieces)?;
    let (node, offset) = place;
    let points = Points {
        start: (node, offset),
        end: (node, offset),
    };
    doc.range_put(owner, number, points);
    Ok(into)
}

/// The node document of a node, which is its own where it is a document.
fn own_document(doc: &Doc, node: Key) -> Option<Key>
    requires { HoldsNode doc.now node }
    ensures value { option_map (name_in doc.now) result ≡ own_document (trees_in doc.now node) (name_in doc.now node) }
    ensures node { ForSome result (HoldsNode doc.now) }
{
    let forest = doc.forest();
    if is_document(forest, node) {
        return Some(node);
    }
    forest.document(node)
}

/// Whether a node is a document.
fn is_document(forest: &Forest, key: Key) -> bool
    requires { IsNode forest.now key }
    ensures { result ≡ is_document (kind_of forest.now.trees (name_of forest.now key)) }
{
    matches!(forest.kind(key), Kind::Document)
}

/// A new fragment of an owner, with a node document.
fn add_fragment(
    alloc: Global,
    doc: &mut Doc,
    owner: Owner,
    document: Option<Key>,
) -> Result<Key, Fault>
    requires owner_is_there { is_there doc.old.world owner ≡ true }
    requires document_is_node { ForSome document (HoldsNode doc.old) }
    requires limited { (part_of doc.old.world owner).node_count < 1000000 }
    ensures key { IfOk result (λ key. key ≡ length doc.old.names) }
    ensures names { OnOk result (doc.new.names ≡ doc.old.names ++ next_name (part_of doc.old.world owner) ∷ []) }
    ensures world { OnOk result (doc.new.world ≡ made owner
        (doing (make (new_fragment_node (next_name (part_of doc.old.world owner)) (option_map (name_in doc.old) document)))) doc.old.world) }
    ensures other { IfErr result (λ fault. fault ≡ Fault.Memory) }
{
    let fragment = NodeData {
        kind: Kind::Fragment,
        element: String::new(alloc),
        attributes: IndexMap::new(alloc),
        text: Vec::new(alloc),
        document,
    };
    doc.add(owner, fragment)
}
