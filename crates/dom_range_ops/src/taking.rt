//! How what an extraction takes goes into its fragment (DOM Standard, concept: extract).
ghost use Rattle.std.specs.Prelude.{◌≡◌, ◌<◌, ◌-◌, ◌++◌, ◌∷◌, [], length, map, true, false, slice_get, string_bytes, unwrap_or, IfOk, IfErr, OnOk};
ghost use Rattle.std.specs.List.{AllByRecursion};
ghost use Rattle.std.specs.Option.{ForSome};
ghost use Rattle.dom_model.specs.Extract.{making_below};
ghost use Rattle.dom_model.specs.Part.{next_name};
ghost use Rattle.dom_model.specs.Tree.{kind_of, has_data, is_shadow, node_in};
ghost use Rattle.dom_model.specs.World.{part_of};
ghost use Rattle.dom_mutation.specs.Doc.{made, name_in, owner_in, trees_in, IsOwnNode, HoldsNode};
ghost use Rattle.dom_range_ops.specs.Pieces.{cut_item, clone_item, item_in, made_by};
ghost use Rattle.dom_range_ops.specs.Takings.{TakesNew, IsCopyOf, top_of, taking_item, taking_items, clones_after, new_names, names_in, MayTake, IsPieceOf};
ghost use Rattle.dom_tree.specs.Forest.{node_from};

use crate::cloning::{clone_node, clone_units};
use crate::pieces::Piece;
use dom_base::Fault;
use dom_mutation::Doc;
use dom_tree::NodeData;
use node_arena::Key;
use std::alloc::Global;

/// Takes pieces, in their order, into a fragment: a node is moved, of a Text or Comment a clone gets the code units that it
/// loses, and into a clone of another node goes what follows up to its end (DOM Standard, concept: extract). It is refused
/// only where memory is refused.
pub(crate) fn take_pieces(
    alloc: Global,
    doc: &mut Doc,
    into: Key,
    pieces: &[Piece],
) -> Result<(), Fault>
    requires into_is_node { HoldsNode doc.old into }
    requires pieces_are_nodes { AllByRecursion (IsPieceOf doc.old.names) pieces.now }
    requires may_take { MayTake (part_of doc.old.world (owner_in doc.old into)) (name_in doc.old into) [] (map (item_in doc.old.names) pieces.now) }
    ensures names { OnOk result (doc.new.names ≡ doc.old.names ++
        new_names (owner_in doc.old into) (part_of doc.old.world (owner_in doc.old into)).node_count
        (made_by (map (item_in doc.old.names) pieces.now))) }
    ensures world { OnOk result (doc.new.world ≡ made (owner_in doc.old into)
        (taking_items (name_in doc.old into) [] (map (item_in doc.old.names) pieces.now)) doc.old.world) }
    ensures other { IfErr result (λ fault. fault ≡ Fault.Memory) }
{
    doc.laws();
    let mut clones = Vec::new(alloc);
    for piece in pieces {
        doc.laws();
        take_piece(alloc, doc, &mut clones, into, *piece)?;
    }
    Ok(())
}

/// Takes a piece into the last clone that is not ended, or else into the fragment.
fn take_piece(
    alloc: Global,
    doc: &mut Doc,
    clones: &mut Vec<Key>,
    into: Key,
    piece: Piece,
) -> Result<(), Fault>
    requires into_is_node { HoldsNode doc.old into }
    requires clones_are_nodes { AllByRecursion (IsOwnNode doc.old into) clones.old.items }
    requires piece_is_node { IsPieceOf doc.old.names piece }
    requires may_take { MayTake (part_of doc.old.world (owner_in doc.old into)) (name_in doc.old into) (names_in doc.old clones.old.items)
        (item_in doc.old.names piece ∷ []) }
    ensures names { OnOk result (doc.new.names ≡ doc.old.names ++
        new_names (owner_in doc.old into) (part_of doc.old.world (owner_in doc.old into)).node_count (made_by (item_in doc.old.names piece ∷ []))) }
    ensures world { OnOk result (doc.new.world ≡ made (owner_in doc.old into)
        (taking_item (top_of (name_in doc.old into) (names_in doc.old clones.old.items)) (item_in doc.old.names piece)) doc.old.world) }
    ensures clones { OnOk result (names_in doc.new clones.new.items ≡ clones_after (next_name (part_of doc.old.world (owner_in doc.old into)))
        (item_in doc.old.names piece) (names_in doc.old clones.old.items)) }
    ensures clones_are_nodes { OnOk result (AllByRecursion (IsOwnNode doc.new into) clones.new.items) }
    ensures other { IfErr result (λ fault. fault ≡ Fault.Memory) }
{
    doc.laws();
    let top = top_of(clones.as_slice(), into);
    match piece {
        Piece::Whole(node) => doc.insert_unchecked(top, node, None)?,
        Piece::Cut(node, from, to) => take_units(alloc, doc, top, (node, from, to))?,
        Piece::Clone(node) => {
            let clone = take_clone(alloc, doc, top, node)?;
            clones.push(clone)?;
        }
        Piece::End => {
            let _ = clones.pop();
        }
    }
    Ok(())
}

/// The last of some clones, or else the fragment.
fn top_of(clones: &[Key], into: Key) -> Key
    ensures { result ≡ unwrap_or (slice_get clones.now (length clones.now - 1)) into }
{
    match clones.last() {
        Some(clone) => *clone,
        None => into,
    }
}

/// A clone of a Text or Comment with the code units between two offsets goes below a node, and the units leave the first.
fn take_units(alloc: Global, doc: &mut Doc, top: Key, cut: (Key, usize, usize)) -> Result<(), Fault>
    requires top { TakesNew doc.old top }
    requires node_is_node { HoldsNode doc.old cut.0 }
    requires node_owner { owner_in doc.old cut.0 ≡ owner_in doc.old top }
    requires units { has_data (kind_of (trees_in doc.old top) (name_in doc.old cut.0)) ≡ true }
    ensures names { OnOk result (doc.new.names ≡ doc.old.names ++ next_name (part_of doc.old.world (owner_in doc.old top)) ∷ []) }
    ensures world { OnOk result (doc.new.world ≡ made (owner_in doc.old top)
        (taking_item (name_in doc.old top) (cut_item (name_in doc.old cut.0) cut.1 cut.2)) doc.old.world) }
    ensures other { IfErr result (λ fault. fault ≡ Fault.Memory) }
{
    doc.laws();
    let (node, from, to) = cut;
    let forest = doc.forest();
    let copy = clone_units(alloc, forest, node, from, to)?;
    add_below(doc, top, node, copy)?;
    doc.delete_data(node, from, to.saturating_sub(from))?;
    Ok(())
}

/// A clone of a node without its children goes below another node, and is the answer.
fn take_clone(alloc: Global, doc: &mut Doc, top: Key, node: Key) -> Result<Key, Fault>
    requires top { TakesNew doc.old top }
    requires node_is_node { HoldsNode doc.old node }
    requires node_owner { owner_in doc.old node ≡ owner_in doc.old top }
    requires no_shadow { is_shadow (kind_of (trees_in doc.old top) (name_in doc.old node)) ≡ false }
    ensures key { IfOk result (λ key. key ≡ length doc.old.names) }
    ensures names { OnOk result (doc.new.names ≡ doc.old.names ++ next_name (part_of doc.old.world (owner_in doc.old top)) ∷ []) }
    ensures world { OnOk result (doc.new.world ≡ made (owner_in doc.old top)
        (taking_item (name_in doc.old top) (clone_item (name_in doc.old node))) doc.old.world) }
    ensures other { IfErr result (λ fault. fault ≡ Fault.Memory) }
{
    let forest = doc.forest();
    let copy = clone_node(alloc, forest, node)?;
    add_below(doc, top, node, copy)
}

/// A clone of a node becomes the last child of another one of its owner, and is the answer.
fn add_below(doc: &mut Doc, top: Key, of: Key, node: NodeData) -> Result<Key, Fault>
    requires top { TakesNew doc.old top }
    requires of_is_node { HoldsNode doc.old of }
    requires owner { owner_in doc.old of ≡ owner_in doc.old top }
    requires copy { IsCopyOf doc.old of node }
    ensures key { IfOk result (λ key. key ≡ length doc.old.names) }
    ensures names { OnOk result (doc.new.names ≡ doc.old.names ++ next_name (part_of doc.old.world (owner_in doc.old top)) ∷ []) }
    ensures world { OnOk result (doc.new.world ≡ made (owner_in doc.old top)
        (making_below (name_in doc.old top) (node_from doc.old.names (next_name (part_of doc.old.world (owner_in doc.old top))) node))
        doc.old.world) }
    ensures other { IfErr result (λ fault. fault ≡ Fault.Memory) }
{
    doc.laws();
    let new = doc.add_clone(of, node)?;
    doc.laws();
    doc.insert_unchecked(top, new, None)?;
    Ok(new)
}
