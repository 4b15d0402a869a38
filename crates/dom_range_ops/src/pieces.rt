//! What an extraction takes of the tree of a live range (DOM Standard, concept: extract).
ghost use Rattle.std.specs.Prelude.{◌≡◌, ◌∷◌, [], map, List, IfOk, if◌then◌else◌};
ghost use Rattle.dom_base.specs.declared.NodeName.{NodeName as Name};
ghost use Rattle.dom_model.specs.Extract.{pieces_of, pieces_apart};
ghost use Rattle.dom_range_ops.specs.Pieces.{items_of, item_in, made_by, AreItems, AreSpanned, HasPaths};
ghost use Rattle.dom_range_ops.specs.Texts.{range_at_points};

use crate::ends::{is_collapsed, is_in_one_data};
use crate::pieces::paths::parted_paths;
use crate::pieces::sides::push_pieces;
use dom_ranges::Points;
use dom_tree::Forest;
use node_arena::Key;
use std::alloc::{AllocError, Global};

pub(crate) mod paths;
mod runs;
mod sides;

/// For so many pieces there is room from the first on.
const SOME: usize = 8;

/// A piece of what is extracted.
#[derive(Clone, Copy)]
pub(crate) enum Piece {
    /// A node, as it is, with all below it.
    Whole(Key),
    /// A clone of a Text or Comment with the code units between two offsets, which the node loses.
    Cut(Key, usize, usize),
    /// A clone of another node, into which the pieces go that follow, up to its end.
    Clone(Key),
    /// The end of what goes into the last clone that is not ended.
    End,
}

/// The pieces that an extraction takes of the tree of a range, in order (DOM Standard, concept: extract). The nodes
/// above the two ends are walked, and of their children those that are taken. It is refused where memory is refused.
pub(crate) fn pieces_between(
    alloc: Global,
    forest: &Forest,
    points: &Points,
) -> Result<Vec<Piece>, AllocError>
    requires { AreSpanned forest.now points.now }
    ensures { IfOk result (λ pieces. AreItems forest.now.names pieces.items
        (items_of (pieces_of forest.now.trees (range_at_points forest.now.names points.now)))) }
{
    forest.law_nodes_stand_once();
    let mut pieces = Vec::new(alloc);
    if is_collapsed(points) {
        return Ok(pieces);
    }
    if is_in_one_data(forest, points) {
        let (node, from) = points.start;
        let (_, to) = points.end;
        pieces.push(Piece::Cut(node, from, to))?;
        return Ok(pieces);
    }
    pieces_apart(alloc, forest, points)
}

/// The pieces of a range that is neither collapsed nor in one Text or Comment.
pub(crate) fn pieces_apart(
    alloc: Global,
    forest: &Forest,
    points: &Points,
) -> Result<Vec<Piece>, AllocError>
    requires { AreSpanned forest.now points.now }
    ensures paths { IfOk result (λ pieces. HasPaths forest.now points.now) }
    ensures items { IfOk result (λ pieces. AreItems forest.now.names pieces.items
        (items_of (pieces_apart forest.now.trees (range_at_points forest.now.names points.now)))) }
{
    forest.law_nodes_stand_once();
    let (start_path, end_path) = parted_paths(alloc, forest, points)?;
    let mut pieces = Vec::with_capacity(alloc, SOME)?;
    push_pieces(
        &mut pieces,
        forest,
        points,
        start_path.as_slice(),
        end_path.as_slice(),
    )?;
    Ok(pieces)
}

/// How many nodes the taking of pieces makes: one for each clone.
pub(crate) fn count_made(pieces: &[Piece]) -> usize
    ensures { (names : List Name) → result ≡ made_by (map (item_in names) pieces.now) }
{
    let mut count = 0;
    for piece in pieces {
        if is_made(piece) {
            count += 1;
        }
    }
    count
}

/// Whether a node is made for a piece.
fn is_made(piece: &Piece) -> bool
    ensures { (names : List Name) → made_by (item_in names piece.now ∷ []) ≡ (if result then 1 else 0) }
{
    matches!(piece, Piece::Cut(_, _, _) | Piece::Clone(_))
}
