//! A line as a row of pieces.
ghost use Rattle.std.specs.Prelude.{◌≡◌, ◌++◌, OnOk, OnErr};
ghost use Rattle.dom_printer.specs.Keeping.{Keeps};
ghost use Rattle.dom_printer.specs.Lines.{line_text};
ghost use Rattle.dom_printer.specs.Pieces.{piece_text, pieces_text};

use crate::buffers::cut_if_refused;
use crate::names::{put_node, put_number, put_owner};
use crate::strings::put_units;
use dom_base::{NodeName, Owner};
use std::alloc::AllocError;

/// A part of a line: a text alone, or a text and what stands behind it.
#[derive(Clone, Copy)]
pub(crate) enum Piece<'a> {
    Text(&'a [u8]),
    Bytes(&'a [u8], &'a [u8]),
    Number(&'a [u8], usize),
    Owner(&'a [u8], &'a Owner),
    Node(&'a [u8], &'a NodeName),
    Units(&'a [u8], &'a [u16]),
}

/// Puts a line of the owner's: the owner's word, a space, the pieces and the line's end. Where memory is refused, the
/// buffer is as before.
pub(crate) fn put_line(
    out: &mut Vec<u8>,
    owner: &Owner,
    pieces: &[Piece<'_>],
) -> Result<(), AllocError>
    ensures ok { OnOk result (out.new.items ≡ out.old.items ++ line_text owner.now (pieces_text owner.now pieces.now)) }
    ensures err { OnErr result (out.new.items ≡ out.old.items) }
{
    let length = out.len();
    let put = put_line_parts(out, owner, pieces);
    cut_if_refused(out, length, put)
}

/// Puts a line of the owner's, as far as there is memory.
#[tactic(auto, using(crate::proofs::KeepLaws::keeps_at))]
fn put_line_parts(out: &mut Vec<u8>, owner: &Owner, pieces: &[Piece<'_>]) -> Result<(), AllocError>
    ensures ok { OnOk result (out.new.items ≡ out.old.items ++ line_text owner.now (pieces_text owner.now pieces.now)) }
    ensures err { OnErr result (Keeps out.old.items out.new.items) }
{
    put_owner(out, owner)?;
    out.push(b' ')?;
    put_pieces(out, owner, pieces)?;
    Ok(out.push(b'\n')?)
}

/// Puts one piece after the other, as far as there is memory.
#[tactic(auto, using(crate::proofs::KeepLaws::keeps_at))]
fn put_pieces(out: &mut Vec<u8>, viewer: &Owner, pieces: &[Piece<'_>]) -> Result<(), AllocError>
    ensures ok { OnOk result (out.new.items ≡ out.old.items ++ pieces_text viewer.now pieces.now) }
    ensures err { OnErr result (Keeps out.old.items out.new.items) }
{
    for piece in pieces {
        put_piece(out, viewer, piece)?;
    }
    Ok(())
}

/// Puts a piece as the viewer sees it.
#[tactic(auto, using(crate::proofs::KeepLaws::keeps_at))]
fn put_piece(out: &mut Vec<u8>, viewer: &Owner, piece: &Piece<'_>) -> Result<(), AllocError>
    ensures ok { OnOk result (out.new.items ≡ out.old.items ++ piece_text viewer.now piece.now) }
    ensures err { OnErr result (Keeps out.old.items out.new.items) }
{
    out.extend_from_slice(piece.text())?;
    match piece {
        Piece::Text(_) => Ok(()),
        Piece::Bytes(_, bytes) => out.extend_from_slice(bytes),
        Piece::Number(_, number) => put_number(out, *number),
        Piece::Owner(_, owner) => put_owner(out, owner),
        Piece::Node(_, node) => put_node(out, viewer, &node.owner, node.number),
        Piece::Units(_, units) => put_units(out, units),
    }
}

impl Piece<'_> {
    ghost use Rattle.dom_printer.specs.Pieces.{text_in};

    /// The text with which it begins.
    fn text(&self) -> &[u8]
        ensures { result.now ≡ text_in self.now }
    {
        match self {
            Piece::Text(text)
            | Piece::Bytes(text, _)
            | Piece::Number(text, _)
            | Piece::Owner(text, _)
            | Piece::Node(text, _)
            | Piece::Units(text, _) => text,
        }
    }
}
