//! Laws of lines that come in pieces, for a caller that feeds a splitter. They make no calls.
ghost use Rattle.dom_reader.specs.Streams.{PiecesAreTheirStream, PiecesGiveTheirLines};

/// Whatever the cuts (own rule): pieces that are fed one after another complete the lines, and leave the bytes, that all of
/// them in one piece do; and from a new splitter on they complete the lines of their stream, of each as much as is kept of
/// a line, where the last line is the one that `finish` gives.
pub fn law_pieces()
    ensures stream { PiecesAreTheirStream }
    ensures lines { PiecesGiveTheirLines }
{}
