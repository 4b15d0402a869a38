//! Where a line ends.

ghost use Rattle.std.specs.Prelude.{◌<◌, IfSome, IfNone};
ghost use Rattle.dom_text.specs.Lines.{IsOneLine};
ghost use Rattle.dom_streams.specs.Piece.{EndsAt};

use memchr::memchr;

/// The place of the first line feed.
pub fn line_end(bytes: &[u8]) -> Option<usize>
    ensures some { IfSome result (λ at. EndsAt bytes.now at) }
    ensures room { IfSome result (λ at. at < usize.MAX) }
    ensures none { IfNone result (IsOneLine bytes.now) }
{
    memchr(b'\n', bytes)
}
