//! Bytes cut into lines as they come.

ghost use Rattle.std.specs.Prelude.{◌≡◌, ◌++◌, ℕ, [], IfNone, IfOk, IfSome, OnErr, OnOk, map, option_to_list};
ghost use Rattle.dom_text.specs.Lines.{kept_line, last_line};
ghost use Rattle.dom_reader.specs.Streams.{fed, HasNoWholeLine, IsFedPart, IsKept, IsWholeLine};

use dom_base::MAX_LINE;
use memchr::memchr;
use std::alloc::{AllocError, Global};
use std::marker::Model;
use std::mem;

/// Puts the bytes behind those that are kept of a line, as many of them as are kept of a line at most.
fn keep(kept: &mut Vec<u8>, bytes: &[u8]) -> Result<(), AllocError>
    requires { IsKept kept.old.items }
    ensures ok { OnOk result (kept.new.items ≡ kept_line (kept.old.items ++ bytes.now)) }
    ensures refused { OnErr result (kept.new.items ≡ kept.old.items) }
{
    let room = MAX_LINE + 1 - kept.len();
    let taken = bytes.len().min(room);
    kept.extend_from_slice(&bytes[..taken])
}

/// The lines that the piece completes behind the bytes that are kept, which are those of the unfinished line afterwards.
fn completed(alloc: Global, kept: &mut Vec<u8>, piece: &[u8]) -> Result<Vec<Vec<u8>>, AllocError>
    requires { IsKept kept.old.items }
    ensures lines { IfOk result (λ lines. map (λ line. line.items) lines.items ≡ (fed kept.old.items piece.now).finished) }
    ensures left { OnOk result (kept.new.items ≡ (fed kept.old.items piece.now).rest) }
    ensures refused { OnErr result (IsFedPart kept.old.items piece.now kept.new.items) }
{
    let mut lines = Vec::new(alloc);
    let mut rest = piece;
    while let Some(end) = memchr(b'\n', rest) {
        keep(kept, &rest[..end])?;
        let line = mem::replace(kept, Vec::new(alloc));
        lines.push(line)?;
        rest = &rest[end + 1..];
    }
    keep(kept, rest)?;
    Ok(lines)
}

/// The lines of a stream of bytes that comes in pieces. Each line is ended by a line feed, which is no part of it. Of a
/// line that is longer than a line may be the first 65,537 bytes are kept: enough to see that it is too long.
#[derive(Drop)]
pub struct Splitter {
    kept: Vec<u8>,
    alloc: Global,
}

impl Model for Splitter {
    ghost use Rattle.std.specs.Prelude.{ℕ, List};
    ghost use Rattle.dom_reader.specs.Streams.{IsKept};

    ghost Value = { List ℕ };

    ghost view = { λ s. s.kept.items };

    ghost invariant = { λ s. IsKept s.kept.items };
}

impl Splitter {
    /// A splitter before the first byte of its stream. It takes no memory yet.
    pub fn new(alloc: Global) -> Splitter
        ensures { result ≡ [] }
    {
        Splitter {
            kept: Vec::new(alloc),
            alloc,
        }
    }

    /// The lines that the piece completes, in order, each without its end. Behind them stay the bytes of the line that is
    /// not complete. Where memory is refused the lines that were completed so far are lost, and what stays is what some
    /// front of the piece leaves.
    pub fn feed(&mut self, piece: &[u8]) -> Result<Vec<Vec<u8>>, AllocError>
        ensures lines { IfOk result (λ lines. map (λ line. line.items) lines.items ≡ (fed self.old piece.now).finished) }
        ensures kept { OnOk result (self.new ≡ (fed self.old piece.now).rest) }
        ensures refused { OnErr result (IsFedPart self.old piece.now self.new) }
    {
        completed(self.alloc, &mut self.kept, piece)
    }

    /// The first line of bytes that come next, where it lies whole in them, and the bytes behind its line feed; none where
    /// bytes of a line stayed, or there is no line feed. A line that is longer than a line may be is cut as `feed` cuts it.
    /// Nothing is fed, and it takes no memory.
    pub fn whole_line<'a>(&self, bytes: &'a [u8]) -> Option<(&'a [u8], &'a [u8])>
        ensures some { IfSome result (λ r. IsWholeLine self.now bytes.now r.0.now r.1.now) }
        ensures none { IfNone result (HasNoWholeLine self.now bytes.now) }
    {
        if !self.kept.is_empty() {
            return None;
        }
        let end = memchr(b'\n', bytes)?;
        let line = &bytes[..end];
        let taken = line.len().min(MAX_LINE + 1);
        Some((&line[..taken], &bytes[end + 1..]))
    }

    /// The last line, where the stream ended without a line feed and bytes stayed behind the last one. Nothing stays. It
    /// takes no memory.
    pub fn finish(&mut self) -> Option<Vec<u8>>
        ensures last { map (λ line. line.items) (option_to_list result) ≡ last_line self.old }
        ensures empty { self.new ≡ [] }
    {
        let line = mem::replace(&mut self.kept, Vec::new(self.alloc));
        if line.is_empty() { None } else { Some(line) }
    }
}
