//! Which lines of its output a run writes.

ghost use Rattle.std.specs.Prelude.{◌≡◌, ◌<◌, IfOk, Some, filter};
ghost use Rattle.dom_text.specs.Lines.{cut_of, text_of_lines, begins_with, owner_prefix};
ghost use Rattle.dom_streams.specs.Writing.{EndsWriting};
ghost use Rattle.dom_streams.specs.Views.{viewed};

use crate::fault::RunFault;
use crate::piece::line_end;
use crate::streams::Sink;
use crate::writing::write_all_to;
use dom_base::Owner;
use dom_printer::put_owner_word;
use std::alloc::{AllocError, Global};
use std::marker::Model;

/// The owner whose lines are written; without one every line is.
#[derive(Drop)]
pub struct View {
    owner: Option<Owner>,
    prefix: Vec<u8>,
}

impl Model for View {
    ghost use Rattle.std.specs.Prelude.{◌≡◌, Option};
    ghost use Rattle.dom_base.specs.declared.Owner.{Owner};
    ghost use Rattle.dom_streams.specs.Views.{view_prefix};

    ghost Value = { Option Owner };

    ghost view = { λ v. v.owner };

    ghost invariant = { λ v. v.prefix.items ≡ view_prefix v.owner };
}

impl View {
    /// The view of an owner's lines, or of all.
    pub fn new(alloc: Global, owner: Option<Owner>) -> Result<View, AllocError>
        ensures { IfOk result (λ view. view ≡ owner) }
    {
        let prefix = match owner {
            Some(owner) => prefix_of(alloc, owner)?,
            None => Vec::new(alloc),
        };
        Ok(View { owner, prefix })
    }

    /// Writes the lines of the text that the view keeps. It is in line, since each line of a run ends with it.
    #[inline(always)]
    pub fn write<W: Sink>(&self, sink: &mut W, text: &[u8]) -> Result<(), RunFault>
        ensures { EndsWriting result (W.failures sink.old) (W.failures sink.new) (W.contents sink.old, W.taken sink.old) (W.contents sink.new, W.taken sink.new)
            (viewed self.now text.now) ⊥ }
    {
        match self.owner {
            Some(_) => write_lines_with(sink, &self.prefix, text),
            None => write_all_to(sink, text),
        }
    }
}

/// The bytes with which an owner's lines begin.
fn prefix_of(alloc: Global, owner: Owner) -> Result<Vec<u8>, AllocError>
    ensures { IfOk result (λ prefix. prefix.items ≡ owner_prefix owner) }
{
    let mut prefix = Vec::new(alloc);
    put_owner_word(&mut prefix, owner)?;
    prefix.extend_from_slice(b" ")?;
    Ok(prefix)
}

/// The lines of a text that begin with the owner's word and a space, each with its 0x0A (own rule). An error is want of memory.
pub fn lines_seen_by(alloc: Global, owner: Owner, text: &[u8]) -> Result<Vec<u8>, AllocError>
    ensures { IfOk result (λ lines. lines.items ≡ viewed (Some owner) text.now) }
{
    let prefix = prefix_of(alloc, owner)?;
    lines_with(alloc, &prefix, text)
}

/// The lines of the text that begin with the prefix.
fn lines_with(alloc: Global, prefix: &[u8], text: &[u8]) -> Result<Vec<u8>, AllocError>
    ensures { IfOk result (λ lines. lines.items ≡ text_of_lines (filter (begins_with prefix.now) (cut_of text.now).finished)) }
{
    let mut lines = Vec::new(alloc);
    let mut rest = text;
    while let Some(at) = line_end(rest) {
        let (line, later) = rest.split_at(at + 1);
        if line[..at].starts_with(prefix) {
            lines.extend_from_slice(line)?;
        }
        rest = later;
    }
    Ok(lines)
}

/// Writes the lines of the text that begin with the prefix.
fn write_lines_with<W: Sink>(sink: &mut W, prefix: &[u8], text: &[u8]) -> Result<(), RunFault>
    ensures { EndsWriting result (W.failures sink.old) (W.failures sink.new) (W.contents sink.old, W.taken sink.old) (W.contents sink.new, W.taken sink.new)
        (text_of_lines (filter (begins_with prefix.now) (cut_of text.now).finished)) ⊥ }
{
    let mut rest = text;
    while let Some(at) = line_end(rest) {
        let (line, later) = rest.split_at(at + 1);
        if line[..at].starts_with(prefix) {
            write_all_to(sink, line)?;
        }
        rest = later;
    }
    Ok(())
}
