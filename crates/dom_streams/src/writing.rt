//! Writing whole texts.

ghost use Rattle.std.specs.Prelude.{◌≡◌, ◌<◌, [], true, OnOk};
ghost use Rattle.dom_streams.specs.Writing.{EndsWriting};

use crate::fault::RunFault;
use crate::streams::{Sink, Source};

/// Writes all of the bytes.
#[inline(always)]
pub fn write_all_to<W: Sink>(sink: &mut W, bytes: &[u8]) -> Result<(), RunFault>
    ensures { EndsWriting result (W.failures sink.old) (W.failures sink.new)
        (W.contents sink.old, W.taken sink.old) (W.contents sink.new, W.taken sink.new) bytes.now ⊥ }
{
    let mut rest = bytes;
    while !rest.is_empty() {
        match sink.write(rest) {
            Ok(n) if n > 0 => rest = &rest[n..],
            _ => return Err(RunFault::Write),
        }
    }
    Ok(())
}

/// Flushes the sink.
pub fn flush<W: Sink>(sink: &mut W) -> Result<(), RunFault>
    ensures written { EndsWriting result (W.failures sink.old) (W.failures sink.new)
        (W.contents sink.old, W.taken sink.old) (W.contents sink.new, W.taken sink.new) [] ⊥ }
    ensures passed { OnOk result (W.held sink.new ≡ 0) }
{
    sink.flush().map_err(|_| RunFault::Write)
}

/// Flushes the sink where the source asks for it, before its next read.
pub fn flush_before_read<R: Source, W: Sink>(source: &R, sink: &mut W) -> Result<(), RunFault>
    ensures written { EndsWriting result (W.failures sink.old) (W.failures sink.new)
        (W.contents sink.old, W.taken sink.old) (W.contents sink.new, W.taken sink.new) [] ⊥ }
    ensures passed { R.is_awaited source.now ≡ true → OnOk result (W.held sink.new ≡ 0) }
{
    if source.wants_flush() {
        flush(sink)?;
    }
    Ok(())
}
