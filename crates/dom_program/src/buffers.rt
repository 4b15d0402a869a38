//! Buffered input and output. Before more input is read, the output that is kept is handed on, so that nobody waits for an answer that is
//! ready.
ghost use Rattle.std.specs.Prelude.{◌≡◌, ◌+◌, ◌<◌, [], false, IfOk, IsErr, OnOk};
ghost use Rattle.std.specs.Io.{WritesAtMost};
ghost use Rattle.std.specs.Io.Buffered.{writer_buffer, writer_contents};
ghost use Rattle.std.specs.Io.KnownBytes.{Keeps, WriteAppends};
ghost use Rattle.dom_streams.specs.Streams.{CountsFailure};

use dom_streams::{Count, Sink, Source};
use std::alloc::{AllocError, Global};
use std::io;
use std::io::{BufReader, BufWriter, ErrorKind, Read, Write};

/// The most bytes of input, and the most bytes of output, that are kept.
const ROOM: usize = 1 << 16;

/// Output that is kept, and the writer that it is handed on to. After a call has failed, nothing more is handed on, and what is kept is
/// dropped at the end.
pub struct Output<W: Write + Drop> {
    kept: BufWriter<W>,
    has_failed: bool,
    taken_bytes: Count,
    failed_calls: Count,
    ghost noted: { has_failed ≡ false → failed_calls.total ≡ 0 },
}

impl<W: Write + Drop> Output<W> {
    ghost use Rattle.dom_program.specs.Buffers.{handed_to};

    /// Output before its first byte. No call of it has failed.
    pub fn new(alloc: Global, writer: W) -> Result<Output<W>, AllocError>
        ensures contents { IfOk result (λ output. ⟦<Output<W> as Sink>⟧.contents output ≡ W.contents writer) }
        ensures taken { IfOk result (λ output. ⟦<Output<W> as Sink>⟧.taken output ≡ 0) }
        ensures failures { IfOk result (λ output. ⟦<Output<W> as Sink>⟧.failures output ≡ 0) }
    {
        let kept = BufWriter::with_capacity(alloc, ROOM, writer).map_err(|_| AllocError)?;
        Ok(Output {
            kept,
            has_failed: false,
            taken_bytes: Count::new(),
            failed_calls: Count::new(),
        })
    }

    /// Fails if a call has failed.
    #[inline(always)]
    fn expect_no_failure(&self) -> io::Result<()>
        ensures { 0 < self.now.failed_calls.total → IsErr result }
    {
        if self.has_failed {
            return Err(failed_before());
        }
        Ok(())
    }

    /// Counts a call that has failed.
    fn note_failure(&mut self)
        ensures failed { self.new.failed_calls.total ≡ self.old.failed_calls.total + 1 }
        ensures kept { self.new.kept ≡ self.old.kept }
        ensures taken { self.new.taken_bytes.total ≡ self.old.taken_bytes.total }
    {
        self.has_failed = true;
        self.failed_calls = self.failed_calls.with(1);
    }

    /// Keeps some first bytes, and gives their number. If they find no room, what was kept before is handed on.
    #[inline(always)]
    fn keep(&mut self, bytes: &[u8]) -> io::Result<usize>
        ensures bound { WritesAtMost result bytes.now }
        ensures bytes { WriteAppends (writer_contents W.contents self.old.kept) (writer_contents W.contents self.new.kept) result bytes.now }
        ensures calls { self.new.failed_calls.total ≡ self.old.failed_calls.total }
        ensures taken { self.new.taken_bytes.total ≡ self.old.taken_bytes.total }
        ensures ended { 0 < self.old.failed_calls.total → self.new.kept ≡ self.old.kept }
    {
        self.expect_no_failure()?;
        self.kept.write(bytes)
    }

    /// Hands on all that is kept, without counting a failure. It fails if a call has failed before, and then hands nothing on.
    fn empty(&mut self) -> io::Result<()>
        ensures bytes { Keeps (writer_contents W.contents self.old.kept) (writer_contents W.contents self.new.kept) }
        ensures empty { OnOk result (writer_buffer self.new.kept ≡ []) }
        ensures all { OnOk result (writer_contents W.contents self.new.kept ≡ W.contents (handed_to self.new)) }
        ensures calls { self.new.failed_calls.total ≡ self.old.failed_calls.total }
        ensures taken { self.new.taken_bytes.total ≡ self.old.taken_bytes.total }
        ensures ended { 0 < self.old.failed_calls.total → self.new.kept ≡ self.old.kept }
        ensures refused { 0 < self.old.failed_calls.total → IsErr result }
    {
        self.expect_no_failure()?;
        self.kept.flush()
    }

    /// Hands on all that is kept. A failure is counted. After it nothing more is handed on, and every call fails.
    pub fn hand_on(&mut self) -> io::Result<()>
        ensures bytes { Keeps (writer_contents W.contents self.old.kept) (writer_contents W.contents self.new.kept) }
        ensures empty { OnOk result (writer_buffer self.new.kept ≡ []) }
        ensures all { OnOk result (writer_contents W.contents self.new.kept ≡ W.contents (handed_to self.new)) }
        ensures count { CountsFailure result (⟦<Output<W> as Sink>⟧.failures self.old) (⟦<Output<W> as Sink>⟧.failures self.new) }
        ensures taken { self.new.taken_bytes.total ≡ self.old.taken_bytes.total }
        ensures ended { 0 < self.old.failed_calls.total → self.new.kept ≡ self.old.kept }
        ensures refused { 0 < self.old.failed_calls.total → IsErr result }
    {
        let outcome = self.empty();
        if outcome.is_err() {
            self.note_failure();
        }
        outcome
    }
}

/// The error of a call after one that has failed. It is not inlined, since few calls have it.
#[cold]
#[inline(never)]
fn failed_before() -> io::Error {
    ErrorKind::BrokenPipe.into()
}

impl<W: Write + Drop> Sink for Output<W> {
    ghost use Rattle.std.specs.Prelude.{length};
    ghost use Rattle.std.specs.Io.Buffered.{writer_buffer, writer_contents};

    ghost contents = { λ s. writer_contents W.contents s.kept };

    ghost taken = { λ s. s.taken_bytes.total };

    ghost failures = { λ s. s.failed_calls.total };

    ghost held = { λ s. length (writer_buffer s.kept) };

    #[inline(always)]
    fn write(&mut self, bytes: &[u8]) -> io::Result<usize> {
        let outcome = self.keep(bytes);
        let is_taken = matches!(outcome, Ok(n) if n > 0 || bytes.is_empty());
        if !is_taken {
            self.note_failure();
        }
        if let Ok(n) = outcome {
            self.taken_bytes = self.taken_bytes.with(n);
        }
        outcome
    }

    fn flush(&mut self) -> io::Result<()> {
        self.hand_on()
    }
}

/// What is kept is dropped: the writer takes no more.
impl<W: Write + Drop> Drop for Output<W> {
    fn drop(self) {
        let Output {
            kept,
            has_failed: _,
            taken_bytes: _,
            failed_calls: _,
        } = self;
        let _ = kept.into_parts();
    }
}

/// A reader of which many bytes are read at once. When none of them are left, it asks for a flush before it reads more.
#[derive(Drop)]
pub struct Input<R: Read + Drop> {
    reader: BufReader<R>,
    failed_reads: Count,
    given_bytes: Count,
}

impl<R: Read + Drop> Input<R> {
    /// The reader, before its first byte. No call of it has failed.
    pub fn new(alloc: Global, reader: R) -> Result<Input<R>, AllocError>
        ensures remaining { IfOk result (λ input. ⟦<Input<R> as Source>⟧.remaining input ≡ R.remaining reader) }
        ensures failures { IfOk result (λ input. ⟦<Input<R> as Source>⟧.failures input ≡ 0) }
        ensures delivered { IfOk result (λ input. ⟦<Input<R> as Source>⟧.delivered input ≡ 0) }
    {
        let reader = BufReader::with_capacity(alloc, ROOM, reader).map_err(|_| AllocError)?;
        Ok(Input {
            reader,
            failed_reads: Count::new(),
            given_bytes: Count::new(),
        })
    }
}

impl<R: Read + Drop> Source for Input<R> {
    ghost use Rattle.std.specs.Prelude.{◌==◌, length};
    ghost use Rattle.std.specs.Io.Buffered.{reader_buffer, reader_remaining};

    ghost remaining = { λ s. reader_remaining R.remaining s.reader };

    ghost failures = { λ s. s.failed_reads.total };

    ghost delivered = { λ s. s.given_bytes.total };

    ghost is_awaited = { λ s. length (reader_buffer s.reader) == 0 };

    fn wants_flush(&self) -> bool {
        self.reader.buffer().is_empty()
    }

    fn read(&mut self, buffer: &mut [u8]) -> io::Result<usize> {
        let outcome = self.reader.read(buffer);
        match outcome {
            Ok(n) => self.given_bytes = self.given_bytes.with(n),
            Err(_) => self.failed_reads = self.failed_reads.with(1),
        }
        outcome
    }
}
