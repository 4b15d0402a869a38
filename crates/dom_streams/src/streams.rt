//! What a run reads from and writes to, and std's readers and writers as such.

ghost use Rattle.std.specs.Prelude.{◌≡◌, ◌+◌, ◌<◌, ◌≤◌, ℕ, Bool, List, Option, length, OnOk};
ghost use Rattle.std.specs.Io.{ReadsAtMost, WritesAtMost};
ghost use Rattle.std.specs.Io.KnownBytes.{Keeps, ReadConsumes, WriteAppends};
ghost use Rattle.dom_streams.specs.Streams.{CountsBytes, CountsFailure, CountsWrite};

use crate::count::Count;
use std::io;
use std::io::{Read, Write};

/// What gives a run its bytes. It counts these bytes, and the calls that failed.
pub trait Source {
    // The bytes that reads will give from here on, where they are known.
    ghost remaining: { Self → Option (List ℕ) };

    // How many reads have failed.
    ghost failures: { Self → ℕ };

    // How many bytes reads have given.
    ghost delivered: { Self → ℕ };

    // Whether the sink is to be flushed before the next read.
    ghost is_awaited: { Self → Bool };

    /// Whether the sink is to be flushed before the next read, since that may wait for somebody who waits for what is written.
    fn wants_flush(&self) -> bool
        ensures { result ≡ is_awaited self.now };

    /// Puts the next bytes at the front of the buffer, and gives their number: at least 1, unless the bytes are at
    /// their end or the buffer is empty. A read that fails takes no byte, and is counted.
    fn read(&mut self, buffer: &mut [u8]) -> io::Result<usize>
        ensures bound { ReadsAtMost result buffer.new }
        ensures bytes { ReadConsumes (remaining self.old) (remaining self.new) result buffer.new }
        ensures count { CountsFailure result (failures self.old) (failures self.new) }
        ensures delivered { CountsBytes result (delivered self.old) (delivered self.new) };
}

/// What takes the bytes that a run writes, and may hold some of them back. It counts these bytes, the calls that failed, and the writes that took nothing
/// of some bytes.
pub trait Sink {
    // The bytes that were taken so far, where they are known.
    ghost contents: { Self → Option (List ℕ) };

    // How many bytes were taken so far.
    ghost taken: { Self → ℕ };

    // How many writes and flushes have failed. A write that took nothing is one of them, but for a write of no bytes.
    ghost failures: { Self → ℕ };

    // How many of the bytes that it took it holds back.
    ghost held: { Self → ℕ };

    /// Takes some first bytes, and gives their number. A write that fails takes none. It is counted, as is one that does not
    /// fail and takes none where there are bytes to take.
    fn write(&mut self, bytes: &[u8]) -> io::Result<usize>
        ensures bound { WritesAtMost result bytes.now }
        ensures bytes { WriteAppends (contents self.old) (contents self.new) result bytes.now }
        ensures taken { CountsBytes result (taken self.old) (taken self.new) }
        ensures count { CountsWrite result bytes.now (failures self.old) (failures self.new) };

    /// Passes on what it holds back of the bytes that it took.
    fn flush(&mut self) -> io::Result<()>
        ensures bytes { Keeps (contents self.old) (contents self.new) }
        ensures taken { taken self.new ≡ taken self.old }
        ensures passed { OnOk result (held self.new ≡ 0) }
        ensures count { CountsFailure result (failures self.old) (failures self.new) };
}

/// One of std's readers as a source. It asks for no flush.
#[derive(Drop)]
pub struct FromReader<R: Read> {
    reader: R,
    failed_reads: Count,
    given_bytes: Count,
}

impl<R: Read> FromReader<R> {
    /// The reader, which has given no byte and of which no call has failed yet.
    pub fn new(reader: R) -> FromReader<R>
        ensures remaining { ⟦<FromReader<R> as Source>⟧.remaining result ≡ R.remaining reader }
        ensures failures { ⟦<FromReader<R> as Source>⟧.failures result ≡ 0 }
        ensures delivered { ⟦<FromReader<R> as Source>⟧.delivered result ≡ 0 }
    {
        FromReader {
            reader,
            failed_reads: Count::new(),
            given_bytes: Count::new(),
        }
    }
}

impl<R: Read> Source for FromReader<R> {
    ghost remaining = { λ s. R.remaining s.reader };

    ghost failures = { λ s. s.failed_reads.total };

    ghost delivered = { λ s. s.given_bytes.total };

    ghost use Rattle.std.specs.Prelude.{false};

    ghost is_awaited = { λ _. false };

    fn wants_flush(&self) -> bool {
        false
    }

    fn read(&mut self, buffer: &mut [u8]) -> io::Result<usize> {
        let outcome = self.reader.read(buffer);
        match outcome {
            Ok(n) => self.given_bytes = self.given_bytes.with(n),
            Err(_) => self.failed_reads = self.failed_reads.with(1),
        }
        outcome
    }
}

/// One of std's writers as a sink, which holds nothing back itself.
#[derive(Drop)]
pub struct IntoWriter<W: Write> {
    writer: W,
    taken_bytes: Count,
    failed_calls: Count,
}

impl<W: Write> IntoWriter<W> {
    /// The writer, which has taken no byte and of which no call has failed yet.
    pub fn new(writer: W) -> IntoWriter<W>
        ensures contents { ⟦<IntoWriter<W> as Sink>⟧.contents result ≡ W.contents writer }
        ensures taken { ⟦<IntoWriter<W> as Sink>⟧.taken result ≡ 0 }
        ensures failures { ⟦<IntoWriter<W> as Sink>⟧.failures result ≡ 0 }
    {
        IntoWriter {
            writer,
            taken_bytes: Count::new(),
            failed_calls: Count::new(),
        }
    }
}

impl<W: Write> Sink for IntoWriter<W> {
    ghost contents = { λ s. W.contents s.writer };

    ghost taken = { λ s. s.taken_bytes.total };

    ghost failures = { λ s. s.failed_calls.total };

    ghost held = { λ _. 0 };

    fn write(&mut self, bytes: &[u8]) -> io::Result<usize> {
        let outcome = self.writer.write(bytes);
        let is_taken = matches!(outcome, Ok(n) if n > 0 || bytes.is_empty());
        if !is_taken {
            self.failed_calls = self.failed_calls.with(1);
        }
        if let Ok(n) = outcome {
            self.taken_bytes = self.taken_bytes.with(n);
        }
        outcome
    }

    fn flush(&mut self) -> io::Result<()> {
        let outcome = self.writer.flush();
        if outcome.is_err() {
            self.failed_calls = self.failed_calls.with(1);
        }
        outcome
    }
}
