//! Runs: all lines of a source, from its first byte to its end, and their output into a sink.

ghost use Rattle.std.specs.Prelude.{◌≡◌, ◌+◌, ◌<◌, ◌≤◌, ℕ, List, ◌∷◌, [], ◌++◌, length, map, take, IsTrue, IfErr, IfOk, IfSome, OnOk};
ghost use Rattle.std.specs.Io.{ReadsAtMost};
ghost use Rattle.dom_streams.specs.Streams.{CountsBytes};
ghost use Rattle.std.specs.Io.KnownBytes.{Consumes, IsAtEnd, ReadConsumes};
ghost use Rattle.dom_model.specs.DocumentMachine.{first_world};
ghost use Rattle.dom_model.specs.Trace.{no_component_stops};
ghost use Rattle.dom_text.specs.Decode.{decode};
ghost use Rattle.dom_text.specs.Lines.{last_line, lines_of};
ghost use Rattle.dom_reader.specs.Streams.{fed, IsKept};
ghost use Rattle.dom_engine.specs.Run.{world_after, ending, shown, EndsLines, WritesSome, CountsReads, CountsWrites, ReadsWithin, RunsToEnd};
ghost use Rattle.dom_engine.specs.Run.{StopsRun, read_size};
ghost use Rattle.dom_streams.specs.Writing.{EndsWriting, Takes};
ghost use Rattle.dom_streams.specs.Views.{viewed};
ghost use Rattle.dom_engine.specs.Reading.{HasReadAll, LeavesMore, ReadsMore, StopsOneRead};
ghost use Rattle.dom_engine.specs.PageLaws.{HasPage, PageSees, page_text, full_page_text};

use crate::session::Session;
use dom_base::Owner;
use dom_reader::Splitter;
use dom_streams::{RunFault, Sink, Source, View, flush, flush_before_read, line_end};
use std::alloc::{AllocError, Global};

/// The most bytes that one read asks for.
const READ_SIZE: usize = 4096;

/// The most bytes that a run reads.
const INPUT_LIMIT: usize = 1 << 30;

/// A run under way: the unfinished line, the session, the owner whose lines are written, and the buffer for the lines that answer one
/// line.
#[derive(Drop)]
struct Runner {
    splitter: Splitter,
    session: Session,
    view: View,
    text: Vec<u8>,
}

impl Runner {
    /// A run before its first byte.
    fn new(alloc: Global, view: Option<Owner>) -> Result<Runner, AllocError>
        ensures { IfOk result (λ runner. (runner.splitter ≡ []) × (runner.session.world ≡ first_world) × (runner.view ≡ view)) }
    {
        Ok(Runner {
            splitter: Splitter::new(alloc),
            session: Session::new(alloc)?,
            view: View::new(alloc, view)?,
            text: Vec::new(alloc),
        })
    }

    /// Runs all that the source gives, and the ending.
    fn run_all<R: Source, W: Sink>(&mut self, source: &mut R, sink: &mut W) -> Result<(), RunFault>
        requires splitter { self.old.splitter ≡ [] }
        requires world { self.old.session.world ≡ first_world }
        ensures ok { OnOk result (RunsToEnd self.old.view (R.remaining source.old) (R.remaining source.new)
            (W.contents sink.old, W.taken sink.old) (W.contents sink.new, W.taken sink.new)) }
        ensures reads { CountsReads result (R.failures source.old) (R.failures source.new) }
        ensures delivered { ReadsWithin result (R.delivered source.old) (R.delivered source.new) }
        ensures counted { OnOk result (IfSome (R.remaining source.old) (λ bytes. R.delivered source.new ≡ R.delivered source.old + length bytes)) }
        ensures writes { CountsWrites result (W.failures sink.old) (W.failures sink.new) }
        ensures stops { IfErr result (λ e. StopsRun e self.old.view (R.remaining source.old) (R.remaining source.new)
            (W.contents sink.old, W.taken sink.old) (W.contents sink.new, W.taken sink.new)) }
    {
        self.read_all(source, sink)?;
        self.run_end(sink)
    }

    /// Runs one line, and writes its output.
    #[inline(always)]
    fn run_line<W: Sink>(&mut self, sink: &mut W, line: &[u8]) -> Result<(), RunFault>
        ensures written { EndsLines result (W.failures sink.old) (W.failures sink.new)
            (W.contents sink.old, W.taken sink.old) (W.contents sink.new, W.taken sink.new)
            (shown self.old.view self.old.session.world) (line.now ∷ []) }
        ensures world { OnOk result (self.new.session.world ≡ world_after self.old.session.world (line.now ∷ [])) }
        ensures splitter { self.new.splitter ≡ self.old.splitter }
        ensures view { self.new.view ≡ self.old.view }
    {
        self.text.clear();
        self.session.put_line(line, &mut self.text)?;
        self.view.write(sink, &self.text)
    }

    /// Runs lines one after another. The output of each is written before the next is run.
    fn run_lines<W: Sink>(&mut self, sink: &mut W, lines: &[Vec<u8>]) -> Result<(), RunFault>
        ensures written { EndsLines result (W.failures sink.old) (W.failures sink.new)
            (W.contents sink.old, W.taken sink.old) (W.contents sink.new, W.taken sink.new)
            (shown self.old.view self.old.session.world) (map (λ line. line.items) lines.now) }
        ensures world { OnOk result (self.new.session.world ≡ world_after self.old.session.world (map (λ line. line.items) lines.now)) }
        ensures splitter { self.new.splitter ≡ self.old.splitter }
        ensures view { self.new.view ≡ self.old.view }
    {
        for line in lines {
            self.run_line(sink, line)?;
        }
        Ok(())
    }

    /// Takes a piece of the input, and runs the lines that it ends.
    fn take_piece<W: Sink>(&mut self, sink: &mut W, piece: &[u8]) -> Result<(), RunFault>
        ensures written { EndsLines result (W.failures sink.old) (W.failures sink.new)
            (W.contents sink.old, W.taken sink.old) (W.contents sink.new, W.taken sink.new)
            (shown self.old.view self.old.session.world) (fed self.old.splitter piece.now).finished }
        ensures world { OnOk result (self.new.session.world ≡ world_after self.old.session.world (fed self.old.splitter piece.now).finished) }
        ensures splitter { OnOk result (self.new.splitter ≡ (fed self.old.splitter piece.now).rest) }
        ensures view { self.new.view ≡ self.old.view }
    {
        let lines = self.splitter.feed(piece)?;
        self.run_lines(sink, &lines)
    }

    /// Takes bytes of the input, and runs the lines that they end. A line that lies whole in the bytes is not copied. Any other piece of
    /// them has at most one line feed. So memory that is refused to a piece is refused to one line.
    fn take_bytes<W: Sink>(&mut self, sink: &mut W, bytes: &[u8]) -> Result<(), RunFault>
        requires kept { IsKept self.old.splitter }
        ensures written { EndsLines result (W.failures sink.old) (W.failures sink.new)
            (W.contents sink.old, W.taken sink.old) (W.contents sink.new, W.taken sink.new)
            (shown self.old.view self.old.session.world) (fed self.old.splitter bytes.now).finished }
        ensures world { OnOk result (self.new.session.world ≡ world_after self.old.session.world (fed self.old.splitter bytes.now).finished) }
        ensures splitter { OnOk result (self.new.splitter ≡ (fed self.old.splitter bytes.now).rest) }
        ensures view { self.new.view ≡ self.old.view }
    {
        let mut rest = bytes;
        while !rest.is_empty() {
            if let Some((line, later)) = self.splitter.whole_line(rest) {
                self.run_line(sink, line)?;
                rest = later;
            } else {
                let (piece, later) = rest.split_at(piece_len(rest));
                self.take_piece(sink, piece)?;
                rest = later;
            }
        }
        Ok(())
    }

    /// Reads once, after the flush that the source may ask for, and runs the lines that the bytes end. The answer is how many bytes there
    /// were, 0 at the end.
    fn take_read<R: Source, W: Sink>(
        &mut self,
        source: &mut R,
        sink: &mut W,
        buffer: &mut [u8],
    ) -> Result<usize, RunFault>
        requires kept { IsKept self.old.splitter }
        requires room { 0 < length buffer.old }
        ensures bound { ReadsAtMost result buffer.new }
        ensures consumed { IfOk result (λ n. Consumes (R.remaining source.old) (R.remaining source.new) (take n buffer.new)) }
        ensures end { IfOk result (λ n. n ≡ 0 → IsAtEnd (R.remaining source.new)) }
        ensures splitter { IfOk result (λ n. self.new.splitter ≡ (fed self.old.splitter (take n buffer.new)).rest) }
        ensures world { IfOk result (λ n. self.new.session.world ≡ world_after self.old.session.world (fed self.old.splitter (take n buffer.new)).finished) }
        ensures view { self.new.view ≡ self.old.view }
        ensures written { IfOk result (λ n. Takes (W.contents sink.old, W.taken sink.old) (W.contents sink.new, W.taken sink.new)
            (shown self.old.view self.old.session.world (fed self.old.splitter (take n buffer.new)).finished)) }
        ensures delivered { IfOk result (λ n. R.delivered source.new ≡ R.delivered source.old + n) }
        ensures few { R.delivered source.new ≤ R.delivered source.old + length buffer.old }
        ensures reads { CountsReads result (R.failures source.old) (R.failures source.new) }
        ensures writes { CountsWrites result (W.failures sink.old) (W.failures sink.new) }
        ensures stops { IfErr result (λ e. StopsOneRead e (length buffer.old) (shown self.old.view self.old.session.world) self.old.splitter
            (R.remaining source.old) (R.remaining source.new) (W.failures sink.old) (W.failures sink.new)
            (W.contents sink.old, W.taken sink.old) (W.contents sink.new, W.taken sink.new)) }
    {
        flush_before_read(source, sink)?;
        let n = read_some(source, buffer)?;
        self.take_bytes(sink, &buffer[..n])?;
        Ok(n)
    }

    /// Reads to the end of the source, and runs the lines that are ended by then. After as many bytes as a run reads, one more read says
    /// whether that was the end.
    fn read_all<R: Source, W: Sink>(&mut self, source: &mut R, sink: &mut W) -> Result<(), RunFault>
        requires splitter { self.old.splitter ≡ [] }
        requires world { self.old.session.world ≡ first_world }
        ensures read { OnOk result (HasReadAll self.old.view (R.remaining source.old) (R.remaining source.new)
            (W.contents sink.old, W.taken sink.old) (W.contents sink.new, W.taken sink.new) self.new.splitter self.new.session.world) }
        ensures view { self.new.view ≡ self.old.view }
        ensures reads { CountsReads result (R.failures source.old) (R.failures source.new) }
        ensures delivered { ReadsWithin result (R.delivered source.old) (R.delivered source.new) }
        ensures counted { OnOk result (IfSome (R.remaining source.old) (λ bytes. R.delivered source.new ≡ R.delivered source.old + length bytes)) }
        ensures writes { CountsWrites result (W.failures sink.old) (W.failures sink.new) }
        ensures stops { IfErr result (λ e. StopsRun e self.old.view (R.remaining source.old) (R.remaining source.new)
            (W.contents sink.old, W.taken sink.old) (W.contents sink.new, W.taken sink.new)) }
    {
        let mut buffer = [0; READ_SIZE];
        let mut left = INPUT_LIMIT;
        while left > 0 {
            let room = left.min(READ_SIZE);
            let n = self.take_read(source, sink, &mut buffer[..room])?;
            if n == 0 {
                return Ok(());
            }
            left -= n;
        }
        flush_before_read(source, sink)?;
        expect_end(source, &mut buffer[..1])
    }

    /// Runs the line that is not ended, if there is one, as the last line.
    fn run_last_line<W: Sink>(&mut self, sink: &mut W) -> Result<(), RunFault>
        ensures written { EndsLines result (W.failures sink.old) (W.failures sink.new)
            (W.contents sink.old, W.taken sink.old) (W.contents sink.new, W.taken sink.new)
            (shown self.old.view self.old.session.world) (last_line self.old.splitter) }
        ensures world { OnOk result (self.new.session.world ≡ world_after self.old.session.world (last_line self.old.splitter)) }
        ensures view { self.new.view ≡ self.old.view }
    {
        match self.splitter.finish() {
            Some(line) => self.run_line(sink, &line),
            None => Ok(()),
        }
    }

    /// Runs what is left at the end of the input: the last line, if it is not ended, and the ending.
    fn run_end<W: Sink>(&mut self, sink: &mut W) -> Result<(), RunFault>
        ensures { EndsWriting result (W.failures sink.old) (W.failures sink.new) (W.contents sink.old, W.taken sink.old) (W.contents sink.new, W.taken sink.new)
            (shown self.old.view self.old.session.world (last_line self.old.splitter)
            ++ viewed self.old.view (ending (world_after self.old.session.world (last_line self.old.splitter))))
            (WritesSome (W.contents sink.old, W.taken sink.old) (W.contents sink.new, W.taken sink.new)
            (shown self.old.view self.old.session.world) (last_line self.old.splitter)) }
    {
        self.run_last_line(sink)?;
        self.run_ending(sink)
    }

    /// Ends the turn that is open, writes what the ending prints, and flushes.
    fn run_ending<W: Sink>(&mut self, sink: &mut W) -> Result<(), RunFault>
        ensures { EndsWriting result (W.failures sink.old) (W.failures sink.new) (W.contents sink.old, W.taken sink.old) (W.contents sink.new, W.taken sink.new)
            (viewed self.old.view (ending self.old.session.world)) (Takes (W.contents sink.old, W.taken sink.old) (W.contents sink.new, W.taken sink.new) []) }
    {
        let text = self.session.finish()?;
        self.view.write(sink, &text)?;
        flush(sink)
    }
}

/// The number of bytes up to and with the first line feed, or of all bytes if there is none.
fn piece_len(bytes: &[u8]) -> usize
    requires { 0 < length bytes.now }
    ensures some { 0 < result }
    ensures within { result ≤ length bytes.now }
{
    match line_end(bytes) {
        Some(at) => at + 1,
        None => bytes.len(),
    }
}

/// One read.
fn read_some<R: Source>(source: &mut R, buffer: &mut [u8]) -> Result<usize, RunFault>
    ensures bound { ReadsAtMost result buffer.new }
    ensures bytes { ReadConsumes (R.remaining source.old) (R.remaining source.new) result buffer.new }
    ensures fault { IfErr result (λ e. e ≡ RunFault.Read) }
    ensures count { CountsReads result (R.failures source.old) (R.failures source.new) }
    ensures delivered { CountsBytes result (R.delivered source.old) (R.delivered source.new) }
{
    source.read(buffer).map_err(|_| RunFault::Read)
}

/// Reads once more, after a run has read as many bytes as it may.
fn expect_end<R: Source>(source: &mut R, buffer: &mut [u8]) -> Result<(), RunFault>
    requires room { 0 < length buffer.old }
    requires few { length buffer.old ≤ read_size }
    ensures end { OnOk result (IsAtEnd (R.remaining source.new)) }
    ensures more { (more : List ℕ) × Consumes (R.remaining source.old) (R.remaining source.new) more × LeavesMore result more }
    ensures count { CountsReads result (R.failures source.old) (R.failures source.new) }
    ensures delivered { ReadsMore result (length buffer.old) (R.delivered source.old) (R.delivered source.new) }
{
    match read_some(source, buffer)? {
        0 => Ok(()),
        _ => Err(RunFault::InputLimit),
    }
}

/// Runs all that the source gives, to its end. Each line is run as soon as its line feed is read, and its output is written before the
/// next line is run or more is read. At the end a last line that is not ended is run, unless it is empty, and the open turn is ended.
/// Then the sink is flushed. With a view only the lines of that owner are written.
///
/// The first fault stops the run. On `Read`, `Memory` and `InputLimit` the text of finished lines is written: an unfinished line is not
/// run, and no turn is ended. On `Write` some first bytes of such a text are written, or of the whole run's text. A read or write that
/// was interrupted has failed like any other. `laws::law_page_prefix` says what the page sees then.
///
/// If the source tells its bytes (`remaining`), the contract says which bytes were read, and that the end was reached. If the sink tells
/// its bytes (`contents`), it says what was written. For every sink it says how many bytes were written (`taken`). For every source and
/// sink the counts say which fault it was: one read has failed on `Read`, one write or flush on `Write`, and no call on any other ending.
/// They also say how many bytes were read: more than 2^30 on `InputLimit`, and no more than that otherwise. What is written is the text
/// of some input of at most 2^30 bytes, whatever the source tells. Before each read the sink is flushed if the source asks for it.
pub fn run<R: Source, W: Sink>(
    alloc: Global,
    source: &mut R,
    sink: &mut W,
    view: Option<Owner>,
) -> Result<(), RunFault>
    // All that the source gave was read, and the whole run's text was written.
    ensures ok { OnOk result (RunsToEnd view (R.remaining source.old) (R.remaining source.new)
        (W.contents sink.old, W.taken sink.old) (W.contents sink.new, W.taken sink.new)) }
    // Isolation: if no component's listener stops or cancels, what the page sees of it is the page machine's output on the trace.
    ensures page { OnOk result (IfSome (R.remaining source.old) (λ bytes. HasPage view → IsTrue (no_component_stops decode (lines_of bytes)) →
        PageSees view (W.contents sink.old, W.taken sink.old) (W.contents sink.new, W.taken sink.new) (page_text bytes))) }
    // Whatever listeners do, it is the page machine's output on the full trace, which tells the interference.
    ensures page_in_full { OnOk result (IfSome (R.remaining source.old) (λ bytes. HasPage view →
        PageSees view (W.contents sink.old, W.taken sink.old) (W.contents sink.new, W.taken sink.new) (full_page_text bytes))) }
    // The fault is `Read` only if a read failed, and `Write` only if a write or the flush failed.
    ensures reads { CountsReads result (R.failures source.old) (R.failures source.new) }
    ensures writes { CountsWrites result (W.failures sink.old) (W.failures sink.new) }
    // How many bytes it read, of any source: more than 2^30 on `InputLimit`, and at most 2^30 otherwise.
    ensures delivered { ReadsWithin result (R.delivered source.old) (R.delivered source.new) }
    // At the end these are all the bytes that there were, if the source tells its bytes.
    ensures counted { OnOk result (IfSome (R.remaining source.old) (λ bytes. R.delivered source.new ≡ R.delivered source.old + length bytes)) }
    // What was read and written when a fault stopped the run.
    ensures stops { IfErr result (λ e. StopsRun e view (R.remaining source.old) (R.remaining source.new)
        (W.contents sink.old, W.taken sink.old) (W.contents sink.new, W.taken sink.new)) }
{
    let mut runner = Runner::new(alloc, view)?;
    runner.run_all(source, sink)
}
