//! `domrun [--view OWNER] [FILE]`: runs the lines of a file, or of standard input, and writes the lines that answer them. With a view it
//! writes the lines of that owner alone.
//!
//! FILE is a path, or `-`, which is the default and means standard input. `dom_program::exit_of` has the exit statuses. Faults are found
//! in this order: the words, OWNER, the opening of FILE, the run's own faults.
#![tactic(auto)]

ghost use Rattle.std.specs.Prelude.{◌≡◌, ◌+◌, ◌<◌, ℕ, List, length, Option, Err, IfErr, IfOk, IfSome, OnOk};
ghost use Rattle.dom_engine.specs.Run.{RunsToEnd, StopsRun};
ghost use Rattle.dom_program.specs.Buffers.{handed_to};
ghost use Rattle.domrun.specs.Endings.{HasRun, CountsReadsOf, ReadsWithinOf, CountsLosses};

use dom_base::Owner;
use dom_engine::{RunFault, Sink, Source, run};
use dom_program::{
    ExitCause, Input, Output, Request, ending_of, exit_of, request_of, words_refused,
};
use std::alloc::{AllocError, Global};
use std::io::{Read, Write};
use std::process::ExitCode;
use std::{env, fs, io};

fn main(rt: HostRuntime) -> ExitCode {
    let (status, text) = exit_of(&run_words(&rt));
    if !text.is_empty() {
        // If this cannot be written, there is nobody to tell.
        let _ = rt.eprintln(text);
    }
    ExitCode::from(status)
}

/// Does what the program's words ask for.
fn run_words(rt: &HostRuntime) -> Result<(), ExitCause> {
    let words = env::args(rt).map_err(|e| words_refused(&e))?;
    let words: Vec<String> = words.collect(rt.alloc())?;
    run_request(rt, request_of(rt.alloc(), &words)?)
}

/// Runs the file that is asked for, or standard input if that is `-` or none is asked for.
fn run_request(rt: &HostRuntime, request: Request<'_>) -> Result<(), ExitCause> {
    let path = request.file.unwrap_or("-");
    let outcome = if path == "-" {
        run_reader(rt.alloc(), rt.reader(), io::writer(rt), request.view)?.outcome
    } else {
        let file = fs::File::open(rt, path).map_err(|_| ExitCause::Run(RunFault::Read))?;
        run_reader(rt.alloc(), file, io::writer(rt), request.view)?.outcome
    };
    outcome.map_err(ExitCause::Run)
}

/// How a run has ended, and its input and output as the run has left them.
#[derive(Drop)]
struct Ended<R: Read + Drop, W: Write + Drop> {
    outcome: Result<(), RunFault>,
    input: Input<R>,
    output: Output<W>,
}

/// Runs the lines of a reader, and writes to the writer. If output was not taken, the fault is `Write`. On every other ending the writer
/// has taken all that the run wrote, and nothing more. The only error is that memory ran out before anything was read or written.
fn run_reader<R: Read + Drop, W: Write + Drop>(
    alloc: Global,
    reader: R,
    writer: W,
    view: Option<Owner>,
) -> Result<Ended<R, W>, AllocError>
    ensures ok { IfOk result (λ ended. OnOk ended.outcome ((to : Option (List ℕ)) × (count : ℕ)
        × RunsToEnd view (R.remaining reader) to (W.contents writer, 0) (W.contents (handed_to ended.output), count))) }
    ensures stops { IfOk result (λ ended. IfErr ended.outcome (λ e. (e ≡ RunFault.Write → ⊥) → (to : Option (List ℕ)) × (count : ℕ)
        × StopsRun e view (R.remaining reader) to (W.contents writer, 0) (W.contents (handed_to ended.output), count))) }
    ensures run { IfOk result (λ ended. HasRun view (R.remaining reader) (⟦<Input<R> as Source>⟧.remaining ended.input) (W.contents writer, 0)
        (⟦<Output<W> as Sink>⟧.contents ended.output, ⟦<Output<W> as Sink>⟧.taken ended.output)) }
    ensures reads { IfOk result (λ ended. CountsReadsOf ended.outcome 0 (⟦<Input<R> as Source>⟧.failures ended.input)) }
    ensures delivered { IfOk result (λ ended. ReadsWithinOf ended.outcome 0 (⟦<Input<R> as Source>⟧.delivered ended.input)) }
    // On Ok these are all the bytes that the reader had, if it tells its bytes.
    ensures counted { IfOk result (λ ended. OnOk ended.outcome (IfSome (R.remaining reader) (λ bytes.
        ⟦<Input<R> as Source>⟧.delivered ended.input ≡ length bytes))) }
    ensures writes { IfOk result (λ ended. CountsLosses ended.outcome 0 (⟦<Output<W> as Sink>⟧.failures ended.output)) }
{
    let mut output = Output::new(alloc, writer)?;
    let mut input = Input::new(alloc, reader)?;
    let outcome = run_between(alloc, &mut input, &mut output, view);
    Ok(Ended {
        outcome,
        input,
        output,
    })
}

/// Runs the lines of an input, and hands on all that they write, in large pieces if many lines are read at once. If output was not taken,
/// the fault is `Write`, in whichever call that was found. On every other ending the writer has taken it all. `Read` is answered only if
/// a read has failed, and `Write` only if a write, a flush or the handing on has failed.
fn run_between<R: Read + Drop, W: Write + Drop>(
    alloc: Global,
    input: &mut Input<R>,
    output: &mut Output<W>,
    view: Option<Owner>,
) -> Result<(), RunFault>
    ensures ok { OnOk result (RunsToEnd view (⟦<Input<R> as Source>⟧.remaining input.old) (⟦<Input<R> as Source>⟧.remaining input.new)
        (⟦<Output<W> as Sink>⟧.contents output.old, ⟦<Output<W> as Sink>⟧.taken output.old)
        (W.contents (handed_to output.new), ⟦<Output<W> as Sink>⟧.taken output.new)) }
    ensures stops { IfErr result (λ e. (e ≡ RunFault.Write → ⊥) → StopsRun e view (⟦<Input<R> as Source>⟧.remaining input.old)
        (⟦<Input<R> as Source>⟧.remaining input.new) (⟦<Output<W> as Sink>⟧.contents output.old, ⟦<Output<W> as Sink>⟧.taken output.old)
        (W.contents (handed_to output.new), ⟦<Output<W> as Sink>⟧.taken output.new)) }
    ensures failed { ⟦<Output<W> as Sink>⟧.failures output.old < ⟦<Output<W> as Sink>⟧.failures output.new → result ≡ Err RunFault.Write }
    // What the output has taken is what some run wrote. If the fault is `Write`, the writer may have only the first of these bytes.
    ensures run { HasRun view (⟦<Input<R> as Source>⟧.remaining input.old) (⟦<Input<R> as Source>⟧.remaining input.new)
        (⟦<Output<W> as Sink>⟧.contents output.old, ⟦<Output<W> as Sink>⟧.taken output.old)
        (⟦<Output<W> as Sink>⟧.contents output.new, ⟦<Output<W> as Sink>⟧.taken output.new) }
    ensures reads { CountsReadsOf result (⟦<Input<R> as Source>⟧.failures input.old) (⟦<Input<R> as Source>⟧.failures input.new) }
    ensures delivered { ReadsWithinOf result (⟦<Input<R> as Source>⟧.delivered input.old) (⟦<Input<R> as Source>⟧.delivered input.new) }
    ensures counted { OnOk result (IfSome (⟦<Input<R> as Source>⟧.remaining input.old) (λ bytes.
        ⟦<Input<R> as Source>⟧.delivered input.new ≡ ⟦<Input<R> as Source>⟧.delivered input.old + length bytes)) }
    ensures writes { CountsLosses result (⟦<Output<W> as Sink>⟧.failures output.old) (⟦<Output<W> as Sink>⟧.failures output.new) }
{
    let ended = run(alloc, input, output, view);
    let is_written = output.hand_on().is_ok();
    ending_of(ended, is_written)
}
