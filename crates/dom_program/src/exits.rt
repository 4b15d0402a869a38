//! How the program ends.
ghost use Rattle.std.specs.Prelude.{◌≡◌, true, false, Err};
ghost use Rattle.dom_program.specs.Exits.{status_of, text_of};

use crate::exit_cause::ExitCause;
use dom_streams::RunFault;

/// How a run has ended, once its output was handed on. If the output was not taken, the run has ended with a failed write, in whichever
/// call that was found (own rule).
pub fn ending_of(ended: Result<(), RunFault>, is_written: bool) -> Result<(), RunFault>
    ensures written { is_written ≡ true → result ≡ ended }
    ensures lost { is_written ≡ false → result ≡ Err RunFault.Write }
{
    if is_written {
        ended
    } else {
        Err(RunFault::Write)
    }
}

/// The exit status, and what is written to standard error, without its line feed. If the text is empty, nothing is written (own rule).
pub fn exit_of(ended: &Result<(), ExitCause>) -> (u8, &'static str)
    ensures status { result.0 ≡ status_of ended.now }
    ensures text { result.1.now ≡ text_of ended.now }
{
    match ended {
        Ok(()) => (0, ""),
        Err(ExitCause::Run(RunFault::Read)) => (1, "domrun: read"),
        Err(ExitCause::Usage) => (2, "domrun: usage"),
        Err(ExitCause::Run(RunFault::Memory)) => (3, "domrun: memory"),
        Err(ExitCause::Run(RunFault::Write)) => (4, "domrun: write"),
        Err(ExitCause::Run(RunFault::InputLimit)) => (5, "domrun: input limit"),
    }
}
