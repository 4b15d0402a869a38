//! Why the program stops.
use clap::Error;
use clap::error::ErrorKind;
use dom_streams::RunFault;
use std::alloc::AllocError;

/// Why the program stopped before the end of its input.
#[derive(Clone, Copy)]
pub enum ExitCause {
    /// Its words are not as the program takes them.
    Usage,
    /// The run met this fault, or memory ran out before the run.
    Run(RunFault),
}

/// If the error of the words is that memory ran out, this is the fault `Memory`. Every other error is `Usage`.
impl From<Error> for ExitCause {
    ghost use Rattle.std.specs.Prelude.{◌≡◌};
    ghost use Rattle.clap.specs.Words.{kind_of};
    ghost use Rattle.clap.specs.declared.error.kind.ErrorKind.TheVariants.{OutOfMemory};
    ghost use Rattle.dom_streams.specs.declared.fault.RunFault.TheVariants.{Memory};
    ghost use Rattle.dom_program.specs.declared.exit_cause.ExitCause.TheVariants as exit_cause;

    ghost from_gives = { λ error cause.
        (kind_of error ≡ OutOfMemory → cause ≡ exit_cause.Run Memory) ×
        ((kind_of error ≡ OutOfMemory → ⊥) → cause ≡ exit_cause.Usage) };

    fn from(error: Error) -> ExitCause {
        match error.kind() {
            ErrorKind::OutOfMemory => ExitCause::Run(RunFault::Memory),
            _ => ExitCause::Usage,
        }
    }
}

impl From<AllocError> for ExitCause {
    ghost use Rattle.std.specs.Prelude.{◌≡◌};
    ghost use Rattle.dom_streams.specs.declared.fault.RunFault.TheVariants.{Memory};
    ghost use Rattle.dom_program.specs.declared.exit_cause.ExitCause.TheVariants as exit_cause;

    ghost from_gives = { λ _ cause. cause ≡ exit_cause.Run Memory };

    fn from(_error: AllocError) -> ExitCause {
        ExitCause::Run(RunFault::Memory)
    }
}
