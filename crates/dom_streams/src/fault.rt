//! Why a run stopped.

use std::alloc::AllocError;
use thiserror::Error;

/// Why a run stopped before the end of its input.
#[derive(Clone, Copy, PartialEq, Eq, Debug, Error)]
pub enum RunFault {
    /// A read failed.
    #[error("read")]
    Read,
    /// A write or the flush failed, or a write took nothing.
    #[error("write")]
    Write,
    /// Memory was refused.
    #[error("memory")]
    Memory,
    /// There are more than 2^30 bytes.
    #[error("input limit")]
    InputLimit,
}

impl From<AllocError> for RunFault {
    ghost use Rattle.std.specs.Prelude.{◌≡◌};
    ghost use Rattle.dom_streams.specs.declared.fault.RunFault.TheVariants.{Memory};

    ghost from_gives = { λ _ f. f ≡ Memory };

    fn from(_error: AllocError) -> RunFault {
        RunFault::Memory
    }
}
