//! Why nothing was read.

ghost use Rattle.std.specs.Prelude.{◌≡◌};
ghost use Rattle.dom_words.specs.declared.not_read.NotRead.TheVariants.{Memory};

use std::alloc::{AllocError, AllocFailed};

/// Why nothing was read: the grammar has no such line, or memory was refused.
#[derive(Clone, Copy)]
pub enum NotRead {
    Syntax,
    Memory,
}

impl From<AllocError> for NotRead {
    ghost from_gives = { λ _ e. e ≡ Memory };

    fn from(_error: AllocError) -> NotRead {
        NotRead::Memory
    }
}

impl<T: Drop> From<AllocFailed<T>> for NotRead {
    ghost from_gives = { λ _ e. e ≡ Memory };

    fn from(_error: AllocFailed<T>) -> NotRead {
        NotRead::Memory
    }
}
