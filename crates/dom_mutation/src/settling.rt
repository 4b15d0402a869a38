//! What is left of a document after a change of which memory was refused (own rule).
ghost use Rattle.dom_mutation.specs.Ready.{IsReady};

use crate::parts::Parts;
use std::alloc::AllocError;

/// Memory was refused within a change: the document is given up. There are no nodes then, and the page alone is there.
pub(crate) fn given_up(parts: &mut Parts, error: AllocError) -> AllocError
    ensures { IsReady parts.new }
{
    parts.give_up();
    error
}
