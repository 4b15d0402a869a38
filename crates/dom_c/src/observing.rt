//! The call that observes a node.
ghost use Rattle.std.specs.Prelude.{◌≡◌};
ghost use Rattle.dom_calls.specs.Asked.{asks_observe};
ghost use Rattle.dom_calls.specs.Calls.{Answers, ShowsNothing, told_by};
ghost use Rattle.dom_calls.specs.Owners.{word_at};

use dom_calls::{DomDocument, DomNode, observe, word};
use std::alloc::Global;

/// Observes a node (DOM Standard, observe).
#[unsafe(no_mangle)]
pub extern "C" fn dom_observe(
    alloc: Global,
    document: &mut DomDocument,
    owner: u32,
    observer: u32,
    node: DomNode,
    flags: u32,
    names: &[u8],
) -> u32
    ensures answers { Answers result owner (asks_observe observer (word_at owner node) flags names.now)
        ShowsNothing document.old.held.value document.new.held.value }
    ensures told { document.new.told ≡ told_by document.new.held.value }
{
    document.run(
        alloc,
        owner,
        observe(alloc, observer, word(owner, node), flags, names),
    )
}
