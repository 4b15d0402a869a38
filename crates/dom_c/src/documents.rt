//! Calls on a document itself, and on callbacks under way.
ghost use Rattle.std.specs.Prelude.{◌≡◌, ◌∷◌, [], None, IsSome, IsTrue};
ghost use Rattle.dom_calls.specs.Calls.{Both, HasFailed, IsNew, IsSound, RunsTasks, told_by};
ghost use Rattle.dom_calls.specs.Lending.{LendsTo};
ghost use Rattle.dom_calls.specs.Statuses.{is_one_of};

use dom_calls::{CLOSED, DONE, DomAnswer, DomDocument, MEMORY, OPEN, UNKNOWN};
use std::alloc::Global;

/// Opens a document: its page has its first node. Where memory is refused it stays closed, and may be opened later.
#[unsafe(no_mangle)]
pub extern "C" fn dom_open(alloc: Global, document: &mut DomDocument) -> u32
    ensures done { result ≡ DONE → (document.old.held.value ≡ None) × IsNew document.new.held.value }
    ensures memory { result ≡ MEMORY → (document.old.held.value ≡ None) × (document.new.held.value ≡ None) }
    ensures open { result ≡ OPEN → IsSome document.old.held.value × (document.new.held.value ≡ document.old.held.value) }
    ensures status { IsTrue (is_one_of result (DONE ∷ MEMORY ∷ OPEN ∷ [])) }
{
    document.open(alloc)
}

/// Closes a document. That what it held is freed is tested, and in no clause.
#[unsafe(no_mangle)]
pub extern "C" fn dom_close(alloc: Global, document: &mut DomDocument) -> u32
    ensures done { result ≡ DONE → IsSome document.old.held.value }
    ensures closed { result ≡ CLOSED → document.old.held.value ≡ None }
    ensures left { document.new.held.value ≡ None }
    ensures status { IsTrue (is_one_of result (DONE ∷ CLOSED ∷ [])) }
{
    document.close(alloc)
}

/// Shows the arrays of the last call. They stay where they stand until the next call with this document.
#[unsafe(no_mangle)]
pub extern "C" fn dom_answer(
    alloc: Global,
    document: &mut DomDocument,
    answer: &mut DomAnswer,
) -> u32
    ensures done { result ≡ DONE → Both (LendsTo answer.new) document.old.held.value document.new.held.value }
    ensures memory { result ≡ MEMORY → IsSome document.old.held.value × HasFailed document.new.held.value }
    ensures closed { result ≡ CLOSED → (document.old.held.value ≡ None) × (document.new.held.value ≡ None) }
    ensures kept { (result ≡ DONE → ⊥) → answer.new ≡ answer.old }
    ensures told { document.new.told ≡ told_by document.new.held.value }
    ensures status { IsTrue (is_one_of result (DONE ∷ MEMORY ∷ CLOSED ∷ [])) }
{
    document.answer(alloc, answer)
}

/// Runs the tasks of all owners, first in, first out, until none is left (HTML Standard, perform a microtask checkpoint).
#[unsafe(no_mangle)]
pub extern "C" fn dom_checkpoint(alloc: Global, document: &mut DomDocument) -> u32
    ensures done { result ≡ DONE → Both RunsTasks document.old.held.value document.new.held.value }
    ensures memory { result ≡ MEMORY → IsSome document.old.held.value × HasFailed document.new.held.value }
    ensures closed { result ≡ CLOSED → (document.old.held.value ≡ None) × (document.new.held.value ≡ None) }
    ensures told { document.new.told ≡ told_by document.new.held.value }
    ensures status { IsTrue (is_one_of result (DONE ∷ MEMORY ∷ CLOSED ∷ [])) }
{
    document.checkpoint(alloc)
}

/// Ends what is under way, which is no callback, and runs the tasks as `dom_checkpoint` does.
#[unsafe(no_mangle)]
pub extern "C" fn dom_finish(alloc: Global, document: &mut DomDocument) -> u32
    ensures done { result ≡ DONE → Both RunsTasks document.old.held.value document.new.held.value }
    ensures memory { result ≡ MEMORY → IsSome document.old.held.value × HasFailed document.new.held.value }
    ensures closed { result ≡ CLOSED → (document.old.held.value ≡ None) × (document.new.held.value ≡ None) }
    ensures told { document.new.told ≡ told_by document.new.held.value }
    ensures status { IsTrue (is_one_of result (DONE ∷ MEMORY ∷ CLOSED ∷ [])) }
{
    document.checkpoint(alloc)
}

/// Says that an owner's innermost callback is over: none is ever under way, since none is made.
#[unsafe(no_mangle)]
pub extern "C" fn dom_give_back(
    alloc: Global,
    document: &mut DomDocument,
    _owner: u32,
    _truth: &mut bool,
) -> u32
    ensures unknown { result ≡ UNKNOWN → IsSound document.old.held.value }
    ensures memory { result ≡ MEMORY → HasFailed document.old.held.value }
    ensures closed { result ≡ CLOSED → document.old.held.value ≡ None }
    ensures same { document.new.held.value ≡ document.old.held.value }
    ensures truth { _truth.new ≡ _truth.old }
    ensures status { IsTrue (is_one_of result (UNKNOWN ∷ MEMORY ∷ CLOSED ∷ [])) }
{
    document.no_callback(alloc)
}

/// Cancels the event of an owner's callback: none is ever under way, since none is made.
#[unsafe(no_mangle)]
pub extern "C" fn dom_prevent(
    alloc: Global,
    document: &mut DomDocument,
    _owner: u32,
    _call: u32,
) -> u32
    ensures unknown { result ≡ UNKNOWN → IsSound document.old.held.value }
    ensures memory { result ≡ MEMORY → HasFailed document.old.held.value }
    ensures closed { result ≡ CLOSED → document.old.held.value ≡ None }
    ensures same { document.new.held.value ≡ document.old.held.value }
    ensures status { IsTrue (is_one_of result (UNKNOWN ∷ MEMORY ∷ CLOSED ∷ [])) }
{
    document.no_callback(alloc)
}

/// Stops the event of an owner's callback, as stopPropagation: none is ever under way, since none is made.
#[unsafe(no_mangle)]
pub extern "C" fn dom_stop(
    alloc: Global,
    document: &mut DomDocument,
    _owner: u32,
    _call: u32,
) -> u32
    ensures unknown { result ≡ UNKNOWN → IsSound document.old.held.value }
    ensures memory { result ≡ MEMORY → HasFailed document.old.held.value }
    ensures closed { result ≡ CLOSED → document.old.held.value ≡ None }
    ensures same { document.new.held.value ≡ document.old.held.value }
    ensures status { IsTrue (is_one_of result (UNKNOWN ∷ MEMORY ∷ CLOSED ∷ [])) }
{
    document.no_callback(alloc)
}

/// Stops the event of an owner's callback, as stopImmediatePropagation: none is ever under way, since none is made.
#[unsafe(no_mangle)]
pub extern "C" fn dom_stop_now(
    alloc: Global,
    document: &mut DomDocument,
    _owner: u32,
    _call: u32,
) -> u32
    ensures unknown { result ≡ UNKNOWN → IsSound document.old.held.value }
    ensures memory { result ≡ MEMORY → HasFailed document.old.held.value }
    ensures closed { result ≡ CLOSED → document.old.held.value ≡ None }
    ensures same { document.new.held.value ≡ document.old.held.value }
    ensures status { IsTrue (is_one_of result (UNKNOWN ∷ MEMORY ∷ CLOSED ∷ [])) }
{
    document.no_callback(alloc)
}

/// Asks whether the event of an owner's callback is cancelled: none is ever under way, since none is made.
#[unsafe(no_mangle)]
pub extern "C" fn dom_prevented(
    alloc: Global,
    document: &mut DomDocument,
    _owner: u32,
    _call: u32,
    _is_prevented: &mut bool,
) -> u32
    ensures unknown { result ≡ UNKNOWN → IsSound document.old.held.value }
    ensures memory { result ≡ MEMORY → HasFailed document.old.held.value }
    ensures closed { result ≡ CLOSED → document.old.held.value ≡ None }
    ensures same { document.new.held.value ≡ document.old.held.value }
    ensures is_prevented { _is_prevented.new ≡ _is_prevented.old }
    ensures status { IsTrue (is_one_of result (UNKNOWN ∷ MEMORY ∷ CLOSED ∷ [])) }
{
    document.no_callback(alloc)
}
