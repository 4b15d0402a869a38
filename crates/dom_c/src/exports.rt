//! The functions that C calls. A size is a number of bytes.
ghost use Rattle.std.specs.Prelude.{◌≡◌, ◌<◌, ◌++◌, [], ◌∷◌, None, IsSome, IsSomeAnd, IsTrue, length, drop};
ghost use Rattle.dom_model.specs.DocumentMachine.{first_world, step, finish};
ghost use Rattle.dom_text.specs.Decode.{decode};
ghost use Rattle.dom_text.specs.Readers.{owner_of};
ghost use Rattle.dom_c.specs.Calls.{Holds, HoldSame, HasNoTurn, StandsAt, Runs, HasFailed, HasText, text_seen_by, IsCopied, IsShort, is_one_of};

use crate::handle::DomSession;
use crate::held::Held;
use std::alloc::Global;

/// The call did all that it is for.
pub const DONE: u32 = 0;

/// The handle is closed.
pub const CLOSED: u32 = 1;

/// Memory ran out, in this call, or in an earlier line, ending or view.
pub const MEMORY: u32 = 2;

/// The caller's buffer is too short. Nothing is lost.
pub const SHORT: u32 = 3;

/// The word is not the word of an owner.
pub const OWNER: u32 = 4;

/// The handle is already open.
pub const OPEN: u32 = 5;

/// Opens a handle: a session before its first line, with no text. If memory runs out, the handle stays closed, and may be opened later.
#[unsafe(no_mangle)]
pub extern "C" fn dom_session_new(alloc: Global, session: &mut DomSession) -> u32
    ensures done { result ≡ DONE → (session.old.held.value ≡ None) × Holds session.new.held.value first_world [] }
    ensures memory { result ≡ MEMORY → (session.old.held.value ≡ None) × (session.new.held.value ≡ None) }
    ensures open { result ≡ OPEN → IsSome session.old.held.value × (session.new.held.value ≡ session.old.held.value) }
    ensures status { IsTrue (is_one_of result (DONE ∷ MEMORY ∷ OPEN ∷ [])) }
{
    if session.is_open() {
        return OPEN;
    }
    match Held::new(alloc) {
        Ok(held) => {
            session.put(held);
            DONE
        }
        Err(_) => MEMORY,
    }
}

/// Runs a line, without its 0x0A, and keeps the text that answers it in place of the text before. Writes the size of that text, or 0 if
/// the status is not `DONE`.
#[unsafe(no_mangle)]
pub extern "C" fn dom_session_line(
    alloc: Global,
    session: &mut DomSession,
    line: &[u8],
    size: &mut usize,
) -> u32
    ensures done { result ≡ DONE → Runs (λ w. step w (decode line.now)) session.old.held.value session.new.held.value size.new }
    ensures closed { result ≡ CLOSED → (session.old.held.value ≡ None) × (session.new.held.value ≡ None) × (size.new ≡ 0) }
    ensures memory { result ≡ MEMORY → IsSome session.old.held.value × HasFailed session.new.held.value × (size.new ≡ 0) }
    ensures status { IsTrue (is_one_of result (DONE ∷ CLOSED ∷ MEMORY ∷ [])) }
{
    *size = 0;
    let Some(mut held) = session.take(alloc) else {
        return CLOSED;
    };
    let answer = held.line(line);
    session.put(held);
    match answer {
        Ok(count) => {
            *size = count;
            DONE
        }
        Err(_) => MEMORY,
    }
}

/// Ends the input: ends an open turn, and keeps the text of its microtasks in place of the text before. More lines may follow. Writes the
/// size of that text, or 0 if the status is not `DONE`.
#[unsafe(no_mangle)]
pub extern "C" fn dom_session_finish(
    alloc: Global,
    session: &mut DomSession,
    size: &mut usize,
) -> u32
    ensures done { result ≡ DONE → Runs finish session.old.held.value session.new.held.value size.new }
    ensures turn { result ≡ DONE → HasNoTurn session.new.held.value }
    ensures closed { result ≡ CLOSED → (session.old.held.value ≡ None) × (session.new.held.value ≡ None) × (size.new ≡ 0) }
    ensures memory { result ≡ MEMORY → IsSome session.old.held.value × HasFailed session.new.held.value × (size.new ≡ 0) }
    ensures status { IsTrue (is_one_of result (DONE ∷ CLOSED ∷ MEMORY ∷ [])) }
{
    *size = 0;
    let Some(mut held) = session.take(alloc) else {
        return CLOSED;
    };
    let answer = held.finish();
    session.put(held);
    match answer {
        Ok(count) => {
            *size = count;
            DONE
        }
        Err(_) => MEMORY,
    }
}

/// Copies the text of the last answer into the buffer's first bytes, and writes its size. If the buffer is too short, it only writes the
/// size. The text is kept.
#[unsafe(no_mangle)]
pub extern "C" fn dom_session_text(
    alloc: Global,
    session: &mut DomSession,
    buffer: &mut [u8],
    size: &mut usize,
) -> u32
    ensures done { result ≡ DONE → HasText session.old.held.value (λ text. IsCopied text buffer.old buffer.new size.new) }
    ensures short { result ≡ SHORT → HasText session.old.held.value (λ text. IsShort text buffer.old size.new) }
    ensures closed { result ≡ CLOSED → (session.old.held.value ≡ None) × (size.new ≡ 0) }
    ensures memory { result ≡ MEMORY → HasFailed session.old.held.value × (size.new ≡ 0) }
    ensures session { session.new.held.value ≡ session.old.held.value }
    ensures buffer { (result ≡ DONE → ⊥) → buffer.new ≡ buffer.old }
    ensures status { IsTrue (is_one_of result (DONE ∷ CLOSED ∷ MEMORY ∷ SHORT ∷ [])) }
{
    *size = 0;
    let Some(held) = session.take(alloc) else {
        return CLOSED;
    };
    let status = match held.text() {
        Ok(text) => copied(text, buffer, size),
        Err(_) => MEMORY,
    };
    session.put(held);
    status
}

/// Shows the text of the last answer in place: writes the address of its first byte, and its size. A byte 0 stands after the text. Text
/// and address stay valid until the next call with this handle. If memory runs out for the byte 0, nothing is lost.
#[unsafe(no_mangle)]
pub extern "C" fn dom_session_answer(
    alloc: Global,
    session: &mut DomSession,
    text: &mut *const u8,
    size: &mut usize,
) -> u32
    ensures done { result ≡ DONE → HasText session.old.held.value (λ answer.
        StandsAt session.new.held.value text.new (answer ++ 0 ∷ []) × (size.new ≡ length answer)) }
    ensures closed { result ≡ CLOSED → (session.old.held.value ≡ None) × (size.new ≡ 0) }
    ensures memory { result ≡ MEMORY → IsSome session.old.held.value × (size.new ≡ 0) }
    ensures session { HoldSame session.old.held.value session.new.held.value }
    ensures text { (result ≡ DONE → ⊥) → text.new ≡ text.old }
    ensures status { IsTrue (is_one_of result (DONE ∷ CLOSED ∷ MEMORY ∷ [])) }
{
    *size = 0;
    let Some(mut held) = session.take(alloc) else {
        return CLOSED;
    };
    let shown = held.shown();
    let count = held.size();
    session.put(held);
    match shown {
        Ok(at) => {
            *text = at;
            *size = count;
            DONE
        }
        Err(_) => MEMORY,
    }
}

/// Copies as `dom_session_text` does, but only the lines that begin with an owner's word, such as `p`, `c1` or `c1.2`, and a space.
#[unsafe(no_mangle)]
pub extern "C" fn dom_session_view(
    alloc: Global,
    session: &mut DomSession,
    owner: &[u8],
    buffer: &mut [u8],
    size: &mut usize,
) -> u32
    ensures done { result ≡ DONE → HasText session.old.held.value (λ text.
        IsSomeAnd (text_seen_by (owner_of owner.now) text) (λ seen. IsCopied seen buffer.old buffer.new size.new)) }
    ensures short { result ≡ SHORT → HasText session.old.held.value (λ text.
        IsSomeAnd (text_seen_by (owner_of owner.now) text) (λ seen. IsShort seen buffer.old size.new)) }
    ensures closed { result ≡ CLOSED → (session.old.held.value ≡ None) × (session.new.held.value ≡ None) × (size.new ≡ 0) }
    ensures memory { result ≡ MEMORY → IsSome session.old.held.value × HasFailed session.new.held.value × (size.new ≡ 0) }
    ensures owner { result ≡ OWNER → (owner_of owner.now ≡ None) × HasText session.old.held.value (λ _. size.new ≡ 0) }
    ensures session { (result ≡ MEMORY → ⊥) → session.new.held.value ≡ session.old.held.value }
    ensures buffer { (result ≡ DONE → ⊥) → buffer.new ≡ buffer.old }
    ensures status { IsTrue (is_one_of result (DONE ∷ CLOSED ∷ MEMORY ∷ SHORT ∷ OWNER ∷ [])) }
{
    *size = 0;
    let Some(mut held) = session.take(alloc) else {
        return CLOSED;
    };
    let seen = held.seen_by(alloc, owner);
    session.put(held);
    match seen {
        Ok(Some(text)) => copied(&text, buffer, size),
        Ok(None) => OWNER,
        Err(_) => MEMORY,
    }
}

/// Closes a handle. No clause says that what it held is freed: that is tested.
#[unsafe(no_mangle)]
pub extern "C" fn dom_session_drop(alloc: Global, session: &mut DomSession) -> u32
    ensures done { result ≡ DONE → IsSome session.old.held.value }
    ensures closed { result ≡ CLOSED → session.old.held.value ≡ None }
    ensures left { session.new.held.value ≡ None }
    ensures status { IsTrue (is_one_of result (DONE ∷ CLOSED ∷ [])) }
{
    match session.take(alloc) {
        Some(held) => {
            drop(held);
            DONE
        }
        None => CLOSED,
    }
}

/// Copies a text into the buffer's first bytes, and writes its size. If the buffer is too short, it only writes the size.
fn copied(text: &[u8], buffer: &mut [u8], size: &mut usize) -> u32
    ensures done { result ≡ DONE → buffer.new ≡ text.now ++ drop (length text.now) buffer.old }
    ensures short { result ≡ SHORT → length buffer.old < length text.now }
    ensures same { (result ≡ DONE → ⊥) → buffer.new ≡ buffer.old }
    ensures size { size.new ≡ length text.now }
    ensures status { IsTrue (is_one_of result (DONE ∷ SHORT ∷ [])) }
{
    *size = text.len();
    if buffer.len() < text.len() {
        return SHORT;
    }
    buffer[..text.len()].copy_from_slice(text);
    DONE
}
