//! Calls on listeners and events, on observers, and on microtasks.
ghost use Rattle.std.specs.Prelude.{◌≡◌, Ok};
ghost use Rattle.dom_model.specs.Command as model;
ghost use Rattle.dom_calls.specs.Asked.{asks_event, asks_listener, asks_micro, asks_observer, asks_unlisten};
ghost use Rattle.dom_calls.specs.Calls.{Answers, ShowsNothing, ShowsNumber, ShowsTruth, told_by};
ghost use Rattle.dom_calls.specs.Owners.{word_at};

use dom_calls::{
    DONE, DomDocument, DomNode, asked, dispatch, listen, micro, new_observer, unlisten, word,
};
use dom_reader::Command;
use std::alloc::Global;

/// Adds a listener (DOM Standard, addEventListener).
#[unsafe(no_mangle)]
pub extern "C" fn dom_listen(
    alloc: Global,
    document: &mut DomDocument,
    owner: u32,
    node: DomNode,
    event: &[u8],
    label: &[u8],
    action: u32,
    flags: u32,
) -> u32
    ensures answers { Answers result owner (asks_listener (word_at owner node) event.now label.now action flags)
        ShowsNothing document.old.held.value document.new.held.value }
    ensures told { document.new.told ≡ told_by document.new.held.value }
{
    document.run(
        alloc,
        owner,
        listen(alloc, word(owner, node), event, label, action, flags),
    )
}

/// Removes a listener (DOM Standard, removeEventListener).
#[unsafe(no_mangle)]
pub extern "C" fn dom_unlisten(
    alloc: Global,
    document: &mut DomDocument,
    owner: u32,
    node: DomNode,
    event: &[u8],
    label: &[u8],
    flags: u32,
) -> u32
    ensures answers { Answers result owner (asks_unlisten (word_at owner node) event.now label.now flags)
        ShowsNothing document.old.held.value document.new.held.value }
    ensures told { document.new.told ≡ told_by document.new.held.value }
{
    document.run(
        alloc,
        owner,
        unlisten(alloc, word(owner, node), event, label, flags),
    )
}

/// Fires an event (DOM Standard, dispatchEvent).
#[unsafe(no_mangle)]
pub extern "C" fn dom_dispatch(
    alloc: Global,
    document: &mut DomDocument,
    owner: u32,
    node: DomNode,
    event: &[u8],
    flags: u32,
    related: DomNode,
    truth: &mut bool,
) -> u32
    ensures answers { Answers result owner (asks_event owner node event.now flags related)
        (ShowsTruth truth.new) document.old.held.value document.new.held.value }
    ensures told { document.new.told ≡ told_by document.new.held.value }
    ensures truth_kept { (result ≡ DONE → ⊥) → truth.new ≡ truth.old }
{
    document.run_for_truth(
        alloc,
        owner,
        dispatch(alloc, owner, node, event, flags, related),
        truth,
    )
}

/// Makes an observer; writes down its number (DOM Standard, MutationObserver). A live one is not supported.
#[unsafe(no_mangle)]
pub extern "C" fn dom_observer_create(
    alloc: Global,
    document: &mut DomDocument,
    owner: u32,
    is_live: bool,
    observer: &mut u32,
) -> u32
    ensures answers { Answers result owner (asks_observer is_live) (ShowsNumber observer.new) document.old.held.value document.new.held.value }
    ensures told { document.new.told ≡ told_by document.new.held.value }
    ensures observer_kept { (result ≡ DONE → ⊥) → observer.new ≡ observer.old }
{
    document.run_for_number(alloc, owner, new_observer(is_live), observer)
}

/// Leaves an observer's records as deliveries, and writes down their count (DOM Standard, takeRecords).
#[unsafe(no_mangle)]
pub extern "C" fn dom_take_records(
    alloc: Global,
    document: &mut DomDocument,
    owner: u32,
    observer: u32,
    count: &mut u32,
) -> u32
    ensures answers { Answers result owner (Ok (model.take observer)) (ShowsNumber count.new) document.old.held.value document.new.held.value }
    ensures told { document.new.told ≡ told_by document.new.held.value }
    ensures count_kept { (result ≡ DONE → ⊥) → count.new ≡ count.old }
{
    document.run_for_number(alloc, owner, asked(Command::Take(observer)), count)
}

/// Ends all observing of an observer (DOM Standard, disconnect).
#[unsafe(no_mangle)]
pub extern "C" fn dom_disconnect(
    alloc: Global,
    document: &mut DomDocument,
    owner: u32,
    observer: u32,
) -> u32
    ensures answers { Answers result owner (Ok (model.disconnect observer)) ShowsNothing document.old.held.value document.new.held.value }
    ensures told { document.new.told ≡ told_by document.new.held.value }
{
    document.run(alloc, owner, asked(Command::Disconnect(observer)))
}

/// Queues a microtask (HTML Standard, queueMicrotask). A live one is not supported.
#[unsafe(no_mangle)]
pub extern "C" fn dom_queue_microtask(
    alloc: Global,
    document: &mut DomDocument,
    owner: u32,
    label: &[u8],
    is_live: bool,
) -> u32
    ensures answers { Answers result owner (asks_micro label.now is_live) ShowsNothing document.old.held.value document.new.held.value }
    ensures told { document.new.told ≡ told_by document.new.held.value }
{
    document.run(alloc, owner, micro(alloc, label, is_live))
}
