//! Commands of listeners, events, observers, microtasks and turns.

ghost use Rattle.std.specs.Prelude.{◌≡◌};
ghost use Rattle.dom_text.specs.Forms.{listen_at, unlisten_at, dispatch_at, observe_at};
ghost use Rattle.dom_text.specs.Commands.{command_behind};
ghost use Rattle.dom_words.specs.Gives.{Gives};
ghost use Rattle.dom_reader.specs.Views.{event_keyword, observer_keyword, command_view};

use super::{put, put_ended};
use crate::filters::last_attribute_filter;
use crate::keywords::{EventWord, ObserverWord};
use crate::line::{Command, EventWords, ListenerWords, ObserveWords};
use crate::nodes::next_node;
use dom_base::Owner;
use dom_words::{NotRead, WordReader};
use std::alloc::Global;

/// Puts `listen` with its words into a blank place.
fn listen(
    alloc: Global,
    owner: &Owner,
    words: &mut WordReader,
    place: &mut Command,
) -> Result<(), NotRead>
    requires { place.old ≡ Command.EndTurn }
    ensures { Gives (λ _. command_view place.new) result (listen_at owner.now words.old) }
{
    let node = next_node(owner, words)?;
    let event = words.label(alloc)?;
    let label = words.label(alloc)?;
    let action = words.action()?;
    let listener = ListenerWords {
        event,
        label,
        action,
        capture: words.flag(b"capture"),
        once: words.flag(b"once"),
        passive: words.flag(b"passive"),
    };
    put_ended(Command::Listen(node, listener), words, place)
}

/// Puts `unlisten` with its words into a blank place.
fn unlisten(
    alloc: Global,
    owner: &Owner,
    words: &mut WordReader,
    place: &mut Command,
) -> Result<(), NotRead>
    requires { place.old ≡ Command.EndTurn }
    ensures { Gives (λ _. command_view place.new) result (unlisten_at owner.now words.old) }
{
    let node = next_node(owner, words)?;
    let event = words.label(alloc)?;
    let label = words.label(alloc)?;
    let capture = words.flag(b"capture");
    put_ended(Command::Unlisten(node, event, label, capture), words, place)
}

/// Puts `dispatch` with its words into a blank place.
fn dispatch(
    alloc: Global,
    owner: &Owner,
    words: &mut WordReader,
    place: &mut Command,
) -> Result<(), NotRead>
    requires { place.old ≡ Command.EndTurn }
    ensures { Gives (λ _. command_view place.new) result (dispatch_at owner.now words.old) }
{
    let target = next_node(owner, words)?;
    let event = EventWords {
        event: words.label(alloc)?,
        bubbles: words.flag(b"bubbles"),
        cancelable: words.flag(b"cancelable"),
        composed: words.flag(b"composed"),
    };
    let related = if words.flag(b"related") {
        Some(next_node(owner, words)?)
    } else {
        None
    };
    put_ended(Command::Dispatch(target, event, related), words, place)
}

/// Puts `observe` with its words into a blank place.
fn observe(
    alloc: Global,
    owner: &Owner,
    words: &mut WordReader,
    place: &mut Command,
) -> Result<(), NotRead>
    requires { place.old ≡ Command.EndTurn }
    ensures { Gives (λ _. command_view place.new) result (observe_at owner.now words.old) }
{
    let observer = words.numbered(b'o')?;
    let node = next_node(owner, words)?;
    let observed = ObserveWords {
        child_list: words.flag(b"childList"),
        attributes: words.flag(b"attributes"),
        character_data: words.flag(b"characterData"),
        subtree: words.flag(b"subtree"),
        attribute_old_value: words.flag(b"attributeOldValue"),
        character_data_old_value: words.flag(b"characterDataOldValue"),
        filter: last_attribute_filter(alloc, words)?,
    };
    put(Command::Observe(observer, node, observed), place);
    Ok(())
}

/// Puts the command of listeners, events, microtasks or turns that goes on with the words into a blank place.
#[inline(never)]
pub fn event_command(
    alloc: Global,
    word: EventWord,
    owner: &Owner,
    words: &mut WordReader,
    place: &mut Command,
) -> Result<(), NotRead>
    requires { place.old ≡ Command.EndTurn }
    ensures { Gives (λ _. command_view place.new) result (command_behind (event_keyword word) owner.now words.old) }
{
    match word {
        EventWord::Listen => listen(alloc, owner, words, place),
        EventWord::Unlisten => unlisten(alloc, owner, words, place),
        EventWord::Dispatch => dispatch(alloc, owner, words, place),
        EventWord::Micro => put_ended(Command::Micro(words.label(alloc)?), words, place),
        EventWord::End => put_ended(Command::EndTurn, words, place),
    }
}

/// Puts the observer's command that goes on with the words into a blank place.
#[inline(never)]
pub fn observer_command(
    alloc: Global,
    word: ObserverWord,
    owner: &Owner,
    words: &mut WordReader,
    place: &mut Command,
) -> Result<(), NotRead>
    requires { place.old ≡ Command.EndTurn }
    ensures { Gives (λ _. command_view place.new) result (command_behind (observer_keyword word) owner.now words.old) }
{
    match word {
        ObserverWord::Observer => put_ended(Command::Observer, words, place),
        ObserverWord::Observe => observe(alloc, owner, words, place),
        ObserverWord::Disconnect => {
            put_ended(Command::Disconnect(words.numbered(b'o')?), words, place)
        }
        ObserverWord::Take => put_ended(Command::Take(words.numbered(b'o')?), words, place),
    }
}
