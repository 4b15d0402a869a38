//! Which listener it is: the tests of names, types and labels.
ghost use Rattle.std.specs.Prelude.{◌≡◌, map, string_bytes};
ghost use Rattle.std.specs.List.{list_any};
ghost use Rattle.dom_model.specs.Names.{name_eq, owner_eq, text_eq};
ghost use Rattle.dom_model.specs.Listeners.{is_listener, with_listener_removed};
ghost use Rattle.dom_live.specs.Documents.{is_live};
ghost use Rattle.dom_reader.specs.Views.{listener_view};
ghost use Rattle.dom_callbacks.specs.Views.{is_of_words};
ghost use Rattle.dom_callbacks.specs.States.{live_listener};

use crate::state::LiveListener;
use dom_base::{NodeName, Owner, is_same};
use dom_reader::ListenerWords;

/// Whether two names are those of one node.
pub(crate) fn is_same_node(node: &NodeName, other: &NodeName) -> bool
    ensures { result ≡ name_eq node.now other.now }
{
    is_same_owner(&node.owner, &other.owner) && node.number == other.number
}

/// Whether two owners are one.
pub(crate) fn is_same_owner(owner: &Owner, other: &Owner) -> bool
    ensures { result ≡ owner_eq owner.now other.now }
{
    owner == other
}

/// Whether a word is this text.
fn is_word(word: &String, text: &[u8]) -> bool
    ensures { result ≡ text_eq (string_bytes word.now) text.now }
{
    is_same(word.as_bytes(), text)
}

/// Whether a node's listener with these words is that of this type, label and capture (own rule: a listener is known by them).
pub(crate) fn is_of_words(words: &ListenerWords, event: &[u8], label: &[u8], capture: bool) -> bool
    ensures { result ≡ is_of_words event.now label.now capture (listener_view words.now) }
{
    is_word(&words.event, event) && (is_word(&words.label, label) && words.capture == capture)
}

/// Whether the listener of a node with these words is live.
pub(crate) fn is_live_listener(
    listeners: &[LiveListener],
    node: &NodeName,
    words: &ListenerWords,
) -> bool
    ensures { result ≡ is_live (map live_listener listeners.now) node.now (listener_view words.now) }
{
    let event = words.event.as_bytes();
    let label = words.label.as_bytes();
    has_listener(listeners, node, event, label, words.capture)
}

/// Whether the listener of a node with this type, label and capture is live.
fn has_listener(
    listeners: &[LiveListener],
    node: &NodeName,
    event: &[u8],
    label: &[u8],
    capture: bool,
) -> bool
    ensures { result ≡ list_any (λ l. is_listener name_eq node.now event.now label.now capture (live_listener l)) listeners.now }
{
    listeners.iter().any(|listener| is_listener(listener, node, event, label, capture))
}

/// Whether a live listener is the one of a node with this type, label and capture.
fn is_listener(
    listener: &LiveListener,
    node: &NodeName,
    event: &[u8],
    label: &[u8],
    capture: bool,
) -> bool
    ensures { result ≡ is_listener name_eq node.now event.now label.now capture (live_listener listener.now) }
{
    is_same_node(&listener.node, node) && is_of_words(&listener.words, event, label, capture)
}

/// Takes a listener of a node out of those that are live.
pub(crate) fn remove_live_listener(
    listeners: &mut Vec<LiveListener>,
    node: &NodeName,
    event: &[u8],
    label: &[u8],
    capture: bool,
)
    ensures { map live_listener listeners.new.items
        ≡ with_listener_removed name_eq node.now event.now label.now capture (map live_listener listeners.old.items) }
{
    listeners.retain(|listener| !is_listener(listener, node, event, label, capture));
}
