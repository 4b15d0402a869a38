//! The listeners of all nodes.
ghost use Rattle.std.specs.Prelude.{◌≡◌, Bool, nat_eq, true, false, [], filter, string_bytes, IfOk, OnOk, OnErr};
ghost use Rattle.dom_model.specs.Listeners.{is_listener, with_listener_added, with_listener_removed};
ghost use Rattle.dom_model.specs.Names.{text_eq};
ghost use Rattle.std.specs.List.{list_any};
ghost use Rattle.dom_dispatch.specs.Entries.{words_of, listener_of, listeners_in, hears_at, NoneHears};

use crate::kinds::{HeldWords, Kinds};
use crate::room::Room;
use crate::table::Table;
use crate::types::Types;
use dom_attributes::is_same_text;
use dom_base::Action;
use node_arena::Key;
use std::alloc::{AllocError, Global};
use std::collections::VecDeque;
use std::marker::Model;
use std::rc::Rc;

/// The words with which a listener is added (DOM Standard, addEventListener(); own rule for the label and the action).
#[derive(Drop)]
pub struct ListenerInit {
    pub event: String,
    pub label: String,
    pub action: Action,
    pub capture: bool,
    pub once: bool,
    pub passive: bool,
}

/// A listener, and the node at which it is. Its words are shared with those who were told of its calls.
#[derive(Drop)]
pub struct Entry {
    pub node: Key,
    pub words: Rc<HeldWords>,
}

impl Entry {
    /// Whether this is the listener of a node with this type, label and capture (own rule).
    pub(crate) fn is(&self, node: Key, event: &str, label: &[u8], capture: bool) -> bool
        ensures { result ≡ is_listener nat_eq node event.now label.now capture (listener_of self.now) }
    {
        let kind = &self.words.kind;
        self.node == node
            && is_same_text(kind.event.as_str(), event)
            && is_same_label(self.words.label.as_slice(), label)
            && kind.capture == capture
    }

    /// Whether this is a listener of a node that hears events of this type, while they are capturing or while they are not (DOM
    /// Standard, concept: inner invoke).
    pub(crate) fn hears(&self, node: Key, event: &str, capturing: bool) -> bool
        ensures { result ≡ hears_at node event.now capturing (listener_of self.now) }
    {
        let kind = &self.words.kind;
        self.node == node && is_same_type(kind.event.as_str(), event) && kind.capture == capturing
    }

    /// The same listener again.
    pub(crate) fn copied(&self) -> Result<Entry, AllocError>
        ensures { IfOk result (λ e. listener_of e ≡ listener_of self.now) }
    {
        Ok(Entry {
            node: self.node,
            words: self.words.clone()?,
        })
    }
}

/// The listeners of all nodes, in the order of adding (DOM Standard, concept: event listener list). A node's own are found by one
/// look; of many, those of a type. The types for which there was a listener are kept, so that an event of another type visits no node,
/// and one that no capturing listener was for visits none while it is capturing. The memory of a dispatch is kept for the next one.
pub struct Listeners {
    pub(crate) table: Table,
    types: Types,
    kinds: Kinds,
    pub(crate) room: Room,
    pub(crate) alloc: Global,
}

impl Drop for Listeners {
    // Written out, so that the crates above cite it, and do not prove again how each field is let go.
    fn drop(self) {
        let Self {
            table,
            types,
            kinds,
            room,
            alloc,
        } = self;
    }
}

impl Model for Listeners {
    ghost use Rattle.std.specs.Prelude.{ℕ, List};
    ghost use Rattle.dom_model.specs.Listeners.{Listener};

    ghost Value = { List (Listener ℕ) };

    ghost use Rattle.dom_dispatch.specs.Entries.{listeners_in};
    ghost use Rattle.dom_dispatch.specs.Tables.{present, IsTable};

    ghost view = { λ l. listeners_in (present l.table.entries.items) };

    ghost invariant = { λ l. IsTable l.table.places l.table.entries.items l.types };
}

impl Listeners {
    /// No listeners. Takes no memory yet; later calls take theirs from `alloc`.
    pub fn new(alloc: Global) -> Self
        ensures { result ≡ [] }
    {
        Listeners {
            table: Table::new(alloc),
            types: Types::new(alloc),
            kinds: Kinds::new(alloc),
            room: Room::new(alloc),
            alloc,
        }
    }

    /// Adds a listener to a node, behind the others, unless it has one with the same type, label and capture (DOM Standard,
    /// concept: add an event listener). Where memory is refused, all is as it was.
    pub fn listen(&mut self, node: Key, words: ListenerInit) -> Result<(), AllocError>
        ensures ok { OnOk result (self.new ≡ with_listener_added nat_eq node (words_of words) self.old) }
        ensures err { OnErr result (self.new ≡ self.old) }
    {
        let (event, label) = (words.event.as_str(), words.label.as_bytes());
        if self.listens(node, event, label, words.capture) {
            return Ok(());
        }
        self.types
            .note(self.alloc, words.event.as_str(), words.capture)?;
        let words = self.kinds.hold(words)?;
        self.table.push(Entry { node, words })
    }

    /// Whether there may be a listener that hears events of this type, while they are capturing or while they are not: there was one.
    pub(crate) fn may_hear(&self, event: &str, capturing: bool) -> bool
        ensures { result ≡ false → NoneHears event.now capturing self.now }
    {
        self.types.contains(event, capturing)
    }

    /// Whether there may be a listener that hears events of this type while they bubble. Where that is known, it is not looked up.
    pub(crate) fn may_bubble(&self, event: &str, is_known: bool) -> bool
        ensures { result ≡ false → NoneHears event.now false self.now }
    {
        is_known || self.may_hear(event, false)
    }

    /// Whether no listener hears events of this type, since there never was one; `bubbling` says whether one may hear them while they bubble.
    pub(crate) fn is_unheard(&self, event: &str, bubbling: bool) -> bool
        requires { bubbling ≡ false → NoneHears event.now false self.now }
        ensures { result ≡ true → (capturing : Bool) → NoneHears event.now capturing self.now }
    {
        !bubbling && !self.may_hear(event, true)
    }

    /// Whether a node has a listener with this type, label and capture.
    pub fn listens(&self, node: Key, event: &str, label: &[u8], capture: bool) -> bool
        ensures { result ≡ list_any (is_listener nat_eq node event.now label.now capture) self.now }
    {
        self.table.find(node, event, label, capture).is_some()
    }

    /// The listeners of a node that hear events of this type, while they are capturing or while they are not, in the order of adding (DOM
    /// Standard, concept: invoke). Refused memory is the only error.
    pub fn heard_at(
        &self,
        node: Key,
        event: &str,
        capturing: bool,
    ) -> Result<VecDeque<Entry>, AllocError>
        ensures { IfOk result (λ heard. listeners_in heard.items ≡ filter (hears_at node event.now capturing) self.now) }
    {
        let mut heard = VecDeque::new(self.alloc);
        self.heard(node, event, capturing, &mut heard)?;
        Ok(heard)
    }

    /// Takes the listener of a node with this type, label and capture away, if there is one (DOM Standard, concept: remove
    /// an event listener).
    pub fn unlisten(&mut self, node: Key, event: &str, label: &str, capture: bool)
        ensures { self.new ≡ with_listener_removed nat_eq node event.now label.now capture self.old }
    {
        self.take(node, event, label.as_bytes(), capture);
    }

    /// Takes the listener of a node with this type, label and capture away, if there is one, as `unlisten` does for a label that is no text.
    pub fn take(&mut self, node: Key, event: &str, label: &[u8], capture: bool)
        ensures { self.new ≡ with_listener_removed nat_eq node event.now label.now capture self.old }
    {
        while let Some(place) = self.table.find(node, event, label, capture) {
            self.table.take(node, event, place);
        }
    }
}

/// Whether two types of events are the same. The last bytes are compared first, since types of one length often begin alike.
#[inline(always)]
pub(crate) fn is_same_type(event: &str, other: &str) -> bool
    ensures { result ≡ text_eq event.now other.now }
{
    let bytes = event.as_bytes();
    let others = other.as_bytes();
    if bytes.len() != others.len() {
        return false;
    }
    let end = bytes.len();
    if end > 0 && bytes[end - 1] != others[end - 1] {
        return false;
    }
    is_same_text(event, other)
}

/// Whether two labels are the same.
fn is_same_label(label: &[u8], other: &[u8]) -> bool
    ensures { result ≡ text_eq label.now other.now }
{
    label == other
}
