//! The kinds of listeners, of which many are of one.
ghost use Rattle.std.specs.Prelude.{◌≡◌, true, string_bytes, IfOk};
ghost use Rattle.dom_dispatch.specs.Entries.{words_of, words_in, with_label};

use crate::listeners::ListenerInit;
use dom_attributes::is_same_text;
use dom_base::Action;
use smallvec::SmallVec;
use std::alloc::{AllocError, Global};
use std::rc::Rc;

/// How many kinds are kept. Each of them is compared with a listener's words in turn, so they are few; one that comes later is made
/// anew each time.
const MOST: usize = 16;

/// What a listener is but for its node and its label (DOM Standard, concept: event listener; own rule for the action).
#[derive(Drop)]
pub struct ListenerKind {
    pub event: String,
    pub action: Action,
    pub capture: bool,
    pub once: bool,
    pub passive: bool,
}

/// The words of a listener: its label, which stands here if it has at most 16 bytes, and its kind.
#[derive(Drop)]
pub struct HeldWords {
    pub label: SmallVec<u8, 16>,
    pub kind: Rc<ListenerKind>,
}

/// The kinds that came first. Each is kept once, for all listeners that are of it.
#[derive(Drop)]
pub(crate) struct Kinds {
    kept: Vec<Rc<ListenerKind>>,
    alloc: Global,
}

impl Kinds {
    /// No kinds. Takes no memory yet.
    pub(crate) fn new(alloc: Global) -> Self {
        Kinds {
            kept: Vec::new(alloc),
            alloc,
        }
    }

    /// The words of a listener, with its kind as it is kept where it is; that it is then the same block no clause says.
    pub(crate) fn hold(&mut self, words: ListenerInit) -> Result<Rc<HeldWords>, AllocError>
        ensures { IfOk result (λ held. words_in held.value ≡ words_of words) }
    {
        let label = SmallVec::from_slice(self.alloc, words.label.as_bytes())?;
        let kind = self.kind(words)?;
        Ok(Rc::new(self.alloc, HeldWords { label, kind })?)
    }

    /// The kind of a listener with these words.
    fn kind(&mut self, words: ListenerInit) -> Result<Rc<ListenerKind>, AllocError>
        ensures { IfOk result (λ kind. with_label (string_bytes words.label) kind.value ≡ words_of words) }
    {
        for kept in &self.kept {
            if is_kind_of(kept, &words) {
                return kept.clone();
            }
        }
        self.add(words)
    }

    /// A kind that is not kept yet. From now on it is, where there is room.
    fn add(&mut self, words: ListenerInit) -> Result<Rc<ListenerKind>, AllocError>
        ensures { IfOk result (λ kind. with_label (string_bytes words.label) kind.value ≡ words_of words) }
    {
        let ListenerInit {
            event,
            label,
            action,
            capture,
            once,
            passive,
        } = words;
        let kind = ListenerKind {
            event,
            action,
            capture,
            once,
            passive,
        };
        let kind = Rc::new(self.alloc, kind)?;
        if self.kept.len() < MOST {
            self.kept.push(kind.clone()?)?;
        }
        Ok(kind)
    }
}

/// Whether listeners with these words are of a kind.
fn is_kind_of(kind: &ListenerKind, words: &ListenerInit) -> bool
    ensures { result ≡ true → with_label (string_bytes words.now.label) kind.now ≡ words_of words.now }
{
    is_same_text(kind.event.as_str(), words.event.as_str())
        && is_same_action(kind.action, words.action)
        && kind.capture == words.capture
        && kind.once == words.once
        && kind.passive == words.passive
}

/// Whether two actions are the same.
fn is_same_action(action: Action, other: Action) -> bool
    ensures { result ≡ true → action ≡ other }
{
    match action {
        Action::Log => matches!(other, Action::Log),
        Action::Stop => matches!(other, Action::Stop),
        Action::StopNow => matches!(other, Action::StopNow),
        Action::Cancel => matches!(other, Action::Cancel),
    }
}
