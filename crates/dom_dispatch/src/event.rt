//! Events, and what a dispatch tells of them.

use crate::kinds::HeldWords;
use dom_base::Owner;
use node_arena::Key;
use smallvec::SmallVec;
use std::rc::Rc;

/// An event that is to be dispatched (DOM Standard, dictionary EventInit; own rule: its type and its related node are among
/// them).
#[derive(Drop)]
pub struct EventInit {
    pub name: String,
    pub bubbles: bool,
    pub cancelable: bool,
    pub composed: bool,
    pub related: Option<Key>,
}

/// The line of a call of a listener: what it sees of the event (DOM Standard, interface Event: eventPhase, target,
/// currentTarget, relatedTarget and composedPath()).
#[derive(Drop)]
pub struct LogLine {
    /// The owner of the node whose listener it is.
    pub owner: Owner,
    /// The words of the listener, with its label and the event's type.
    pub listener: Rc<HeldWords>,
    /// 1 while capturing, 2 at the target, 3 while bubbling.
    pub phase: u8,
    pub target: Key,
    /// The node whose listener it is.
    pub current: Key,
    pub related: Option<Key>,
    /// The nodes of the event's path that it shows there. Lines of one dispatch may hold them in common.
    pub path: Rc<SmallVec<Key, 16>>,
    /// The place of an item of the path at which the event shows just these. Lines of one dispatch with the same number have the same path.
    pub path_at: usize,
}

/// How a dispatch ended: the lines of the calls in their order, and the answer, which is false exactly where the event was
/// cancelled (DOM Standard, dispatchEvent()).
#[derive(Drop)]
pub struct Outcome {
    pub lines: Vec<LogLine>,
    pub answer: bool,
}
