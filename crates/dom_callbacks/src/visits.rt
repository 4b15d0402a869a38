//! Visits of an event.

use dom_base::NodeName;
use dom_reader::ListenerWords;
use std::collections::VecDeque;
use std::rc::Rc;

/// One visit of an event at a node, with what listeners see of the event there (DOM Standard, concept: dispatch; interface Event).
#[derive(Drop)]
pub struct Visit {
    /// The node that is visited.
    pub current: NodeName,
    /// 1 while capturing, 2 at the target, 3 while bubbling.
    pub phase: u8,
    /// Whether listeners are called that capture.
    pub capturing: bool,
    pub target: NodeName,
    pub related: Option<NodeName>,
    /// The nodes of the composed path that the event shows there. Visits that show the same ones may hold them in common.
    pub path: Rc<Vec<NodeName>>,
}

/// A visit that is made (DOM Standard, concept: inner invoke).
#[derive(Drop)]
pub struct VisitUnderWay {
    pub visit: Visit,
    /// The words of the listeners that are still to be called.
    pub calls: VecDeque<Rc<ListenerWords>>,
    /// The words of the listener that is called and has not returned.
    pub called: Option<Rc<ListenerWords>>,
    /// Whether no more listeners are called: the stop immediate propagation flag. No later visit sees it, since it comes with the stop
    /// propagation flag (DOM Standard, 2.2: event flags).
    pub stopped_now: bool,
}
