//! The items of an event path.
use node_arena::Key;

/// An item of an event path (DOM Standard, 2.2: path: its struct).
#[derive(Clone, Copy)]
pub struct Item {
    /// The invocation target.
    pub node: Key,
    /// The shadow-adjusted target, which is the node itself where there is one.
    pub target: Option<Key>,
    /// The relatedTarget: the event's related node as seen from the node, if the event has one.
    pub related: Option<Key>,
    /// The root-of-closed-tree: whether the node is a shadow root; all are closed.
    pub root_of_closed: bool,
    /// The slot-in-closed-tree: whether the node is the slot of the node before it.
    pub slot_in_closed: bool,
    /// The event's target as seen from the node.
    pub event_target: Key,
    /// The place of the node's tree among the trees of the path.
    pub(crate) tree: usize,
}
