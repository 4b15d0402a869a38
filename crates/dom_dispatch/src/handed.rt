//! What a dispatch hands on from visit to visit.
ghost use Rattle.dom_path.specs.Items.{PathNow};
ghost use Rattle.dom_dispatch.specs.Dispatches.{IsShownOf};

use crate::listeners::Entry;
use crate::shown::Shown;
use node_arena::Key;
use smallvec::SmallVec;
use std::collections::VecDeque;
use std::rc::Rc;

/// What a visit hands on to the next one: the nodes of its path that the event showed, and the room for copies of the listeners that hear
/// it, so that each visit takes no memory of its own for them.
#[derive(Drop)]
pub(crate) struct Handed {
    pub(crate) shown: Shown,
    pub(crate) heard: VecDeque<Entry>,
}

impl Handed {
    /// Nothing was handed on. The nodes and the listeners will stand in this room.
    pub(crate) fn new(nodes: Option<Rc<SmallVec<Key, 16>>>, heard: VecDeque<Entry>) -> Self
        ensures { (path : PathNow) → IsShownOf path result.shown }
    {
        Handed {
            shown: Shown::new(nodes),
            heard,
        }
    }
}
