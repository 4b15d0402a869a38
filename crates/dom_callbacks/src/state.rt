//! The state of live documents: the documents, what is live in them, and what is under way.

ghost use Rattle.std.specs.Prelude.{◌≡◌, OnOk};
ghost use Rattle.dom_live.specs.SmallSteps.{pushed};
ghost use Rattle.dom_callbacks.specs.Views.{frame_view};
ghost use Rattle.dom_callbacks.specs.States.{live_of, HasSlots, IsReady};

use crate::documents::Documents;
use crate::frames::Frame;
use dom_base::{NodeName, Owner};
use dom_reader::ListenerWords;
use std::alloc::{AllocError, Global};
use std::collections::VecDeque;

/// A listener that is live: a call of it calls the owner of its node.
#[derive(Drop)]
pub struct LiveListener {
    pub node: NodeName,
    pub words: ListenerWords,
}

/// Live documents: which listeners, observers and waiting microtasks are live, and what is under way, the innermost first.
#[derive(Drop)]
pub struct LiveState<D> {
    pub documents: D,
    pub live_listeners: Vec<LiveListener>,
    pub live_observers: Vec<(Owner, u32)>,
    /// Whether each waiting microtask is live, each owner's in their order.
    pub live_tasks: Vec<(Owner, bool)>,
    pub frames: VecDeque<Frame>,
    /// Whether the input is at its end, where no call waits.
    pub is_over: bool,
    /// Room for the text of a path.
    pub text: Vec<u8>,
    pub alloc: Global,
}

impl<D: Documents> LiveState<D> {
    /// Puts a frame on those that are under way, as the innermost.
    pub(crate) fn push(&mut self, frame: Frame) -> Result<(), AllocError>
        requires ready { IsReady D.world self.old }
        requires slots { HasSlots (D.world self.old.documents) frame }
        ensures state { OnOk result (live_of D.world self.new ≡ pushed (frame_view frame) (live_of D.world self.old)) }
        ensures ready { OnOk result (IsReady D.world self.new) }
    {
        Ok(self.frames.push_front(frame)?)
    }
}
