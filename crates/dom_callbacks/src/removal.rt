//! Listeners are removed while events are under way.
ghost use Rattle.std.specs.Prelude.{◌≡◌, map};
ghost use Rattle.std.specs.List.{AllByRecursion};
ghost use Rattle.dom_model.specs.Names.{name_eq};
ghost use Rattle.dom_live.specs.Documents.{world_documents};
ghost use Rattle.dom_live.specs.Frames.{without_call, without_calls};
ghost use Rattle.dom_live.specs.SmallSteps.{without_listener, after_once};
ghost use Rattle.dom_reader.specs.Views.{listener_view};
ghost use Rattle.dom_callbacks.specs.Views.{frame_view, visiting_view};
ghost use Rattle.dom_callbacks.specs.States.{live_of, IsReady, HaveSameSlots, SameSlots};

use crate::documents::Documents;
use crate::frames::Frame;
use crate::state::LiveState;
use crate::visits::VisitUnderWay;
use crate::words::{is_of_words, is_same_node, remove_live_listener};
use dom_base::NodeName;
use dom_reader::ListenerWords;

impl VisitUnderWay {
    /// Takes a listener of a node out of those that the visit still has to call (DOM Standard, concept: inner invoke, the removed flag).
    fn without_call(&mut self, node: &NodeName, event: &[u8], label: &[u8], capture: bool)
        ensures { visiting_view self.new ≡ without_call node.now event.now label.now capture (visiting_view self.old) }
    {
        if is_same_node(&self.visit.current, node) {
            self.calls
                .retain(|words| !is_of_words(words, event, label, capture));
        }
    }
}

impl Frame {
    /// Takes a listener of a node out of those that an event's visit still has to call, if the frame is an event.
    fn without_calls(&mut self, node: &NodeName, event: &[u8], label: &[u8], capture: bool)
        ensures view { frame_view self.new ≡ without_calls node.now event.now label.now capture (frame_view self.old) }
        ensures slots { SameSlots self.old self.new }
    {
        if let Frame::Event(under_way) = self {
            if let Some(visit) = &mut under_way.visiting {
                visit.without_call(node, event, label, capture);
            }
        }
    }
}

/// Takes a listener of a node out of those that visits still have to call.
fn remove_calls(frames: &mut [Frame], node: &NodeName, event: &[u8], label: &[u8], capture: bool)
    ensures view { map frame_view frames.new ≡ map (without_calls node.now event.now label.now capture) (map frame_view frames.old) }
    ensures slots { HaveSameSlots frames.old frames.new }
{
    for frame in frames.iter_mut() {
        frame.without_calls(node, event, label, capture);
    }
}

impl<D: Documents> LiveState<D> {
    /// Removes a listener from its node's list, from what is live, and from what every visit of the node still has to call (DOM Standard, concept:
    /// remove an event listener; inner invoke, the removed flag).
    pub(crate) fn remove_listener(
        &mut self,
        node: &NodeName,
        event: &[u8],
        label: &[u8],
        capture: bool,
    )
        requires { IsReady D.world self.old }
        ensures state { live_of D.world self.new ≡ without_listener world_documents node.now event.now label.now capture (live_of D.world self.old) }
        ensures ready { IsReady D.world self.new }
    {
        self.documents.unlisten(node, event, label, capture);
        remove_live_listener(&mut self.live_listeners, node, event, label, capture);
        remove_calls(self.frames.make_contiguous(), node, event, label, capture);
    }

    /// A listener of a node that is for once is removed as it is called (DOM Standard, concept: inner invoke).
    pub(crate) fn remove_once(&mut self, node: &NodeName, words: &ListenerWords)
        requires { IsReady D.world self.old }
        ensures state { live_of D.world self.new ≡ after_once world_documents node.now (listener_view words.now) (live_of D.world self.old) }
        ensures ready { IsReady D.world self.new }
    {
        if words.once {
            self.remove_listener(
                node,
                words.event.as_bytes(),
                words.label.as_bytes(),
                words.capture,
            );
        }
    }
}
