//! What the frames ask of documents.
ghost use Rattle.std.specs.Prelude.{◌≡◌, ◌∷◌, [], ◌++◌, ◌==◌, not, drop, filter, length, map, option_map, option_to_list, slice_get, slice_set};
ghost use Rattle.std.specs.Prelude.{IfOk, IfNone, OnOk, None, Some, true};
ghost use Rattle.std.specs.List.{AllByRecursion};
ghost use Rattle.std.specs.Option.{ForSome};
ghost use Rattle.dom_model.specs.Names.{name_eq, is_empty};
ghost use Rattle.dom_model.specs.Command as model;
ghost use Rattle.dom_model.specs.Listeners.{hears, with_listener_removed};
ghost use Rattle.dom_model.specs.Observers.{without_transients};
ghost use Rattle.dom_model.specs.Output.{Output};
ghost use Rattle.dom_model.specs.Part.{queue_of};
ghost use Rattle.dom_model.specs.Turns.{records_of, without_signals};
ghost use Rattle.dom_model.specs.World.{World, part_of};
ghost use Rattle.dom_live.specs.Documents.{world_slots, world_visits, written};
ghost use Rattle.dom_reader.specs.Views.{event_view, listener_view};
ghost use Rattle.dom_callbacks.specs.Views.{listener_at, task_view, visit_view};
ghost use Rattle.dom_callbacks.specs.States.{IsNode, KeepsNodes};

use crate::visits::Visit;
use dom_answers::Answers;
use dom_base::{NodeName, Owner};
use dom_reader::{EventWords, ListenerWords};
use std::alloc::AllocError;
use std::collections::VecDeque;
use std::rc::Rc;

/// A task that waits (HTML Standard, microtask; DOM Standard, queue a mutation observer microtask).
#[derive(Drop)]
pub enum Task {
    /// An owner's microtask, with its label.
    Micro(Owner, Vec<u8>),
    /// An owner's notification.
    Notify(Owner),
}

/// What a notification takes: the numbers of the observers, and the slots that are signalled (DOM Standard, notify mutation observers).
#[derive(Drop)]
pub struct Pending {
    pub observers: VecDeque<u32>,
    pub slots: VecDeque<NodeName>,
}

/// Documents, as far as what is under way asks of them. Their `world` has all owners' parts. A method that answers an error was refused memory, and
/// promises nothing then.
pub trait Documents: Drop {
    ghost world: { Self → World };

    /// The visits of an event at a target, as the trees are now (DOM Standard, concept: dispatch).
    fn visits(
        &self,
        target: &NodeName,
        related: Option<NodeName>,
        event: &EventWords,
    ) -> Result<VecDeque<Visit>, AllocError>
        requires target { IsNode (world self.now) target.now }
        requires related { ForSome related (IsNode (world self.now)) }
        ensures { IfOk result (λ visits. map visit_view visits.items ≡ world_visits (world self.now) target.now related (event_view event.now)) };

    /// The words of the listeners that a visit calls: those of the node's listeners that fit, in the order of adding (DOM Standard, concept: inner
    /// invoke).
    fn heard(
        &self,
        event: &EventWords,
        visit: &Visit,
    ) -> Result<VecDeque<Rc<ListenerWords>>, AllocError>
        ensures { IfOk result (λ heard. map (λ w. listener_at visit.now.current w.value) heard.items
            ≡ filter (hears name_eq (event_view event.now) (visit_view visit.now)) (part_of (world self.now) visit.now.current.owner).listeners) };

    /// Removes a listener of a node (DOM Standard, concept: remove an event listener).
    fn unlisten(&mut self, node: &NodeName, event: &[u8], label: &[u8], capture: bool)
        ensures world { let p = part_of (world self.old) node.now.owner in world self.new ≡ written (world self.old)
            (record p { listeners = with_listener_removed name_eq node.now event.now label.now capture p.listeners }) }
        ensures nodes { KeepsNodes (world self.old) (world self.new) };

    /// Takes the first task.
    fn next_task(&mut self) -> Option<Task>
        ensures task { option_map task_view result ≡ slice_get (world self.old).tasks 0 }
        ensures world { world self.new ≡ record (world self.old) { tasks = drop 1 (world self.old).tasks } }
        ensures nodes { KeepsNodes (world self.old) (world self.new) };

    /// Takes the pending observers and the signalled slots of an owner (DOM Standard, notify mutation observers).
    fn take_pending(&mut self, owner: &Owner) -> Result<Pending, AllocError>
        ensures observers { IfOk result (λ pending. pending.observers.items ≡ (part_of (world self.old) owner.now).pending) }
        ensures slots { IfOk result (λ pending. pending.slots.items ≡ world_slots (world self.old) owner.now) }
        ensures are_nodes { IfOk result (λ pending. AllByRecursion (IsNode (world self.new)) pending.slots.items) }
        ensures world { OnOk result (world self.new ≡ written (without_signals (world self.old) owner.now)
            (record (part_of (world self.old) owner.now) { pending = [] })) }
        ensures nodes { OnOk result (KeepsNodes (world self.old) (world self.new)) };

    /// Tells an owner's observer of this number its records: they are added to the answer, its queue is empty afterwards, and its transient
    /// registrations go. Answers whether there were records (DOM Standard, notify mutation observers).
    fn tell_observer<A: Answers>(
        &mut self,
        owner: &Owner,
        observer: u32,
        answer: &mut A,
    ) -> Result<bool, AllocError>
        ensures told { OnOk result (A.adds answer.old (records_of (part_of (world self.old) owner.now) observer) answer.new) }
        ensures any { IfOk result (λ any. any ≡ not (is_empty (queue_of (part_of (world self.old) owner.now).record_queues observer))) }
        ensures world { OnOk result (let p = part_of (world self.old) owner.now in world self.new ≡ written (world self.old) (record p {
          record_queues = slice_set p.record_queues observer [];
          registrations = without_transients (observer ∷ []) p.registrations;
        })) }
        ensures nodes { OnOk result (KeepsNodes (world self.old) (world self.new)) };
}
