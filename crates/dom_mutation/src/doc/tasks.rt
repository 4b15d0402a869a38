//! The microtasks (HTML Standard, concept: microtask queue), and the slots that a notification takes.
ghost use Rattle.std.specs.Prelude.{◌≡◌, ◌++◌, ◌∷◌, [], All, filter, map, IfOk, OnOk, OnErr};
ghost use Rattle.dom_model.specs.World.{micro_task};
ghost use Rattle.dom_model.specs.Turns.{is_owned_by, without_signals};
ghost use Rattle.dom_mutation.specs.Doc.{name_in, with_tasks, HoldsNode};

use crate::Doc;
use dom_base::Owner;
use dom_microtasks::Queue;
use node_arena::Key;
use std::alloc::AllocError;
use std::mem;

impl Doc {
    /// Queues a label of an owner behind all tasks (HTML Standard, queue a microtask). Where memory is refused, nothing
    /// changes.
    pub fn push_micro(&mut self, owner: Owner, label: Vec<u8>) -> Result<(), AllocError>
        ensures ok { OnOk result (self.new ≡ with_tasks (self.old.world.tasks ++ micro_task owner label.items ∷ []) self.old) }
        ensures err { OnErr result (self.new ≡ self.old) }
    {
        let parts = &mut self.parts;
        parts.trees.queue.push_micro(owner, label)
    }

    /// Takes all tasks out, for them to run (HTML Standard, perform a microtask checkpoint).
    pub fn take_tasks(&mut self) -> Queue
        ensures tasks { result ≡ self.old.world.tasks }
        ensures rest { self.new ≡ with_tasks [] self.old }
    {
        let parts = &mut self.parts;
        mem::replace(&mut parts.trees.queue, Queue::new(parts.alloc))
    }

    /// The slots of an owner that are signalled, in their order; then none of that owner is (DOM Standard, notify mutation
    /// observers: signal slots). Where memory is refused, nothing changes.
    pub fn take_signals(&mut self, owner: Owner) -> Result<Vec<Key>, AllocError>
        ensures keys { IfOk result (λ keys. map (name_in self.old) keys.items ≡ filter (is_owned_by owner) self.old.world.signalled) }
        ensures nodes { IfOk result (λ keys. All (HoldsNode self.old) keys.items) }
        ensures rest { OnOk result (self.new ≡ record self.old { world = without_signals self.old.world owner }) }
        ensures err { OnErr result (self.new ≡ self.old) }
    {
        let parts = &mut self.parts;
        let own = parts.trees.own_slots(parts.alloc, owner)?;
        parts.trees.signalled.forget(owner);
        Ok(own)
    }
}
