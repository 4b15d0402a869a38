//! A notification of an owner's mutation observers, one after another (DOM Standard, notify mutation observers).
ghost use Rattle.std.specs.Prelude.{◌≡◌, All, filter, map, not, IfOk, OnOk};
ghost use Rattle.dom_model.specs.Names.{is_empty};
ghost use Rattle.dom_model.specs.Part.{queue_of};
ghost use Rattle.dom_model.specs.Turns.{is_owned_by, records_of, without_signals};
ghost use Rattle.dom_model.specs.World.{part_of, with_part};
ghost use Rattle.dom_worlds.specs.Worlds.{IsThere};
ghost use Rattle.dom_tree.specs.Forest.{IsNode, name_of};
ghost use Rattle.dom_mutation.specs.Doc.{after_telling, none_pending};
ghost use Rattle.dom_commands.specs.Machine.{IsAtRest};

use crate::machine::Machine;
use dom_admission::put_names;
use dom_answers::Answers;
use dom_base::{NodeName, Owner};
use dom_query_commands::microtasks::take_signals;
use dom_query_commands::telling;
use dom_tree::Forest;
use node_arena::Key;
use std::alloc::{AllocError, Global};

/// What a notification takes: the numbers of the observers that are to be told, and the slots that are signalled.
#[derive(Drop)]
pub struct Pending {
    pub observers: Vec<u32>,
    pub slots: Vec<NodeName>,
}

impl Machine {
    /// Takes the pending observers and the signalled slots of an owner, in their order (DOM Standard, notify mutation observers). No observer of the
    /// owner is pending then, and no slot of it signalled. The only error is that memory ran out; then the machine may stand between two steps.
    /// It asks that the owner is there: `is_there` is the test.
    pub fn take_pending(&mut self, owner: &Owner) -> Result<Pending, AllocError>
        requires sound { IsAtRest self.old }
        requires there { IsThere self.old.world owner.now }
        ensures observers { IfOk result (λ pending. pending.observers.items ≡ (part_of self.old.world owner.now).pending) }
        ensures slots { IfOk result (λ pending. pending.slots.items ≡ filter (is_owned_by owner.now) self.old.world.signalled) }
        ensures world { OnOk result (self.new.world ≡ with_part (without_signals self.old.world owner.now)
            (none_pending (part_of self.old.world owner.now))) }
        ensures sound { OnOk result (IsAtRest self.new) }
    {
        self.state.law_names_tell_nodes();
        let keys = take_signals(&mut self.state, *owner)?;
        let observers = telling::take_pending(&mut self.state, *owner)?;
        let slots = names_of(self.alloc, self.state.forest(), keys.as_slice())?;
        Ok(Pending { observers, slots })
    }

    /// Tells an owner's observer its records: adds them to the answers, empties its queue, and takes its transient registrations away (DOM Standard,
    /// notify mutation observers). Whether there were records. The only error is that memory ran out; then the machine may stand between two steps.
    /// It asks that the owner is there: `is_there` is the test.
    pub fn tell_observer<A: Answers>(
        &mut self,
        owner: &Owner,
        observer: u32,
        out: &mut A,
    ) -> Result<bool, AllocError>
        requires sound { IsAtRest self.old }
        requires there { IsThere self.old.world owner.now }
        ensures told { OnOk result (A.adds out.old (records_of (part_of self.old.world owner.now) observer) out.new) }
        ensures any { IfOk result (λ any. any ≡ not (is_empty (queue_of (part_of self.old.world owner.now).record_queues observer))) }
        ensures world { OnOk result (self.new.world ≡ with_part self.old.world (after_telling observer (part_of self.old.world owner.now))) }
        ensures sound { OnOk result (IsAtRest self.new) }
    {
        self.state.law_names_tell_nodes();
        telling::tell_observer(&mut self.state, *owner, observer, out)
    }
}

/// The names of nodes, in their order.
fn names_of(alloc: Global, forest: &Forest, keys: &[Key]) -> Result<Vec<NodeName>, AllocError>
    requires { All (IsNode forest.now) keys.now }
    ensures { IfOk result (λ names. names.items ≡ map (name_of forest.now) keys.now) }
{
    let mut names = Vec::new(alloc);
    put_names(&mut names, forest, keys)?;
    Ok(names)
}
