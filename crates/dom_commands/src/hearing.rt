//! Listeners of nodes that are given by their names.
ghost use Rattle.std.specs.Prelude.{◌≡◌, ℕ, filter, length, map, IfOk};
ghost use Rattle.std.specs.List.{list_any};
ghost use Rattle.dom_base.specs.declared.NodeName.{NodeName as Name};
ghost use Rattle.dom_model.specs.Command.{EventWords as EventOf};
ghost use Rattle.dom_model.specs.Listeners.{Listener, Visit as VisitOf, hears, is_listener, with_listener_removed};
ghost use Rattle.dom_model.specs.Names.{name_eq};
ghost use Rattle.dom_model.specs.World.{part_of};
ghost use Rattle.dom_dispatch.specs.Entries.{hears_at, words_in};
ghost use Rattle.dom_commands.specs.Machine.{IsAtRest};
ghost use Rattle.dom_commands.specs.Written.{written};

use crate::machine::Machine;
use dom_admission::State;
use dom_base::{NodeName, Owner};
use dom_dispatch::{HeldWords, Listeners};
use dom_reader::NodeWord;
use node_arena::Key;
use std::alloc::{AllocError, Global};
use std::rc::Rc;

impl Machine {
    /// Whether a node has a listener with this type, label and capture (own rule). A node that is not there has none.
    pub fn listens(&self, node: &NodeName, event: &str, label: &[u8], capture: bool) -> bool
        requires { IsAtRest self.now }
        ensures { result ≡ list_any (is_listener name_eq node.now event.now label.now capture) (part_of self.now.world node.now.owner).listeners }
    {
        self.state.law_names_tell_nodes();
        match self.state.find(node.owner, NodeWord::Own(node.number)) {
            Some(key) => self.listeners.listens(key, event, label, capture),
            None => false,
        }
    }

    /// The words of the listeners that a visit of a node calls: those of the node's listeners that are for events of this type, and capture or do
    /// not, in the order of adding (DOM Standard, concept: inner invoke). A node that is not there has none. The only error is memory refused.
    pub fn heard(
        &self,
        node: &NodeName,
        event: &str,
        capturing: bool,
    ) -> Result<Vec<Rc<HeldWords>>, AllocError>
        requires { IsAtRest self.now }
        ensures { IfOk result (λ heard. (e : EventOf) (v : VisitOf Name) → e.event ≡ event.now → v.current ≡ node.now → v.capturing ≡ capturing →
            map (λ words. record { node = node.now; words = words_in words.value }) heard.items
            ≡ filter (hears name_eq e v) (part_of self.now.world node.now.owner).listeners) }
    {
        self.state.law_names_tell_nodes();
        match self.state.find(node.owner, NodeWord::Own(node.number)) {
            Some(key) => words_at(self.alloc, &self.listeners, key, event, capturing),
            None => Ok(Vec::new(self.alloc)),
        }
    }

    /// Takes the listener of a node with this type, label and capture away, if there is one (DOM Standard, concept: remove an event listener).
    pub fn remove_listener(&mut self, node: &NodeName, event: &str, label: &[u8], capture: bool)
        requires { IsAtRest self.old }
        ensures world { self.new.world ≡ written self.old.world (record (part_of self.old.world node.now.owner)
            { listeners = with_listener_removed name_eq node.now event.now label.now capture (part_of self.old.world node.now.owner).listeners }) }
        ensures sound { IsAtRest self.new }
    {
        self.state.law_names_tell_nodes();
        if let Some(key) = self.state.find(node.owner, NodeWord::Own(node.number)) {
            self.listeners.take(key, event, label, capture);
        }
    }

    /// How many mutation observers an owner has made.
    pub fn observer_count(&self, owner: &Owner) -> usize
        requires { IsAtRest self.now }
        ensures { result ≡ length (part_of self.now.world owner.now).record_queues }
    {
        self.state.law_names_tell_nodes();
        count_of(&self.state, *owner)
    }
}

/// How many mutation observers an owner has made.
fn count_of(state: &State, owner: Owner) -> usize
    ensures { result ≡ length (part_of state.now.world owner).record_queues }
{
    state.doc.observer_count(owner)
}

/// The words of the listeners of a node that hear events of this type, in the order of adding. The only error is memory refused.
fn words_at(
    alloc: Global,
    listeners: &Listeners,
    node: Key,
    event: &str,
    capturing: bool,
) -> Result<Vec<Rc<HeldWords>>, AllocError>
    ensures { IfOk result (λ heard. map (λ words. words_in words.value) heard.items
        ≡ map (λ (l : Listener ℕ). l.words) (filter (hears_at node event.now capturing) listeners.now)) }
{
    let mut heard = Vec::new(alloc);
    let mut listeners = listeners.heard_at(node, event, capturing)?;
    while let Some(listener) = listeners.pop_front() {
        heard.push(listener.words)?;
    }
    Ok(heard)
}
