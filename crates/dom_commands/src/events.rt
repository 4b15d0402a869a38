//! The commands on listeners and events.
ghost use Rattle.std.specs.Prelude.{◌≡◌, ◌<◌, not, true, length, OnOk, Some};
ghost use Rattle.std.specs.Option.{option_map, ForSome};
ghost use Rattle.dom_model.specs.Command.{listen, unlisten, dispatch, EventWords as EventOf};
ghost use Rattle.dom_model.specs.CommandNames.{named};
ghost use Rattle.dom_model.specs.CommandRefusals.{related_refusal};
ghost use Rattle.dom_model.specs.DocumentMachine.{refusal};
ghost use Rattle.dom_model.specs.Names.{name_eq};
ghost use Rattle.dom_model.specs.Tree.{has_node, root_of};
ghost use Rattle.dom_model.specs.Turns.{opening_turn};
ghost use Rattle.dom_model.specs.World.{part_of, is_there};
ghost use Rattle.dom_reader.specs.Views.{event_view, listener_view, word_view};
ghost use Rattle.dom_tree.specs.Forest.{name_at};
ghost use Rattle.dom_dispatch.specs.Dispatches.{event_words};
ghost use Rattle.dom_dispatch.specs.Entries.{words_of};
ghost use Rattle.dom_admission.specs.Handled.{IsHandled, let_pass};
ghost use Rattle.dom_commands.specs.Machine.{IsAtRest, KeepsListeners};

use crate::machine::Machine;
use dom_admission::{Operand, State};
use dom_answers::Answers;
use dom_base::{Fault, Owner, Refusal};
use dom_dispatch::{EventInit, ListenerInit};
use dom_printer::Value;
use dom_reader::{EventWords, ListenerWords, NodeWord};
use node_arena::Key;

impl Machine {
    /// `listen N TYPE LABEL ACTION [capture] [once] [passive]`: a node gets a listener, unless it has one with this type, label and
    /// capture.
    pub(crate) fn listen<A: Answers>(
        &mut self,
        owner: Owner,
        node: NodeWord,
        words: ListenerWords,
        out: &mut A,
    ) -> Result<(), Fault>
        requires { IsAtRest self.old }
        ensures handled { IsHandled A.adds owner (listen (word_view node) (listener_view words)) self.old.world self.new.world out.old out.new result }
        ensures listeners { KeepsListeners self.new result }
    {
        self.state.law_names_tell_nodes();
        self.state.admit(owner, &[Operand::Any(node)])?;
        let node = self.state.key(owner, node);
        self.listeners.listen(node, listener_init(words))?;
        self.state.accept(&owner, &Value::Nothing, out)
    }

    /// `unlisten N TYPE LABEL [capture]`: the listener of a node with this type, label and capture goes, if there is one.
    pub(crate) fn unlisten<A: Answers>(
        &mut self,
        owner: Owner,
        node: NodeWord,
        event: &str,
        label: &str,
        capture: bool,
        out: &mut A,
    ) -> Result<(), Fault>
        requires { IsAtRest self.old }
        ensures handled { IsHandled A.adds owner (unlisten (word_view node) event.now label.now capture) self.old.world self.new.world out.old
            out.new result }
        ensures listeners { KeepsListeners self.new result }
    {
        self.state.law_names_tell_nodes();
        self.state.admit(owner, &[Operand::Any(node)])?;
        let node = self.state.key(owner, node);
        self.listeners.unlisten(node, event, label, capture);
        self.state.accept(&owner, &Value::Nothing, out)
    }
}

impl Machine {
    /// `dispatch N TYPE [bubbles] [cancelable] [composed] [related N]`: an event is dispatched at a node; whether it was not cancelled.
    pub(crate) fn dispatch<A: Answers>(
        &mut self,
        owner: Owner,
        target: NodeWord,
        event: EventWords,
        related: Option<NodeWord>,
        out: &mut A,
    ) -> Result<(), Fault>
        requires { IsAtRest self.old }
        ensures handled { IsHandled A.adds owner (dispatch (word_view target) (event_view event) (option_map word_view related)) self.old.world
            self.new.world out.old out.new result }
        ensures listeners { KeepsListeners self.new result }
    {
        self.state.law_names_tell_nodes();
        admit_event(&self.state, owner, target, related)?;
        let target = self.state.key(owner, target);
        let related = key_of(&self.state, owner, related);
        self.open_turn(owner);
        let answer = self.fire(target, event_init(event, related), out)?;
        out.reply(&owner, &Value::Truth(answer))?;
        Ok(())
    }

    /// Opens an owner's turn, if none is open.
    fn open_turn(&mut self, owner: Owner)
        requires sound { IsAtRest self.old }
        requires owner_is_there { is_there self.old.world owner ≡ true }
        ensures world { self.new.world ≡ opening_turn self.old.world owner }
        ensures names { self.new.names ≡ self.old.names }
        ensures sound { IsAtRest self.new }
    {
        self.state.open_turn(&owner);
    }
}

/// Lets the line of a dispatch pass, or says why it is refused.
pub(crate) fn admit_event(
    state: &State,
    owner: Owner,
    target: NodeWord,
    related: Option<NodeWord>,
) -> Result<(), Fault>
    ensures refusal { (e : EventOf) → result ≡ let_pass (refusal state.now.world owner (dispatch (word_view target) e (option_map word_view related))) }
    ensures target { OnOk result (has_node (part_of state.now.world owner).trees (named (part_of state.now.world owner) (word_view target)) ≡ true) }
    ensures related { OnOk result (ForSome related
        (λ r. has_node (part_of state.now.world owner).trees (named (part_of state.now.world owner) (word_view r)) ≡ true)) }
{
    match related {
        None => state.admit(owner, &[Operand::Any(target)]),
        Some(related) => admit_related(state, owner, target, related),
    }
}

/// Lets the line of a dispatch with a related node pass, or says why it is refused.
fn admit_related(
    state: &State,
    owner: Owner,
    target: NodeWord,
    related: NodeWord,
) -> Result<(), Fault>
    ensures refusal { (e : EventOf) → result ≡ let_pass (refusal state.now.world owner (dispatch (word_view target) e (Some (word_view related)))) }
    ensures target { OnOk result (has_node (part_of state.now.world owner).trees (named (part_of state.now.world owner) (word_view target)) ≡ true) }
    ensures related { OnOk result (has_node (part_of state.now.world owner).trees (named (part_of state.now.world owner) (word_view related)) ≡ true) }
{
    state.admit(owner, &[Operand::Any(target), Operand::Any(related)])?;
    match related_refusal(state, owner, target, related) {
        None => Ok(()),
        Some(refusal) => Err(Fault::Refused(refusal)),
    }
}

/// The refusal of a related node: a component's has the root of the target.
fn related_refusal(
    state: &State,
    owner: Owner,
    target: NodeWord,
    related: NodeWord,
) -> Option<Refusal>
    requires target_is_there { has_node (part_of state.now.world owner).trees (named (part_of state.now.world owner) (word_view target)) ≡ true }
    requires related_is_there { has_node (part_of state.now.world owner).trees (named (part_of state.now.world owner) (word_view related)) ≡ true }
    ensures { result ≡ related_refusal owner (part_of state.now.world owner) (named (part_of state.now.world owner) (word_view target))
        (Some (word_view related)) }
{
    match owner {
        Owner::Page => None,
        Owner::Component(_) => {
            if has_other_root(state, owner, target, related) {
                Some(Refusal::TypeFault)
            } else {
                None
            }
        }
    }
}

/// Whether two nodes that are there have other roots.
fn has_other_root(state: &State, owner: Owner, node: NodeWord, other: NodeWord) -> bool
    requires node_is_there { has_node (part_of state.now.world owner).trees (named (part_of state.now.world owner) (word_view node)) ≡ true }
    requires other_is_there { has_node (part_of state.now.world owner).trees (named (part_of state.now.world owner) (word_view other)) ≡ true }
    ensures { result ≡ not (name_eq (root_of (part_of state.now.world owner).trees (named (part_of state.now.world owner) (word_view node)))
        (root_of (part_of state.now.world owner).trees (named (part_of state.now.world owner) (word_view other)))) }
{
    let (node, other) = (state.key(owner, node), state.key(owner, other));
    let forest = state.doc.forest();
    forest.law_nodes_stand_once();
    let root = forest.root(node);
    let other_root = forest.root(other);
    root != other_root
}

/// The node that an owner's line names, if it names one, which is there.
fn key_of(state: &State, owner: Owner, node: Option<NodeWord>) -> Option<Key>
    requires { ForSome node (λ r. has_node (part_of state.now.world owner).trees (named (part_of state.now.world owner) (word_view r)) ≡ true) }
    ensures node { ForSome result (λ k. k < length state.now.names) }
    ensures name { option_map (name_at state.now.names) result ≡ option_map (λ r. named (part_of state.now.world owner) (word_view r)) node }
{
    match node {
        Some(node) => Some(state.key(owner, node)),
        None => None,
    }
}

/// The words of a line, as those of an event.
fn event_init(words: EventWords, related: Option<Key>) -> EventInit
    ensures words { event_words result ≡ event_view words }
    ensures related { result.related ≡ related }
{
    EventInit {
        name: words.event,
        bubbles: words.bubbles,
        cancelable: words.cancelable,
        composed: words.composed,
        related,
    }
}

/// The words of a line, as those of a listener.
fn listener_init(words: ListenerWords) -> ListenerInit
    ensures { words_of result ≡ listener_view words }
{
    ListenerInit {
        event: words.event,
        label: words.label,
        action: words.action,
        capture: words.capture,
        once: words.once,
        passive: words.passive,
    }
}
