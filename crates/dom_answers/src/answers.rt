//! What takes the items of an answer.
ghost use Rattle.std.specs.Prelude.{◌≡◌, ℕ, ◌++◌, ◌∷◌, [], List, OnOk, OnErr, map};
ghost use Rattle.std.specs.List.{All};
ghost use Rattle.dom_base.specs.declared.Owner.{Owner as Viewer};
ghost use Rattle.dom_base.specs.declared.NodeName.{NodeName as Name};
ghost use Rattle.dom_model.specs.Tree.{Trees};
ghost use Rattle.dom_model.specs.Output.{Output, a_list, a_node, a_tree, event_seen, micro_ran, recorded, replied, says};
ghost use Rattle.dom_printer.specs.Records.{change_view, event_view};
ghost use Rattle.dom_printer.specs.Replies.{refusal_output, value_view};
ghost use Rattle.dom_printer.specs.Steps.{steps_view, shown_steps};

use dom_base::{NodeName, Owner, Refusal};
use dom_printer::{Change, Event, Names, TreeStep, Value};
use std::alloc::AllocError;

/// A taker of the items of an answer, one after another: replies, refusals, calls of listeners, records and runs of microtasks, each with
/// the owner that is told. Each call adds one item after the items that are there, or none if memory runs out. `place_path` adds none.
///
/// `adds before items after` says that just these items were added after what was there. `shows answer text owner path` says that an
/// event that is given this text as its path has this path, as this owner sees it.
pub trait Answers {
    ghost adds: { Self → List Output → Self → Type 0 };

    ghost shows: { Self → List ℕ → Viewer → List Name → Type 0 };

    /// Adds a reply with any value except a list of nodes or a tree.
    fn reply(&mut self, owner: &Owner, value: &Value<'_>) -> Result<(), AllocError>
        ensures ok { OnOk result (adds self.old (says owner.now (replied (value_view value.now)) ∷ []) self.new) }
        ensures err { OnErr result (adds self.old [] self.new) };

    /// Adds the reply with this node, as `reply` does.
    fn reply_node(&mut self, owner: &Owner, node: &NodeName) -> Result<(), AllocError>
        ensures ok { OnOk result (adds self.old (says owner.now (replied (a_node node.now)) ∷ []) self.new) }
        ensures err { OnErr result (adds self.old [] self.new) };

    /// Adds the reply with this list of nodes, in this order, each by the name that `names` has for it.
    fn reply_list<T, N: Names<T>>(
        &mut self,
        owner: &Owner,
        names: &N,
        nodes: &[T],
    ) -> Result<(), AllocError>
        requires { All (N.knows names.now) nodes.now }
        ensures ok { OnOk result (adds self.old (says owner.now (replied (a_list (map (N.name names.now) nodes.now))) ∷ []) self.new) }
        ensures err { OnErr result (adds self.old [] self.new) };

    /// Adds the reply with the tree that has these steps: openings and closings of nodes in tree order, with the steps of children
    /// between the two steps of their parent. Nothing is promised of steps that no tree has.
    fn reply_tree(&mut self, owner: &Owner, steps: &[TreeStep<'_>]) -> Result<(), AllocError>
        ensures ok { (trees : Trees) → steps_view steps.now ≡ shown_steps trees →
            OnOk result (adds self.old (says owner.now (replied (a_tree trees)) ∷ []) self.new) }
        ensures err { OnErr result (adds self.old [] self.new) };

    /// Adds a refusal: the owner's, or, for a line without an owner, the one refusal that such a line gets.
    fn refuse(&mut self, owner: Option<Owner>, refusal: Refusal) -> Result<(), AllocError>
        ensures ok { OnOk result (adds self.old (refusal_output owner refusal ∷ []) self.new) }
        ensures err { OnErr result (adds self.old [] self.new) };

    /// Adds a record of the owner's observer with this number.
    fn record(
        &mut self,
        owner: &Owner,
        observer: u32,
        change: &Change<'_>,
    ) -> Result<(), AllocError>
        ensures ok { OnOk result (adds self.old (says owner.now (recorded observer (change_view change.now)) ∷ []) self.new) }
        ensures err { OnErr result (adds self.old [] self.new) };

    /// Adds the run of a microtask with this label.
    fn microtask(&mut self, owner: &Owner, label: &[u8]) -> Result<(), AllocError>
        ensures ok { OnOk result (adds self.old (says owner.now (micro_ran label.now) ∷ []) self.new) }
        ensures err { OnErr result (adds self.old [] self.new) };

    /// Makes a path ready for the events that come next, so that it is written once for all calls of listeners that show this owner this
    /// path. If the answer is text, the path's text is written to `text`, in place of what was there. Each `event` is then given that
    /// text.
    fn place_path(
        &mut self,
        text: &mut Vec<u8>,
        owner: &Owner,
        path: &[NodeName],
    ) -> Result<(), AllocError>
        ensures shown { OnOk result (shows self.new text.new.items owner.now path.now) }
        ensures same { adds self.old [] self.new };

    /// Adds a call of a listener. Its path is the path that was last made ready for this owner, with the text that was written then.
    fn event(&mut self, owner: &Owner, event: &Event<'_>) -> Result<(), AllocError>
        ensures ok { OnOk result ((path : List Name) → shows self.old event.now.path.now owner.now path →
            adds self.old (says owner.now (event_seen (event_view path event.now)) ∷ []) self.new) }
        ensures shown { (text : List ℕ) (viewer : Viewer) (path : List Name) → shows self.old text viewer path →
            shows self.new text viewer path }
        ensures err { OnErr result (adds self.old [] self.new) };

    /// If all stays as it is, no items are added.
    ghost nothing: { (a : Self) → adds a [] a };

    /// If items are added, and then more, all of them are added, in that order.
    ghost more: { (a b c : Self) (xs ys : List Output) → adds a xs b → adds b ys c → adds a (xs ++ ys) c };
}
