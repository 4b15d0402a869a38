//! Dispatches of events, and what they tell.
ghost use Rattle.std.specs.Prelude.{◌≡◌, ℕ, ◌<◌, ◌∷◌, [], true, All, List, length, map, IfOk, OnOk};
ghost use Rattle.std.specs.Option.{option_map, ForSome};
ghost use Rattle.dom_base.specs.declared.NodeName.{NodeName};
ghost use Rattle.dom_base.specs.declared.Owner.{Owner as Viewer};
ghost use Rattle.dom_model.specs.Dispatch.{dispatch_in};
ghost use Rattle.dom_tree.specs.Forest.{name_at};
ghost use Rattle.dom_dispatch.specs.Dispatches.{event_words, line_in, IsOwnLine, AreNumbered, HasPathOf};
ghost use Rattle.dom_commands.specs.Machine.{AreAtNodes, IsAtRest, NamesNodes, line_shown, path_named};

use crate::machine::Machine;
use crate::path_text::PathText;
use dom_answers::Answers;
use dom_dispatch::{EventInit, LogLine, Outcome};
use dom_printer::Event;
use dom_tree::Forest;
use node_arena::Key;
use std::alloc::AllocError;

impl Machine {
    /// Dispatches an event at a node, adds the calls of listeners to the answers, and gives whether it was not cancelled (DOM Standard,
    /// concept: dispatch).
    pub(crate) fn fire<A: Answers>(
        &mut self,
        target: Key,
        event: EventInit,
        out: &mut A,
    ) -> Result<bool, AllocError>
        requires sound { IsAtRest self.old }
        requires target_is_node { target < length self.old.names }
        requires related_is_node { ForSome event.related (λ k. k < length self.old.names) }
        ensures world { OnOk result (self.new.world ≡
            (dispatch_in self.old.world (name_at self.old.names target) (option_map (name_at self.old.names) event.related)
            (event_words event)).run.0) }
        ensures told { OnOk result (A.adds out.old
            (dispatch_in self.old.world (name_at self.old.names target) (option_map (name_at self.old.names) event.related)
            (event_words event)).run.1 out.new) }
        ensures answer { IfOk result (λ answer.
            answer ≡ (dispatch_in self.old.world (name_at self.old.names target) (option_map (name_at self.old.names) event.related)
            (event_words event)).answer) }
        ensures names { OnOk result (self.new.names ≡ self.old.names) }
        ensures listeners { OnOk result (AreAtNodes self.new) }
    {
        self.state.law_names_tell_nodes();
        let (forest, slots) = self.state.forest_and_slots();
        let outcome = self
            .listeners
            .dispatch_in_world(forest, slots, target, event)?;
        put_lines(&mut self.path, forest, outcome.lines.as_slice(), out)?;
        let Outcome { lines, answer } = outcome;
        self.listeners.reuse(lines);
        Ok(answer)
    }
}

/// Adds the calls of listeners to the answers, each as its owner sees it. Successive calls that show the same owner the same path share
/// one path, which is made ready once.
fn put_lines<A: Answers>(
    path: &mut PathText,
    forest: &Forest,
    lines: &[LogLine],
    out: &mut A,
) -> Result<(), AllocError>
    requires nodes { All (λ l. NamesNodes forest.now.names (line_in l)) lines.now }
    requires owners { All (IsOwnLine forest.now.names) lines.now }
    requires numbered { AreNumbered lines.now }
    ensures { OnOk result (A.adds out.old (map (line_shown forest.now.names) lines.now) out.new) }
{
    let [first, ..] = lines else {
        return Ok(());
    };
    let mut shown = first;
    path.set(forest, first, out)?;
    for line in lines {
        if !has_path_of(line, shown) {
            path.set(forest, line, out)?;
            shown = line;
        }
        put_line(forest, line, path.text(), out)?;
    }
    Ok(())
}

/// Whether two calls of listeners show the same owner the same path.
fn has_path_of(line: &LogLine, other: &LogLine) -> bool
    ensures owner { result ≡ true → other.now.owner ≡ line.now.owner }
    ensures path { result ≡ true → (names : List NodeName) (paths : ℕ → List ℕ) → HasPathOf paths line.now → HasPathOf paths other.now →
        path_named names other.now ≡ path_named names line.now }
{
    line.owner == other.owner && line.path_at == other.path_at
}

/// Adds the call of a listener to the answers, as its owner sees it, with the path that was made ready.
fn put_line<A: Answers>(
    forest: &Forest,
    line: &LogLine,
    path: &[u8],
    out: &mut A,
) -> Result<(), AllocError>
    requires nodes { NamesNodes forest.now.names (line_in line.now) }
    requires owner { IsOwnLine forest.now.names line.now }
    requires path { A.shows out.old path.now line.now.owner (path_named forest.now.names line.now) }
    ensures shown { OnOk result ((text : List ℕ) (viewer : Viewer) (path : List NodeName) → A.shows out.old text viewer path →
        A.shows out.new text viewer path) }
    ensures told { OnOk result (A.adds out.old (line_shown forest.now.names line.now ∷ []) out.new) }
{
    let related = match line.related {
        Some(related) => Some(forest.name(related)),
        None => None,
    };
    let event = Event {
        label: line.listener.label.as_slice(),
        event: line.listener.kind.event.as_bytes(),
        phase: line.phase,
        target: forest.name(line.target),
        current: forest.name(line.current),
        related,
        path,
    };
    out.event(&line.owner, &event)
}
