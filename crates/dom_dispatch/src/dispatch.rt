//! Dispatching events.
ghost use Rattle.std.specs.Prelude.{◌≡◌, ℕ, ◌<◌, ◌||◌, nat_eq, true, false, length, filter, fold, map, reverse, slice_get, Some, IfOk, OnOk};
ghost use Rattle.std.specs.List.{AllByRecursion};
ghost use Rattle.std.specs.Option.{ForSome};
ghost use Rattle.dom_model.specs.Dispatch.{visit_of, is_at_target};
ghost use Rattle.dom_model.specs.Listeners.{after_inner_invoke, after_invoke};
ghost use Rattle.dom_model.specs.Paths.{View};
ghost use Rattle.dom_slots.specs.Kept.{AreSlotsOf};
ghost use Rattle.dom_path.specs.Items.{HasNodes};
ghost use Rattle.dom_dispatch.specs.Entries.{listener_of, listeners_in, hears_at};
ghost use Rattle.dom_dispatch.specs.Dispatches.{event_words, visit_in, dispatching_in, IsOwnLine, AreNumbered, IsLineAlong, KeepsLines, paths_of};
ghost use Rattle.dom_dispatch.specs.Dispatches.{IsDispatched, IsDispatchedAlong, IsDispatchedIn, IsShownOf};
ghost use Rattle.dom_dispatch.specs.ListenersByName.{IsListenerAt};
ghost use Rattle.dom_tree.specs.Forest.{IsNode};

use crate::event::{EventInit, Outcome};
use crate::handed::Handed;
use crate::listeners::{Entry, Listeners};
use crate::progress::Progress;
use crate::room::Room;
use crate::visit::Visit;
use dom_path::Path;
use dom_slots::Slots;
use dom_tree::Forest;
use node_arena::Key;
use std::alloc::AllocError;
use std::collections::VecDeque;

impl Listeners {
    /// Dispatches an event at a target, and answers the lines of the calls of listeners, and whether it was not cancelled (DOM
    /// Standard, concept: dispatch). After a refusal of memory some listeners that are for once may have gone.
    pub fn dispatch(
        &mut self,
        forest: &Forest,
        slots: &Slots,
        target: Key,
        event: EventInit,
    ) -> Result<Outcome, AllocError>
        requires target_is_node { IsNode forest.now target }
        requires related_is_node { ForSome event.related (IsNode forest.now) }
        requires slots { AreSlotsOf forest.now slots.now }
        ensures keys { IfOk result (λ outcome. IsDispatched forest.now slots.now.hosts self.old self.new target event.related (event_words event) outcome) }
        ensures names { IfOk result (λ outcome. AllByRecursion (IsListenerAt forest.now.names) self.old →
            IsDispatchedIn forest.now slots.now.hosts self.old self.new target event.related (event_words event) outcome) }
        ensures owners { IfOk result (λ outcome. AllByRecursion (IsOwnLine forest.now.names) outcome.lines.items) }
        ensures numbered { IfOk result (λ outcome. AreNumbered outcome.lines.items) }
    {
        self.dispatch_along(forest, slots, target, event, false)
    }

    /// Dispatches an event as `dispatch` does, for callers that keep a world: of the path it says what the world's is. Where there was no
    /// listener for events of this type, no path is built, however far the target is from the root (DOM Standard, concept: dispatch).
    pub fn dispatch_in_world(
        &mut self,
        forest: &Forest,
        slots: &Slots,
        target: Key,
        event: EventInit,
    ) -> Result<Outcome, AllocError>
        requires target_is_node { IsNode forest.now target }
        requires related_is_node { ForSome event.related (IsNode forest.now) }
        requires slots { AreSlotsOf forest.now slots.now }
        ensures keys { IfOk result (λ outcome. IsDispatchedAlong forest.now.names self.old self.new (event_words event) outcome) }
        ensures names { IfOk result (λ outcome. AllByRecursion (IsListenerAt forest.now.names) self.old →
            IsDispatchedIn forest.now slots.now.hosts self.old self.new target event.related (event_words event) outcome) }
        ensures owners { IfOk result (λ outcome. AllByRecursion (IsOwnLine forest.now.names) outcome.lines.items) }
        ensures numbered { IfOk result (λ outcome. AreNumbered outcome.lines.items) }
    {
        let name = event.name.as_str();
        let bubbling = self.may_hear(name, false);
        if self.is_unheard(name, bubbling) {
            let lines = Vec::new(self.alloc);
            return Ok(Outcome {
                lines,
                answer: true,
            });
        }
        self.dispatch_along(forest, slots, target, event, bubbling)
    }

    /// Dispatches an event as `dispatch` does. `bubbling` says that some listener may hear it while it bubbles; where it is not said, its type
    /// is looked for among those of the listeners.
    fn dispatch_along(
        &mut self,
        forest: &Forest,
        slots: &Slots,
        target: Key,
        event: EventInit,
        bubbling: bool,
    ) -> Result<Outcome, AllocError>
        requires target_is_node { IsNode forest.now target }
        requires related_is_node { ForSome event.related (IsNode forest.now) }
        requires slots { AreSlotsOf forest.now slots.now }
        ensures keys { IfOk result (λ outcome. IsDispatched forest.now slots.now.hosts self.old self.new target event.related (event_words event) outcome) }
        ensures names { IfOk result (λ outcome. AllByRecursion (IsListenerAt forest.now.names) self.old →
            IsDispatchedIn forest.now slots.now.hosts self.old self.new target event.related (event_words event) outcome) }
        ensures owners { IfOk result (λ outcome. AllByRecursion (IsOwnLine forest.now.names) outcome.lines.items) }
        ensures numbered { IfOk result (λ outcome. AreNumbered outcome.lines.items) }
    {
        forest.law_nodes_stand_once();
        let Room {
            items,
            nodes,
            heard,
            lines,
        } = self.take_room();
        let path = Path::build_in(items, forest, slots, target, event.related, event.composed)?;
        let mut handed = Handed::new(nodes, heard);
        let mut so_far = Progress::new(lines);
        self.capture(forest, &event, &path, &mut handed, &mut so_far)?;
        self.bubble(forest, &event, &path, bubbling, &mut handed, &mut so_far)?;
        self.keep_room(path.into_items(), handed);
        Ok(Outcome {
            answer: !so_far.cancelled,
            lines: so_far.lines,
        })
    }

    /// The visits of a path from its last item to its first (DOM Standard, concept: dispatch). Where no listener hears any, none is made.
    fn capture(
        &mut self,
        forest: &Forest,
        event: &EventInit,
        path: &Path,
        handed: &mut Handed,
        so_far: &mut Progress,
    ) -> Result<(), AllocError>
        requires nodes { AllByRecursion (HasNodes forest.now.names) path.now.items }
        requires shown { IsShownOf path.now handed.old.shown }
        requires lines { AllByRecursion (IsLineAlong forest.now.names (paths_of path.now)) so_far.old.lines.items }
        ensures visits { OnOk result (dispatching_in self.new so_far.new ≡ fold (after_invoke nat_eq (event_words event.now))
            (dispatching_in self.old so_far.old) (map (visit_of nat_eq true) (reverse path.now.views))) }
        ensures shown { OnOk result (IsShownOf path.now handed.new.shown) }
        ensures lines { OnOk result (AllByRecursion (IsLineAlong forest.now.names (paths_of path.now)) so_far.new.lines.items) }
    {
        if !self.may_hear(event.name.as_str(), true) {
            return Ok(());
        }
        let mut at = path.items().len();
        while at > 0 {
            at -= 1;
            self.visit(forest, event, path, at, true, handed, so_far)?;
        }
        Ok(())
    }

    /// The visits of a path from its first item to its last: where the event doesn't bubble, only of those that are the event's
    /// target as seen from themselves (DOM Standard, concept: dispatch). Where no listener hears any, none is made; that is looked up unless
    /// `bubbling` says that one may.
    fn bubble(
        &mut self,
        forest: &Forest,
        event: &EventInit,
        path: &Path,
        bubbling: bool,
        handed: &mut Handed,
        so_far: &mut Progress,
    ) -> Result<(), AllocError>
        requires nodes { AllByRecursion (HasNodes forest.now.names) path.now.items }
        requires shown { IsShownOf path.now handed.old.shown }
        requires lines { AllByRecursion (IsLineAlong forest.now.names (paths_of path.now)) so_far.old.lines.items }
        ensures visits { OnOk result (dispatching_in self.new so_far.new ≡ fold (after_invoke nat_eq (event_words event.now))
            (dispatching_in self.old so_far.old)
            (map (visit_of nat_eq false) (filter (λ v. event.now.bubbles || is_at_target nat_eq v) path.now.views))) }
        ensures shown { OnOk result (IsShownOf path.now handed.new.shown) }
        ensures lines { OnOk result (AllByRecursion (IsLineAlong forest.now.names (paths_of path.now)) so_far.new.lines.items) }
    {
        if !self.may_bubble(event.name.as_str(), bubbling) {
            return Ok(());
        }
        for at in 0..path.items().len() {
            let item = path.items()[at];
            if event.bubbles || item.node == item.event_target {
                self.visit(forest, event, path, at, false, handed, so_far)?;
            }
        }
        Ok(())
    }

    /// The visit at an item of a path, unless the event is stopped: the listeners that hear it are those that are there as it
    /// begins (DOM Standard, concept: invoke). It is in line, since most nodes have no listeners.
    #[inline(always)]
    fn visit(
        &mut self,
        forest: &Forest,
        event: &EventInit,
        path: &Path,
        at: usize,
        capturing: bool,
        handed: &mut Handed,
        so_far: &mut Progress,
    ) -> Result<(), AllocError>
        requires within { at < length path.now.items }
        requires nodes { AllByRecursion (HasNodes forest.now.names) path.now.items }
        requires shown { IsShownOf path.now handed.old.shown }
        requires lines { AllByRecursion (IsLineAlong forest.now.names (paths_of path.now)) so_far.old.lines.items }
        ensures visit { OnOk result ((view : View ℕ) → slice_get path.now.views at ≡ Some view →
            dispatching_in self.new so_far.new ≡ after_invoke nat_eq (event_words event.now) (dispatching_in self.old so_far.old)
            (visit_of nat_eq capturing view)) }
        ensures shown { OnOk result (IsShownOf path.now handed.new.shown) }
        ensures lines { OnOk result (AllByRecursion (IsLineAlong forest.now.names (paths_of path.now)) so_far.new.lines.items) }
    {
        if so_far.stopped {
            return Ok(());
        }
        let node = path.items()[at].node;
        self.heard(node, event.name.as_str(), capturing, &mut handed.heard)?;
        if handed.heard.is_empty() {
            return Ok(());
        }
        self.hear(forest, event, path, at, capturing, handed, so_far)
    }

    /// The calls of the listeners that hear the visit at an item of a path. It is kept out of line, so that visits that none hears make no room
    /// for it.
    #[inline(never)]
    fn hear(
        &mut self,
        forest: &Forest,
        event: &EventInit,
        path: &Path,
        at: usize,
        capturing: bool,
        handed: &mut Handed,
        so_far: &mut Progress,
    ) -> Result<(), AllocError>
        requires within { at < length path.now.items }
        requires nodes { AllByRecursion (HasNodes forest.now.names) path.now.items }
        requires shown { IsShownOf path.now handed.old.shown }
        requires lines { AllByRecursion (IsLineAlong forest.now.names (paths_of path.now)) so_far.old.lines.items }
        ensures calls { OnOk result ((view : View ℕ) → slice_get path.now.views at ≡ Some view →
            dispatching_in self.new so_far.new ≡ fold (after_inner_invoke nat_eq (event_words event.now) (visit_of nat_eq capturing view))
            (dispatching_in self.old so_far.old) (listeners_in handed.old.heard.items)) }
        ensures shown { OnOk result (IsShownOf path.now handed.new.shown) }
        ensures lines { OnOk result (AllByRecursion (IsLineAlong forest.now.names (paths_of path.now)) so_far.new.lines.items) }
    {
        let shown = handed.shown.at(self.alloc, path, at)?;
        let visit = Visit::of(forest, path, at, capturing, shown);
        self.call_all(event, &visit, &mut handed.heard, so_far)
    }

    /// Puts copies of the listeners of a node that hear events of this type, while they are capturing or while they are not, in place of
    /// what is there.
    #[inline(always)]
    pub(crate) fn heard(
        &self,
        node: Key,
        event: &str,
        capturing: bool,
        heard: &mut VecDeque<Entry>,
    ) -> Result<(), AllocError>
        ensures { OnOk result (listeners_in heard.new.items ≡ filter (hears_at node event.now capturing) self.now) }
    {
        heard.clear();
        let Some(places) = self.table.places.of(node) else {
            return Ok(());
        };
        let table = &self.table;
        table.hear(places.first(), node, event, capturing, heard)?;
        table.hear(places.rest(event), node, event, capturing, heard)
    }

    /// The calls of listeners, one after another.
    fn call_all(
        &mut self,
        event: &EventInit,
        visit: &Visit,
        heard: &mut VecDeque<Entry>,
        so_far: &mut Progress,
    ) -> Result<(), AllocError>
        ensures calls { OnOk result (dispatching_in self.new so_far.new ≡ fold (after_inner_invoke nat_eq (event_words event.now) (visit_in visit.now))
            (dispatching_in self.old so_far.old) (listeners_in heard.old.items)) }
        ensures lines { OnOk result (KeepsLines visit.now so_far.old so_far.new) }
    {
        while let Some(listener) = heard.pop_front() {
            self.call(event, visit, listener, so_far)?;
        }
        Ok(())
    }

    /// The call of a listener, unless the others are stopped: one that is for once goes, then its line comes, and then it acts
    /// (DOM Standard, concept: inner invoke).
    fn call(
        &mut self,
        event: &EventInit,
        visit: &Visit,
        listener: Entry,
        so_far: &mut Progress,
    ) -> Result<(), AllocError>
        ensures call { OnOk result (dispatching_in self.new so_far.new ≡ after_inner_invoke nat_eq (event_words event.now) (visit_in visit.now)
            (dispatching_in self.old so_far.old) (listener_of listener)) }
        ensures lines { OnOk result (KeepsLines visit.now so_far.old so_far.new) }
    {
        if so_far.stopped_now {
            return Ok(());
        }
        let Entry { node, words } = listener;
        let kind = &words.kind;
        if kind.once {
            let label = words.label.as_slice();
            self.take(node, kind.event.as_str(), label, kind.capture);
        }
        let action = kind.action;
        let cancels = event.cancelable && !kind.passive;
        so_far.lines.push(visit.line(words)?)?;
        so_far.act(action, cancels);
        Ok(())
    }
}
