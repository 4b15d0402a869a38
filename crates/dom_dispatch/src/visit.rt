//! Visits of an event.
ghost use Rattle.std.specs.Prelude.{◌≡◌, ℕ, ◌<◌, nat_eq, length, option_map, slice_get, Some, IfOk};
ghost use Rattle.std.specs.List.{AllByRecursion};
ghost use Rattle.dom_model.specs.Dispatch.{visit_of};
ghost use Rattle.dom_model.specs.Listeners.{line_of};
ghost use Rattle.dom_model.specs.Paths.{View};
ghost use Rattle.dom_tree.specs.Forest.{name_of};
ghost use Rattle.dom_path.specs.Items.{HasNodes};
ghost use Rattle.dom_dispatch.specs.Entries.{words_in};
ghost use Rattle.dom_dispatch.specs.Dispatches.{visit_in, line_in};

use crate::event::LogLine;
use crate::kinds::HeldWords;
use crate::shown::ShownAt;
use dom_base::Owner;
use dom_path::Path;
use dom_tree::Forest;
use node_arena::Key;
use smallvec::SmallVec;
use std::alloc::AllocError;
use std::rc::Rc;

/// A visit of an event at a node, with what listeners see of the event there (DOM Standard, concept: invoke).
#[derive(Drop)]
pub(crate) struct Visit {
    pub(crate) owner: Owner,
    pub(crate) current: Key,
    pub(crate) phase: u8,
    pub(crate) capturing: bool,
    pub(crate) target: Key,
    pub(crate) related: Option<Key>,
    pub(crate) path: Rc<SmallVec<Key, 16>>,
    pub(crate) path_at: usize,
}

impl Visit {
    /// The visit at an item of a path, while capturing or while bubbling, where the event shows these nodes of the path.
    pub(crate) fn of(
        forest: &Forest,
        path: &Path,
        at: usize,
        capturing: bool,
        shown: ShownAt,
    ) -> Visit
        requires within { at < length path.now.items }
        requires nodes { AllByRecursion (HasNodes forest.now.names) path.now.items }
        requires shown { option_map (λ (v : View ℕ). v.path) (slice_get path.now.views at) ≡ Some shown.nodes.value.items }
        ensures visit { (view : View ℕ) → slice_get path.now.views at ≡ Some view → visit_in result ≡ visit_of nat_eq capturing view }
        ensures owner { result.owner ≡ (name_of forest.now result.current).owner }
        ensures path { result.path.value.items ≡ shown.nodes.value.items }
        ensures path_at { result.path_at ≡ shown.at }
    {
        let item = path.items()[at];
        let phase = if item.node == item.event_target {
            2
        } else if capturing {
            1
        } else {
            3
        };
        Visit {
            owner: forest.name(item.node).owner,
            current: item.node,
            phase,
            capturing,
            target: item.event_target,
            related: item.related,
            path: shown.nodes,
            path_at: shown.at,
        }
    }

    /// The line of the call of a listener with these words.
    pub(crate) fn line(&self, words: Rc<HeldWords>) -> Result<LogLine, AllocError>
        ensures line { IfOk result (λ l. line_in l ≡ line_of (visit_in self.now) (words_in words.value)) }
        ensures owner { IfOk result (λ l. l.owner ≡ self.now.owner) }
        ensures path { IfOk result (λ l. l.path.value.items ≡ self.now.path.value.items) }
        ensures path_at { IfOk result (λ l. l.path_at ≡ self.now.path_at) }
    {
        Ok(LogLine {
            owner: self.owner,
            listener: words,
            phase: self.phase,
            target: self.target,
            current: self.current,
            related: self.related,
            path: self.path.clone()?,
            path_at: self.path_at,
        })
    }
}
