//! Callers of `dom_path` and of `dom_dispatch` in a document of two widgets, whose components have numbers that no script gives.
ghost use Rattle.std.specs.Prelude.{◌≡◌, List, None, length, IfOk};
ghost use Rattle.std.specs.Option.{ForSome};
ghost use Rattle.dom_base.specs.declared.NodeName.{NodeName as Name};
ghost use Rattle.dom_tree.specs.Forest.{IsNode, name_of};
ghost use Rattle.dom_slots.specs.Kept.{AreSlotsOf};
ghost use Rattle.dom_slots.specs.Shadows.{shadows};
ghost use Rattle.dom_path.specs.Paths.{IsPath};
ghost use Rattle.dom_dispatch.specs.Dispatches.{event_words};
ghost use Rattle.dom_callers.specs.Widgets.{AreWidgets, IsAnswered};

use dom_dispatch::{EventInit, Listeners};
use dom_path::{Path, law_hosts_nest};
use dom_slots::Slots;
use dom_tree::Forest;
use node_arena::Key;
use std::alloc::{AllocError, Global};

/// How many nodes an event at a target visits, through the closed trees of the widgets, if it has no related node (DOM
/// Standard, 2.2: path). Where memory is refused there is no answer.
pub fn count_widget_visits(
    alloc: Global,
    forest: &Forest,
    slots: &Slots,
    target: Key,
    composed: bool,
) -> Result<usize, AllocError>
    requires target_is_node { IsNode forest.now target }
    requires slots { AreSlotsOf forest.now slots.now }
    requires widgets { AreWidgets forest.now slots.now.hosts }
    ensures { IfOk result (λ count. (nodes : List Name) ×
        IsPath (shadows forest.now slots.now.hosts) 1 (name_of forest.now target) None composed nodes × (count ≡ length nodes)) }
{
    forest.law_nodes_stand_once();
    law_hosts_nest();
    let path = Path::build(alloc, forest, slots, target, None, composed)?;
    Ok(path.items().len())
}

/// Dispatches an event at a button, which may stand in a widget, and answers whether it was not cancelled (DOM Standard,
/// dispatchEvent()). Where memory is refused there is no answer.
pub fn press(
    listeners: &mut Listeners,
    forest: &Forest,
    slots: &Slots,
    button: Key,
    event: EventInit,
) -> Result<bool, AllocError>
    requires button_is_node { IsNode forest.now button }
    requires related_is_node { ForSome event.related (IsNode forest.now) }
    requires slots { AreSlotsOf forest.now slots.now }
    requires widgets { AreWidgets forest.now slots.now.hosts }
    ensures { IfOk result (λ answer. IsAnswered forest.now slots.now.hosts listeners.old button event.related (event_words event) answer) }
{
    forest.law_nodes_stand_once();
    law_hosts_nest();
    let outcome = listeners.dispatch(forest, slots, button, event)?;
    Ok(outcome.answer)
}
