//! A caller of `dom_path`.
ghost use Rattle.std.specs.Prelude.{◌≡◌, None, length, IfOk};
ghost use Rattle.dom_model.specs.Paths.{event_path};
ghost use Rattle.dom_model.specs.World.{World};
ghost use Rattle.dom_tree.specs.Forest.{IsNode, name_of};
ghost use Rattle.dom_slots.specs.Kept.{AreSlotsOf};
ghost use Rattle.dom_path.specs.Items.{IsWorldOf};

use dom_path::Path;
use dom_slots::Slots;
use dom_tree::Forest;
use node_arena::Key;
use std::alloc::{AllocError, Global};

/// How many nodes an event at a target visits, if it has no related node (DOM Standard, 2.2: path). Where
/// memory is refused there is no answer.
pub fn count_visits(
    alloc: Global,
    forest: &Forest,
    slots: &Slots,
    target: Key,
    composed: bool,
) -> Result<usize, AllocError>
    requires target_is_node { IsNode forest.now target }
    requires slots { AreSlotsOf forest.now slots.now }
    ensures { IfOk result (λ count. (w : World) → IsWorldOf forest.now slots.now.hosts w →
        count ≡ length (event_path w (name_of forest.now target) None composed)) }
{
    let path = Path::build(alloc, forest, slots, target, None, composed)?;
    Ok(path.items().len())
}
