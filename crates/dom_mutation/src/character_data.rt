//! Data of Texts and Comments (DOM Standard, concept: replace data).
ghost use Rattle.std.specs.Prelude.{◌≡◌, length, true, OnOk};
ghost use Rattle.dom_model.specs.Tree.{node_in, kind_of, has_data};
ghost use Rattle.dom_model.specs.TextChanges.{replacing_data};
ghost use Rattle.dom_model.specs.World.{part_of};
ghost use Rattle.dom_worlds.specs.Bounds.{HasBounds};
ghost use Rattle.dom_mutation.specs.Doc.{planned, name_in, owner_in, trees_in, MayCome, IsOwnNode, HoldsNode};

use crate::parts::{DataChange, Parts};
use node_arena::Key;
use std::alloc::AllocError;

/// From an offset on, so many code units give way to others.
pub(crate) fn replacing_data(
    parts: &mut Parts,
    node: Key,
    change: DataChange,
) -> Result<(), AllocError>
    requires node_is_node { HoldsNode parts.old node }
    requires may_come { MayCome (part_of parts.old.world (owner_in parts.old node)) (name_in parts.old node) change.units.items }
    ensures { OnOk result (parts.new ≡ planned (owner_in parts.old node)
        (replacing_data (name_in parts.old node) change.offset change.count change.units.items) parts.old) }
{
    parts.laws();
    let left = parts.text(node).len().saturating_sub(change.offset);
    parts.queue_data_record(node)?;
    let change = DataChange {
        offset: change.offset,
        count: change.count.min(left),
        units: change.units,
    };
    parts.change_data(node, change)
}

/// The data of another Text or Comment of the same owner come behind those of a first one.
pub(crate) fn appending_data(parts: &mut Parts, first: Key, other: Key) -> Result<(), AllocError>
    requires first_is_node { HoldsNode parts.old first }
    requires other_is_node { IsOwnNode parts.old first other }
    requires has_data { has_data (kind_of (trees_in parts.old first) (name_in parts.old first)) ≡ true }
    requires bounds { HasBounds (part_of parts.old.world (owner_in parts.old first)) }
    ensures { OnOk result (parts.new ≡ planned (owner_in parts.old first) (replacing_data (name_in parts.old first)
        (length (node_in (trees_in parts.old first) (name_in parts.old first)).text) 0
        (node_in (trees_in parts.old first) (name_in parts.old other)).text) parts.old) }
{
    parts.laws();
    parts.queue_data_record(first)?;
    parts.append_data(first, other)
}
