//! What is left of a `Doc` after a step of which memory was refused (own rule).
ghost use Rattle.std.specs.Prelude.{◌≡◌, []};
ghost use Rattle.dom_model.specs.Tree.{none};
ghost use Rattle.dom_traversal.specs.Cursors.{cursors_of};
ghost use Rattle.dom_base.specs.declared.Owner.{Owner as OwnerOf};
ghost use Rattle.dom_observers.specs.Owners.{tables_of as observers_of};
ghost use Rattle.dom_observers.specs.Tables.{no_tables};
ghost use Rattle.dom_mutation.specs.AllTables.{tables_with_trees, AreFirst, IsSettled};
ghost use Rattle.dom_mutation.specs.Doc.{nothing_left};

use crate::node_trees::NodeTrees;
use crate::parts::Parts;
use dom_observers::Observers;
use dom_ranges::RangeTable;
use dom_traversal::Cursors;
use std::alloc::{AllocError, Global};

impl Parts {
    /// Gives everything up: there are no nodes then, and the page alone is there. It takes no memory.
    pub(crate) fn give_up(&mut self)
        ensures { self.new ≡ nothing_left }
    {
        give_up(
            &mut self.trees,
            &mut self.cursors,
            &mut self.observers,
            &mut self.ranges,
            self.alloc,
        );
    }
}

/// After a step of which memory was refused everything is given up: there are no nodes then, and the page alone is there.
pub(super) fn settle(
    done: Result<(), AllocError>,
    trees: &mut NodeTrees,
    cursors: &mut Cursors,
    observers: &mut Observers,
    ranges: &mut RangeTable,
    alloc: Global,
) -> Result<(), AllocError>
    ensures { IsSettled done result trees.old.forest trees.new.forest
        (tables_with_trees (cursors_of cursors.old) (observers_of observers.old) trees.old ranges.old)
        (tables_with_trees (cursors_of cursors.new) (observers_of observers.new) trees.new ranges.new) }
{
    if done.is_err() {
        give_up(trees, cursors, observers, ranges, alloc);
    }
    done
}

/// Gives everything up: there are no nodes then, and the page alone is there. It is kept out of line, since a step clears the room of all that
/// it may have to make, and makes none of this unless memory is refused.
#[inline(never)]
pub(super) fn give_up(
    trees: &mut NodeTrees,
    cursors: &mut Cursors,
    observers: &mut Observers,
    ranges: &mut RangeTable,
    alloc: Global,
)
    ensures empty { trees.new.forest ≡ record { names = []; trees = none } }
    ensures first { AreFirst (tables_with_trees (cursors_of cursors.new) (observers_of observers.new) trees.new ranges.new) }
{
    *trees = NodeTrees::new(alloc);
    *cursors = Cursors::new(alloc);
    *observers = Observers::new(alloc);
    *ranges = RangeTable::new(alloc);
}

/// Takes all observers away, since memory for a record or a registration was refused. It is kept out of line, as `give_up` is.
#[inline(never)]
pub(crate) fn give_up_observers(observers: &mut Observers, alloc: Global)
    ensures { (o : OwnerOf) → observers_of observers.new o ≡ no_tables }
{
    *observers = Observers::new(alloc);
}
