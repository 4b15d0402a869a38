//! A note that is written, selected and rearranged.
ghost use Rattle.std.specs.Prelude.{◌≡◌, ◌∷◌, [], Some, IfOk, OnOk};
ghost use Rattle.dom_base.specs.declared.Owner.{Owner as Owners};
ghost use Rattle.dom_base.specs.declared.Owner.TheVariants.{Page};
ghost use Rattle.dom_model.specs.Names.{node_of};
ghost use Rattle.dom_model.specs.Ranges.{at, from_to};
ghost use Rattle.dom_model.specs.Tree.{none, children_of};
ghost use Rattle.dom_ranges.specs.Tables.{ranges_of};
ghost use Rattle.dom_callers.specs.Moving.{shown_ranges};

use crate::moving::move_before;
use crate::notes::write_note;
use crate::ranges::select_contents;
use dom_base::{Fault, Owner};
use dom_ranges::{RangeTable, law_ends_stay};
use dom_tree::Forest;
use std::alloc::Global;

/// Writes a note into a new forest, selects what is in its article, and moves the paragraph before the heading. It answers the
/// number of the live range, which then stands around both as before. Refused as `write_note` and `select_contents` are.
pub fn rearrange(alloc: Global, forest: &mut Forest, ranges: &mut RangeTable) -> Result<u32, Fault>
    requires new { forest.old ≡ record { names = []; trees = none } }
    requires no_ranges { (o : Owners) → ranges_of ranges.old o ≡ [] }
    ensures number { IfOk result (λ number. number ≡ 0) }
    ensures children { OnOk result (children_of forest.new.trees (node_of Page 1) ≡ node_of Page 3 ∷ node_of Page 2 ∷ []) }
    ensures range { OnOk result (shown_ranges forest.new ranges.new Page ≡
        Some (from_to (at (node_of Page 1) 0) (at (node_of Page 1) 2)) ∷ []) }
{
    law_ends_stay();
    let note = write_note(alloc, forest)?;
    let range = select_contents(ranges, Owner::Page, forest, note.article)?;
    move_before(forest, ranges, note.paragraph, note.article, note.heading);
    Ok(range)
}
