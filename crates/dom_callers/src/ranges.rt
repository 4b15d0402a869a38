//! A caller of `dom_ranges`.
ghost use Rattle.std.specs.Prelude.{◌≡◌, ℕ, ◌≤◌, ◌++◌, ◌∷◌, [], ◌↔◌, ◌⊎◌, true, length, Some, IfOk, IfErr, OnOk, OnErr};
ghost use Rattle.dom_base.specs.declared.Owner.{Owner as Owners};
ghost use Rattle.dom_model.specs.CommandRefusals.{past_limit};
ghost use Rattle.dom_model.specs.Ranges.{at, from_to};
ghost use Rattle.dom_model.specs.Tree.{length_of};
ghost use Rattle.dom_tree.specs.Forest.{IsNode, name_of};
ghost use Rattle.dom_ranges.specs.Rules.{IsAtNode};
ghost use Rattle.dom_ranges.specs.Staying.{AreAtNodes, AreWithin};
ghost use Rattle.dom_ranges.specs.Tables.{ranges_of, with_ranges, EachRange, BothEnds};

use dom_base::{Fault, Owner, Refusal};
use dom_laws::law_names;
use dom_ranges::{RangeTable, law_ends_stay, law_points_in_one_node};
use dom_tree::Forest;
use node_arena::Key;

/// Makes a range around all that is in a node, and gives its number (DOM Standard, selectNodeContents()). It is refused
/// with `Limit` where the owner has made a million ranges, and with `Memory` where memory is refused; then the table is
/// as it was.
pub fn select_contents(
    ranges: &mut RangeTable,
    owner: Owner,
    forest: &Forest,
    node: Key,
) -> Result<u32, Fault>
    requires node_is_node { IsNode forest.now node }
    requires ends { EachRange (BothEnds (IsAtNode forest.now.names)) (ranges_of ranges.old owner) }
    ensures number { IfOk result (λ number. number ≡ length (ranges_of ranges.old owner)) }
    ensures made { OnOk result ((o : Owners) →
        ranges_of ranges.new o ≡ with_ranges ranges.old owner
        (ranges_of ranges.old owner ++ Some (from_to (at node 0) (at node (length_of forest.now.trees (name_of forest.now node)))) ∷ []) o) }
    ensures limit { (result ≡ Err (Fault.Refused Refusal.Limit)) ↔ (past_limit (length (ranges_of ranges.old owner)) 1 ≡ true) }
    ensures other { IfErr result (λ fault. (fault ≡ Fault.Refused Refusal.Limit) ⊎ (fault ≡ Fault.Memory)) }
    ensures err { OnErr result ((o : Owners) → ranges_of ranges.new o ≡ ranges_of ranges.old o) }
    ensures within { (most : ℕ) → length_of forest.now.trees (name_of forest.now node) ≤ most →
        AreWithin forest.now.names most ranges.old → OnOk result (AreWithin forest.now.names most ranges.new) }
    ensures nodes { AreAtNodes forest.now.names ranges.old → AreAtNodes forest.now.names ranges.new }
{
    law_ends_stay();
    law_points_in_one_node();
    law_names();
    let number = ranges.make(owner, node)?;
    let length = forest.length(node);
    let Ok(()) = ranges.set_end(owner, number, forest, node, length) else {
        unreachable!()
    };
    Ok(number)
}
