//! Laws of trees, for callers that change many nodes, and that keep every node with its owner's.
ghost use Rattle.dom_tree.specs.EachNode.{EachNodeLaw};
ghost use Rattle.dom_tree.specs.Owners.{OwnTreesLaw, ReadLaw, NearLaw, InsertionLaw, ReplacementLaw, AddedLaw, TakenOutLaw, PlacedLaw};
ghost use Rattle.dom_tree.specs.Owners.{ChangedNodeLaw, ChangedSubtreeLaw};

/// Holds of all trees: what is read of an owner's node is what is read of it in the owner's own trees (own rule).
pub fn law_reads_are_own()
    ensures trees { OwnTreesLaw }
    ensures read { ReadLaw }
    ensures near { NearLaw }
    ensures insertion { InsertionLaw }
    ensures replacement { ReplacementLaw }
{}

/// Holds of all trees: a change of one owner's nodes is that change of the owner's own trees, and leaves each other
/// owner's trees as they are (own rule).
pub fn law_changes_are_own()
    ensures added { AddedLaw }
    ensures taken_out { TakenOutLaw }
    ensures placed { PlacedLaw }
    ensures changed_node { ChangedNodeLaw }
    ensures changed_subtree { ChangedSubtreeLaw }
{}

/// Holds of all trees: a change made of one node after another is that change of all of them, as of the nodes of a
/// tree (own rule).
pub fn law_changes_add_up()
    ensures { EachNodeLaw }
{}
