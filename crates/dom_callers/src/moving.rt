//! Nodes that leave their place and get another one, with live ranges that are told of it.
ghost use Rattle.std.specs.Prelude.{◌≡◌, ℕ, suc, false, Some, None};
ghost use Rattle.std.specs.Option.{option_map};
ghost use Rattle.dom_base.specs.declared.Owner.{Owner as Owners};
ghost use Rattle.dom_model.specs.Tree.{parent_of, inclusive_ancestors, is_inclusive_ancestor};
ghost use Rattle.dom_model.specs.TreeChanges.{placed, taken_out};
ghost use Rattle.dom_ranges.specs.Settings.{without_named};
ghost use Rattle.dom_tree.specs.Forest.{IsNode, name_of};
ghost use Rattle.dom_callers.specs.Moving.{HasRoom, shown_ranges, with_coming};

use dom_ranges::{RangeTable, law_ends_stay, law_keys_stand_for_names};
use dom_tree::Forest;
use node_arena::Key;

/// Moves a node with all below it just before a child of a parent, and tells live ranges of the removal and of the insertion
/// (DOM Standard, concepts: remove, insert).
pub fn move_before(forest: &mut Forest, ranges: &mut RangeTable, node: Key, parent: Key, child: Key)
    requires node_is_node { IsNode forest.old node }
    requires parent_is_node { IsNode forest.old parent }
    requires child_is_node { IsNode forest.old child }
    requires child_is_child { parent_of forest.old.trees (name_of forest.old child) ≡ Some (name_of forest.old parent) }
    requires not_above { is_inclusive_ancestor forest.old.trees (name_of forest.old node) (name_of forest.old parent) ≡ false }
    requires apart { is_inclusive_ancestor forest.old.trees (name_of forest.old node) (name_of forest.old child) ≡ false }
    requires room { HasRoom 1 forest.old ranges.old }
    ensures names { forest.new.names ≡ forest.old.names }
    ensures trees { forest.new.trees ≡ placed (name_of forest.old node) (name_of forest.old parent)
        (Some (name_of forest.old child)) (taken_out (name_of forest.old node) forest.old.trees) }
    ensures ranges { (o : Owners) → shown_ranges forest.new ranges.new o ≡
        with_coming (taken_out (name_of forest.old node) forest.old.trees) (name_of forest.old parent) (name_of forest.old child)
        (without_named forest.old (name_of forest.old node) (shown_ranges forest.old ranges.old o)) }
    ensures room { (n : ℕ) → HasRoom (suc n) forest.old ranges.old → HasRoom n forest.new ranges.new }
{
    take_out(forest, ranges, node);
    put_before(forest, ranges, parent, node, child);
}

/// Takes a node out of its parent, and tells live ranges first. It answers that parent, which a root has not.
fn take_out(forest: &mut Forest, ranges: &mut RangeTable, node: Key) -> Option<Key>
    requires node_is_node { IsNode forest.old node }
    requires room { HasRoom 0 forest.old ranges.old }
    ensures parent { option_map (name_of forest.old) result ≡ parent_of forest.old.trees (name_of forest.old node) }
    ensures names { forest.new.names ≡ forest.old.names }
    ensures trees { forest.new.trees ≡ taken_out (name_of forest.old node) forest.old.trees }
    ensures unlinked { parent_of forest.new.trees (name_of forest.old node) ≡ None }
    ensures above { (k : ℕ) → IsNode forest.old k →
        is_inclusive_ancestor forest.old.trees (name_of forest.old node) (name_of forest.old k) ≡ false →
        inclusive_ancestors forest.new.trees (name_of forest.old k) ≡ inclusive_ancestors forest.old.trees (name_of forest.old k) }
    ensures ranges { (o : Owners) → shown_ranges forest.new ranges.new o ≡
        without_named forest.old (name_of forest.old node) (shown_ranges forest.old ranges.old o) }
    ensures room { (n : ℕ) → HasRoom n forest.old ranges.old → HasRoom n forest.new ranges.new }
{
    law_ends_stay();
    forest.law_index();
    let parent = forest.parent(node);
    ranges.on_remove(forest, node);
    forest.unlink(node);
    parent
}

/// Puts a root just before a child of a parent, and tells live ranges first.
fn put_before(forest: &mut Forest, ranges: &mut RangeTable, parent: Key, node: Key, child: Key)
    requires parent_is_node { IsNode forest.old parent }
    requires node_is_node { IsNode forest.old node }
    requires child_is_node { IsNode forest.old child }
    requires unlinked { parent_of forest.old.trees (name_of forest.old node) ≡ None }
    requires not_above { is_inclusive_ancestor forest.old.trees (name_of forest.old node) (name_of forest.old parent) ≡ false }
    requires child_is_child { parent_of forest.old.trees (name_of forest.old child) ≡ Some (name_of forest.old parent) }
    requires room { HasRoom 1 forest.old ranges.old }
    ensures names { forest.new.names ≡ forest.old.names }
    ensures trees { forest.new.trees ≡ placed (name_of forest.old node) (name_of forest.old parent)
        (Some (name_of forest.old child)) forest.old.trees }
    ensures ranges { (o : Owners) → shown_ranges forest.new ranges.new o ≡
        with_coming forest.old.trees (name_of forest.old parent) (name_of forest.old child) (shown_ranges forest.old ranges.old o) }
    ensures room { (n : ℕ) → HasRoom (suc n) forest.old ranges.old → HasRoom n forest.new ranges.new }
{
    law_ends_stay();
    law_keys_stand_for_names();
    forest.law_nodes_stand_once();
    let index = forest.index(child);
    ranges.on_insert(parent, index, 1);
    forest.link_before(parent, node, Some(child));
}
