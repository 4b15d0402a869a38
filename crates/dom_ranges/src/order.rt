//! The order of boundary points (DOM Standard, 5.2 Boundary points).
ghost use Rattle.std.specs.Prelude.{◌≡◌, ◌≢◌, ◌≤◌, ◌+◌, ◌⊎◌, ℕ, nat_lt, true};
ghost use Rattle.dom_base.specs.declared.NodeName.{NodeName as Name};
ghost use Rattle.dom_model.specs.Names.{first_of};
ghost use Rattle.dom_model.specs.Place.{same_root, is_before};
ghost use Rattle.dom_model.specs.Ranges.{at};
ghost use Rattle.dom_model.specs.Tree.{Trees, index_of, is_inclusive_ancestor};
ghost use Rattle.dom_tree.specs.Forest.{IsNode, name_of};
ghost use Rattle.dom_ranges.specs.Climbs.{depth_at, path_at, Reaches, AreBeside};

use dom_tree::Forest;
use node_arena::Key;

/// Whether a boundary point, a node and an offset, is before another one in the same tree (DOM Standard, concept:
/// boundary point, before). The steps taken are as many as the nodes above the two nodes, and where they part, twice as
/// many as the siblings between them or before the first. Where one node is in the other one's tree, no more siblings
/// than that one's offset are looked at.
pub fn is_before(forest: &Forest, first: (Key, usize), second: (Key, usize)) -> bool
    requires first_is_node { IsNode forest.now first.0 }
    requires second_is_node { IsNode forest.now second.0 }
    requires one_tree { same_root forest.now.trees (name_of forest.now first.0) (name_of forest.now second.0) ≡ true }
    ensures { result ≡ is_before forest.now.trees (at (name_of forest.now first.0) first.1) (at (name_of forest.now second.0) second.1) }
{
    forest.law_nodes_stand_once();
    let (first_node, first_offset) = first;
    let (second_node, second_offset) = second;
    let (first_gauge, second_gauge) = climb_together(forest, first_node, second_node);
    let (first_top, first_child) = climb(forest, first_node, first_gauge);
    let (second_top, second_child) = climb(forest, second_node, second_gauge);
    if first_top != second_top {
        let (first_side, second_side) = part(forest, first_top, second_top);
        return comes_first(forest, first_side, second_side);
    }
    match (first_child, second_child) {
        (Some(child), _) => forest.index_below(child, second_offset).is_some(),
        (None, Some(child)) => forest.index_below(child, first_offset).is_none(),
        (None, None) => first_offset < second_offset,
    }
}

/// Holds of all trees: a node is in one tree with itself, and of two boundary points in one node the first is before the second exactly
/// if its offset is less (DOM Standard, concept: boundary point, before).
pub fn law_points_in_one_node()
    ensures one_tree { (trees : Trees) (x : Name) → same_root trees x x ≡ true }
    ensures before { (trees : Trees) (x : Name) (i j : ℕ) → is_before trees (at x i) (at x j) ≡ nat_lt i j }
{}

/// The nodes reached from two nodes by going up from both at once, until one of them is a root (own rule): the other one is then
/// as deep as the one node was deeper.
pub fn climb_together(forest: &Forest, first: Key, second: Key) -> (Key, Key)
    requires first_is_node { IsNode forest.now first }
    requires second_is_node { IsNode forest.now second }
    ensures first_is_node { IsNode forest.now result.0 }
    ensures second_is_node { IsNode forest.now result.1 }
    ensures difference { depth_at forest.now result.0 + depth_at forest.now second ≡ depth_at forest.now first + depth_at forest.now result.1 }
    ensures first_above { depth_at forest.now result.0 ≤ depth_at forest.now first }
    ensures second_above { depth_at forest.now result.1 ≤ depth_at forest.now second }
    ensures first_climbed { is_inclusive_ancestor forest.now.trees (name_of forest.now result.0) (name_of forest.now first) ≡ true }
    ensures second_climbed { is_inclusive_ancestor forest.now.trees (name_of forest.now result.1) (name_of forest.now second) ≡ true }
    ensures root { (depth_at forest.now result.0 ≡ 1) ⊎ (depth_at forest.now result.1 ≡ 1) }
{
    forest.law_nodes_stand_once();
    let mut first_at = first;
    let mut second_at = second;
    'up: loop {
        let Some(first_above) = forest.parent(first_at) else {
            return (first_at, second_at);
        };
        let Some(second_above) = forest.parent(second_at) else {
            return (first_at, second_at);
        };
        first_at = first_above;
        second_at = second_above;
    }
}

/// The inclusive ancestor of a node by as many levels up as `gauge` has nodes above it, and that one's child on the way, where there
/// is a level to go (own rule).
pub fn climb(forest: &Forest, key: Key, gauge: Key) -> (Key, Option<Key>)
    requires key_is_node { IsNode forest.now key }
    requires gauge_is_node { IsNode forest.now gauge }
    requires deep { depth_at forest.now gauge ≤ depth_at forest.now key }
    ensures node { IsNode forest.now result.0 }
    ensures depth { depth_at forest.now result.0 + depth_at forest.now gauge ≡ depth_at forest.now key + 1 }
    ensures above { is_inclusive_ancestor forest.now.trees (name_of forest.now result.0) (name_of forest.now key) ≡ true }
    ensures reached { Reaches forest.now key result.0 result.1 }
{
    forest.law_nodes_stand_once();
    let mut top = key;
    let mut child = None;
    let mut left = gauge;
    'up: loop {
        let Some(fewer) = forest.parent(left) else {
            return (top, child);
        };
        let Some(above) = forest.parent(top) else {
            return (top, child);
        };
        child = Some(top);
        top = above;
        left = fewer;
    }
}

/// The siblings in or above two different nodes of one tree that are as deep as each other.
fn part(forest: &Forest, first: Key, second: Key) -> (Key, Key)
    requires first_is_node { IsNode forest.now first }
    requires second_is_node { IsNode forest.now second }
    requires apart { first ≢ second }
    requires level { depth_at forest.now first ≡ depth_at forest.now second }
    requires one_tree { first_of (path_at forest.now first) ≡ first_of (path_at forest.now second) }
    ensures first_is_node { IsNode forest.now result.0 }
    ensures second_is_node { IsNode forest.now result.1 }
    ensures beside { AreBeside forest.now first second result.0 result.1 }
{
    forest.law_nodes_stand_once();
    let mut low = first;
    let mut other = second;
    'up: loop {
        let Some(above) = forest.parent(low) else {
            return (low, other);
        };
        let Some(beside) = forest.parent(other) else {
            return (low, other);
        };
        if above == beside {
            return (low, other);
        }
        low = above;
        other = beside;
    }
}

/// Whether the first of two siblings comes before the second. Both are left for the siblings before them in turn, until
/// one of the two is met, or no sibling is left.
fn comes_first(forest: &Forest, first: Key, second: Key) -> bool
    requires first_is_node { IsNode forest.now first }
    requires second_is_node { IsNode forest.now second }
    requires apart { index_of forest.now.trees (name_of forest.now first) ≢ index_of forest.now.trees (name_of forest.now second) }
    ensures { result ≡ nat_lt (index_of forest.now.trees (name_of forest.now first)) (index_of forest.now.trees (name_of forest.now second)) }
{
    forest.law_nodes_stand_once();
    let mut low = first;
    let mut other = second;
    'back: loop {
        let Some(before) = forest.prev(low) else {
            return true;
        };
        let Some(beside) = forest.prev(other) else {
            return false;
        };
        if before == second {
            return false;
        }
        if beside == first {
            return true;
        }
        low = before;
        other = beside;
    }
}

/// Whether two nodes have one root (DOM Standard, concept: root).
pub(crate) fn share_root(forest: &Forest, first: Key, second: Key) -> bool
    requires first_is_node { IsNode forest.now first }
    requires second_is_node { IsNode forest.now second }
    ensures { result ≡ same_root forest.now.trees (name_of forest.now first) (name_of forest.now second) }
{
    forest.law_nodes_stand_once();
    forest.root(first) == forest.root(second)
}
