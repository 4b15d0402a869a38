//! Where the nodes of a path stand.
ghost use Rattle.std.specs.Prelude.{◌≡◌, ◌<◌, false, length, Some, option_map, IfOk, OnOk};
ghost use Rattle.std.specs.Option.{ForSome};
ghost use Rattle.dom_model.specs.Tree.{is_shadow, node_in, parent_of};
ghost use Rattle.dom_tree.specs.Forest.{IsNode, name_of};
ghost use Rattle.dom_slots.specs.Hosts.{HostsAreNodes};
ghost use Rattle.dom_slots.specs.Kept.{AreSlotsOf};
ghost use Rattle.dom_slots.specs.Shadows.{shadows, slot_at, is_assigned_at};
ghost use Rattle.std.specs.Option.{option_or};
ghost use Rattle.dom_path.specs.Nests.{Grows};
ghost use Rattle.dom_path.specs.PathNodes.{AreTrees, IsPathNode, IsTreeOf, IsSlotBelow, seen_of};
ghost use Rattle.dom_path.specs.Ways.{event_parent_at};

use crate::trees::Trees;
use dom_base::Kind;
use dom_slots::Slots;
use dom_tree::Forest;
use node_arena::Key;
use std::alloc::AllocError;

/// A node with its place: that of its tree among the trees on the event's way, whether the node is a shadow root, and whether
/// the path came to it as the slot of the node before.
#[derive(Clone, Copy)]
pub(crate) struct PathNode {
    pub(crate) node: Key,
    pub(crate) tree: usize,
    pub(crate) is_shadow_root: bool,
    pub(crate) is_entered: bool,
}

/// A slot, and the shadow root in whose tree it stands.
#[derive(Clone, Copy)]
struct SlotBelow {
    root: Key,
    slot: Key,
}

impl PathNode {
    /// The place of a node that no path came to. This adds its tree and those around it.
    pub(crate) fn of(
        trees: &mut Trees,
        forest: &Forest,
        slots: &Slots,
        node: Key,
    ) -> Result<PathNode, AllocError>
        requires node_is_node { IsNode forest.now node }
        requires hosts { HostsAreNodes forest.now.names slots.now.hosts }
        requires trees { AreTrees forest.now slots.now.hosts trees.old }
        ensures grown { OnOk result (Grows trees.old trees.new) }
        ensures trees { OnOk result (AreTrees forest.now slots.now.hosts trees.new) }
        ensures stands { IfOk result (λ x. IsPathNode forest.now slots.now.hosts trees.new x) }
        ensures node { IfOk result (λ x. x.node ≡ node) }
        ensures tree { IfOk result (λ x. IsTreeOf forest.now trees.new x.tree (name_of forest.now x.node)) }
        ensures entered { IfOk result (λ x. x.is_entered ≡ false) }
    {
        let tree = trees.add(forest, slots, node)?;
        Ok(PathNode::in_tree(forest, node, tree, false))
    }

    /// The place of a node that no path came to, if there is one.
    pub(crate) fn of_any(
        trees: &mut Trees,
        forest: &Forest,
        slots: &Slots,
        node: Option<Key>,
    ) -> Result<Option<PathNode>, AllocError>
        requires node_is_node { ForSome node (IsNode forest.now) }
        requires hosts { HostsAreNodes forest.now.names slots.now.hosts }
        requires trees { AreTrees forest.now slots.now.hosts trees.old }
        ensures grown { OnOk result (Grows trees.old trees.new) }
        ensures trees { OnOk result (AreTrees forest.now slots.now.hosts trees.new) }
        ensures stands { IfOk result (λ found. ForSome found (λ x. IsPathNode forest.now slots.now.hosts trees.new x)) }
        ensures node { IfOk result (λ found. option_map (λ x. x.node) found ≡ node) }
    {
        match node {
            Some(node) => Ok(Some(PathNode::of(trees, forest, slots, node)?)),
            None => Ok(None),
        }
    }

    /// The place of a node in the tree at a place.
    fn in_tree(forest: &Forest, node: Key, tree: usize, is_entered: bool) -> PathNode
        requires { IsNode forest.now node }
        ensures node { result.node ≡ node }
        ensures tree { result.tree ≡ tree }
        ensures shadow { result.is_shadow_root ≡ is_shadow (node_in forest.now.trees (name_of forest.now node)).kind }
        ensures entered { result.is_entered ≡ is_entered }
    {
        PathNode {
            node,
            tree,
            is_shadow_root: matches!(forest.kind(node), Kind::Shadow),
            is_entered,
        }
    }

    /// The place of the event parent: of a shadow root its host, but for an event that isn't composed none above the root `top`;
    /// of another node its slot if it is assigned to one, else its parent (DOM Standard, concept: get the parent).
    pub(crate) fn above(
        &self,
        trees: &mut Trees,
        forest: &Forest,
        slots: &Slots,
        top: Key,
        composed: bool,
    ) -> Result<Option<PathNode>, AllocError>
        requires trees { AreTrees forest.now slots.now.hosts trees.old }
        requires stands { IsPathNode forest.now slots.now.hosts trees.old self.now }
        requires top_is_node { IsNode forest.now top }
        requires slots { AreSlotsOf forest.now slots.now }
        ensures grown { OnOk result (Grows trees.old trees.new) }
        ensures trees { OnOk result (AreTrees forest.now slots.now.hosts trees.new) }
        ensures stands { IfOk result (λ next. ForSome next (λ x. IsPathNode forest.now slots.now.hosts trees.new x)) }
        ensures value { IfOk result (λ next. option_map (λ x. name_of forest.now x.node) next ≡ event_parent_at
            (shadows forest.now slots.now.hosts) composed (name_of forest.now top) (name_of forest.now self.now.node)) }
        ensures entered { IfOk result (λ next. ForSome next
            (λ x. x.is_entered ≡ is_assigned_at (shadows forest.now slots.now.hosts) (name_of forest.now x.node)
            (name_of forest.now self.now.node))) }
    {
        forest.law_nodes_stand_once();
        if self.is_shadow_root {
            if composed || self.node != top {
                return Ok(self.outside(trees, forest, slots));
            }
            return Ok(None);
        }
        self.inside(trees, forest, slots)
    }

    /// The place of the host of a shadow root, in the tree around (DOM Standard, concept: get the parent, of a shadow root).
    fn outside(&self, trees: &Trees, forest: &Forest, slots: &Slots) -> Option<PathNode>
        requires trees { AreTrees forest.now slots.now.hosts trees.now }
        requires stands { IsPathNode forest.now slots.now.hosts trees.now self.now }
        requires slots { AreSlotsOf forest.now slots.now }
        ensures stands { ForSome result (λ x. IsPathNode forest.now slots.now.hosts trees.now x) }
        ensures value { option_map (λ x. name_of forest.now x.node) result ≡ (shadows forest.now slots.now.hosts).host_of
            (name_of forest.now self.now.node) }
        ensures entered { ForSome result (λ x. x.is_entered ≡ false) }
    {
        forest.law_nodes_stand_once();
        let host = slots.host_of(self.node)?;
        let tree = trees.at(self.tree).outer;
        Some(PathNode::in_tree(forest, host, tree, false))
    }

    /// The place of the slot of a node, in a tree that this adds, or else that of its parent (DOM Standard, concept: get the
    /// parent, of a node).
    fn inside(
        &self,
        trees: &mut Trees,
        forest: &Forest,
        slots: &Slots,
    ) -> Result<Option<PathNode>, AllocError>
        requires trees { AreTrees forest.now slots.now.hosts trees.old }
        requires stands { IsPathNode forest.now slots.now.hosts trees.old self.now }
        requires slots { AreSlotsOf forest.now slots.now }
        ensures grown { OnOk result (Grows trees.old trees.new) }
        ensures trees { OnOk result (AreTrees forest.now slots.now.hosts trees.new) }
        ensures stands { IfOk result (λ next. ForSome next (λ x. IsPathNode forest.now slots.now.hosts trees.new x)) }
        ensures value { IfOk result (λ next. option_map (λ x. name_of forest.now x.node) next ≡ option_or
            (slot_at (shadows forest.now slots.now.hosts) (name_of forest.now self.now.node))
            (parent_of forest.now.trees (name_of forest.now self.now.node))) }
        ensures entered { IfOk result (λ next. ForSome next
            (λ x. x.is_entered ≡ is_assigned_at (shadows forest.now slots.now.hosts) (name_of forest.now x.node)
            (name_of forest.now self.now.node))) }
    {
        forest.law_nodes_stand_once();
        let Some(parent) = forest.parent(self.node) else {
            return Ok(None);
        };
        let Some(below) = self.slot_below(forest, slots, parent) else {
            return Ok(Some(PathNode::in_tree(forest, parent, self.tree, false)));
        };
        let tree = trees.push(below.root, Some(parent), self.tree)?;
        Ok(Some(PathNode::in_tree(forest, below.slot, tree, true)))
    }

    /// The slot of a node below its parent's shadow root, if there is one.
    fn slot_below(&self, forest: &Forest, slots: &Slots, parent: Key) -> Option<SlotBelow>
        requires node { IsNode forest.now self.now.node }
        requires parent_is_node { IsNode forest.now parent }
        requires parent { Some (name_of forest.now parent) ≡ parent_of forest.now.trees (name_of forest.now self.now.node) }
        requires slots { AreSlotsOf forest.now slots.now }
        ensures value { option_map (λ x. name_of forest.now x.slot) result ≡ slot_at (shadows forest.now slots.now.hosts)
            (name_of forest.now self.now.node) }
        ensures below { ForSome result (λ x. IsSlotBelow forest.now slots.now.hosts parent x) }
    {
        forest.law_nodes_stand_once();
        let root = slots.root_of(parent)?;
        let slot = slots.slot_of(forest, self.node)?;
        Some(SlotBelow { root, slot })
    }

    /// What is seen in the node's place from the nodes of a tree (DOM Standard, concept: retarget).
    pub(crate) fn seen_from(&self, trees: &Trees, viewer: usize) -> Key
        requires tree { self.now.tree < length trees.now }
        requires viewer { viewer < length trees.now }
        ensures { result ≡ seen_of trees.now viewer self.now }
    {
        trees.seen_from(self.node, self.tree, viewer)
    }
}
