//! The rules by which a path is built.
ghost use Rattle.std.specs.Prelude.{◌≡◌, ℕ, ◌<◌, [], length, map, Some, option_map, IfOk, OnOk};
ghost use Rattle.std.specs.Option.{ForSome};
ghost use Rattle.std.specs.List.{AllByRecursion};
ghost use Rattle.dom_model.specs.Tree.{root_of};
ghost use Rattle.dom_tree.specs.Forest.{IsNode, name_of};
ghost use Rattle.dom_slots.specs.Hosts.{HostsAreNodes};
ghost use Rattle.dom_slots.specs.Kept.{AreSlotsOf};
ghost use Rattle.dom_slots.specs.Shadows.{shadows, is_assigned_at};
ghost use Rattle.dom_path.specs.Hosted.{IsHosted};
ghost use Rattle.dom_path.specs.Nests.{Grows};
ghost use Rattle.dom_path.specs.PathNodes.{AreTrees, IsPathNode, item_from, ends_before, is_silent, related_from};
ghost use Rattle.dom_path.specs.Built.{IsEvent, IsItemOf, IsWay, IsBuilt, related_name};
ghost use Rattle.dom_path.specs.Items.{item_named};
ghost use Rattle.dom_path.specs.Paths.{IsTrail};
ghost use Rattle.dom_path.specs.Ways.{event_parent_at, next_at};

use crate::item::Item;
use crate::path_node::PathNode;
use crate::trees::Trees;
use dom_slots::Slots;
use dom_tree::Forest;
use node_arena::Key;
use std::alloc::AllocError;

/// For how many items a path has room as it begins.
const SHORT: usize = 16;

/// The places of an event's target and of its related node, and whether it is composed.
#[derive(Drop)]
struct Event {
    target: PathNode,
    related: Option<PathNode>,
    composed: bool,
}

/// The items of the path of an event at a target (DOM Standard, concept: dispatch), in the room of others. This adds the trees on its way.
pub(crate) fn items_of(
    mut room: Vec<Item>,
    trees: &mut Trees,
    forest: &Forest,
    slots: &Slots,
    target: Key,
    related: Option<Key>,
    composed: bool,
) -> Result<Vec<Item>, AllocError>
    requires target_is_node { IsNode forest.now target }
    requires related_is_node { ForSome related (IsNode forest.now) }
    requires trees { AreTrees forest.now slots.now.hosts trees.old }
    requires slots { AreSlotsOf forest.now slots.now }
    ensures trees { OnOk result (AreTrees forest.now slots.now.hosts trees.new) }
    ensures path { IfOk result (λ items. (depth : ℕ) → IsHosted forest.now slots.now.hosts depth →
        IsBuilt forest.now slots.now.hosts (name_of forest.now target) (option_map (name_of forest.now) related) depth composed
        items.items) }
    ensures each { IfOk result (λ items. AllByRecursion
        (IsItemOf forest.now slots.now.hosts (name_of forest.now target) (option_map (name_of forest.now) related) trees.new)
        items.items) }
    ensures trail { IfOk result (λ items. IsTrail (shadows forest.now slots.now.hosts) (name_of forest.now target) composed
        (map (item_named forest.now.names) items.items)) }
{
    forest.law_nodes_stand_once();
    let target = PathNode::of(trees, forest, slots, target)?;
    let related = PathNode::of_any(trees, forest, slots, related)?;
    let event = Event {
        target,
        related,
        composed,
    };
    room.clear();
    if event.is_silent(trees) {
        return Ok(room);
    }
    event.items(room, trees, forest, slots)
}

impl Event {
    /// The items of the path: of the target, and then each event parent's, up to where the path ends (DOM Standard, concept:
    /// dispatch). One look for a slot a node, and no walk up to a root. They stand in the room, which is empty; up to 16 of them take memory
    /// once.
    fn items(
        &self,
        mut items: Vec<Item>,
        trees: &mut Trees,
        forest: &Forest,
        slots: &Slots,
    ) -> Result<Vec<Item>, AllocError>
        requires trees { AreTrees forest.now slots.now.hosts trees.old }
        requires event { IsEvent forest.now slots.now.hosts trees.old self.now.target self.now.related }
        requires slots { AreSlotsOf forest.now slots.now }
        requires room { items.items ≡ [] }
        ensures trees { OnOk result (AreTrees forest.now slots.now.hosts trees.new) }
        ensures way { IfOk result (λ items. (depth : ℕ) → IsHosted forest.now slots.now.hosts depth →
            IsWay forest.now slots.now.hosts (name_of forest.now self.now.target.node) (related_name forest.now.names self.now.related)
            depth self.now.composed items.items) }
        ensures each { IfOk result (λ items. AllByRecursion
            (IsItemOf forest.now slots.now.hosts (name_of forest.now self.now.target.node) (related_name forest.now.names self.now.related)
            trees.new) items.items) }
        ensures trail { IfOk result (λ items. IsTrail (shadows forest.now slots.now.hosts) (name_of forest.now self.now.target.node)
            self.now.composed (map (item_named forest.now.names) items.items)) }
    {
        forest.law_nodes_stand_once();
        items.reserve(SHORT)?;
        let mut next = Some(self.target);
        while let Some(at) = next {
            // The loop ends since the number of items is a `usize`.
            prove!(items.len() <= usize::MAX);
            items.push(self.item(trees, &at))?;
            next = self.next(trees, forest, slots, &at)?;
        }
        Ok(items)
    }

    /// Whether the path is empty: the target sees itself in the related node's place, and is not the related node (DOM
    /// Standard, concept: dispatch).
    fn is_silent(&self, trees: &Trees) -> bool
        requires target { self.now.target.tree < length trees.now }
        requires related { ForSome self.now.related (λ x. x.tree < length trees.now) }
        ensures { result ≡ is_silent trees.now self.now.target self.now.related }
    {
        let node = self.target.node;
        let is_related = match &self.related {
            Some(related) => related.node == node,
            None => false,
        };
        self.related_from(trees, self.target.tree) == Some(node) && !is_related
    }

    /// The place behind another one on the path, if the path doesn't end there. Of a slot this adds the tree.
    fn next(
        &self,
        trees: &mut Trees,
        forest: &Forest,
        slots: &Slots,
        at: &PathNode,
    ) -> Result<Option<PathNode>, AllocError>
        requires trees { AreTrees forest.now slots.now.hosts trees.old }
        requires event { IsEvent forest.now slots.now.hosts trees.old self.now.target self.now.related }
        requires stands { IsPathNode forest.now slots.now.hosts trees.old at.now }
        requires slots { AreSlotsOf forest.now slots.now }
        ensures grown { OnOk result (Grows trees.old trees.new) }
        ensures trees { OnOk result (AreTrees forest.now slots.now.hosts trees.new) }
        ensures stands { IfOk result (λ next. ForSome next (λ x. IsPathNode forest.now slots.now.hosts trees.new x)) }
        ensures value { IfOk result (λ next. (depth : ℕ) → IsHosted forest.now slots.now.hosts depth →
            option_map (λ x. name_of forest.now x.node) next ≡ next_at (shadows forest.now slots.now.hosts) depth
            (name_of forest.now self.now.target.node) (related_name forest.now.names self.now.related) self.now.composed
            (name_of forest.now at.now.node)) }
        ensures up { IfOk result (λ next. ForSome next (λ x. event_parent_at (shadows forest.now slots.now.hosts) self.now.composed
            (root_of forest.now.trees (name_of forest.now self.now.target.node)) (name_of forest.now at.now.node) ≡
            Some (name_of forest.now x.node))) }
        ensures entered { IfOk result (λ next. ForSome next
            (λ x. x.is_entered ≡ is_assigned_at (shadows forest.now slots.now.hosts) (name_of forest.now x.node)
            (name_of forest.now at.now.node))) }
    {
        forest.law_nodes_stand_once();
        let top = trees.at(self.target.tree).root;
        let Some(above) = at.above(trees, forest, slots, top, self.composed)? else {
            return Ok(None);
        };
        if self.ends_before(trees, &above) {
            return Ok(None);
        }
        Ok(Some(above))
    }

    /// Whether the path ends before a node: it is not the target, and sees itself in the place of the target and in that of the
    /// related node (DOM Standard, concept: dispatch).
    fn ends_before(&self, trees: &Trees, at: &PathNode) -> bool
        requires target { self.now.target.tree < length trees.now }
        requires related { ForSome self.now.related (λ x. x.tree < length trees.now) }
        requires at { at.now.tree < length trees.now }
        ensures { result ≡ ends_before trees.now self.now.target self.now.related at.now }
    {
        let Some(related) = &self.related else {
            return false;
        };
        at.node != self.target.node
            && at.node == self.target.seen_from(trees, at.tree)
            && related.seen_from(trees, at.tree) == at.node
    }

    /// What is seen in the related node's place from the nodes of a tree.
    fn related_from(&self, trees: &Trees, viewer: usize) -> Option<Key>
        requires related { ForSome self.now.related (λ x. x.tree < length trees.now) }
        requires viewer { viewer < length trees.now }
        ensures { result ≡ related_from trees.now viewer self.now.related }
    {
        match &self.related {
            Some(related) => Some(related.seen_from(trees, viewer)),
            None => None,
        }
    }

    /// The item of a node of the path.
    fn item(&self, trees: &Trees, at: &PathNode) -> Item
        requires target { self.now.target.tree < length trees.now }
        requires related { ForSome self.now.related (λ x. x.tree < length trees.now) }
        requires at { at.now.tree < length trees.now }
        ensures { result ≡ item_from trees.now self.now.target self.now.related at.now }
    {
        let event_target = self.target.seen_from(trees, at.tree);
        let target = if at.node == event_target {
            Some(at.node)
        } else {
            None
        };
        Item {
            node: at.node,
            target,
            related: self.related_from(trees, at.tree),
            root_of_closed: at.is_shadow_root,
            slot_in_closed: at.is_entered,
            event_target,
            tree: at.tree,
        }
    }
}
