//! Event paths.
ghost use Rattle.std.specs.Prelude.{◌≡◌, ℕ, ◌<◌, ◌↔◌, true, IsTrue, Some, length, map, option_map, slice_get, IfOk, OnOk};
ghost use Rattle.std.specs.List.{AllByRecursion};
ghost use Rattle.std.specs.Option.{ForSome};
ghost use Rattle.dom_model.specs.Paths.{View, views};
ghost use Rattle.dom_model.specs.World.{World};
ghost use Rattle.dom_tree.specs.Forest.{IsNode, name_of};
ghost use Rattle.dom_slots.specs.Kept.{AreSlotsOf};
ghost use Rattle.dom_slots.specs.Shadows.{shadows};
ghost use Rattle.dom_path.specs.Hosted.{IsHosted};
ghost use Rattle.dom_path.specs.Paths.{IsPathShown, IsTrail};
ghost use Rattle.dom_path.specs.PathNodes.{view_in};
ghost use Rattle.dom_path.specs.Items.{IsWorldOf, HasNodes, ShowsNodes, item_named, view_named, path_items};

use crate::event::items_of;
use crate::item::Item;
use crate::trees::Trees;
use dom_slots::Slots;
use dom_tree::Forest;
use node_arena::Key;
use smallvec::SmallVec;
use std::alloc::{AllocError, Global};
use std::marker::Model;

/// The path of an event: its nodes in the order of bubbling, with what the event shows at each.
#[derive(Drop)]
pub struct Path {
    items: Vec<Item>,
    trees: Trees,
    alloc: Global,
}

impl Model for Path {
    ghost use Rattle.dom_path.specs.Items.{PathNow};

    ghost Value = { PathNow };

    ghost use Rattle.dom_path.specs.PathNodes.{view_in};
    ghost use Rattle.std.specs.Prelude.{map};

    ghost view = { λ p. record { items = p.items.items; trees = p.trees; views = map (view_in p.trees p.items.items) p.items.items } };

    ghost use Rattle.dom_path.specs.Items.{AreInTrees};

    ghost invariant = { λ p. AreInTrees p.trees p.items.items };
}

impl Path {
    /// The path of an event at a target (DOM Standard, concept: dispatch). `related` is its related node, and an event that
    /// isn't composed stays within the shadow tree of its target. Where memory is refused there is no path.
    ///
    /// In any forest the path goes from the target up from event parent to event parent (`trail`). Where it ends, and what the event
    /// shows, is said of forests whose shadow trees lie in one another (`hosted`), as `law_hosts_nest` gives it. Hosts that go round in
    /// a circle are answered as if memory was refused.
    pub fn build(
        alloc: Global,
        forest: &Forest,
        slots: &Slots,
        target: Key,
        related: Option<Key>,
        composed: bool,
    ) -> Result<Path, AllocError>
        requires target_is_node { IsNode forest.now target }
        requires related_is_node { ForSome related (IsNode forest.now) }
        requires slots { AreSlotsOf forest.now slots.now }
        ensures items { IfOk result (λ p. (w : World) → IsWorldOf forest.now slots.now.hosts w →
            map (item_named forest.now.names) p.items ≡ path_items w (name_of forest.now target)
            (option_map (name_of forest.now) related) composed) }
        ensures views { IfOk result (λ p. (w : World) → IsWorldOf forest.now slots.now.hosts w →
            map (view_named forest.now.names) p.views ≡ views w (name_of forest.now target) (option_map (name_of forest.now) related)
            composed) }
        ensures hosted { IfOk result (λ p. (depth : ℕ) → IsHosted forest.now slots.now.hosts depth →
            IsPathShown (shadows forest.now slots.now.hosts) depth (name_of forest.now target)
            (option_map (name_of forest.now) related) composed (map (item_named forest.now.names) p.items)
            (map (view_named forest.now.names) p.views)) }
        ensures trail { IfOk result (λ p. IsTrail (shadows forest.now slots.now.hosts) (name_of forest.now target) composed
            (map (item_named forest.now.names) p.items)) }
        ensures nodes { IfOk result (λ p. AllByRecursion (HasNodes forest.now.names) p.items) }
        ensures shown_nodes { IfOk result (λ p. AllByRecursion (ShowsNodes forest.now.names) p.views) }
    {
        Path::build_in(Vec::new(alloc), forest, slots, target, related, composed)
    }

    /// The path of an event as `build` gives it, with its items in the memory of those of another path, as `into_items` gives them. What
    /// stands there goes.
    pub fn build_in(
        room: Vec<Item>,
        forest: &Forest,
        slots: &Slots,
        target: Key,
        related: Option<Key>,
        composed: bool,
    ) -> Result<Path, AllocError>
        requires target_is_node { IsNode forest.now target }
        requires related_is_node { ForSome related (IsNode forest.now) }
        requires slots { AreSlotsOf forest.now slots.now }
        ensures items { IfOk result (λ p. (w : World) → IsWorldOf forest.now slots.now.hosts w →
            map (item_named forest.now.names) p.items ≡ path_items w (name_of forest.now target)
            (option_map (name_of forest.now) related) composed) }
        ensures views { IfOk result (λ p. (w : World) → IsWorldOf forest.now slots.now.hosts w →
            map (view_named forest.now.names) p.views ≡ views w (name_of forest.now target) (option_map (name_of forest.now) related)
            composed) }
        ensures hosted { IfOk result (λ p. (depth : ℕ) → IsHosted forest.now slots.now.hosts depth →
            IsPathShown (shadows forest.now slots.now.hosts) depth (name_of forest.now target)
            (option_map (name_of forest.now) related) composed (map (item_named forest.now.names) p.items)
            (map (view_named forest.now.names) p.views)) }
        ensures trail { IfOk result (λ p. IsTrail (shadows forest.now slots.now.hosts) (name_of forest.now target) composed
            (map (item_named forest.now.names) p.items)) }
        ensures nodes { IfOk result (λ p. AllByRecursion (HasNodes forest.now.names) p.items) }
        ensures shown_nodes { IfOk result (λ p. AllByRecursion (ShowsNodes forest.now.names) p.views) }
    {
        forest.law_nodes_stand_once();
        let alloc = *room.allocator();
        let mut trees = Trees::new(alloc);
        let items = items_of(room, &mut trees, forest, slots, target, related, composed)?;
        Ok(Path {
            items,
            trees,
            alloc,
        })
    }

    /// The items of the path, the target's first. What the event shows at each of them is as they say.
    pub fn items(&self) -> &[Item]
        ensures items { result.now ≡ self.now.items }
        ensures views { self.now.views ≡ map (view_in self.now.trees self.now.items) self.now.items }
    {
        self.items.as_slice()
    }

    /// The items of the path, without the rest of it.
    pub fn into_items(self) -> Vec<Item>
        ensures { result.items ≡ self.items }
    {
        self.items
    }

    /// The nodes of the path that are not hidden from the item at this place (DOM Standard, composedPath()). Up to 16 of them take no
    /// memory; there is no answer where memory for more is refused.
    pub fn composed_path(&self, at: usize) -> Result<SmallVec<Key, 16>, AllocError>
        requires { at < length self.now.items }
        ensures { IfOk result (λ nodes. option_map (λ (v : View ℕ). v.path) (slice_get self.now.views at) ≡ Some nodes.items) }
    {
        let mut nodes = SmallVec::new(self.alloc);
        self.put_composed_path(at, &mut nodes)?;
        Ok(nodes)
    }

    /// Puts the nodes that `composed_path` answers in place of others. Where memory is refused there may be fewer of them.
    pub fn put_composed_path(
        &self,
        at: usize,
        nodes: &mut SmallVec<Key, 16>,
    ) -> Result<(), AllocError>
        requires { at < length self.now.items }
        ensures { OnOk result (option_map (λ (v : View ℕ). v.path) (slice_get self.now.views at) ≡ Some nodes.new.items) }
    {
        let items = self.items.as_slice();
        let viewer = items[at].tree;
        nodes.clear();
        nodes.reserve(items.len())?;
        for item in items {
            if self.trees.hiding_host(item.tree, viewer).is_none() {
                nodes.push(item.node)?;
            }
        }
        Ok(())
    }

    /// Whether two items of the path stand in one tree. The event then shows the same nodes of its path at both (own rule).
    pub fn share_tree(&self, at: usize, other: usize) -> bool
        requires at { at < length self.now.items }
        requires other { other < length self.now.items }
        ensures trees { IsTrue result ↔
            (option_map (λ i. i.tree) (slice_get self.now.items at) ≡ option_map (λ i. i.tree) (slice_get self.now.items other)) }
        ensures paths { result ≡ true → option_map (λ (v : View ℕ). v.path) (slice_get self.now.views at)
            ≡ option_map (λ (v : View ℕ). v.path) (slice_get self.now.views other) }
    {
        let items = self.items.as_slice();
        items[at].tree == items[other].tree
    }
}
