//! The trees on an event's way.
ghost use Rattle.std.specs.Prelude.{◌≡◌, ◌<◌, ◌≤◌, ◌++◌, ◌∷◌, [], List, length, nat_eq, option_map, slice_get, None, Some, IfOk, OnOk};
ghost use Rattle.std.specs.Option.{ForSome};
ghost use Rattle.dom_model.specs.Names.{is_in};
ghost use Rattle.dom_tree.specs.Forest.{IsNode, name_of};
ghost use Rattle.dom_slots.specs.Hosts.{HostsAreNodes};
ghost use Rattle.dom_path.specs.Nests.{IsNested, AreNested, Grows, roots_around, hiding_host, seen_from};
ghost use Rattle.dom_path.specs.PathNodes.{AreTrees, IsTreeOf};
ghost use Rattle.dom_path.specs.Outward.{GoesOut};

use dom_slots::Slots;
use dom_tree::Forest;
use node_arena::Key;
use smallvec::SmallVec;
use std::alloc::{AllocError, Global};
use std::marker::Model;

/// A tree on an event's way: its root, the host of that root if it is a shadow root, and then the place of the tree in which
/// that host stands. The default only fills the unused places of a list.
#[derive(Clone, Copy, Default)]
pub(crate) struct Tree {
    pub(crate) root: Key,
    pub(crate) host: Option<Key>,
    pub(crate) outer: usize,
}

/// The trees on an event's way, each behind those around it. Up to four of them take no memory.
#[derive(Drop)]
pub(crate) struct Trees {
    trees: SmallVec<Tree, 4>,
    alloc: Global,
}

impl Model for Trees {
    ghost use Rattle.std.specs.Prelude.{List};
    ghost use Rattle.dom_path.specs.declared.trees.Tree.{Tree};

    ghost Value = { List Tree };

    ghost view = { λ t. t.trees.items };

    ghost use Rattle.dom_path.specs.Nests.{AreNested};

    ghost invariant = { λ t. AreNested t.trees.items };
}

impl Trees {
    /// No trees.
    pub(crate) fn new(alloc: Global) -> Trees
        ensures { result ≡ [] }
    {
        Trees {
            trees: SmallVec::new(alloc),
            alloc,
        }
    }

    /// The tree at a place.
    pub(crate) fn at(&self, place: usize) -> Tree
        requires { place < length self.now }
        ensures { slice_get self.now place ≡ Some result }
    {
        self.trees.as_slice()[place]
    }

    /// Adds a tree with this root, with its host if there is one and then the place of the tree in which that one stands. The
    /// answer is its place.
    pub(crate) fn push(
        &mut self,
        root: Key,
        host: Option<Key>,
        outer: usize,
    ) -> Result<usize, AllocError>
        requires nested { IsNested (length self.old) record { root = root; host = host; outer = outer } }
        ensures trees { OnOk result (self.new ≡ self.old ++ record { root = root; host = host; outer = outer } ∷ []) }
        ensures place { IfOk result (λ place. place ≡ length self.old) }
    {
        let place = self.trees.len();
        self.trees.push(Tree { root, host, outer })?;
        Ok(place)
    }

    /// Adds the trees around a node, the outermost first, and last the node's own, whose place is the answer. This walks up to
    /// the root of each.
    pub(crate) fn add(
        &mut self,
        forest: &Forest,
        slots: &Slots,
        node: Key,
    ) -> Result<usize, AllocError>
        requires node_is_node { IsNode forest.now node }
        requires hosts { HostsAreNodes forest.now.names slots.now.hosts }
        requires trees { AreTrees forest.now slots.now.hosts self.old }
        ensures grown { OnOk result (Grows self.old self.new) }
        ensures trees { OnOk result (AreTrees forest.now slots.now.hosts self.new) }
        ensures within { IfOk result (λ place. place < length self.new) }
        ensures place { IfOk result (λ place. IsTreeOf forest.now self.new place (name_of forest.now node)) }
    {
        forest.law_nodes_stand_once();
        let root = forest.root(node);
        let host = slots.host_of(root);
        // The borrow checker does not let `host` be passed twice.
        let outermost = host;
        let outer = self.add_outer(forest, slots, outermost)?;
        let place = self.push(root, host, outer)?;
        Ok(place)
    }

    /// Adds the trees around a host, if there is one, and last the host's own, whose place is the answer then.
    fn add_outer(
        &mut self,
        forest: &Forest,
        slots: &Slots,
        host: Option<Key>,
    ) -> Result<usize, AllocError>
        requires host_is_node { ForSome host (IsNode forest.now) }
        requires hosts { HostsAreNodes forest.now.names slots.now.hosts }
        requires trees { AreTrees forest.now slots.now.hosts self.old }
        ensures grown { OnOk result (Grows self.old self.new) }
        ensures trees { OnOk result (AreTrees forest.now slots.now.hosts self.new) }
        ensures within { IfOk result (λ place. place ≤ length self.new) }
        ensures there { IfOk result (λ place. ForSome host
            (λ h. (place < length self.new) × IsTreeOf forest.now self.new place (name_of forest.now h))) }
    {
        match host {
            Some(host) => self.add_around(forest, slots, host),
            None => Ok(0),
        }
    }

    /// Adds the trees around a node as `add` does. It is kept out of line, since most trees have no host.
    #[inline(never)]
    fn add_around(&mut self, forest: &Forest, slots: &Slots, node: Key) -> Result<usize, AllocError>
        requires node_is_node { IsNode forest.now node }
        requires hosts { HostsAreNodes forest.now.names slots.now.hosts }
        requires trees { AreTrees forest.now slots.now.hosts self.old }
        ensures grown { OnOk result (Grows self.old self.new) }
        ensures trees { OnOk result (AreTrees forest.now slots.now.hosts self.new) }
        ensures within { IfOk result (λ place. place < length self.new) }
        ensures place { IfOk result (λ place. IsTreeOf forest.now self.new place (name_of forest.now node)) }
    {
        forest.law_nodes_stand_once();
        let mut around = trees_around(self.alloc, forest, slots, node)?;
        let mut outer = 0;
        while let Some(tree) = around.pop() {
            outer = self.push(tree.root, tree.host, outer)?;
        }
        Ok(outer)
    }

    /// The host of the tree at a place, where the nodes of that tree are hidden from those of another one (DOM Standard, concept:
    /// closed-shadow-hidden).
    pub(crate) fn hiding_host(&self, place: usize, viewer: usize) -> Option<Key>
        requires place { place < length self.now }
        requires viewer { viewer < length self.now }
        ensures { result ≡ hiding_host self.now viewer place }
    {
        if place == viewer {
            return None;
        }
        let tree = self.at(place);
        if encloses(self.trees.as_slice(), tree.root, viewer) {
            None
        } else {
            tree.host
        }
    }

    /// What is seen in place of a node, whose tree is at a place, from the nodes of another tree: the node where it is not hidden, else
    /// in the same way its tree's host (DOM Standard, concept: retarget).
    pub(crate) fn seen_from(&self, node: Key, place: usize, viewer: usize) -> Key
        requires place { place < length self.now }
        requires viewer { viewer < length self.now }
        ensures { result ≡ seen_from self.now viewer node place }
    {
        let trees = self.trees.as_slice();
        let mut seen = node;
        let mut place = place;
        while let Some(host) = self.hiding_host(place, viewer) {
            seen = host;
            place = trees[place].outer;
        }
        seen
    }
}

/// Whether the tree with this root is the one at a place, or lies around it. This goes up by trees.
fn encloses(trees: &[Tree], root: Key, inner: usize) -> bool
    requires nested { AreNested trees.now }
    requires inner { inner < length trees.now }
    ensures { result ≡ is_in nat_eq root (roots_around trees.now inner) }
{
    let mut place = inner;
    loop {
        let tree = trees[place];
        if root == tree.root {
            return true;
        }
        if tree.host.is_none() {
            return false;
        }
        place = tree.outer;
    }
}

/// The tree of a node, that of its host, and so on, each with its root and its host.
fn trees_around(
    alloc: Global,
    forest: &Forest,
    slots: &Slots,
    node: Key,
) -> Result<SmallVec<Tree, 4>, AllocError>
    requires node_is_node { IsNode forest.now node }
    requires hosts { HostsAreNodes forest.now.names slots.now.hosts }
    ensures { IfOk result (λ trees. GoesOut forest.now slots.now.hosts (Some (name_of forest.now node)) trees.items None) }
{
    forest.law_nodes_stand_once();
    let mut trees = SmallVec::new(alloc);
    let mut next = Some(node);
    while let Some(node) = next {
        // The loop ends since the number of trees is a `usize`.
        prove!(trees.len() <= usize::MAX);
        let root = forest.root(node);
        next = slots.host_of(root);
        let host = next;
        trees.push(Tree {
            root,
            host,
            outer: 0,
        })?;
    }
    Ok(trees)
}
