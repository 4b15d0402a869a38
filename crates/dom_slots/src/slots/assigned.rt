//! The slot of a node, and the nodes assigned to a slot.
ghost use Rattle.std.specs.Prelude.{◌≡◌, ℕ, false, nat_eq, map, IfOk, All};
ghost use Rattle.std.specs.Option.{option_map, ForSome};
ghost use Rattle.dom_model.specs.Names.{is_in};
ghost use Rattle.dom_tree.specs.Forest.{IsNode, name_of};
ghost use Rattle.dom_slots.specs.Hosts.{HostsAreNodes};
ghost use Rattle.dom_slots.specs.Kept.{AreSlotsOf};
ghost use Rattle.dom_slots.specs.Shadows.{shadows, slot_at, is_first_at, assigned_at, assigned_under};
ghost use Rattle.dom_slots.specs.Tables.{list_of};

use crate::Slots;
use crate::find::{looks_for, slot_name, slot_named};
use dom_tree::Forest;
use node_arena::Key;
use std::alloc::AllocError;

impl Slots {
    /// The slot to which a node is assigned: the first one of its name in the shadow tree of its parent (DOM Standard,
    /// concept: find a slot). It is found by one look-up; of a node that has none three more tell that. Takes no memory.
    #[inline(always)]
    pub fn slot_of(&self, forest: &Forest, node: Key) -> Option<Key>
        requires node_is_node { IsNode forest.now node }
        requires slots { AreSlotsOf forest.now self.now }
        ensures value { option_map (name_of forest.now) result ≡ slot_at (shadows forest.now self.now.hosts) (name_of forest.now node) }
        ensures node { ForSome result (IsNode forest.now) }
    {
        if self.is_hostless() {
            return None;
        }
        self.slot_among_hosts(forest, node)
    }

    /// The slot of a node, as `slot_of` says, where there are hosts. It is out of line, since most pages have none.
    #[inline(never)]
    fn slot_among_hosts(&self, forest: &Forest, node: Key) -> Option<Key>
        requires node_is_node { IsNode forest.now node }
        requires slots { AreSlotsOf forest.now self.now }
        ensures value { option_map (name_of forest.now) result ≡ slot_at (shadows forest.now self.now.hosts) (name_of forest.now node) }
        ensures node { ForSome result (IsNode forest.now) }
    {
        match self.table.slot(node) {
            Some(slot) => Some(slot),
            None => self.slot_unlisted(forest, node),
        }
    }

    /// The slot of a node that stands in no list: none, where its parent is no host, or is the host of a tree of its own. Of a
    /// host whose shadow root is no root, or that of another host too, the shadow tree is walked; nobody makes such ones.
    fn slot_unlisted(&self, forest: &Forest, node: Key) -> Option<Key>
        requires node_is_node { IsNode forest.now node }
        requires slots { AreSlotsOf forest.now self.now }
        requires unlisted { (slot : ℕ) → is_in nat_eq node (list_of self.now.table slot) ≡ false }
        ensures value { option_map (name_of forest.now) result ≡ slot_at (shadows forest.now self.now.hosts) (name_of forest.now node) }
        ensures node { ForSome result (IsNode forest.now) }
    {
        forest.law_nodes_stand_once();
        let parent = forest.parent(node)?;
        let root = self.root_of(parent)?;
        if forest.parent(root).is_none() && self.host_of(root) == Some(parent) {
            return None;
        }
        self.slot_found(forest, node)
    }

    /// The nodes assigned to a slot, in the order of their host's children; none to a node outside of shadow trees (DOM
    /// Standard, concept: assigned nodes). They are read from the table: no tree is walked.
    pub fn assigned(&self, forest: &Forest, slot: Key) -> Result<Vec<Key>, AllocError>
        requires slot_is_node { IsNode forest.now slot }
        requires slots { AreSlotsOf forest.now self.now }
        ensures value { IfOk result (λ keys. map (name_of forest.now) keys.items ≡ assigned_at (shadows forest.now self.now.hosts)
            (name_of forest.now slot)) }
        ensures nodes { IfOk result (λ keys. All (IsNode forest.now) keys.items) }
    {
        forest.law_nodes_stand_once();
        let mut keys = Vec::new(self.alloc);
        keys.extend_from_slice(self.table.list(slot))?;
        Ok(keys)
    }

    /// The nodes assigned to a slot, also in a forest that is not that of the table.
    pub(super) fn assigned_now(&self, forest: &Forest, slot: Key) -> Result<Vec<Key>, AllocError>
        requires slot_is_node { IsNode forest.now slot }
        requires hosts { HostsAreNodes forest.now.names self.now.hosts }
        ensures value { IfOk result (λ keys. map (name_of forest.now) keys.items ≡ assigned_at (shadows forest.now self.now.hosts)
            (name_of forest.now slot)) }
        ensures nodes { IfOk result (λ keys. All (IsNode forest.now) keys.items) }
    {
        forest.law_nodes_stand_once();
        match self.host_of(forest.root(slot)) {
            Some(host) => self.assigned_under(forest, host, slot),
            None => Ok(Vec::new(self.alloc)),
        }
    }

    /// The children of a host whose slot this one is: where it is the first of its name, those that look for that name.
    fn assigned_under(&self, forest: &Forest, host: Key, slot: Key) -> Result<Vec<Key>, AllocError>
        requires host_is_node { IsNode forest.now host }
        requires slot_is_node { IsNode forest.now slot }
        requires hosts { HostsAreNodes forest.now.names self.now.hosts }
        ensures value { IfOk result (λ keys. map (name_of forest.now) keys.items ≡ assigned_under (shadows forest.now self.now.hosts)
            (name_of forest.now slot) (name_of forest.now host)) }
        ensures nodes { IfOk result (λ keys. All (IsNode forest.now) keys.items) }
    {
        forest.law_nodes_stand_once();
        let mut keys = Vec::new(self.alloc);
        if !self.is_first(forest, host, slot) {
            return Ok(keys);
        }
        let name = slot_name(forest, slot);
        let mut at = forest.first(host);
        while let Some(child) = at {
            if looks_for(forest, child, name) {
                keys.push(child)?;
            }
            at = forest.next(child);
        }
        Ok(keys)
    }

    /// Whether a slot is the first of its name in the shadow tree of a host. This walks through that tree, and none of the
    /// host's children needs to.
    fn is_first(&self, forest: &Forest, host: Key, slot: Key) -> bool
        requires host_is_node { IsNode forest.now host }
        requires slot_is_node { IsNode forest.now slot }
        requires hosts { HostsAreNodes forest.now.names self.now.hosts }
        ensures { result ≡ is_first_at (shadows forest.now self.now.hosts) (name_of forest.now host) (name_of forest.now slot) }
    {
        forest.law_nodes_stand_once();
        match self.root_of(host) {
            Some(root) => slot_named(forest, root, slot_name(forest, slot)) == Some(slot),
            None => false,
        }
    }
}
