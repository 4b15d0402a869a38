//! The hosts of shadow trees.
ghost use Rattle.std.specs.Prelude.{◌≡◌, ◌<◌, ◌++◌, ◌∷◌, [], length, None, OnOk, OnErr};
ghost use Rattle.dom_model.specs.Slots.{slots_among};
ghost use Rattle.dom_model.specs.Tree.{subtree};
ghost use Rattle.dom_tree.specs.Forest.{NamedTrees, name_at};
ghost use Rattle.dom_slots.specs.Hosts.{host_of_root, root_of_host};
ghost use Rattle.dom_slots.specs.Kept.{AreSlotsOf, StandsOnce};

mod apart;
mod assigned;
mod bare;
mod indexed;
mod inside;
mod moving;
mod parked;
mod renewal;
mod signals;

use crate::index::NameIndex;
use crate::key_map::KeyMap;
use crate::marks::Marks;
use crate::table::Table;
use dom_base::Owner;
use node_arena::Key;
use parked::Parked;
use std::alloc::{AllocError, Global};
use std::marker::Model;

/// A host with its shadow root, and the component to which that root belongs.
#[derive(Clone, Copy)]
struct Attached {
    host: Key,
    root: Key,
    owner: Owner,
}

/// The hosts of shadow trees, in the order of attaching, the nodes assigned to the slots of their trees, marks of roots whose trees
/// have no slot, which slots of their trees may have a name, and the list of a slot that a step took out of its tree.
pub struct Slots {
    hosts: Vec<Attached>,
    by_host: KeyMap,
    by_root: KeyMap,
    table: Table,
    bare: Marks,
    index: NameIndex,
    parked: Option<Parked>,
    alloc: Global,
}

impl Drop for Slots {
    // Written out, so that the crates above cite it, and do not prove again how each field is let go.
    fn drop(self) {
        let Self {
            hosts,
            by_host,
            by_root,
            table,
            bare,
            index,
            parked,
            alloc,
        } = self;
    }
}

impl Model for Slots {
    ghost use Rattle.dom_slots.specs.Kept.{SlotsNow};

    ghost Value = { SlotsNow };

    ghost use Rattle.dom_slots.specs.Fields.{hosts_in, AreFound};

    ghost view = { λ s. record {
      hosts = hosts_in s.hosts.items;
      table = s.table;
      bare = s.bare.marked.items;
      index = s.index.bearers.entries;
      parked = s.parked;
    } };

    ghost invariant = { λ s. AreFound (hosts_in s.hosts.items) s.by_host.values.items s.by_root.values.items };
}

impl Slots {
    /// No hosts. Takes no memory yet; later calls take theirs from `alloc`.
    pub fn new(alloc: Global) -> Self
        ensures value { result ≡ record { hosts = []; table = []; bare = []; index = []; parked = None } }
        // They are the slots of every forest.
        ensures slots { (f : NamedTrees) → AreSlotsOf f result }
    {
        Slots {
            hosts: Vec::new(alloc),
            by_host: KeyMap::new(alloc),
            by_root: KeyMap::new(alloc),
            table: Table::new(alloc),
            bare: Marks::new(alloc),
            index: NameIndex::new(alloc),
            parked: None,
            alloc,
        }
    }

    /// Makes a node the host of a shadow root, which belongs to a component (DOM Standard, concept: attach a shadow
    /// root). Where memory is refused, all is as it was.
    pub fn attach(&mut self, host: Key, root: Key, owner: Owner) -> Result<(), AllocError>
        requires new_host { root_of_host self.old.hosts host ≡ None }
        requires new_root { host_of_root self.old.hosts root ≡ None }
        ensures hosts { OnOk result (self.new.hosts ≡ self.old.hosts ++ record { host = host; root = root; owner = owner } ∷ []) }
        ensures table { OnOk result (self.new.table ≡ self.old.table) }
        // They stay the slots of a forest, if no slot stands in the tree of the root.
        ensures slots { OnOk result ((f : NamedTrees) → StandsOnce f → AreSlotsOf f self.old → host < length f.names → root < length f.names →
            slots_among (subtree f.trees (name_at f.names root)) ≡ [] → AreSlotsOf f self.new) }
        ensures err { OnErr result (self.new ≡ self.old) }
    {
        self.hosts.reserve(1)?;
        self.by_host.reach(host)?;
        self.by_root.reach(root)?;
        self.bare.insert(root)?;
        let _ = self.hosts.push(Attached { host, root, owner });
        self.by_host.set(host, root);
        self.by_root.set(root, host);
        Ok(())
    }

    /// The host of a shadow root, none of another node (DOM Standard, concept: host). It is found without a walk.
    pub fn host_of(&self, root: Key) -> Option<Key>
        ensures { result ≡ host_of_root self.now.hosts root }
    {
        self.by_root.get(root)
    }

    /// The shadow root of a host, none of another node (DOM Standard, concept: shadow root of an element). It is found
    /// without a walk.
    pub fn root_of(&self, host: Key) -> Option<Key>
        ensures { result ≡ root_of_host self.now.hosts host }
    {
        self.by_host.get(host)
    }
}
