//! Where each node's listeners stand in a table.
ghost use Rattle.std.specs.Prelude.{◌≡◌, ℕ, List, ◌<◌, ◌&&◌, [], nat_eq, not, length, filter, slice_get, OnOk, OnErr};
ghost use Rattle.std.specs.Option.{option_map};
ghost use Rattle.dom_model.specs.Names.{text_eq};
ghost use Rattle.dom_dispatch.specs.Tables.{places_at, MayPut};

use crate::place_list::PlaceList;
use node_arena::Key;
use std::alloc::{AllocError, Global};

/// A list of places for each node, empty where it was not given any. They stand by the numbers of the nodes, and are found without a
/// hash.
#[derive(Drop)]
pub(crate) struct Places {
    rows: Vec<PlaceList>,
}

impl Places {
    /// No places. Takes no memory yet.
    pub(crate) fn new(alloc: Global) -> Self
        ensures { (k : ℕ) (t : List ℕ) → places_at result k t ≡ [] }
    {
        Places {
            rows: Vec::new(alloc),
        }
    }

    /// The list of a node, if it has one here.
    #[inline(always)]
    pub(crate) fn of(&self, node: Key) -> Option<&PlaceList>
        ensures { option_map (λ list. list.now) result ≡ slice_get self.now.rows.items node }
    {
        self.rows.get(node.index())
    }

    /// How many nodes have a list here, empty or not.
    pub(crate) fn count(&self) -> usize {
        self.rows.len()
    }

    /// Puts the place of a listener of this type behind the others of a node. Where memory is refused, each list is as it was.
    pub(crate) fn push(&mut self, node: Key, event: &str, place: usize) -> Result<(), AllocError>
        ensures ok { OnOk result ((k : ℕ) (t : List ℕ) →
            MayPut (nat_eq node k && text_eq event.now t) place (places_at self.old k t) (places_at self.new k t)) }
        ensures err { OnErr result ((k : ℕ) (t : List ℕ) → places_at self.new k t ≡ places_at self.old k t) }
    {
        self.reach(node)?;
        self.push_there(node, event, place)
    }

    /// Puts a place behind the others of a node that has a list here.
    fn push_there(&mut self, node: Key, event: &str, place: usize) -> Result<(), AllocError>
        requires { node < length self.old.rows.items }
        ensures ok { OnOk result ((k : ℕ) (t : List ℕ) →
            MayPut (nat_eq node k && text_eq event.now t) place (places_at self.old k t) (places_at self.new k t)) }
        ensures err { OnErr result ((k : ℕ) (t : List ℕ) → places_at self.new k t ≡ places_at self.old k t) }
    {
        let alloc = *self.rows.allocator();
        self.rows[node.index()].push(alloc, event, place)
    }

    /// Makes a list for a node, where there is none. Where memory is refused, each list is as it was.
    fn reach(&mut self, node: Key) -> Result<(), AllocError>
        ensures places { (k : ℕ) (t : List ℕ) → places_at self.new k t ≡ places_at self.old k t }
        ensures there { OnOk result (node < length self.new.rows.items) }
    {
        let lists = node.index().checked_add(1).ok_or(AllocError)?;
        for _ in self.rows.len()..lists {
            self.rows.push(PlaceList::Empty)?;
        }
        Ok(())
    }

    /// Takes the place of a listener of this type out of the list of a node.
    pub(crate) fn remove(&mut self, node: Key, event: &str, place: usize)
        ensures gone { places_at self.new node event.now ≡ filter (λ j. not (nat_eq j place)) (places_at self.old node event.now) }
        ensures others { (k : ℕ) (t : List ℕ) →
            filter (λ j. not (nat_eq j place)) (places_at self.new k t) ≡ filter (λ j. not (nat_eq j place)) (places_at self.old k t) }
    {
        if let Some(list) = self.rows.get_mut(node.index()) {
            list.remove(event, place);
        }
    }
}
