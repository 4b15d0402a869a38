//! The keys of each owner's nodes, by the nodes' numbers.
ghost use Rattle.std.specs.Prelude.{◌≡◌, ◌≢◌, ◌++◌, ◌∷◌, [], if◌then◌else◌, length, slice_get, OnOk, None};
ghost use Rattle.dom_base.specs.declared.Owner.{Owner as Owners};
ghost use Rattle.dom_base.specs.declared.Owner.TheVariants.{Page};
ghost use Rattle.dom_model.specs.Names.{owner_eq};
ghost use Rattle.dom_tree.specs.Table.{keys_of, HasRoom, StandsAt};

use crate::page_keys::PageKeys;
use dom_base::{NodeName, Owner};
use indexmap::IndexMap;
use node_arena::Key;
use std::alloc::{AllocError, Global};
use std::cell::Cell;

/// The keys of each owner. The page's are found without a search, and that of the component that was asked for last without a
/// hash.
#[derive(Drop)]
pub(crate) struct KeyTable {
    page: PageKeys,
    components: IndexMap<Owner, Vec<Key>>,
    /// The place among `components` that was found last.
    last: Cell<usize>,
    alloc: Global,
}

impl KeyTable {
    /// Lists without keys.
    pub(crate) fn new(alloc: Global) -> Self
        ensures { (o : Owners) → keys_of result o ≡ [] }
    {
        KeyTable {
            page: PageKeys::new(alloc),
            components: IndexMap::new(alloc),
            last: Cell::new(0),
            alloc,
        }
    }

    /// How many keys an owner has.
    pub(crate) fn count(&self, owner: Owner) -> usize
        ensures { result ≡ length (keys_of self.now owner) }
    {
        if matches!(owner, Owner::Page) {
            return self.page.len();
        }
        self.of_component(owner).len()
    }

    /// The keys of an owner, which is not the page.
    fn of_component(&self, owner: Owner) -> &[Key]
        requires { owner ≢ Page }
        ensures { result.now ≡ keys_of self.now owner }
    {
        match self.place(owner) {
            Some(place) => self.components[place].as_slice(),
            None => &[],
        }
    }

    /// The place of an owner's list among those of the components, if it has one. The last that was found is tried first.
    fn place(&self, owner: Owner) -> Option<usize>
        ensures { StandsAt self.now owner result }
    {
        let last = self.last.get();
        if let Some((found, _)) = self.components.get_index(last)
            && *found == owner
        {
            return Some(last);
        }
        let (place, _, _) = self.components.get_full(&owner)?;
        self.last.set(place);
        Some(place)
    }

    /// The key of a name, if its owner has so many. It is in line, so that a look for a node of the page copies no owner.
    #[inline(always)]
    pub(crate) fn find(&self, name: NodeName) -> Option<Key>
        ensures { result ≡ slice_get (keys_of self.now name.owner) name.number }
    {
        if matches!(name.owner, Owner::Page) {
            return self.page.get(name.number);
        }
        self.find_of_component(name)
    }

    /// The key of a name, if its owner, which is not the page, has so many.
    fn find_of_component(&self, name: NodeName) -> Option<Key>
        requires { name.owner ≢ Page }
        ensures { result ≡ slice_get (keys_of self.now name.owner) name.number }
    {
        self.of_component(name.owner)
            .get(name.number as usize)
            .copied()
    }

    /// Makes room for one key more of an owner.
    pub(crate) fn reserve(&mut self, owner: Owner) -> Result<(), AllocError>
        ensures keys { (o : Owners) → keys_of self.new o ≡ keys_of self.old o }
        ensures room { OnOk result (HasRoom self.new owner) }
    {
        match owner {
            Owner::Page => self.page.reserve(),
            Owner::Component(_) => match self.place(owner) {
                Some(place) => self.components.pair_mut(place).1.reserve(1),
                None => self.begin(owner),
            },
        }
    }

    /// Gives a component that has no list one with room for a key.
    fn begin(&mut self, owner: Owner) -> Result<(), AllocError>
        requires component { owner ≢ Page }
        requires none { StandsAt self.old owner None }
        ensures keys { (o : Owners) → keys_of self.new o ≡ keys_of self.old o }
        ensures room { OnOk result (HasRoom self.new owner) }
    {
        let mut keys = Vec::new(self.alloc);
        keys.reserve(1)?;
        let (place, _) = self.components.insert_full(owner, keys)?;
        self.last.set(place);
        Ok(())
    }

    /// Puts a key behind those of an owner, for which there is room.
    pub(crate) fn push(&mut self, owner: Owner, key: Key)
        requires { HasRoom self.old owner }
        ensures { (o : Owners) → keys_of self.new o ≡ (if owner_eq owner o then keys_of self.old o ++ key ∷ [] else keys_of self.old o) }
    {
        match owner {
            Owner::Page => self.page.push(key),
            Owner::Component(_) => {
                if let Some(place) = self.place(owner) {
                    let _ = self.components.pair_mut(place).1.push(key);
                }
            }
        }
    }
}
