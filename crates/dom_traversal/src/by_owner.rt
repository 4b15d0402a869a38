//! The tables of each owner.
ghost use Rattle.std.specs.Prelude.{◌≡◌, IsSome, OnOk, OnErr};
ghost use Rattle.std.specs.Borrow.{sem};
ghost use Rattle.std.specs.Option.{option_map};
ghost use Rattle.dom_base.specs.declared.Owner.{Owner as Owners};
ghost use Rattle.dom_traversal.specs.OwnTables.{no_keyed_tables};

use crate::tables::OwnTables;
use dom_base::Owner;
use std::alloc::{AllocError, Global};
use std::collections::HashMap;

/// The tables of the page, and of each component that has had a cursor. The page's are found without a hash.
#[derive(Drop)]
pub(crate) struct ByOwner {
    page: OwnTables,
    components: HashMap<Owner, OwnTables>,
    alloc: Global,
}

impl ByOwner {
    ghost use Rattle.dom_traversal.specs.ByOwner.{table_at, cursors_in, lends_table};

    /// No owner has a cursor. Takes no memory yet.
    pub(crate) fn new(alloc: Global) -> Self
        ensures { (o : Owners) → cursors_in result o ≡ no_keyed_tables }
    {
        ByOwner {
            page: OwnTables::new(alloc),
            components: HashMap::new(alloc),
            alloc,
        }
    }

    /// An owner's tables, if it has some. Where no component has, there is no look-up.
    #[inline(always)]
    pub(crate) fn get(&self, owner: &Owner) -> Option<&OwnTables>
        ensures { option_map (λ t. t.now) result ≡ table_at self.now owner.now }
    {
        match owner {
            Owner::Page => Some(&self.page),
            Owner::Component(_) => {
                if self.components.is_empty() {
                    return None;
                }
                self.components.get(owner)
            }
        }
    }

    /// An owner's tables for a change of them, if it has some. Where no component has, there is no look-up.
    #[inline(always)]
    pub(crate) fn get_mut(&mut self, owner: &Owner) -> Option<&mut OwnTables>
        ensures* lends { sem 𝓛 (lends_table self.entry owner.now result) }
        ensures value { option_map (λ t. t.now) result ≡ table_at self.old owner.now }
    {
        match owner {
            Owner::Page => Some(&mut self.page),
            Owner::Component(_) => {
                if self.components.is_empty() {
                    return None;
                }
                self.components.get_mut(owner)
            }
        }
    }

    /// Makes an owner's tables where there are none.
    pub(crate) fn prepare(&mut self, owner: Owner) -> Result<(), AllocError>
        ensures keeps { cursors_in self.new ≡ cursors_in self.old }
        ensures there { OnOk result (IsSome (table_at self.new owner)) }
        ensures none { OnErr result (cursors_in self.old owner ≡ no_keyed_tables) }
    {
        if self.get(&owner).is_some() {
            return Ok(());
        }
        let _ = self.components.insert(owner, OwnTables::new(self.alloc))?;
        Ok(())
    }
}
