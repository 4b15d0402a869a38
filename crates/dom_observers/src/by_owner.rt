//! The table of each owner.
ghost use Rattle.std.specs.Prelude.{◌≡◌, ◌≢◌, IsSome, OnOk, OnErr};
ghost use Rattle.std.specs.Borrow.{sem};
ghost use Rattle.std.specs.Option.{option_map};
ghost use Rattle.dom_base.specs.declared.Owner.{Owner as Owners};
ghost use Rattle.dom_base.specs.declared.Owner.TheVariants.{Page};
ghost use Rattle.dom_observers.specs.Tables.{no_tables};

use crate::table::Table;
use dom_base::Owner;
use std::alloc::{AllocError, Global};
use std::collections::HashMap;

/// The tables of the page, and of each component that has had an observer. The page's is found without a hash.
#[derive(Drop)]
pub struct ByOwner {
    page: Table,
    components: HashMap<Owner, Table>,
    alloc: Global,
}

impl ByOwner {
    ghost use Rattle.dom_observers.specs.ByOwner.{table_at, tables_in, lends_table};

    /// No owner has an observer. Takes no memory yet.
    pub(crate) fn new(alloc: Global) -> Self
        ensures { (o : Owners) → tables_in result o ≡ no_tables }
    {
        ByOwner {
            page: Table::new(alloc),
            components: HashMap::new(alloc),
            alloc,
        }
    }

    /// An owner's table, if it has one. Where no component has, there is no look-up.
    #[inline(always)]
    pub(crate) fn get(&self, owner: &Owner) -> Option<&Table>
        ensures { option_map (λ t. t.now) result ≡ table_at self.now owner.now }
    {
        match owner {
            Owner::Page => Some(&self.page),
            Owner::Component(_) => {
                if self.components.is_empty() {
                    return None;
                }
                self.of_component(owner)
            }
        }
    }

    /// A component's table, if it has one. It is kept out of line, so that what asks about the page is short.
    #[inline(never)]
    fn of_component(&self, component: &Owner) -> Option<&Table>
        requires { component.now ≢ Page }
        ensures { option_map (λ t. t.now) result ≡ table_at self.now component.now }
    {
        self.components.get(component)
    }

    /// An owner's table for a change of it, if it has one. Where no component has, there is no look-up.
    #[inline(always)]
    pub(crate) fn get_mut(&mut self, owner: &Owner) -> Option<&mut Table>
        ensures* lends { sem 𝓛 (lends_table self.entry owner.now result) }
        ensures value { option_map (λ t. t.now) result ≡ table_at self.old owner.now }
    {
        match owner {
            Owner::Page => Some(&mut self.page),
            Owner::Component(_) => {
                if self.components.is_empty() {
                    return None;
                }
                self.components.get_mut(owner)
            }
        }
    }

    /// Makes an owner's table where there is none.
    pub(crate) fn prepare(&mut self, owner: Owner) -> Result<(), AllocError>
        ensures keeps { (o : Owners) → tables_in self.new o ≡ tables_in self.old o }
        ensures there { OnOk result (IsSome (table_at self.new owner)) }
        ensures none { OnErr result (tables_in self.old owner ≡ no_tables) }
    {
        if self.get(&owner).is_some() {
            return Ok(());
        }
        drop(self.components.insert(owner, Table::new(self.alloc))?);
        Ok(())
    }
}
