//! Where each owner's ranges are kept, by the ranges' numbers.
ghost use Rattle.std.specs.Prelude.{◌≡◌, ◌≢◌, ◌<◌, ◌++◌, ◌∷◌, [], if◌then◌else◌, length, slice_get, slice_set, Some, None, OnOk};
ghost use Rattle.std.specs.Option.{option_flatten};
ghost use Rattle.dom_base.specs.declared.Owner.{Owner as Owners};
ghost use Rattle.dom_base.specs.declared.Owner.TheVariants.{Page};
ghost use Rattle.dom_model.specs.Names.{owner_eq};
ghost use Rattle.dom_ranges.specs.RangeSlots.{slots_of, HasRoom, HasList};

use dom_base::Owner;
use std::alloc::{AllocError, Global};
use std::collections::HashMap;

/// A list for each owner: under the number of a range the slot in which it is kept, or none once it is removed. The
/// page's list is found without a search.
#[derive(Drop)]
pub(crate) struct Numbers {
    page: Vec<Option<usize>>,
    components: HashMap<Owner, Vec<Option<usize>>>,
    alloc: Global,
}

impl Numbers {
    /// Lists without ranges.
    pub(crate) fn new(alloc: Global) -> Self
        ensures { (o : Owners) → slots_of result o ≡ [] }
    {
        Numbers {
            page: Vec::new(alloc),
            components: HashMap::new(alloc),
            alloc,
        }
    }

    /// An owner's list.
    pub(crate) fn of(&self, owner: Owner) -> &[Option<usize>]
        ensures { result.now ≡ slots_of self.now owner }
    {
        if matches!(owner, Owner::Page) {
            return self.page.as_slice();
        }
        match self.components.get(&owner) {
            Some(slots) => slots.as_slice(),
            None => &[],
        }
    }

    /// The slot under a number of an owner's list, if there is one.
    pub(crate) fn slot(&self, owner: Owner, number: u32) -> Option<usize>
        ensures { result ≡ option_flatten (slice_get (slots_of self.now owner) number) }
    {
        self.of(owner).get(number as usize).copied().flatten()
    }

    /// Makes room for one range more of an owner.
    pub(crate) fn reserve(&mut self, owner: Owner) -> Result<(), AllocError>
        ensures slots { (o : Owners) → slots_of self.new o ≡ slots_of self.old o }
        ensures room { OnOk result (HasRoom self.new owner) }
    {
        if matches!(owner, Owner::Page) {
            return self.page.reserve(1);
        }
        self.begin(owner)?;
        if let Some(slots) = self.components.get_mut(&owner) {
            slots.reserve(1)?;
        }
        Ok(())
    }

    /// Gives a component a list of slots, without a slot where it had none.
    fn begin(&mut self, owner: Owner) -> Result<(), AllocError>
        requires component { owner ≢ Page }
        ensures slots { (o : Owners) → slots_of self.new o ≡ slots_of self.old o }
        ensures list { OnOk result (HasList self.new owner) }
    {
        if !self.components.contains_key(&owner) {
            let _ = self.components.insert(owner, Vec::new(self.alloc))?;
        }
        Ok(())
    }

    /// Puts a slot behind those of an owner, for which there is room.
    pub(crate) fn push(&mut self, owner: Owner, slot: usize)
        requires { HasRoom self.old owner }
        ensures { (o : Owners) → slots_of self.new o ≡ (if owner_eq owner o then slots_of self.old o ++ Some slot ∷ [] else slots_of self.old o) }
    {
        if matches!(owner, Owner::Page) {
            let _ = self.page.push(Some(slot));
        } else if let Some(slots) = self.components.get_mut(&owner) {
            let _ = slots.push(Some(slot));
        }
    }

    /// Leaves none under a number of an owner's list.
    pub(crate) fn clear(&mut self, owner: Owner, number: u32)
        requires { number < length (slots_of self.old owner) }
        ensures { (o : Owners) → slots_of self.new o ≡ (if owner_eq owner o then slice_set (slots_of self.old o) number None else slots_of self.old o) }
    {
        if matches!(owner, Owner::Page) {
            self.page[number as usize] = None;
        } else if let Some(slots) = self.components.get_mut(&owner) {
            slots[number as usize] = None;
        }
    }
}
