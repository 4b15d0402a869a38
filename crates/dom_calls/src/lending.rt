//! The arrays of a call, as they are lent.
ghost use Rattle.std.specs.Prelude.{◌≡◌, OnOk, OnErr, true, None, IsSome, IsTrue, ◌∷◌, []};
ghost use Rattle.dom_calls.specs.Statuses.{is_one_of};
ghost use Rattle.dom_calls.specs.Calls.{Both, HasFailed, told_by};
ghost use Rattle.dom_calls.specs.Lending.{HoldsOn, LendsAt, LendsTo, ShowsAll};

use crate::arrays::{put_attributes, put_nodes, put_rows};
use crate::document::{CLOSED, DONE, DomDocument, MEMORY};
use crate::held::Held;
use crate::structs::{DomAnswer, DomSpan};
use crate::told::put_deliveries;
use dom_base::Fault;
use std::alloc::Global;

impl Held {
    /// Makes the arrays of the last call.
    fn show(&mut self, alloc: Global) -> Result<(), Fault>
        ensures ok { OnOk result (HoldsOn self.old self.new) }
        ensures shows { OnOk result (ShowsAll self.new) }
        ensures err { OnErr result (self.new.has_failed ≡ true) }
    {
        if self.has_failed() {
            return Err(Fault::Memory);
        }
        if self.put_arrays(alloc).is_err() {
            self.fail();
            return Err(Fault::Memory);
        }
        Ok(())
    }

    /// Puts what the last call left into the arrays.
    fn put_arrays(&mut self, alloc: Global) -> Result<(), Fault>
        ensures ok { OnOk result (HoldsOn self.old self.new) }
        ensures shows { OnOk result (ShowsAll self.new) }
    {
        self.shown.units.clear();
        self.shown.units.extend_from_slice(self.answer.units())?;
        self.shown.bytes.clear();
        self.shown.bytes.extend_from_slice(self.answer.bytes())?;
        put_nodes(&mut self.shown.nodes, &self.owners, self.answer.nodes())?;
        put_attributes(&mut self.shown.attributes, self.answer.attributes())?;
        put_rows(
            alloc,
            &mut self.shown.rows,
            &self.owners,
            self.answer.rows(),
        )?;
        let items = if self.has_reply {
            self.answer.deliveries()
        } else {
            self.answer.items()
        };
        put_deliveries(&mut self.shown.deliveries, &self.owners, items)
    }

    /// Where the arrays stand, and how long they are.
    fn arrays(&self) -> DomAnswer
        ensures { LendsAt self.now result }
    {
        DomAnswer {
            deliveries: self.shown.deliveries.as_ptr(),
            delivery_count: self.shown.deliveries.len(),
            nodes: self.shown.nodes.as_ptr(),
            node_count: self.shown.nodes.len(),
            rows: self.shown.rows.as_ptr(),
            row_count: self.shown.rows.len(),
            attributes: self.shown.attributes.as_ptr(),
            attribute_count: self.shown.attributes.len(),
            units: self.shown.units.as_ptr(),
            unit_count: self.shown.units.len(),
            bytes: self.shown.bytes.as_ptr(),
            byte_count: self.shown.bytes.len(),
            called: DomSpan { at: 0, count: 0 },
        }
    }
}

impl DomDocument {
    /// Shows the arrays of the last call: writes down where they stand, and how long they are. They stay so until the next call with this handle.
    pub fn answer(&mut self, alloc: Global, answer: &mut DomAnswer) -> u32
        ensures done { result ≡ DONE → Both (LendsTo answer.new) self.old.held.value self.new.held.value }
        ensures memory { result ≡ MEMORY → IsSome self.old.held.value × HasFailed self.new.held.value }
        ensures closed { result ≡ CLOSED → (self.old.held.value ≡ None) × (self.new.held.value ≡ None) }
        ensures kept { (result ≡ DONE → ⊥) → answer.new ≡ answer.old }
        ensures told { self.new.told ≡ told_by self.new.held.value }
        ensures status { IsTrue (is_one_of result (DONE ∷ MEMORY ∷ CLOSED ∷ [])) }
    {
        let Some(mut held) = self.take(alloc) else {
            return CLOSED;
        };
        let shown = held.show(alloc);
        let arrays = held.arrays();
        self.put(held);
        if shown.is_err() {
            return MEMORY;
        }
        *answer = arrays;
        DONE
    }
}
