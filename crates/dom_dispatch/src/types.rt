//! The types of events for which there was a listener.
ghost use Rattle.std.specs.Prelude.{◌≡◌, ℕ, Bool, List, true, string_bytes, OnOk};
ghost use Rattle.std.specs.BTreeSet.{contains_text};
ghost use Rattle.std.specs.List.{list_any};
ghost use Rattle.dom_model.specs.Names.{text_eq};
ghost use Rattle.dom_dispatch.specs.Tables.{has_type, is_noted};

use crate::listeners::is_same_type;
use std::alloc::{AllocError, Global};
use std::collections::BTreeSet;

/// How many types stand in a list, where they are compared one after another.
const MOST: usize = 16;

/// The types of events for which there was a listener: those of capturing listeners, and those of the others. A type stays when its
/// listeners go. Where there was no capturing listener at all, no text is compared to know it.
#[derive(Drop)]
pub(crate) struct Types {
    any_capturing: bool,
    capturing: TypeSet,
    others: TypeSet,
}

/// Some types: the first sixteen in a list, since a few are found soonest one after another, and those that came later in order, so that many
/// cost no more than a search among them.
#[derive(Drop)]
pub(crate) struct TypeSet {
    first: Vec<String>,
    later: BTreeSet<String>,
}

impl Types {
    /// No types. Takes no memory yet.
    pub(crate) fn new(alloc: Global) -> Self {
        Types {
            any_capturing: false,
            capturing: TypeSet::new(alloc),
            others: TypeSet::new(alloc),
        }
    }

    /// Whether there was a listener for events of this type, a capturing one or another one.
    pub(crate) fn contains(&self, event: &str, capturing: bool) -> bool
        ensures { result ≡ is_noted self.now capturing event.now }
    {
        if capturing {
            self.any_capturing && self.capturing.contains(event)
        } else {
            self.others.contains(event)
        }
    }

    /// Adds a type to those of capturing listeners, or to those of the others.
    pub(crate) fn note(
        &mut self,
        alloc: Global,
        event: &str,
        capturing: bool,
    ) -> Result<(), AllocError>
        ensures kept { (either : Bool) (text : List ℕ) → is_noted self.old either text ≡ true → is_noted self.new either text ≡ true }
        ensures noted { OnOk result (is_noted self.new capturing event.now ≡ true) }
    {
        if capturing {
            self.capturing.note(alloc, event)?;
            self.any_capturing = true;
            Ok(())
        } else {
            self.others.note(alloc, event)
        }
    }
}

impl TypeSet {
    /// No types. Takes no memory yet.
    fn new(alloc: Global) -> Self {
        TypeSet {
            first: Vec::new(alloc),
            later: BTreeSet::new(alloc),
        }
    }

    /// Whether a type is among these.
    fn contains(&self, event: &str) -> bool
        ensures { result ≡ has_type self.now event.now }
    {
        is_listed(self.first.as_slice(), event) || self.later.contains(event)
    }

    /// Adds a type, unless it is there.
    fn note(&mut self, alloc: Global, event: &str) -> Result<(), AllocError>
        ensures kept { (text : List ℕ) → has_type self.old text ≡ true → has_type self.new text ≡ true }
        ensures noted { OnOk result (has_type self.new event.now ≡ true) }
    {
        if self.contains(event) {
            return Ok(());
        }
        let text = String::from_str(alloc, event)?;
        if self.first.len() < MOST {
            self.first.push(text)?;
        } else {
            let _ = self.later.insert(text)?;
        }
        Ok(())
    }
}

/// Whether a type is in a list.
fn is_listed(types: &[String], event: &str) -> bool
    ensures { result ≡ list_any (λ text. text_eq (string_bytes text) event.now) types.now }
{
    types.iter().any(|text| is_same_type(text.as_str(), event))
}
