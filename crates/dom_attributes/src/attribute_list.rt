//! The attributes of a node.
ghost use Rattle.std.specs.Prelude.{◌≡◌, ◌∷◌, [], slice_get, IfOk, OnOk, OnErr};
ghost use Rattle.std.specs.Option.{option_map};
ghost use Rattle.dom_model.specs.TreeChanges.{attributes_with, attributes_without};
ghost use Rattle.dom_attributes.specs.Attributes.{HaveOwnNames, value_among, attribute_from, attributes_from};

use crate::several_attributes::SeveralAttributes;
use crate::shared_names::SharedNames;
use crate::texts::is_same_text;
use dom_base::DomStr;
use indexmap::IndexMap;
use std::alloc::{AllocError, Global};
use std::marker::Model;
use std::mem;
use std::rc::RcStr;

/// How the attributes of a node stand. Most nodes that have any have one, which is then found without a list.
#[derive(Drop)]
enum Held {
    Nothing,
    One(RcStr, DomStr),
    Several(Box<SeveralAttributes>),
}

/// The attributes of a node.
pub struct AttributeList {
    held: Held,
}

impl Drop for AttributeList {
    // Written out, so that the crates above cite it, and do not prove again how each field is let go.
    fn drop(self) {
        let Self { held } = self;
    }
}

impl Model for AttributeList {
    ghost use Rattle.std.specs.Prelude.{List};
    ghost use Rattle.std.specs.Coded.{coded_list};
    ghost use Rattle.dom_model.specs.Codes.{attribute_code};
    ghost use Rattle.dom_model.specs.Tree.{Attribute};
    ghost use Rattle.dom_attributes.specs.Held.{attributes_held};

    ghost Value = { List Attribute };

    ghost coded = { coded_list attribute_code };

    ghost view = { λ a. attributes_held a.held };
}

impl AttributeList {
    /// The attributes of a map.
    pub fn of(alloc: Global, attributes: IndexMap<String, DomStr>) -> Result<Self, AllocError>
        ensures { IfOk result (λ list. list ≡ attributes_from attributes.entries) }
    {
        let several = SeveralAttributes::of(alloc, attributes)?;
        Ok(AttributeList {
            held: Held::Several(Box::new(alloc, several)?),
        })
    }

    /// One attribute, whose name comes from the names that are shared.
    pub fn one(names: &mut SharedNames, name: &str, value: DomStr) -> Result<Self, AllocError>
        ensures { IfOk result (λ list. list ≡ attribute_from name.now value.items ∷ []) }
    {
        Ok(AttributeList {
            held: Held::One(names.name(name)?, value),
        })
    }

    /// The value of the attribute of this name, if there is one. One that is alone is found in line.
    #[inline(always)]
    pub fn get(&self, name: &str) -> Option<&[u16]>
        ensures { option_map (λ value. value.now) result ≡ value_among name.now self.now }
    {
        match &self.held {
            Held::Several(several) => several.get(name),
            Held::One(first, value) if is_same_text(name, first.as_str()) => Some(value.as_slice()),
            _ => None,
        }
    }

    /// The name and the value of the attribute at an index, if there are so many.
    pub fn get_at(&self, index: usize) -> Option<(&str, &[u16])>
        ensures { option_map (λ a. attribute_from a.0.now a.1.now) result ≡ slice_get self.now index }
    {
        match &self.held {
            Held::Several(several) => several.get_at(index),
            Held::One(first, value) if index == 0 => Some((first.as_str(), value.as_slice())),
            _ => None,
        }
    }

    /// Holds of every list: no two attributes have one name.
    pub fn law_have_own_names(&self)
        ensures { HaveOwnNames self.now }
    {
        if let Held::Several(several) = &self.held {
            several.law_have_own_names();
        }
    }

    /// Sets the attribute of this name. One that is there keeps its place, and a new one goes last (DOM Standard, concept: set an
    /// attribute value); it gets its name from the names that are shared. Where memory is refused, the list is as it was.
    pub fn set(
        &mut self,
        alloc: Global,
        names: &mut SharedNames,
        name: &str,
        value: DomStr,
    ) -> Result<(), AllocError>
        ensures ok { OnOk result (self.new ≡ attributes_with name.now value.items self.old) }
        ensures err { OnErr result (self.new ≡ self.old) }
    {
        match &mut self.held {
            Held::Nothing => self.held = Held::One(names.name(name)?, value),
            Held::One(first, current) => {
                if is_same_text(name, first.as_str()) {
                    *current = value;
                    return Ok(());
                }
                let (kept, added) = (first.clone()?, names.name(name)?);
                let mut few = Vec::with_capacity(alloc, 2)?;
                let mut several = Box::new(alloc, SeveralAttributes::new(alloc))?;
                let _ = few.push((kept, mem::replace(current, Vec::new(alloc))));
                let _ = few.push((added, value));
                *several = SeveralAttributes::of_few(few);
                self.held = Held::Several(several);
            }
            Held::Several(several) => return several.set(alloc, names, name, value),
        }
        Ok(())
    }

    /// Takes the attribute of this name away, and gives its value, if there is one.
    pub fn remove(&mut self, name: &str) -> Option<DomStr>
        ensures value { option_map (λ value. value.items) result ≡ value_among name.now self.old }
        ensures without { self.new ≡ attributes_without name.now self.old }
    {
        match &mut self.held {
            Held::Several(several) => several.remove(name),
            Held::One(first, _) if is_same_text(name, first.as_str()) => {
                let Held::One(_name, value) = mem::replace(&mut self.held, Held::Nothing) else {
                    return None;
                };
                Some(value)
            }
            _ => None,
        }
    }
}
