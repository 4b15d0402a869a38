//! The attributes of a node that has, or had, more than one.
ghost use Rattle.std.specs.Prelude.{◌≡◌, ◌<◌, [], false, slice_get, vec_len, vec_capacity, IfOk, OnOk, OnErr};
ghost use Rattle.std.specs.List.{AllByRecursion};
ghost use Rattle.std.specs.Option.{option_map};
ghost use Rattle.dom_model.specs.Names.{text_eq};
ghost use Rattle.dom_model.specs.TreeChanges.{attributes_with, attributes_without};
ghost use Rattle.dom_attributes.specs.Attributes.{HaveOwnNames, value_among, attribute_from, attributes_from, attributes_under};

use crate::name_index::{NameIndex, forget, index_of, note, place_of};
use crate::shared_names::SharedNames;
use dom_base::DomStr;
use indexmap::IndexMap;
use std::alloc::{AllocError, Global};
use std::marker::Model;
use std::rc::RcStr;

/// How many attributes are compared with a name in turn. If there are more, each is found in an index.
const FEW: usize = 8;

/// Attributes in order, with an index of their names if they are, or were, more than a few.
#[derive(Drop)]
pub(crate) struct SeveralAttributes {
    list: Vec<(RcStr, DomStr)>,
    index: Option<Box<NameIndex>>,
}

impl Model for SeveralAttributes {
    ghost use Rattle.std.specs.Prelude.{List};
    ghost use Rattle.std.specs.Coded.{coded_list};
    ghost use Rattle.dom_model.specs.Codes.{attribute_code};
    ghost use Rattle.dom_model.specs.Tree.{Attribute};
    ghost use Rattle.dom_attributes.specs.Attributes.{attributes_under, AreIndexed};

    ghost Value = { List Attribute };

    ghost coded = { coded_list attribute_code };

    ghost view = { λ a. attributes_under a.list.items };

    ghost invariant = { λ a. AreIndexed a.list.items a.index };
}

impl SeveralAttributes {
    /// The attributes of a map.
    pub(crate) fn of(
        alloc: Global,
        attributes: IndexMap<String, DomStr>,
    ) -> Result<Self, AllocError>
        ensures { IfOk result (λ all. all ≡ attributes_from attributes.entries) }
    {
        let list = list_of(alloc, &attributes)?;
        let index = if list.len() > FEW {
            Some(Box::new(alloc, index_of(alloc, &list)?)?)
        } else {
            None
        };
        Ok(SeveralAttributes { list, index })
    }

    /// No attributes. Takes no memory yet.
    pub(crate) fn new(alloc: Global) -> Self
        ensures { result ≡ [] }
    {
        SeveralAttributes {
            list: Vec::new(alloc),
            index: None,
        }
    }

    /// A few attributes, no two of one name.
    pub(crate) fn of_few(few: Vec<(RcStr, DomStr)>) -> Self
        requires { HaveOwnNames (attributes_under few.items) }
        ensures { result ≡ attributes_under few.items }
    {
        SeveralAttributes {
            list: few,
            index: None,
        }
    }

    /// Holds of all attributes: no two have one name.
    pub(crate) fn law_have_own_names(&self)
        ensures { HaveOwnNames self.now }
    {
        let _ = &self.list;
    }

    /// The value of the attribute of this name, if there is one. It is not in line, since most nodes have one attribute at most.
    #[inline(never)]
    pub(crate) fn get(&self, name: &str) -> Option<&[u16]>
        ensures { option_map (λ value. value.now) result ≡ value_among name.now self.now }
    {
        let place = place_of(&self.list, &self.index, name)?;
        Some(self.list[place].1.as_slice())
    }

    /// The name and the value of the attribute at an index, if there are so many.
    pub(crate) fn get_at(&self, index: usize) -> Option<(&str, &[u16])>
        ensures { option_map (λ a. attribute_from a.0.now a.1.now) result ≡ slice_get self.now index }
    {
        let attribute = self.list.get(index)?;
        Some((attribute.0.as_str(), attribute.1.as_slice()))
    }

    /// Sets the attribute of this name. Where memory is refused, they are as they were.
    pub(crate) fn set(
        &mut self,
        alloc: Global,
        names: &mut SharedNames,
        name: &str,
        value: DomStr,
    ) -> Result<(), AllocError>
        ensures ok { OnOk result (self.new ≡ attributes_with name.now value.items self.old) }
        ensures err { OnErr result (self.new ≡ self.old) }
    {
        match place_of(&self.list, &self.index, name) {
            Some(place) => {
                self.list[place].1 = value;
                Ok(())
            }
            None => self.add(alloc, names, name, value),
        }
    }

    /// Puts an attribute of another name behind the others. Where memory is refused, they are as they were.
    fn add(
        &mut self,
        alloc: Global,
        names: &mut SharedNames,
        name: &str,
        value: DomStr,
    ) -> Result<(), AllocError>
        requires { AllByRecursion (λ b. text_eq name.now b.name ≡ false) self.old }
        ensures ok { OnOk result (self.new ≡ attributes_with name.now value.items self.old) }
        ensures err { OnErr result (self.new ≡ self.old) }
    {
        self.index_many(alloc)?;
        let shared = names.name(name)?;
        make_room(&mut self.list)?;
        if let Some(index) = &mut self.index {
            note(alloc, index, name, self.list.len())?;
        }
        self.list.push_reserved((shared, value));
        Ok(())
    }

    /// Makes an index if there are more than a few with one more.
    fn index_many(&mut self, alloc: Global) -> Result<(), AllocError>
        ensures same { self.new ≡ self.old }
    {
        if self.list.len() >= FEW && self.index.is_none() {
            let index = index_of(alloc, &self.list)?;
            self.index = Some(Box::new(alloc, index)?);
        }
        Ok(())
    }

    /// Takes the attribute of this name away, and gives its value, if there is one.
    pub(crate) fn remove(&mut self, name: &str) -> Option<DomStr>
        ensures value { option_map (λ value. value.items) result ≡ value_among name.now self.old }
        ensures without { self.new ≡ attributes_without name.now self.old }
    {
        let place = place_of(&self.list, &self.index, name)?;
        let (_name, value) = self.list.remove(place);
        if let Some(index) = &mut self.index {
            forget(index, name, place);
        }
        Some(value)
    }
}

/// Makes room for one attribute more. A few have no room to spare.
fn make_room(list: &mut Vec<(RcStr, DomStr)>) -> Result<(), AllocError>
    ensures items { list.new.items ≡ list.old.items }
    ensures room { OnOk result (vec_len list.new < vec_capacity list.new) }
{
    if list.len() < FEW {
        list.reserve_exact(1)
    } else {
        list.reserve(1)
    }
}

/// The attributes of a map in a list.
fn list_of(
    alloc: Global,
    attributes: &IndexMap<String, DomStr>,
) -> Result<Vec<(RcStr, DomStr)>, AllocError>
    ensures list { IfOk result (λ list. attributes_under list.items ≡ attributes_from attributes.now.entries) }
    ensures own { IfOk result (λ list. HaveOwnNames (attributes_under list.items)) }
{
    let mut list = Vec::with_capacity(alloc, attributes.len())?;
    for index in 0..attributes.len() {
        if let Some((name, value)) = attributes.get_index(index) {
            let name = RcStr::from_str(alloc, name.as_str())?;
            list.push((name, Vec::from_slice(alloc, value.as_slice())?))?;
        }
    }
    Ok(list)
}
