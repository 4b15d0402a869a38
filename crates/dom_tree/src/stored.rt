//! A node as the arena keeps it.
ghost use Rattle.std.specs.Prelude.{◌≡◌, ◌≤◌, ◌++◌, false, length, slice_get, IfOk, IsOk, OnOk, OnErr};
ghost use Rattle.std.specs.Option.{option_map};
ghost use Rattle.std.specs.Rc.{rc_str_bytes};
ghost use Rattle.dom_model.specs.TreeChanges.{attributes_with, attributes_without, replaced};
ghost use Rattle.dom_attributes.specs.Signs.{MustHave};
ghost use Rattle.dom_attributes.specs.Attributes.{HaveOwnNames, attribute_from, value_among};
ghost use Rattle.dom_tree.specs.Contents.{stored_from};
ghost use Rattle.dom_tree.specs.Forest.{contents_of};
ghost use Rattle.dom_tree.specs.Ids.{code_in};

use crate::data::NodeData;
use crate::ids::id_code;
use crate::own::Own;
use crate::shared::{Kept, Shared, SharedTable};
use dom_attributes::{SharedNames, Signs};
use dom_base::{DomStr, Kind, NodeName, Owner};
use node_arena::Key;
use std::alloc::{AllocError, Global};
use std::marker::Model;
use std::rc::Rc;

/// A node under its name. What it shares with others and its attributes stand elsewhere, since elements are many and
/// attributes few. Its data stand here: `Forest::set_data` asks for no memory, so it can make no box.
#[derive(Drop)]
pub(crate) struct StoredNode {
    shared: Rc<Shared>,
    own: Own,
    /// The node document, if the node has one.
    document: Key,
    signs: Signs,
}

impl Model for StoredNode {
    ghost use Rattle.std.specs.Rc.{rc_str_bytes};
    ghost use Rattle.dom_tree.specs.Contents.{Stored, stored_code};
    ghost use Rattle.dom_attributes.specs.Signs.{Cover};
    ghost use Rattle.dom_tree.specs.Own.{kind_in, number_in, attributes_in, document_in, text_in};

    ghost Value = { Stored };

    ghost coded = { stored_code };

    ghost view = { λ s. record {
      name = record { owner = s.shared.value.owner; number = number_in s.own };
      node = record {
        kind = kind_in s.own;
        element = rc_str_bytes s.shared.value.element;
        attributes = attributes_in s.own;
        text = text_in s.own;
        document = document_in s.own s.document;
      };
    } };

    ghost invariant = { λ s. Cover s.signs (rc_str_bytes s.shared.value.element) (attributes_in s.own) };
}

impl StoredNode {
    /// A node of this name. What it shares with others is found in the table.
    pub(crate) fn of(
        alloc: Global,
        table: &mut SharedTable,
        name: NodeName,
        node: NodeData,
    ) -> Result<Self, AllocError>
        ensures { IfOk result (λ stored. stored ≡ stored_from name (contents_of node)) }
    {
        let NodeData {
            kind,
            element,
            attributes,
            text,
            document,
        } = node;
        let Kept { shared, signs } = table.shared(name.owner, element.as_str())?;
        let signs = signs.with_attributes(&attributes);
        let has_document = document.is_some();
        Ok(StoredNode {
            shared,
            own: Own::of(alloc, kind, has_document, name.number, attributes, text)?,
            document: document.unwrap_or_default(),
            signs,
        })
    }

    /// Its name.
    pub(crate) fn name(&self) -> NodeName
        ensures { result ≡ self.now.name }
    {
        NodeName {
            owner: *self.owner(),
            number: self.number(),
        }
    }

    /// The owner in its name.
    #[inline(always)]
    pub(crate) fn owner(&self) -> &Owner
        ensures { result.now ≡ self.now.name.owner }
    {
        &self.shared.owner
    }

    /// The number in its name.
    #[inline(always)]
    pub(crate) fn number(&self) -> u32
        ensures { result ≡ self.now.name.number }
    {
        self.own.number()
    }

    /// Its kind.
    #[inline(always)]
    pub(crate) fn kind(&self) -> Kind
        ensures { result ≡ self.now.node.kind }
    {
        self.own.kind()
    }

    /// Its local name, empty where it is no element.
    #[inline(always)]
    pub(crate) fn element(&self) -> &str
        ensures { result.now ≡ self.now.node.element }
    {
        self.shared.element.as_str()
    }

    /// Its data.
    #[inline(always)]
    pub(crate) fn text(&self) -> &[u16]
        ensures { result.now ≡ self.now.node.text }
    {
        self.own.text()
    }

    /// Its node document.
    pub(crate) fn document(&self) -> Option<Key>
        ensures { result ≡ self.now.node.document }
    {
        if self.own.has_document() {
            Some(self.document)
        } else {
            None
        }
    }

    /// Whether it may have what these are signs of.
    #[inline(always)]
    pub(crate) fn may_have(&self, signs: Signs) -> bool
        ensures { result ≡ false → MustHave self.now.node.element self.now.node.attributes signs.bits → ⊥ }
    {
        self.signs.have(signs)
    }

    /// The value of its attribute of this name, if there is one.
    #[inline(always)]
    pub(crate) fn attribute(&self, name: &str) -> Option<&[u16]>
        ensures { option_map (λ value. value.now) result ≡ value_among name.now self.now.node.attributes }
    {
        self.own.attributes()?.get(name)
    }

    /// The number of its ID among its owner's nodes, if it has one.
    #[inline(always)]
    pub(crate) fn id_number(&self) -> Option<u64>
        ensures { result ≡ code_in self.now }
    {
        match self.attribute("id") {
            Some(id) => Some(id_code(self.shared.owner, id)),
            None => None,
        }
    }

    /// The name and the value of its attribute at an index, if there are so many.
    pub(crate) fn attribute_at(&self, index: usize) -> Option<(&str, &[u16])>
        ensures { option_map (λ a. attribute_from a.0.now a.1.now) result ≡ slice_get self.now.node.attributes index }
    {
        self.own.attributes()?.get_at(index)
    }

    /// Holds of every node: no two of its attributes have one name.
    pub(crate) fn law_attributes_have_own_names(&self)
        ensures { HaveOwnNames self.now.node.attributes }
    {
        if let Some(attributes) = self.own.attributes() {
            attributes.law_have_own_names();
        }
    }

    /// Gives it another node document, or none.
    pub(crate) fn set_document(&mut self, document: Option<Key>)
        ensures { self.new ≡ stored_from self.old.name (record self.old.node { document = document }) }
    {
        self.own.set_has_document(document.is_some());
        self.document = document.unwrap_or_default();
    }

    /// Gives it other data.
    pub(crate) fn set_text(&mut self, text: DomStr)
        ensures { self.new ≡ stored_from self.old.name (record self.old.node { text = text.items }) }
    {
        self.own.set_text(text);
    }

    /// From an offset on, so many code units of its data, or as many as there are, give way to others, in place. All of them
    /// give way without taking memory. Where memory is refused, the node is as it was.
    pub(crate) fn replace_text(
        &mut self,
        alloc: Global,
        offset: usize,
        count: usize,
        units: DomStr,
    ) -> Result<(), AllocError>
        ensures ok { OnOk result (self.new ≡ stored_from self.old.name
            (record self.old.node { text = replaced offset count units.items self.old.node.text })) }
        ensures whole { offset ≡ 0 → length self.old.node.text ≤ count → IsOk result }
        ensures err { OnErr result (self.new ≡ self.old) }
    {
        if offset == 0 && self.text().len() <= count {
            self.own.set_text(units);
            return Ok(());
        }
        self.own.replace_text(alloc, offset, count, units)
    }

    /// Code units come behind its data. Where memory is refused, the node is as it was.
    pub(crate) fn append_text(&mut self, alloc: Global, units: &[u16]) -> Result<(), AllocError>
        ensures ok { OnOk result (self.new ≡ stored_from self.old.name (record self.old.node { text = self.old.node.text ++ units.now })) }
        ensures err { OnErr result (self.new ≡ self.old) }
    {
        self.own.append_text(alloc, units)
    }

    /// Sets an attribute. Where memory is refused, the node is as it was.
    pub(crate) fn set_attribute(
        &mut self,
        alloc: Global,
        names: &mut SharedNames,
        name: &str,
        value: DomStr,
    ) -> Result<(), AllocError>
        ensures ok { OnOk result (self.new ≡ stored_from self.old.name
            (record self.old.node { attributes = attributes_with name.now value.items self.old.node.attributes })) }
        ensures err { OnErr result (self.new ≡ self.old) }
    {
        let mut signs = self.signs;
        signs.add(name, value.as_slice());
        self.own.set_attribute(alloc, names, name, value)?;
        self.signs = signs;
        Ok(())
    }

    /// Takes an attribute away, and gives its value, if there is one of this name.
    pub(crate) fn remove_attribute(&mut self, name: &str) -> Option<DomStr>
        ensures value { option_map (λ value. value.items) result ≡ value_among name.now self.old.node.attributes }
        ensures without { self.new ≡ stored_from self.old.name
            (record self.old.node { attributes = attributes_without name.now self.old.node.attributes }) }
    {
        self.own.remove_attribute(name)
    }
}
