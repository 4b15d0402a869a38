//! What a stored node has of its own.
ghost use Rattle.std.specs.Prelude.{◌≡◌, ◌++◌, [], IfOk, OnOk, OnErr};
ghost use Rattle.std.specs.Option.{option_map, option_map_or};
ghost use Rattle.dom_model.specs.TreeChanges.{attributes_with, attributes_without, replaced};
ghost use Rattle.dom_attributes.specs.Attributes.{HaveOwnNames, attributes_from, value_among};
ghost use Rattle.dom_tree.specs.Own.{kind_in, number_in, attributes_in, has_document_in, text_in};

use crate::short_text::ShortText;
use crate::splicing::{splice, spliced_short};
use dom_attributes::{AttributeList, SharedNames};
use dom_base::{DomStr, Kind};
use indexmap::IndexMap;
use std::alloc::{AllocError, Global};
use std::mem;

/// What an owner's node has of its own: its kind, whether it has a node document, its number, its data, and its attributes, in a box,
/// if it ever had some. An enum has its tag beside the fields of its variants, so what is small stands in all variants, where it takes
/// no room. Short data stand in the room that others take for a box and a string.
#[derive(Drop)]
pub(crate) enum Own {
    Short {
        kind: Kind,
        has_document: bool,
        number: u32,
        text: ShortText,
    },
    Long {
        kind: Kind,
        has_document: bool,
        number: u32,
        text: DomStr,
    },
    Attributed {
        kind: Kind,
        has_document: bool,
        number: u32,
        text: DomStr,
        attributes: Box<AttributeList>,
    },
}

impl Own {
    /// Of a node of this kind and number, with these data and the attributes of a map.
    pub(crate) fn of(
        alloc: Global,
        kind: Kind,
        has_document: bool,
        number: u32,
        attributes: IndexMap<String, DomStr>,
        text: DomStr,
    ) -> Result<Self, AllocError>
        ensures kind { IfOk result (λ own. kind_in own ≡ kind) }
        ensures has_document { IfOk result (λ own. has_document_in own ≡ has_document) }
        ensures number { IfOk result (λ own. number_in own ≡ number) }
        ensures attributes { IfOk result (λ own. attributes_in own ≡ attributes_from attributes.entries) }
        ensures text { IfOk result (λ own. text_in own ≡ text.items) }
    {
        if attributes.is_empty() {
            return Ok(Own::bare(kind, has_document, number, text));
        }
        let attributes = boxed_list(alloc, attributes)?;
        Ok(Own::Attributed {
            kind,
            has_document,
            number,
            text,
            attributes,
        })
    }

    /// Of a node of this kind and number, with these data and without attributes.
    #[inline(always)]
    fn bare(kind: Kind, has_document: bool, number: u32, text: DomStr) -> Self
        ensures kind { kind_in result ≡ kind }
        ensures has_document { has_document_in result ≡ has_document }
        ensures number { number_in result ≡ number }
        ensures attributes { attributes_in result ≡ [] }
        ensures text { text_in result ≡ text.items }
    {
        match ShortText::joined(text.as_slice(), &[], &[]) {
            Some(text) => Own::Short {
                kind,
                has_document,
                number,
                text,
            },
            None => Own::Long {
                kind,
                has_document,
                number,
                text,
            },
        }
    }

    /// The kind.
    #[inline(always)]
    pub(crate) fn kind(&self) -> Kind
        ensures { result ≡ kind_in self.now }
    {
        match self {
            Own::Short { kind, .. } | Own::Long { kind, .. } | Own::Attributed { kind, .. } => {
                *kind
            }
        }
    }

    /// Whether it has a node document.
    #[inline(always)]
    pub(crate) fn has_document(&self) -> bool
        ensures { result ≡ has_document_in self.now }
    {
        match self {
            Own::Short { has_document, .. }
            | Own::Long { has_document, .. }
            | Own::Attributed { has_document, .. } => *has_document,
        }
    }

    /// Says whether it has a node document.
    pub(crate) fn set_has_document(&mut self, to: bool)
        ensures kind { kind_in self.new ≡ kind_in self.old }
        ensures has_document { has_document_in self.new ≡ to }
        ensures number { number_in self.new ≡ number_in self.old }
        ensures attributes { attributes_in self.new ≡ attributes_in self.old }
        ensures text { text_in self.new ≡ text_in self.old }
    {
        match self {
            Own::Short { has_document, .. } => *has_document = to,
            Own::Long { has_document, .. } => *has_document = to,
            Own::Attributed { has_document, .. } => *has_document = to,
        }
    }

    /// Sets an attribute. Where memory is refused, all is as it was.
    pub(crate) fn set_attribute(
        &mut self,
        alloc: Global,
        names: &mut SharedNames,
        name: &str,
        value: DomStr,
    ) -> Result<(), AllocError>
        ensures kind { kind_in self.new ≡ kind_in self.old }
        ensures has_document { has_document_in self.new ≡ has_document_in self.old }
        ensures number { number_in self.new ≡ number_in self.old }
        ensures text { text_in self.new ≡ text_in self.old }
        ensures ok { OnOk result (attributes_in self.new ≡ attributes_with name.now value.items (attributes_in self.old)) }
        ensures err { OnErr result (attributes_in self.new ≡ attributes_in self.old) }
    {
        if let Own::Attributed { attributes, .. } = self {
            return attributes.set(alloc, names, name, value);
        }
        let attributes = Box::new(alloc, AttributeList::one(names, name, value)?)?;
        let text = self.take_text(alloc)?;
        *self = Own::Attributed {
            kind: self.kind(),
            has_document: self.has_document(),
            number: self.number(),
            text,
            attributes,
        };
        Ok(())
    }

    /// Takes an attribute away, and gives its value, if there is one of this name.
    pub(crate) fn remove_attribute(&mut self, name: &str) -> Option<DomStr>
        ensures kind { kind_in self.new ≡ kind_in self.old }
        ensures has_document { has_document_in self.new ≡ has_document_in self.old }
        ensures number { number_in self.new ≡ number_in self.old }
        ensures text { text_in self.new ≡ text_in self.old }
        ensures value { option_map (λ value. value.items) result ≡ value_among name.now (attributes_in self.old) }
        ensures without { attributes_in self.new ≡ attributes_without name.now (attributes_in self.old) }
        ensures own_names { HaveOwnNames (attributes_in self.old) }
    {
        match self {
            Own::Attributed { attributes, .. } => {
                attributes.law_have_own_names();
                attributes.remove(name)
            }
            Own::Short { .. } | Own::Long { .. } => None,
        }
    }

    /// The number among the owner's nodes.
    pub(crate) fn number(&self) -> u32
        ensures { result ≡ number_in self.now }
    {
        match self {
            Own::Short { number, .. } | Own::Long { number, .. } | Own::Attributed { number, .. } =>
                *number,
        }
    }

    /// The attributes, if there ever were some.
    #[inline(always)]
    pub(crate) fn attributes(&self) -> Option<&AttributeList>
        ensures { option_map_or (λ list. list.now) result [] ≡ attributes_in self.now }
    {
        match self {
            Own::Short { .. } | Own::Long { .. } => None,
            Own::Attributed { attributes, .. } => Some(attributes),
        }
    }

    /// The data.
    #[inline(always)]
    pub(crate) fn text(&self) -> &[u16]
        ensures { result.now ≡ text_in self.now }
    {
        match self {
            Own::Short { text, .. } => text.as_slice(),
            Own::Long { text, .. } | Own::Attributed { text, .. } => text.as_slice(),
        }
    }

    /// Gives it other data.
    pub(crate) fn set_text(&mut self, text: DomStr)
        ensures kind { kind_in self.new ≡ kind_in self.old }
        ensures has_document { has_document_in self.new ≡ has_document_in self.old }
        ensures number { number_in self.new ≡ number_in self.old }
        ensures attributes { attributes_in self.new ≡ attributes_in self.old }
        ensures text { text_in self.new ≡ text.items }
    {
        if let Own::Attributed { text: current, .. } = self {
            *current = text;
            return;
        }
        *self = Own::bare(self.kind(), self.has_document(), self.number(), text);
    }

    /// From an offset on, so many code units of the data, or as many as there are, give way to others. Short data stay where they are
    /// as long as they are short. Where memory is refused, all is as it was.
    pub(crate) fn replace_text(
        &mut self,
        alloc: Global,
        offset: usize,
        count: usize,
        units: DomStr,
    ) -> Result<(), AllocError>
        ensures kind { kind_in self.new ≡ kind_in self.old }
        ensures has_document { has_document_in self.new ≡ has_document_in self.old }
        ensures number { number_in self.new ≡ number_in self.old }
        ensures attributes { attributes_in self.new ≡ attributes_in self.old }
        ensures ok { OnOk result (text_in self.new ≡ replaced offset count units.items (text_in self.old)) }
        ensures err { OnErr result (text_in self.new ≡ text_in self.old) }
    {
        match self {
            Own::Long { text, .. } => return splice(text, offset, count, units),
            Own::Attributed { text, .. } => return splice(text, offset, count, units),
            Own::Short { text, .. } => {
                if let Some(short) = spliced_short(
                    text.as_slice(),
                    offset,
                    count,
                    units.as_slice(),
                ) {
                    *text = short;
                    return Ok(());
                }
            }
        }
        let mut text = Vec::from_slice(alloc, self.text())?;
        splice(&mut text, offset, count, units)?;
        self.set_text(text);
        Ok(())
    }

    /// Code units come behind the data. Short data stay where they are as long as they are short. Where memory is refused, all is as
    /// it was.
    pub(crate) fn append_text(&mut self, alloc: Global, units: &[u16]) -> Result<(), AllocError>
        ensures kind { kind_in self.new ≡ kind_in self.old }
        ensures has_document { has_document_in self.new ≡ has_document_in self.old }
        ensures number { number_in self.new ≡ number_in self.old }
        ensures attributes { attributes_in self.new ≡ attributes_in self.old }
        ensures ok { OnOk result (text_in self.new ≡ text_in self.old ++ units.now) }
        ensures err { OnErr result (text_in self.new ≡ text_in self.old) }
    {
        match self {
            Own::Long { text, .. } => return text.extend_from_slice(units),
            Own::Attributed { text, .. } => return text.extend_from_slice(units),
            Own::Short { text, .. } => {
                if text.append(units) {
                    return Ok(());
                }
            }
        }
        let mut text = Vec::from_slice(alloc, self.text())?;
        text.extend_from_slice(units)?;
        self.set_text(text);
        Ok(())
    }

    /// The data as a string, which leaves the node without data, if it copies nothing. Where memory is refused, all is as it was.
    fn take_text(&mut self, alloc: Global) -> Result<DomStr, AllocError>
        ensures kind { kind_in self.new ≡ kind_in self.old }
        ensures has_document { has_document_in self.new ≡ has_document_in self.old }
        ensures number { number_in self.new ≡ number_in self.old }
        ensures attributes { attributes_in self.new ≡ attributes_in self.old }
        ensures ok { IfOk result (λ text. text.items ≡ text_in self.old) }
        ensures err { OnErr result (self.new ≡ self.old) }
    {
        match self {
            Own::Short { text, .. } => Vec::from_slice(alloc, text.as_slice()),
            Own::Long { text, .. } => Ok(mem::replace(text, Vec::new(alloc))),
            Own::Attributed { text, .. } => Ok(mem::replace(text, Vec::new(alloc))),
        }
    }
}

/// The attributes of a map, in a box. It is out of line, since most nodes are made without.
#[inline(never)]
fn boxed_list(
    alloc: Global,
    attributes: IndexMap<String, DomStr>,
) -> Result<Box<AttributeList>, AllocError>
    ensures { IfOk result (λ list. list.value ≡ attributes_from attributes.entries) }
{
    Ok(Box::new(alloc, AttributeList::of(alloc, attributes)?)?)
}
