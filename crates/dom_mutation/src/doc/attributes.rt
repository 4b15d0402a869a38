//! Attributes (DOM Standard, 4.9.2 Interface Attr; concepts: change, append, remove an attribute).
ghost use Rattle.std.specs.Prelude.{◌≡◌, ◌↔◌, ◌⊎◌, true, false, OnOk, IfErr};
ghost use Rattle.std.specs.List.{list_all};
ghost use Rattle.dom_base.specs.declared.Refusal.TheVariants.{InvalidCharacter};
ghost use Rattle.dom_model.specs.Names.{begins_name, continues_name, is_name};
ghost use Rattle.dom_model.specs.Changes.{setting_attribute, unsetting_attribute};
ghost use Rattle.dom_model.specs.Tree.{kind_of, is_element};
ghost use Rattle.dom_mutation.specs.Doc.{made, planned, name_in, owner_in, trees_in, HoldsNode};

use crate::Doc;
use crate::parts::Parts;
use crate::settling::given_up;
use dom_base::{DomStr, Fault, Refusal};
use node_arena::Key;
use std::alloc::AllocError;

impl Doc {
    /// Sets an attribute of an element. One that is there keeps its place, and a new one goes last. Refused with
    /// `InvalidCharacter` where the name is none, with nothing changed: it is a letter or `_`, then letters, digits, `-` and `_`
    /// (own rule). Where memory is refused, the document is given up: its keys name no nodes any more.
    pub fn set_attr(&mut self, node: Key, name: &str, value: DomStr) -> Result<(), Fault>
        requires node_is_node { HoldsNode self.old node }
        requires element { is_element (kind_of (trees_in self.old node) (name_in self.old node)) ≡ true }
        ensures refused { (result ≡ Err (Fault.Refused InvalidCharacter)) ↔ (is_name name.now ≡ false) }
        ensures other { IfErr result (λ fault. (fault ≡ Fault.Refused InvalidCharacter) ⊎ (fault ≡ Fault.Memory)) }
        ensures unchanged { is_name name.now ≡ false → self.new ≡ self.old }
        ensures names { OnOk result (self.new.names ≡ self.old.names) }
        ensures world { OnOk result (self.new.world ≡ made (owner_in self.old node)
            (setting_attribute (name_in self.old node) name.now value.items) self.old.world) }
    {
        if !is_name(name.as_bytes()) {
            return Err(Fault::Refused(Refusal::InvalidCharacter));
        }
        self.parts.laws();
        match change_attribute(&mut self.parts, node, name, value) {
            Ok(()) => Ok(()),
            Err(error) => Err(Fault::from(given_up(&mut self.parts, error))),
        }
    }

    /// Takes an attribute away from a node. Without it nothing changes. Where memory is refused, the document is given up: its keys name
    /// no nodes any more.
    pub fn remove_attr(&mut self, node: Key, name: &str) -> Result<(), AllocError>
        requires { HoldsNode self.old node }
        ensures names { OnOk result (self.new.names ≡ self.old.names) }
        ensures world { OnOk result (self.new.world ≡ made (owner_in self.old node) (unsetting_attribute (name_in self.old node) name.now) self.old.world) }
    {
        self.parts.laws();
        match unset_attribute(&mut self.parts, node, name) {
            Ok(()) => Ok(()),
            Err(error) => Err(given_up(&mut self.parts, error)),
        }
    }
}

/// An attribute of an element gets a value, of which observers are told first.
fn change_attribute(
    parts: &mut Parts,
    node: Key,
    name: &str,
    value: DomStr,
) -> Result<(), AllocError>
    requires node_is_node { HoldsNode parts.old node }
    requires element { is_element (kind_of (trees_in parts.old node) (name_in parts.old node)) ≡ true }
    ensures { OnOk result (parts.new ≡ planned (owner_in parts.old node) (setting_attribute (name_in parts.old node) name.now value.items) parts.old) }
{
    parts.laws();
    parts.queue_attribute_record(node, name)?;
    parts.set_attribute(node, name, value)
}

/// An attribute of a node goes, of which observers are told first; without it nothing changes.
fn unset_attribute(parts: &mut Parts, node: Key, name: &str) -> Result<(), AllocError>
    requires { HoldsNode parts.old node }
    ensures { OnOk result (parts.new ≡ planned (owner_in parts.old node) (unsetting_attribute (name_in parts.old node) name.now) parts.old) }
{
    if !parts.has_attr(node, name) {
        return Ok(());
    }
    parts.laws();
    parts.queue_attribute_record(node, name)?;
    parts.unset_attribute(node, name)
}

/// Whether a text is a name of an element or an attribute: a letter or `_`, then letters, digits, `-`, `_` (own rule).
pub fn is_name(text: &[u8]) -> bool
    ensures { result ≡ is_name text.now }
{
    match text {
        [] => false,
        [first, others @ ..] => begins_name(*first) && all_continue_name(others),
    }
}

/// Whether a name can go on with each of these bytes.
fn all_continue_name(bytes: &[u8]) -> bool
    ensures { result ≡ list_all continues_name bytes.now }
{
    bytes.iter().all(|b| continues_name(*b))
}

/// Whether a name can begin with this byte.
fn begins_name(byte: u8) -> bool
    ensures { result ≡ begins_name byte }
{
    byte.is_ascii_alphabetic() || byte == b'_'
}

/// Whether a name can go on with this byte.
fn continues_name(byte: u8) -> bool
    ensures { result ≡ continues_name byte }
{
    begins_name(byte) || byte.is_ascii_digit() || byte == b'-'
}
