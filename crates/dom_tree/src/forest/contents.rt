//! What nodes hold: their kinds, names of elements, attributes, data and node documents.
ghost use Rattle.std.specs.Prelude.{◌≡◌, ◌≢◌, ◌≤◌, ℕ, Some, None, length, slice_get, IsOk, OnOk, OnErr};
ghost use Rattle.std.specs.Option.{option_map, ForSome};
ghost use Rattle.dom_base.specs.declared.NodeName.{NodeName as Name};
ghost use Rattle.dom_model.specs.Tree.{kind_of, node_in, attribute_value, inclusive_ancestors, children_of};
ghost use Rattle.dom_model.specs.TreeChanges.{change_node, with_text, with_data_replaced, under_document, with_attribute};
ghost use Rattle.dom_attributes.specs.Attributes.{HaveOwnNames, attribute_from};
ghost use Rattle.dom_tree.specs.Forest.{IsNode, name_of};

use crate::Forest;
use crate::ids::code_under;
use crate::short_text::Units;
use dom_base::{DomStr, Kind};
use node_arena::Key;
use std::alloc::AllocError;

impl Forest {
    /// The kind of a node (DOM Standard, interface Node; own rule for a shadow root).
    pub fn kind(&self, key: Key) -> Kind
        requires { IsNode self.now key }
        ensures { result ≡ kind_of self.now.trees (name_of self.now key) }
    {
        self.arena.payload(key).kind()
    }

    /// The local name of an element (DOM Standard, concept: local name).
    pub fn element(&self, key: Key) -> &str
        requires { IsNode self.now key }
        ensures { result.now ≡ (node_in self.now.trees (name_of self.now key)).element }
    {
        self.arena.payload(key).element()
    }

    /// The data of a Text or a Comment, in code units (DOM Standard, concept: data).
    pub fn text(&self, key: Key) -> &[u16]
        requires { IsNode self.now key }
        ensures { result.now ≡ (node_in self.now.trees (name_of self.now key)).text }
    {
        self.arena.payload(key).text()
    }

    /// The node document of a node, none for a document (DOM Standard, concept: node document).
    pub fn document(&self, key: Key) -> Option<Key>
        requires { IsNode self.now key }
        ensures value { option_map (name_of self.now) result ≡ (node_in self.now.trees (name_of self.now key)).document }
        ensures node { ForSome result (IsNode self.now) }
    {
        self.arena.payload(key).document()
    }

    /// Gives one node another node document, or none; the nodes below it keep theirs (DOM Standard, concept: node
    /// document).
    pub fn set_document(&mut self, key: Key, document: Option<Key>)
        requires key_is_node { IsNode self.old key }
        requires document_is_node { ForSome document (IsNode self.old) }
        ensures names { self.new.names ≡ self.old.names }
        ensures trees { self.new.trees ≡ change_node (under_document (option_map (name_of self.old) document)) (name_of self.old key)
            self.old.trees }
        ensures above { (x : Name) → inclusive_ancestors self.new.trees x ≡ inclusive_ancestors self.old.trees x }
        ensures children { (x : Name) → children_of self.new.trees x ≡ children_of self.old.trees x }
        ensures holds { node_in self.new.trees (name_of self.old key) ≡ under_document (option_map (name_of self.old) document)
            (node_in self.old.trees (name_of self.old key)) }
        ensures held { (k : ℕ) → IsNode self.old k → k ≢ key →
            node_in self.new.trees (name_of self.old k) ≡ node_in self.old.trees (name_of self.old k) }
    {
        self.arena.payload_mut(key).set_document(document);
    }

    /// Gives a Text or a Comment other data, in code units (DOM Standard, concept: data).
    pub fn set_data(&mut self, key: Key, text: DomStr)
        requires { IsNode self.old key }
        ensures names { self.new.names ≡ self.old.names }
        ensures trees { self.new.trees ≡ change_node (with_text text.items) (name_of self.old key) self.old.trees }
        ensures above { (x : Name) → inclusive_ancestors self.new.trees x ≡ inclusive_ancestors self.old.trees x }
        ensures children { (x : Name) → children_of self.new.trees x ≡ children_of self.old.trees x }
        ensures holds { node_in self.new.trees (name_of self.old key) ≡ with_text text.items (node_in self.old.trees (name_of self.old key)) }
        ensures held { (k : ℕ) → IsNode self.old k → k ≢ key →
            node_in self.new.trees (name_of self.old k) ≡ node_in self.old.trees (name_of self.old k) }
    {
        self.arena.payload_mut(key).set_text(text);
    }

    /// From an offset on, so many code units of a Text or a Comment, or as many as there are, give way to others (DOM Standard,
    /// concept: replace data). All of them give way without taking memory. Where memory is refused, the forest is as it was.
    pub fn replace_data(
        &mut self,
        key: Key,
        offset: usize,
        count: usize,
        units: DomStr,
    ) -> Result<(), AllocError>
        requires { IsNode self.old key }
        ensures names { self.new.names ≡ self.old.names }
        ensures ok { OnOk result (self.new.trees ≡ change_node (with_data_replaced offset count units.items) (name_of self.old key) self.old.trees) }
        ensures whole { offset ≡ 0 → length (node_in self.old.trees (name_of self.old key)).text ≤ count → IsOk result }
        ensures err { OnErr result (self.new ≡ self.old) }
        ensures above { (x : Name) → inclusive_ancestors self.new.trees x ≡ inclusive_ancestors self.old.trees x }
        ensures children { (x : Name) → children_of self.new.trees x ≡ children_of self.old.trees x }
        ensures holds { OnOk result (node_in self.new.trees (name_of self.old key) ≡ with_data_replaced offset count units.items
            (node_in self.old.trees (name_of self.old key))) }
        ensures held { (k : ℕ) → IsNode self.old k → k ≢ key →
            node_in self.new.trees (name_of self.old k) ≡ node_in self.old.trees (name_of self.old k) }
    {
        let alloc = self.alloc;
        self.arena
            .payload_mut(key)
            .replace_text(alloc, offset, count, units)?;
        Ok(())
    }

    /// The data of another Text or Comment come behind those of one, as where Texts are joined (DOM Standard, normalize()). Where
    /// memory is refused, the forest is as it was.
    pub fn append_data(&mut self, key: Key, of: Key) -> Result<(), AllocError>
        requires key_is_node { IsNode self.old key }
        requires of_is_node { IsNode self.old of }
        ensures names { self.new.names ≡ self.old.names }
        ensures ok { OnOk result (self.new.trees ≡ change_node (with_data_replaced (length (node_in self.old.trees (name_of self.old key)).text) 0
            (node_in self.old.trees (name_of self.old of)).text) (name_of self.old key) self.old.trees) }
        ensures err { OnErr result (self.new ≡ self.old) }
        ensures above { (x : Name) → inclusive_ancestors self.new.trees x ≡ inclusive_ancestors self.old.trees x }
        ensures children { (x : Name) → children_of self.new.trees x ≡ children_of self.old.trees x }
        ensures holds { OnOk result (node_in self.new.trees (name_of self.old key) ≡
            with_data_replaced (length (node_in self.old.trees (name_of self.old key)).text) 0 (node_in self.old.trees (name_of self.old of)).text
            (node_in self.old.trees (name_of self.old key))) }
        ensures held { (k : ℕ) → IsNode self.old k → k ≢ key →
            node_in self.new.trees (name_of self.old k) ≡ node_in self.old.trees (name_of self.old k) }
    {
        let alloc = self.alloc;
        let units = Units::of(alloc, self.arena.payload(of).text())?;
        self.arena
            .payload_mut(key)
            .append_text(alloc, units.as_slice())?;
        Ok(())
    }

    /// The value of an attribute in code units, if there is one of this name (DOM Standard, concept: get an attribute
    /// by name).
    pub fn attr(&self, key: Key, name: &str) -> Option<&[u16]>
        requires { IsNode self.now key }
        ensures { option_map (λ value. value.now) result ≡ attribute_value (node_in self.now.trees (name_of self.now key)) name.now }
    {
        self.arena.payload(key).attribute(name)
    }

    /// The name and the value of the attribute at an index in the attributes' order, if there are so many (DOM
    /// Standard, concept: attribute list).
    pub fn attr_at(&self, key: Key, index: usize) -> Option<(&str, &[u16])>
        requires { IsNode self.now key }
        ensures { option_map (λ a. attribute_from a.0.now a.1.now) result ≡ slice_get (node_in self.now.trees (name_of self.now key)).attributes index }
    {
        self.arena.payload(key).attribute_at(index)
    }

    /// Holds of every node (DOM Standard, concept: attribute list): no two of its attributes have one name.
    pub fn law_attributes_have_own_names(&self, key: Key)
        requires { IsNode self.now key }
        ensures { HaveOwnNames (node_in self.now.trees (name_of self.now key)).attributes }
    {
        self.arena.payload(key).law_attributes_have_own_names();
    }

    /// Sets an attribute to a value in code units. One that is there keeps its place, and a new one goes last (DOM
    /// Standard, concept: set an attribute value). Where memory is refused, the forest is as it was.
    pub fn set_attr(&mut self, key: Key, name: &str, value: DomStr) -> Result<(), AllocError>
        requires { IsNode self.old key }
        ensures names { self.new.names ≡ self.old.names }
        ensures ok { OnOk result (self.new.trees ≡ change_node (with_attribute name.now (Some value.items)) (name_of self.old key) self.old.trees) }
        ensures err { OnErr result (self.new ≡ self.old) }
        ensures above { (x : Name) → inclusive_ancestors self.new.trees x ≡ inclusive_ancestors self.old.trees x }
        ensures children { (x : Name) → children_of self.new.trees x ≡ children_of self.old.trees x }
        ensures holds { OnOk result (node_in self.new.trees (name_of self.old key) ≡ with_attribute name.now (Some value.items)
            (node_in self.old.trees (name_of self.old key))) }
        ensures held { (k : ℕ) → IsNode self.old k → k ≢ key →
            node_in self.new.trees (name_of self.old k) ≡ node_in self.old.trees (name_of self.old k) }
    {
        let node = self.arena.payload(key);
        let left = self.ids.note_value(node, key, name, &value)?;
        let alloc = self.alloc;
        let names = &mut self.attribute_names;
        self.arena
            .payload_mut(key)
            .set_attribute(alloc, names, name, value)?;
        self.ids.forget(left, key);
        Ok(())
    }

    /// Takes an attribute away, and gives its value in code units, if there is one of this name; the others keep
    /// their order (DOM Standard, concept: remove an attribute by name).
    pub fn remove_attr(&mut self, key: Key, name: &str) -> Option<DomStr>
        requires { IsNode self.old key }
        ensures value { option_map (λ value. value.items) result ≡ attribute_value (node_in self.old.trees (name_of self.old key)) name.now }
        ensures names { self.new.names ≡ self.old.names }
        ensures trees { self.new.trees ≡ change_node (with_attribute name.now None) (name_of self.old key) self.old.trees }
        ensures above { (x : Name) → inclusive_ancestors self.new.trees x ≡ inclusive_ancestors self.old.trees x }
        ensures children { (x : Name) → children_of self.new.trees x ≡ children_of self.old.trees x }
        ensures holds { node_in self.new.trees (name_of self.old key) ≡ with_attribute name.now None (node_in self.old.trees (name_of self.old key)) }
        ensures held { (k : ℕ) → IsNode self.old k → k ≢ key →
            node_in self.new.trees (name_of self.old k) ≡ node_in self.old.trees (name_of self.old k) }
    {
        let left = code_under(self.arena.payload(key), name);
        let value = self.arena.payload_mut(key).remove_attribute(name);
        self.ids.forget(left, key);
        value
    }
}
