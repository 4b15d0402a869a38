//! An answer as values.
ghost use Rattle.std.specs.Prelude.{◌≡◌, ◌++◌, ◌-◌, ◌∷◌, [], length, option_copied, slice_get, take, IfSome, OnOk, OnErr};
ghost use Rattle.std.specs.List.{All};
ghost use Rattle.dom_answers.specs.declared.items.Item.TheVariants.{NoOwner, Says};
ghost use Rattle.dom_answers.specs.Arrays.{IsAttribute, IsItem, IsRow, IsSaid};
ghost use Rattle.dom_answers.specs.Parts.{IsPart, part};
ghost use Rattle.dom_answers.specs.Told.{empty, ShowsText};

use crate::items::{AttributeSpans, Item, Row, Said, Span};
use crate::pools::Pools;
use dom_base::{NodeName, Owner};
use std::alloc::{AllocError, Global};
use std::marker::Model;

/// An answer as values: items, each with the owner that is told. What an item has lies in flat arrays, and the item has the places
/// (`Span::of`). Of a tree it tells what the tree's text tells, which is all but node documents. If memory runs out in a call, it adds no
/// item.
///
/// Owners stand in the items and names themselves, and not in a table. So an answer can be read by itself.
#[derive(Drop)]
pub struct Answer {
    items: Vec<Item>,
    pub(crate) pools: Pools,
    pub(crate) path: Span,
}

impl Model for Answer {
    ghost use Rattle.dom_answers.specs.Told.{Contents, IsSound};

    ghost Value = { Contents };

    ghost view = { λ a. record { items = a.items.items; arrays = a.pools; path = a.path } };

    ghost invariant = { λ a. IsSound (record { items = a.items.items; arrays = a.pools; path = a.path }) };
}

impl Answer {
    /// An answer without items. It takes no memory yet.
    pub fn new(alloc: Global) -> Self
        ensures { result ≡ empty }
    {
        Answer {
            items: Vec::new(alloc),
            pools: Pools::new(alloc),
            path: Span { at: 0, count: 0 },
        }
    }

    /// Removes all items. The memory is kept for the next answer.
    pub fn clear(&mut self)
        ensures { self.new ≡ empty }
    {
        self.items.clear();
        self.path = Span { at: 0, count: 0 };
        self.pools.clear();
    }

    /// The items, in the order in which they came.
    pub fn items(&self) -> &[Item]
        ensures items { result.now ≡ self.now.items }
        ensures within { All (IsItem self.now.arrays) result.now }
    {
        self.items.as_slice()
    }

    /// The last item. In a command's answer it is the reply or refusal.
    pub fn last(&self) -> Option<&Item>
        ensures item { option_copied result ≡ slice_get self.now.items (length self.now.items - 1) }
        ensures within { IfSome (option_copied result) (IsItem self.now.arrays) }
    {
        self.items.last()
    }

    /// All items but the last one. In a command's answer these are what listeners, observers and microtasks are told.
    pub fn deliveries(&self) -> &[Item]
        ensures items { result.now ≡ take (length self.now.items - 1) self.now.items }
        ensures within { All (IsItem self.now.arrays) result.now }
    {
        &self.items[..self.items.len().saturating_sub(1)]
    }

    /// The array of nodes, in which items have places.
    pub fn nodes(&self) -> &[NodeName]
        ensures { result.now ≡ self.now.arrays.nodes }
    {
        self.pools.nodes()
    }

    /// The array of code units, in which items have places.
    pub fn units(&self) -> &[u16]
        ensures { result.now ≡ self.now.arrays.units }
    {
        self.pools.units()
    }

    /// The array of bytes, in which items have places.
    pub fn bytes(&self) -> &[u8]
        ensures { result.now ≡ self.now.arrays.bytes }
    {
        self.pools.bytes()
    }

    /// The array of rows of trees, in which items have places.
    pub fn rows(&self) -> &[Row]
        ensures rows { result.now ≡ self.now.arrays.rows }
        ensures within { All (IsRow self.now.arrays) result.now }
    {
        self.pools.rows()
    }

    /// The array of attributes, in which items have places.
    pub fn attributes(&self) -> &[AttributeSpans]
        ensures attributes { result.now ≡ self.now.arrays.attributes }
        ensures within { All (IsAttribute self.now.arrays) result.now }
    {
        self.pools.attributes()
    }

    /// Adds an item for this owner. Its parts are in the arrays already.
    pub(crate) fn add(&mut self, owner: &Owner, said: Said) -> Result<(), AllocError>
        requires { IsSaid self.old.arrays said }
        ensures ok { OnOk result (self.new ≡ record self.old { items = self.old.items ++ Says owner.now said ∷ [] }) }
        ensures err { OnErr result (self.new ≡ self.old) }
    {
        Ok(self.items.push(Item::Says(*owner, said))?)
    }

    /// Adds the refusal of a line that has no owner.
    pub(crate) fn add_no_owner(&mut self) -> Result<(), AllocError>
        ensures ok { OnOk result (self.new ≡ record self.old { items = self.old.items ++ NoOwner ∷ [] }) }
        ensures err { OnErr result (self.new ≡ self.old) }
    {
        Ok(self.items.push(Item::NoOwner)?)
    }
}

/// The text of what an answer tells is the text of the items that it took. So an answer leaves out nothing that lines say.
pub fn law_text()
    ensures { ShowsText }
{}
