//! The keys of the page's nodes, by their numbers.
ghost use Rattle.std.specs.Prelude.{◌≡◌, ◌<◌, ◌+◌, ◌++◌, ◌∷◌, [], length, slice_get, IfSome, OnOk};
ghost use Rattle.std.specs.Vec.{vec_len, vec_capacity};
ghost use Rattle.dom_tree.specs.PageKeys.{page_keys, HasRoom};

use node_arena::Key;
use std::alloc::{AllocError, Global};

/// The keys of the page's nodes. The first are the nodes' own numbers, as long as no component has made a node: only their count is
/// kept. The others stand in a list.
#[derive(Drop)]
pub(crate) struct PageKeys {
    first: u32,
    others: Vec<Key>,
}

impl PageKeys {
    /// No keys.
    pub(crate) fn new(alloc: Global) -> Self
        ensures { page_keys result ≡ [] }
    {
        PageKeys {
            first: 0,
            others: Vec::new(alloc),
        }
    }

    /// How many they are.
    pub(crate) fn len(&self) -> usize
        ensures { result ≡ length (page_keys self.now) }
    {
        self.first as usize + self.others.as_slice().len()
    }

    /// The key of this number, if they are so many.
    #[inline(always)]
    pub(crate) fn get(&self, number: u32) -> Option<Key>
        ensures { result ≡ slice_get (page_keys self.now) number }
    {
        if number < self.first {
            return Some(Key::of(number));
        }
        self.other(number - self.first)
    }

    /// The key at a place in the list, if it has so many.
    #[inline(always)]
    fn other(&self, place: u32) -> Option<Key>
        ensures { result ≡ slice_get self.now.others.items place }
    {
        self.others.as_slice().get(place as usize).copied()
    }

    /// Makes room for one key more.
    pub(crate) fn reserve(&mut self) -> Result<(), AllocError>
        ensures keys { page_keys self.new ≡ page_keys self.old }
        ensures room { OnOk result (HasRoom self.new) }
    {
        self.others.reserve(1)
    }

    /// How many the first keys are with this one, if it is its own number too, and comes behind no other key.
    #[inline(always)]
    fn counted_with(&self, key: Key) -> Option<u32>
        ensures count { IfSome result (λ count. count ≡ self.now.first + 1) }
        ensures number { IfSome result (λ _. key ≡ self.now.first) }
        ensures others { IfSome result (λ _. self.now.others.items ≡ []) }
    {
        if !self.others.is_empty() || key != Key::of(self.first) {
            return None;
        }
        self.first.checked_add(1)
    }

    /// Puts a key behind the others, for which there is room.
    pub(crate) fn push(&mut self, key: Key)
        requires { HasRoom self.old }
        ensures { page_keys self.new ≡ page_keys self.old ++ key ∷ [] }
    {
        match self.counted_with(key) {
            Some(count) => self.first = count,
            None => {
                let _ = self.others.push(key);
            }
        }
    }
}
