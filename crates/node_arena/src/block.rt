//! A few keys in order, which are looked through one by one.
ghost use Rattle.std.specs.Prelude.{◌≡◌, ◌≢◌, ℕ, ◌<◌, ◌≤◌, ◌++◌, ◌∷◌, [], length, take, drop, slice_get, true, false, is_ok, if◌then◌else◌, IfOk, OnErr, OnOk};
ghost use Rattle.std.specs.Prelude.{Some, None};
ghost use Rattle.std.specs.List.{insert, remove};
ghost use Rattle.std.specs.Option.{ForSome};
ghost use Rattle.node_arena.specs.Nodes.{contains, last_of, place_in, IsOnce};

use crate::Key;
use std::alloc::{AllocError, Global};
use std::cell::Cell;
use std::marker::Model;

/// A key is sought first from so many places before the one that was found last.
const NEAR: usize = 4;

/// Keys of one block of a longer list.
#[derive(Drop)]
pub(crate) struct Block {
    keys: Vec<Key>,
    /// The place that was found last.
    found: Cell<usize>,
}

impl Model for Block {
    ghost use Rattle.std.specs.Prelude.{ℕ, List};

    ghost Value = { List ℕ };

    ghost view = { λ b. b.keys.items };
}

impl Block {
    /// A block of one key, with room for so many.
    pub(crate) fn of(alloc: Global, key: Key, room: usize) -> Result<Self, AllocError>
        ensures { IfOk result (λ block. block ≡ key ∷ []) }
    {
        let mut keys = Vec::with_capacity(alloc, room)?;
        keys.push(key)?;
        Ok(Block::with(keys))
    }

    /// A block of these keys.
    fn with(keys: Vec<Key>) -> Self
        ensures { result ≡ keys.items }
    {
        Block {
            keys,
            found: Cell::new(0),
        }
    }

    pub(crate) fn len(&self) -> usize
        ensures { result ≡ length self.now }
    {
        self.keys.len()
    }

    /// The keys as a slice.
    pub(crate) fn keys(&self) -> &[Key]
        ensures { result.now ≡ self.now }
    {
        self.keys.as_slice()
    }

    pub(crate) fn last(&self) -> Option<Key>
        ensures { result ≡ last_of self.now }
    {
        self.keys.last().copied()
    }

    /// The place of a key, where the block has it. The place that was found last is tried first, since a key that is asked for is often
    /// the one that is put before or taken out next.
    pub(crate) fn find(&self, key: Key) -> Option<usize>
        requires once { IsOnce self.now }
        ensures found { ForSome result (λ i. (contains self.now key ≡ true) × (i ≡ place_in self.now key)) }
        ensures within { ForSome result (λ i. i < length self.now) }
        ensures absent { result ≡ None → contains self.now key ≡ false }
    {
        let found = self.found.get();
        match self.keys.get(found) {
            Some(kept) if *kept == key => Some(found),
            _ => self.seek(key),
        }
    }

    /// The place of a key, where the block has it, sought from a little before the place that was found last, and then from the front.
    fn seek(&self, key: Key) -> Option<usize>
        requires once { IsOnce self.now }
        ensures found { ForSome result (λ i. (contains self.now key ≡ true) × (i ≡ place_in self.now key)) }
        ensures within { ForSome result (λ i. i < length self.now) }
        ensures absent { result ≡ None → contains self.now key ≡ false }
    {
        let keys = self.keys();
        let near = self.found.get().saturating_sub(NEAR).min(keys.len());
        let place = match place_among(keys, near, keys.len(), key) {
            Some(place) => place,
            None => place_among(keys, 0, near, key)?,
        };
        self.found.set(place);
        Some(place)
    }

    /// Puts a key behind all others.
    pub(crate) fn push(&mut self, key: Key) -> Result<(), AllocError>
        ensures { self.new ≡ (if is_ok result then self.old ++ key ∷ [] else self.old) }
    {
        self.keys.push(key)?;
        Ok(())
    }

    /// Puts a key at a place, and moves those from there on up.
    pub(crate) fn insert(&mut self, place: usize, key: Key) -> Result<(), AllocError>
        requires { place ≤ length self.old }
        ensures { self.new ≡ (if is_ok result then insert self.old place key else self.old) }
    {
        self.keys.insert(place, key)?;
        Ok(())
    }

    /// Takes the key at a place out.
    pub(crate) fn remove(&mut self, place: usize)
        requires { place < length self.old }
        ensures { self.new ≡ remove self.old place }
    {
        let _ = self.keys.remove(place);
    }

    /// Cuts off the keys from a place on, as a block of their own. Where memory is refused nothing changes.
    pub(crate) fn cut(&mut self, place: usize) -> Result<Block, AllocError>
        requires { place ≤ length self.old }
        ensures left { OnOk result (self.new ≡ take place self.old) }
        ensures cut { IfOk result (λ block. block ≡ drop place self.old) }
        ensures err { OnErr result (self.new ≡ self.old) }
    {
        let keys = self.keys.split_off(place)?;
        Ok(Block::with(keys))
    }
}

/// The place of a key among those from one place to before another.
#[inline(always)]
fn place_among(keys: &[Key], from: usize, to: usize, key: Key) -> Option<usize>
    requires { to ≤ length keys.now }
    ensures found { ForSome result (λ i. slice_get keys.now i ≡ Some key) }
    ensures absent { result ≡ None → (i : ℕ) → from ≤ i → i < to → slice_get keys.now i ≢ Some key }
{
    for place in from..to {
        if keys[place] == key {
            return Some(place);
        }
    }
    None
}
