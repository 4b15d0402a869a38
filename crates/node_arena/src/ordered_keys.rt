//! A long list of keys, each once, in which a key is found by one look, and put or removed without moving most others.
ghost use Rattle.std.specs.Prelude.{◌≡◌, ◌≢◌, ◌<◌, ◌≤◌, ◌-◌, ◌^◌, ◌++◌, ◌∷◌, [], ℕ, length, take, true, false, slice_get, slice_set};
ghost use Rattle.std.specs.Prelude.{is_ok, if◌then◌else◌, OnOk, OnErr, Some, None};
ghost use Rattle.std.specs.List.{concat, insert, remove};
ghost use Rattle.std.specs.Option.{ForSome};
ghost use Rattle.node_arena.specs.Nodes.{contains, last_of, place_in, put_before, without};
ghost use Rattle.node_arena.specs.Blocks.{block_of, AreFilled, AreWritten, IsGained, IsNumbered, IsNumberedBelow, IsOnly, IsSplit, IsThere};

use crate::Key;
use crate::block::Block;
use std::alloc::{AllocError, Global};
use std::marker::Model;

/// A block gets so many keys before another one is begun behind it, and is cut in two when it has twice as many.
const FILLED: usize = 32;

/// Keys in order, in blocks. For each key there is the number of the block that has it; what stands there for others
/// means nothing.
#[derive(Drop)]
pub(crate) struct OrderedKeys {
    alloc: Global,
    blocks: Vec<Block>,
    numbers: Vec<usize>,
    count: usize,
}

impl Model for OrderedKeys {
    ghost use Rattle.std.specs.Prelude.{ℕ, List};
    ghost use Rattle.std.specs.List.{concat};

    ghost Value = { List ℕ };

    ghost view = { λ o. concat o.blocks.items };

    ghost use Rattle.node_arena.specs.Blocks.{IsOrdered};

    ghost invariant = { λ o. IsOrdered o.blocks.items o.numbers.items o.count };
}

impl OrderedKeys {
    /// No keys, which take no memory yet.
    pub(crate) fn new(alloc: Global) -> Self
        ensures { result ≡ [] }
    {
        OrderedKeys {
            alloc,
            blocks: Vec::new(alloc),
            numbers: Vec::new(alloc),
            count: 0,
        }
    }

    pub(crate) fn len(&self) -> usize
        ensures { result ≡ length self.now }
    {
        self.count
    }

    pub(crate) fn last(&self) -> Option<Key>
        ensures { result ≡ last_of self.now }
    {
        self.blocks.last()?.last()
    }

    /// Forgets all keys. The numbers stay, and mean nothing.
    pub(crate) fn clear(&mut self)
        ensures { self.new ≡ [] }
    {
        self.blocks.clear();
        self.count = 0;
    }

    /// How many keys stand before a key, where it is there.
    pub(crate) fn find(&self, key: Key) -> Option<usize>
        ensures found { ForSome result (λ i. (contains self.now key ≡ true) × (i ≡ place_in self.now key)) }
        ensures absent { result ≡ None → contains self.now key ≡ false }
    {
        let (number, place) = locate(self.blocks.as_slice(), self.numbers.as_slice(), key)?;
        Some(count_before(self.blocks.as_slice(), number) + place)
    }

    /// The key at a place, if there are so many.
    pub(crate) fn get(&self, place: usize) -> Option<Key>
        ensures { result ≡ slice_get self.now place }
    {
        key_at(self.blocks.as_slice(), place)
    }

    /// Puts a key that is not there behind all others. Where memory is refused, nothing changes.
    pub(crate) fn push(&mut self, key: Key) -> Result<(), AllocError>
        requires { contains self.old key ≡ false }
        ensures { self.new ≡ (if is_ok result then self.old ++ key ∷ [] else self.old) }
    {
        let count = self.count.checked_add(1).ok_or(AllocError)?;
        make_room(&mut self.numbers, key)?;
        push_in(self.alloc, &mut self.blocks, key)?;
        self.numbers[key.index as usize] = self.blocks.len() - 1;
        self.count = count;
        Ok(())
    }

    /// Puts a key that is not there just before another one; where that one is not there, nothing changes, nor where memory
    /// is refused.
    pub(crate) fn put_before(&mut self, key: Key, next: Key) -> Result<(), AllocError>
        requires { contains self.old key ≡ false }
        ensures there { contains self.old next ≡ true →
            self.new ≡ (if is_ok result then put_before self.old key next else self.old) }
        ensures elsewhere { contains self.old next ≡ false → self.new ≡ self.old }
    {
        let Some((number, place)) = locate(self.blocks.as_slice(), self.numbers.as_slice(), next)
        else {
            return Ok(());
        };
        let count = self.count.checked_add(1).ok_or(AllocError)?;
        put_in(&mut self.blocks, &mut self.numbers, key, number, place)?;
        self.count = count;
        Ok(())
    }

    /// Takes a key out, if it is there.
    pub(crate) fn remove(&mut self, key: Key)
        ensures { self.new ≡ without key self.old }
    {
        let Some((number, place)) = locate(self.blocks.as_slice(), self.numbers.as_slice(), key)
        else {
            return;
        };
        self.count -= 1;
        take_from(&mut self.blocks, &mut self.numbers, number, place);
    }
}

/// The number of the block that has a key, and its place there.
fn locate(blocks: &[Block], numbers: &[usize], key: Key) -> Option<(usize, usize)>
    requires { IsNumbered blocks.now numbers.now }
    ensures only { ForSome result (λ at. IsOnly blocks.now at.0 key) }
    ensures place { ForSome result (λ at. at.1 ≡ place_in (block_of blocks.now at.0) key) }
    ensures there { ForSome result (λ at. IsThere blocks.now at.0 at.1) }
    ensures absent { result ≡ None → contains (concat blocks.now) key ≡ false }
{
    let number = *numbers.get(key.index as usize)?;
    let place = blocks.get(number)?.find(key)?;
    Some((number, place))
}

/// How many keys are in the blocks before one.
fn count_before(blocks: &[Block], number: usize) -> usize
    requires number_is_block { number ≤ length blocks.now }
    requires few { length (concat blocks.now) < 2 ^ 64 }
    ensures { result ≡ length (concat (take number blocks.now)) }
{
    let mut count = 0;
    for before in 0..number {
        count += blocks[before].len();
    }
    count
}

/// The key at a place in the blocks, if there are so many.
fn key_at(blocks: &[Block], place: usize) -> Option<Key>
    ensures { result ≡ slice_get (concat blocks.now) place }
{
    let mut left = place;
    for number in 0..blocks.len() {
        let keys = blocks[number].keys();
        if let Some(key) = keys.get(left) {
            return Some(*key);
        }
        left -= keys.len();
    }
    None
}

/// Makes the numbers reach as far as a key.
fn make_room(numbers: &mut Vec<usize>, key: Key) -> Result<(), AllocError>
    ensures reach { OnOk result (key < length numbers.new.items) }
    ensures kept { (k b : ℕ) → slice_get numbers.old.items k ≡ Some b → slice_get numbers.new.items k ≡ Some b }
{
    let count = (key.index as usize).checked_add(1).ok_or(AllocError)?;
    if numbers.len() < count {
        numbers.resize(count, 0)?;
    }
    Ok(())
}

/// Puts a key behind all that are in the blocks: into the last block, or into one more where that is filled.
fn push_in(alloc: Global, blocks: &mut Vec<Block>, key: Key) -> Result<(), AllocError>
    ensures gained { OnOk result (IsGained blocks.old.items blocks.new.items (length blocks.new.items - 1) key) }
    ensures some { OnOk result (0 < length blocks.new.items) }
    ensures keys { OnOk result (concat blocks.new.items ≡ concat blocks.old.items ++ key ∷ []) }
    ensures err { OnErr result (blocks.new.items ≡ blocks.old.items) }
{
    let count = blocks.len();
    if count > 0 && blocks[count - 1].len() < FILLED {
        blocks[count - 1].push(key)?;
        return Ok(());
    }
    let block = Block::of(alloc, key, FILLED)?;
    blocks.push(block)?;
    Ok(())
}

/// Puts a key at a place in a block. Where memory is refused, nothing changes.
fn put_in(
    blocks: &mut Vec<Block>,
    numbers: &mut Vec<usize>,
    key: Key,
    number: usize,
    place: usize,
) -> Result<(), AllocError>
    requires numbered { IsNumbered blocks.old.items numbers.old.items }
    requires filled { AreFilled blocks.old.items }
    requires absent { contains (concat blocks.old.items) key ≡ false }
    requires there { IsThere blocks.old.items number place }
    ensures numbered { IsNumbered blocks.new.items numbers.new.items }
    ensures filled { AreFilled blocks.new.items }
    ensures put { let put = insert (block_of blocks.old.items number) place key in
        OnOk result (concat blocks.new.items ≡ concat (slice_set blocks.old.items number put)) }
    ensures err { OnErr result (blocks.new.items ≡ blocks.old.items) }
{
    make_room(numbers, key)?;
    blocks[number].insert(place, key)?;
    numbers[key.index as usize] = number;
    split_if_full(blocks, numbers, number);
    Ok(())
}

/// Writes the number of a block for each of its keys.
fn number_block(numbers: &mut Vec<usize>, block: &Block, number: usize)
    requires { (k : ℕ) → contains block.now k ≡ true → k < length numbers.old.items }
    ensures { AreWritten numbers.old.items numbers.new.items block.now number }
{
    for key in block.keys() {
        numbers[key.index as usize] = number;
    }
}

/// Writes the numbers of the blocks from one on for their keys.
fn number_from(numbers: &mut Vec<usize>, blocks: &[Block], from: usize)
    requires { IsNumberedBelow blocks.now numbers.old.items from }
    ensures { (b k : ℕ) → contains (block_of blocks.now b) k ≡ true → slice_get numbers.new.items k ≡ Some b }
{
    for number in from..blocks.len() {
        number_block(numbers, &blocks[number], number);
    }
}

/// Cuts a block in two, and leaves the numbers of its keys as they were. Where memory is refused, nothing changes.
fn cut(blocks: &mut Vec<Block>, number: usize) -> Result<(), AllocError>
    requires number_is_block { number < length blocks.old.items }
    requires long { 1 < length (block_of blocks.old.items number) }
    ensures split { OnOk result (IsSplit blocks.old.items blocks.new.items number) }
    ensures err { OnErr result (blocks.new.items ≡ blocks.old.items) }
{
    blocks.reserve(1)?;
    let half = blocks[number].len() / 2;
    let tail = blocks[number].cut(half)?;
    let _ = blocks.insert(number + 1, tail);
    Ok(())
}

/// Makes two blocks of one that is full, where memory allows.
fn split_if_full(blocks: &mut Vec<Block>, numbers: &mut Vec<usize>, number: usize)
    requires numbered { IsNumbered blocks.old.items numbers.old.items }
    requires filled { AreFilled blocks.old.items }
    requires number_is_block { number < length blocks.old.items }
    ensures numbered { IsNumbered blocks.new.items numbers.new.items }
    ensures filled { AreFilled blocks.new.items }
    ensures keys { concat blocks.new.items ≡ concat blocks.old.items }
{
    if blocks[number].len() < 2 * FILLED {
        return;
    }
    let Ok(()) = cut(blocks, number) else {
        return;
    };
    number_from(numbers, blocks.as_slice(), number + 1);
}

/// Takes the key at a place out of a block.
fn take_from(blocks: &mut Vec<Block>, numbers: &mut Vec<usize>, number: usize, place: usize)
    requires numbered { IsNumbered blocks.old.items numbers.old.items }
    requires filled { AreFilled blocks.old.items }
    requires there { IsThere blocks.old.items number place }
    ensures numbered { IsNumbered blocks.new.items numbers.new.items }
    ensures filled { AreFilled blocks.new.items }
    ensures taken { let left = remove (block_of blocks.old.items number) place in
        concat blocks.new.items ≡ concat (slice_set blocks.old.items number left) }
{
    blocks[number].remove(place);
    take_out_if_empty(blocks, numbers, number);
}

/// Takes out a block that has become empty.
fn take_out_if_empty(blocks: &mut Vec<Block>, numbers: &mut Vec<usize>, number: usize)
    requires numbered { IsNumbered blocks.old.items numbers.old.items }
    requires number_is_block { number < length blocks.old.items }
    requires filled { (b : ℕ) → b ≢ number → b < length blocks.old.items → 0 < length (block_of blocks.old.items b) }
    ensures numbered { IsNumbered blocks.new.items numbers.new.items }
    ensures filled { AreFilled blocks.new.items }
    ensures keys { concat blocks.new.items ≡ concat blocks.old.items }
{
    if blocks[number].len() > 0 {
        return;
    }
    let _ = blocks.remove(number);
    number_from(numbers, blocks.as_slice(), number);
}
