//! Which nodes may have an ID (DOM Standard, concept: ID), as far as a table of numbers says it.
ghost use Rattle.std.specs.Prelude.{◌≡◌, ℕ, true, is_some, Option, None, Some, IfOk, OnOk, IsOk, codes};
ghost use Rattle.std.specs.BTreeMap.{get};
ghost use Rattle.std.specs.Ordering.{nat_cmp};
ghost use Rattle.std.specs.Option.{option_map};
ghost use Rattle.dom_model.specs.Names.{text_eq};
ghost use Rattle.dom_model.specs.TreeChanges.{attributes_with, attributes_without};
ghost use Rattle.dom_tree.specs.Contents.{stored_from};
ghost use Rattle.dom_tree.specs.Ids.{bearers_of, only_bearer, id_code, owner_code, MayHave, Widens, Narrows, IsNoteOf, HasRoomFor};

use crate::stored::StoredNode;
use dom_attributes::mix;
use dom_base::{DomStr, Owner};
use node_arena::Key;
use std::alloc::{AllocError, Global};
use std::collections::BTreeMap;

/// Which of an owner's nodes may have an ID.
#[derive(Clone, Copy)]
pub(crate) enum Bearer {
    /// This node, and no other.
    Only(Key),
    /// Any node.
    Several,
}

impl Bearer {
    /// Who may have the ID if this node may have it too.
    fn with(self, key: Key) -> Bearer
        ensures widens { (k : ℕ) → MayHave (Some self) k → MayHave (Some result) k }
        ensures noted { MayHave (Some result) key }
        ensures inside { (k : ℕ) → result ≡ Bearer.Only k → k ≡ key }
    {
        match self {
            Bearer::Only(other) if other.index() == key.index() => Bearer::Only(key),
            _ => Bearer::Several,
        }
    }
}

/// A number for an owner.
#[tactic(auto, using(std::proofs::lemmas::List::Sums::fold_more))]
fn owner_code(owner: Owner) -> u64
    ensures { result ≡ owner_code owner }
{
    let Owner::Component(path) = owner else {
        return 0;
    };
    let mut number = 1;
    for part in &path.parts {
        number = mix(number, *part as u64);
    }
    number
}

/// A number for an ID among an owner's nodes. Others may have the same number.
#[tactic(auto, using(std::proofs::lemmas::List::Sums::fold_more), unfolding(crate::specs::Ids::id_code))]
pub(crate) fn id_code(owner: Owner, id: &[u16]) -> u64
    ensures { result ≡ id_code owner id.now }
{
    let mut number = owner_code(owner);
    for unit in id {
        number = mix(number, *unit as u64);
    }
    number
}

/// Whether an attribute of this name is an ID.
#[inline(always)]
fn is_id(name: &str) -> bool
    ensures { result ≡ text_eq name.now (codes "id") }
{
    name == "id"
}

/// For the number of each ID, who may have it, or that there is room for it. It says more than there is, and never less. The numbers are
/// ordered and not hashed, so that no choice of IDs makes the table slow.
#[derive(Drop)]
pub(crate) struct IdTable {
    bearers: BTreeMap<u64, Option<Bearer>>,
}

impl IdTable {
    /// Nobody has an ID. It takes no memory yet.
    pub(crate) fn new(alloc: Global) -> Self
        ensures { (h : ℕ) → bearers_of result h ≡ None }
    {
        IdTable {
            bearers: BTreeMap::new(alloc),
        }
    }

    /// The only node that may have the ID of this number, if any may; nothing where several may.
    pub(crate) fn only_bearer(&self, number: u64) -> Option<Option<Key>>
        ensures { result ≡ only_bearer (bearers_of self.now number) }
    {
        match self.bearer(number) {
            None => Some(None),
            Some(Bearer::Only(key)) => Some(Some(*key)),
            Some(Bearer::Several) => None,
        }
    }

    /// Who may have the ID of this number, if any may.
    fn bearer(&self, number: u64) -> Option<&Bearer>
        ensures { option_map (λ b. b.now) result ≡ bearers_of self.now number }
    {
        match self.bearers.get(&number) {
            Some(bearer) => bearer.as_ref(),
            None => None,
        }
    }

    /// Makes room for one number more, if one is given.
    #[inline(always)]
    pub(crate) fn make_room(&mut self, number: Option<u64>) -> Result<(), AllocError>
        ensures same { (h : ℕ) → bearers_of self.new h ≡ bearers_of self.old h }
        ensures room { OnOk result (HasRoomFor number self.new) }
    {
        match number {
            Some(number) => self.make_room_for(number),
            None => Ok(()),
        }
    }

    /// Makes room for a number.
    fn make_room_for(&mut self, number: u64) -> Result<(), AllocError>
        ensures same { (h : ℕ) → bearers_of self.new h ≡ bearers_of self.old h }
        ensures room { OnOk result (is_some (get nat_cmp self.new.bearers number) ≡ true) }
    {
        if self.bearers.get(&number).is_none() {
            let _ = self.bearers.insert(number, None)?;
        }
        Ok(())
    }

    /// From now on a node too may have the ID of this number. Where memory is refused, nothing is changed.
    fn note(&mut self, number: u64, key: Key) -> Result<(), AllocError>
        ensures widens { Widens (bearers_of self.old) (bearers_of self.new) key }
        ensures noted { OnOk result (MayHave (bearers_of self.new number) key) }
        ensures succeeds { is_some (get nat_cmp self.old.bearers number) ≡ true → IsOk result }
    {
        let bearer = match self.bearer(number) {
            Some(bearer) => bearer.with(key),
            None => Bearer::Only(key),
        };
        let _ = self.bearers.insert(number, Some(bearer))?;
        Ok(())
    }

    /// From now on a node too may have the ID of this number, if one is given. There is room for it.
    #[inline(always)]
    pub(crate) fn put(&mut self, number: Option<u64>, key: Key)
        requires { HasRoomFor number self.old }
        ensures widens { Widens (bearers_of self.old) (bearers_of self.new) key }
        ensures noted { (h : ℕ) → number ≡ Some h → MayHave (bearers_of self.new h) key }
    {
        if let Some(number) = number {
            let _ = self.note(number, key);
        }
    }

    /// A node, and no other, has the ID of this number no more, if one is given.
    #[inline(always)]
    pub(crate) fn forget(&mut self, number: Option<u64>, key: Key)
        ensures { Narrows number (bearers_of self.old) (bearers_of self.new) key }
    {
        if let Some(number) = number {
            self.forget_number(number, key);
        }
    }

    /// A node, and no other, has the ID of this number no more.
    fn forget_number(&mut self, number: u64, key: Key)
        ensures { Narrows (Some number) (bearers_of self.old) (bearers_of self.new) key }
    {
        if let Some(Bearer::Only(only)) = self.bearer(number)
            && only.index() == key.index()
        {
            let _ = self.bearers.remove(&number);
        }
    }

    /// An attribute of a node is about to get a value. If it is the ID, then the node may have this one from now on. The answer is
    /// the number of the ID that the node has no more once it is set. Where memory is refused, nothing is changed.
    #[inline(always)]
    pub(crate) fn note_value(
        &mut self,
        node: &StoredNode,
        key: Key,
        name: &str,
        value: &DomStr,
    ) -> Result<Option<u64>, AllocError>
        ensures widens { Widens (bearers_of self.old) (bearers_of self.new) key }
        ensures noted { IfOk result (λ left. IsNoteOf (bearers_of self.new) key node.now (stored_from node.now.name
            (record node.now.node { attributes = attributes_with name.now value.now.items node.now.node.attributes })) left) }
    {
        if is_id(name) {
            self.note_id(node, key, name, value)
        } else {
            Ok(None)
        }
    }

    /// The ID of a node is about to get a value, as `note_value` says.
    fn note_id(
        &mut self,
        node: &StoredNode,
        key: Key,
        name: &str,
        value: &DomStr,
    ) -> Result<Option<u64>, AllocError>
        requires { text_eq name.now (codes "id") ≡ true }
        ensures widens { Widens (bearers_of self.old) (bearers_of self.new) key }
        ensures noted { IfOk result (λ left. IsNoteOf (bearers_of self.new) key node.now (stored_from node.now.name
            (record node.now.node { attributes = attributes_with name.now value.now.items node.now.node.attributes })) left) }
    {
        let number = id_code(node.name().owner, value.as_slice());
        self.note(number, key)?;
        match node.id_number() {
            Some(old) if old != number => Ok(Some(old)),
            _ => Ok(None),
        }
    }
}

/// The number of the ID that a node has no more once its attribute of this name is taken away.
#[inline(always)]
pub(crate) fn code_under(node: &StoredNode, name: &str) -> Option<u64>
    ensures { (f : ℕ → Option Bearer) (k : ℕ) → IsNoteOf f k node.now (stored_from node.now.name
        (record node.now.node { attributes = attributes_without name.now node.now.node.attributes })) result }
{
    node.law_attributes_have_own_names();
    if is_id(name) { node.id_number() } else { None }
}
