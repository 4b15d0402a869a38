//! Which slots may have a name in the tree of a shadow root, as far as a table of numbers says it.
ghost use Rattle.std.specs.Prelude.{◌≡◌, ◌≢◌, ◌⊎◌, ℕ, [], true, Some, OnOk};
ghost use Rattle.dom_slots.specs.Index.{bearer_at, name_code, MayHave};

use dom_attributes::mix;
use node_arena::Key;
use std::alloc::{AllocError, Global};
use std::collections::BTreeMap;

/// Which nodes may have a name.
#[derive(Clone, Copy)]
pub(crate) enum Bearer {
    /// This node, and no other.
    Only(Key),
    /// Any node.
    Several,
}

impl Bearer {
    /// Who may have the name if this node may have it too.
    fn with(self, key: Key) -> Bearer
        ensures widens { (k : ℕ) → MayHave (Some self) k → MayHave (Some result) k }
        ensures noted { MayHave (Some result) key }
        ensures inside { (k : ℕ) → result ≡ Bearer.Only k → k ≡ key }
    {
        match self {
            Bearer::Only(other) if other.index() == key.index() => Bearer::Only(key),
            _ => Bearer::Several,
        }
    }
}

/// A number for a name in the tree of a root. Others may have the same number.
#[tactic(auto, using(std::proofs::lemmas::List::Sums::fold_more), unfolding(crate::specs::Index::name_code))]
fn name_code(root: Key, name: &[u16]) -> u64
    ensures { result ≡ name_code root name.now }
{
    let mut number = root.index() as u64;
    for unit in name {
        number = mix(number, *unit as u64);
    }
    number
}

/// For the number of each name in the tree of a shadow root, who may have it. It says more than there is, and never less. The numbers are
/// ordered and not hashed, so that no choice of names makes it slow.
#[derive(Drop)]
pub(crate) struct NameIndex {
    bearers: BTreeMap<u64, Bearer>,
}

impl NameIndex {
    /// Nobody has a name. It takes no memory yet.
    pub(crate) fn new(alloc: Global) -> Self
        ensures { result.bearers.entries ≡ [] }
    {
        NameIndex {
            bearers: BTreeMap::new(alloc),
        }
    }

    /// Who may have a name in the tree of a root, if anybody may.
    pub(crate) fn bearer(&self, root: Key, name: &[u16]) -> Option<Bearer>
        ensures { result ≡ bearer_at self.now.bearers.entries (name_code root name.now) }
    {
        self.bearers.get(&name_code(root, name)).copied()
    }

    /// Whether a node alone may have a name in the tree of a root.
    pub(crate) fn has_only(&self, root: Key, name: &[u16], key: Key) -> bool
        ensures { result ≡ true → bearer_at self.now.bearers.entries (name_code root name.now) ≡ Some (Bearer.Only key) }
    {
        match self.bearers.get(&name_code(root, name)) {
            Some(Bearer::Only(only)) => only.index() == key.index(),
            _ => false,
        }
    }

    /// From now on a node too may have a name in the tree of a root.
    pub(crate) fn note(&mut self, root: Key, name: &[u16], key: Key) -> Result<(), AllocError>
        ensures kept { (h k : ℕ) → MayHave (bearer_at self.old.bearers.entries h) k → MayHave (bearer_at self.new.bearers.entries h) k }
        ensures inside { (h k : ℕ) → bearer_at self.new.bearers.entries h ≡ Some (Bearer.Only k) →
            (bearer_at self.old.bearers.entries h ≡ Some (Bearer.Only k)) ⊎ (k ≡ key) }
        ensures noted { OnOk result (MayHave (bearer_at self.new.bearers.entries (name_code root name.now)) key) }
    {
        let number = name_code(root, name);
        let bearer = match self.bearers.get(&number) {
            Some(bearer) => bearer.with(key),
            None => Bearer::Only(key),
        };
        let _ = self.bearers.insert(number, bearer)?;
        Ok(())
    }

    /// A node, and no other, has a name in the tree of a root no more.
    pub(crate) fn forget(&mut self, root: Key, name: &[u16], key: Key)
        ensures kept { (h k : ℕ) → k ≢ key → MayHave (bearer_at self.old.bearers.entries h) k → MayHave (bearer_at self.new.bearers.entries h) k }
        ensures inside { (h k : ℕ) → bearer_at self.new.bearers.entries h ≡ Some (Bearer.Only k) →
            bearer_at self.old.bearers.entries h ≡ Some (Bearer.Only k) }
    {
        let number = name_code(root, name);
        if let Some(Bearer::Only(only)) = self.bearers.get(&number)
            && only.index() == key.index()
        {
            let _ = self.bearers.remove(&number);
        }
    }
}
