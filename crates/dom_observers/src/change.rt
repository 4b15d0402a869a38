//! Changes of nodes, and the records of them.
ghost use Rattle.std.specs.Prelude.{◌≡◌, None, IfOk, option_map, if◌then◌else◌};
ghost use Rattle.dom_model.specs.Observers.{target_of, without_old};
ghost use Rattle.dom_observers.specs.Views.{change_of};

use node_arena::Key;
use smallvec::SmallVec;
use std::alloc::{AllocError, Global};

/// A change of a node (DOM Standard, interface MutationRecord): of its children, with the nodes added, the nodes removed
/// and the siblings around them; of an attribute, with its old value where it had one; or of its data, with the old data.
/// A change that is to be recorded has the old value; a record has it where it was asked for. Up to two nodes that were added or removed
/// stand in line, and so do up to eight code units of an old value.
#[derive(Drop)]
pub enum Change {
    ChildList {
        target: Key,
        added: SmallVec<Key, 2>,
        removed: SmallVec<Key, 2>,
        previous: Option<Key>,
        next: Option<Key>,
    },
    Attributes {
        target: Key,
        name: String,
        old: Option<SmallVec<u16, 8>>,
    },
    CharacterData {
        target: Key,
        old: Option<SmallVec<u16, 8>>,
    },
}

/// What an observer is told of a change (DOM Standard, interface MutationRecord).
pub type Record = Change;

impl Change {
    /// The node that was changed (DOM Standard, MutationRecord's target).
    pub fn target(&self) -> Key
        ensures { result ≡ target_of (change_of self.now) }
    {
        match self {
            Change::ChildList { target, .. } => *target,
            Change::Attributes { target, .. } => *target,
            Change::CharacterData { target, .. } => *target,
        }
    }

    /// A copy as a record, with the old value or without it.
    pub(crate) fn copied(&self, alloc: Global, with_old: bool) -> Result<Record, AllocError>
        ensures { IfOk result (λ r. change_of r ≡ (if with_old then change_of self.now else without_old (change_of self.now))) }
    {
        match self {
            Change::ChildList {
                target,
                added,
                removed,
                previous,
                next,
            } => Ok(Change::ChildList {
                target: *target,
                added: SmallVec::from_slice(alloc, added.as_slice())?,
                removed: SmallVec::from_slice(alloc, removed.as_slice())?,
                previous: *previous,
                next: *next,
            }),
            Change::Attributes { target, name, old } => Ok(Change::Attributes {
                target: *target,
                name: String::from_str(alloc, name.as_str())?,
                old: copied_value(alloc, old, with_old)?,
            }),
            Change::CharacterData { target, old } => Ok(Change::CharacterData {
                target: *target,
                old: copied_value(alloc, old, with_old)?,
            }),
        }
    }

    /// The change itself as a record, with the old value or without it.
    pub(crate) fn recorded(self, with_old: bool) -> Record
        ensures { change_of result ≡ (if with_old then change_of self else without_old (change_of self)) }
    {
        if with_old {
            return self;
        }
        match self {
            Change::Attributes { target, name, .. } => Change::Attributes {
                target,
                name,
                old: None,
            },
            Change::CharacterData { target, .. } => Change::CharacterData { target, old: None },
            other => other,
        }
    }
}

/// A copy of an old value, or none where it is not wanted.
fn copied_value(
    alloc: Global,
    old: &Option<SmallVec<u16, 8>>,
    with_old: bool,
) -> Result<Option<SmallVec<u16, 8>>, AllocError>
    ensures { IfOk result (λ o. option_map (λ s. s.items) o ≡ (if with_old then option_map (λ s. s.items) old.now else None)) }
{
    match old {
        Some(value) if with_old => Ok(Some(SmallVec::from_slice(alloc, value.as_slice())?)),
        _ => Ok(None),
    }
}
