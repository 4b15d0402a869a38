//! Callers of `node_arena`.
ghost use Rattle.std.specs.Prelude.{◌≡◌, ◌≢◌, ◌<◌, ◌++◌, ◌∷◌, ◌↔◌, [], ℕ, length, IsTrue, IfOk, OnOk, OnErr};
ghost use Rattle.node_arena.specs.Nodes.{IsInclusiveAncestor, children_of, without};
ghost use Rattle.dom_callers.specs.Fronts.{in_front, moved_below, grouped};

use node_arena::{Arena, Key};
use std::alloc::AllocError;

/// Moves a node before all its siblings. A node that stands in no list stays as it is (own rule).
pub fn move_to_front<T>(arena: &mut Arena<T>, key: Key)
    requires { key < length arena.old.payloads }
    ensures { arena.new ≡ record arena.old { children = in_front arena.old.children key } }
{
    let Some(parent) = arena.parent(key) else {
        return;
    };
    arena.unlink(key);
    let first = arena.first(parent);
    arena.link_before(parent, key, first);
}

/// Moves a node with what is below it behind the children of another one, and answers whether it did: a node is not moved below
/// itself (own rule).
pub fn move_below<T>(arena: &mut Arena<T>, key: Key, parent: Key) -> bool
    requires key_is_node { key < length arena.old.payloads }
    requires parent_is_node { parent < length arena.old.payloads }
    ensures asked { IsTrue result ↔ ¬ IsInclusiveAncestor arena.old.children key parent }
    ensures moved { IsTrue result → arena.new ≡ record arena.old { children = moved_below arena.old.children key parent } }
    ensures children { IsTrue result →
        children_of arena.new.children parent ≡ without key (children_of arena.old.children parent) ++ key ∷ [] }
    ensures others { IsTrue result → (k : ℕ) → k ≢ parent →
        children_of arena.new.children k ≡ without key (children_of arena.old.children k) }
    ensures left { ¬ IsTrue result → arena.new ≡ arena.old }
{
    if arena.is_inclusive_ancestor(key, parent) {
        return false;
    }
    arena.unlink(key);
    arena.link_before(parent, key, None);
    true
}

/// Puts a new node in the place of another one, which becomes its child with all that is below it (own rule). Where memory is
/// refused, the arena is as it was.
pub fn group<T>(arena: &mut Arena<T>, key: Key, payload: T) -> Result<Key, AllocError>
where
    T: Drop,
    requires { key < length arena.old.payloads }
    ensures key { IfOk result (λ group. group ≡ length arena.old.payloads) }
    ensures ok { OnOk result (arena.new ≡ record { payloads = arena.old.payloads ++ payload ∷ []; children = grouped arena.old.children key }) }
    ensures err { OnErr result (arena.new ≡ arena.old) }
{
    let group = arena.add(payload)?;
    if let Some(parent) = arena.parent(key) {
        arena.link_before(parent, group, Some(key));
        arena.unlink(key);
    }
    arena.link_before(group, key, None);
    Ok(group)
}
