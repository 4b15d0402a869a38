//! A list of nodes for each node.
ghost use Rattle.std.specs.Prelude.{◌≡◌, ℕ, ◌≤◌, ◌<◌, ◌+◌, ◌-◌, [], length, nat_eq, option_map, if◌then◌else◌, OnOk, OnErr};
ghost use Rattle.std.specs.List.{insert as inserted, position};
ghost use Rattle.std.specs.Option.{ForSome};
ghost use Rattle.dom_model.specs.Names.{is_in};
ghost use Rattle.node_arena.specs.Nodes.{insert_before, without};
ghost use Rattle.dom_slots.specs.KeyMaps.{list_at, IsSingle};

use node_arena::Key;
use std::alloc::{AllocError, Global};

/// Up to so many nodes a list is short.
const FEW: usize = 16;

/// A list of nodes for each node, empty where it was not given any. They stand by the numbers of the nodes, and are found without
/// a hash.
#[derive(Drop)]
pub(crate) struct KeyLists {
    rows: Vec<Vec<Key>>,
}

impl KeyLists {
    /// Empty lists. Takes no memory yet.
    pub(crate) fn new(alloc: Global) -> Self
        ensures { result.rows.items ≡ [] }
    {
        KeyLists {
            rows: Vec::new(alloc),
        }
    }

    /// The list of a node.
    pub(crate) fn of(&self, key: Key) -> &[Key]
        ensures { result.now ≡ list_at self.now.rows.items key }
    {
        match self.rows.get(key.index()) {
            Some(list) => list.as_slice(),
            None => &[],
        }
    }

    /// Takes a node, which stands there at most once, out of the list of another one, and tells whether it stood there.
    pub(crate) fn take_out(&mut self, key: Key, node: Key) -> bool
        requires { IsSingle (list_at self.old.rows.items key) }
        ensures stood { result ≡ is_in nat_eq node (list_at self.old.rows.items key) }
        ensures lists { (k : ℕ) → list_at self.new.rows.items k ≡
            (if nat_eq key k then without node (list_at self.old.rows.items k) else list_at self.old.rows.items k) }
    {
        if self.rows.len() <= key.index() {
            return false;
        }
        remove_from(&mut self.rows[key.index()], node)
    }

    /// Takes a node out of the list of another one, however often it stands there. The whole list is gone through.
    pub(crate) fn take_all_out(&mut self, key: Key, node: Key)
        ensures { (k : ℕ) → list_at self.new.rows.items k ≡
            (if nat_eq key k then without node (list_at self.old.rows.items k) else list_at self.old.rows.items k) }
    {
        if key.index() < self.rows.len() {
            remove_all_from(&mut self.rows[key.index()], node);
        }
    }

    /// Puts a node into the list of another one, just before one of its nodes or last. Where memory is refused, each list is as
    /// it was.
    pub(crate) fn put(
        &mut self,
        alloc: Global,
        key: Key,
        node: Key,
        before: Option<Key>,
    ) -> Result<(), AllocError>
        ensures ok { OnOk result ((k : ℕ) → list_at self.new.rows.items k ≡
            (if nat_eq key k then insert_before (list_at self.old.rows.items k) node before else list_at self.old.rows.items k)) }
        ensures err { OnErr result ((k : ℕ) → list_at self.new.rows.items k ≡ list_at self.old.rows.items k) }
    {
        self.reach(alloc, key)?;
        self.put_there(key, node, before)
    }

    /// Puts a node into the list of another one that has a place.
    fn put_there(&mut self, key: Key, node: Key, before: Option<Key>) -> Result<(), AllocError>
        requires { key < length self.old.rows.items }
        ensures ok { OnOk result ((k : ℕ) → list_at self.new.rows.items k ≡
            (if nat_eq key k then insert_before (list_at self.old.rows.items k) node before else list_at self.old.rows.items k)) }
        ensures err { OnErr result ((k : ℕ) → list_at self.new.rows.items k ≡ list_at self.old.rows.items k) }
    {
        let list = &mut self.rows[key.index()];
        let at = place_of(list, before);
        list.insert(at, node)?;
        Ok(())
    }

    /// Gives a node its list. Where memory is refused, each list is as it was.
    pub(crate) fn set(&mut self, alloc: Global, key: Key, list: Vec<Key>) -> Result<(), AllocError>
        ensures ok { OnOk result ((k : ℕ) → list_at self.new.rows.items k ≡ (if nat_eq key k then list.items else list_at self.old.rows.items k)) }
        ensures err { OnErr result ((k : ℕ) → list_at self.new.rows.items k ≡ list_at self.old.rows.items k) }
    {
        self.reach(alloc, key)?;
        self.rows[key.index()] = list;
        Ok(())
    }

    /// Makes a place for a node, where there is none.
    fn reach(&mut self, alloc: Global, key: Key) -> Result<(), AllocError>
        ensures lists { (k : ℕ) → list_at self.new.rows.items k ≡ list_at self.old.rows.items k }
        ensures there { OnOk result (key < length self.new.rows.items) }
    {
        let places = key.index().checked_add(1).ok_or(AllocError)?;
        for _ in self.rows.len()..places {
            self.rows.push(Vec::new(alloc))?;
        }
        Ok(())
    }
}

/// Takes a node, which stands there at most once, out of a list, and tells whether it stood there. A short list is gone through once,
/// and a longer one is looked through up to the node.
fn remove_from(list: &mut Vec<Key>, node: Key) -> bool
    requires { IsSingle list.old.items }
    ensures stood { result ≡ is_in nat_eq node list.old.items }
    ensures list { list.new.items ≡ without node list.old.items }
{
    let length = list.len();
    if length <= FEW {
        remove_all_from(list, node);
        return list.len() < length;
    }
    match position_of(list, node) {
        Some(at) => {
            let _ = list.remove(at);
            true
        }
        None => false,
    }
}

/// Takes a node out of a list, however often it stands there.
fn remove_all_from(list: &mut Vec<Key>, node: Key)
    ensures { list.new.items ≡ without node list.old.items }
{
    list.retain(|other| *other != node);
}

/// The place just before a node of a list, or behind all.
fn place_of(list: &[Key], before: Option<Key>) -> usize
    ensures within { result ≤ length list.now }
    ensures place { (node : ℕ) → inserted list.now result node ≡ insert_before list.now node before }
{
    let end = list.len();
    match before {
        Some(key) => position_of(list, key).unwrap_or(end),
        None => end,
    }
}

/// The place of a node in a list.
fn position_of(list: &[Key], node: Key) -> Option<usize>
    ensures { result ≡ position (λ other. nat_eq other node) list.now }
{
    let rest = behind_others(list, node);
    let at = place_among(rest, node)?;
    Some(list.len() - rest.len() + at)
}

/// The place of a node in a list, of which one node is looked at in each turn.
fn place_among(list: &[Key], node: Key) -> Option<usize>
    ensures place { result ≡ position (λ other. nat_eq other node) list.now }
    ensures within { ForSome result (λ at. at < length list.now) }
{
    list.iter().position(|other| *other == node)
}

/// What is left of a list behind nodes at its front that are other ones. Four are looked at in each turn.
fn behind_others(mut list: &[Key], node: Key) -> &[Key]
    ensures within { length result.now ≤ length list.now }
    ensures place { position (λ other. nat_eq other node) list.now ≡ option_map (λ at. length list.now - length result.now + at)
        (position (λ other. nat_eq other node) result.now) }
{
    while let [first, second, third, fourth, rest @ ..] = list
        && *first != node
        && *second != node
        && *third != node
        && *fourth != node
    {
        list = rest;
    }
    list
}
