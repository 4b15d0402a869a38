//! The children of a host by the names for which they look.
ghost use Rattle.std.specs.Prelude.{◌≡◌, ℕ, List, [], ◌∷◌, ◌++◌, true, if◌then◌else◌, filter, map, All, IfOk, OnOk};
ghost use Rattle.std.specs.Option.{option_map, option_map_or};
ghost use Rattle.dom_model.specs.Names.{text_eq};
ghost use Rattle.dom_model.specs.Tree.{node_in, children_of};
ghost use Rattle.dom_tree.specs.Forest.{IsNode, name_of};
ghost use Rattle.dom_slots.specs.Shadows.{looks_for};
ghost use Rattle.dom_slots.specs.Waiting.{waiting_under, is_wanted};

use crate::find::{looks_for, slottable_name};
use dom_tree::Forest;
use node_arena::Key;
use std::alloc::{AllocError, Global};
use std::collections::BTreeMap;

/// Children of a host that wait for slots: for each name those that look for it, in their order.
#[derive(Drop)]
pub(crate) struct Waiting<'a> {
    lists: BTreeMap<&'a [u16], Vec<Key>>,
    alloc: Global,
}

/// The children of a host that are slottables; those that look for a name alone, if one is given. Each is looked at once.
pub(crate) fn waiting_below<'a>(
    alloc: Global,
    forest: &'a Forest,
    host: Key,
    wanted: Option<&[u16]>,
) -> Result<Waiting<'a>, AllocError>
    requires { IsNode forest.now host }
    ensures names { IfOk result (λ w. (name : List ℕ) → is_wanted (option_map (λ a. a.now) wanted.entry) name ≡ true →
        map (name_of forest.now) (waiting_under w name) ≡
        filter (λ y. looks_for name (node_in forest.now.trees y)) (children_of forest.now.trees (name_of forest.now host))) }
    ensures nodes { IfOk result (λ w. (name : List ℕ) → All (IsNode forest.now) (waiting_under w name)) }
{
    forest.law_nodes_stand_once();
    let mut waiting = Waiting::new(alloc);
    let mut at = forest.first(host);
    while let Some(child) = at {
        if is_wanted(forest, child, wanted) {
            waiting.add(forest, child)?;
        }
        at = forest.next(child);
    }
    Ok(waiting)
}

/// Whether a node looks for the name that is wanted, if one is.
fn is_wanted(forest: &Forest, child: Key, wanted: Option<&[u16]>) -> bool
    requires { IsNode forest.now child }
    ensures { result ≡ option_map_or (λ a. looks_for a (node_in forest.now.trees (name_of forest.now child))) (option_map (λ a. a.now) wanted.entry) true }
{
    match wanted {
        Some(name) => looks_for(forest, child, name),
        None => true,
    }
}

impl<'a> Waiting<'a> {
    /// Nobody waits. Takes no memory yet.
    fn new(alloc: Global) -> Self
        ensures { (name : List ℕ) → waiting_under result name ≡ [] }
    {
        Waiting {
            lists: BTreeMap::new(alloc),
            alloc,
        }
    }

    /// Those that wait under one name.
    pub(crate) fn of(alloc: Global, name: &'a [u16], nodes: &[Key]) -> Result<Self, AllocError>
        ensures { IfOk result (λ w. (other : List ℕ) → waiting_under w other ≡ (if text_eq name.now other then nodes.now else [])) }
    {
        let list = copied(alloc, nodes)?;
        let mut waiting = Waiting::new(alloc);
        let _ = waiting.lists.insert(name, list)?;
        Ok(waiting)
    }

    /// Adds a child behind those that look for the same name, if it is a slottable.
    fn add(&mut self, forest: &'a Forest, child: Key) -> Result<(), AllocError>
        requires { IsNode forest.now child }
        ensures { OnOk result ((name : List ℕ) → waiting_under self.new name ≡
            (if looks_for name (node_in forest.now.trees (name_of forest.now child)) then waiting_under self.old name ++ child ∷ []
            else waiting_under self.old name)) }
    {
        match slottable_name(forest, child) {
            Some(name) => self.put(name, child),
            None => Ok(()),
        }
    }

    /// Puts a child behind those that wait under a name.
    fn put(&mut self, name: &'a [u16], child: Key) -> Result<(), AllocError>
        ensures { OnOk result ((other : List ℕ) → waiting_under self.new other ≡
            (if text_eq name.now other then waiting_under self.old other ++ child ∷ [] else waiting_under self.old other)) }
    {
        let mut list = self.take(name);
        list.push(child)?;
        let _ = self.lists.insert(name, list)?;
        Ok(())
    }

    /// Takes those that wait under a name away. Then nobody waits there.
    pub(crate) fn take(&mut self, name: &[u16]) -> Vec<Key>
        ensures list { result.items ≡ waiting_under self.old name.now }
        ensures others { (other : List ℕ) → waiting_under self.new other ≡ (if text_eq name.now other then [] else waiting_under self.old other) }
    {
        match self.lists.remove(name) {
            Some(list) => list,
            None => Vec::new(self.alloc),
        }
    }
}

/// The same nodes in a list of their own.
pub(crate) fn copied(alloc: Global, nodes: &[Key]) -> Result<Vec<Key>, AllocError>
    ensures { IfOk result (λ list. list.items ≡ nodes.now) }
{
    let mut list = Vec::new(alloc);
    list.extend_from_slice(nodes)?;
    Ok(list)
}
