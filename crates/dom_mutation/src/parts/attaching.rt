//! Shadow roots (DOM Standard, concept: attach a shadow root).
ghost use Rattle.std.specs.Prelude.{◌≡◌, ◌≢◌, ℕ, ◌<◌, ◌≤◌, ◌↔◌, ◌++◌, ◌∷◌, [], length, false, None, Some, IfOk, OnOk};
ghost use Rattle.dom_base.specs.declared.Kind.TheVariants.{Shadow};
ghost use Rattle.dom_base.specs.declared.Refusal.{Refusal as RefusalOf};
ghost use Rattle.dom_model.specs.Names.{owner_depth, max_depth};
ghost use Rattle.dom_model.specs.Tree.{node_in};
ghost use Rattle.dom_model.specs.TreeChanges.{with_node};
ghost use Rattle.dom_model.specs.DocumentMachine.{attaching, new_root};
ghost use Rattle.dom_model.specs.World.{part_of, is_there, component_made, shadow_root_of};
ghost use Rattle.dom_slots.specs.Hosts.{root_of_host};
ghost use Rattle.dom_slots.specs.Kept.{AreSlotsOf};
ghost use Rattle.dom_tree.specs.Forest.{next_name, count_of, err_of, IsNode, name_of};
ghost use Rattle.dom_mutation.specs.Doc.{name_in, owner_in, attaching_refusal, HoldsNode};

use super::settling::give_up;
use crate::hosts::may_be_host;
use crate::parts::Parts;
use dom_base::{Fault, Kind, MAX_COMPONENTS, MAX_DEPTH, Owner, Refusal};
use dom_slots::{Slots, law_new_nodes_are_free};
use dom_tree::{Forest, NodeData};
use indexmap::IndexMap;
use node_arena::Key;
use std::alloc::{AllocError, Global};

impl Parts {
    /// Attaches a shadow root to an element: node 0 of a new component of its owner, with the element's node document; the
    /// answer is its key. Refused with `NotSupported` to a host and to an element whose name may be no host's, and then with
    /// `Limit` where the owner has made as many components as it may or its word has as many numbers as it may, with nothing
    /// changed (DOM Standard, attach a shadow root; the limit is an own rule). Where memory is refused, all is given up.
    pub(crate) fn attach(&mut self, host: Key) -> Result<Key, Fault>
        requires { HoldsNode self.old host }
        ensures key { IfOk result (λ key. key ≡ length self.old.names) }
        ensures names { OnOk result (self.new.names ≡ self.old.names ++
            shadow_root_of (component_made (owner_in self.old host) (length (part_of self.old.world (owner_in self.old host)).attached)) ∷ []) }
        ensures world { OnOk result (self.new.world ≡ (attaching self.old.world (owner_in self.old host) (name_in self.old host)).0) }
        ensures refused { (r : RefusalOf) → (result ≡ Err (Fault.Refused r)) ↔
            (attaching_refusal (part_of self.old.world (owner_in self.old host)) (name_in self.old host) ≡ Some r) }
        ensures unchanged { (r : RefusalOf) → result ≡ Err (Fault.Refused r) → self.new ≡ self.old }

        // The component is a new one.
        ensures fresh { OnOk result (is_there self.old.world
            (component_made (owner_in self.old host) (length (part_of self.old.world (owner_in self.old host)).attached)) ≡ false) }
    {
        let owner = match self.component_for(host) {
            Ok(owner) => owner,
            Err(refusal) => return Err(Fault::Refused(refusal)),
        };
        self.trees.forest.law_nodes_stand_once();
        let made = attach_root(
            self.alloc,
            &mut self.trees.forest,
            &mut self.trees.slots,
            host,
            owner,
        );
        match made {
            Ok(root) => Ok(root),
            Err(_) => {
                give_up(
                    &mut self.trees,
                    &mut self.cursors,
                    &mut self.observers,
                    &mut self.ranges,
                    self.alloc,
                );
                Err(Fault::Memory)
            }
        }
    }

    /// The component to which a shadow root of an element will belong, its owner's next one, if one may be attached.
    fn component_for(&self, host: Key) -> Result<Owner, Refusal>
        requires { HoldsNode self.now host }
        ensures component { IfOk result (λ c. c ≡ component_made (owner_in self.now host) (length (part_of self.now.world (owner_in self.now host)).attached)) }
        ensures refusal { err_of result ≡ attaching_refusal (part_of self.now.world (owner_in self.now host)) (name_in self.now host) }
    {
        self.trees.forest.law_nodes_stand_once();
        if self.trees.slots.root_of(host).is_some()
            || !may_be_host(self.trees.forest.element(host))
        {
            return Err(Refusal::NotSupported);
        }
        let maker = self.trees.forest.name(host).owner;
        if maker.depth() >= MAX_DEPTH {
            return Err(Refusal::Limit);
        }
        let number = count_made(&self.trees.forest, maker);
        if number == MAX_COMPONENTS {
            return Err(Refusal::Limit);
        }
        Ok(component_made(maker, number))
    }
}

/// How many components an owner has made. They are numbered from 0 on, and each has nodes, so the first number of which there are no
/// nodes is found by halving.
fn count_made(forest: &Forest, maker: Owner) -> u32
    requires deep { owner_depth maker < max_depth }
    requires run { (j k : ℕ) → j ≤ k → count_of (component_made maker j) forest.now.names ≡ 0 → count_of (component_made maker k) forest.now.names ≡ 0 }
    ensures made { (k : ℕ) → k < result → count_of (component_made maker k) forest.now.names ≢ 0 }
    ensures next { result < MAX_COMPONENTS → count_of (component_made maker result) forest.now.names ≡ 0 }
    ensures few { result ≤ MAX_COMPONENTS }
{
    let mut low = 0;
    let mut high = MAX_COMPONENTS;
    while low < high {
        let middle = (low + high) / 2;
        if forest.node_count(component_made(maker, middle)) > 0 {
            low = middle + 1;
        } else {
            high = middle;
        }
    }
    low
}

/// The component that an owner makes by its attach of this number, from 0.
fn component_made(maker: Owner, number: u32) -> Owner
    requires deep { owner_depth maker < max_depth }
    requires few { number < MAX_COMPONENTS }
    ensures { result ≡ component_made maker number }
{
    let Some(component) = maker.component(number) else {
        unreachable!()
    };
    component
}

/// Makes a shadow root, the first node of a new owner, and its host.
fn attach_root(
    alloc: Global,
    forest: &mut Forest,
    slots: &mut Slots,
    host: Key,
    owner: Owner,
) -> Result<Key, AllocError>
    requires host_is_node { IsNode forest.old host }
    requires new_owner { count_of owner forest.old.names ≡ 0 }
    requires new_host { root_of_host slots.old.hosts host ≡ None }
    requires slots { AreSlotsOf forest.old slots.old }
    ensures key { IfOk result (λ key. key ≡ length forest.old.names) }
    ensures names { OnOk result (forest.new.names ≡ forest.old.names ++ next_name owner forest.old.names ∷ []) }
    ensures trees { OnOk result (forest.new.trees ≡ with_node
        (new_root (next_name owner forest.old.names) Shadow (node_in forest.old.trees (name_of forest.old host)).document) forest.old.trees) }
    ensures hosts { OnOk result (slots.new.hosts ≡ slots.old.hosts ++ record { host = host; root = length forest.old.names; owner = owner } ∷ []) }
    ensures slots { OnOk result (AreSlotsOf forest.new slots.new) }
{
    let node = NodeData {
        kind: Kind::Shadow,
        element: String::new(alloc),
        attributes: IndexMap::new(alloc),
        text: Vec::new(alloc),
        document: forest.document(host),
    };
    law_new_nodes_are_free();
    let root = match forest.add(owner, node) {
        Ok(root) => root,
        Err(_) => return Err(AllocError),
    };
    forest.law_nodes_stand_once();
    slots.attach(host, root, owner)?;
    Ok(root)
}
