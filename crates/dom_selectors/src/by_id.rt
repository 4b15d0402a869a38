//! Queries for IDs: where one node alone may match, no tree is walked.
ghost use Rattle.std.specs.Prelude.{◌≡◌, ◌&&◌, ℕ, Some, true, false, map, IfOk, IfSome, All};
ghost use Rattle.std.specs.Option.{ForSome};
ghost use Rattle.dom_base.specs.declared.NodeName.{NodeName as Name};
ghost use Rattle.dom_model.specs.Names.{name_eq, is_in};
ghost use Rattle.dom_model.specs.Tree.{Trees as TreesOf, descendants};
ghost use Rattle.dom_model.specs.Selectors.{complex_matches as spec_complex_matches, compound_matches as spec_compound_matches};
ghost use Rattle.dom_model.specs.Selectors.{part_matches as spec_part_matches, simple_matches as spec_simple_matches};
ghost use Rattle.dom_model.specs.Selectors.{selector_matches, query_all as spec_query_all};
ghost use Rattle.dom_tree.specs.Forest.{IsNode, name_of};
ghost use Rattle.dom_tree.specs.Ids.{HasId, MayBear};
ghost use Rattle.dom_tree.specs.Owners.{AreOwned};
ghost use Rattle.dom_selectors.specs.Views.{complex_view, compound_view, part_view, simple_view, selector_view};

use crate::joined::last_of_complex;
use crate::selector::{Complex, CompoundPart, Selector, Simple};
use dom_base::Owner;
use dom_tree::{Forest, law_reads_are_own};
use node_arena::Key;
use std::alloc::{AllocError, Global};

/// The ID that a simple selector asks for, if it asks for one.
fn id_of(simple: &Simple) -> Option<&[u16]>
    ensures { IfSome result (λ id. (ts : TreesOf) (x : Name) → spec_simple_matches ts x (simple_view simple.now) ≡ true → HasId ts x id.now) }
{
    match simple {
        Simple::OfId(id) => Some(id.as_slice()),
        _ => None,
    }
}

/// The ID that a part of a compound asks for, if it asks for one.
fn id_in(part: &CompoundPart) -> Option<&[u16]>
    ensures { IfSome result (λ id. (ts : TreesOf) (x : Name) → spec_part_matches ts x (part_view part.now) ≡ true → HasId ts x id.now) }
{
    match part {
        CompoundPart::Is(simple) => id_of(simple),
        CompoundPart::IsNot(_) => None,
    }
}

/// The first ID that a compound asks for, if it asks for one.
fn id_among(parts: &[CompoundPart]) -> Option<&[u16]>
    ensures { IfSome result (λ id. (ts : TreesOf) (x : Name) → spec_compound_matches ts (compound_view parts.now) x ≡ true → HasId ts x id.now) }
{
    for part in parts {
        if let Some(id) = id_in(part) {
            return Some(id);
        }
    }
    None
}

/// An ID that each node has which matches a complex selector, if its compound on the right asks for one.
#[tactic(auto, using(crate::proofs::IdQueries::last_matches))]
fn id_asked(complex: &Complex) -> Option<&[u16]>
    ensures { IfSome result (λ id. (ts : TreesOf) (x : Name) → spec_complex_matches ts (complex_view complex.now) x ≡ true → HasId ts x id.now) }
{
    id_among(last_of_complex(complex).parts.as_slice())
}

/// Whether a node is another one than that which was found, if one was.
fn is_another(found: Option<Key>, key: Key) -> bool
    ensures { result ≡ false → ForSome found (λ k. k ≡ key) }
{
    match found {
        Some(other) => other != key,
        None => false,
    }
}

/// The only node of an owner that may match some of these complex selectors, if any may; nothing where it is not known. It is known where
/// the compound on the right of each asks for an ID, and no two nodes may have some of these.
fn only_matching(forest: &Forest, owner: Owner, complexes: &[Complex]) -> Option<Option<Key>>
    ensures kept { (k : ℕ) → IsNode forest.now k → (name_of forest.now k).owner ≡ owner →
        selector_matches forest.now.trees (map complex_view complexes.now) (name_of forest.now k) ≡ true → MayBear result k }
    ensures node { (k : ℕ) → result ≡ Some (Some k) → IsNode forest.now k }
{
    let mut only = None;
    let mut rest = complexes;
    while let [complex, others @ ..] = rest {
        let id = id_asked(complex)?;
        if let Some(key) = forest.only_bearer(owner, id)? {
            if is_another(only, key) {
                return None;
            }
            only = Some(key);
        }
        rest = others;
    }
    Some(only)
}

impl Selector {
    /// What `query_all` says, where each node has the owner of its root: the proper descendants of a node that match a selector, in
    /// tree order (DOM Standard, querySelectorAll()). If each complex selector asks for an ID, and one node alone may
    /// have some of these, then this one is looked at, and the tree is not walked (own rule). It is refused where memory for the answer is
    /// refused.
    pub fn query(&self, alloc: Global, forest: &Forest, top: Key) -> Result<Vec<Key>, AllocError>
        requires node { IsNode forest.now top }
        requires owned { AreOwned forest.now.trees }
        ensures found { IfOk result (λ keys. map (name_of forest.now) keys.items ≡ spec_query_all forest.now.trees (selector_view self.now)
            (name_of forest.now top)) }
        ensures nodes { IfOk result (λ keys. All (IsNode forest.now) keys.items) }
    {
        law_reads_are_own();
        forest.law_nodes_stand_once();
        match only_matching(forest, forest.name(top).owner, self.complexes.as_slice()) {
            Some(None) => Ok(Vec::new(alloc)),
            Some(Some(key)) => self.query_one(alloc, forest, top, key),
            None => self.query_all(alloc, forest, top),
        }
    }

    /// A node, if it stands below another one and matches, where no other one below that does.
    fn query_one(
        &self,
        alloc: Global,
        forest: &Forest,
        top: Key,
        key: Key,
    ) -> Result<Vec<Key>, AllocError>
        requires top_is_node { IsNode forest.now top }
        requires key_is_node { IsNode forest.now key }
        requires alone { (x : Name) → is_in name_eq x (descendants forest.now.trees (name_of forest.now top)) ≡ true →
            selector_matches forest.now.trees (selector_view self.now) x ≡ true → x ≡ name_of forest.now key }
        ensures found { IfOk result (λ keys. map (name_of forest.now) keys.items ≡ spec_query_all forest.now.trees (selector_view self.now)
            (name_of forest.now top)) }
        ensures nodes { IfOk result (λ keys. All (IsNode forest.now) keys.items) }
    {
        forest.law_nodes_stand_once();
        let mut found = Vec::new(alloc);
        if self.matches_below(forest, top, key) {
            found.push(key)?;
        }
        Ok(found)
    }

    /// Whether a node stands below another one and matches.
    fn matches_below(&self, forest: &Forest, top: Key, key: Key) -> bool
        requires top_is_node { IsNode forest.now top }
        requires key_is_node { IsNode forest.now key }
        ensures { result ≡ (is_in name_eq (name_of forest.now key) (descendants forest.now.trees (name_of forest.now top)) &&
            selector_matches forest.now.trees (selector_view self.now) (name_of forest.now key)) }
    {
        is_below(forest, top, key) && self.matches(forest, key)
    }
}

/// Whether a node stands below another one.
fn is_below(forest: &Forest, top: Key, key: Key) -> bool
    requires top_is_node { IsNode forest.now top }
    requires key_is_node { IsNode forest.now key }
    ensures { result ≡ is_in name_eq (name_of forest.now key) (descendants forest.now.trees (name_of forest.now top)) }
{
    forest.law_nodes_stand_once();
    key != top && forest.is_inclusive_ancestor(top, key)
}
