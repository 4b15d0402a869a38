//! What a selector asks of every element that matches: it is tried first, since most elements fail there.
ghost use Rattle.std.specs.Prelude.{◌≡◌, ◌≤◌, Bool, filter, length, map, true};
ghost use Rattle.std.specs.Option.{ForSome};
ghost use Rattle.dom_base.specs.declared.NodeName.{NodeName};
ghost use Rattle.dom_model.specs.Selectors.{part_matches as spec_part_matches, simple_matches as spec_simple_matches};
ghost use Rattle.dom_model.specs.Tree.{Trees};
ghost use Rattle.node_arena.specs.Spots.{key_in};
ghost use Rattle.dom_tree.specs.Forest.{IsNode, name_of};
ghost use Rattle.dom_tree.specs.Spots.{name_here};
ghost use Rattle.dom_tree.specs.Within.{StandsIn};
ghost use Rattle.dom_attributes.specs.Signs.{HasBits};
ghost use Rattle.dom_selectors.specs.Signs.{SelectorShows, Shows};
ghost use Rattle.dom_selectors.specs.Known.{has_asked as spec_has_asked, nodes_behind, nodes_from, AreUnasked, CompoundAsks, IsFirstUnasked};
ghost use Rattle.dom_selectors.specs.Known.{is_named, IsNoChild, SelectorAsks};
ghost use Rattle.dom_selectors.specs.Views.{complex_view, compound_view, part_view, selector_view, simple_view};

use crate::joined::last_of_complex;
use crate::selector::{Complex, CompoundPart, Selector, Simple};
use dom_attributes::{Signs, is_same_text};
use dom_tree::{Forest, NodeAt};
use node_arena::Key;

/// What is asked of an element beside its signs: a local name, or nothing.
#[derive(Clone, Copy)]
pub(crate) enum Asked<'a> {
    Nothing,
    Name(&'a str),
}

/// What is asked for, where it is known whether that is a local name. So a walk is made for each kind of thing, which does not tell them apart.
#[inline(always)]
pub(crate) fn of_kind<'a, const NAMED: bool>(asked: Asked<'a>) -> Asked<'a>
    requires { is_named asked ≡ NAMED }
    ensures { result ≡ asked.entry }
{
    match asked {
        Asked::Name(name) if NAMED => Asked::Name(name),
        Asked::Nothing if !NAMED => Asked::Nothing,
        _ => unreachable!(),
    }
}

/// Whether a node has what is asked for.
#[inline(always)]
fn has_asked(node: &NodeAt, asked: Asked) -> bool
    ensures { result ≡ spec_has_asked node.now.whole.trees (name_here node.now) asked.entry }
{
    match asked {
        Asked::Nothing => true,
        Asked::Name(name) => is_same_text(node.element(), name),
    }
}

/// Whether a node is a child of one given, if one is.
#[inline(always)]
fn is_child(node: &NodeAt, given: &Option<Key>) -> bool
    ensures { result ≡ true → IsNoChild node.now.whole given.now (name_here node.now) → ⊥ }
{
    let Some(key) = given else {
        return false;
    };
    match node.parent() {
        Some(parent) => parent.key() == *key,
        None => false,
    }
}

/// The first node that may have what these are signs of, and has what is asked for, behind one in the tree of a node `top`. Children
/// of a node that is known to have none that matches are passed.
#[inline(always)]
pub(crate) fn next_with<'a>(
    forest: &Forest,
    top: Key,
    from: NodeAt<'a>,
    signs: Signs,
    asked: Asked,
    failing: &Option<Key>,
) -> Option<NodeAt<'a>>
    requires top { IsNode forest.now top }
    requires same { from.whole ≡ forest.now }
    requires stands { StandsIn forest.now top from.key }
    ensures same { ForSome result (λ n. n.whole ≡ forest.now) }
    ensures stands { ForSome (key_in result) (StandsIn forest.now top) }
    ensures has { ForSome (key_in result) (λ k. spec_has_asked forest.now.trees (name_of forest.now k) asked.entry ≡ true) }
    ensures passed { (test : NodeName → Bool) → ((x : NodeName) → test x ≡ true → Shows forest.now.trees x signs.bits) →
        ((x : NodeName) → test x ≡ true → spec_has_asked forest.now.trees x asked.entry ≡ true) →
        ((x : NodeName) → test x ≡ true → IsNoChild forest.now failing.now x) →
        filter test (nodes_from forest.now top result) ≡ filter test (nodes_behind forest.now top from.entry.key) }
    ensures shorter { length (nodes_from forest.now top result) ≤ length (nodes_behind forest.now top from.entry.key) }
{
    forest.law_nodes_stand_once();
    let mut at = from.following(top);
    while let Some(node) = at {
        if node.may_have(signs) && has_asked(&node, asked) && !is_child(&node, failing) {
            return Some(node);
        }
        at = node.following(top);
    }
    None
}

/// Whether the same local name is asked for.
fn is_same(asked: Asked, other: Asked) -> bool
    ensures { result ≡ true → (ts : Trees) (x : NodeName) → spec_has_asked ts x other.entry ≡ spec_has_asked ts x asked.entry }
{
    match (asked, other) {
        (Asked::Name(name), Asked::Name(named)) => is_same_text(name, named),
        _ => false,
    }
}

/// What a simple selector asks for.
fn asked_by(simple: &Simple) -> Asked<'_>
    ensures { (ts : Trees) (x : NodeName) → spec_simple_matches ts x (simple_view simple.now) ≡ true → spec_has_asked ts x result ≡ true }
{
    match simple {
        Simple::OfType(name) => Asked::Name(name.as_str()),
        _ => Asked::Nothing,
    }
}

/// What a compound asks for first.
fn first_asked(parts: &[CompoundPart]) -> Asked<'_>
    ensures { CompoundAsks (compound_view parts.now) result }
{
    match parts {
        [CompoundPart::Is(simple), ..] => asked_by(simple),
        _ => Asked::Nothing,
    }
}

/// Whether a simple selector says no more than what is asked for.
fn is_asked(simple: &Simple, asked: Asked) -> bool
    ensures { result ≡ true → (ts : Trees) (x : NodeName) → spec_has_asked ts x asked.entry ≡ true →
        spec_simple_matches ts x (simple_view simple.now) ≡ true }
{
    match (simple, asked) {
        (Simple::OfType(name), Asked::Name(named)) => is_same_text(name.as_str(), named),
        _ => false,
    }
}

/// Whether a part of a compound says no more than what is asked for.
fn is_part_asked(part: &CompoundPart, asked: Asked) -> bool
    ensures { result ≡ true → (ts : Trees) (x : NodeName) → spec_has_asked ts x asked.entry ≡ true →
        spec_part_matches ts x (part_view part.now) ≡ true }
{
    match part {
        CompoundPart::Is(simple) => is_asked(simple, asked),
        CompoundPart::IsNot(_) => false,
    }
}

/// What of a compound is left to be tried at an element that has what is asked for.
fn unasked<'a>(parts: &'a [CompoundPart], asked: Asked) -> &'a [CompoundPart]
    ensures { AreUnasked (compound_view parts.entry.now) (compound_view result.now) asked.entry }
{
    match parts.split_first() {
        Some((first, others)) if is_part_asked(first, asked) => others,
        _ => parts,
    }
}

/// What of the compound on the right of the first of these complex selectors is left to be tried at an element that has what is asked for.
pub(crate) fn first_unasked<'a>(complexes: &'a [Complex], asked: Asked) -> &'a [CompoundPart]
    ensures { IsFirstUnasked complexes.entry.now result.now asked.entry }
{
    match complexes {
        [first, ..] => unasked(last_of_complex(first).parts.as_slice(), asked),
        [] => &[],
    }
}

/// Whether a compound asks for this first.
fn asks_first(parts: &[CompoundPart], asked: Asked) -> bool
    ensures { result ≡ true → CompoundAsks (compound_view parts.now) asked.entry }
{
    is_same(asked, first_asked(parts))
}

/// Whether the compound on the right of each of some complex selectors asks for this first.
#[tactic(auto, using(crate::proofs::QueryLaws::one_more))]
fn all_ask(complexes: &[Complex], asked: Asked) -> bool
    ensures { result ≡ true → SelectorAsks (map complex_view complexes.now) asked.entry }
{
    let mut rest = complexes;
    while let [complex, others @ ..] = rest {
        if !asks_first(last_of_complex(complex).parts.as_slice(), asked) {
            return false;
        }
        rest = others;
    }
    true
}

impl Selector {
    /// What the compounds on the right ask for first, if each asks for the same.
    #[tactic(auto, using(crate::proofs::QueryLaws::one_more))]
    pub(crate) fn asked(&self) -> Asked<'_>
        ensures { SelectorAsks (selector_view self.now) result }
    {
        match self.complexes.as_slice() {
            [first, others @ ..] => {
                let asked = first_asked(last_of_complex(first).parts.as_slice());
                if all_ask(others, asked) {
                    asked
                } else {
                    Asked::Nothing
                }
            }
            [] => Asked::Nothing,
        }
    }
}

/// Those of some signs that each node has which matches some of these complex selectors.
fn common_signs(signs: Signs, complexes: &[Complex]) -> Signs
    ensures some { SelectorShows (map complex_view complexes.now) result.bits }
    ensures given { HasBits signs.bits result.bits }
{
    let mut rest = complexes;
    let mut signs = signs;
    while let [complex, others @ ..] = rest {
        signs = signs.common(last_of_complex(complex).signs());
        rest = others;
    }
    signs
}

impl Selector {
    /// Signs that each node has which matches some of the complex selectors.
    pub(crate) fn signs(&self) -> Signs
        ensures { SelectorShows (selector_view self.now) result.bits }
    {
        match self.complexes.as_slice() {
            [first, others @ ..] => common_signs(last_of_complex(first).signs(), others),
            [] => Signs::none(),
        }
    }
}
