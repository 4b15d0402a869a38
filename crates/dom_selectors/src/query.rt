//! Matches and queries.
ghost use Rattle.std.specs.Prelude.{◌≡◌, ◌++◌, ◌∷◌, [], true, false, map, IfOk, OnOk, All};
ghost use Rattle.dom_model.specs.Selectors.{selector_matches, query_all as spec_query_all};
ghost use Rattle.dom_base.specs.declared.NodeName.{NodeName};
ghost use Rattle.dom_tree.specs.Forest.{IsNode, NamedTrees, name_of};
ghost use Rattle.dom_tree.specs.Spots.{name_here};
ghost use Rattle.dom_selectors.specs.Known.{is_named, IsFirstLeft, IsKnownOfFirst, IsLeftOfFirst, IsNoChild, SelectorAsks};
ghost use Rattle.dom_selectors.specs.Views.{complex_view, selector_view};

use crate::above::{Known, Left, left_of, matches_knowing};
use crate::asking::{Asked, first_unasked, next_with, of_kind};
use crate::joined::{last_of_complex, links_match};
use crate::selector::{Complex, CompoundPart, Selector};
use dom_tree::{Forest, NodeAt};
use node_arena::Key;
use std::alloc::{AllocError, Global};

/// For how many nodes those found have room at first, so that few are one piece of memory.
const FIRST_ROOM: usize = 128;

/// Whether a node matches some of these complex selectors.
#[inline(never)]
fn some_complex_matches(forest: &Forest, key: Key, complexes: &[Complex]) -> bool
    requires { IsNode forest.now key }
    ensures { result ≡ selector_matches forest.now.trees (map complex_view complexes.now) (name_of forest.now key) }
{
    let node = forest.at(key);
    let mut rest = complexes;
    while let [complex, others @ ..] = rest {
        if links_match(
            &node,
            last_of_complex(complex),
            &complex.first,
            complex.links.as_slice(),
        ) {
            return true;
        }
        rest = others;
    }
    false
}

/// Whether a node matches some of these complex selectors, where what of the compound on the right of the first one is left to be tried is
/// given, and what is left of its last combinator, of which something may be remembered.
#[inline(always)]
fn some_matches(
    node: &NodeAt,
    complexes: &[Complex],
    unasked: &[CompoundPart],
    left: &Option<Left>,
    known: &mut Known,
) -> bool
    requires unasked { IsFirstLeft node.now.whole.trees (name_here node.now) complexes.now unasked.now }
    requires left { IsLeftOfFirst complexes.now left.now }
    requires known { IsKnownOfFirst node.now.whole complexes.now known.old }
    ensures value { result ≡ selector_matches node.now.whole.trees (map complex_view complexes.now) (name_here node.now) }
    ensures known { IsKnownOfFirst node.now.whole complexes.now known.new }
{
    match complexes {
        [first, others @ ..] => {
            matches_knowing(node, first, unasked, left, known)
                || !others.is_empty() && some_complex_matches(node.forest(), node.key(), others)
        }
        [] => false,
    }
}

/// What is left of the last combinator of the first of these complex selectors, if it has one.
fn first_left(complexes: &[Complex]) -> Option<Left<'_>>
    ensures { IsLeftOfFirst complexes.now result }
{
    match complexes {
        [first, ..] => left_of(first),
        [] => None,
    }
}

/// A node none of whose children matches some of these complex selectors, where that is remembered of one. It is of none where nothing is
/// left of the last combinator.
#[inline(always)]
fn failing_below<const LEFT: bool>(complexes: &[Complex], known: &Known) -> Option<Key>
    ensures { (f : NamedTrees) → IsKnownOfFirst f complexes.now known.now → (x : NodeName) →
        selector_matches f.trees (map complex_view complexes.now) x ≡ true → IsNoChild f result x }
{
    match complexes {
        [_] if LEFT => known.failing,
        _ => None,
    }
}

/// Takes a node among those found, for which there may be no room.
#[inline(never)]
fn take_growing(found: &mut Vec<Key>, key: Key) -> Result<(), AllocError>
    ensures { OnOk result (found.new.items ≡ found.old.items ++ key ∷ []) }
{
    found.push(key)?;
    Ok(())
}

/// Takes a node among those found. It is in line where there is room.
#[inline(always)]
fn take(found: &mut Vec<Key>, key: Key) -> Result<(), AllocError>
    ensures { OnOk result (found.new.items ≡ found.old.items ++ key ∷ []) }
{
    if found.len() == found.capacity() {
        return take_growing(found, key);
    }
    found.push(key)?;
    Ok(())
}

impl Selector {
    /// Whether an element matches a selector, which a node of another kind never does (DOM Standard, matches()). It
    /// takes no memory.
    pub fn matches(&self, forest: &Forest, key: Key) -> bool
        requires { IsNode forest.now key }
        ensures { result ≡ selector_matches forest.now.trees (selector_view self.now) (name_of forest.now key) }
    {
        some_complex_matches(forest, key, self.complexes.as_slice())
    }

    /// The proper descendants of a node that match a selector, in tree order; nodes above it count for matching (DOM
    /// Standard, querySelectorAll()). The tree below the node is walked once, by its links. It is refused where memory
    /// for the answer is refused.
    #[inline(never)]
    pub fn query_all(
        &self,
        alloc: Global,
        forest: &Forest,
        top: Key,
    ) -> Result<Vec<Key>, AllocError>
        requires { IsNode forest.now top }
        ensures found { IfOk result (λ keys. map (name_of forest.now) keys.items ≡ spec_query_all forest.now.trees (selector_view self.now)
            (name_of forest.now top)) }
        ensures nodes { IfOk result (λ keys. All (IsNode forest.now) keys.items) }
    {
        match self.asked() {
            Asked::Nothing => self.query_asking::<false>(alloc, forest, top, Asked::Nothing),
            Asked::Name(name) => self.query_asking::<true>(alloc, forest, top, Asked::Name(name)),
        }
    }

    /// What `query_all` says, where each node that matches has what is asked for, and whether that is a local name is known. There is one of
    /// its own for each kind of thing that is asked for.
    fn query_asking<const NAMED: bool>(
        &self,
        alloc: Global,
        forest: &Forest,
        top: Key,
        asked: Asked,
    ) -> Result<Vec<Key>, AllocError>
        requires node { IsNode forest.now top }
        requires named { is_named asked ≡ NAMED }
        requires asks { SelectorAsks (selector_view self.now) asked }
        ensures found { IfOk result (λ keys. map (name_of forest.now) keys.items ≡ spec_query_all forest.now.trees (selector_view self.now)
            (name_of forest.now top)) }
        ensures nodes { IfOk result (λ keys. All (IsNode forest.now) keys.items) }
    {
        match first_left(self.complexes.as_slice()) {
            Some(left) => self.query_knowing::<NAMED, true>(alloc, forest, top, asked, &Some(left)),
            None => self.query_knowing::<NAMED, false>(alloc, forest, top, asked, &None),
        }
    }

    /// What `query_all` says, where what is left of the last combinator of the first complex selector is given too, and whether there is
    /// something is known.
    fn query_knowing<const NAMED: bool, const LEFT: bool>(
        &self,
        alloc: Global,
        forest: &Forest,
        top: Key,
        asked: Asked,
        left: &Option<Left>,
    ) -> Result<Vec<Key>, AllocError>
        requires node { IsNode forest.now top }
        requires named { is_named asked ≡ NAMED }
        requires asks { SelectorAsks (selector_view self.now) asked }
        requires left { IsLeftOfFirst self.now.complexes.items left.now }
        ensures found { IfOk result (λ keys. map (name_of forest.now) keys.items ≡ spec_query_all forest.now.trees (selector_view self.now)
            (name_of forest.now top)) }
        ensures nodes { IfOk result (λ keys. All (IsNode forest.now) keys.items) }
    {
        forest.law_nodes_stand_once();
        let complexes = self.complexes.as_slice();
        let signs = self.signs();
        let asks = of_kind::<NAMED>(asked);
        let unasked = first_unasked(complexes, asks);
        let mut known = Known::nothing();
        let mut found = Vec::with_capacity(alloc, FIRST_ROOM)?;
        let mut at = next_with(forest, top, forest.at(top), signs, asks, &None);
        while let Some(node) = at {
            if some_matches(&node, complexes, unasked, left, &mut known) {
                take(&mut found, node.key())?;
            }
            let failing = failing_below::<LEFT>(complexes, &known);
            at = next_with(forest, top, node, signs, asks, &failing);
        }
        Ok(found)
    }
}
