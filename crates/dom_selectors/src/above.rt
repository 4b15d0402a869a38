//! Whether what stands left of white space matches above a node. What was found above a node is remembered for the
//! nodes beside it, and for those beside its parent.
ghost use Rattle.std.specs.Prelude.{◌≡◌, ◌∷◌, [], if◌then◌else◌, true, MatchOption, None, Some};
ghost use Rattle.std.specs.List.{list_any};
ghost use Rattle.std.specs.Option.{ForSome};
ghost use Rattle.dom_base.specs.declared.NodeName.{NodeName};
ghost use Rattle.dom_model.specs.Tree.{ancestors, parent_of, Trees};
ghost use Rattle.dom_model.specs.Selectors.{complex_matches as spec_complex_matches, compound_matches as spec_compound_matches};
ghost use Rattle.dom_tree.specs.Forest.{IsNode, name_of};
ghost use Rattle.dom_tree.specs.Spots.{name_here};
ghost use Rattle.dom_selectors.specs.Known.{from_child, left_matches as spec_left_matches, AreKnown, IsKnown, IsKnownOf, IsLeftOf, IsUpward};
ghost use Rattle.dom_selectors.specs.Search.{last_compound};
ghost use Rattle.dom_selectors.specs.Views.{combinator_view, compound_view, complex_from, complex_view};

use crate::chain::last_of;
use crate::joined::{ancestors_match, links_match, segments_match};
use crate::matching::element_matches;
use crate::selector::{Combinator, Complex, Compound, CompoundPart, Link};
use dom_tree::{Forest, NodeAt};
use node_arena::Key;

/// Whether a node, the parent of some, or one above it matches.
#[derive(Clone, Copy)]
pub(crate) struct Above {
    parent: Key,
    matches: bool,
}

/// What is remembered of what is left of a combinator: a node at none of whose children it matches, one at each of whose children it does, and
/// whether it matches at one node or above.
#[derive(Clone, Copy)]
pub(crate) struct Known {
    pub(crate) failing: Option<Key>,
    matching: Option<Key>,
    above: Option<Above>,
}

impl Known {
    /// Nothing.
    pub(crate) fn nothing() -> Known
        ensures failing { result.failing ≡ None }
        ensures matching { result.matching ≡ None }
        ensures above { result.above ≡ None }
    {
        Known {
            failing: None,
            matching: None,
            above: None,
        }
    }
}

/// What is left of the last combinator of a complex selector: links behind its first compound, and the compound on the right of these.
#[derive(Clone, Copy)]
pub(crate) struct Left<'a> {
    combinator: Combinator,
    first: &'a Compound,
    links: &'a [Link],
    last: &'a Compound,
}

/// What is left of the last combinator of a complex selector, if it has one.
pub(crate) fn left_of(complex: &Complex) -> Option<Left<'_>>
    ensures { IsLeftOf (complex_view complex.now) result }
{
    let first = &complex.first;
    match complex.links.as_slice().split_last() {
        Some((link, links)) => Some(Left {
            combinator: link.combinator,
            first,
            links,
            last: last_of(first, links),
        }),
        None => None,
    }
}

/// What is remembered of a node, if it is the one of which something is.
#[inline(always)]
fn answer_of(known: &Option<Above>, parent: Key) -> Option<bool>
    ensures { ForSome result (λ matches. MatchOption known.now ⊥ (λ a. (a.parent ≡ parent) × (a.matches ≡ matches))) }
{
    match known {
        Some(above) if above.parent == parent => Some(above.matches),
        _ => None,
    }
}

/// Whether an ancestor of a node with a parent matches what is left of white space, which is then remembered of the parent.
#[inline(never)]
fn ancestor_found(
    forest: &Forest,
    first: &Compound,
    left: &[Link],
    key: Key,
    parent: Key,
    known: &mut Option<Above>,
) -> bool
    requires node { IsNode forest.now key }
    requires parent { parent_of forest.now.trees (name_of forest.now key) ≡ Some (name_of forest.now parent) }
    ensures value { result ≡ list_any (spec_complex_matches forest.now.trees (complex_from first.now left.now))
        (ancestors forest.now.trees (name_of forest.now key)) }
    ensures known { IsKnown forest.now (complex_from first.now left.now) known.new }
{
    forest.law_nodes_stand_once();
    let matches = ancestors_match(forest, first, left, key);
    *known = Some(Above { parent, matches });
    matches
}

/// Whether an ancestor of a node matches what is left of white space, where it is remembered of one node.
#[inline(always)]
fn ancestor_matches(
    node: &NodeAt,
    first: &Compound,
    left: &[Link],
    known: &mut Option<Above>,
) -> bool
    requires { IsKnown node.now.whole (complex_from first.now left.now) known.old }
    ensures value { result ≡ list_any (spec_complex_matches node.now.whole.trees (complex_from first.now left.now))
        (ancestors node.now.whole.trees (name_here node.now)) }
    ensures known { IsKnown node.now.whole (complex_from first.now left.now) known.new }
{
    let forest = node.forest();
    forest.law_nodes_stand_once();
    let Some(above) = node.parent() else {
        return false;
    };
    let parent = above.key();
    if let Some(matches) = answer_of(known, parent) {
        return matches;
    }
    ancestor_found(forest, first, left, node.key(), parent, known)
}

/// Whether this is the node of which something is remembered.
#[inline(always)]
fn is_at(known: &Option<Key>, key: Key) -> bool
    ensures { result ≡ true → MatchOption known.now ⊥ (λ k. k ≡ key) }
{
    match known {
        Some(other) => *other == key,
        None => false,
    }
}

/// Whether what a combinator leaves goes on above the parent of a node, as white space does and `>` does not.
#[inline(always)]
fn goes_on(combinator: Combinator) -> bool
    ensures { (ts : Trees) (p : NodeName) → IsUpward (combinator_view combinator) →
        from_child ts (combinator_view combinator) p ≡ p ∷ (if result then ancestors ts p else []) }
{
    match combinator {
        Combinator::Descendant => true,
        Combinator::Child | Combinator::Next | Combinator::Later => false,
    }
}

/// Whether what is left of `>` or white space matches at a node, or above it where it is white space.
#[inline(always)]
fn matches_from(parent: &NodeAt, left: &Left, above: &mut Option<Above>) -> bool
    requires last { left.now.last.now ≡ last_compound (complex_from left.now.first.now left.now.links.now) }
    requires upward { IsUpward (combinator_view left.now.combinator) }
    requires above { IsKnown parent.now.whole (complex_from left.now.first.now left.now.links.now) above.old }
    ensures value { result ≡ list_any (spec_complex_matches parent.now.whole.trees (complex_from left.now.first.now left.now.links.now))
        (from_child parent.now.whole.trees (combinator_view left.now.combinator) (name_here parent.now)) }
    ensures above { IsKnown parent.now.whole (complex_from left.now.first.now left.now.links.now) above.new }
{
    let goes_on = goes_on(left.combinator);
    if links_match(parent, left.last, left.first, left.links) {
        return true;
    }
    if goes_on {
        return ancestor_matches(parent, left.first, left.links, above);
    }
    false
}

/// Whether what is left of `>` or white space matches where it leads from a node. Children of one node have the same ancestors, so the answer
/// is remembered for those that come next.
#[inline(always)]
fn above_matches(node: &NodeAt, left: &Left, known: &mut Known) -> bool
    requires last { left.now.last.now ≡ last_compound (complex_from left.now.first.now left.now.links.now) }
    requires upward { IsUpward (combinator_view left.now.combinator) }
    requires known { AreKnown node.now.whole (complex_from left.now.first.now left.now.links.now) (combinator_view left.now.combinator) known.old }
    ensures value { result ≡ spec_left_matches node.now.whole.trees (complex_from left.now.first.now left.now.links.now)
        (combinator_view left.now.combinator) (name_here node.now) }
    ensures known { AreKnown node.now.whole (complex_from left.now.first.now left.now.links.now) (combinator_view left.now.combinator) known.new }
{
    let forest = node.forest();
    forest.law_nodes_stand_once();
    let Some(parent) = node.parent() else {
        return false;
    };
    let key = parent.key();
    if is_at(&known.matching, key) {
        return true;
    }
    if matches_from(&parent, left, &mut known.above) {
        known.matching = Some(key);
        return true;
    }
    known.failing = Some(key);
    false
}

/// Whether a node that matches the compound on the right of a complex selector matches the selector, where what is left of its last
/// combinator is given.
#[inline(always)]
fn links_match_knowing(
    node: &NodeAt,
    complex: &Complex,
    left: &Option<Left>,
    known: &mut Known,
) -> bool
    requires matches { spec_compound_matches node.now.whole.trees (last_compound (complex_view complex.now)) (name_here node.now) ≡ true }
    requires left { IsLeftOf (complex_view complex.now) left.now }
    requires known { IsKnownOf node.now.whole (complex_view complex.now) known.old }
    ensures value { result ≡ spec_complex_matches node.now.whole.trees (complex_view complex.now) (name_here node.now) }
    ensures known { IsKnownOf node.now.whole (complex_view complex.now) known.new }
{
    let Some(left) = left else {
        return true;
    };
    match left.combinator {
        Combinator::Descendant | Combinator::Child => above_matches(node, left, known),
        Combinator::Next | Combinator::Later => segments_match(
            node.forest(),
            &complex.first,
            complex.links.as_slice(),
            node.key(),
        ),
    }
}

/// Whether a node matches a complex selector, where what of its compound on the right is left to be tried is given, and what is left of its
/// last combinator. The compound is tried first, since most nodes fail there.
#[inline(always)]
pub(crate) fn matches_knowing(
    node: &NodeAt,
    complex: &Complex,
    unasked: &[CompoundPart],
    left: &Option<Left>,
    known: &mut Known,
) -> bool
    requires unasked { spec_compound_matches node.now.whole.trees (compound_view unasked.now) (name_here node.now) ≡
        spec_compound_matches node.now.whole.trees (last_compound (complex_view complex.now)) (name_here node.now) }
    requires left { IsLeftOf (complex_view complex.now) left.now }
    requires known { IsKnownOf node.now.whole (complex_view complex.now) known.old }
    ensures value { result ≡ spec_complex_matches node.now.whole.trees (complex_view complex.now) (name_here node.now) }
    ensures known { IsKnownOf node.now.whole (complex_view complex.now) known.new }
{
    element_matches(node, unasked) && links_match_knowing(node, complex, left, known)
}
