//! Which elements match complex selectors, from the right by links. Left of `~` and of white space there is more than
//! one node to try, the nearest first. What is left of these again is tried from the first alone at which all up to it
//! matches, since what stands before or above another one stands before or above that one too: no choice is taken back.
ghost use Rattle.std.specs.Prelude.{◌≡◌, ◌≤◌, true, false, length, MatchOption, IfSome};
ghost use Rattle.std.specs.List.{list_any};
ghost use Rattle.dom_model.specs.Tree.{ancestors};
ghost use Rattle.dom_model.specs.Selectors.{compound_matches as spec_compound_matches, complex_matches as spec_complex_matches};
ghost use Rattle.dom_tree.specs.Forest.{IsNode, name_of};
ghost use Rattle.dom_tree.specs.Spots.{name_here};
ghost use Rattle.dom_selectors.specs.Search.{SegmentEnds, SegmentIsAbove, StopsAt, IsDescendant, last_compound};
ghost use Rattle.dom_selectors.specs.Views.{complex_from, complex_view};

use crate::chain::{Place, chain_before, chain_end, last_matches, last_of};
use crate::matching::parts_match;
use crate::selector::{Combinator, Complex, Compound, Link};
use dom_tree::{Forest, NodeAt};
use node_arena::Key;

/// Where the segment, chains joined by `~`, from a node that matches the compound on the right ends: before white space or with the
/// first compound; none where some chain holds at no element before.
fn segment_end<'a>(
    forest: &Forest,
    first: &Compound,
    links: &'a [Link],
    key: Key,
) -> Option<Place<'a>>
    requires node { IsNode forest.now key }
    requires matches { spec_compound_matches forest.now.trees (last_compound (complex_from first.now links.now)) (name_of forest.now key) ≡ true }
    ensures ends { MatchOption result (spec_complex_matches forest.now.trees (complex_from first.now links.entry.now)
        (name_of forest.now key) ≡ false)
        (λ end. SegmentEnds forest.now.trees (complex_from first.now links.entry.now) (name_of forest.now key)
        (complex_from first.now end.links.now) (name_of forest.now end.key)) }
    ensures node { IfSome result (λ end. IsNode forest.now end.key) }
    ensures shorter { IfSome result (λ end. length end.links.now ≤ length links.entry.now) }
{
    forest.law_nodes_stand_once();
    let Some(mut end) = chain_end(forest, first, links, key) else {
        return None;
    };
    while let Some((last, left)) = end.links.split_last() {
        if !matches!(last.combinator, Combinator::Later) {
            return Some(end);
        }
        let Some(next) = chain_before(forest, first, left, end.key) else {
            return None;
        };
        end = next;
    }
    Some(end)
}

/// Where the segment from a node ends. Its compound on the right is tried first, since most nodes fail there.
#[tactic(auto, using(crate::proofs::Chains::not_last))]
fn segment_from<'a>(
    forest: &Forest,
    first: &Compound,
    links: &'a [Link],
    key: Key,
) -> Option<Place<'a>>
    requires { IsNode forest.now key }
    ensures ends { MatchOption result (spec_complex_matches forest.now.trees (complex_from first.now links.entry.now)
        (name_of forest.now key) ≡ false)
        (λ end. SegmentEnds forest.now.trees (complex_from first.now links.entry.now) (name_of forest.now key)
        (complex_from first.now end.links.now) (name_of forest.now end.key)) }
    ensures node { IfSome result (λ end. IsNode forest.now end.key) }
    ensures shorter { IfSome result (λ end. length end.links.now ≤ length links.entry.now) }
{
    if !last_matches(forest, first, links, key) {
        return None;
    }
    segment_end(forest, first, links, key)
}

/// Where the segment ends from the nearest ancestor of a node at which it holds.
fn segment_above<'a>(
    forest: &Forest,
    first: &Compound,
    links: &'a [Link],
    key: Key,
) -> Option<Place<'a>>
    requires { IsNode forest.now key }
    ensures ends { MatchOption result (list_any (spec_complex_matches forest.now.trees (complex_from first.now links.entry.now))
        (ancestors forest.now.trees (name_of forest.now key)) ≡ false)
        (λ end. SegmentIsAbove forest.now.trees (complex_from first.now links.entry.now) (name_of forest.now key)
        (complex_from first.now end.links.now) (name_of forest.now end.key)) }
    ensures node { IfSome result (λ end. IsNode forest.now end.key) }
    ensures shorter { IfSome result (λ end. length end.links.now ≤ length links.entry.now) }
{
    forest.law_nodes_stand_once();
    let mut at = forest.parent(key);
    while let Some(above) = at {
        if let Some(end) = segment_from(forest, first, links, above) {
            return Some(end);
        }
        at = forest.parent(above);
    }
    None
}

/// Whether a node where a segment ends matches these links behind the first compound: whether each segment left of it holds at some
/// node above.
fn end_matches(forest: &Forest, first: &Compound, links: &[Link], key: Key) -> bool
    requires node { IsNode forest.now key }
    requires stops { StopsAt IsDescendant forest.now.trees (complex_from first.now links.now) (name_of forest.now key) }
    ensures { result ≡ spec_complex_matches forest.now.trees (complex_from first.now links.now) (name_of forest.now key) }
{
    let mut rest = links;
    let mut at = key;
    while let Some((_, left)) = rest.split_last() {
        let Some(next) = segment_above(forest, first, left, at) else {
            return false;
        };
        rest = next.links;
        at = next.key;
    }
    true
}

/// Whether some ancestor of a node matches these links behind the first compound, by their segments.
#[inline(never)]
pub(crate) fn ancestors_match(forest: &Forest, first: &Compound, links: &[Link], key: Key) -> bool
    requires { IsNode forest.now key }
    ensures { result ≡ list_any (spec_complex_matches forest.now.trees (complex_from first.now links.now))
        (ancestors forest.now.trees (name_of forest.now key)) }
{
    match segment_above(forest, first, links, key) {
        Some(end) => end_matches(forest, first, end.links, end.key),
        None => false,
    }
}

/// Whether a node that matches the compound on the right matches these links behind the first compound, by their segments.
#[inline(never)]
pub(crate) fn segments_match(forest: &Forest, first: &Compound, links: &[Link], key: Key) -> bool
    requires node { IsNode forest.now key }
    requires matches { spec_compound_matches forest.now.trees (last_compound (complex_from first.now links.now)) (name_of forest.now key) ≡ true }
    ensures { result ≡ spec_complex_matches forest.now.trees (complex_from first.now links.now) (name_of forest.now key) }
{
    match segment_end(forest, first, links, key) {
        Some(end) => end_matches(forest, first, end.links, end.key),
        None => false,
    }
}

/// Whether a node matches these links behind the first compound, where it may have the signs of the compound on the right. That one is
/// tried first, since most nodes fail there.
#[inline(never)]
fn shown_links_match(forest: &Forest, first: &Compound, links: &[Link], key: Key) -> bool
    requires { IsNode forest.now key }
    ensures { result ≡ spec_complex_matches forest.now.trees (complex_from first.now links.now) (name_of forest.now key) }
{
    parts_match(&forest.at(key), last_of(first, links).parts.as_slice())
        && (links.is_empty() || segments_match(forest, first, links, key))
}

/// Whether a node matches these links behind the first compound. Most that do not are seen by the signs of the compound on the right, which
/// is given.
#[inline(always)]
pub(crate) fn links_match(node: &NodeAt, last: &Compound, first: &Compound, links: &[Link]) -> bool
    requires { last.now ≡ last_compound (complex_from first.now links.now) }
    ensures { result ≡ spec_complex_matches node.now.whole.trees (complex_from first.now links.now) (name_here node.now) }
{
    node.may_have(last.signs()) && shown_links_match(node.forest(), first, links, node.key())
}

/// The compound on the right of a complex selector.
#[inline(always)]
pub(crate) fn last_of_complex(complex: &Complex) -> &Compound
    ensures { result.now ≡ last_compound (complex_view complex.now) }
{
    last_of(&complex.first, complex.links.as_slice())
}
