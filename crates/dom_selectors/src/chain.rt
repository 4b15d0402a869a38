//! Runs of `>` and `+`, from the right: each leaves one node to go to, so a run ends at one node or nowhere.
ghost use Rattle.std.specs.Prelude.{◌≡◌, ◌≤◌, true, false, length, MatchOption, IfSome};
ghost use Rattle.std.specs.List.{list_any};
ghost use Rattle.std.specs.Option.{option_map, ForSome};
ghost use Rattle.dom_model.specs.Selectors.{compound_matches as spec_compound_matches, complex_matches as spec_complex_matches, elements_before};
ghost use Rattle.dom_tree.specs.Forest.{IsNode, name_of};
ghost use Rattle.dom_selectors.specs.Search.{ChainEnds, ChainIsBefore, IsSearched, last_compound, only_left as spec_only_left};
ghost use Rattle.dom_selectors.specs.Views.{combinator_view, complex_from};

use crate::matching::compound_matches;
use crate::selector::{Combinator, Compound, Link};
use crate::siblings::{Side, element_beside};
use dom_tree::Forest;
use node_arena::Key;

/// Where a search has come to: a node, and the links up to the compound that it matches.
#[derive(Clone, Copy)]
pub(crate) struct Place<'a> {
    pub(crate) links: &'a [Link],
    pub(crate) key: Key,
}

/// Whether a combinator leaves more than one node to try.
#[inline(always)]
fn is_searched(combinator: Combinator) -> bool
    ensures yes { result ≡ true → IsSearched (combinator_view combinator) }
    ensures no { result ≡ false → ¬ IsSearched (combinator_view combinator) }
{
    match combinator {
        Combinator::Descendant | Combinator::Later => true,
        Combinator::Child | Combinator::Next => false,
    }
}

/// The one node that `>` or `+` leaves from a node, if it leaves one.
#[inline(always)]
fn only_left(forest: &Forest, combinator: Combinator, key: Key) -> Option<Key>
    requires { IsNode forest.now key }
    ensures value { option_map (name_of forest.now) result ≡ spec_only_left forest.now.trees (combinator_view combinator) (name_of forest.now key) }
    ensures node { ForSome result (IsNode forest.now) }
{
    match combinator {
        Combinator::Child => forest.parent(key),
        Combinator::Next => element_beside(forest, Side::Before, key),
        Combinator::Descendant | Combinator::Later => None,
    }
}

/// The compound on the right.
#[inline(always)]
pub(crate) fn last_of<'a>(first: &'a Compound, links: &'a [Link]) -> &'a Compound
    ensures { result.now ≡ last_compound (complex_from first.entry.now links.entry.now) }
{
    match links.split_last() {
        None => first,
        Some((last, _left)) => &last.compound,
    }
}

/// Whether a node matches the compound on the right.
#[inline(always)]
pub(crate) fn last_matches(forest: &Forest, first: &Compound, links: &[Link], key: Key) -> bool
    requires { IsNode forest.now key }
    ensures { result ≡ spec_compound_matches forest.now.trees (last_compound (complex_from first.now links.now)) (name_of forest.now key) }
{
    compound_matches(&forest.at(key), last_of(first, links))
}

/// Where the chain from a node that matches the compound on the right ends: before white space, before `~` or with the first
/// compound; none where a compound on the way does not match.
#[inline(always)]
pub(crate) fn chain_end<'a>(
    forest: &Forest,
    first: &Compound,
    links: &'a [Link],
    key: Key,
) -> Option<Place<'a>>
    requires node { IsNode forest.now key }
    requires matches { spec_compound_matches forest.now.trees (last_compound (complex_from first.now links.now)) (name_of forest.now key) ≡ true }
    ensures ends { MatchOption result (spec_complex_matches forest.now.trees (complex_from first.now links.entry.now)
        (name_of forest.now key) ≡ false)
        (λ end. ChainEnds forest.now.trees (complex_from first.now links.entry.now) (name_of forest.now key)
        (complex_from first.now end.links.now) (name_of forest.now end.key)) }
    ensures node { IfSome result (λ end. IsNode forest.now end.key) }
    ensures shorter { IfSome result (λ end. length end.links.now ≤ length links.entry.now) }
{
    forest.law_nodes_stand_once();
    let mut rest = links;
    let mut at = key;
    while let Some((last, left)) = rest.split_last() {
        if is_searched(last.combinator) {
            return Some(Place {
                links: rest,
                key: at,
            });
        }
        at = only_left(forest, last.combinator, at)?;
        if !last_matches(forest, first, left, at) {
            return None;
        }
        rest = left;
    }
    Some(Place {
        links: rest,
        key: at,
    })
}

/// Where the chain from a node ends, or none where it does not hold there.
#[inline(always)]
#[tactic(auto, using(crate::proofs::Chains::not_last))]
fn chain_from<'a>(
    forest: &Forest,
    first: &Compound,
    links: &'a [Link],
    key: Key,
) -> Option<Place<'a>>
    requires { IsNode forest.now key }
    ensures ends { MatchOption result (spec_complex_matches forest.now.trees (complex_from first.now links.entry.now)
        (name_of forest.now key) ≡ false)
        (λ end. ChainEnds forest.now.trees (complex_from first.now links.entry.now) (name_of forest.now key)
        (complex_from first.now end.links.now) (name_of forest.now end.key)) }
    ensures node { IfSome result (λ end. IsNode forest.now end.key) }
    ensures shorter { IfSome result (λ end. length end.links.now ≤ length links.entry.now) }
{
    if !last_matches(forest, first, links, key) {
        return None;
    }
    chain_end(forest, first, links, key)
}

/// Where the chain ends from the nearest element before a node among its siblings at which it holds.
pub(crate) fn chain_before<'a>(
    forest: &Forest,
    first: &Compound,
    links: &'a [Link],
    key: Key,
) -> Option<Place<'a>>
    requires { IsNode forest.now key }
    ensures ends { MatchOption result (list_any (spec_complex_matches forest.now.trees (complex_from first.now links.entry.now))
        (elements_before forest.now.trees (name_of forest.now key)) ≡ false)
        (λ end. ChainIsBefore forest.now.trees (complex_from first.now links.entry.now) (name_of forest.now key)
        (complex_from first.now end.links.now) (name_of forest.now end.key)) }
    ensures node { IfSome result (λ end. IsNode forest.now end.key) }
    ensures shorter { IfSome result (λ end. length end.links.now ≤ length links.entry.now) }
{
    forest.law_nodes_stand_once();
    let mut at = element_beside(forest, Side::Before, key);
    while let Some(before) = at {
        if let Some(end) = chain_from(forest, first, links, before) {
            return Some(end);
        }
        at = element_beside(forest, Side::Before, before);
    }
    None
}
