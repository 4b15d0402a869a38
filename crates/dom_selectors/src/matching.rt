//! Which elements match simple selectors and compounds.
ghost use Rattle.std.specs.Prelude.{◌≡◌, ◌&&◌, map, string_bytes};
ghost use Rattle.std.specs.List.{list_all};
ghost use Rattle.dom_model.specs.Tree.{is_element as spec_is_element, kind_of, node_in};
ghost use Rattle.dom_model.specs.Selectors.{attribute_passes as spec_attribute_passes, simple_matches as spec_simple_matches};
ghost use Rattle.dom_model.specs.Selectors.{part_matches as spec_part_matches, compound_matches as spec_compound_matches, of_id, of_class};
ghost use Rattle.dom_tree.specs.Forest.{IsNode, name_of};
ghost use Rattle.dom_tree.specs.Spots.{name_here};
ghost use Rattle.dom_selectors.specs.Views.{test_view, simple_view, part_view, compound_view};

use crate::selector::{AttributeTest, Compound, CompoundPart, Simple, Simples};
use crate::siblings::{Side, element_beside};
use crate::values::{is_among_words, value_passes};
use dom_attributes::{is_same_string, is_same_text};
use dom_base::Kind;
use dom_tree::{Forest, NodeAt};
use node_arena::Key;

/// Whether a node is an element.
#[inline(always)]
fn is_element(node: &NodeAt) -> bool
    ensures { result ≡ spec_is_element (kind_of node.now.whole.trees (name_here node.now)) }
{
    matches!(node.kind(), Kind::Element)
}

/// Whether a node has an attribute with a value as a test asks.
#[inline(always)]
fn attribute_passes(node: &NodeAt, name: &str, test: AttributeTest, value: &[u16]) -> bool
    ensures { result ≡ spec_attribute_passes (node_in node.now.whole.trees (name_here node.now)) name.now (test_view test) value.now }
{
    match node.attr(name) {
        Some(text) => value_passes(test, value, text),
        None => false,
    }
}

/// Whether a node has this ID.
#[inline(always)]
fn has_id(node: &NodeAt, id: &[u16]) -> bool
    ensures { result ≡ spec_simple_matches node.now.whole.trees (name_here node.now) (of_id id.now) }
{
    match node.attr("id") {
        Some(text) => is_same_string(text, id),
        None => false,
    }
}

/// Whether a node has this class.
#[inline(always)]
fn has_class(node: &NodeAt, class: &[u16]) -> bool
    ensures { result ≡ spec_simple_matches node.now.whole.trees (name_here node.now) (of_class class.now) }
{
    match node.attr("class") {
        Some(text) => is_among_words(class, text),
        None => false,
    }
}

/// Whether an element matches a simple selector.
#[inline(always)]
fn simple_matches(node: &NodeAt, simple: &Simple) -> bool
    ensures { result ≡ spec_simple_matches node.now.whole.trees (name_here node.now) (simple_view simple.now) }
{
    match simple {
        Simple::OfType(name) => is_same_text(node.element(), name.as_str()),
        Simple::OfAnyType => true,
        Simple::OfId(id) => has_id(node, id),
        Simple::OfClass(class) => has_class(node, class),
        Simple::WithAttribute(name) => node.attr(name.as_str()).is_some(),
        Simple::WithValue(name, test, value) => {
            attribute_passes(node, name.as_str(), *test, value)
        }
        Simple::FirstChild => element_beside(node.forest(), Side::Before, node.key()).is_none(),
        Simple::LastChild => element_beside(node.forest(), Side::Behind, node.key()).is_none(),
    }
}

/// Whether an element matches all of some simple selectors. Most that do not are seen by their signs.
#[inline(always)]
fn simples_match(node: &NodeAt, simples: &Simples) -> bool
    ensures { result ≡ list_all (spec_simple_matches node.now.whole.trees (name_here node.now)) simples.now }
{
    node.may_have(simples.signs)
        && all_simple_match(node.forest(), node.key(), simples.list.as_slice())
}

/// Whether an element matches all of some simple selectors.
#[inline(never)]
fn all_simple_match(forest: &Forest, key: Key, simples: &[Simple]) -> bool
    requires { IsNode forest.now key }
    ensures { result ≡ list_all (λ s. spec_simple_matches forest.now.trees (name_of forest.now key) (simple_view s)) simples.now }
{
    let node = forest.at(key);
    let mut rest = simples;
    while let [simple, others @ ..] = rest {
        if !simple_matches(&node, simple) {
            return false;
        }
        rest = others;
    }
    true
}

/// Whether an element matches a part of a compound.
#[inline(always)]
fn part_matches(node: &NodeAt, part: &CompoundPart) -> bool
    ensures { result ≡ spec_part_matches node.now.whole.trees (name_here node.now) (part_view part.now) }
{
    match part {
        CompoundPart::Is(simple) => simple_matches(node, simple),
        CompoundPart::IsNot(simples) => !simples_match(node, simples),
    }
}

/// Whether an element matches all of some parts of a compound.
#[inline(always)]
fn all_parts_match(node: &NodeAt, parts: &[CompoundPart]) -> bool
    ensures { result ≡ list_all (spec_part_matches node.now.whole.trees (name_here node.now)) (compound_view parts.now) }
{
    let mut rest = parts;
    while let [part, others @ ..] = rest {
        if !part_matches(node, part) {
            return false;
        }
        rest = others;
    }
    true
}

/// Whether a node is an element that matches some parts.
#[inline(always)]
pub(crate) fn element_matches(node: &NodeAt, parts: &[CompoundPart]) -> bool
    ensures { result ≡ spec_compound_matches node.now.whole.trees (compound_view parts.now) (name_here node.now) }
{
    is_element(node) && all_parts_match(node, parts)
}

/// Whether a node is an element that matches the parts of a compound. The local name comes first where one is asked for, and what is one
/// simple selector alone is tried without a walk over parts.
#[inline(always)]
pub(crate) fn parts_match(node: &NodeAt, parts: &[CompoundPart]) -> bool
    ensures { result ≡ spec_compound_matches node.now.whole.trees (compound_view parts.now) (name_here node.now) }
{
    match parts {
        [CompoundPart::Is(Simple::OfType(name)), others @ ..] => {
            is_same_text(node.element(), name.as_str()) && element_matches(node, others)
        }
        [CompoundPart::Is(simple)] => { simple_matches(node, simple) && is_element(node) }
        _ => element_matches(node, parts),
    }
}

/// Whether a node is an element that matches a compound. Most that do not are seen by their signs.
#[inline(always)]
pub(crate) fn compound_matches(node: &NodeAt, compound: &Compound) -> bool
    ensures { result ≡ spec_compound_matches node.now.whole.trees compound.now (name_here node.now) }
{
    node.may_have(compound.signs) && parts_match(node, compound.parts.as_slice())
}
