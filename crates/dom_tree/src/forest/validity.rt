//! Which insertions and replacements are refused.
ghost use Rattle.std.specs.Prelude.{◌≡◌, ◌&&◌};
ghost use Rattle.std.specs.Option.{option_map, ForSome};
ghost use Rattle.dom_model.specs.Tree.{kind_of, is_element, is_text, is_document, is_fragment, child_nodes};
ghost use Rattle.dom_model.specs.Validity.{pre_insert_refusal, replace_refusal, first_refusal, placing_tests, without_given, element_count};
ghost use Rattle.dom_model.specs.Validity.{has_text, breaks_document, may_be_parent, may_be_inserted};
ghost use Rattle.dom_tree.specs.Forest.{err_of, IsNode, name_of};
ghost use Rattle.dom_tree.specs.Forest.{name_at};

use crate::Forest;
use dom_base::{Kind, Refusal};
use node_arena::Key;

impl Forest {
    /// Ensures pre-insert validity: whether a node may be put among the children of a parent, before the child given or last;
    /// `Hierarchy` or `NotFound` where not (DOM Standard, concept: ensure pre-insert validity; own rule for a shadow root).
    pub fn check_insert(&self, parent: Key, node: Key, child: Option<Key>) -> Result<(), Refusal>
        requires parent_is_node { IsNode self.now parent }
        requires node_is_node { IsNode self.now node }
        requires child_is_node { ForSome child (IsNode self.now) }
        ensures { err_of result ≡ pre_insert_refusal self.now.trees (name_of self.now parent) (name_of self.now node)
            (option_map (name_of self.now) child) }
    {
        let is_lost = match child {
            Some(child) => self.arena.parent(child) != Some(parent),
            None => false,
        };
        self.check_placing(parent, node, is_lost, None)
    }

    /// Tests whether a node may take the place of a child of a parent: `Hierarchy` or `NotFound` where not (DOM
    /// Standard, concept: replace; own rule for a shadow root).
    pub fn check_replace(&self, parent: Key, node: Key, child: Key) -> Result<(), Refusal>
        requires parent_is_node { IsNode self.now parent }
        requires node_is_node { IsNode self.now node }
        requires child_is_node { IsNode self.now child }
        ensures { err_of result ≡ replace_refusal self.now.trees (name_of self.now parent) (name_of self.now node)
            (name_of self.now child) }
    {
        let is_lost = self.arena.parent(child) != Some(parent);
        self.check_placing(parent, node, is_lost, Some(child))
    }

    /// The tests that an insertion and a replacement share; `replaced` is the child that gives way.
    fn check_placing(
        &self,
        parent: Key,
        node: Key,
        is_lost: bool,
        replaced: Option<Key>,
    ) -> Result<(), Refusal>
        requires parent_is_node { IsNode self.now parent }
        requires node_is_node { IsNode self.now node }
        requires replaced_is_node { ForSome replaced (IsNode self.now) }
        ensures { err_of result ≡ first_refusal
            (placing_tests self.now.trees (name_of self.now parent) (name_of self.now node) is_lost
            (without_given (option_map (name_of self.now) replaced) (child_nodes self.now.trees (name_of self.now parent)))) }
    {
        let into = self.kind(parent);
        let kind = self.kind(node);
        if !may_be_parent(into) {
            return Err(Refusal::Hierarchy);
        }
        if self.is_inclusive_ancestor(node, parent) {
            return Err(Refusal::Hierarchy);
        }
        if is_lost {
            return Err(Refusal::NotFound);
        }
        if !may_be_inserted(kind) {
            return Err(Refusal::Hierarchy);
        }
        if !is_document(into) {
            return Ok(());
        }
        if self.is_text(node) {
            return Err(Refusal::Hierarchy);
        }
        if self.breaks_document(parent, node, replaced) {
            return Err(Refusal::Hierarchy);
        }
        Ok(())
    }

    /// Whether a node brings a document a Text or a second element; `replaced` is the child that gives way.
    fn breaks_document(&self, parent: Key, node: Key, replaced: Option<Key>) -> bool
        requires parent_is_node { IsNode self.now parent }
        requires node_is_node { IsNode self.now node }
        requires replaced_is_node { ForSome replaced (IsNode self.now) }
        ensures { result ≡ breaks_document self.now.trees (name_of self.now node)
            (without_given (option_map (name_of self.now) replaced) (child_nodes self.now.trees (name_of self.now parent))) }
    {
        if !is_fragment(self.kind(node)) {
            return self.is_element(node) && self.element_count(parent, replaced) > 0;
        }
        if self.has_text(node) {
            return true;
        }
        let elements = self.element_count(node, None);
        elements > 1 || elements == 1 && self.element_count(parent, replaced) > 0
    }

    /// How many elements there are among the children of a node, one child apart.
    fn element_count(&self, key: Key, apart: Option<Key>) -> usize
        requires key_is_node { IsNode self.now key }
        requires apart_is_node { ForSome apart (IsNode self.now) }
        ensures { result ≡ element_count (without_given (option_map (name_of self.now) apart) (child_nodes self.now.trees (name_of self.now key))) }
    {
        let mut count = 0;
        let mut at = self.arena.first(key);
        while let Some(child) = at {
            if self.is_element(child) && apart != Some(child) {
                count += 1;
            }
            at = self.arena.next(child);
        }
        count
    }

    /// Whether a node is an element.
    fn is_element(&self, key: Key) -> bool
        requires { IsNode self.now key }
        ensures { result ≡ is_element (kind_of self.now.trees (name_of self.now key)) }
    {
        matches!(self.kind(key), Kind::Element)
    }

    /// Whether a node is a Text.
    fn is_text(&self, key: Key) -> bool
        requires { IsNode self.now key }
        ensures { result ≡ is_text (kind_of self.now.trees (name_of self.now key)) }
    {
        matches!(self.kind(key), Kind::Text)
    }

    /// Whether there is a Text among the children of a node.
    fn has_text(&self, key: Key) -> bool
        requires { IsNode self.now key }
        ensures { result ≡ has_text (child_nodes self.now.trees (name_of self.now key)) }
    {
        let mut at = self.arena.first(key);
        while let Some(child) = at {
            if self.is_text(child) {
                return true;
            }
            at = self.arena.next(child);
        }
        false
    }
}

/// Whether a node of this kind may have children.
fn may_be_parent(kind: Kind) -> bool
    ensures { result ≡ may_be_parent kind }
{
    !matches!(kind, Kind::Text | Kind::Comment)
}

/// Whether a node of this kind may get a parent.
fn may_be_inserted(kind: Kind) -> bool
    ensures { result ≡ may_be_inserted kind }
{
    !matches!(kind, Kind::Document | Kind::Shadow)
}

fn is_document(kind: Kind) -> bool
    ensures { result ≡ is_document kind }
{
    matches!(kind, Kind::Document)
}

fn is_fragment(kind: Kind) -> bool
    ensures { result ≡ is_fragment kind }
{
    matches!(kind, Kind::Fragment)
}
