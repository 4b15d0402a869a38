//! A node of an arena, where it lies, from which steps lead to others.
ghost use Rattle.std.specs.Prelude.{◌≡◌, ◌<◌, length, Some, slice_get};
ghost use Rattle.std.specs.Option.{ForSome};
ghost use Rattle.node_arena.specs.Nodes.{children_of, parent_of, next_of, prev_of, head_of};
ghost use Rattle.node_arena.specs.Spots.{key_in, linked_to};

use crate::cell::Link;
use crate::cell_at::CellAt;
use crate::{Arena, Key};
use std::marker::Model;

/// A node of an arena, where it lies in memory: what it holds, and a step to a sibling, take no look for the place of a key, and a
/// step to the parent or the first child takes one (own rule). It is seen as the nodes of the arena, and the key of this one.
#[derive(Drop)]
pub struct Walk<'a, T> {
    at: CellAt<'a, T>,
}

impl<'a, T> Model for Walk<'a, T> {
    ghost use Rattle.node_arena.specs.Nodes.{Nodes, nodes_code};
    ghost use Rattle.node_arena.specs.Cells.{lists_of};
    ghost use Rattle.node_arena.specs.Spots.{Spot, spot_code, IsLinkedAt};

    ghost Value = { Spot (Nodes T) };

    ghost coded = { spot_code (nodes_code T.code) };

    ghost view = { λ w. record {
      whole = record { payloads = w.at.whole.payloads; children = lists_of w.at.whole.links };
      key = w.at.key;
    } };

    ghost invariant = { λ w. IsLinkedAt w.at };
}

impl<T> Arena<T> {
    /// A node, where it lies. It is found by one look for the place of its key.
    #[inline(always)]
    pub fn at(&self, key: Key) -> Walk<'_, T>
        requires { key < length self.now.payloads }
        ensures { result ≡ record { whole = self.now; key = key } }
    {
        let at = self.store.at(key);
        Walk { at }
    }
}

impl<'a, T> Walk<'a, T> {
    /// The node that a link leads to, if there is one.
    #[inline(always)]
    fn to(&self, link: Link) -> Option<Walk<'a, T>>
        ensures value { key_in result ≡ linked_to self.now.whole.children self.now.key link }
        ensures same { ForSome result (λ w. w.whole ≡ self.now.whole) }
        ensures node { ForSome (key_in result) (λ k. k < length self.now.whole.payloads) }
    {
        match self.at.to(link) {
            Some(at) => Some(Walk { at }),
            None => None,
        }
    }

    /// The node in whose list of children the node stands, if there is one.
    #[inline(always)]
    pub fn parent(&self) -> Option<Walk<'a, T>>
        ensures value { key_in result ≡ parent_of self.now.whole.children self.now.key }
        ensures same { ForSome result (λ w. w.whole ≡ self.now.whole) }
        ensures node { ForSome (key_in result) (λ k. k < length self.now.whole.payloads) }
    {
        self.to(Link::Parent)
    }

    /// The first child, if the node has children.
    #[inline(always)]
    pub fn first(&self) -> Option<Walk<'a, T>>
        ensures value { key_in result ≡ head_of (children_of self.now.whole.children self.now.key) }
        ensures same { ForSome result (λ w. w.whole ≡ self.now.whole) }
        ensures node { ForSome (key_in result) (λ k. k < length self.now.whole.payloads) }
    {
        self.to(Link::First)
    }

    /// The sibling just after the node, if there is one.
    #[inline(always)]
    pub fn next(&self) -> Option<Walk<'a, T>>
        ensures value { key_in result ≡ next_of self.now.whole.children self.now.key }
        ensures same { ForSome result (λ w. w.whole ≡ self.now.whole) }
        ensures node { ForSome (key_in result) (λ k. k < length self.now.whole.payloads) }
    {
        self.to(Link::Next)
    }

    /// The sibling just before the node, if there is one.
    #[inline(always)]
    pub(crate) fn prev(&self) -> Option<Walk<'a, T>>
        ensures value { key_in result ≡ prev_of self.now.whole.children self.now.key }
        ensures same { ForSome result (λ w. w.whole ≡ self.now.whole) }
        ensures node { ForSome (key_in result) (λ k. k < length self.now.whole.payloads) }
    {
        self.to(Link::Prev)
    }

    /// The node's key.
    #[inline(always)]
    pub fn key(&self) -> Key
        ensures value { result ≡ self.now.key }
        ensures node { self.now.key < length self.now.whole.payloads }
    {
        self.at.key()
    }

    /// What the node holds.
    #[inline(always)]
    pub fn payload(&self) -> &'a T
        ensures { slice_get self.now.whole.payloads self.now.key ≡ Some result.now }
    {
        self.at.payload()
    }
}
