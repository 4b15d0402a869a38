//! A node of a forest, where it lies in memory.
ghost use Rattle.std.specs.Prelude.{◌≡◌, true, false};
ghost use Rattle.std.specs.Option.{option_map, ForSome};
ghost use Rattle.dom_model.specs.Names.{first_of, items_after, name_eq};
ghost use Rattle.dom_model.specs.Tree.{attribute_value, inclusive_descendants, is_inclusive_ancestor, kind_of, next_sibling, node_in, parent_of};
ghost use Rattle.node_arena.specs.Spots.{key_in};
ghost use Rattle.dom_attributes.specs.Signs.{MustHave};
ghost use Rattle.dom_tree.specs.Forest.{IsNode, name_of};
ghost use Rattle.dom_tree.specs.Spots.{name_here};

use crate::Forest;
use crate::stored::StoredNode;
use dom_attributes::Signs;
use dom_base::Kind;
use node_arena::{Key, Walk};
use std::marker::Model;

/// A node of a forest, where it lies in memory: what is read of it, and a step to a sibling, take no look for the place of a key, and
/// a step to the parent or the first child takes one (own rule). It is seen as the forest and the node's key.
#[derive(Drop)]
pub struct NodeAt<'a> {
    forest: &'a Forest,
    walk: Walk<'a, StoredNode>,
}

impl<'a> Model for NodeAt<'a> {
    ghost use Rattle.node_arena.specs.Spots.{Spot, spot_code};
    ghost use Rattle.dom_tree.specs.Forest.{NamedTrees, named_trees_code};
    ghost use Rattle.dom_tree.specs.Spots.{IsOfForest};

    ghost Value = { Spot NamedTrees };

    ghost coded = { spot_code named_trees_code };

    ghost view = { λ n. record { whole = n.forest.now; key = n.walk.key } };

    ghost invariant = { λ n. IsOfForest n.forest.now n.walk };
}

impl Forest {
    /// A node, where it lies (own rule). It is found by one look for the place of its key.
    #[inline(always)]
    pub fn at(&self, key: Key) -> NodeAt<'_>
        requires { IsNode self.now key }
        ensures { result ≡ record { whole = self.now; key = key } }
    {
        let walk = self.arena.at(key);
        NodeAt { forest: self, walk }
    }
}

impl<'a> NodeAt<'a> {
    /// The forest in which it is a node (own rule).
    #[inline(always)]
    pub fn forest(&self) -> &'a Forest
        ensures { result.now ≡ self.now.whole }
    {
        self.forest
    }

    /// Its key (own rule).
    #[inline(always)]
    pub fn key(&self) -> Key
        ensures value { result ≡ self.now.key }
        ensures node { IsNode self.now.whole self.now.key }
    {
        self.walk.key()
    }

    /// Its kind (DOM Standard, interface Node; own rule for a shadow root).
    #[inline(always)]
    pub fn kind(&self) -> Kind
        ensures { result ≡ kind_of self.now.whole.trees (name_here self.now) }
    {
        self.walk.payload().kind()
    }

    /// Its local name, if it is an element (DOM Standard, concept: local name).
    #[inline(always)]
    pub fn element(&self) -> &'a str
        ensures { result.now ≡ (node_in self.now.whole.trees (name_here self.now)).element }
    {
        self.walk.payload().element()
    }

    /// The data of a Text or a Comment, in code units (DOM Standard, concept: data).
    #[inline(always)]
    pub fn text(&self) -> &'a [u16]
        ensures { result.now ≡ (node_in self.now.whole.trees (name_here self.now)).text }
    {
        self.walk.payload().text()
    }

    /// Whether it may have the local name, the attributes, the classes and the ID that these are signs of (own rule). It takes no look at
    /// what the node holds.
    #[inline(always)]
    pub fn may_have(&self, signs: Signs) -> bool
        ensures { result ≡ false → MustHave (node_in self.now.whole.trees (name_here self.now)).element
            (node_in self.now.whole.trees (name_here self.now)).attributes signs.bits → ⊥ }
    {
        self.walk.payload().may_have(signs)
    }

    /// Its parent, which a root has not (DOM Standard, concept: parent).
    #[inline(always)]
    pub fn parent(&self) -> Option<NodeAt<'a>>
        ensures value { option_map (name_of self.now.whole) (key_in result) ≡ parent_of self.now.whole.trees (name_here self.now) }
        ensures same { ForSome result (λ n. n.whole ≡ self.now.whole) }
        ensures node { ForSome (key_in result) (IsNode self.now.whole) }
    {
        let forest = self.forest;
        match self.walk.parent() {
            Some(walk) => Some(NodeAt { forest, walk }),
            None => None,
        }
    }

    /// Its next sibling, if it has one (DOM Standard, concept: next sibling).
    #[inline(always)]
    pub fn next(&self) -> Option<NodeAt<'a>>
        ensures value { option_map (name_of self.now.whole) (key_in result) ≡ next_sibling self.now.whole.trees (name_here self.now) }
        ensures same { ForSome result (λ n. n.whole ≡ self.now.whole) }
        ensures node { ForSome (key_in result) (IsNode self.now.whole) }
    {
        let forest = self.forest;
        match self.walk.next() {
            Some(walk) => Some(NodeAt { forest, walk }),
            None => None,
        }
    }

    /// The value of its attribute of this name in code units, if there is one (DOM Standard, concept: get an attribute by name).
    #[inline(always)]
    pub fn attr(&self, name: &str) -> Option<&'a [u16]>
        ensures { option_map (λ value. value.now) result ≡ attribute_value (node_in self.now.whole.trees (name_here self.now)) name.now }
    {
        self.walk.payload().attribute(name)
    }

    /// The node just after it in tree order, within the tree of a node `top` in which it stands (DOM Standard, concept: following). A walk
    /// through a tree takes each link at most twice.
    #[inline(always)]
    pub fn following(self, top: Key) -> Option<NodeAt<'a>>
        requires top_is_node { IsNode self.whole top }
        requires within { is_inclusive_ancestor self.whole.trees (name_of self.whole top) (name_here self) ≡ true }
        ensures value { option_map (name_of self.entry.whole) (key_in result) ≡ first_of
            (items_after name_eq (name_here self.entry) (inclusive_descendants self.entry.whole.trees (name_of self.entry.whole top))) }
        ensures same { ForSome result (λ n. n.whole ≡ self.entry.whole) }
        ensures node { ForSome (key_in result) (IsNode self.entry.whole) }
        ensures within { ForSome (key_in result)
            (λ k. is_inclusive_ancestor self.entry.whole.trees (name_of self.entry.whole top) (name_of self.entry.whole k) ≡ true) }
    {
        let NodeAt { forest, walk } = self;
        if let Some(walk) = walk.first() {
            return Some(NodeAt { forest, walk });
        }
        let mut at = walk;
        while at.key() != top {
            if let Some(walk) = at.next() {
                return Some(NodeAt { forest, walk });
            }
            let Some(parent) = at.parent() else {
                return None;
            };
            at = parent;
        }
        None
    }
}
