//! The order of the nodes of a tree, and the places of nodes among their siblings.
ghost use Rattle.std.specs.Prelude.{◌≡◌, ◌<◌, ◌≤◌, ◌^◌, ◌++◌, ◌∷◌, [], ℕ, length, slice_get, true, false, Some, None};
ghost use Rattle.std.specs.Option.{option_map, ForSome};
ghost use Rattle.dom_base.specs.declared.NodeName.{NodeName as Name};
ghost use Rattle.dom_model.specs.Names.{first_of, last_of, items_after, items_before, name_eq};
ghost use Rattle.dom_model.specs.Tree.{children_of, parent_of, is_inclusive_ancestor, index_of, length_of, inclusive_descendants, next_sibling};
ghost use Rattle.dom_laws.specs.Siblings.{from_sibling, without_name};
ghost use Rattle.dom_tree.specs.Forest.{IsNode, name_of};

use crate::Forest;
use dom_base::Kind;
use node_arena::Key;

impl Forest {
    /// The node just after a node in tree order, within the tree of a node `top` in which it stands (DOM Standard,
    /// concept: following). A walk through a tree takes each link at most twice. It is in line, since walks make it at each node.
    #[inline(always)]
    pub fn following(&self, key: Key, top: Key) -> Option<Key>
        requires key_is_node { IsNode self.now key }
        requires top_is_node { IsNode self.now top }
        requires within { is_inclusive_ancestor self.now.trees (name_of self.now top) (name_of self.now key) ≡ true }
        ensures value { option_map (name_of self.now) result ≡ first_of
            (items_after name_eq (name_of self.now key) (inclusive_descendants self.now.trees (name_of self.now top))) }
        ensures node { ForSome result (IsNode self.now) }
        ensures within { ForSome result (λ k. is_inclusive_ancestor self.now.trees (name_of self.now top) (name_of self.now k) ≡ true) }
    {
        match self.at(key).following(top) {
            Some(node) => Some(node.key()),
            None => None,
        }
    }

    /// The node just before a node in tree order, within the tree of a node `top` in which it stands (DOM Standard,
    /// concept: preceding). A walk through a tree takes each link at most twice.
    pub fn preceding(&self, key: Key, top: Key) -> Option<Key>
        requires key_is_node { IsNode self.now key }
        requires top_is_node { IsNode self.now top }
        requires within { is_inclusive_ancestor self.now.trees (name_of self.now top) (name_of self.now key) ≡ true }
        ensures value { option_map (name_of self.now) result ≡ last_of
            (items_before name_eq (name_of self.now key) (inclusive_descendants self.now.trees (name_of self.now top))) }
        ensures node { ForSome result (IsNode self.now) }
        ensures within { ForSome result (λ k. is_inclusive_ancestor self.now.trees (name_of self.now top) (name_of self.now k) ≡ true) }
    {
        let parent = self.arena.parent(key)?;
        if key == top {
            return None;
        }
        let Some(prev) = self.arena.prev(key) else {
            return Some(parent);
        };
        let mut at = prev;
        while let Some(last) = self.arena.last(at) {
            at = last;
        }
        Some(at)
    }

    /// The number of siblings before a node (DOM Standard, concept: index). Those that are remembered are not walked over, and
    /// the others are walked over one by one.
    pub fn index(&self, key: Key) -> usize
        requires { IsNode self.now key }
        ensures { result ≡ index_of self.now.trees (name_of self.now key) }
    {
        let Some(index) = self.arena.index_below(key, usize::MAX) else {
            unreachable!()
        };
        index
    }

    /// The number of siblings before a node, where it is less than a limit (DOM Standard, concept: index). No more siblings than
    /// that are walked over.
    pub fn index_below(&self, key: Key, limit: usize) -> Option<usize>
        requires { IsNode self.now key }
        ensures below { ForSome result (λ i. (i ≡ index_of self.now.trees (name_of self.now key)) × (i < limit)) }
        ensures none { result ≡ None → limit ≤ index_of self.now.trees (name_of self.now key) }
    {
        self.arena.index_below(key, limit)
    }

    /// Remembers the order of the siblings before a node, as many as the limit, so that `index` and `index_below` find them
    /// sooner (own rule). It takes about as long as one walk over those that were not remembered yet. The siblings of two
    /// nodes at a time are remembered, also while nodes come among them and leave. Where memory is refused, fewer are.
    pub fn remember_siblings(&mut self, key: Key, limit: usize)
        requires { IsNode self.old key }
        ensures { self.new ≡ self.old }
    {
        self.arena.remember_siblings(key, limit);
    }

    /// Holds of every forest (own rule): a node has fewer siblings before it than there are nodes.
    pub fn law_index(&self)
        ensures { (k : ℕ) → IsNode self.now k → index_of self.now.trees (name_of self.now k) < length self.now.names }
    {
        let _ = &self.arena;
    }

    /// Holds of every forest (own rule): a walk from the first child of a node to the next sibling, as long as there is one, comes to
    /// each child in its order, and to no other node; the last child stands behind all others; each child stands once among them; no child
    /// stands above its parent; and there are fewer children than nodes, which are at most 2^64.
    pub fn law_children(&self)
        ensures begin { (p : Name) → from_sibling self.now.trees (first_of (children_of self.now.trees p)) ≡ children_of self.now.trees p }
        ensures step { (x : Name) → from_sibling self.now.trees (Some x) ≡ x ∷ from_sibling self.now.trees (next_sibling self.now.trees x) }
        ensures last { (p x : Name) → last_of (children_of self.now.trees p) ≡ Some x →
            without_name x (children_of self.now.trees p) ++ x ∷ [] ≡ children_of self.now.trees p }
        ensures once { (p x : Name) (i j : ℕ) → slice_get (children_of self.now.trees p) i ≡ Some x →
            slice_get (children_of self.now.trees p) j ≡ Some x → i ≡ j }
        ensures apart { (k p : ℕ) → IsNode self.now k → IsNode self.now p →
            parent_of self.now.trees (name_of self.now k) ≡ Some (name_of self.now p) →
            is_inclusive_ancestor self.now.trees (name_of self.now k) (name_of self.now p) ≡ false }
        ensures fewer { (k : ℕ) → IsNode self.now k → length (children_of self.now.trees (name_of self.now k)) < length self.now.names }
        ensures few { length self.now.names ≤ 2 ^ 64 }
    {
        let _ = &self.arena;
    }

    /// The number of code units of a Text or a Comment, and of another node that of its children, which are counted
    /// (DOM Standard, 4.2: length).
    pub fn length(&self, key: Key) -> usize
        requires { IsNode self.now key }
        ensures { result ≡ length_of self.now.trees (name_of self.now key) }
    {
        match self.kind(key) {
            Kind::Text | Kind::Comment => self.text(key).len(),
            _ => self.child_count(key),
        }
    }

    /// How many children a node has: the siblings before the last of them, and this one.
    fn child_count(&self, key: Key) -> usize
        requires { IsNode self.now key }
        ensures { result ≡ length (children_of self.now.trees (name_of self.now key)) }
    {
        match self.arena.last(key) {
            Some(last) => self.index(last) + 1,
            None => 0,
        }
    }
}
