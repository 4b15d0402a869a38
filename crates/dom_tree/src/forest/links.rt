//! How nodes stand in their trees, and how a tree is put into another one or taken out.
ghost use Rattle.std.specs.Prelude.{◌≡◌, ◌≢◌, ℕ, ◌++◌, ◌∷◌, [], true, false, Some, None, slice_get};
ghost use Rattle.std.specs.Option.{option_map, ForSome};
ghost use Rattle.dom_model.specs.Names.{first_of, last_of};
ghost use Rattle.dom_model.specs.Tree.{parent_of, children_of, next_sibling, previous_sibling, inclusive_ancestors, is_inclusive_ancestor, root_of};
ghost use Rattle.dom_model.specs.Tree.{node_in};
ghost use Rattle.dom_model.specs.TreeChanges.{placed, taken_out};
ghost use Rattle.dom_laws.specs.Siblings.{put_name, without_name};
ghost use Rattle.dom_tree.specs.Forest.{IsNode, name_of};

use crate::Forest;
use node_arena::Key;

impl Forest {
    /// The parent of a node, which a root has not (DOM Standard, concept: parent).
    pub fn parent(&self, key: Key) -> Option<Key>
        requires { IsNode self.now key }
        ensures value { option_map (name_of self.now) result ≡ parent_of self.now.trees (name_of self.now key) }
        ensures node { ForSome result (IsNode self.now) }
        ensures above { ForSome result (λ p. is_inclusive_ancestor self.now.trees (name_of self.now key) (name_of self.now p) ≡ false) }
    {
        self.arena.parent(key)
    }

    /// The first child of a node, if it has children (DOM Standard, concept: first child).
    pub fn first(&self, key: Key) -> Option<Key>
        requires { IsNode self.now key }
        ensures value { option_map (name_of self.now) result ≡ first_of (children_of self.now.trees (name_of self.now key)) }
        ensures node { ForSome result (IsNode self.now) }
        ensures child { ForSome result (λ k. parent_of self.now.trees (name_of self.now k) ≡ Some (name_of self.now key)) }
    {
        self.arena.first(key)
    }

    /// The last child of a node, if it has children (DOM Standard, concept: last child).
    pub fn last(&self, key: Key) -> Option<Key>
        requires { IsNode self.now key }
        ensures value { option_map (name_of self.now) result ≡ last_of (children_of self.now.trees (name_of self.now key)) }
        ensures node { ForSome result (IsNode self.now) }
        ensures child { ForSome result (λ k. parent_of self.now.trees (name_of self.now k) ≡ Some (name_of self.now key)) }
    {
        self.arena.last(key)
    }

    /// The child of a node at an index, if it has so many (DOM Standard, concepts: child, index). Children that are remembered are
    /// not walked over, and those behind them are walked over one by one.
    pub fn child(&self, key: Key, index: usize) -> Option<Key>
        requires { IsNode self.now key }
        ensures value { option_map (name_of self.now) result ≡ slice_get (children_of self.now.trees (name_of self.now key)) index }
        ensures node { ForSome result (IsNode self.now) }
        ensures child { ForSome result (λ k. parent_of self.now.trees (name_of self.now k) ≡ Some (name_of self.now key)) }
    {
        self.arena.child(key, index)
    }

    /// The next sibling of a node, if it has one (DOM Standard, concept: next sibling).
    pub fn next(&self, key: Key) -> Option<Key>
        requires { IsNode self.now key }
        ensures value { option_map (name_of self.now) result ≡ next_sibling self.now.trees (name_of self.now key) }
        ensures node { ForSome result (IsNode self.now) }
        ensures sibling { ForSome result (λ k. parent_of self.now.trees (name_of self.now k) ≡ parent_of self.now.trees (name_of self.now key)) }
    {
        self.arena.next(key)
    }

    /// The previous sibling of a node, if it has one (DOM Standard, concept: previous sibling).
    pub fn prev(&self, key: Key) -> Option<Key>
        requires { IsNode self.now key }
        ensures value { option_map (name_of self.now) result ≡ previous_sibling self.now.trees (name_of self.now key) }
        ensures node { ForSome result (IsNode self.now) }
        ensures sibling { ForSome result (λ k. parent_of self.now.trees (name_of self.now k) ≡ parent_of self.now.trees (name_of self.now key)) }
    {
        self.arena.prev(key)
    }

    /// Makes a root with the tree below it a child of another node, just before the child given, or behind all where
    /// none is given. The parent must not stand in that tree (own rule: the one way in which a tree is put into
    /// another).
    pub fn link_before(&mut self, parent: Key, child: Key, before: Option<Key>)
        requires parent_is_node { IsNode self.old parent }
        requires child_is_node { IsNode self.old child }
        requires unlinked { parent_of self.old.trees (name_of self.old child) ≡ None }
        requires not_above { is_inclusive_ancestor self.old.trees (name_of self.old child) (name_of self.old parent) ≡ false }
        requires before_is_node { ForSome before (IsNode self.old) }
        requires before_is_child { ForSome before (λ b. parent_of self.old.trees (name_of self.old b) ≡ Some (name_of self.old parent)) }
        ensures names { self.new.names ≡ self.old.names }
        ensures trees { self.new.trees ≡ placed (name_of self.old child) (name_of self.old parent)
            (option_map (name_of self.old) before) self.old.trees }
        ensures linked { parent_of self.new.trees (name_of self.old child) ≡ Some (name_of self.old parent) }
        // What is not below the child keeps all that is above it.
        ensures above { (k : ℕ) → IsNode self.old k →
            is_inclusive_ancestor self.old.trees (name_of self.old child) (name_of self.old k) ≡ false →
            inclusive_ancestors self.new.trees (name_of self.old k) ≡ inclusive_ancestors self.old.trees (name_of self.old k) }
        ensures children { children_of self.new.trees (name_of self.old parent) ≡ put_name (option_map (name_of self.old) before)
            (name_of self.old child) (children_of self.old.trees (name_of self.old parent)) }
        ensures comes_first { option_map (name_of self.old) before ≡ first_of (children_of self.old.trees (name_of self.old parent)) →
            children_of self.new.trees (name_of self.old parent) ≡ name_of self.old child ∷ children_of self.old.trees (name_of self.old parent) }
        ensures comes_last { before ≡ None →
            children_of self.new.trees (name_of self.old parent) ≡ children_of self.old.trees (name_of self.old parent) ++ name_of self.old child ∷ [] }
        ensures others { (k : ℕ) → IsNode self.old k → k ≢ parent →
            children_of self.new.trees (name_of self.old k) ≡ children_of self.old.trees (name_of self.old k) }
        ensures parents { (k : ℕ) → IsNode self.old k → k ≢ child →
            parent_of self.new.trees (name_of self.old k) ≡ parent_of self.old.trees (name_of self.old k) }
        ensures held { (k : ℕ) → IsNode self.old k →
            node_in self.new.trees (name_of self.old k) ≡ node_in self.old.trees (name_of self.old k) }
    {
        self.arena.link_before(parent, child, before);
    }

    /// Makes a node with what is below it a tree of its own; of a root, nothing (own rule: the one way in which a
    /// tree is taken out of another).
    pub fn unlink(&mut self, key: Key)
        requires { IsNode self.old key }
        ensures names { self.new.names ≡ self.old.names }
        ensures trees { self.new.trees ≡ taken_out (name_of self.old key) self.old.trees }
        ensures unlinked { parent_of self.new.trees (name_of self.old key) ≡ None }
        // What is not below the node keeps all that is above it.
        ensures above { (k : ℕ) → IsNode self.old k →
            is_inclusive_ancestor self.old.trees (name_of self.old key) (name_of self.old k) ≡ false →
            inclusive_ancestors self.new.trees (name_of self.old k) ≡ inclusive_ancestors self.old.trees (name_of self.old k) }
        ensures children { (k : ℕ) → IsNode self.old k → children_of self.new.trees (name_of self.old k) ≡ without_name (name_of self.old key)
            (children_of self.old.trees (name_of self.old k)) }
        ensures others { (k : ℕ) → IsNode self.old k → parent_of self.old.trees (name_of self.old key) ≢ Some (name_of self.old k) →
            children_of self.new.trees (name_of self.old k) ≡ children_of self.old.trees (name_of self.old k) }
        ensures parents { (k : ℕ) → IsNode self.old k → k ≢ key →
            parent_of self.new.trees (name_of self.old k) ≡ parent_of self.old.trees (name_of self.old k) }
        ensures held { (k : ℕ) → IsNode self.old k →
            node_in self.new.trees (name_of self.old k) ≡ node_in self.old.trees (name_of self.old k) }
    {
        self.arena.unlink(key);
    }

    /// The topmost node of the tree in which a node stands (DOM Standard, concept: root).
    pub fn root(&self, key: Key) -> Key
        requires { IsNode self.now key }
        ensures value { name_of self.now result ≡ root_of self.now.trees (name_of self.now key) }
        ensures node { IsNode self.now result }
    {
        let mut top = self.arena.at(key);
        while let Some(parent) = top.parent() {
            top = parent;
        }
        top.key()
    }

    /// Whether a node is another one or stands above it (DOM Standard, concept: inclusive ancestor). Of a node
    /// without children, and where it is remembered, this takes no walk.
    pub fn is_inclusive_ancestor(&self, above: Key, key: Key) -> bool
        requires above_is_node { IsNode self.now above }
        requires key_is_node { IsNode self.now key }
        ensures { result ≡ is_inclusive_ancestor self.now.trees (name_of self.now above) (name_of self.now key) }
    {
        self.arena.is_inclusive_ancestor(above, key)
    }

    /// Whether what is remembered tells that a node stands above another one (own rule). It takes a few looks, and where it is not
    /// told, it may yet be so.
    pub fn is_known_above(&self, above: Key, key: Key) -> bool
        requires { IsNode self.now key }
        ensures above { result ≡ true → is_inclusive_ancestor self.now.trees (name_of self.now above) (name_of self.now key) ≡ true }
        ensures node { result ≡ true → IsNode self.now above }
    {
        self.arena.is_known_above(above, key)
    }

    /// Remembers that a node is another one or stands above it, where it is so (own rule). Then `is_inclusive_ancestor` takes no walk
    /// for the two, nor for the upper one and a node near the lower one: a parent, a child, a sibling or a sibling of a parent. It is
    /// forgotten where a node leaves its parent, and where something else is remembered.
    pub fn remember_ancestor(&mut self, above: Key, key: Key)
        requires { IsNode self.old key }
        ensures { self.new ≡ self.old }
    {
        self.arena.remember_ancestor(above, key);
    }
}
