//! Which nodes are marked.
ghost use Rattle.std.specs.Prelude.{◌≡◌, ℕ, ◌<◌, length, nat_eq, true, Some, if◌then◌else◌, IfOk, OnOk, OnErr};
ghost use Rattle.std.specs.Option.{ForSome};
ghost use Rattle.dom_tree.specs.Forest.{IsNode};
ghost use Rattle.dom_observers.specs.Marks.{marked_in, is_marked, IsNearest};
ghost use Rattle.dom_observers.specs.Paths.{keys_from};

use dom_tree::Forest;
use node_arena::Key;
use std::alloc::{AllocError, Global};

/// Which nodes are marked, by one look without a hash. One alone takes no memory. Of more there is a byte for each number of a node up to the
/// greatest that was marked.
#[derive(Drop)]
pub enum Marks {
    Empty,
    One(Key),
    Many(Vec<bool>),
}

impl Marks {
    /// Whether a node is marked.
    pub(crate) fn contains(&self, node: Key) -> bool
        ensures { result ≡ is_marked self.now node }
    {
        match self {
            Marks::Empty => false,
            Marks::One(only) => *only == node,
            Marks::Many(marked) => marked.get(node.index()).copied().unwrap_or(false),
        }
    }

    /// Marks a node. Where memory is refused, all is as it was.
    pub(crate) fn insert(&mut self, alloc: Global, node: Key) -> Result<(), AllocError>
        ensures marked { OnOk result ((x : ℕ) → is_marked self.new x ≡ (if nat_eq node x then true else is_marked self.old x)) }
        ensures same { OnErr result ((x : ℕ) → is_marked self.new x ≡ is_marked self.old x) }
    {
        match self {
            Marks::Empty => *self = Marks::One(node),
            Marks::One(only) if *only == node => {}
            Marks::One(only) => *self = Marks::Many(both(alloc, *only, node)?),
            Marks::Many(marked) => mark(marked, node)?,
        }
        Ok(())
    }

    /// Takes a node's mark away.
    pub(crate) fn remove(&mut self, node: Key) {
        match self {
            Marks::Empty => {}
            Marks::One(only) if *only != node => {}
            Marks::One(_) => *self = Marks::Empty,
            Marks::Many(marked) => {
                if let Some(mark) = marked.get_mut(node.index()) {
                    *mark = false;
                }
            }
        }
    }

    /// The node that is marked, where it is one alone.
    pub(crate) fn only(&self) -> Option<Key>
        ensures { ForSome result (λ k. (x : ℕ) → is_marked self.now x ≡ nat_eq k x) }
    {
        match self {
            Marks::One(only) => Some(*only),
            _ => None,
        }
    }

    /// The nearest node that is marked, of a node and its ancestors, where one is given (DOM Standard, concept: inclusive ancestor).
    /// Where one alone is marked, and is known to stand above, there is no walk.
    pub(crate) fn nearest(&self, forest: &Forest, from: Option<Key>) -> Option<Key>
        requires { ForSome from (IsNode forest.now) }
        ensures { IsNearest forest.now self.now from result }
    {
        let start = from;
        match self.known_above(forest, start) {
            Some(only) => Some(only),
            None => self.nearest_by_walk(forest, from),
        }
    }

    /// The node that is marked alone, where the forest knows that it stands above another one.
    fn known_above(&self, forest: &Forest, from: Option<Key>) -> Option<Key>
        requires { ForSome from (IsNode forest.now) }
        ensures { ForSome result (λ k. IsNearest forest.now self.now from (Some k)) }
    {
        forest.law_nodes_stand_once();
        let Some(node) = from else {
            return None;
        };
        let Marks::One(only) = self else {
            return None;
        };
        if !forest.is_known_above(*only, node) {
            return None;
        }
        Some(*only)
    }

    /// The nearest node that is marked, as `nearest` says, by a walk upwards.
    #[inline(never)]
    fn nearest_by_walk(&self, forest: &Forest, from: Option<Key>) -> Option<Key>
        requires { ForSome from (IsNode forest.now) }
        ensures { IsNearest forest.now self.now from result }
    {
        forest.law_nodes_stand_once();
        let mut at = from;
        while let Some(node) = at {
            if self.contains(node) {
                return Some(node);
            }
            at = forest.parent(node);
        }
        None
    }
}

/// Makes a place for the mark of a node, where there is none.
fn reach(marked: &mut Vec<bool>, node: Key) -> Result<(), AllocError>
    ensures same { (x : ℕ) → marked_in marked.new.items x ≡ marked_in marked.old.items x }
    ensures there { OnOk result (node < length marked.new.items) }
{
    let count = node.index().checked_add(1).ok_or(AllocError)?;
    if marked.len() < count {
        marked.resize(count, false)?;
    }
    Ok(())
}

/// Marks a node, for which there is a place.
fn set(marked: &mut Vec<bool>, node: Key)
    requires { node < length marked.old.items }
    ensures { (x : ℕ) → marked_in marked.new.items x ≡ (if nat_eq node x then true else marked_in marked.old.items x) }
{
    marked[node.index()] = true;
}

/// Marks a node. Where memory is refused, all is as it was.
fn mark(marked: &mut Vec<bool>, node: Key) -> Result<(), AllocError>
    ensures marked { OnOk result ((x : ℕ) → marked_in marked.new.items x ≡ (if nat_eq node x then true else marked_in marked.old.items x)) }
    ensures same { OnErr result ((x : ℕ) → marked_in marked.new.items x ≡ marked_in marked.old.items x) }
{
    reach(marked, node)?;
    set(marked, node);
    Ok(())
}

/// The marks of a node and of another one.
fn both(alloc: Global, first: Key, node: Key) -> Result<Vec<bool>, AllocError>
    ensures { IfOk result (λ marked. (x : ℕ) → marked_in marked.items x ≡ (if nat_eq node x then true else nat_eq first x)) }
{
    let mut marked = Vec::new(alloc);
    mark(&mut marked, first)?;
    mark(&mut marked, node)?;
    Ok(marked)
}
