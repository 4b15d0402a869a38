//! The names of nodes.
ghost use Rattle.std.specs.Prelude.{◌≡◌, ◌≤◌, ℕ, ◌++◌, length, map, take, All, IfOk, OnOk, OnErr};
ghost use Rattle.dom_printer.specs.Names.{name_view};
ghost use Rattle.dom_tree.specs.Forest.{IsNode, name_of};

use dom_base::NodeName;
use dom_printer::{LentName, Names};
use dom_tree::Forest;
use node_arena::Key;
use smallvec::SmallVec;
use std::alloc::{AllocError, Global};

/// The name of a node, with its owner lent.
#[inline(always)]
pub fn lent_name(forest: &Forest, key: Key) -> LentName<'_>
    requires { IsNode forest.now key }
    ensures { name_view result ≡ name_of forest.now key }
{
    let (owner, number) = forest.lent_name(key);
    LentName { owner, number }
}

/// A forest as what tells the names of its nodes, which are given by their keys.
#[derive(Clone, Copy)]
pub struct NodeNames<'a> {
    pub forest: &'a Forest,
}

impl Names<Key> for NodeNames<'_> {
    ghost name = { λ names key. name_of names.forest.now key };

    ghost knows = { λ names key. IsNode names.forest.now key };

    #[inline(always)]
    fn lent<'a>(&'a self, node: &'a Key) -> LentName<'a> {
        lent_name(self.forest, *node)
    }
}

/// The names of nodes, in their order, with their owners lent. One or two take no memory. The only error is memory refused (own rule).
pub fn names_of<'a>(
    alloc: Global,
    forest: &'a Forest,
    keys: &[Key],
) -> Result<SmallVec<LentName<'a>, 2>, AllocError>
    requires { All (IsNode forest.now) keys.now }
    ensures { IfOk result (λ names. map name_view names.items ≡ map (name_of forest.now) keys.now) }
{
    let mut names = SmallVec::with_capacity(alloc, keys.len())?;
    for key in keys {
        names.push(lent_name(forest, *key))?;
    }
    Ok(names)
}

/// Puts the names of nodes, in their order, behind others. The only error is memory refused: then the names of the first so many are put
/// (own rule).
pub fn put_names(names: &mut Vec<NodeName>, forest: &Forest, keys: &[Key]) -> Result<(), AllocError>
    requires { All (IsNode forest.now) keys.now }
    ensures ok { OnOk result (names.new.items ≡ names.old.items ++ map (name_of forest.now) keys.now) }
    ensures err { OnErr result ((count : ℕ) × (count ≤ length keys.now)
        × (names.new.items ≡ names.old.items ++ map (name_of forest.now) (take count keys.now))) }
{
    for key in keys {
        names.push(forest.name(*key))?;
    }
    Ok(())
}
