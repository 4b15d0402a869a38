//! The inclusive ancestors of a node.
ghost use Rattle.std.specs.Prelude.{◌≡◌, map, IfOk};
ghost use Rattle.std.specs.List.{AllByRecursion};
ghost use Rattle.dom_model.specs.Tree.{inclusive_ancestors as all_above};
ghost use Rattle.dom_observers.specs.Paths.{path_keys};
ghost use Rattle.dom_tree.specs.Forest.{IsNode, name_of};

use dom_tree::Forest;
use node_arena::Key;
use smallvec::SmallVec;
use std::alloc::{AllocError, Global};

/// A node and its ancestors, the nearest first (DOM Standard, concept: inclusive ancestor). Those of a node that is not deep are
/// listed without memory being asked for. It is refused where memory is.
pub fn inclusive_ancestors(
    alloc: Global,
    forest: &Forest,
    key: Key,
) -> Result<SmallVec<Key, 8>, AllocError>
    requires { IsNode forest.now key }
    ensures keys { IfOk result (λ path. path.items ≡ path_keys forest.now key) }
    ensures names { IfOk result (λ path. map (name_of forest.now) path.items ≡ all_above forest.now.trees (name_of forest.now key)) }
    ensures nodes { IfOk result (λ path. AllByRecursion (IsNode forest.now) path.items) }
{
    forest.law_nodes_stand_once();
    let mut path = SmallVec::new(alloc);
    let mut at = Some(key);
    while let Some(node) = at {
        path.push(node)?;
        at = forest.parent(node);
    }
    Ok(path)
}
