//! The paths from the ends of a range up to where they part, below their lowest common inclusive ancestor.
ghost use Rattle.std.specs.Prelude.{IfOk};
ghost use Rattle.dom_range_ops.specs.Pieces.{ArePaths, EndAlike};
ghost use Rattle.dom_range_ops.specs.Texts.{AreEnds};

use dom_observers::inclusive_ancestors;
use dom_ranges::Points;
use dom_tree::Forest;
use node_arena::Key;
use smallvec::SmallVec;
use std::alloc::{AllocError, Global};

/// The nodes of both ends of a range and those above each, up to the children of the ends' lowest common inclusive ancestor. It
/// is refused where memory is refused.
pub(crate) fn parted_paths(
    alloc: Global,
    forest: &Forest,
    points: &Points,
) -> Result<(SmallVec<Key, 8>, SmallVec<Key, 8>), AllocError>
    requires { AreEnds forest.now points.now }
    ensures { IfOk result (λ paths. ArePaths forest.now points.now paths.0.items paths.1.items) }
{
    forest.law_nodes_stand_once();
    let mut start_path = inclusive_ancestors(alloc, forest, points.start.0)?;
    let mut end_path = inclusive_ancestors(alloc, forest, points.end.0)?;
    let (first, last) = parting(start_path.as_slice(), end_path.as_slice());
    start_path.truncate(first);
    end_path.truncate(last);
    Ok((start_path, end_path))
}

/// How many keys of each of two lists stand in front of those with which both end.
fn parting(first: &[Key], second: &[Key]) -> (usize, usize)
    ensures { EndAlike first.now second.now result.0 result.1 }
{
    let mut left = first.len();
    let mut other = second.len();
    while left > 0 && other > 0 {
        if first[left - 1] != second[other - 1] {
            return (left, other);
        }
        left -= 1;
        other -= 1;
    }
    (left, other)
}
