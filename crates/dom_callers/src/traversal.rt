//! A caller of `dom_traversal`.
ghost use Rattle.std.specs.Prelude.{◌≡◌};
ghost use Rattle.std.specs.Option.{option_map, ForSome};
ghost use Rattle.dom_tree.specs.Forest.{IsNode, name_of};
ghost use Rattle.dom_traversal.specs.Filters.{filter_of};
ghost use Rattle.dom_callers.specs.Focus.{focus_behind};

use dom_traversal::{Filter, Walker};
use dom_tree::Forest;
use node_arena::Key;

/// The node that gets the focus after the one that has it: the next one in tree order below a root that a filter lets
/// through, and after the last one the first. The root itself gets no focus (own rule).
pub fn next_focus(forest: &Forest, root: Key, focused: Key, filter: Filter) -> Option<Key>
    requires root_is_node { IsNode forest.now root }
    requires focused_is_node { IsNode forest.now focused }
    ensures value { option_map (name_of forest.now) result ≡ focus_behind forest.now.trees (filter_of filter)
        (name_of forest.now root) (name_of forest.now focused) }
    ensures node { ForSome result (IsNode forest.now) }
{
    let mut walker = Walker::new(root, filter);
    walker.set(focused);
    let next = walker.next(forest);
    if next.is_some() {
        return next;
    }
    walker.set(root);
    walker.next(forest)
}
