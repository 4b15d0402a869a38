//! Laws of walkers and iterators, for a caller that goes over all nodes.
ghost use Rattle.std.specs.Prelude.{◌≡◌, ◌∷◌, [], ℕ, true, false, Some, None};
ghost use Rattle.dom_base.specs.declared.Move.TheVariants as moves;
ghost use Rattle.dom_model.specs.Traversal.{iterator_next_node, walker_move};
ghost use Rattle.dom_model.specs.Tree.{is_inclusive_ancestor};
ghost use Rattle.dom_tree.specs.Forest.{IsNode, name_of};
ghost use Rattle.dom_traversal.specs.Iterators.{KeyedIterator, IsIteratorOf, iterator_rest, iterator_view};
ghost use Rattle.dom_traversal.specs.Walkers.{KeyedWalker, IsWalkerOf, walker_rest, walker_view};

use dom_tree::Forest;

/// Holds of every forest (own rule): what `next` answers is the first of the accepted nodes that are left, and the others are left then;
/// where it answers none, none is left. So it is of an iterator, and of a walker within its root's tree whose filter
/// has no name, and so rejects nothing. A node is its own inclusive ancestor, so a walker begins within its root's tree.
pub fn law_rest(forest: &Forest)
    ensures iterator { (i : KeyedIterator) (k : ℕ) → IsIteratorOf forest.now i →
        Some (name_of forest.now k) ≡ iterator_next_node forest.now.trees (iterator_view forest.now.names i) →
        iterator_rest forest.now i ≡ name_of forest.now k ∷ iterator_rest forest.now record i { reference = k; before = false } }
    ensures iterator_end { (i : KeyedIterator) → None ≡ iterator_next_node forest.now.trees (iterator_view forest.now.names i) →
        iterator_rest forest.now i ≡ [] }
    ensures walker { (w : KeyedWalker) (k : ℕ) → IsWalkerOf forest.now w → w.filter.named ≡ None →
        Some (name_of forest.now k) ≡ walker_move forest.now.trees (walker_view forest.now.names w) moves.Next →
        walker_rest forest.now w ≡ name_of forest.now k ∷ walker_rest forest.now record w { current = k } }
    ensures walker_stays { (w : KeyedWalker) (k : ℕ) → IsWalkerOf forest.now w →
        Some (name_of forest.now k) ≡ walker_move forest.now.trees (walker_view forest.now.names w) moves.Next →
        is_inclusive_ancestor forest.now.trees (name_of forest.now w.root) (name_of forest.now k) ≡ true }
    ensures walker_end { (w : KeyedWalker) → w.filter.named ≡ None →
        is_inclusive_ancestor forest.now.trees (name_of forest.now w.root) (name_of forest.now w.current) ≡ true →
        None ≡ walker_move forest.now.trees (walker_view forest.now.names w) moves.Next → walker_rest forest.now w ≡ [] }
    ensures itself { (k : ℕ) → IsNode forest.now k → is_inclusive_ancestor forest.now.trees (name_of forest.now k) (name_of forest.now k) ≡ true }
{
    forest.law_nodes_stand_once();
}
