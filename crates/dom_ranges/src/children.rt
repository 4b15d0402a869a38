//! Steps of a change that are told a child of a node in place of its index, and the join of Texts.
ghost use Rattle.std.specs.Prelude.{◌≡◌, nat_eq};
ghost use Rattle.dom_base.specs.declared.Owner.{Owner as Owners};
ghost use Rattle.dom_model.specs.Ranges.{after_insert, after_join};
ghost use Rattle.dom_model.specs.Tree.{index_of};
ghost use Rattle.dom_tree.specs.Forest.{IsNode, name_of};
ghost use Rattle.dom_ranges.specs.Rules.{Fits};
ghost use Rattle.dom_ranges.specs.Tables.{ranges_of, ends_by, EachRange, BothEnds};

use crate::RangeTable;
use crate::change::Join;
use dom_tree::Forest;
use node_arena::Key;

impl RangeTable {
    /// Tells the table that `count` nodes are to come into `parent` before `child`, as `on_insert` does of the child's
    /// index. That is looked for only as far as boundary points stand in the parent: without one there, not at all.
    pub fn on_insert_before(&mut self, forest: &Forest, parent: Key, child: Key, count: usize)
        requires child_is_node { IsNode forest.now child }
        requires fits { (o : Owners) → EachRange
            (BothEnds (λ b. Fits (after_insert nat_eq parent (index_of forest.now.trees (name_of forest.now child)) count b)))
            (ranges_of self.old o) }
        ensures { (o : Owners) → ranges_of self.new o ≡ ends_by
            (after_insert nat_eq parent (index_of forest.now.trees (name_of forest.now child)) count) (ranges_of self.old o) }
    {
        if let Some(index) = self.index_before(forest, parent, child) {
            self.on_insert(parent, index, count);
        }
    }

    /// Tells the table that the data of the Text `next`, the child of `parent` at `index`, were put behind those of the
    /// Text `first`, which had `length` code units (DOM Standard, normalize()): the boundary points in `next`, and the
    /// one just before it, go to `first`.
    pub fn on_join(&mut self, first: Key, length: usize, next: Key, parent: Key, index: usize)
        requires { (o : Owners) → EachRange (BothEnds (λ b. Fits (after_join nat_eq first length next parent index b))) (ranges_of self.old o) }
        ensures { (o : Owners) → ranges_of self.new o ≡ ends_by (after_join nat_eq first length next parent index) (ranges_of self.old o) }
    {
        let change = Join {
            first,
            length,
            next,
            parent,
            index,
        };
        self.apply(&change);
    }

    /// Tells the table that the data of the Text `next`, a child of `parent`, were put behind those of the Text `first`, which
    /// had `size` code units, as `on_join` does of the child's index. That is looked for only as far as boundary points
    /// stand in the parent.
    pub fn on_join_child(
        &mut self,
        forest: &Forest,
        first: Key,
        size: usize,
        next: Key,
        parent: Key,
    )
        requires next_is_node { IsNode forest.now next }
        requires fits { (o : Owners) → EachRange
            (BothEnds (λ b. Fits (after_join nat_eq first size next parent (index_of forest.now.trees (name_of forest.now next)) b)))
            (ranges_of self.old o) }
        ensures { (o : Owners) → ranges_of self.new o ≡ ends_by
            (after_join nat_eq first size next parent (index_of forest.now.trees (name_of forest.now next))) (ranges_of self.old o) }
    {
        let index = self.index_among(forest, parent, next);
        self.on_join(first, size, next, parent, index);
    }
}
