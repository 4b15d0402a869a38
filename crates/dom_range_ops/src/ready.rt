//! What a ready `Doc` gives to its calls and to the operations on its live ranges.
ghost use Rattle.std.specs.Prelude.{ℕ};
ghost use Rattle.std.specs.Option.{ForSome};
ghost use Rattle.dom_base.specs.declared.Owner.{Owner as OwnerOf};
ghost use Rattle.dom_worlds.specs.Bounds.{HasBounds};
ghost use Rattle.dom_worlds.specs.Tables.{HasEnds};
ghost use Rattle.dom_model.specs.Part.{range_at};
ghost use Rattle.dom_model.specs.World.{part_of};
ghost use Rattle.dom_mutation.specs.Doc.{DocState};
ghost use Rattle.dom_mutation.specs.Ready.{IsReady};
ghost use Rattle.dom_range_ops.specs.Extractions.{ShadowRootsHaveNoParent};

/// Of a `Doc` that is ready, what is asked of an owner: its live ranges end within their nodes, a range that is there has both ends at nodes
/// of one tree, and no shadow root has a parent (DOM Standard, 4.2.2 and 5.2 and 5.5).
pub fn law_ready()
    ensures bounds { (d : DocState) (o : OwnerOf) → IsReady d → HasBounds (part_of d.world o) }
    ensures ends { (d : DocState) (o : OwnerOf) (k : ℕ) → IsReady d → ForSome (range_at (part_of d.world o) k) (HasEnds (part_of d.world o).trees) }
    ensures roots { (d : DocState) (o : OwnerOf) → IsReady d → ShadowRootsHaveNoParent (part_of d.world o).trees }
{}
