//! Laws on the trees with hosts of which a path is built.
ghost use Rattle.std.specs.Prelude.{◌≡◌, ℕ, ◌<◌, List, Bool as Truth, Option as Maybe, length};
ghost use Rattle.dom_base.specs.declared.NodeName.{NodeName as Name};
ghost use Rattle.dom_model.specs.Names.{max_depth};
ghost use Rattle.dom_model.specs.World.{World};
ghost use Rattle.dom_tree.specs.Forest.{NamedTrees, name_at};
ghost use Rattle.dom_slots.specs.Hosts.{ShadowHost};
ghost use Rattle.dom_slots.specs.Kept.{AreSlotsOf, SlotsNow, StandsOnce};
ghost use Rattle.dom_slots.specs.Shadows.{ShadowTrees, shadows};
ghost use Rattle.dom_path.specs.Hosted.{IsHosted, AreAttached};
ghost use Rattle.dom_path.specs.Items.{IsWorldOf};
ghost use Rattle.dom_path.specs.Paths.{IsPath};

/// Holds of every forest with hosts: where each tree has one owner, each host belongs to an owner less deep than that of its
/// shadow root, and shadow roots have no parent, shadow trees lie in one another as a path asks; and so they do in each world
/// that the document machine reaches (own rule).
pub fn law_hosts_nest()
    ensures attached { (f : NamedTrees) (hosts : List ShadowHost) (depth : ℕ) → AreAttached f hosts depth → IsHosted f hosts depth }
    ensures reached { (f : NamedTrees) (hosts : List ShadowHost) (w : World) → IsWorldOf f hosts w → IsHosted f hosts max_depth }
{}

/// Holds of every forest whose shadow trees lie in one another: an event at a node has a path, and only one (own rule). So each
/// is built, where no memory is refused.
pub fn law_paths_end()
    ensures there { (f : NamedTrees) (slots : SlotsNow) (depth : ℕ) → StandsOnce f → AreSlotsOf f slots → IsHosted f slots.hosts depth → (k : ℕ) →
        k < length f.names → (related : Maybe Name) (composed : Truth) → (nodes : List Name) ×
        IsPath (shadows f slots.hosts) depth (name_at f.names k) related composed nodes }
    ensures once { (s : ShadowTrees) (depth : ℕ) (target : Name) (related : Maybe Name) (composed : Truth) (xs ys : List Name) →
        IsPath s depth target related composed xs → IsPath s depth target related composed ys → xs ≡ ys }
{}
