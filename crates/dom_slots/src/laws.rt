//! Laws of slots, for callers that keep a world.
ghost use Rattle.std.specs.Prelude.{◌≡◌, ℕ, ◌≤◌, Bool as Truth, false, [], length, Option as Maybe, None, Some};
ghost use Rattle.dom_base.specs.declared.NodeName.{NodeName as Name};
ghost use Rattle.dom_model.specs.World.{World};
ghost use Rattle.dom_model.specs.Names.{DomString};
ghost use Rattle.dom_model.specs.Slots.{slot_of, assigned_nodes, signals, is_slot_element, slots_among};
ghost use Rattle.dom_model.specs.Tree.{Node, subtree};
ghost use Rattle.dom_model.specs.TreeChanges.{change_node, change_subtree, under_document, with_document, with_text};
ghost use Rattle.dom_slots.specs.Shadows.{ShadowTrees, IsShownBy, slot_at, assigned_at, signals_at};
ghost use Rattle.dom_slots.specs.Kept.{SlotsNow, HasOneMore, AreSlotsOf, IsBegun, IsEndOf};
ghost use Rattle.dom_slots.specs.Steps.{StepHasNodes, IsStepFrom};
ghost use Rattle.dom_slots.specs.declared.step.SlotChange.{SlotChange};
ghost use Rattle.dom_slots.specs.declared.step.Step.{Step};
ghost use Rattle.dom_slots.specs.Hosts.{host_of_root};
ghost use Rattle.dom_tree.specs.Forest.{NamedTrees, name_at};

/// Holds of every world: where it has just the trees and the hosts that slots are read from, its slots, assigned nodes
/// and signals are those that are read (DOM Standard, 4.2.2 Shadow tree).
pub fn law_slots_are_of_worlds()
    ensures slot { (s : ShadowTrees) (w : World) → IsShownBy s w → (x : Name) → slot_of w x ≡ slot_at s x }
    ensures assigned { (s : ShadowTrees) (w : World) → IsShownBy s w → (y : Name) → assigned_nodes w y ≡ assigned_at s y }
    ensures signals { (s t : ShadowTrees) (was now : World) → IsShownBy s was → IsShownBy t now → (x around : Name) (is_move : Truth) →
        signals was now x around is_move ≡ signals_at s t x around is_move }
{}

/// Holds of every forest: a step that was begun, and then done and nothing else, can be ended (own rule).
pub fn law_steps_end()
    ensures { (old new : NamedTrees) (s : SlotsNow) (step : Step) (change : SlotChange) → change.step ≡ step → new.names ≡ old.names →
        StepHasNodes old.names step → AreSlotsOf old s → IsBegun old s.hosts change → IsStepFrom old.names old.trees new.trees step →
        IsEndOf old.trees new s change }
{}

/// Holds of every forest: a node more, alone in its tree, other node documents and other data leave the slots those of
/// the forest (own rule).
pub fn law_slots_stay()
    ensures added { (f g : NamedTrees) (n : Node) (s : SlotsNow) → HasOneMore f g n → AreSlotsOf f s → AreSlotsOf g s }
    ensures document { (f g : NamedTrees) (x : Name) (d : Maybe Name) (s : SlotsNow) → g.names ≡ f.names →
        g.trees ≡ change_node (under_document d) x f.trees → AreSlotsOf f s → AreSlotsOf g s }
    ensures documents { (f g : NamedTrees) (x d : Name) (s : SlotsNow) → g.names ≡ f.names →
        g.trees ≡ change_subtree (with_document d) x f.trees → AreSlotsOf f s → AreSlotsOf g s }
    ensures text { (f g : NamedTrees) (x : Name) (text : DomString) (s : SlotsNow) → g.names ≡ f.names →
        g.trees ≡ change_node (with_text text) x f.trees → AreSlotsOf f s → AreSlotsOf g s }
{}

/// Holds of every forest: a node that was just added and is no slot may be attached as a shadow root (own rule).
pub fn law_new_nodes_are_free()
    ensures bare { (f g : NamedTrees) (n : Node) → HasOneMore f g n → is_slot_element n ≡ false →
        slots_among (subtree g.trees (name_at g.names (length f.names))) ≡ [] }
    ensures unhosted { (f : NamedTrees) (s : SlotsNow) (k : ℕ) → AreSlotsOf f s → length f.names ≤ k → host_of_root s.hosts k ≡ None }
{}
