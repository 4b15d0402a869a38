//! Trees without slots, which are known by marks of their roots.
ghost use Rattle.std.specs.Prelude.{◌≡◌, ◌≢◌, [], Option as Maybe, IfOk, OnOk};
ghost use Rattle.std.specs.Option.{option_map_or, ForSome};
ghost use Rattle.dom_model.specs.Tree.{Trees, root_of};
ghost use Rattle.dom_tree.specs.Forest.{IsNode, name_of};
ghost use Rattle.dom_slots.specs.Index.{AreIndexed};
ghost use Rattle.dom_slots.specs.Insides.{is_nothing, IsMoved};
ghost use Rattle.dom_slots.specs.Kept.{SlotsNow, IsEndOf, AreBare, with_parked};
ghost use Rattle.dom_slots.specs.Parked.{ParkedNow};
ghost use Rattle.dom_slots.specs.Steps.{StepHasNodes, is_light};
ghost use Rattle.dom_slots.specs.declared.step.SlotChange.{SlotChange as Change};

use crate::Slots;
use crate::find::{is_slot, slots_below};
use crate::marks::Marks;
use crate::step::{SlotChange, Step};
use dom_tree::Forest;
use node_arena::Key;
use std::alloc::AllocError;

/// What is known of a step that is done (own rule): it surely moved no slot, and changed no slot's attributes; or it was made outside
/// of shadow trees; or it was made inside of one, with the slots that it moved, or those below a slot whose attributes it changed.
#[derive(Drop)]
pub(super) enum Moved {
    NoSlot,
    Apart,
    Slots(Vec<Key>),
}

impl Moved {
    /// Whether no slot was moved or changed, so far as is known.
    pub(super) fn is_nothing(&self) -> bool
        ensures { result ≡ is_nothing self.now }
    {
        matches!(self, Moved::NoSlot)
    }
}

impl Slots {
    /// Keeps the marks of roots whose trees have no slot, and the index, behind a step that is done, and tells what it moved (own rule).
    /// A step whose node is no slot, and has no child where it is moved, costs two looks. Any other one costs what `what_moved` and
    /// `reindex` cost.
    pub(super) fn follow(
        &mut self,
        forest: &Forest,
        change: SlotChange,
    ) -> Result<Moved, AllocError>
        requires hosted { self.old.hosts ≢ [] }
        requires ended { (was : Trees) × (parked : Maybe ParkedNow) × IsEndOf was forest.now (with_parked parked self.old) change }
        ensures moved { IfOk result (IsMoved forest.now self.old.hosts change) }
        ensures hosts { OnOk result (self.new.hosts ≡ self.old.hosts) }
        ensures table { OnOk result (self.new.table ≡ self.old.table) }
        ensures bare { OnOk result (AreBare forest.now self.old.hosts self.new.bare) }
        ensures indexed { OnOk result (AreIndexed forest.now self.old.hosts self.new.index) }
        ensures parked { OnOk result (self.new.parked ≡ self.old.parked) }
    {
        forest.law_nodes_stand_once();
        if is_light(forest, change.step) {
            return Ok(Moved::NoSlot);
        }
        let kept = change;
        let done = change;
        let moved = self.what_moved(forest, kept)?;
        self.reindex(forest, done, &moved)?;
        mark(&mut self.bare, forest, change.step, &moved)?;
        Ok(moved)
    }

    /// What a step moved that is done. A move costs the way up to the root of the parent that was left. Where that is not marked, and
    /// for a slot whose attributes are changed, this costs what `is_apart` costs, and inside of a shadow tree a walk through what is
    /// moved.
    fn what_moved(&self, forest: &Forest, change: SlotChange) -> Result<Moved, AllocError>
        requires ended { (was : Trees) × (parked : Maybe ParkedNow) × IsEndOf was forest.now (with_parked parked self.now) change }
        ensures { IfOk result (IsMoved forest.now self.now.hosts change) }
    {
        forest.law_nodes_stand_once();
        let node = change.step.node();
        if change.step.is_move() && self.bare.contains(top_of(forest, node, change.left)) {
            return Ok(Moved::NoSlot);
        }
        if self.is_apart(forest, change.step, change.left) {
            return Ok(Moved::Apart);
        }
        let slots = slots_below(self.alloc, forest, node, None)?;
        if slots.is_empty() {
            return Ok(Moved::NoSlot);
        }
        Ok(Moved::Slots(slots))
    }
}

/// Keeps the marks of roots whose trees have no slot, behind a step that is done, by what it moved: where that is no slot its node is
/// marked, and else the root that this has now is marked no more.
fn mark(bare: &mut Marks, forest: &Forest, step: Step, moved: &Moved) -> Result<(), AllocError>
    requires { StepHasNodes forest.now.names step }
    ensures { (was : Trees) (s : SlotsNow) (change : Change) → change.step ≡ step → s.bare ≡ bare.old.marked.items → s.hosts ≢ [] →
        IsMoved forest.now s.hosts change moved.now → IsEndOf was forest.now s change → OnOk result (AreBare forest.now s.hosts bare.new.marked.items) }
{
    forest.law_nodes_stand_once();
    let kept = step;
    if !kept.is_move() {
        return Ok(());
    }
    if moved.is_nothing() {
        return bare.insert(step.node());
    }
    bare.remove(forest.root(step.node()));
    Ok(())
}

/// The root of the tree in which a node stood that left a parent, or had none.
pub(super) fn top_of(forest: &Forest, node: Key, left: Option<Key>) -> Key
    requires node { IsNode forest.now node }
    requires left { ForSome left (IsNode forest.now) }
    ensures value { name_of forest.now result ≡ option_map_or (λ k. root_of forest.now.trees (name_of forest.now k)) left (name_of forest.now node) }
    ensures node { IsNode forest.now result }
{
    match left {
        Some(key) => forest.root(key),
        None => node,
    }
}

/// Whether a step surely moves no slot, and changes no slot's attributes: its node is no slot, and where it is moved has no
/// child (own rule).
fn is_light(forest: &Forest, step: Step) -> bool
    requires { StepHasNodes forest.now.names step }
    ensures { result ≡ is_light forest.now.names forest.now.trees step }
{
    forest.law_nodes_stand_once();
    let kept = step;
    let node = kept.node();
    !is_slot(forest, node) && (!step.is_move() || forest.first(node).is_none())
}
