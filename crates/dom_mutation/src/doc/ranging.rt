//! Live ranges of each owner, by their numbers (DOM Standard, 5 Ranges).
ghost use Rattle.std.specs.Prelude.{◌≡◌, ◌↔◌, ◌⊎◌, length, true, is_some, IfOk, IfErr, OnOk, OnErr};
ghost use Rattle.dom_base.specs.declared.Refusal.{Refusal as RefusalOf};
ghost use Rattle.dom_base.specs.declared.Refusal.TheVariants.{Limit};
ghost use Rattle.dom_model.specs.Command.{Command, own};
ghost use Rattle.dom_model.specs.CommandRefusals.{past_limit, past_end};
ghost use Rattle.dom_model.specs.Names.{node_of};
ghost use Rattle.dom_model.specs.Output.{nothing, a_range, boundaries};
ghost use Rattle.dom_model.specs.Part.{range_at};
ghost use Rattle.dom_model.specs.Ranges.{at, from_to};
ghost use Rattle.dom_model.specs.Steps.{set_range};
ghost use Rattle.dom_model.specs.World.{part_of};
ghost use Rattle.dom_mutation.specs.Doc.{name_in, owner_in, stepped, Makes, HoldsNode};
ghost use Rattle.dom_mutation.specs.Ready.{MayStand};

use crate::Doc;
use dom_base::{Fault, Owner, Refusal};
use dom_ranges::Points;
use node_arena::Key;

impl Doc {
    /// Whether an owner has a live range of a number: it was made, and not dropped.
    pub fn has_range(&self, owner: Owner, number: u32) -> bool
        ensures { result ≡ is_some (range_at (part_of self.now.world owner) number) }
    {
        let parts = &self.parts;
        parts.ranges.points(owner, number).is_some()
    }

    /// Makes a live range of an owner with both ends at offset 0 of the owner's first node, and gives its number (DOM
    /// Standard, new Range()). It is refused with `Limit` where the owner has made a million ranges, dropped ones counted,
    /// and with `Memory` where memory is refused (own rules). It asks for that first node, which `Forest::find` gives, and `range_set_start`
    /// and `range_set_end` then take any node of the owner.
    pub fn range_make(&mut self, owner: Owner, first: Key) -> Result<u32, Fault>
        requires first_is_node { HoldsNode self.old first }
        requires is_first { name_in self.old first ≡ node_of owner 0 }
        ensures names { self.new.names ≡ self.old.names }
        ensures world { IfOk result (λ number. Makes owner Command.range_new (a_range number) self.old.world self.new.world) }
        ensures limit { (result ≡ Err (Fault.Refused Limit)) ↔ (past_limit (length (part_of self.old.world owner).ranges) 1 ≡ true) }
        ensures other { IfErr result (λ fault. (fault ≡ Fault.Refused Limit) ⊎ (fault ≡ Fault.Memory)) }
        ensures err { OnErr result (self.new ≡ self.old) }
    {
        self.laws();
        let parts = &mut self.parts;
        parts.ranges.make(owner, first)
    }

    /// Gives a live range another start, at an offset in a node of its owner; the end goes there too where it stands in
    /// another tree or would be before it (DOM Standard, setStart()). It is refused with `IndexSize` where the offset is past
    /// the node's length.
    /// It asks that the owner has a range of this number: `has_range` is the test.
    pub fn range_set_start(
        &mut self,
        owner: Owner,
        number: u32,
        node: Key,
        offset: usize,
    ) -> Result<(), Refusal>
        requires there { is_some (range_at (part_of self.old.world owner) number) ≡ true }
        requires node_is_node { HoldsNode self.old node }
        requires own { owner_in self.old node ≡ owner }
        ensures names { self.new.names ≡ self.old.names }
        ensures world { OnOk result (Makes owner (Command.range_start number (own (name_in self.old node).number) offset) nothing self.old.world
            self.new.world) }
        ensures refused { (result ≡ Err RefusalOf.IndexSize) ↔ (past_end (part_of self.old.world owner) (name_in self.old node) offset ≡ true) }
        ensures other { IfErr result (λ refusal. refusal ≡ RefusalOf.IndexSize) }
        ensures err { OnErr result (self.new ≡ self.old) }
    {
        self.laws();
        let parts = &mut self.parts;
        parts.trees.forest.law_nodes_stand_once();
        parts
            .ranges
            .set_start(owner, number, &parts.trees.forest, node, offset)
    }

    /// Gives a live range another end, at an offset in a node of its owner; the start goes there too where it stands in
    /// another tree or would be after it (DOM Standard, setEnd()). It is refused with `IndexSize` where the offset is past the
    /// node's length.
    /// It asks that the owner has a range of this number: `has_range` is the test.
    pub fn range_set_end(
        &mut self,
        owner: Owner,
        number: u32,
        node: Key,
        offset: usize,
    ) -> Result<(), Refusal>
        requires there { is_some (range_at (part_of self.old.world owner) number) ≡ true }
        requires node_is_node { HoldsNode self.old node }
        requires own { owner_in self.old node ≡ owner }
        ensures names { self.new.names ≡ self.old.names }
        ensures world { OnOk result (Makes owner (Command.range_end number (own (name_in self.old node).number) offset) nothing self.old.world self.new.world) }
        ensures refused { (result ≡ Err RefusalOf.IndexSize) ↔ (past_end (part_of self.old.world owner) (name_in self.old node) offset ≡ true) }
        ensures other { IfErr result (λ refusal. refusal ≡ RefusalOf.IndexSize) }
        ensures err { OnErr result (self.new ≡ self.old) }
    {
        self.laws();
        let parts = &mut self.parts;
        parts.trees.forest.law_nodes_stand_once();
        parts
            .ranges
            .set_end(owner, number, &parts.trees.forest, node, offset)
    }

    /// Sets both ends of a live range to its start, or to its end (DOM Standard, collapse()).
    /// It asks that the owner has a range of this number: `has_range` is the test.
    pub fn range_collapse(&mut self, owner: Owner, number: u32, to_start: bool)
        requires { is_some (range_at (part_of self.old.world owner) number) ≡ true }
        ensures names { self.new.names ≡ self.old.names }
        ensures world { Makes owner (Command.range_collapse number to_start) nothing self.old.world self.new.world }
    {
        self.laws();
        let parts = &mut self.parts;
        let _ = parts.ranges.collapse(owner, number, to_start);
    }

    /// Gives a live range both ends, at offsets in nodes of its owner, whichever comes first: the elementary step by which an
    /// operation on a range sets its ends (own rule).
    /// It asks that the owner has a range of this number: `has_range` is the test.
    pub fn range_put(&mut self, owner: Owner, number: u32, points: Points)
        requires there { is_some (range_at (part_of self.old.world owner) number) ≡ true }
        requires start_is_node { HoldsNode self.old points.start.0 }
        requires end_is_node { HoldsNode self.old points.end.0 }
        requires own_start { owner_in self.old points.start.0 ≡ owner }
        requires own_end { owner_in self.old points.end.0 ≡ owner }
        requires may_stand { MayStand (part_of self.old.world owner).trees
            (from_to (at (name_in self.old points.start.0) points.start.1) (at (name_in self.old points.end.0) points.end.1)) }
        ensures state { self.new ≡ stepped owner
            (set_range number (from_to (at (name_in self.old points.start.0) points.start.1) (at (name_in self.old points.end.0) points.end.1)))
            self.old }
    {
        self.laws();
        let parts = &mut self.parts;
        parts.ranges.write(owner, number, points);
    }

    /// Drops a live range, whose number is not given again (own rule).
    /// It asks that the owner has a range of this number: `has_range` is the test.
    pub fn range_remove(&mut self, owner: Owner, number: u32)
        requires { is_some (range_at (part_of self.old.world owner) number) ≡ true }
        ensures names { self.new.names ≡ self.old.names }
        ensures world { Makes owner (Command.range_drop number) nothing self.old.world self.new.world }
    {
        let parts = &mut self.parts;
        let _ = parts.ranges.remove(owner, number);
    }

    /// The ends of a live range, each a node of its owner and an offset (DOM Standard, interface AbstractRange).
    /// It asks that the owner has a range of this number: `has_range` is the test.
    pub fn range_points(&self, owner: Owner, number: u32) -> Points
        requires { is_some (range_at (part_of self.now.world owner) number) ≡ true }
        ensures start_is_node { HoldsNode self.now result.start.0 }
        ensures end_is_node { HoldsNode self.now result.end.0 }
        ensures own_start { owner_in self.now result.start.0 ≡ owner }
        ensures own_end { owner_in self.now result.end.0 ≡ owner }
        ensures value { Makes owner (Command.range_get number)
            (boundaries (at (name_in self.now result.start.0) result.start.1) (at (name_in self.now result.end.0) result.end.1)) self.now.world
            self.now.world }
    {
        let parts = &self.parts;
        let Some(points) = parts.ranges.points(owner, number) else {
            unreachable!()
        };
        points
    }
}
