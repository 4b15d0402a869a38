//! Calls that are answered with something: it is written down as C has it.
ghost use Rattle.std.specs.Prelude.{◌≡◌, Some, None, Ok, Err, OnOk, IfOk, IfSome, IsSome, true, map, length};
ghost use Rattle.dom_base.specs.declared.Fault.TheVariants.{Memory};
ghost use Rattle.dom_calls.specs.Asked.{IsMemory};
ghost use Rattle.dom_calls.specs.Calls.{Gives, ShowsComponent, ShowsNodes, ShowsNode, ShowsNothing, ShowsNumber, ShowsPoints, ShowsReference, ShowsTree};
ghost use Rattle.dom_calls.specs.Calls.{KeepsAnswer, ShowsText, ShowsTruth, ShowsUnits};
ghost use Rattle.dom_calls.specs.Lending.{HoldsOn};
ghost use Rattle.dom_calls.specs.Owners.{owner_in};
ghost use Rattle.dom_answers.specs.Arrays.{Arrays, IsReply, value_of};
ghost use Rattle.dom_model.specs.Output.{a_component};

use crate::arrays::put_nodes;
use crate::held::Held;
use crate::owners::narrowed;
use crate::replies::{node_in, nothing_in, number_in, points_in, reference_in, tree_in, truth_in};
use crate::structs::{DomNode, DomPoint};
use dom_answers::Reply;
use dom_base::Fault;
use dom_reader::Command;

impl Held {
    /// What was found. If nothing was, memory counts as refused.
    fn or_fail<T>(&mut self, found: Option<T>) -> Result<T, Fault>
        ensures some { (x : T) → found ≡ Some x → (result ≡ Ok x) × (self.new ≡ self.old) }
        ensures none { found ≡ None → (result ≡ Err Memory) × (self.new.has_failed ≡ true) }
    {
        match found {
            Some(found) => Ok(found),
            None => {
                self.fail();
                Err(Fault::Memory)
            }
        }
    }

    /// A call that is answered with nothing.
    pub(crate) fn ask_nothing(
        &mut self,
        place: u32,
        command: Result<Command, Fault>,
    ) -> Result<(), Fault>
        ensures { Gives result place command (λ _. ShowsNothing) self.old self.new }
    {
        match self.call(place, command) {
            Ok(reply) => {
                let found = nothing_in(&reply);
                self.or_fail(found)
            }
            Err(fault) => Err(fault),
        }
    }

    /// A call that is answered with a node or none.
    pub(crate) fn ask_node(
        &mut self,
        place: u32,
        command: Result<Command, Fault>,
    ) -> Result<DomNode, Fault>
        ensures { Gives result place command ShowsNode self.old self.new }
    {
        match self.call(place, command) {
            Ok(reply) => {
                let found = node_in(&self.owners, &reply);
                self.or_fail(found)
            }
            Err(fault) => Err(fault),
        }
    }

    /// A call that is answered with a truth.
    pub(crate) fn ask_truth(
        &mut self,
        place: u32,
        command: Result<Command, Fault>,
    ) -> Result<bool, Fault>
        ensures { Gives result place command ShowsTruth self.old self.new }
    {
        match self.call(place, command) {
            Ok(reply) => {
                let found = truth_in(&reply);
                self.or_fail(found)
            }
            Err(fault) => Err(fault),
        }
    }

    /// A call that is answered with the number of a range, an iterator, a walker or an observer, or a count.
    pub(crate) fn ask_number(
        &mut self,
        place: u32,
        command: Result<Command, Fault>,
    ) -> Result<u32, Fault>
        ensures { Gives result place command ShowsNumber self.old self.new }
    {
        match self.call(place, command) {
            Ok(reply) => {
                let found = number_in(&reply);
                self.or_fail(found)
            }
            Err(fault) => Err(fault),
        }
    }

    /// A call that is answered with a range's start and end.
    pub(crate) fn ask_points(
        &mut self,
        place: u32,
        command: Result<Command, Fault>,
    ) -> Result<(DomPoint, DomPoint), Fault>
        ensures { Gives result place command (λ points. ShowsPoints points.0 points.1) self.old self.new }
    {
        match self.call(place, command) {
            Ok(reply) => {
                let found = points_in(&self.owners, &reply);
                self.or_fail(found)
            }
            Err(fault) => Err(fault),
        }
    }

    /// A call that is answered with an iterator's reference.
    pub(crate) fn ask_reference(
        &mut self,
        place: u32,
        command: Result<Command, Fault>,
    ) -> Result<(DomNode, bool), Fault>
        ensures { Gives result place command (λ found. ShowsReference found.0 found.1) self.old self.new }
    {
        match self.call(place, command) {
            Ok(reply) => {
                let found = reference_in(&self.owners, &reply);
                self.or_fail(found)
            }
            Err(fault) => Err(fault),
        }
    }

    /// A call that is answered with a tree, whose rows are left in the answer.
    pub(crate) fn ask_rows(
        &mut self,
        place: u32,
        command: Result<Command, Fault>,
    ) -> Result<(), Fault>
        ensures { Gives result place command (λ _. ShowsTree) self.old self.new }
    {
        match self.call(place, command) {
            Ok(reply) => {
                let found = tree_in(&reply);
                self.or_fail(found)
            }
            Err(fault) => Err(fault),
        }
    }

    /// A call that is answered with a new component, which then has the next place in the table.
    pub(crate) fn ask_component(
        &mut self,
        place: u32,
        command: Result<Command, Fault>,
    ) -> Result<u32, Fault>
        ensures { Gives result place command ShowsComponent self.old self.new }
    {
        match self.call(place, command) {
            Ok(reply) => {
                let added = self.add_owner(&reply);
                self.or_fail(added)
            }
            Err(fault) => Err(fault),
        }
    }

    /// Gives the component of a reply the next place in the table.
    fn add_owner(&mut self, reply: &Reply) -> Option<u32>
        ensures held { KeepsAnswer self.old self.new }
        ensures shows { (a : Arrays) → IfSome result (λ place. value_of a reply.now ≡ a_component (owner_in self.new.owners place)) }
    {
        let Reply::Component(owner) = reply else {
            return None;
        };
        let place = narrowed(self.owners.len())?;
        self.owners.push(*owner).ok()?;
        Some(place)
    }

    /// A call that is answered with nodes, which are lent: where they stand, and how many there are.
    pub(crate) fn ask_nodes(
        &mut self,
        place: u32,
        command: Result<Command, Fault>,
    ) -> Result<(*const DomNode, usize), Fault>
        ensures { Gives result place command (λ nodes. ShowsNodes nodes.0 nodes.1) self.old self.new }
    {
        match self.call(place, command) {
            Ok(reply) => {
                let lent = self.lend_nodes(&reply);
                self.or_fail(lent)
            }
            Err(fault) => Err(fault),
        }
    }

    /// Lends the nodes of a reply.
    fn lend_nodes(&mut self, reply: &Reply) -> Option<(*const DomNode, usize)>
        requires { IsReply self.old.answer.arrays reply.now }
        ensures held { HoldsOn self.old self.new }
        ensures shows { IfSome result (λ nodes. ShowsNodes nodes.0 nodes.1 self.new (value_of self.new.answer.arrays reply.now)) }
    {
        let Reply::List(span) = reply else {
            return None;
        };
        put_nodes(
            &mut self.shown.nodes,
            &self.owners,
            span.of(self.answer.nodes()),
        )
        .ok()?;
        Some((self.shown.nodes.as_ptr(), self.shown.nodes.len()))
    }

    /// A call that is answered with code units or none, which are lent: whether there are any, where they stand, and how many there are.
    pub(crate) fn ask_units(
        &mut self,
        place: u32,
        command: Result<Command, Fault>,
    ) -> Result<(bool, *const u16, usize), Fault>
        ensures { Gives result place command (λ units. ShowsUnits units.0 units.1 units.2) self.old self.new }
    {
        match self.call(place, command) {
            Ok(reply) => {
                let lent = self.lend_units(&reply);
                self.or_fail(lent)
            }
            Err(fault) => Err(fault),
        }
    }

    /// Lends the code units of a reply, which are empty if there are none.
    fn lend_units(&mut self, reply: &Reply) -> Option<(bool, *const u16, usize)>
        requires { IsReply self.old.answer.arrays reply.now }
        ensures held { HoldsOn self.old self.new }
        ensures shows { IfSome result (λ units. ShowsUnits units.0 units.1 units.2 self.new (value_of self.new.answer.arrays reply.now)) }
    {
        self.shown.units.clear();
        let has = match reply {
            Reply::Str(span) => {
                self.shown
                    .units
                    .extend_from_slice(span.of(self.answer.units()))
                    .ok()?;
                true
            }
            Reply::Null => false,
            _ => return None,
        };
        Some((has, self.shown.units.as_ptr(), self.shown.units.len()))
    }

    /// A call that is answered with code units, which are lent: where they stand, and how many there are.
    pub(crate) fn ask_text(
        &mut self,
        place: u32,
        command: Result<Command, Fault>,
    ) -> Result<(*const u16, usize), Fault>
        ensures { Gives result place command (λ text. ShowsText text.0 text.1) self.old self.new }
    {
        match self.call(place, command) {
            Ok(reply) => {
                let lent = self.lend_text(&reply);
                self.or_fail(lent)
            }
            Err(fault) => Err(fault),
        }
    }

    /// Lends the code units of a reply.
    fn lend_text(&mut self, reply: &Reply) -> Option<(*const u16, usize)>
        requires { IsReply self.old.answer.arrays reply.now }
        ensures held { HoldsOn self.old self.new }
        ensures shows { IfSome result (λ text. ShowsText text.0 text.1 self.new (value_of self.new.answer.arrays reply.now)) }
    {
        let Reply::Str(span) = reply else {
            return None;
        };
        self.shown.units.clear();
        self.shown
            .units
            .extend_from_slice(span.of(self.answer.units()))
            .ok()?;
        Some((self.shown.units.as_ptr(), self.shown.units.len()))
    }
}
