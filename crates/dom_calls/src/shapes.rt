//! The shapes of calls of an owner: what C is given of a reply.
ghost use Rattle.std.specs.Prelude.{◌≡◌};
ghost use Rattle.dom_calls.specs.Asked.{Asked, IsAsked};
ghost use Rattle.dom_calls.specs.Calls.{Answers, ShowsComponent, ShowsNode, ShowsNodes, ShowsNothing, ShowsNumber};
ghost use Rattle.dom_calls.specs.Calls.{ShowsPoints, ShowsReference, ShowsText, ShowsTree, ShowsTruth, ShowsUnits, told_by};

use crate::document::{CLOSED, DONE, DomDocument, status_of};
use crate::structs::{DomNode, DomPoint};
use dom_base::Fault;
use dom_reader::Command;
use std::alloc::Global;

impl DomDocument {
    /// Asks the owner at a place, who answers with nothing.
    pub fn run(&mut self, alloc: Global, owner: u32, command: Result<Command, Fault>) -> u32
        ensures answers { (asked : Asked) → IsAsked command asked →
            Answers result owner asked ShowsNothing self.old.held.value self.new.held.value }
        ensures told { self.new.told ≡ told_by self.new.held.value }
    {
        let Some(mut held) = self.take(alloc) else {
            return CLOSED;
        };
        let reply = held.ask_nothing(owner, command);
        self.put(held);
        match reply {
            Ok(()) => { DONE }
            Err(fault) => status_of(fault),
        }
    }

    /// Asks the owner at a place, who answers with a node, or that there is none, which is written down.
    pub fn run_for_node(
        &mut self,
        alloc: Global,
        owner: u32,
        command: Result<Command, Fault>,
        node: &mut DomNode,
    ) -> u32
        ensures answers { (asked : Asked) → IsAsked command asked →
            Answers result owner asked (ShowsNode node.new) self.old.held.value self.new.held.value }
        ensures told { self.new.told ≡ told_by self.new.held.value }
        ensures node { (result ≡ DONE → ⊥) → node.new ≡ node.old }
    {
        let Some(mut held) = self.take(alloc) else {
            return CLOSED;
        };
        let reply = held.ask_node(owner, command);
        self.put(held);
        match reply {
            Ok(its_node) => {
                *node = its_node;
                DONE
            }
            Err(fault) => status_of(fault),
        }
    }

    /// Asks the owner at a place, who answers with a truth, which is written down.
    pub fn run_for_truth(
        &mut self,
        alloc: Global,
        owner: u32,
        command: Result<Command, Fault>,
        truth: &mut bool,
    ) -> u32
        ensures answers { (asked : Asked) → IsAsked command asked →
            Answers result owner asked (ShowsTruth truth.new) self.old.held.value self.new.held.value }
        ensures told { self.new.told ≡ told_by self.new.held.value }
        ensures truth { (result ≡ DONE → ⊥) → truth.new ≡ truth.old }
    {
        let Some(mut held) = self.take(alloc) else {
            return CLOSED;
        };
        let reply = held.ask_truth(owner, command);
        self.put(held);
        match reply {
            Ok(its_truth) => {
                *truth = its_truth;
                DONE
            }
            Err(fault) => status_of(fault),
        }
    }

    /// Asks the owner at a place, who answers with a number, which is written down.
    pub fn run_for_number(
        &mut self,
        alloc: Global,
        owner: u32,
        command: Result<Command, Fault>,
        number: &mut u32,
    ) -> u32
        ensures answers { (asked : Asked) → IsAsked command asked →
            Answers result owner asked (ShowsNumber number.new) self.old.held.value self.new.held.value }
        ensures told { self.new.told ≡ told_by self.new.held.value }
        ensures number { (result ≡ DONE → ⊥) → number.new ≡ number.old }
    {
        let Some(mut held) = self.take(alloc) else {
            return CLOSED;
        };
        let reply = held.ask_number(owner, command);
        self.put(held);
        match reply {
            Ok(its_number) => {
                *number = its_number;
                DONE
            }
            Err(fault) => status_of(fault),
        }
    }

    /// Asks the owner at a place, who answers with a component, whose place is written down.
    pub fn run_for_component(
        &mut self,
        alloc: Global,
        owner: u32,
        command: Result<Command, Fault>,
        component: &mut u32,
    ) -> u32
        ensures answers { (asked : Asked) → IsAsked command asked →
            Answers result owner asked (ShowsComponent component.new) self.old.held.value self.new.held.value }
        ensures told { self.new.told ≡ told_by self.new.held.value }
        ensures component { (result ≡ DONE → ⊥) → component.new ≡ component.old }
    {
        let Some(mut held) = self.take(alloc) else {
            return CLOSED;
        };
        let reply = held.ask_component(owner, command);
        self.put(held);
        match reply {
            Ok(its_component) => {
                *component = its_component;
                DONE
            }
            Err(fault) => status_of(fault),
        }
    }

    /// Asks the owner at a place, who answers with a range's start and end, which are written down.
    pub fn run_for_points(
        &mut self,
        alloc: Global,
        owner: u32,
        command: Result<Command, Fault>,
        start: &mut DomPoint,
        end: &mut DomPoint,
    ) -> u32
        ensures answers { (asked : Asked) → IsAsked command asked →
            Answers result owner asked (ShowsPoints start.new end.new) self.old.held.value self.new.held.value }
        ensures told { self.new.told ≡ told_by self.new.held.value }
        ensures start { (result ≡ DONE → ⊥) → start.new ≡ start.old }
        ensures end { (result ≡ DONE → ⊥) → end.new ≡ end.old }
    {
        let Some(mut held) = self.take(alloc) else {
            return CLOSED;
        };
        let reply = held.ask_points(owner, command);
        self.put(held);
        match reply {
            Ok((its_start, its_end)) => {
                *start = its_start;
                *end = its_end;
                DONE
            }
            Err(fault) => status_of(fault),
        }
    }

    /// Asks the owner at a place, who answers with an iterator's reference, and whether its pointer is before it; both are written down.
    pub fn run_for_reference(
        &mut self,
        alloc: Global,
        owner: u32,
        command: Result<Command, Fault>,
        node: &mut DomNode,
        before: &mut bool,
    ) -> u32
        ensures answers { (asked : Asked) → IsAsked command asked →
            Answers result owner asked (ShowsReference node.new before.new) self.old.held.value self.new.held.value }
        ensures told { self.new.told ≡ told_by self.new.held.value }
        ensures node { (result ≡ DONE → ⊥) → node.new ≡ node.old }
        ensures before { (result ≡ DONE → ⊥) → before.new ≡ before.old }
    {
        let Some(mut held) = self.take(alloc) else {
            return CLOSED;
        };
        let reply = held.ask_reference(owner, command);
        self.put(held);
        match reply {
            Ok((its_node, its_before)) => {
                *node = its_node;
                *before = its_before;
                DONE
            }
            Err(fault) => status_of(fault),
        }
    }

    /// Asks the owner at a place, who answers with nodes, which are lent: where they stand and how many there are is written down.
    pub fn run_for_nodes(
        &mut self,
        alloc: Global,
        owner: u32,
        command: Result<Command, Fault>,
        nodes: &mut *const DomNode,
        count: &mut usize,
    ) -> u32
        ensures answers { (asked : Asked) → IsAsked command asked →
            Answers result owner asked (ShowsNodes nodes.new count.new) self.old.held.value self.new.held.value }
        ensures told { self.new.told ≡ told_by self.new.held.value }
        ensures nodes { (result ≡ DONE → ⊥) → nodes.new ≡ nodes.old }
        ensures count { (result ≡ DONE → ⊥) → count.new ≡ count.old }
    {
        let Some(mut held) = self.take(alloc) else {
            return CLOSED;
        };
        let reply = held.ask_nodes(owner, command);
        self.put(held);
        match reply {
            Ok((its_nodes, its_count)) => {
                *nodes = its_nodes;
                *count = its_count;
                DONE
            }
            Err(fault) => status_of(fault),
        }
    }

    /// Asks the owner at a place, who answers with code units or none, which are lent: whether there are any, where they stand and how many
    /// there are is written down.
    pub fn run_for_units(
        &mut self,
        alloc: Global,
        owner: u32,
        command: Result<Command, Fault>,
        has: &mut bool,
        units: &mut *const u16,
        count: &mut usize,
    ) -> u32
        ensures answers { (asked : Asked) → IsAsked command asked →
            Answers result owner asked (ShowsUnits has.new units.new count.new) self.old.held.value self.new.held.value }
        ensures told { self.new.told ≡ told_by self.new.held.value }
        ensures has { (result ≡ DONE → ⊥) → has.new ≡ has.old }
        ensures units { (result ≡ DONE → ⊥) → units.new ≡ units.old }
        ensures count { (result ≡ DONE → ⊥) → count.new ≡ count.old }
    {
        let Some(mut held) = self.take(alloc) else {
            return CLOSED;
        };
        let reply = held.ask_units(owner, command);
        self.put(held);
        match reply {
            Ok((its_has, its_units, its_count)) => {
                *has = its_has;
                *units = its_units;
                *count = its_count;
                DONE
            }
            Err(fault) => status_of(fault),
        }
    }

    /// Asks the owner at a place, who answers with a tree, whose rows are left in the answer.
    pub fn run_for_rows(
        &mut self,
        alloc: Global,
        owner: u32,
        command: Result<Command, Fault>,
    ) -> u32
        ensures answers { (asked : Asked) → IsAsked command asked →
            Answers result owner asked ShowsTree self.old.held.value self.new.held.value }
        ensures told { self.new.told ≡ told_by self.new.held.value }
    {
        let Some(mut held) = self.take(alloc) else {
            return CLOSED;
        };
        let reply = held.ask_rows(owner, command);
        self.put(held);
        match reply {
            Ok(()) => { DONE }
            Err(fault) => status_of(fault),
        }
    }

    /// Asks the owner at a place, who answers with code units, which are lent: where they stand and how many there are is written down.
    pub fn run_for_text(
        &mut self,
        alloc: Global,
        owner: u32,
        command: Result<Command, Fault>,
        units: &mut *const u16,
        count: &mut usize,
    ) -> u32
        ensures answers { (asked : Asked) → IsAsked command asked →
            Answers result owner asked (ShowsText units.new count.new) self.old.held.value self.new.held.value }
        ensures told { self.new.told ≡ told_by self.new.held.value }
        ensures units { (result ≡ DONE → ⊥) → units.new ≡ units.old }
        ensures count { (result ≡ DONE → ⊥) → count.new ≡ count.old }
    {
        let Some(mut held) = self.take(alloc) else {
            return CLOSED;
        };
        let reply = held.ask_text(owner, command);
        self.put(held);
        match reply {
            Ok((its_units, its_count)) => {
                *units = its_units;
                *count = its_count;
                DONE
            }
            Err(fault) => status_of(fault),
        }
    }
}
