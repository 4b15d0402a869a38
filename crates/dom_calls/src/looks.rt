//! Looks: what C reads of a node without a command.
ghost use Rattle.std.specs.Prelude.{◌≡◌, IfSome};
ghost use Rattle.dom_model.specs.Output.{a_tree};
ghost use Rattle.dom_answers.specs.Arrays.{IsReply, value_of};
ghost use Rattle.dom_calls.specs.Calls.{told_by};
ghost use Rattle.dom_calls.specs.Lending.{HoldsOn};
ghost use Rattle.dom_calls.specs.Looks.{EndsWithRow, IsSeen, LendsStructure, Looks, SeesLinks, SeesRow, SeesStructure, links_in, row_alone};

use crate::arrays::{put_structure, row_of};
use crate::commands::word;
use crate::document::{CLOSED, DONE, DomDocument, status_of};
use crate::held::{Held, ending_of};
use crate::owners::{node_or_none, owner_in};
use crate::structs::{DomLinks, DomNode, DomRow};
use dom_answers::{Reply, Row};
use dom_base::{Fault, Owner};
use dom_engine::{NodeLinks, StructureRow};
use std::alloc::Global;

/// The nodes around a node as C has them.
fn links_of(owners: &[Owner], links: &NodeLinks) -> Option<DomLinks>
    ensures { IfSome result (λ made. links_in owners.now made ≡ links.now) }
{
    Some(DomLinks {
        parent: node_or_none(owners, &links.parent)?,
        first: node_or_none(owners, &links.first)?,
        last: node_or_none(owners, &links.last)?,
        previous: node_or_none(owners, &links.previous)?,
        next: node_or_none(owners, &links.next)?,
    })
}

impl Held {
    /// The nodes around a node.
    pub(crate) fn links(&mut self, place: u32, node: DomNode) -> Result<DomLinks, Fault>
        ensures { IsSeen place node (SeesLinks place node) self.old self.new result }
    {
        if self.has_failed() {
            return Err(Fault::Memory);
        }
        self.answer.clear();
        self.has_reply = true;
        let owner = owner_in(&self.owners, place);
        match self.document.links(owner, word(place, node)) {
            Ok(links) => links_of(&self.owners, &links).ok_or(Fault::Memory),
            Err(fault) => Err(fault),
        }
    }

    /// What a node has itself, as a row whose parts lie in the answer.
    pub(crate) fn describe(&mut self, place: u32, node: DomNode) -> Result<DomRow, Fault>
        ensures { IsSeen place node (SeesRow place node) self.old self.new result }
    {
        if self.has_failed() {
            return Err(Fault::Memory);
        }
        self.has_reply = true;
        let owner = owner_in(&self.owners, place);
        match self
            .document
            .describe(owner, word(place, node), &mut self.answer)
        {
            Ok(()) => self.told_row().ok_or(Fault::Memory),
            Err(fault) => Err(fault),
        }
    }

    /// The row of the node that the answer ends with, which is a tree by itself.
    fn told_row(&self) -> Option<DomRow>
        ensures row { IfSome result (EndsWithRow self.now) }
        ensures parent { IfSome result (λ row. row.parent ≡ 0) }
    {
        match ending_of(&self.answer) {
            Some(Ok(reply)) => self.lone_row(&reply),
            _ => None,
        }
    }

    /// The row of a reply that has one node.
    fn lone_row(&self, reply: &Reply) -> Option<DomRow>
        requires { IsReply self.now.answer.arrays reply.now }
        ensures row { IfSome result (λ row. value_of self.now.answer.arrays reply.now ≡ a_tree (row_alone self.now row)) }
        ensures parent { IfSome result (λ row. row.parent ≡ 0) }
    {
        let Reply::Tree(span) = reply else {
            return None;
        };
        let [Row::Opens(row), Row::Closes] = span.of(self.answer.rows()) else {
            return None;
        };
        row_of(&self.owners, row, 0)
    }

    /// The nodes from a node down, which are lent as rows: where they stand, and how many there are.
    pub(crate) fn structure(
        &mut self,
        place: u32,
        node: DomNode,
    ) -> Result<(*const DomRow, usize), Fault>
        ensures { IsSeen place node (λ rows. SeesStructure place node rows.0 rows.1) self.old self.new result }
    {
        if self.has_failed() {
            return Err(Fault::Memory);
        }
        self.answer.clear();
        self.has_reply = true;
        let owner = owner_in(&self.owners, place);
        match self.document.structure(owner, word(place, node)) {
            Ok(rows) => self.lend_structure(&rows).ok_or(Fault::Memory),
            Err(fault) => Err(fault),
        }
    }

    /// Lends the rows of a structure.
    fn lend_structure(&mut self, rows: &[StructureRow]) -> Option<(*const DomRow, usize)>
        ensures held { HoldsOn self.old self.new }
        ensures shows { IfSome result (λ lent. LendsStructure rows.now lent.0 lent.1 self.new) }
    {
        put_structure(&mut self.shown.rows, &self.owners, rows).ok()?;
        Some((self.shown.rows.as_ptr(), self.shown.rows.len()))
    }
}

impl DomDocument {
    /// Looks at a node: the nodes around it are written down.
    pub fn links(&mut self, alloc: Global, owner: u32, node: DomNode, links: &mut DomLinks) -> u32
        ensures looks { Looks result owner node (SeesLinks owner node links.new) self.old.held.value self.new.held.value }
        ensures told { self.new.told ≡ told_by self.new.held.value }
        ensures links { (result ≡ DONE → ⊥) → links.new ≡ links.old }
    {
        let Some(mut held) = self.take(alloc) else {
            return CLOSED;
        };
        let found = held.links(owner, node);
        self.put(held);
        match found {
            Ok(its_links) => {
                *links = its_links;
                DONE
            }
            Err(fault) => status_of(fault),
        }
    }

    /// Looks at a node: what it has itself is written down as a row, whose parts lie in the arrays of the answer.
    pub fn describe(&mut self, alloc: Global, owner: u32, node: DomNode, row: &mut DomRow) -> u32
        ensures looks { Looks result owner node (SeesRow owner node row.new) self.old.held.value self.new.held.value }
        ensures told { self.new.told ≡ told_by self.new.held.value }
        ensures row { (result ≡ DONE → ⊥) → row.new ≡ row.old }
    {
        let Some(mut held) = self.take(alloc) else {
            return CLOSED;
        };
        let found = held.describe(owner, node);
        self.put(held);
        match found {
            Ok(its_row) => {
                *row = its_row;
                DONE
            }
            Err(fault) => status_of(fault),
        }
    }

    /// Looks at a node and all below it, which are lent as rows without what the nodes have themselves: where they stand and how many there are is written
    /// down.
    pub fn structure(
        &mut self,
        alloc: Global,
        owner: u32,
        node: DomNode,
        rows: &mut *const DomRow,
        count: &mut usize,
    ) -> u32
        ensures looks { Looks result owner node (SeesStructure owner node rows.new count.new) self.old.held.value self.new.held.value }
        ensures told { self.new.told ≡ told_by self.new.held.value }
        ensures rows { (result ≡ DONE → ⊥) → rows.new ≡ rows.old }
        ensures count { (result ≡ DONE → ⊥) → count.new ≡ count.old }
    {
        let Some(mut held) = self.take(alloc) else {
            return CLOSED;
        };
        let found = held.structure(owner, node);
        self.put(held);
        match found {
            Ok((its_rows, its_count)) => {
                *rows = its_rows;
                *count = its_count;
                DONE
            }
            Err(fault) => status_of(fault),
        }
    }
}
