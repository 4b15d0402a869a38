//! The arrays of an answer.
ghost use Rattle.std.specs.Prelude.{◌≡◌, ◌++◌, ◌∷◌, [], length, map, IfOk, OnOk, OnErr};
ghost use Rattle.std.specs.List.{All};
ghost use Rattle.dom_base.specs.declared.NodeName.{NodeName as Name};
ghost use Rattle.dom_printer.specs.Names.{name_view};
ghost use Rattle.dom_answers.specs.Arrays.{AreSound, Grows, Holds, IsAttribute, IsRow, Keeps};
ghost use Rattle.dom_answers.specs.Parts.{IsPart, part};

use crate::items::{AttributeSpans, Row, Span};
use dom_base::NodeName;
use dom_printer::{LentName, Names};
use std::alloc::{AllocError, Global};
use std::marker::Model;

/// The nodes, code units, bytes, rows of trees and attributes in which the items of an answer have places. Things are only added at the
/// end, until all are removed.
#[derive(Drop)]
pub(crate) struct Pools {
    pub(crate) nodes: Vec<NodeName>,
    pub(crate) units: Vec<u16>,
    pub(crate) bytes: Vec<u8>,
    pub(crate) rows: Vec<Row>,
    pub(crate) attributes: Vec<AttributeSpans>,
}

impl Model for Pools {
    ghost use Rattle.dom_answers.specs.Arrays.{Arrays, AreSound};

    ghost Value = { Arrays };

    ghost view = { λ p. record {
      nodes = p.nodes.items;
      units = p.units.items;
      bytes = p.bytes.items;
      rows = p.rows.items;
      attributes = p.attributes.items;
    } };

    ghost invariant = { λ p. AreSound (record {
      nodes = p.nodes.items;
      units = p.units.items;
      bytes = p.bytes.items;
      rows = p.rows.items;
      attributes = p.attributes.items;
    }) };
}

impl Pools {
    ghost use Rattle.dom_answers.specs.Arrays.{Arrays};

    /// Empty arrays. They take no memory yet.
    pub(crate) fn new(alloc: Global) -> Self
        ensures { result ≡ record { nodes = []; units = []; bytes = []; rows = []; attributes = [] } }
    {
        Pools {
            nodes: Vec::new(alloc),
            units: Vec::new(alloc),
            bytes: Vec::new(alloc),
            rows: Vec::new(alloc),
            attributes: Vec::new(alloc),
        }
    }

    /// Removes all things. The memory is kept.
    pub(crate) fn clear(&mut self)
        ensures { self.new ≡ record { nodes = []; units = []; bytes = []; rows = []; attributes = [] } }
    {
        self.nodes.clear();
        self.units.clear();
        self.bytes.clear();
        self.rows.clear();
        self.attributes.clear();
    }

    /// The parts of each row and each attribute lie within the arrays.
    #[inline(always)]
    pub(crate) fn law_sound(&self)
        ensures { AreSound self.now }
    {
        let _ = &self.rows;
    }

    /// The nodes.
    pub(crate) fn nodes(&self) -> &[NodeName]
        ensures { result.now ≡ self.now.nodes }
    {
        self.nodes.as_slice()
    }

    /// The code units.
    pub(crate) fn units(&self) -> &[u16]
        ensures { result.now ≡ self.now.units }
    {
        self.units.as_slice()
    }

    /// The bytes.
    pub(crate) fn bytes(&self) -> &[u8]
        ensures { result.now ≡ self.now.bytes }
    {
        self.bytes.as_slice()
    }

    /// The rows.
    pub(crate) fn rows(&self) -> &[Row]
        ensures rows { result.now ≡ self.now.rows }
        ensures within { All (IsRow self.now) result.now }
    {
        self.rows.as_slice()
    }

    /// The attributes.
    pub(crate) fn attributes(&self) -> &[AttributeSpans]
        ensures attributes { result.now ≡ self.now.attributes }
        ensures within { All (IsAttribute self.now) result.now }
    {
        self.attributes.as_slice()
    }

    /// Adds code units.
    pub(crate) fn add_units(&mut self, units: &[u16]) -> Result<Span, AllocError>
        ensures ok { OnOk result (self.new ≡ record self.old { units = self.old.units ++ units.now }) }
        ensures span { IfOk result (λ span. span ≡ record { at = length self.old.units; count = length units.now }) }
        ensures grown { Grows self.old self.new }
        ensures err { OnErr result (self.new ≡ self.old) }
    {
        let span = Span {
            at: self.units.len(),
            count: units.len(),
        };
        self.units.extend_from_slice(units)?;
        Ok(span)
    }

    /// Adds bytes.
    pub(crate) fn add_bytes(&mut self, bytes: &[u8]) -> Result<Span, AllocError>
        ensures ok { OnOk result (self.new ≡ record self.old { bytes = self.old.bytes ++ bytes.now }) }
        ensures span { IfOk result (λ span. span ≡ record { at = length self.old.bytes; count = length bytes.now }) }
        ensures grown { Grows self.old self.new }
        ensures err { OnErr result (self.new ≡ self.old) }
    {
        let span = Span {
            at: self.bytes.len(),
            count: bytes.len(),
        };
        self.bytes.extend_from_slice(bytes)?;
        Ok(span)
    }

    /// Adds nodes.
    pub(crate) fn add_nodes(&mut self, nodes: &[NodeName]) -> Result<Span, AllocError>
        ensures grown { Grows self.old self.new }
        ensures ok { IfOk result (λ span. Holds self.new.nodes span nodes.now) }
    {
        let span = Span {
            at: self.nodes.len(),
            count: nodes.len(),
        };
        self.nodes.extend_from_slice(nodes)?;
        Ok(span)
    }

    /// Adds an attribute. Its name and its value are in the arrays already.
    pub(crate) fn push_attribute(&mut self, spans: AttributeSpans) -> Result<(), AllocError>
        requires { IsAttribute self.old spans }
        ensures ok { OnOk result (self.new ≡ record self.old { attributes = self.old.attributes ++ spans ∷ [] }) }
        ensures sound { OnOk result (AreSound self.new) }
        ensures grown { Grows self.old self.new }
        ensures err { OnErr result (self.new ≡ self.old) }
    {
        Ok(self.attributes.push(spans)?)
    }

    /// Adds a row. Its parts are in the arrays already.
    pub(crate) fn push_row(&mut self, row: Row) -> Result<(), AllocError>
        requires { IsRow self.old row }
        ensures ok { OnOk result (self.new ≡ record self.old { rows = self.old.rows ++ row ∷ [] }) }
        ensures sound { OnOk result (AreSound self.new) }
        ensures grown { Grows self.old self.new }
        ensures err { OnErr result (self.new ≡ self.old) }
    {
        Ok(self.rows.push(row)?)
    }

    /// Adds the names of nodes.
    pub(crate) fn add_names<T, N: Names<T>>(
        &mut self,
        names: &N,
        nodes: &[T],
    ) -> Result<Span, AllocError>
        requires { All (N.knows names.now) nodes.now }
        ensures grown { Grows self.old self.new }
        ensures ok { IfOk result (λ span. Holds self.new.nodes span (map (N.name names.now) nodes.now)) }
    {
        let span = Span {
            at: self.nodes.len(),
            count: nodes.len(),
        };
        push_names(&mut self.nodes, names, nodes)?;
        Ok(span)
    }
}

/// Pushes the names of nodes.
fn push_names<T, N: Names<T>>(
    out: &mut Vec<NodeName>,
    names: &N,
    nodes: &[T],
) -> Result<(), AllocError>
    requires { All (N.knows names.now) nodes.now }
    ensures kept { Keeps out.old.items out.new.items }
    ensures ok { OnOk result (out.new.items ≡ out.old.items ++ map (N.name names.now) nodes.now) }
{
    for node in nodes {
        out.push(owned(names.lent(node)))?;
    }
    Ok(())
}

/// The name that is lent.
pub(crate) fn owned(name: LentName<'_>) -> NodeName
    ensures { result ≡ name_view name.entry }
{
    NodeName {
        owner: *name.owner,
        number: name.number,
    }
}

/// Lent names that tell themselves.
pub(crate) struct Themselves;

impl Names<LentName<'_>> for Themselves {
    ghost name = { λ _ node. name_view node };

    ghost knows = { λ _ _. Unit {0} };

    #[inline(always)]
    fn lent<'a>(&'a self, node: &'a LentName<'_>) -> LentName<'a> {
        *node
    }
}
