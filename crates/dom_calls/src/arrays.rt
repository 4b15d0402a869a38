//! Nodes, spans, attributes and rows as C has them. None is given for what the numbers of C can't say.

ghost use Rattle.std.specs.Prelude.{◌≡◌, IfSome, OnOk, [], map};
ghost use Rattle.dom_calls.specs.Arrays.{attribute_in, kind_numbered, last_or_zero, nodes_opened, parents_after, row_in, span_in};
ghost use Rattle.dom_calls.specs.Looks.{bare_row, parents_row};
ghost use Rattle.dom_calls.specs.Owners.{named_in};

use crate::owners::{narrowed, node_of};
use crate::structs::{DomAttribute, DomNode, DomRow, DomSpan};
use dom_answers::{AttributeSpans, NodeRow, Row, Span};
use dom_base::{Fault, Kind, NodeName, Owner};
use dom_engine::StructureRow;
use std::alloc::Global;

/// A part of an array as C has it.
pub(crate) fn span_of(span: Span) -> Option<DomSpan>
    ensures { IfSome result (λ narrow. span_in narrow ≡ span) }
{
    Some(DomSpan {
        at: narrowed(span.at)?,
        count: narrowed(span.count)?,
    })
}

/// Puts nodes in place of what an array holds.
pub(crate) fn put_nodes(
    out: &mut Vec<DomNode>,
    owners: &[Owner],
    names: &[NodeName],
) -> Result<(), Fault>
    ensures { OnOk result (map (named_in owners.now) out.new.items ≡ names.now) }
{
    out.clear();
    for name in names {
        out.push(node_of(owners, name).ok_or(Fault::Memory)?)?;
    }
    Ok(())
}

/// An attribute as C has it.
fn attribute_of(spans: &AttributeSpans) -> Option<DomAttribute>
    ensures { IfSome result (λ attribute. attribute_in attribute ≡ spans.now) }
{
    Some(DomAttribute {
        name: span_of(spans.name)?,
        value: span_of(spans.value)?,
    })
}

/// Puts attributes in place of what an array holds.
pub(crate) fn put_attributes(
    out: &mut Vec<DomAttribute>,
    attributes: &[AttributeSpans],
) -> Result<(), Fault>
    ensures { OnOk result (map attribute_in out.new.items ≡ attributes.now) }
{
    out.clear();
    for attribute in attributes {
        out.push(attribute_of(attribute).ok_or(Fault::Memory)?)?;
    }
    Ok(())
}

/// The number of a kind: the DOM's nodeType, and 12 for a shadow root.
fn kind_number(kind: Kind) -> u32
    ensures { kind_numbered result ≡ kind }
{
    match kind {
        Kind::Element => 1,
        Kind::Text => 3,
        Kind::Comment => 8,
        Kind::Document => 9,
        Kind::Fragment => 11,
        Kind::Shadow => 12,
    }
}

/// A node's row, with the row of its parent.
pub(crate) fn row_of(owners: &[Owner], row: &NodeRow, parent: u32) -> Option<DomRow>
    ensures row { IfSome result (λ made. row_in owners.now made ≡ row.now) }
    ensures parent { IfSome result (λ made. made.parent ≡ parent) }
{
    Some(DomRow {
        node: node_of(owners, &row.name)?,
        kind: kind_number(row.kind),
        parent,
        name: span_of(row.element)?,
        data: span_of(row.text)?,
        attributes: span_of(row.attributes)?,
    })
}

/// The last of some numbers, or 0.
fn last_of(numbers: &[u32]) -> u32
    ensures { result ≡ last_or_zero numbers.now }
{
    match numbers.last() {
        Some(last) => *last,
        None => 0,
    }
}

/// Puts the rows of a tree in place of what an array holds: the nodes in tree order, each with the row of its parent.
pub(crate) fn put_rows(
    alloc: Global,
    out: &mut Vec<DomRow>,
    owners: &[Owner],
    rows: &[Row],
) -> Result<(), Fault>
    ensures nodes { OnOk result (map (row_in owners.now) out.new.items ≡ nodes_opened rows.now) }
    ensures parents { OnOk result (map (λ row. row.parent) out.new.items ≡ parents_after 0 [] rows.now) }
{
    out.clear();
    let mut above = Vec::new(alloc);
    for row in rows {
        match row {
            Row::Opens(node) => {
                let at = narrowed(out.len()).ok_or(Fault::Memory)?;
                let parent = last_of(&above);
                out.push(row_of(owners, node, parent).ok_or(Fault::Memory)?)?;
                above.push(at)?;
            }
            Row::Closes => {
                above.pop();
            }
        }
    }
    Ok(())
}

/// A node of a structure, without what it has itself. The parent of the first node is given as 0.
fn bare_of(owners: &[Owner], row: &StructureRow) -> Option<DomRow>
    ensures row { IfSome result (λ made. row_in owners.now made ≡ bare_row row.now) }
    ensures parent { IfSome result (λ made. made.parent ≡ parents_row row.now) }
{
    let nothing = Span { at: 0, count: 0 };
    let bare = NodeRow {
        name: row.node,
        kind: row.kind,
        element: nothing,
        attributes: nothing,
        text: nothing,
    };
    row_of(owners, &bare, narrowed(row.parent.unwrap_or(0))?)
}

/// Puts the rows of a structure in place of what an array holds.
pub(crate) fn put_structure(
    out: &mut Vec<DomRow>,
    owners: &[Owner],
    rows: &[StructureRow],
) -> Result<(), Fault>
    ensures nodes { OnOk result (map (row_in owners.now) out.new.items ≡ map bare_row rows.now) }
    ensures parents { OnOk result (map (λ row. row.parent) out.new.items ≡ map parents_row rows.now) }
{
    out.clear();
    for row in rows {
        out.push(bare_of(owners, row).ok_or(Fault::Memory)?)?;
    }
    Ok(())
}
