//! Looks at a small tree. The answers are the DOM Standard's, worked out by hand.

use crate::parts::part;
use dom_answers::{Answer, AttributeSpans, Item, NodeRow, Reply, Row, Said};
use dom_base::{Fault, Kind, NodeName, Owner, OwnerPath, Refusal};
use dom_engine::{Document, NodeLinks, StructureRow};
use dom_reader::{NodeWord, parse_line};
use std::alloc::Global;
use std::process::Abort;

/// A document `n0` with a `div`, `n1`. That has a Text, `n2`, a Comment, `n3`, and a `b`, `n4`, with two attributes and a Text, `n5`. The
/// `div` is the host of the component `c1`.
const LINES: [&[u8]; 13] = [
    b"p new element div",
    b"p append n0 n1",
    b"p new text \"ab\"",
    b"p append n1 n2",
    b"p new comment \"c\"",
    b"p append n1 n3",
    b"p new element b",
    b"p append n1 n4",
    b"p set n4 id \"x\"",
    b"p set n4 class \"yz\"",
    b"p new text \"t\"",
    b"p append n4 n5",
    b"p attach n1",
];

/// A document with the tree.
fn document_with_tree(rt: &impl Abort, alloc: Global) -> Document {
    let Ok(mut document) = Document::new(alloc) else {
        panic!(rt; "no memory");
    };
    let mut answer = Answer::new(alloc);
    for line in LINES {
        let Ok(Ok(mut said)) = parse_line(alloc, line) else {
            panic!(rt; "the line says no command");
        };
        assert!(rt;
            document
                .call(&said.owner, &mut said.command, &mut answer)
                .is_ok()
        );
    }
    document
}

/// A node of the page.
fn page_node(number: u32) -> NodeName {
    NodeName {
        owner: Owner::Page,
        number,
    }
}

/// Whether a node is the page's with this number, or there is none.
fn is_numbered(node: Option<NodeName>, number: Option<u32>) -> bool {
    node == number.map(page_node)
}

/// The numbers of the parent, first and last child, and previous and next sibling of each node of the tree.
const LINKS: [(u32, [Option<u32>; 5]); 6] = [
    (0, [None, Some(1), Some(1), None, None]),
    (1, [Some(0), Some(2), Some(4), None, None]),
    (2, [Some(1), None, None, None, Some(3)]),
    (3, [Some(1), None, None, Some(2), Some(4)]),
    (4, [Some(1), Some(5), Some(5), Some(3), None]),
    (5, [Some(4), None, None, None, None]),
];

/// Whether links are to these nodes.
fn are_links(links: &NodeLinks, numbers: [Option<u32>; 5]) -> bool {
    let [parent, first, last, previous, next] = numbers;
    is_numbered(links.parent, parent)
        && is_numbered(links.first, first)
        && is_numbered(links.last, last)
        && is_numbered(links.previous, previous)
        && is_numbered(links.next, next)
}

#[test]
fn links_are_the_nodes_around(rt: HostRuntime) {
    let document = document_with_tree(&rt, rt.alloc());
    for (number, numbers) in LINKS {
        let Ok(links) = document.links(&Owner::Page, NodeWord::Own(number)) else {
            panic!(rt; "the look is refused");
        };
        assert!(rt; are_links(&links, numbers));
    }
}

/// Whether a row is of this node, kind, and parent's place.
fn is_row(row: &StructureRow, number: u32, kind: Kind, parent: Option<usize>) -> bool {
    row.node == page_node(number) && row.kind == kind && row.parent == parent
}

/// The nodes of the `div`'s tree in tree order: the number, the kind, and the place of the parent.
const ROWS: [(u32, Kind, Option<usize>); 5] = [
    (1, Kind::Element, None),
    (2, Kind::Text, Some(0)),
    (3, Kind::Comment, Some(0)),
    (4, Kind::Element, Some(0)),
    (5, Kind::Text, Some(3)),
];

#[test]
fn structure_is_the_tree_in_its_order(rt: HostRuntime) {
    let document = document_with_tree(&rt, rt.alloc());
    let Ok(rows) = document.structure(&Owner::Page, NodeWord::Own(1)) else {
        panic!(rt; "no memory, or refused");
    };
    assert!(rt; rows.len() == ROWS.len());
    for (row, (number, kind, parent)) in rows.iter().zip(ROWS) {
        assert!(rt; is_row(row, number, kind, parent));
    }
}

/// The row of the one node that an answer tells of.
fn row_told(answer: &Answer) -> Option<NodeRow> {
    let [Item::Says(Owner::Page, Said::Replied(Reply::Tree(span)))] = answer.items() else {
        return None;
    };
    match part(*span, answer.rows())? {
        [Row::Opens(row), Row::Closes] => Some(*row),
        _ => None,
    }
}

/// Whether an attribute has this name and value.
fn is_attribute(answer: &Answer, spans: &AttributeSpans, name: &[u8], value: &[u16]) -> bool {
    part(spans.name, answer.bytes()) == Some(name)
        && part(spans.value, answer.units()) == Some(value)
}

/// What is told of a node of the tree.
fn description(rt: &impl Abort, alloc: Global, number: u32) -> (Answer, NodeRow) {
    let document = document_with_tree(rt, alloc);
    let mut answer = Answer::new(alloc);
    assert!(rt;
        document
            .describe(&Owner::Page, NodeWord::Own(number), &mut answer)
            .is_ok()
    );
    let Some(row) = row_told(&answer) else {
        panic!(rt; "the answer is not of one node");
    };
    assert!(rt; row.name == page_node(number));
    (answer, row)
}

#[test]
fn element_is_described(rt: HostRuntime) {
    let (answer, row) = description(&rt, rt.alloc(), 4);
    assert!(rt; row.kind == Kind::Element && row.text.count == 0);
    assert!(rt; part(row.element, answer.bytes()) == Some(b"b".as_slice()));
    let Some([id, class]) = part(row.attributes, answer.attributes()) else {
        panic!(rt; "the element has not two attributes");
    };
    assert!(rt; is_attribute(&answer, id, b"id", &[0x78]));
    assert!(rt; is_attribute(&answer, class, b"class", &[0x79, 0x7A]));
}

#[test]
fn text_is_described(rt: HostRuntime) {
    let (answer, row) = description(&rt, rt.alloc(), 2);
    assert!(rt; row.kind == Kind::Text && row.element.count == 0 && row.attributes.count == 0);
    assert!(rt; part(row.text, answer.units()) == Some([0x61, 0x62].as_slice()));
}

/// A component of the page, by its number.
fn component(number: u32) -> Owner {
    Owner::Component(OwnerPath {
        depth: 1,
        parts: [number, 0, 0, 0, 0, 0, 0, 0],
    })
}

/// Looks that are refused (docs/PROTOCOL.md): of nodes that another owner has, that are not there, and of an owner that is not there.
fn refused_looks() -> [(Owner, NodeWord, Refusal); 5] {
    [
        (Owner::Page, NodeWord::Foreign, Refusal::Foreign),
        (Owner::Page, NodeWord::Own(6), Refusal::Unknown),
        (Owner::Page, NodeWord::Own(4_000_000_000), Refusal::Unknown),
        (component(1), NodeWord::Own(5), Refusal::Unknown),
        (component(2), NodeWord::Own(0), Refusal::Unknown),
    ]
}

#[test]
fn looks_are_refused_as_reads_are(rt: HostRuntime) {
    let document = document_with_tree(&rt, rt.alloc());
    let mut answer = Answer::new(rt.alloc());
    for (owner, node, refusal) in refused_looks() {
        let refused = Fault::Refused(refusal);
        assert!(rt; document.links(&owner, node).err() == Some(refused));
        assert!(rt; document.describe(&owner, node, &mut answer) == Err(refused));
        assert!(rt; answer.items().is_empty());
        assert!(rt; document.structure(&owner, node).err() == Some(refused));
    }
}

#[test]
fn components_look_at_their_own_trees(rt: HostRuntime) {
    let document = document_with_tree(&rt, rt.alloc());
    let Ok(links) = document.links(&component(1), NodeWord::Own(0)) else {
        panic!(rt; "the look is refused");
    };
    assert!(rt; are_links(&links, [None; 5]));
    let Ok(rows) = document.structure(&component(1), NodeWord::Own(0)) else {
        panic!(rt; "no memory, or refused");
    };
    let [row] = rows.as_slice() else {
        panic!(rt; "the shadow tree has not one node");
    };
    assert!(rt; row.node.owner == component(1) && row.node.number == 0);
    assert!(rt; row.kind == Kind::Shadow && row.parent.is_none());
}
