//! Each caller on a small document.
ghost use Rattle.std.specs.Prelude.{◌≡◌, None, IfOk};
ghost use Rattle.dom_tree.specs.Forest.{IsNode};

use dom_base::{Fault, Kind, NodeName, Owner};
use dom_callers::{
    count_items, has_match, headings, item_at, label, last_comes_first, move_to_front, next_focus,
    rearrange, select_contents, watch_attributes,
};
use dom_observers::{Observers, inclusive_ancestors};
use dom_ranges::RangeTable;
use dom_traversal::Filter;
use dom_tree::{Forest, NodeData};
use indexmap::IndexMap;
use node_arena::{Arena, Key};
use std::alloc::{AllocError, Global};
use std::process::Abort;

// A `button`, or a Text `x`.
fn node(alloc: Global, kind: Kind) -> Result<NodeData, AllocError>
    ensures { IfOk result (λ node. node.document ≡ None) }
{
    let is_text = matches!(kind, Kind::Text);
    let mut text = Vec::new(alloc);
    if is_text {
        text.push(b'x' as u16)?;
    }
    Ok(NodeData {
        kind,
        element: String::from_str(alloc, if is_text { "" } else { "button" })?,
        attributes: IndexMap::new(alloc),
        text,
        document: None,
    })
}

// The key of a node of the page.
pub(crate) fn key_of(rt: &impl Abort, forest: &Forest, number: u32) -> Key
    ensures { IsNode forest.now result }
{
    let name = NodeName {
        owner: Owner::Page,
        number,
    };
    forest.find(name).expect(rt, "the page has no such node")
}

// Makes a node of the page the last child of another one.
fn link(rt: &impl Abort, forest: &mut Forest, parent: u32, child: u32) {
    let into = key_of(rt, forest, parent);
    let node = key_of(rt, forest, child);
    assert!(rt; forest.parent(node).is_none());
    assert!(rt; !forest.is_inclusive_ancestor(node, into));
    forest.link_before(into, node, None);
}

// Adds an element 0 with the children 1 and 2, which are `button`s, and a Text 3 in the second of them.
fn add_buttons(rt: &impl Abort, alloc: Global, forest: &mut Forest) -> Result<(), Fault> {
    for kind in [Kind::Element, Kind::Element, Kind::Element, Kind::Text] {
        forest.add(Owner::Page, node(alloc, kind)?)?;
    }
    link(rt, forest, 0, 1);
    link(rt, forest, 0, 2);
    link(rt, forest, 2, 3);
    Ok(())
}

// A forest with these nodes.
fn buttons(rt: &impl Abort, alloc: Global) -> Forest {
    let mut forest = Forest::new(alloc);
    let added = add_buttons(rt, alloc, &mut forest);
    assert!(rt; added.is_ok());
    forest
}

#[test]
fn a_document_is_asked(rt: HostRuntime) {
    let forest = buttons(&rt, rt.alloc());
    let top = key_of(&rt, &forest, 0);
    let second = key_of(&rt, &forest, 2);
    assert!(rt; label(&forest, second) == Some(&[120]));
    let filter = Filter {
        show: 1,
        name: None,
    };
    let next = next_focus(&forest, top, second, filter).expect(&rt, "nothing gets the focus");
    assert!(rt; forest.name(next).number == 1);
    let matched = has_match(rt.alloc(), &forest, top, &[42]);
    assert!(rt; matches!(matched, Ok(true)));
}

#[test]
fn a_document_is_watched(rt: HostRuntime) {
    let forest = buttons(&rt, rt.alloc());
    let top = key_of(&rt, &forest, 0);
    let mut ranges = RangeTable::new(rt.alloc());
    let Ok(range) = select_contents(&mut ranges, Owner::Page, &forest, top) else {
        panic!(rt; "no range is made");
    };
    let points = ranges
        .points(Owner::Page, range)
        .expect(&rt, "the range is not there");
    assert!(rt; points.start == (top, 0) && points.end == (top, 2));
    let mut observers = Observers::new(rt.alloc());
    let owner = forest.name(top).owner;
    let watched = watch_attributes(&mut observers, &forest, owner, top);
    assert!(rt; matches!(watched, Ok(0)));
    assert!(rt; observers.is_watched(Owner::Page));
}

#[test]
fn a_note_is_rearranged(rt: HostRuntime) {
    let mut forest = Forest::new(rt.alloc());
    let mut ranges = RangeTable::new(rt.alloc());
    let Ok(range) = rearrange(rt.alloc(), &mut forest, &mut ranges) else {
        panic!(rt; "no range is made");
    };
    let article = key_of(&rt, &forest, 1);
    let heading = key_of(&rt, &forest, 2);
    assert!(rt; forest.last(article) == Some(heading));
    let Ok(found) = headings(rt.alloc(), &forest, article) else {
        panic!(rt; "no memory");
    };
    assert!(rt; found.as_slice() == [heading].as_slice());
    let points = ranges
        .points(Owner::Page, range)
        .expect(&rt, "the range is not there");
    assert!(rt; points.start == (article, 0) && points.end == (article, 2));
}

#[test]
fn the_last_button_comes_first(rt: HostRuntime) {
    let mut forest = buttons(&rt, rt.alloc());
    let top = key_of(&rt, &forest, 0);
    let first = key_of(&rt, &forest, 1);
    let second = key_of(&rt, &forest, 2);
    assert!(rt; count_items(&forest, top) == 2);
    assert!(rt; item_at(&forest, top, 1) == Some(second));
    assert!(rt; last_comes_first(&mut forest, top) == Some(second));
    assert!(rt; item_at(&forest, top, 0) == Some(second));
    assert!(rt; item_at(&forest, top, 1) == Some(first));
    assert!(rt; item_at(&forest, top, 2).is_none());
}

#[test]
fn a_root_stays(rt: HostRuntime) {
    let mut arena = Arena::new(rt.alloc());
    let Ok(top) = arena.add('t') else {
        panic!(rt; "no memory");
    };
    move_to_front(&mut arena, top);
    assert!(rt; arena.parent(top).is_none());
}

#[test]
fn a_text_stands_below_its_ancestors(rt: HostRuntime) {
    let forest = buttons(&rt, rt.alloc());
    let Ok(path) = inclusive_ancestors(rt.alloc(), &forest, key_of(&rt, &forest, 3)) else {
        panic!(rt; "no memory");
    };
    let wanted = [
        key_of(&rt, &forest, 3),
        key_of(&rt, &forest, 2),
        key_of(&rt, &forest, 0),
    ];
    assert!(rt; path.as_slice() == wanted.as_slice());
}
