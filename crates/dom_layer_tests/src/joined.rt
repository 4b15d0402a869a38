//! Data that come behind those of another Text.
use crate::callers::key_of;
use dom_base::{Fault, Kind, Owner};
use dom_tree::{Forest, NodeData};
use indexmap::IndexMap;
use std::alloc::Global;
use std::process::Abort;

// Adds a Text of the page that holds a unit so many times.
fn add_text(alloc: Global, forest: &mut Forest, unit: u16, count: usize) -> Result<(), Fault> {
    let node = NodeData {
        kind: Kind::Text,
        element: String::new(alloc),
        attributes: IndexMap::new(alloc),
        text: Vec::from_elem(alloc, unit, count)?,
        document: None,
    };
    forest.add(Owner::Page, node)?;
    Ok(())
}

// Puts the data of a node of the page behind those of another one.
fn append(rt: &impl Abort, forest: &mut Forest, node: u32, of: u32) -> Result<(), Fault> {
    let key = key_of(rt, forest, node);
    let of = key_of(rt, forest, of);
    forest.append_data(key, of)?;
    Ok(())
}

// Joins three Texts: fifteen units, then one more, then all of them behind the second.
fn join_texts(rt: &impl Abort, alloc: Global, forest: &mut Forest) -> Result<(), Fault> {
    add_text(alloc, forest, 7, 9)?;
    add_text(alloc, forest, 8, 6)?;
    add_text(alloc, forest, 9, 1)?;
    append(rt, forest, 0, 1)?;
    assert!(rt;
        forest.text(key_of(rt, forest, 0))
            == [7, 7, 7, 7, 7, 7, 7, 7, 7, 8, 8, 8, 8, 8, 8].as_slice()
    );
    append(rt, forest, 0, 2)?;
    append(rt, forest, 1, 0)
}

#[test]
fn data_come_behind_those_of_another_text(rt: HostRuntime) {
    let mut forest = Forest::new(rt.alloc());
    let joined = join_texts(&rt, rt.alloc(), &mut forest);
    assert!(rt; joined.is_ok());
    let first = forest.text(key_of(&rt, &forest, 0));
    assert!(rt; first == [7, 7, 7, 7, 7, 7, 7, 7, 7, 8, 8, 8, 8, 8, 8, 9].as_slice());
    let second = forest.text(key_of(&rt, &forest, 1));
    assert!(rt;
        second
            == [
                8, 8, 8, 8, 8, 8, 7, 7, 7, 7, 7, 7, 7, 7, 7, 8, 8, 8, 8, 8, 8, 9
            ]
            .as_slice()
    );
    assert!(rt; forest.text(key_of(&rt, &forest, 2)) == [9].as_slice());
}
