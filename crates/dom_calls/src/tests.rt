//! Calls with a handle.

use crate::commands::{new_element, set_attribute, word};
use crate::document::{DONE, DomDocument};
use crate::structs::{DomNode, NONE};
use dom_reader::Command;
use std::process::Abort;

#[test]
fn a_page_is_built(rt: HostRuntime) {
    let alloc = rt.alloc();
    let mut document = DomDocument::closed();
    assert!(rt; document.open(alloc) == DONE);
    let mut node = NONE;
    let made = document.run_for_node(alloc, 0, new_element(alloc, b"div"), &mut node);
    assert!(rt; made == DONE);
    assert!(rt; node.owner == 0 && node.number == 1);
    let root = DomNode {
        owner: 0,
        number: 0,
    };
    assert!(rt; document.run(alloc, 0, Ok(Command::Append(word(0, root), word(0, node)))) == DONE);
    assert!(rt; document.run(alloc, 0, set_attribute(alloc, word(0, node), b"a", &[1, 2])) == DONE);
    assert!(rt; document.run(alloc, 1, Ok(Command::Remove(word(1, node)))) == 3);
    let mut component = 7;
    assert!(rt;
        document.run_for_component(alloc, 0, Ok(Command::Attach(word(0, node))), &mut component)
            == DONE
    );
    assert!(rt; component == 1);
    assert!(rt; document.close(alloc) == DONE);
    document.end();
}
