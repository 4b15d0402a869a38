//! Trees with shadow hosts for tests, and paths that are compared with rows.
ghost use Rattle.std.specs.Prelude.{◌≡◌, [], true, None, IfOk, OnOk};
ghost use Rattle.dom_model.specs.Slots.{slots_among};
ghost use Rattle.dom_model.specs.Tree.{subtree};
ghost use Rattle.dom_tree.specs.Forest.{IsNode, name_of};
ghost use Rattle.dom_slots.specs.Kept.{AreSlotsOf};

use dom_base::{Fault, Kind, NodeName, Owner, OwnerPath};
use dom_path::{Item, Path};
use dom_slots::{Slots, Step, law_steps_end};
use dom_tree::{Forest, NodeData};
use indexmap::IndexMap;
use node_arena::Key;
use std::alloc::{AllocError, Global};
use std::process::Abort;

const FIRST: Owner = Owner::Component(OwnerPath {
    depth: 1,
    parts: [1, 0, 0, 0, 0, 0, 0, 0],
});

const SECOND: Owner = Owner::Component(OwnerPath {
    depth: 1,
    parts: [2, 0, 0, 0, 0, 0, 0, 0],
});

// The name that is written like this: `n1` of the page, `m1` of the first component or `k1` of the second one.
fn name(text: &str) -> NodeName {
    let bytes = text.as_bytes();
    let owner = match bytes.first() {
        Some(b'n') => Owner::Page,
        Some(b'm') => FIRST,
        _ => SECOND,
    };
    let number = match bytes.get(1) {
        Some(digit) => u32::from(digit.wrapping_sub(b'0')),
        None => 0,
    };
    NodeName { owner, number }
}

fn node(alloc: Global, kind: Kind, element: &str) -> Result<NodeData, AllocError>
    ensures { IfOk result (λ node. node.document ≡ None) }
{
    Ok(NodeData {
        kind,
        element: String::from_str(alloc, element)?,
        attributes: IndexMap::new(alloc),
        text: Vec::new(alloc),
        document: None,
    })
}

// Nodes of an owner, each alone: elements of these names, but for `shadow`.
fn add(alloc: Global, forest: &mut Forest, owner: Owner, names: &str) -> Result<(), Fault> {
    for name in names.split(' ') {
        let kind = if name == "shadow" {
            Kind::Shadow
        } else {
            Kind::Element
        };
        forest.add(owner, node(alloc, kind, name)?)?;
    }
    Ok(())
}

// Nodes of the page, and two components' shadow roots and nodes.
fn add_all(alloc: Global, forest: &mut Forest) -> Result<(), Fault> {
    add(alloc, forest, Owner::Page, "html div span")?;
    add(alloc, forest, FIRST, "shadow slot b")?;
    add(alloc, forest, SECOND, "shadow i slot")
}

// The node of a name, which has to be there.
fn key_of(rt: &impl Abort, forest: &Forest, text: &str) -> Key
    ensures { IsNode forest.now result }
{
    forest.find(name(text)).expect(rt, "there is no such node")
}

// Whether a node is a shadow root without children, so that no slot is in its tree.
fn is_alone(forest: &Forest, root: Key) -> bool
    requires { IsNode forest.now root }
    ensures { result ≡ true → slots_among (subtree forest.now.trees (name_of forest.now root)) ≡ [] }
{
    forest.law_nodes_stand_once();
    let Kind::Shadow = forest.kind(root) else {
        return false;
    };
    if !forest.is_inclusive_ancestor(root, root) {
        return false;
    }
    forest.following(root, root).is_none()
}

// Attaches a shadow root without children.
fn attach(
    rt: &impl Abort,
    forest: &Forest,
    slots: &mut Slots,
    host: &str,
    root: &str,
) -> Result<(), AllocError>
    requires slots { AreSlotsOf forest.now slots.old }
    ensures slots { OnOk result (AreSlotsOf forest.now slots.new) }
{
    forest.law_nodes_stand_once();
    let owner = name(root).owner;
    let host = key_of(rt, forest, host);
    let root = key_of(rt, forest, root);
    assert!(rt; slots.root_of(host).is_none());
    assert!(rt; slots.host_of(root).is_none());
    assert!(rt; is_alone(forest, root));
    slots.attach(host, root, owner)
}

// Places a node behind the children of another one.
fn append(
    rt: &impl Abort,
    forest: &mut Forest,
    slots: &mut Slots,
    parent: &str,
    child: &str,
) -> Result<(), AllocError>
    requires slots { AreSlotsOf forest.old slots.old }
    ensures slots { OnOk result (AreSlotsOf forest.new slots.new) }
{
    let into = key_of(rt, forest, parent);
    let node = key_of(rt, forest, child);
    assert!(rt; forest.parent(node).is_none());
    assert!(rt; !forest.is_inclusive_ancestor(node, into));
    law_steps_end();
    let change = slots.begin(forest, Step::Place(node, into, None));
    forest.link_before(into, node, None);
    let _ = slots.end(forest, change)?;
    Ok(())
}

// Does what a line says: `attach`, a host and a shadow root, or `append`, a parent and its next child.
fn perform(
    rt: &impl Abort,
    forest: &mut Forest,
    slots: &mut Slots,
    line: &str,
) -> Result<(), AllocError>
    requires slots { AreSlotsOf forest.old slots.old }
    ensures slots { OnOk result (AreSlotsOf forest.new slots.new) }
{
    let mut words = line.split(' ');
    let is_attach = words.next() == Some("attach");
    let above = words.next().expect(rt, "a line has three words");
    let node = words.next().expect(rt, "a line has three words");
    if is_attach {
        attach(rt, forest, slots, above, node)
    } else {
        append(rt, forest, slots, above, node)
    }
}

// Whether the word names this node, or is `-` where there is none.
fn is(rt: &impl Abort, forest: &Forest, node: Option<Key>, word: Option<&str>) -> bool {
    let word = word.expect(rt, "a row has at least six words");
    match node {
        Some(node) => word != "-" && node == key_of(rt, forest, word),
        None => word == "-",
    }
}

// Looks whether an item and its composed path are as the row says: the node, the target if it is its own, the target and the related
// node that it sees, `root`, `slot` or `-`, and the nodes of the path. A word `-` is for none.
fn look(rt: &impl Abort, forest: &Forest, item: &Item, path: &[Key], row: &str) {
    let mut words = row.split(' ');
    assert!(rt; is(rt, forest, Some(item.node), words.next()));
    assert!(rt; is(rt, forest, item.target, words.next()));
    assert!(rt; is(rt, forest, Some(item.event_target), words.next()));
    assert!(rt; is(rt, forest, item.related, words.next()));
    let place = words.next();
    assert!(rt; item.root_of_closed == (place == Some("root")));
    assert!(rt; item.slot_in_closed == (place == Some("slot")));
    for node in path {
        assert!(rt; is(rt, forest, Some(*node), words.next()));
    }
    assert!(rt; words.next().is_none());
}

// Looks whether the path of an event is as the rows say: of a target, a related node (an empty word for none), composed or not.
fn compare(
    rt: &impl Abort,
    alloc: Global,
    forest: &Forest,
    slots: &Slots,
    event: (&str, &str, bool),
    rows: &str,
) -> Result<(), AllocError>
    requires slots { AreSlotsOf forest.now slots.now }
{
    let (target, related, composed) = event;
    let target = key_of(rt, forest, target);
    let related = if related.is_empty() {
        None
    } else {
        Some(key_of(rt, forest, related))
    };
    let path = Path::build(alloc, forest, slots, target, related, composed)?;
    compare_items(rt, forest, &path, rows)
}

// Looks whether the items of a path are as the rows say.
fn compare_items(
    rt: &impl Abort,
    forest: &Forest,
    path: &Path,
    rows: &str,
) -> Result<(), AllocError> {
    let mut at = 0;
    for row in rows.lines() {
        assert!(rt; at < path.items().len());
        let composed = path.composed_path(at)?;
        look(rt, forest, &path.items()[at], &composed, row);
        at += 1;
    }
    assert!(rt; path.items().len() == at);
    Ok(())
}

// Does what the lines say, and looks whether the path of an event is then as the rows say.
fn play(
    rt: &impl Abort,
    alloc: Global,
    forest: &mut Forest,
    slots: &mut Slots,
    lines: &str,
    event: (&str, &str, bool),
    rows: &str,
) -> Result<(), AllocError>
    requires slots { AreSlotsOf forest.old slots.old }
{
    for line in lines.lines() {
        perform(rt, forest, slots, line)?;
    }
    compare(rt, alloc, forest, slots, event, rows)
}

// Makes trees, and compares the path of an event with rows. The page has n0 to n2, the first component the shadow root m0, the
// slot m1 and m2, the second one the shadow root k0, k1 and the slot k2.
pub(super) fn run(
    rt: &impl Abort,
    alloc: Global,
    lines: &str,
    event: (&str, &str, bool),
    rows: &str,
) {
    let mut forest = Forest::new(alloc);
    let added = add_all(alloc, &mut forest);
    assert!(rt; added.is_ok());
    let mut slots = Slots::new(alloc);
    let played = play(rt, alloc, &mut forest, &mut slots, lines, event, rows);
    assert!(rt; played.is_ok());
}
