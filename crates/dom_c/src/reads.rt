//! Calls that ask about nodes, and selectors.
ghost use Rattle.std.specs.Prelude.{◌≡◌, Ok};
ghost use Rattle.dom_model.specs.Command as model;
ghost use Rattle.dom_calls.specs.Calls.{Answers, ShowsNode, ShowsNodes, ShowsTree, ShowsTruth, told_by};
ghost use Rattle.dom_calls.specs.Owners.{word_at};

use dom_calls::{DONE, DomDocument, DomNode, asked, matches, query, word};
use dom_reader::Command;
use std::alloc::Global;

/// Asks for the parent of a node (DOM Standard, parentNode).
#[unsafe(no_mangle)]
pub extern "C" fn dom_parent(
    alloc: Global,
    document: &mut DomDocument,
    owner: u32,
    node: DomNode,
    parent: &mut DomNode,
) -> u32
    ensures answers { Answers result owner (Ok (model.parent (word_at owner node))) (ShowsNode parent.new) document.old.held.value document.new.held.value }
    ensures told { document.new.told ≡ told_by document.new.held.value }
    ensures parent_kept { (result ≡ DONE → ⊥) → parent.new ≡ parent.old }
{
    document.run_for_node(
        alloc,
        owner,
        asked(Command::Parent(word(owner, node))),
        parent,
    )
}

/// Asks for the node document of a node (DOM Standard, node document).
#[unsafe(no_mangle)]
pub extern "C" fn dom_owner_document(
    alloc: Global,
    document: &mut DomDocument,
    owner: u32,
    node: DomNode,
    of: &mut DomNode,
) -> u32
    ensures answers { Answers result owner (Ok (model.document_of (word_at owner node))) (ShowsNode of.new) document.old.held.value document.new.held.value }
    ensures told { document.new.told ≡ told_by document.new.held.value }
    ensures of_kept { (result ≡ DONE → ⊥) → of.new ≡ of.old }
{
    document.run_for_node(
        alloc,
        owner,
        asked(Command::DocumentOf(word(owner, node))),
        of,
    )
}

/// Lends the children of a node (DOM Standard, childNodes).
#[unsafe(no_mangle)]
pub extern "C" fn dom_children(
    alloc: Global,
    document: &mut DomDocument,
    owner: u32,
    node: DomNode,
    nodes: &mut *const DomNode,
    node_count: &mut usize,
) -> u32
    ensures answers { Answers result owner (Ok (model.children (word_at owner node)))
        (ShowsNodes nodes.new node_count.new) document.old.held.value document.new.held.value }
    ensures told { document.new.told ≡ told_by document.new.held.value }
    ensures nodes_kept { (result ≡ DONE → ⊥) → nodes.new ≡ nodes.old }
    ensures node_count_kept { (result ≡ DONE → ⊥) → node_count.new ≡ node_count.old }
{
    document.run_for_nodes(
        alloc,
        owner,
        asked(Command::Children(word(owner, node))),
        nodes,
        node_count,
    )
}

/// Asks whether a node contains another (DOM Standard, contains).
#[unsafe(no_mangle)]
pub extern "C" fn dom_contains(
    alloc: Global,
    document: &mut DomDocument,
    owner: u32,
    node: DomNode,
    other: DomNode,
    does: &mut bool,
) -> u32
    ensures answers { Answers result owner (Ok (model.contains (word_at owner node) (word_at owner other)))
        (ShowsTruth does.new) document.old.held.value document.new.held.value }
    ensures told { document.new.told ≡ told_by document.new.held.value }
    ensures does_kept { (result ≡ DONE → ⊥) → does.new ≡ does.old }
{
    document.run_for_truth(
        alloc,
        owner,
        asked(Command::Contains(word(owner, node), word(owner, other))),
        does,
    )
}

/// Asks whether a node is connected (DOM Standard, shadow-including root).
#[unsafe(no_mangle)]
pub extern "C" fn dom_is_connected(
    alloc: Global,
    document: &mut DomDocument,
    owner: u32,
    node: DomNode,
    is: &mut bool,
) -> u32
    ensures answers { Answers result owner (Ok (model.connected (word_at owner node))) (ShowsTruth is.new) document.old.held.value document.new.held.value }
    ensures told { document.new.told ≡ told_by document.new.held.value }
    ensures is_kept { (result ≡ DONE → ⊥) → is.new ≡ is.old }
{
    document.run_for_truth(
        alloc,
        owner,
        asked(Command::Connected(word(owner, node))),
        is,
    )
}

/// Asks for the open shadow root of an element (DOM Standard, shadowRoot): there is none, since all are closed.
#[unsafe(no_mangle)]
pub extern "C" fn dom_shadow_root(
    alloc: Global,
    document: &mut DomDocument,
    owner: u32,
    element: DomNode,
    root: &mut DomNode,
) -> u32
    ensures answers { Answers result owner (Ok (model.shadow_root (word_at owner element)))
        (ShowsNode root.new) document.old.held.value document.new.held.value }
    ensures told { document.new.told ≡ told_by document.new.held.value }
    ensures root_kept { (result ≡ DONE → ⊥) → root.new ≡ root.old }
{
    document.run_for_node(
        alloc,
        owner,
        asked(Command::ShadowRoot(word(owner, element))),
        root,
    )
}

/// Asks for the slot of an open tree to which a node is assigned (DOM Standard, assignedSlot): there is none, since all are closed.
#[unsafe(no_mangle)]
pub extern "C" fn dom_assigned_slot(
    alloc: Global,
    document: &mut DomDocument,
    owner: u32,
    node: DomNode,
    slot: &mut DomNode,
) -> u32
    ensures answers { Answers result owner (Ok (model.slot_of (word_at owner node))) (ShowsNode slot.new) document.old.held.value document.new.held.value }
    ensures told { document.new.told ≡ told_by document.new.held.value }
    ensures slot_kept { (result ≡ DONE → ⊥) → slot.new ≡ slot.old }
{
    document.run_for_node(
        alloc,
        owner,
        asked(Command::SlotOf(word(owner, node))),
        slot,
    )
}

/// Lends the nodes that are assigned to a slot of a component (DOM Standard, find slottables).
#[unsafe(no_mangle)]
pub extern "C" fn dom_assigned(
    alloc: Global,
    document: &mut DomDocument,
    owner: u32,
    slot: DomNode,
    nodes: &mut *const DomNode,
    node_count: &mut usize,
) -> u32
    ensures answers { Answers result owner (Ok (model.assigned (word_at owner slot)))
        (ShowsNodes nodes.new node_count.new) document.old.held.value document.new.held.value }
    ensures told { document.new.told ≡ told_by document.new.held.value }
    ensures nodes_kept { (result ≡ DONE → ⊥) → nodes.new ≡ nodes.old }
    ensures node_count_kept { (result ≡ DONE → ⊥) → node_count.new ≡ node_count.old }
{
    document.run_for_nodes(
        alloc,
        owner,
        asked(Command::Assigned(word(owner, slot))),
        nodes,
        node_count,
    )
}

/// Leaves the node and all below it as rows of the answer, in tree order.
#[unsafe(no_mangle)]
pub extern "C" fn dom_rows(
    alloc: Global,
    document: &mut DomDocument,
    owner: u32,
    node: DomNode,
) -> u32
    ensures answers { Answers result owner (Ok (model.tree (word_at owner node))) ShowsTree document.old.held.value document.new.held.value }
    ensures told { document.new.told ≡ told_by document.new.held.value }
{
    document.run_for_rows(alloc, owner, asked(Command::Tree(word(owner, node))))
}

/// Lends the elements below a node that match a selector, in tree order (DOM Standard, querySelectorAll).
#[unsafe(no_mangle)]
pub extern "C" fn dom_query(
    alloc: Global,
    document: &mut DomDocument,
    owner: u32,
    node: DomNode,
    units: &[u16],
    nodes: &mut *const DomNode,
    node_count: &mut usize,
) -> u32
    ensures answers { Answers result owner (Ok (model.query (word_at owner node) units.now))
        (ShowsNodes nodes.new node_count.new) document.old.held.value document.new.held.value }
    ensures told { document.new.told ≡ told_by document.new.held.value }
    ensures nodes_kept { (result ≡ DONE → ⊥) → nodes.new ≡ nodes.old }
    ensures node_count_kept { (result ≡ DONE → ⊥) → node_count.new ≡ node_count.old }
{
    document.run_for_nodes(
        alloc,
        owner,
        query(alloc, word(owner, node), units),
        nodes,
        node_count,
    )
}

/// Asks whether an element matches a selector (DOM Standard, matches).
#[unsafe(no_mangle)]
pub extern "C" fn dom_matches(
    alloc: Global,
    document: &mut DomDocument,
    owner: u32,
    element: DomNode,
    units: &[u16],
    does: &mut bool,
) -> u32
    ensures answers { Answers result owner (Ok (model.matches (word_at owner element) units.now))
        (ShowsTruth does.new) document.old.held.value document.new.held.value }
    ensures told { document.new.told ≡ told_by document.new.held.value }
    ensures does_kept { (result ≡ DONE → ⊥) → does.new ≡ does.old }
{
    document.run_for_truth(
        alloc,
        owner,
        matches(alloc, word(owner, element), units),
        does,
    )
}
