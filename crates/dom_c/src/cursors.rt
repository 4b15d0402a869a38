//! Calls on iterators and walkers.
ghost use Rattle.std.specs.Prelude.{◌≡◌, Ok};
ghost use Rattle.dom_model.specs.Command as model;
ghost use Rattle.dom_calls.specs.Asked.{asks_iterator, asks_move, asks_walker};
ghost use Rattle.dom_calls.specs.Calls.{Answers, ShowsNode, ShowsNothing, ShowsNumber, ShowsReference, told_by};
ghost use Rattle.dom_calls.specs.Owners.{word_at};

use dom_calls::{DONE, DomDocument, DomNode, asked, new_iterator, new_walker, walk, word};
use dom_reader::Command;
use std::alloc::Global;

/// Makes an iterator; writes down its number (DOM Standard, createNodeIterator).
#[unsafe(no_mangle)]
pub extern "C" fn dom_iterator_create(
    alloc: Global,
    document: &mut DomDocument,
    owner: u32,
    root: DomNode,
    what_to_show: u32,
    filter: u32,
    name: &[u8],
    iterator: &mut u32,
) -> u32
    ensures answers { Answers result owner (asks_iterator (word_at owner root) what_to_show filter name.now)
        (ShowsNumber iterator.new) document.old.held.value document.new.held.value }
    ensures told { document.new.told ≡ told_by document.new.held.value }
    ensures iterator_kept { (result ≡ DONE → ⊥) → iterator.new ≡ iterator.old }
{
    document.run_for_number(
        alloc,
        owner,
        new_iterator(alloc, word(owner, root), what_to_show, filter, name),
        iterator,
    )
}

/// Moves an iterator forward (DOM Standard, nextNode).
#[unsafe(no_mangle)]
pub extern "C" fn dom_iterator_next(
    alloc: Global,
    document: &mut DomDocument,
    owner: u32,
    iterator: u32,
    node: &mut DomNode,
) -> u32
    ensures answers { Answers result owner (Ok (model.iterator_next iterator)) (ShowsNode node.new) document.old.held.value document.new.held.value }
    ensures told { document.new.told ≡ told_by document.new.held.value }
    ensures node_kept { (result ≡ DONE → ⊥) → node.new ≡ node.old }
{
    document.run_for_node(alloc, owner, asked(Command::IteratorNext(iterator)), node)
}

/// Moves an iterator backward (DOM Standard, previousNode).
#[unsafe(no_mangle)]
pub extern "C" fn dom_iterator_previous(
    alloc: Global,
    document: &mut DomDocument,
    owner: u32,
    iterator: u32,
    node: &mut DomNode,
) -> u32
    ensures answers { Answers result owner (Ok (model.iterator_previous iterator)) (ShowsNode node.new) document.old.held.value document.new.held.value }
    ensures told { document.new.told ≡ told_by document.new.held.value }
    ensures node_kept { (result ≡ DONE → ⊥) → node.new ≡ node.old }
{
    document.run_for_node(
        alloc,
        owner,
        asked(Command::IteratorPrevious(iterator)),
        node,
    )
}

/// Writes down an iterator's reference, and whether its pointer is before it (DOM Standard, referenceNode).
#[unsafe(no_mangle)]
pub extern "C" fn dom_iterator_reference(
    alloc: Global,
    document: &mut DomDocument,
    owner: u32,
    iterator: u32,
    node: &mut DomNode,
    before: &mut bool,
) -> u32
    ensures answers { Answers result owner (Ok (model.iterator_at iterator))
        (ShowsReference node.new before.new) document.old.held.value document.new.held.value }
    ensures told { document.new.told ≡ told_by document.new.held.value }
    ensures node_kept { (result ≡ DONE → ⊥) → node.new ≡ node.old }
    ensures before_kept { (result ≡ DONE → ⊥) → before.new ≡ before.old }
{
    document.run_for_reference(
        alloc,
        owner,
        asked(Command::IteratorAt(iterator)),
        node,
        before,
    )
}

/// Makes a walker; writes down its number (DOM Standard, createTreeWalker).
#[unsafe(no_mangle)]
pub extern "C" fn dom_walker_create(
    alloc: Global,
    document: &mut DomDocument,
    owner: u32,
    root: DomNode,
    what_to_show: u32,
    filter: u32,
    name: &[u8],
    walker: &mut u32,
) -> u32
    ensures answers { Answers result owner (asks_walker (word_at owner root) what_to_show filter name.now)
        (ShowsNumber walker.new) document.old.held.value document.new.held.value }
    ensures told { document.new.told ≡ told_by document.new.held.value }
    ensures walker_kept { (result ≡ DONE → ⊥) → walker.new ≡ walker.old }
{
    document.run_for_number(
        alloc,
        owner,
        new_walker(alloc, word(owner, root), what_to_show, filter, name),
        walker,
    )
}

/// Moves a walker (DOM Standard, parentNode to nextNode of TreeWalker).
#[unsafe(no_mangle)]
pub extern "C" fn dom_walker_move(
    alloc: Global,
    document: &mut DomDocument,
    owner: u32,
    walker: u32,
    step: u32,
    node: &mut DomNode,
) -> u32
    ensures answers { Answers result owner (asks_move walker step) (ShowsNode node.new) document.old.held.value document.new.held.value }
    ensures told { document.new.told ≡ told_by document.new.held.value }
    ensures node_kept { (result ≡ DONE → ⊥) → node.new ≡ node.old }
{
    document.run_for_node(alloc, owner, walk(walker, step), node)
}

/// Asks for the current node of a walker (DOM Standard, currentNode).
#[unsafe(no_mangle)]
pub extern "C" fn dom_walker_current(
    alloc: Global,
    document: &mut DomDocument,
    owner: u32,
    walker: u32,
    node: &mut DomNode,
) -> u32
    ensures answers { Answers result owner (Ok (model.walker_at walker)) (ShowsNode node.new) document.old.held.value document.new.held.value }
    ensures told { document.new.told ≡ told_by document.new.held.value }
    ensures node_kept { (result ≡ DONE → ⊥) → node.new ≡ node.old }
{
    document.run_for_node(alloc, owner, asked(Command::WalkerAt(walker)), node)
}

/// Sets the current node of a walker (DOM Standard, currentNode).
#[unsafe(no_mangle)]
pub extern "C" fn dom_walker_set(
    alloc: Global,
    document: &mut DomDocument,
    owner: u32,
    walker: u32,
    node: DomNode,
) -> u32
    ensures answers { Answers result owner (Ok (model.walker_set walker (word_at owner node))) ShowsNothing document.old.held.value document.new.held.value }
    ensures told { document.new.told ≡ told_by document.new.held.value }
{
    document.run(
        alloc,
        owner,
        asked(Command::WalkerSet(walker, word(owner, node))),
    )
}
