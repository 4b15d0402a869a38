//! Calls that change where nodes stand.
ghost use Rattle.std.specs.Prelude.{◌≡◌, Ok};
ghost use Rattle.dom_model.specs.Command as model;
ghost use Rattle.dom_calls.specs.Calls.{Answers, ShowsNothing, told_by};
ghost use Rattle.dom_calls.specs.Owners.{word_at};

use dom_calls::{DomDocument, DomNode, asked, word};
use dom_reader::Command;
use std::alloc::Global;

/// Puts a node at the end of a parent's children (DOM Standard, appendChild).
#[unsafe(no_mangle)]
pub extern "C" fn dom_append(
    alloc: Global,
    document: &mut DomDocument,
    owner: u32,
    parent: DomNode,
    node: DomNode,
) -> u32
    ensures answers { Answers result owner (Ok (model.append (word_at owner parent) (word_at owner node)))
        ShowsNothing document.old.held.value document.new.held.value }
    ensures told { document.new.told ≡ told_by document.new.held.value }
{
    document.run(
        alloc,
        owner,
        asked(Command::Append(word(owner, parent), word(owner, node))),
    )
}

/// Puts a node before a child (DOM Standard, insertBefore).
#[unsafe(no_mangle)]
pub extern "C" fn dom_insert(
    alloc: Global,
    document: &mut DomDocument,
    owner: u32,
    parent: DomNode,
    node: DomNode,
    child: DomNode,
) -> u32
    ensures answers { Answers result owner (Ok (model.insert (word_at owner parent) (word_at owner node) (word_at owner child)))
        ShowsNothing document.old.held.value document.new.held.value }
    ensures told { document.new.told ≡ told_by document.new.held.value }
{
    document.run(
        alloc,
        owner,
        asked(Command::Insert(word(owner, parent), word(owner, node), word(owner, child))),
    )
}

/// Puts a node in a child's place (DOM Standard, replaceChild).
#[unsafe(no_mangle)]
pub extern "C" fn dom_replace(
    alloc: Global,
    document: &mut DomDocument,
    owner: u32,
    parent: DomNode,
    node: DomNode,
    child: DomNode,
) -> u32
    ensures answers { Answers result owner (Ok (model.replace (word_at owner parent) (word_at owner node) (word_at owner child)))
        ShowsNothing document.old.held.value document.new.held.value }
    ensures told { document.new.told ≡ told_by document.new.held.value }
{
    document.run(
        alloc,
        owner,
        asked(Command::Replace(word(owner, parent), word(owner, node), word(owner, child))),
    )
}

/// Takes a node out of its parent (DOM Standard, remove).
#[unsafe(no_mangle)]
pub extern "C" fn dom_remove(
    alloc: Global,
    document: &mut DomDocument,
    owner: u32,
    node: DomNode,
) -> u32
    ensures answers { Answers result owner (Ok (model.remove (word_at owner node))) ShowsNothing document.old.held.value document.new.held.value }
    ensures told { document.new.told ≡ told_by document.new.held.value }
{
    document.run(alloc, owner, asked(Command::Remove(word(owner, node))))
}

/// Gives a node another node document (DOM Standard, adoptNode).
#[unsafe(no_mangle)]
pub extern "C" fn dom_adopt(
    alloc: Global,
    document: &mut DomDocument,
    owner: u32,
    to: DomNode,
    node: DomNode,
) -> u32
    ensures answers { Answers result owner (Ok (model.adopt (word_at owner to) (word_at owner node)))
        ShowsNothing document.old.held.value document.new.held.value }
    ensures told { document.new.told ≡ told_by document.new.held.value }
{
    document.run(
        alloc,
        owner,
        asked(Command::Adopt(word(owner, to), word(owner, node))),
    )
}

/// Joins the Texts below a node (DOM Standard, normalize).
#[unsafe(no_mangle)]
pub extern "C" fn dom_normalize(
    alloc: Global,
    document: &mut DomDocument,
    owner: u32,
    node: DomNode,
) -> u32
    ensures answers { Answers result owner (Ok (model.normalize (word_at owner node))) ShowsNothing document.old.held.value document.new.held.value }
    ensures told { document.new.told ≡ told_by document.new.held.value }
{
    document.run(alloc, owner, asked(Command::Normalize(word(owner, node))))
}
