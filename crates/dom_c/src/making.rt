//! Calls that make nodes, and shadow roots.
ghost use Rattle.std.specs.Prelude.{◌≡◌, Ok};
ghost use Rattle.std.specs.Str.Lossy.{utf8_lossy};
ghost use Rattle.dom_model.specs.Command as model;
ghost use Rattle.dom_calls.specs.Calls.{Answers, ShowsComponent, ShowsNode, told_by};
ghost use Rattle.dom_calls.specs.Owners.{word_at};

use dom_calls::{DONE, DomDocument, DomNode, asked, new_comment, new_element, new_text, word};
use dom_reader::Command;
use std::alloc::Global;

/// Makes an element (DOM Standard, createElement).
#[unsafe(no_mangle)]
pub extern "C" fn dom_create_element(
    alloc: Global,
    document: &mut DomDocument,
    owner: u32,
    name: &[u8],
    made: &mut DomNode,
) -> u32
    ensures answers { Answers result owner (Ok (model.new_element (utf8_lossy name.now)))
        (ShowsNode made.new) document.old.held.value document.new.held.value }
    ensures told { document.new.told ≡ told_by document.new.held.value }
    ensures made_kept { (result ≡ DONE → ⊥) → made.new ≡ made.old }
{
    document.run_for_node(alloc, owner, new_element(alloc, name), made)
}

/// Makes a Text (DOM Standard, 4.11).
#[unsafe(no_mangle)]
pub extern "C" fn dom_create_text(
    alloc: Global,
    document: &mut DomDocument,
    owner: u32,
    units: &[u16],
    made: &mut DomNode,
) -> u32
    ensures answers { Answers result owner (Ok (model.new_text units.now)) (ShowsNode made.new) document.old.held.value document.new.held.value }
    ensures told { document.new.told ≡ told_by document.new.held.value }
    ensures made_kept { (result ≡ DONE → ⊥) → made.new ≡ made.old }
{
    document.run_for_node(alloc, owner, new_text(alloc, units), made)
}

/// Makes a Comment (DOM Standard, 4.14).
#[unsafe(no_mangle)]
pub extern "C" fn dom_create_comment(
    alloc: Global,
    document: &mut DomDocument,
    owner: u32,
    units: &[u16],
    made: &mut DomNode,
) -> u32
    ensures answers { Answers result owner (Ok (model.new_comment units.now)) (ShowsNode made.new) document.old.held.value document.new.held.value }
    ensures told { document.new.told ≡ told_by document.new.held.value }
    ensures made_kept { (result ≡ DONE → ⊥) → made.new ≡ made.old }
{
    document.run_for_node(alloc, owner, new_comment(alloc, units), made)
}

/// Makes a DocumentFragment (DOM Standard, 4.7).
#[unsafe(no_mangle)]
pub extern "C" fn dom_create_fragment(
    alloc: Global,
    document: &mut DomDocument,
    owner: u32,
    made: &mut DomNode,
) -> u32
    ensures answers { Answers result owner (Ok model.new_fragment) (ShowsNode made.new) document.old.held.value document.new.held.value }
    ensures told { document.new.told ≡ told_by document.new.held.value }
    ensures made_kept { (result ≡ DONE → ⊥) → made.new ≡ made.old }
{
    document.run_for_node(alloc, owner, asked(Command::NewFragment), made)
}

/// Makes a Document (DOM Standard, 4.5).
#[unsafe(no_mangle)]
pub extern "C" fn dom_create_document(
    alloc: Global,
    document: &mut DomDocument,
    owner: u32,
    made: &mut DomNode,
) -> u32
    ensures answers { Answers result owner (Ok model.new_document) (ShowsNode made.new) document.old.held.value document.new.held.value }
    ensures told { document.new.told ≡ told_by document.new.held.value }
    ensures made_kept { (result ≡ DONE → ⊥) → made.new ≡ made.old }
{
    document.run_for_node(alloc, owner, asked(Command::NewDocument), made)
}

/// Gives an element a closed shadow root (DOM Standard, attach a shadow root); writes down the place of the component that owns it.
#[unsafe(no_mangle)]
pub extern "C" fn dom_attach(
    alloc: Global,
    document: &mut DomDocument,
    owner: u32,
    element: DomNode,
    component: &mut u32,
) -> u32
    ensures answers { Answers result owner (Ok (model.attach (word_at owner element)))
        (ShowsComponent component.new) document.old.held.value document.new.held.value }
    ensures told { document.new.told ≡ told_by document.new.held.value }
    ensures component_kept { (result ≡ DONE → ⊥) → component.new ≡ component.old }
{
    document.run_for_component(
        alloc,
        owner,
        asked(Command::Attach(word(owner, element))),
        component,
    )
}
