//! Calls on attributes and data.
ghost use Rattle.std.specs.Prelude.{◌≡◌, Ok};
ghost use Rattle.std.specs.Str.Lossy.{utf8_lossy};
ghost use Rattle.dom_model.specs.Command as model;
ghost use Rattle.dom_calls.specs.Calls.{Answers, ShowsNode, ShowsNothing, ShowsUnits, told_by};
ghost use Rattle.dom_calls.specs.Owners.{word_at};

use dom_calls::{
    DONE, DomDocument, DomNode, asked, attribute, replace_data, set_attribute, set_data, set_text,
    unset_attribute, word,
};
use dom_reader::Command;
use std::alloc::Global;

/// Sets an attribute (DOM Standard, set an attribute value).
#[unsafe(no_mangle)]
pub extern "C" fn dom_set_attribute(
    alloc: Global,
    document: &mut DomDocument,
    owner: u32,
    element: DomNode,
    name: &[u8],
    units: &[u16],
) -> u32
    ensures answers { Answers result owner (Ok (model.set_attribute (word_at owner element) (utf8_lossy name.now) units.now))
        ShowsNothing document.old.held.value document.new.held.value }
    ensures told { document.new.told ≡ told_by document.new.held.value }
{
    document.run(
        alloc,
        owner,
        set_attribute(alloc, word(owner, element), name, units),
    )
}

/// Removes an attribute (DOM Standard, removeAttribute).
#[unsafe(no_mangle)]
pub extern "C" fn dom_remove_attribute(
    alloc: Global,
    document: &mut DomDocument,
    owner: u32,
    element: DomNode,
    name: &[u8],
) -> u32
    ensures answers { Answers result owner (Ok (model.unset_attribute (word_at owner element) (utf8_lossy name.now)))
        ShowsNothing document.old.held.value document.new.held.value }
    ensures told { document.new.told ≡ told_by document.new.held.value }
{
    document.run(
        alloc,
        owner,
        unset_attribute(alloc, word(owner, element), name),
    )
}

/// Lends an attribute's value, if there is one (DOM Standard, get an attribute by name).
#[unsafe(no_mangle)]
pub extern "C" fn dom_get_attribute(
    alloc: Global,
    document: &mut DomDocument,
    owner: u32,
    element: DomNode,
    name: &[u8],
    has: &mut bool,
    units: &mut *const u16,
    unit_count: &mut usize,
) -> u32
    ensures answers { Answers result owner (Ok (model.attribute (word_at owner element) (utf8_lossy name.now)))
        (ShowsUnits has.new units.new unit_count.new) document.old.held.value document.new.held.value }
    ensures told { document.new.told ≡ told_by document.new.held.value }
    ensures has_kept { (result ≡ DONE → ⊥) → has.new ≡ has.old }
    ensures units_kept { (result ≡ DONE → ⊥) → units.new ≡ units.old }
    ensures unit_count_kept { (result ≡ DONE → ⊥) → unit_count.new ≡ unit_count.old }
{
    document.run_for_units(
        alloc,
        owner,
        attribute(alloc, word(owner, element), name),
        has,
        units,
        unit_count,
    )
}

/// Sets the data of a Text or a Comment (DOM Standard, data).
#[unsafe(no_mangle)]
pub extern "C" fn dom_set_data(
    alloc: Global,
    document: &mut DomDocument,
    owner: u32,
    node: DomNode,
    units: &[u16],
) -> u32
    ensures answers { Answers result owner (Ok (model.set_data (word_at owner node) units.now))
        ShowsNothing document.old.held.value document.new.held.value }
    ensures told { document.new.told ≡ told_by document.new.held.value }
{
    document.run(alloc, owner, set_data(alloc, word(owner, node), units))
}

/// Replaces data (DOM Standard, replaceData).
#[unsafe(no_mangle)]
pub extern "C" fn dom_replace_data(
    alloc: Global,
    document: &mut DomDocument,
    owner: u32,
    node: DomNode,
    offset: u32,
    count: u32,
    units: &[u16],
) -> u32
    ensures answers { Answers result owner (Ok (model.replace_data (word_at owner node) offset count units.now))
        ShowsNothing document.old.held.value document.new.held.value }
    ensures told { document.new.told ≡ told_by document.new.held.value }
{
    document.run(
        alloc,
        owner,
        replace_data(alloc, word(owner, node), offset, count, units),
    )
}

/// Splits a Text (DOM Standard, split a Text node); writes down the new one.
#[unsafe(no_mangle)]
pub extern "C" fn dom_split_text(
    alloc: Global,
    document: &mut DomDocument,
    owner: u32,
    text: DomNode,
    offset: u32,
    made: &mut DomNode,
) -> u32
    ensures answers { Answers result owner (Ok (model.split (word_at owner text) offset))
        (ShowsNode made.new) document.old.held.value document.new.held.value }
    ensures told { document.new.told ≡ told_by document.new.held.value }
    ensures made_kept { (result ≡ DONE → ⊥) → made.new ≡ made.old }
{
    document.run_for_node(
        alloc,
        owner,
        asked(Command::Split(word(owner, text), offset)),
        made,
    )
}

/// Sets the text content of a node (DOM Standard, textContent).
#[unsafe(no_mangle)]
pub extern "C" fn dom_set_text(
    alloc: Global,
    document: &mut DomDocument,
    owner: u32,
    node: DomNode,
    units: &[u16],
) -> u32
    ensures answers { Answers result owner (Ok (model.set_text (word_at owner node) units.now))
        ShowsNothing document.old.held.value document.new.held.value }
    ensures told { document.new.told ≡ told_by document.new.held.value }
{
    document.run(alloc, owner, set_text(alloc, word(owner, node), units))
}
