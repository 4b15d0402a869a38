//! Calls on live ranges.
ghost use Rattle.std.specs.Prelude.{◌≡◌, Ok};
ghost use Rattle.dom_model.specs.Command as model;
ghost use Rattle.dom_calls.specs.Calls.{Answers, ShowsNode, ShowsNothing, ShowsNumber, ShowsPoints, ShowsText, told_by};
ghost use Rattle.dom_calls.specs.Owners.{word_at};

use dom_calls::{DONE, DomDocument, DomNode, DomPoint, asked, word};
use dom_reader::Command;
use std::alloc::Global;

/// Makes a range; writes down its number (DOM Standard, new Range).
#[unsafe(no_mangle)]
pub extern "C" fn dom_range_create(
    alloc: Global,
    document: &mut DomDocument,
    owner: u32,
    range: &mut u32,
) -> u32
    ensures answers { Answers result owner (Ok model.range_new) (ShowsNumber range.new) document.old.held.value document.new.held.value }
    ensures told { document.new.told ≡ told_by document.new.held.value }
    ensures range_kept { (result ≡ DONE → ⊥) → range.new ≡ range.old }
{
    document.run_for_number(alloc, owner, asked(Command::RangeNew), range)
}

/// Sets the start of a range (DOM Standard, setStart).
#[unsafe(no_mangle)]
pub extern "C" fn dom_range_set_start(
    alloc: Global,
    document: &mut DomDocument,
    owner: u32,
    range: u32,
    node: DomNode,
    offset: u32,
) -> u32
    ensures answers { Answers result owner (Ok (model.range_start range (word_at owner node) offset))
        ShowsNothing document.old.held.value document.new.held.value }
    ensures told { document.new.told ≡ told_by document.new.held.value }
{
    document.run(
        alloc,
        owner,
        asked(Command::RangeStart(range, word(owner, node), offset)),
    )
}

/// Sets the end of a range (DOM Standard, setEnd).
#[unsafe(no_mangle)]
pub extern "C" fn dom_range_set_end(
    alloc: Global,
    document: &mut DomDocument,
    owner: u32,
    range: u32,
    node: DomNode,
    offset: u32,
) -> u32
    ensures answers { Answers result owner (Ok (model.range_end range (word_at owner node) offset))
        ShowsNothing document.old.held.value document.new.held.value }
    ensures told { document.new.told ≡ told_by document.new.held.value }
{
    document.run(
        alloc,
        owner,
        asked(Command::RangeEnd(range, word(owner, node), offset)),
    )
}

/// Collapses a range (DOM Standard, collapse).
#[unsafe(no_mangle)]
pub extern "C" fn dom_range_collapse(
    alloc: Global,
    document: &mut DomDocument,
    owner: u32,
    range: u32,
    to_start: bool,
) -> u32
    ensures answers { Answers result owner (Ok (model.range_collapse range to_start)) ShowsNothing document.old.held.value document.new.held.value }
    ensures told { document.new.told ≡ told_by document.new.held.value }
{
    document.run(alloc, owner, asked(Command::RangeCollapse(range, to_start)))
}

/// Lets a range go.
#[unsafe(no_mangle)]
pub extern "C" fn dom_range_drop(
    alloc: Global,
    document: &mut DomDocument,
    owner: u32,
    range: u32,
) -> u32
    ensures answers { Answers result owner (Ok (model.range_drop range)) ShowsNothing document.old.held.value document.new.held.value }
    ensures told { document.new.told ≡ told_by document.new.held.value }
{
    document.run(alloc, owner, asked(Command::RangeDrop(range)))
}

/// Writes down the start and the end of a range (DOM Standard, boundary points).
#[unsafe(no_mangle)]
pub extern "C" fn dom_range_points(
    alloc: Global,
    document: &mut DomDocument,
    owner: u32,
    range: u32,
    start: &mut DomPoint,
    end: &mut DomPoint,
) -> u32
    ensures answers { Answers result owner (Ok (model.range_get range)) (ShowsPoints start.new end.new) document.old.held.value document.new.held.value }
    ensures told { document.new.told ≡ told_by document.new.held.value }
    ensures start_kept { (result ≡ DONE → ⊥) → start.new ≡ start.old }
    ensures end_kept { (result ≡ DONE → ⊥) → end.new ≡ end.old }
{
    document.run_for_points(alloc, owner, asked(Command::RangeGet(range)), start, end)
}

/// Lends the text of a range (DOM Standard, 5.5).
#[unsafe(no_mangle)]
pub extern "C" fn dom_range_text(
    alloc: Global,
    document: &mut DomDocument,
    owner: u32,
    range: u32,
    units: &mut *const u16,
    unit_count: &mut usize,
) -> u32
    ensures answers { Answers result owner (Ok (model.range_text range))
        (ShowsText units.new unit_count.new) document.old.held.value document.new.held.value }
    ensures told { document.new.told ≡ told_by document.new.held.value }
    ensures units_kept { (result ≡ DONE → ⊥) → units.new ≡ units.old }
    ensures unit_count_kept { (result ≡ DONE → ⊥) → unit_count.new ≡ unit_count.old }
{
    document.run_for_text(
        alloc,
        owner,
        asked(Command::RangeText(range)),
        units,
        unit_count,
    )
}

/// Takes the contents of a range into a DocumentFragment (DOM Standard, extractContents).
#[unsafe(no_mangle)]
pub extern "C" fn dom_range_extract(
    alloc: Global,
    document: &mut DomDocument,
    owner: u32,
    range: u32,
    fragment: &mut DomNode,
) -> u32
    ensures answers { Answers result owner (Ok (model.extract range)) (ShowsNode fragment.new) document.old.held.value document.new.held.value }
    ensures told { document.new.told ≡ told_by document.new.held.value }
    ensures fragment_kept { (result ≡ DONE → ⊥) → fragment.new ≡ fragment.old }
{
    document.run_for_node(alloc, owner, asked(Command::Extract(range)), fragment)
}

/// Removes the contents of a range (DOM Standard, deleteContents).
#[unsafe(no_mangle)]
pub extern "C" fn dom_range_delete(
    alloc: Global,
    document: &mut DomDocument,
    owner: u32,
    range: u32,
) -> u32
    ensures answers { Answers result owner (Ok (model.delete range)) ShowsNothing document.old.held.value document.new.held.value }
    ensures told { document.new.told ≡ told_by document.new.held.value }
{
    document.run(alloc, owner, asked(Command::Delete(range)))
}

/// Inserts a node at the start of a range (DOM Standard, insertNode).
#[unsafe(no_mangle)]
pub extern "C" fn dom_range_insert(
    alloc: Global,
    document: &mut DomDocument,
    owner: u32,
    range: u32,
    node: DomNode,
) -> u32
    ensures answers { Answers result owner (Ok (model.insert_node range (word_at owner node))) ShowsNothing document.old.held.value document.new.held.value }
    ensures told { document.new.told ≡ told_by document.new.held.value }
{
    document.run(
        alloc,
        owner,
        asked(Command::InsertNode(range, word(owner, node))),
    )
}
