//! Looks: calls that read what no command tells.
ghost use Rattle.std.specs.Prelude.{◌≡◌};
ghost use Rattle.dom_calls.specs.Calls.{told_by};
ghost use Rattle.dom_calls.specs.Looks.{Looks, SeesLinks, SeesRow, SeesStructure};

use dom_calls::{DONE, DomDocument, DomLinks, DomNode, DomRow};
use std::alloc::Global;

/// Writes down the nodes around a node (DOM Standard, parentNode, firstChild, lastChild, previousSibling, nextSibling).
#[unsafe(no_mangle)]
pub extern "C" fn dom_links(
    alloc: Global,
    document: &mut DomDocument,
    owner: u32,
    node: DomNode,
    links: &mut DomLinks,
) -> u32
    ensures looks { Looks result owner node (SeesLinks owner node links.new) document.old.held.value document.new.held.value }
    ensures told { document.new.told ≡ told_by document.new.held.value }
    ensures links_kept { (result ≡ DONE → ⊥) → links.new ≡ links.old }
{
    document.links(alloc, owner, node, links)
}

/// Writes down what a node has itself, as a row whose parts lie in the arrays of the answer (DOM Standard, interface Node).
#[unsafe(no_mangle)]
pub extern "C" fn dom_describe(
    alloc: Global,
    document: &mut DomDocument,
    owner: u32,
    node: DomNode,
    row: &mut DomRow,
) -> u32
    ensures looks { Looks result owner node (SeesRow owner node row.new) document.old.held.value document.new.held.value }
    ensures told { document.new.told ≡ told_by document.new.held.value }
    ensures row_kept { (result ≡ DONE → ⊥) → row.new ≡ row.old }
{
    document.describe(alloc, owner, node, row)
}

/// Lends the nodes from a node down as rows, in tree order, without what they have themselves (DOM Standard, tree order).
#[unsafe(no_mangle)]
pub extern "C" fn dom_structure(
    alloc: Global,
    document: &mut DomDocument,
    owner: u32,
    node: DomNode,
    rows: &mut *const DomRow,
    row_count: &mut usize,
) -> u32
    ensures looks { Looks result owner node (SeesStructure owner node rows.new row_count.new) document.old.held.value document.new.held.value }
    ensures told { document.new.told ≡ told_by document.new.held.value }
    ensures rows_kept { (result ≡ DONE → ⊥) → rows.new ≡ rows.old }
    ensures row_count_kept { (result ≡ DONE → ⊥) → row_count.new ≡ row_count.old }
{
    document.structure(alloc, owner, node, rows, row_count)
}
