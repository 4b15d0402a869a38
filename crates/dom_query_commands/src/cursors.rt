//! The commands on iterators and walkers.
ghost use Rattle.std.specs.Prelude.{◌≡◌, ◌<◌, ◌↔◌, ◌⊎◌, if◌then◌else◌, true, Err, IfOk, IfErr, OnErr};
ghost use Rattle.dom_base.specs.declared.Refusal.TheVariants.{Limit};
ghost use Rattle.dom_model.specs.Command.{own, walker_set};
ghost use Rattle.dom_model.specs.CommandRefusals.{past_limit};
ghost use Rattle.dom_model.specs.World.{part_of};
ghost use Rattle.dom_printer.specs.Replies.{value_view};
ghost use Rattle.dom_reader.specs.Views.{word_view, filter_view, show_view};
ghost use Rattle.dom_traversal.specs.Filters.{filter_of, show_of};
ghost use Rattle.dom_admission.specs.Handled.{KeepsNames, IsHandled};
ghost use Rattle.dom_mutation.specs.Doc.{HoldsNode, Makes, name_in, owner_in};
ghost use Rattle.dom_query_commands.specs.Requests.{cursor_new, cursor_count};

use dom_admission::{Operand, State};
use dom_answers::Answers;
use dom_base::{Fault, Owner};
use dom_mutation::Doc;
use dom_printer::Value;
use dom_reader::{Filter, NodeWord, Show};
use dom_traversal::Filter as NodeFilter;
use node_arena::Key;

/// What goes from node to node below a root.
#[derive(Clone, Copy)]
pub enum Cursor {
    Iterator,
    Walker,
}

/// `iter-new N SHOW [FILTER]`: a new iterator, before its root, or `walk-new N SHOW [FILTER]`: a new walker, at its root.
pub fn new_cursor<A: Answers>(
    state: &mut State,
    owner: Owner,
    cursor: Cursor,
    words: (NodeWord, Filter),
    out: &mut A,
) -> Result<(), Fault>
    ensures handled { IsHandled A.adds owner (cursor_new cursor (word_view words.0) (filter_view words.1)) state.old.world state.new.world out.old
        out.new result }
    ensures names { KeepsNames state.old.names state.new.names result }
{
    let (root, filter) = words;
    let root = state.admit_one(owner, Operand::Any(root))?;
    let value = make(&mut state.doc, owner, cursor, root, node_filter(filter))?;
    state.accept(&owner, &value, out)
}

/// Makes an iterator or a walker at its root, and answers its number.
fn make(
    doc: &mut Doc,
    owner: Owner,
    cursor: Cursor,
    root: Key,
    filter: NodeFilter,
) -> Result<Value<'static>, Fault>
    requires root_is_node { HoldsNode doc.old root }
    requires own { owner_in doc.old root ≡ owner }
    ensures names { doc.new.names ≡ doc.old.names }
    ensures world { IfOk result (λ value. Makes owner (cursor_new cursor (own (name_in doc.old root).number) (filter_of filter)) (value_view value)
        doc.old.world doc.new.world) }
    ensures limit { (result ≡ Err (Fault.Refused Limit)) ↔ (past_limit (cursor_count cursor (part_of doc.old.world owner)) 1 ≡ true) }
    ensures other { IfErr result (λ fault. (fault ≡ Fault.Refused Limit) ⊎ (fault ≡ Fault.Memory)) }
    ensures err { OnErr result (doc.new ≡ doc.old) }
{
    match cursor {
        Cursor::Iterator => match doc.iter_make(owner, root, filter) {
            Ok(number) => Ok(Value::Iterator(number)),
            Err(fault) => Err(fault),
        },
        Cursor::Walker => match doc.walk_make(owner, root, filter) {
            Ok(number) => Ok(Value::Walker(number)),
            Err(fault) => Err(fault),
        },
    }
}

/// `walk-set W N`: a node becomes the current one of a walker.
pub fn set_walker<A: Answers>(
    state: &mut State,
    owner: Owner,
    number: u32,
    current: NodeWord,
    out: &mut A,
) -> Result<(), Fault>
    ensures handled { IsHandled A.adds owner (walker_set number (word_view current)) state.old.world state.new.world out.old out.new result }
    ensures names { KeepsNames state.old.names state.new.names result }
{
    state.admit(owner, &[Operand::Any(current), Operand::Walker(number)])?;
    let current = state.key(owner, current);
    state.doc.walk_set(owner, number, current);
    state.accept(&owner, &Value::Nothing, out)
}

/// The filter of a line's words.
fn node_filter(filter: Filter) -> NodeFilter
    ensures { filter_of result ≡ filter_view filter }
{
    NodeFilter {
        show: show_bits(filter.shown),
        name: filter.named.map(|named| (named.name, named.verdict)),
    }
}

/// The kinds that are shown, as bits of a number (DOM Standard, whatToShow; the places of the bits are an own rule).
fn show_bits(shown: Show) -> u8
    ensures { show_of result ≡ show_view shown }
{
    bit_if(shown.element, 1)
        | bit_if(shown.text, 2)
        | bit_if(shown.comment, 4)
        | bit_if(shown.document, 8)
        | bit_if(shown.fragment, 16)
}

/// A bit if it is set, and else none.
fn bit_if(is_set: bool, bit: u8) -> u8
    ensures { result ≡ (if is_set then bit else 0) }
{
    if is_set { bit } else { 0 }
}
