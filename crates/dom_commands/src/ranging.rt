//! The commands on live ranges (DOM Standard, 5.5 Interface Range).
ghost use Rattle.std.specs.Prelude.{◌≡◌, true, if◌then◌else◌};
ghost use Rattle.dom_model.specs.Command.{range_new, range_start, range_end, range_text};
ghost use Rattle.dom_model.specs.Command.{extract as extract_command, delete as delete_command, insert_node as insert_node_command};
ghost use Rattle.dom_reader.specs.Views.{command_view, word_view};
ghost use Rattle.dom_commands.specs.RangeWorlds.{HasFirstNodes};
ghost use Rattle.dom_admission.specs.Handled.{KeepsNames, IsHandled};
ghost use Rattle.dom_commands.specs.CommandGroups.{is_range};

use dom_admission::{Operand, State};
use dom_answers::Answers;
use dom_base::{Fault, Owner};
use dom_printer::Value;
use dom_query_commands::things::{self, Request};
use dom_range_ops::range_text;
use dom_reader::{Command, NodeWord};

/// A command on live ranges, by its handler.
pub(crate) fn perform_on_range<A: Answers>(
    state: &mut State,
    owner: &Owner,
    command: Command,
    out: &mut A,
) -> Result<(), Fault>
    requires range { is_range (command_view command) ≡ true }
    requires first { HasFirstNodes state.old.world }
    ensures handled { IsHandled A.adds owner.now (command_view command) state.old.world state.new.world out.old out.new result }
    ensures names { KeepsNames state.old.names state.new.names result }
{
    match command {
        Command::RangeNew => new_range(state, *owner, out),
        Command::RangeStart(number, node, offset) => {
            set_boundary(state, *owner, number, true, (node, offset), out)
        }
        Command::RangeEnd(number, node, offset) => {
            set_boundary(state, *owner, number, false, (node, offset), out)
        }
        Command::RangeCollapse(number, to_start) => things::perform(
            state,
            *owner,
            number,
            Request::Collapse(to_start),
            out,
        ),
        Command::RangeDrop(number) => { things::perform(state, *owner, number, Request::Drop, out) }
        Command::RangeGet(number) => things::perform(state, *owner, number, Request::Ends, out),
        Command::RangeText(number) => text_of_range(state, *owner, number, out),
        Command::Extract(number) => extract(state, *owner, number, out),
        Command::Delete(number) => delete(state, *owner, number, out),
        Command::InsertNode(number, node) => insert_node(state, *owner, number, node, out),
        _ => unreachable!(),
    }
}

/// `range-new`: a new range, with both ends at offset 0 of its owner's first node.
fn new_range<A: Answers>(state: &mut State, owner: Owner, out: &mut A) -> Result<(), Fault>
    requires first { HasFirstNodes state.old.world }
    ensures handled { IsHandled A.adds owner range_new state.old.world state.new.world out.old out.new result }
    ensures names { KeepsNames state.old.names state.new.names result }
{
    state.admit(owner, &[])?;
    let first = state.key(owner, NodeWord::Own(0));
    let number = state.doc.range_make(owner, first)?;
    state.accept(&owner, &Value::Range(number), out)
}

/// `range-start R N OFFSET`: another start of a range, or `range-end R N OFFSET`: another end. The range's other end follows if it would
/// stand on the wrong side.
fn set_boundary<A: Answers>(
    state: &mut State,
    owner: Owner,
    number: u32,
    is_start: bool,
    point: (NodeWord, u32),
    out: &mut A,
) -> Result<(), Fault>
    ensures handled { IsHandled A.adds owner (if is_start then range_start number (word_view point.0) point.1 else range_end number (word_view point.0) point.1)
        state.old.world state.new.world out.old out.new result }
    ensures names { KeepsNames state.old.names state.new.names result }
{
    let (node, offset) = point;
    state.admit(owner, &[Operand::Any(node), Operand::Range(number)])?;
    let node = state.key(owner, node);
    let offset = offset as usize;
    if is_start {
        return match state.doc.range_set_start(owner, number, node, offset) {
            Ok(()) => state.accept(&owner, &Value::Nothing, out),
            Err(refusal) => Err(Fault::Refused(refusal)),
        };
    }
    match state.doc.range_set_end(owner, number, node, offset) {
        Ok(()) => state.accept(&owner, &Value::Nothing, out),
        Err(refusal) => Err(Fault::Refused(refusal)),
    }
}

/// `range-text R`: the text of a range.
fn text_of_range<A: Answers>(
    state: &mut State,
    owner: Owner,
    number: u32,
    out: &mut A,
) -> Result<(), Fault>
    ensures handled { IsHandled A.adds owner (range_text number) state.old.world state.new.world out.old out.new result }
    ensures names { KeepsNames state.old.names state.new.names result }
{
    state.admit(owner, &[Operand::Range(number)])?;
    let text = range_text(state.alloc, &state.doc, owner, number)?;
    state.accept(&owner, &Value::Str(&text), out)
}

/// `extract R`: what a range contains goes into a new fragment, with clones of the nodes that it contains in part.
fn extract<A: Answers>(
    state: &mut State,
    owner: Owner,
    number: u32,
    out: &mut A,
) -> Result<(), Fault>
    ensures handled { IsHandled A.adds owner (extract_command number) state.old.world state.new.world out.old out.new result }
    ensures names { KeepsNames state.old.names state.new.names result }
{
    state.admit(owner, &[Operand::Range(number)])?;
    let fragment = dom_range_ops::extract(state.alloc, &mut state.doc, owner, number)?;
    let made = state.doc.forest().name(fragment);
    state.accept_node(&owner, &made, out)
}

/// `delete R`: what a range contains goes.
fn delete<A: Answers>(
    state: &mut State,
    owner: Owner,
    number: u32,
    out: &mut A,
) -> Result<(), Fault>
    ensures handled { IsHandled A.adds owner (delete_command number) state.old.world state.new.world out.old out.new result }
    ensures names { KeepsNames state.old.names state.new.names result }
{
    state.admit(owner, &[Operand::Range(number)])?;
    dom_range_ops::delete(state.alloc, &mut state.doc, owner, number)?;
    state.accept(&owner, &Value::Nothing, out)
}

/// `insert-node R N`: a node is inserted at the start of a range, which then contains it.
fn insert_node<A: Answers>(
    state: &mut State,
    owner: Owner,
    number: u32,
    node: NodeWord,
    out: &mut A,
) -> Result<(), Fault>
    ensures handled { IsHandled A.adds owner (insert_node_command number (word_view node)) state.old.world state.new.world out.old out.new result }
    ensures names { KeepsNames state.old.names state.new.names result }
{
    state.admit(owner, &[Operand::Any(node), Operand::Range(number)])?;
    let node = state.key(owner, node);
    dom_range_ops::insert_node(&mut state.doc, owner, number, node)?;
    state.accept(&owner, &Value::Nothing, out)
}
