//! The commands on a thing that a line names by its number alone, and that nothing but the tests of all commands can refuse.
ghost use Rattle.std.specs.Prelude.{◌≡◌, true, is_some};
ghost use Rattle.std.specs.Option.{option_map, ForSome};
ghost use Rattle.dom_model.specs.Command.{range_get};
ghost use Rattle.dom_model.specs.Effects.{node_or_null};
ghost use Rattle.dom_model.specs.Part.{range_at};
ghost use Rattle.dom_model.specs.Ranges.{at};
ghost use Rattle.dom_model.specs.World.{part_of};
ghost use Rattle.dom_printer.specs.Replies.{boundary_view, value_view};
ghost use Rattle.dom_admission.specs.Handled.{KeepsNames, IsHandled};
ghost use Rattle.dom_admission.specs.Refusals.{is_there_as};
ghost use Rattle.dom_mutation.specs.Doc.{HoldsNode, Makes, name_in};
ghost use Rattle.dom_query_commands.specs.Requests.{command_of, thing_of};

use dom_admission::{Operand, State};
use dom_answers::Answers;
use dom_base::{Fault, Move, Owner};
use dom_mutation::Doc;
use dom_printer::{Boundary, Value};
use node_arena::Key;

/// What a line asks of an iterator, a walker, an observer or a live range.
#[derive(Clone, Copy)]
pub enum Request {
    /// `iter-next I`: the next node of an iterator, or `null`.
    Next,
    /// `iter-prev I`: the node before, of an iterator, or `null`.
    Previous,
    /// `iter-at I`: the reference of an iterator, and whether the iterator stands before it or after it.
    Reference,
    /// `walk W MOVE`: the node to which a walker moves, or `null`.
    Walk(Move),
    /// `walk-at W`: the current node of a walker.
    Current,
    /// `disconnect O`: an observer loses its registrations and its records.
    Disconnect,
    /// `range-collapse R start`, if it is true, or `range-collapse R end`: both ends of a range go to its start, or to its end.
    Collapse(bool),
    /// `range-drop R`: a range goes, and its number is not given again.
    Drop,
    /// `range-get R`: the start and the end of a range, each a node and an offset.
    Ends,
}

/// What a line asks of the thing with a number.
pub fn perform<A: Answers>(
    state: &mut State,
    owner: Owner,
    number: u32,
    request: Request,
    out: &mut A,
) -> Result<(), Fault>
    ensures handled { IsHandled A.adds owner (command_of request number) state.old.world state.new.world out.old out.new result }
    ensures names { KeepsNames state.old.names state.new.names result }
{
    state.admit(owner, &[thing_of(request, number)])?;
    let value = grant(&mut state.doc, owner, number, request);
    state.accept(&owner, &value, out)
}

/// The thing that a line names.
fn thing_of(request: Request, number: u32) -> Operand
    ensures { result ≡ thing_of request number }
{
    match request {
        Request::Next | Request::Previous | Request::Reference => { Operand::Iterator(number) }
        Request::Walk(_) | Request::Current => Operand::Walker(number),
        Request::Disconnect => Operand::Observer(number),
        Request::Collapse(_) | Request::Drop | Request::Ends => Operand::Range(number),
    }
}

/// Does what is asked of a thing that is there, and answers it.
fn grant(doc: &mut Doc, owner: Owner, number: u32, request: Request) -> Value<'static>
    requires { is_there_as (part_of doc.old.world owner) (thing_of request number) ≡ true }
    ensures world { Makes owner (command_of request number) (value_view result) doc.old.world doc.new.world }
    ensures names { doc.new.names ≡ doc.old.names }
{
    match request {
        Request::Next => {
            let next = doc.iter_next(owner, number);
            node_or_null(doc, next)
        }
        Request::Previous => {
            let previous = doc.iter_previous(owner, number);
            node_or_null(doc, previous)
        }
        Request::Reference => {
            let (reference, before) = doc.iter_at(owner, number);
            let node = doc.forest().name(reference);
            Value::Reference { node, before }
        }
        Request::Walk(step) => {
            let moved = doc.walk(owner, number, step);
            node_or_null(doc, moved)
        }
        Request::Current => Value::Node(doc.forest().name(doc.walk_at(owner, number))),
        Request::Disconnect => {
            doc.disconnect(owner, number);
            Value::Nothing
        }
        Request::Collapse(to_start) => {
            doc.range_collapse(owner, number, to_start);
            Value::Nothing
        }
        Request::Drop => {
            doc.range_remove(owner, number);
            Value::Nothing
        }
        Request::Ends => ends_of_range(doc, owner, number),
    }
}

/// The start and the end of a range that is there.
fn ends_of_range(doc: &Doc, owner: Owner, number: u32) -> Value<'static>
    requires { is_some (range_at (part_of doc.now.world owner) number) ≡ true }
    ensures { Makes owner (range_get number) (value_view result) doc.now.world doc.now.world }
{
    let points = doc.range_points(owner, number);
    let (start, start_offset) = points.start;
    let (end, end_offset) = points.end;
    Value::Boundaries {
        start: boundary(doc, start, start_offset),
        end: boundary(doc, end, end_offset),
    }
}

/// A boundary point with the name of its node.
fn boundary(doc: &Doc, node: Key, offset: usize) -> Boundary
    requires { HoldsNode doc.now node }
    ensures { boundary_view result ≡ at (name_in doc.now node) offset }
{
    Boundary {
        node: doc.forest().name(node),
        offset,
    }
}

/// A node or `null`, for a reply.
pub(crate) fn node_or_null(doc: &Doc, node: Option<Key>) -> Value<'static>
    requires { ForSome node (HoldsNode doc.now) }
    ensures { value_view result ≡ node_or_null (option_map (name_in doc.now) node) }
{
    match node {
        Some(key) => Value::Node(doc.forest().name(key)),
        None => Value::Null,
    }
}
