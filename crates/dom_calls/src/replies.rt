//! What replies say, as C has it. None is given for a reply of another kind, and for what the numbers of C can't say.

ghost use Rattle.std.specs.Prelude.{◌≡◌, IfSome};
ghost use Rattle.dom_model.specs.Output.{a_truth, boundaries, nothing, reference};
ghost use Rattle.dom_printer.specs.Replies.{boundary_view};
ghost use Rattle.dom_answers.specs.Arrays.{Arrays, value_of};
ghost use Rattle.dom_calls.specs.Owners.{named_in, node_value};
ghost use Rattle.dom_calls.specs.Values.{IsNumber, IsTree, point_in};

use crate::owners::{narrowed, node_of};
use crate::structs::{DomNode, DomPoint, NONE};
use dom_answers::Reply;
use dom_base::Owner;
use dom_printer::Boundary;

/// A node, or that there is none.
pub(crate) fn node_in(owners: &[Owner], reply: &Reply) -> Option<DomNode>
    ensures { (a : Arrays) → IfSome result (λ node. value_of a reply.now ≡ node_value owners.now node) }
{
    match reply {
        Reply::Node(name) => node_of(owners, name),
        Reply::Null => Some(NONE),
        _ => None,
    }
}

/// Whether something is so.
pub(crate) fn truth_in(reply: &Reply) -> Option<bool>
    ensures { (a : Arrays) → IfSome result (λ truth. value_of a reply.now ≡ a_truth truth) }
{
    match reply {
        Reply::Truth(truth) => Some(*truth),
        _ => None,
    }
}

/// The number of a range, an iterator, a walker or an observer, or a count.
pub(crate) fn number_in(reply: &Reply) -> Option<u32>
    ensures { (a : Arrays) → IfSome result (λ number. IsNumber number (value_of a reply.now)) }
{
    match reply {
        Reply::Range(number) => Some(*number),
        Reply::Iterator(number) => Some(*number),
        Reply::Walker(number) => Some(*number),
        Reply::Observer(number) => Some(*number),
        Reply::Count(count) => narrowed(*count),
        _ => None,
    }
}

/// A boundary point.
fn point_of(owners: &[Owner], boundary: &Boundary) -> Option<DomPoint>
    ensures { IfSome result (λ point. point_in owners.now point ≡ boundary_view boundary.now) }
{
    Some(DomPoint {
        node: node_of(owners, &boundary.node)?,
        offset: narrowed(boundary.offset)?,
    })
}

/// The two boundary points of a range.
pub(crate) fn points_in(owners: &[Owner], reply: &Reply) -> Option<(DomPoint, DomPoint)>
    ensures { (a : Arrays) → IfSome result (λ points. value_of a reply.now ≡ boundaries (point_in owners.now points.0) (point_in owners.now points.1)) }
{
    match reply {
        Reply::Boundaries { start, end } => {
            Some((point_of(owners, start)?, point_of(owners, end)?))
        }
        _ => None,
    }
}

/// The reference of an iterator, and whether its pointer is before it.
pub(crate) fn reference_in(owners: &[Owner], reply: &Reply) -> Option<(DomNode, bool)>
    ensures { (a : Arrays) → IfSome result (λ found. value_of a reply.now ≡ reference (named_in owners.now found.0) found.1) }
{
    match reply {
        Reply::Reference { node, before } => Some((node_of(owners, node)?, *before)),
        _ => None,
    }
}

/// Nothing.
pub(crate) fn nothing_in(reply: &Reply) -> Option<()>
    ensures { (a : Arrays) → IfSome result (λ _. value_of a reply.now ≡ nothing) }
{
    match reply {
        Reply::Nothing => Some(()),
        _ => None,
    }
}

/// A tree.
pub(crate) fn tree_in(reply: &Reply) -> Option<()>
    ensures { (a : Arrays) → IfSome result (λ _. IsTree (value_of a reply.now)) }
{
    match reply {
        Reply::Tree(_) => Some(()),
        _ => None,
    }
}
