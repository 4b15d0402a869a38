//! Parts of the arrays of an answer.

use dom_answers::Span;

/// The things of a part of an array; none if it does not lie within.
pub(crate) fn part<T>(span: Span, array: &[T]) -> Option<&[T]> {
    array.get(span.at..)?.get(..span.count)
}
