//! Which ends a step of a change may move, by their places in the list.
ghost use Rattle.std.specs.Prelude.{◌≤◌, length};
ghost use Rattle.dom_ranges.specs.Listed.{IsSortedByPoint, AreAllIn};

use crate::change::{Change, Closing, Insertion, Join, Replacement, Split};
use crate::ends::{RangeEnd, Span};
use crate::searching::{part_among, part_at, part_of, part_past};

/// A step of a change that moves ends at two nodes at most.
pub(crate) trait LocalChange: Change {
    /// Two parts of a sorted list outside which the step moves no end.
    fn parts(&self, ends: &[RangeEnd]) -> (Span, Span)
        requires { IsSortedByPoint ends.now }
        ensures one_within { result.0.behind ≤ length ends.now }
        ensures two_within { result.1.behind ≤ length ends.now }
        ensures all { AreAllIn (Self.Change.rule self.now) ends.now result.0 result.1 };
}

/// No place of a list.
const NOTHING: Span = Span {
    first: 0,
    behind: 0,
};

impl LocalChange for Insertion {
    fn parts(&self, ends: &[RangeEnd]) -> (Span, Span) {
        (part_past(ends, self.parent, self.index), NOTHING)
    }
}

impl LocalChange for Closing {
    fn parts(&self, ends: &[RangeEnd]) -> (Span, Span) {
        (part_past(ends, self.parent, self.index), NOTHING)
    }
}

/// Where the length stays as it is, the ends behind what is replaced are not among them.
impl LocalChange for Replacement {
    fn parts(&self, ends: &[RangeEnd]) -> (Span, Span) {
        if self.count == self.length {
            return (
                part_among(ends, self.node, self.offset, self.count),
                NOTHING,
            );
        }
        (part_past(ends, self.node, self.offset), NOTHING)
    }
}

impl LocalChange for Split {
    fn parts(&self, ends: &[RangeEnd]) -> (Span, Span) {
        (
            part_past(ends, self.node, self.offset),
            part_among(ends, self.parent, self.index, 1),
        )
    }
}

impl LocalChange for Join {
    fn parts(&self, ends: &[RangeEnd]) -> (Span, Span) {
        (
            part_of(ends, self.next),
            part_at(ends, self.parent, self.index),
        )
    }
}
