//! Elementary steps of changes of trees, as far as they can signal slots.
ghost use Rattle.std.specs.Prelude.{◌≡◌};
ghost use Rattle.dom_slots.specs.Steps.{step_node, is_move, around_of, left_behind};

use node_arena::Key;

/// An elementary step of a change: a node is placed below a parent before one of its children or behind all, it leaves
/// its parent, or one of its attributes is set or removed (own rule).
#[derive(Clone, Copy)]
pub enum Step {
    Place(Key, Key, Option<Key>),
    Removal(Key),
    Attribute(Key),
}

/// What is known of a step that was begun: the step, with the parent of a node that it places or removes and the slot of its node,
/// both at that time (own rule). `Slots::begin` gives it, and `Slots::end` takes it when the step is done.
#[derive(Clone, Copy)]
pub struct SlotChange {
    pub step: Step,
    pub left: Option<Key>,
    pub slot: Option<Key>,
}

impl Step {
    /// The node that is placed, removed or has an attribute changed.
    pub(crate) fn node(self) -> Key
        ensures { result ≡ step_node self }
    {
        match self {
            Step::Place(node, _, _) | Step::Removal(node) | Step::Attribute(node) => node,
        }
    }

    /// Whether a node is placed or removed.
    pub(crate) fn is_move(self) -> bool
        ensures { result ≡ is_move self }
    {
        !matches!(self, Step::Attribute(_))
    }

    /// The node around which slots are signalled: the parent, which of a removal is the one handed in, or the node itself.
    pub(crate) fn around(self, left: Option<Key>) -> Option<Key>
        ensures { result ≡ around_of self left }
    {
        match self {
            Step::Place(_, parent, _) => Some(parent),
            Step::Removal(_) => left,
            Step::Attribute(node) => Some(node),
        }
    }

    /// The parent that a placed node left, for which it is not signalled around.
    pub(crate) fn left_behind(self, left: Option<Key>) -> Option<Key>
        ensures { result ≡ left_behind self left }
    {
        match self {
            Step::Place(_, _, _) => left,
            _ => None,
        }
    }
}
