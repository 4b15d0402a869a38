//! The items of an answer as values. What they have lies in arrays.
ghost use Rattle.std.specs.Prelude.{◌≡◌};
ghost use Rattle.dom_answers.specs.Parts.{IsPart, part};

use dom_base::{Kind, NodeName, Owner, Refusal};
use dom_printer::Boundary;

/// A part of an array: the index of its first thing, and how many things it has.
#[derive(Clone, Copy)]
pub struct Span {
    pub at: usize,
    pub count: usize,
}

impl Span {
    /// The things of this part of an array, in their order.
    pub fn of<T>(self, array: &[T]) -> &[T]
        requires { IsPart array.now self }
        ensures { result.now ≡ part array.now self }
    {
        &array[self.at..][..self.count]
    }
}

/// An attribute: its name, a part of the bytes, and its value, a part of the code units (DOM Standard, interface Attr).
#[derive(Clone, Copy)]
pub struct AttributeSpans {
    pub name: Span,
    pub value: Span,
}

/// A node at the begin of its tree. An element has its local name, a part of the bytes, and its attributes, a part of the array of
/// attributes. A Text or a Comment has its data, a part of the code units. For other kinds of nodes these parts are empty (DOM Standard,
/// interface Node).
#[derive(Clone, Copy)]
pub struct NodeRow {
    pub name: NodeName,
    pub kind: Kind,
    pub element: Span,
    pub attributes: Span,
    pub text: Span,
}

/// A row of a tree: the begin of a node's tree, or the end of the last tree that has begun and not ended. The rows of children stand
/// between the two rows of their parent.
#[derive(Clone, Copy)]
pub enum Row {
    Opens(NodeRow),
    Closes,
}

/// The value of a reply.
#[derive(Clone, Copy)]
pub enum Reply {
    Nothing,
    /// No node, or no string.
    Null,
    Node(NodeName),
    /// A part of the nodes.
    List(Span),
    /// A component, as an owner.
    Component(Owner),
    /// The number of a range.
    Range(u32),
    /// The number of an iterator.
    Iterator(u32),
    /// The number of a walker.
    Walker(u32),
    /// The number of an observer.
    Observer(u32),
    /// A part of the code units.
    Str(Span),
    Truth(bool),
    Count(usize),
    /// A part of the rows.
    Tree(Span),
    /// A range's start and end.
    Boundaries { start: Boundary, end: Boundary },
    /// An iterator's reference, and whether the pointer of the iterator is before it.
    Reference { node: NodeName, before: bool },
}

/// A call of a listener. It has the listener's label and the event's type, which are parts of the bytes; the phase (1 to 3), the target,
/// the current target and the related target; and the composed path, a part of the nodes. All are as the listener sees them (DOM
/// Standard, interface Event).
#[derive(Clone, Copy)]
pub struct Call {
    pub label: Span,
    pub event: Span,
    pub phase: u8,
    pub target: NodeName,
    pub current: NodeName,
    pub related: Option<NodeName>,
    pub path: Span,
}

/// What a record tells of a change (DOM Standard, interface MutationRecord). The added nodes and the removed nodes are parts of the
/// nodes. An attribute's name is a part of the bytes, and an old value is a part of the code units, or none if the observer did not ask
/// for it.
#[derive(Clone, Copy)]
pub enum Mutation {
    ChildList {
        target: NodeName,
        added: Span,
        removed: Span,
        previous: Option<NodeName>,
        next: Option<NodeName>,
    },
    Attributes {
        target: NodeName,
        name: Span,
        old: Option<Span>,
    },
    CharacterData {
        target: NodeName,
        old: Option<Span>,
    },
}

/// What an item says: a reply, a refusal, a call of a listener, a record of the observer with this number, or the run of a microtask,
/// with its label as a part of the bytes.
#[derive(Clone, Copy)]
pub enum Said {
    Replied(Reply),
    Refused(Refusal),
    Event(Call),
    Record(u32, Mutation),
    Microtask(Span),
}

/// An item of an answer: the refusal of a line that has no owner, or what is said to an owner.
#[derive(Clone, Copy)]
pub enum Item {
    NoOwner,
    Says(Owner, Said),
}
