//! What C reads and writes.

/// A node: its owner's place in the table of owners, and its number among what that one made.
#[repr(C)]
#[derive(Clone, Copy)]
pub struct DomNode {
    pub owner: u32,
    pub number: u32,
}

/// What stands for no node.
pub const NONE: DomNode = DomNode {
    owner: u32::MAX,
    number: 0,
};

/// The nodes around a node: its parent, its first and last child, and its previous and next sibling. What is not there is `NONE`.
#[repr(C)]
#[derive(Clone, Copy)]
pub struct DomLinks {
    pub parent: DomNode,
    pub first: DomNode,
    pub last: DomNode,
    pub previous: DomNode,
    pub next: DomNode,
}

/// A boundary point of a range: a node, and an offset in children or code units.
#[repr(C)]
#[derive(Clone, Copy)]
pub struct DomPoint {
    pub node: DomNode,
    pub offset: u32,
}

/// A part of an array of an answer: where it begins, and how many things it has.
#[repr(C)]
#[derive(Clone, Copy)]
pub struct DomSpan {
    pub at: u32,
    pub count: u32,
}

/// An attribute: its name, a part of the bytes, and its value, a part of the units.
#[repr(C)]
#[derive(Clone, Copy)]
pub struct DomAttribute {
    pub name: DomSpan,
    pub value: DomSpan,
}

/// A node with all that it has itself: its kind by number, the row of its parent (0 for the first one), an element's local name, the data of a Text
/// or a Comment, and the attributes, in order.
#[repr(C)]
#[derive(Clone, Copy)]
pub struct DomRow {
    pub node: DomNode,
    pub kind: u32,
    pub parent: u32,
    pub name: DomSpan,
    pub data: DomSpan,
    pub attributes: DomSpan,
}

/// What a listener, an observer or a microtask is told. What a kind does not have is 0, `NONE` or empty.
#[repr(C)]
#[derive(Clone, Copy)]
pub struct DomDelivery {
    pub kind: u32,
    pub owner: u32,
    pub number: u32,
    pub flags: u32,
    pub target: DomNode,
    pub current: DomNode,
    pub related: DomNode,
    pub previous: DomNode,
    pub next: DomNode,
    pub label: DomSpan,
    pub name: DomSpan,
    pub path: DomSpan,
    pub added: DomSpan,
    pub removed: DomSpan,
    pub old_value: DomSpan,
    pub has_old_value: u32,
}

/// The arrays of the last call. They are the handle's, and stay until the next call with it.
#[repr(C)]
#[derive(Clone, Copy)]
pub struct DomAnswer {
    pub deliveries: *const DomDelivery,
    pub delivery_count: usize,
    pub nodes: *const DomNode,
    pub node_count: usize,
    pub rows: *const DomRow,
    pub row_count: usize,
    pub attributes: *const DomAttribute,
    pub attribute_count: usize,
    pub units: *const u16,
    pub unit_count: usize,
    pub bytes: *const u8,
    pub byte_count: usize,
    pub called: DomSpan,
}
