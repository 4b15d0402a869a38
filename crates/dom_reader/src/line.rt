//! What a line of the protocol says: an owner and a command, one variant for each form of line, with the line's words
//! read. All own rules.

use dom_base::{Action, DomStr, Move, Owner, Verdict};

/// A node as a line names it: by its number, a node of the line's own owner, or, by its spelling, another owner's.
///
/// For the page `nJ` is its own, and `mJ` and each full name, as `c1.2:m3`, are foreign; for a component `mJ` is its own, and
/// `nJ` and each full name are foreign, its own nodes' too.
#[derive(Clone, Copy)]
pub enum NodeWord {
    Own(u32),
    Foreign,
}

/// The kinds of node that a filter shows: `all`, or those named.
#[derive(Clone, Copy)]
pub struct Show {
    pub element: bool,
    pub text: bool,
    pub comment: bool,
    pub document: bool,
    pub fragment: bool,
}

/// `skip=NAME` or `reject=NAME`.
#[derive(Drop)]
pub struct NameFilter {
    pub name: String,
    pub verdict: Verdict,
}

/// The words of an iterator or a walker behind its root: SHOW `[FILTER]`.
#[derive(Drop)]
pub struct Filter {
    pub shown: Show,
    pub named: Option<NameFilter>,
}

/// The words of `listen` behind the node: TYPE LABEL ACTION `[capture] [once] [passive]`.
#[derive(Drop)]
pub struct ListenerWords {
    pub event: String,
    pub label: String,
    pub action: Action,
    pub capture: bool,
    pub once: bool,
    pub passive: bool,
}

/// The words of `dispatch` behind the target, without the related node: TYPE `[bubbles] [cancelable] [composed]`.
#[derive(Drop)]
pub struct EventWords {
    pub event: String,
    pub bubbles: bool,
    pub cancelable: bool,
    pub composed: bool,
}

/// The words of `observe` behind the node, and the names behind `filter=`.
#[derive(Drop)]
pub struct ObserveWords {
    pub child_list: bool,
    pub attributes: bool,
    pub character_data: bool,
    pub subtree: bool,
    pub attribute_old_value: bool,
    pub character_data_old_value: bool,
    pub filter: Option<Vec<String>>,
}

/// A command with its words, in the order of the line. Numbers of ranges, iterators, walkers and observers come before
/// nodes; an offset or a count is in code units or children, as its command has it.
#[derive(Drop)]
pub enum Command {
    /// `new element WORD`
    NewElement(String),
    /// `new text STR`
    NewText(DomStr),
    /// `new comment STR`
    NewComment(DomStr),
    /// `new fragment`
    NewFragment,
    /// `document`
    NewDocument,
    /// `attach E`
    Attach(NodeWord),
    /// `append P N`
    Append(NodeWord, NodeWord),
    /// `insert P N C`
    Insert(NodeWord, NodeWord, NodeWord),
    /// `replace P N C`
    Replace(NodeWord, NodeWord, NodeWord),
    /// `remove N`
    Remove(NodeWord),
    /// `adopt D N`
    Adopt(NodeWord, NodeWord),
    /// `normalize N`
    Normalize(NodeWord),
    /// `set E WORD STR`
    SetAttribute(NodeWord, String, DomStr),
    /// `unset E WORD`
    UnsetAttribute(NodeWord, String),
    /// `data T STR`
    SetData(NodeWord, DomStr),
    /// `replace-data T OFFSET COUNT STR`
    ReplaceData(NodeWord, u32, u32, DomStr),
    /// `split N OFFSET`
    Split(NodeWord, u32),
    /// `text N STR`
    SetText(NodeWord, DomStr),
    /// `tree N`
    Tree(NodeWord),
    /// `attr E WORD`
    Attribute(NodeWord, String),
    /// `parent N`
    Parent(NodeWord),
    /// `docof N`
    DocumentOf(NodeWord),
    /// `children N`
    Children(NodeWord),
    /// `contains N N`
    Contains(NodeWord, NodeWord),
    /// `connected N`
    Connected(NodeWord),
    /// `shadow-root E`
    ShadowRoot(NodeWord),
    /// `slot-of N`
    SlotOf(NodeWord),
    /// `assigned E`, of a component alone
    Assigned(NodeWord),
    /// `range-new`
    RangeNew,
    /// `range-start R N OFFSET`
    RangeStart(u32, NodeWord, u32),
    /// `range-end R N OFFSET`
    RangeEnd(u32, NodeWord, u32),
    /// `range-collapse R start` (true) or `end` (false)
    RangeCollapse(u32, bool),
    /// `range-drop R`
    RangeDrop(u32),
    /// `range-get R`
    RangeGet(u32),
    /// `range-text R`
    RangeText(u32),
    /// `extract R`
    Extract(u32),
    /// `delete R`
    Delete(u32),
    /// `insert-node R N`
    InsertNode(u32, NodeWord),
    /// `iter-new N SHOW [FILTER]`
    IteratorNew(NodeWord, Filter),
    /// `walk-new N SHOW [FILTER]`
    WalkerNew(NodeWord, Filter),
    /// `iter-next I`
    IteratorNext(u32),
    /// `iter-prev I`
    IteratorPrevious(u32),
    /// `iter-at I`
    IteratorAt(u32),
    /// `walk W MOVE`
    Walk(u32, Move),
    /// `walk-at W`
    WalkerAt(u32),
    /// `walk-set W N`
    WalkerSet(u32, NodeWord),
    /// `query N STR`
    Query(NodeWord, DomStr),
    /// `matches E STR`
    Matches(NodeWord, DomStr),
    /// `listen N TYPE LABEL ACTION [capture] [once] [passive]`
    Listen(NodeWord, ListenerWords),
    /// `unlisten N TYPE LABEL [capture]`: the type, then the label
    Unlisten(NodeWord, String, String, bool),
    /// `dispatch N TYPE [bubbles] [cancelable] [composed] [related N]`
    Dispatch(NodeWord, EventWords, Option<NodeWord>),
    /// `observer`
    Observer,
    /// `observe O N ..`
    Observe(u32, NodeWord, ObserveWords),
    /// `disconnect O`
    Disconnect(u32),
    /// `take O`
    Take(u32),
    /// `micro LABEL`
    Micro(String),
    /// `.`
    EndTurn,
}

/// An owner's command.
#[derive(Drop)]
pub struct Line {
    pub owner: Owner,
    pub command: Command,
}
