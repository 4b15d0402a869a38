// The small types that every layer of the engine shares: owners, names of nodes, kinds, refusals and limits.
#![tactic(auto)]

ghost use Rattle.std.specs.Prelude.{◌≡◌, ◌<◌, nat_lt, Some, None, if◌then◌else◌};
ghost use Rattle.std.specs.Str.{bytes_eq};
ghost use Rattle.dom_base.specs.Refusals.{refusal_number, refusal_word};
ghost use Rattle.dom_base.specs.Owners.{owner_depth, max_depth, path_of, component_made};

use std::alloc::{AllocError, AllocFailed};
use std::hash::{Hash, Hasher};

/// The numbers of a component's word, as of `c1.2`: the first is counted by the page's attaches, each further one by those of
/// the component before it.
#[derive(Clone, Copy, PartialEq, Eq, PartialOrd, Ord, Debug)]
pub struct OwnerPath {
    /// How many numbers there are: 1 to 8.
    pub depth: u8,
    /// The numbers, none of which is 0, and zeros behind them.
    pub parts: [u32; 8],
}

/// A path is hashed by its numbers alone, without the zeros behind them (own rule).
impl Hash for OwnerPath {
    ghost use Rattle.dom_base.specs.Owners.{path_hash, same_paths_hash_alike};

    ghost hash_input = { path_hash };

    ghost respects_eq = { same_paths_hash_alike };

    fn hash<H: Hasher>(&self, state: &mut H) {
        Hash::hash_slice(self.numbers(), state);
    }
}

impl OwnerPath {
    ghost use Rattle.std.specs.Prelude.{take};

    /// The numbers of a component's word, the outermost first.
    pub fn numbers(&self) -> &[u32]
        ensures { result.now ≡ take self.now.depth self.now.parts }
    {
        &self.parts[..(self.depth as usize).min(self.parts.len())]
    }
}

/// Whose trees: the page's, or those of the component with this path.
#[derive(Clone, Copy, PartialEq, Eq, PartialOrd, Ord, Hash, Debug)]
pub enum Owner {
    Page,
    Component(OwnerPath),
}

/// A node's name: its owner, and its number in the order in which that owner's nodes were made.
#[derive(Clone, Copy, PartialEq, Eq, PartialOrd, Ord, Hash, Debug)]
pub struct NodeName {
    pub owner: Owner,
    pub number: u32,
}

/// A string of 16-bit code units.
pub type DomStr = Vec<u16>;

/// The kind of a node, which is the interface that it has in the DOM Standard.
#[derive(Clone, Copy, PartialEq, Eq, PartialOrd, Ord, Hash, Debug)]
pub enum Kind {
    /// A Document.
    Document,
    /// A DocumentFragment that is no ShadowRoot.
    Fragment,
    /// A ShadowRoot.
    Shadow,
    /// An Element.
    Element,
    /// A Text.
    Text,
    /// A Comment.
    Comment,
}

/// What a filter answers at an element that has its name.
#[derive(Clone, Copy, PartialEq, Eq, PartialOrd, Ord, Hash, Debug)]
pub enum Verdict {
    Skip,
    Reject,
}

/// A move of a tree walker.
#[derive(Clone, Copy, PartialEq, Eq, PartialOrd, Ord, Hash, Debug)]
pub enum Move {
    Parent,
    First,
    Last,
    Next,
    Previous,
    NextSibling,
    PreviousSibling,
}

/// What a listener does when it is called.
#[derive(Clone, Copy, PartialEq, Eq, PartialOrd, Ord, Hash, Debug)]
pub enum Action {
    Log,
    Stop,
    StopNow,
    Cancel,
}

/// Why a command was refused, in the order in which the tests are made.
#[derive(Clone, Copy, PartialEq, Eq, PartialOrd, Ord, Hash, Debug)]
pub enum Refusal {
    Syntax,
    Busy,
    Foreign,
    Unknown,
    WrongKind,
    Hierarchy,
    NotFound,
    NotSupported,
    InvalidCharacter,
    Selector,
    IndexSize,
    TypeFault,
    Limit,
}

/// A call that was not done: it was refused, or memory was refused to it.
#[derive(Clone, Copy, PartialEq, Eq, PartialOrd, Ord, Hash, Debug)]
pub enum Fault {
    Refused(Refusal),
    Memory,
}

impl From<AllocError> for Fault {
    ghost use Rattle.std.specs.Prelude.{◌≡◌};
    ghost use Rattle.dom_base.specs.declared.Fault.TheVariants.{Memory};

    ghost from_gives = { λ _ f. f ≡ Memory };

    fn from(_error: AllocError) -> Fault {
        Fault::Memory
    }
}

impl<T: Drop> From<AllocFailed<T>> for Fault {
    ghost use Rattle.std.specs.Prelude.{◌≡◌};
    ghost use Rattle.dom_base.specs.declared.Fault.TheVariants.{Memory};

    ghost from_gives = { λ _ f. f ≡ Memory };

    fn from(_refused: AllocFailed<T>) -> Fault {
        Fault::Memory
    }
}

impl From<Refusal> for Fault {
    ghost use Rattle.std.specs.Prelude.{◌≡◌};
    ghost use Rattle.dom_base.specs.declared.Fault.TheVariants.{Refused};

    ghost from_gives = { λ refusal f. f ≡ Refused refusal };

    fn from(refusal: Refusal) -> Fault {
        Fault::Refused(refusal)
    }
}

/// The longest line in bytes, without its end.
pub const MAX_LINE: usize = 65_536;

/// How many nodes one owner makes at most; the same of ranges, iterators, walkers and observers.
pub const MAX_NODES: u32 = 1_000_000;

/// How many components one owner makes at most.
pub const MAX_COMPONENTS: u32 = 1_000;

/// How many numbers the word of a component has at most.
pub const MAX_DEPTH: u8 = 8;

/// The longest input in bytes.
pub const MAX_INPUT: u64 = 1 << 30;

/// Whether two texts are the same. They are compared byte by byte, since most are short.
pub fn is_same(text: &[u8], other: &[u8]) -> bool
    ensures { result ≡ bytes_eq text.now other.now }
{
    if text.len() != other.len() {
        return false;
    }
    for index in 0..text.len() {
        if text[index] != other[index] {
            return false;
        }
    }
    true
}

impl Owner {
    /// The numbers of its word, of which the page has none.
    fn path(self) -> OwnerPath
        ensures { result ≡ path_of self }
    {
        match self {
            Owner::Page => OwnerPath {
                depth: 0,
                parts: [0; 8],
            },
            Owner::Component(path) => path,
        }
    }

    /// How many closed shadow roots lie between the page and its nodes: as many as its word has numbers.
    pub fn depth(self) -> u8
        ensures { result ≡ owner_depth self }
    {
        self.path().depth
    }

    /// The component of its attach of this number, counted from 0. None where its word has the most numbers already.
    #[tactic(auto, unfolding(crate::specs::Owners::max_depth))]
    pub fn component(self, attach: u32) -> Option<Owner>
        requires { attach < MAX_COMPONENTS }
        ensures { result ≡ (if nat_lt (owner_depth self) max_depth then Some (component_made self attach) else None) }
    {
        let mut path = self.path();
        if path.depth >= MAX_DEPTH {
            return None;
        }
        path.parts[path.depth as usize] = attach + 1;
        path.depth += 1;
        Some(Owner::Component(path))
    }
}

impl Refusal {
    /// Its number, 1 to 13.
    pub fn number(self) -> u8
        ensures { result ≡ refusal_number self }
    {
        match self {
            Refusal::Syntax => 1,
            Refusal::Busy => 2,
            Refusal::Foreign => 3,
            Refusal::Unknown => 4,
            Refusal::WrongKind => 5,
            Refusal::Hierarchy => 6,
            Refusal::NotFound => 7,
            Refusal::NotSupported => 8,
            Refusal::InvalidCharacter => 9,
            Refusal::Selector => 10,
            Refusal::IndexSize => 11,
            Refusal::TypeFault => 12,
            Refusal::Limit => 13,
        }
    }

    /// Its word in a reply.
    pub fn word(self) -> &'static str
        ensures { result.now ≡ refusal_word self }
    {
        match self {
            Refusal::Syntax => "syntax",
            Refusal::Busy => "busy",
            Refusal::Foreign => "foreign",
            Refusal::Unknown => "unknown",
            Refusal::WrongKind => "wrong-kind",
            Refusal::Hierarchy => "hierarchy",
            Refusal::NotFound => "not-found",
            Refusal::NotSupported => "not-supported",
            Refusal::InvalidCharacter => "invalid-character",
            Refusal::Selector => "selector",
            Refusal::IndexSize => "index-size",
            Refusal::TypeFault => "type",
            Refusal::Limit => "limit",
        }
    }
}
