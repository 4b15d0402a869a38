//! The words with which commands begin: by what the commands are about, and sought among those with the same first byte.

ghost use Rattle.std.specs.Prelude.{◌≡◌, option_map};
ghost use Rattle.dom_text.specs.Commands.{keyword_word};
ghost use Rattle.dom_text.specs.Decode.{keyword_of as spec_keyword_of};
ghost use Rattle.dom_text.specs.Readers.{named};
ghost use Rattle.dom_reader.specs.Keywords.{keyword_with, range_words, re_words};
ghost use Rattle.dom_reader.specs.Views.{keyword_view};

/// What makes nodes, and shadow roots.
#[derive(Clone, Copy)]
pub enum MakingWord {
    New,
    Document,
    Attach,
}

/// What changes where nodes stand.
#[derive(Clone, Copy)]
pub enum TreeWord {
    Append,
    Insert,
    Replace,
    Remove,
    Adopt,
    Normalize,
}

/// What changes attributes and data.
#[derive(Clone, Copy)]
pub enum ContentWord {
    Set,
    Unset,
    Data,
    ReplaceData,
    Split,
    Text,
}

/// What asks about nodes.
#[derive(Clone, Copy)]
pub enum QuestionWord {
    Tree,
    Attr,
    Parent,
    Docof,
    Children,
    Contains,
    Connected,
    ShadowRoot,
    SlotOf,
    Assigned,
    Query,
    Matches,
}

/// What ranges are made by, asked and used for.
#[derive(Clone, Copy)]
pub enum RangeWord {
    New,
    Start,
    End,
    Collapse,
    Drop,
    Get,
    Text,
    Extract,
    Delete,
    InsertNode,
}

/// What iterators and walkers are made by, asked and moved by.
#[derive(Clone, Copy)]
pub enum CursorWord {
    IterNew,
    WalkNew,
    IterNext,
    IterPrev,
    IterAt,
    Walk,
    WalkAt,
    WalkSet,
}

/// Listeners and events, microtasks and the end of a turn.
#[derive(Clone, Copy)]
pub enum EventWord {
    Listen,
    Unlisten,
    Dispatch,
    Micro,
    End,
}

/// What observers are made by, told and asked.
#[derive(Clone, Copy)]
pub enum ObserverWord {
    Observer,
    Observe,
    Disconnect,
    Take,
}

/// The word with which a command begins.
#[derive(Clone, Copy)]
pub enum Keyword {
    Making(MakingWord),
    Tree(TreeWord),
    Content(ContentWord),
    Question(QuestionWord),
    Range(RangeWord),
    Cursor(CursorWord),
    Event(EventWord),
    Observer(ObserverWord),
}

/// The command's word with `.` in front that this is.
fn with_dot(word: &[u8]) -> Option<Keyword>
    ensures { option_map keyword_view result ≡ keyword_with 46 word.now }
{
    match word {
        b"." => Some(Keyword::Event(EventWord::End)),
        _ => None,
    }
}

/// The command's word with `a` in front that this is.
fn with_a(word: &[u8]) -> Option<Keyword>
    ensures { option_map keyword_view result ≡ keyword_with 97 word.now }
{
    match word {
        b"attach" => Some(Keyword::Making(MakingWord::Attach)),
        b"append" => Some(Keyword::Tree(TreeWord::Append)),
        b"adopt" => Some(Keyword::Tree(TreeWord::Adopt)),
        b"attr" => Some(Keyword::Question(QuestionWord::Attr)),
        b"assigned" => Some(Keyword::Question(QuestionWord::Assigned)),
        _ => None,
    }
}

/// The command's word with `c` in front that this is.
fn with_c(word: &[u8]) -> Option<Keyword>
    ensures { option_map keyword_view result ≡ keyword_with 99 word.now }
{
    match word {
        b"children" => Some(Keyword::Question(QuestionWord::Children)),
        b"contains" => Some(Keyword::Question(QuestionWord::Contains)),
        b"connected" => Some(Keyword::Question(QuestionWord::Connected)),
        _ => None,
    }
}

/// The command's word with `d` in front that this is.
fn with_d(word: &[u8]) -> Option<Keyword>
    ensures { option_map keyword_view result ≡ keyword_with 100 word.now }
{
    match word {
        b"document" => Some(Keyword::Making(MakingWord::Document)),
        b"data" => Some(Keyword::Content(ContentWord::Data)),
        b"docof" => Some(Keyword::Question(QuestionWord::Docof)),
        b"delete" => Some(Keyword::Range(RangeWord::Delete)),
        b"dispatch" => Some(Keyword::Event(EventWord::Dispatch)),
        b"disconnect" => Some(Keyword::Observer(ObserverWord::Disconnect)),
        _ => None,
    }
}

/// The command's word with `e` in front that this is.
fn with_e(word: &[u8]) -> Option<Keyword>
    ensures { option_map keyword_view result ≡ keyword_with 101 word.now }
{
    match word {
        b"extract" => Some(Keyword::Range(RangeWord::Extract)),
        _ => None,
    }
}

/// The command's word with `i` in front that this is.
fn with_i(word: &[u8]) -> Option<Keyword>
    ensures { option_map keyword_view result ≡ keyword_with 105 word.now }
{
    match word {
        b"insert" => Some(Keyword::Tree(TreeWord::Insert)),
        b"insert-node" => Some(Keyword::Range(RangeWord::InsertNode)),
        b"iter-new" => Some(Keyword::Cursor(CursorWord::IterNew)),
        b"iter-next" => Some(Keyword::Cursor(CursorWord::IterNext)),
        b"iter-prev" => Some(Keyword::Cursor(CursorWord::IterPrev)),
        b"iter-at" => Some(Keyword::Cursor(CursorWord::IterAt)),
        _ => None,
    }
}

/// The command's word with `l` in front that this is.
fn with_l(word: &[u8]) -> Option<Keyword>
    ensures { option_map keyword_view result ≡ keyword_with 108 word.now }
{
    match word {
        b"listen" => Some(Keyword::Event(EventWord::Listen)),
        _ => None,
    }
}

/// The command's word with `m` in front that this is.
fn with_m(word: &[u8]) -> Option<Keyword>
    ensures { option_map keyword_view result ≡ keyword_with 109 word.now }
{
    match word {
        b"matches" => Some(Keyword::Question(QuestionWord::Matches)),
        b"micro" => Some(Keyword::Event(EventWord::Micro)),
        _ => None,
    }
}

/// The command's word with `n` in front that this is.
fn with_n(word: &[u8]) -> Option<Keyword>
    ensures { option_map keyword_view result ≡ keyword_with 110 word.now }
{
    match word {
        b"new" => Some(Keyword::Making(MakingWord::New)),
        b"normalize" => Some(Keyword::Tree(TreeWord::Normalize)),
        _ => None,
    }
}

/// The command's word with `o` in front that this is.
fn with_o(word: &[u8]) -> Option<Keyword>
    ensures { option_map keyword_view result ≡ keyword_with 111 word.now }
{
    match word {
        b"observer" => Some(Keyword::Observer(ObserverWord::Observer)),
        b"observe" => Some(Keyword::Observer(ObserverWord::Observe)),
        _ => None,
    }
}

/// The command's word with `p` in front that this is.
fn with_p(word: &[u8]) -> Option<Keyword>
    ensures { option_map keyword_view result ≡ keyword_with 112 word.now }
{
    match word {
        b"parent" => Some(Keyword::Question(QuestionWord::Parent)),
        _ => None,
    }
}

/// The command's word with `q` in front that this is.
fn with_q(word: &[u8]) -> Option<Keyword>
    ensures { option_map keyword_view result ≡ keyword_with 113 word.now }
{
    match word {
        b"query" => Some(Keyword::Question(QuestionWord::Query)),
        _ => None,
    }
}

/// The word of a command on ranges with `range-` in front that this is.
fn with_range(word: &[u8]) -> Option<Keyword>
    ensures { option_map keyword_view result ≡ named keyword_word range_words word.now }
{
    match word {
        b"range-new" => Some(Keyword::Range(RangeWord::New)),
        b"range-start" => Some(Keyword::Range(RangeWord::Start)),
        b"range-end" => Some(Keyword::Range(RangeWord::End)),
        b"range-collapse" => Some(Keyword::Range(RangeWord::Collapse)),
        b"range-drop" => Some(Keyword::Range(RangeWord::Drop)),
        b"range-get" => Some(Keyword::Range(RangeWord::Get)),
        b"range-text" => Some(Keyword::Range(RangeWord::Text)),
        _ => None,
    }
}

/// The command's word with `re` in front that this is.
fn with_re(word: &[u8]) -> Option<Keyword>
    ensures { option_map keyword_view result ≡ named keyword_word re_words word.now }
{
    match word {
        b"replace" => Some(Keyword::Tree(TreeWord::Replace)),
        b"remove" => Some(Keyword::Tree(TreeWord::Remove)),
        b"replace-data" => Some(Keyword::Content(ContentWord::ReplaceData)),
        _ => None,
    }
}

/// The command's word with `r` in front that this is.
fn with_r(word: &[u8]) -> Option<Keyword>
    ensures { option_map keyword_view result ≡ keyword_with 114 word.now }
{
    match with_re(word) {
        Some(keyword) => Some(keyword),
        None => with_range(word),
    }
}

/// The command's word with `s` in front that this is.
fn with_s(word: &[u8]) -> Option<Keyword>
    ensures { option_map keyword_view result ≡ keyword_with 115 word.now }
{
    match word {
        b"set" => Some(Keyword::Content(ContentWord::Set)),
        b"split" => Some(Keyword::Content(ContentWord::Split)),
        b"shadow-root" => Some(Keyword::Question(QuestionWord::ShadowRoot)),
        b"slot-of" => Some(Keyword::Question(QuestionWord::SlotOf)),
        _ => None,
    }
}

/// The command's word with `t` in front that this is.
fn with_t(word: &[u8]) -> Option<Keyword>
    ensures { option_map keyword_view result ≡ keyword_with 116 word.now }
{
    match word {
        b"text" => Some(Keyword::Content(ContentWord::Text)),
        b"tree" => Some(Keyword::Question(QuestionWord::Tree)),
        b"take" => Some(Keyword::Observer(ObserverWord::Take)),
        _ => None,
    }
}

/// The command's word with `u` in front that this is.
fn with_u(word: &[u8]) -> Option<Keyword>
    ensures { option_map keyword_view result ≡ keyword_with 117 word.now }
{
    match word {
        b"unset" => Some(Keyword::Content(ContentWord::Unset)),
        b"unlisten" => Some(Keyword::Event(EventWord::Unlisten)),
        _ => None,
    }
}

/// The command's word with `w` in front that this is.
fn with_w(word: &[u8]) -> Option<Keyword>
    ensures { option_map keyword_view result ≡ keyword_with 119 word.now }
{
    match word {
        b"walk-new" => Some(Keyword::Cursor(CursorWord::WalkNew)),
        b"walk" => Some(Keyword::Cursor(CursorWord::Walk)),
        b"walk-at" => Some(Keyword::Cursor(CursorWord::WalkAt)),
        b"walk-set" => Some(Keyword::Cursor(CursorWord::WalkSet)),
        _ => None,
    }
}

/// The command's word that this is, of those with its first byte.
fn beginning_with(first: u8, word: &[u8]) -> Option<Keyword>
    ensures { option_map keyword_view result ≡ keyword_with first word.now }
{
    match first {
        b'.' => with_dot(word),
        b'a' => with_a(word),
        b'c' => with_c(word),
        b'd' => with_d(word),
        b'e' => with_e(word),
        b'i' => with_i(word),
        b'l' => with_l(word),
        b'm' => with_m(word),
        b'n' => with_n(word),
        b'o' => with_o(word),
        b'p' => with_p(word),
        b'q' => with_q(word),
        b'r' => with_r(word),
        b's' => with_s(word),
        b't' => with_t(word),
        b'u' => with_u(word),
        b'w' => with_w(word),
        _ => None,
    }
}

/// The command's word that these bytes are.
pub fn keyword_of(word: &[u8]) -> Option<Keyword>
    ensures { option_map keyword_view result ≡ spec_keyword_of word.now }
{
    match word {
        [] => None,
        [first, ..] => beginning_with(*first, word),
    }
}
