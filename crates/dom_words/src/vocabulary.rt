//! The words that say kinds, actions, moves and ends.

ghost use Rattle.std.specs.Prelude.{◌≡◌, IfErr, true, false, ◌∷◌, []};
ghost use Rattle.dom_text.specs.Readers.{named, next_as};
ghost use Rattle.dom_text.specs.Words.{kind_word, new_kinds, action_word, actions_listed, move_word, moves_listed, end_word};
ghost use Rattle.dom_text.specs.Forms.{action_at, move_at, to_start_at};
ghost use Rattle.dom_words.specs.declared.not_read.NotRead.TheVariants.{Syntax};
ghost use Rattle.dom_words.specs.Gives.{Takes};

use crate::not_read::NotRead;
use crate::words::WordReader;
use dom_base::{Action, Kind, Move};

/// What a listener does.
fn action_of(word: &[u8]) -> Option<Action>
    ensures { result ≡ named action_word actions_listed word.now }
{
    match word {
        b"log" => Some(Action::Log),
        b"stop" => Some(Action::Stop),
        b"stop-now" => Some(Action::StopNow),
        b"cancel" => Some(Action::Cancel),
        _ => None,
    }
}

/// The kind that `new` makes.
fn new_kind_of(word: &[u8]) -> Option<Kind>
    ensures { result ≡ named kind_word new_kinds word.now }
{
    match word {
        b"element" => Some(Kind::Element),
        b"text" => Some(Kind::Text),
        b"comment" => Some(Kind::Comment),
        b"fragment" => Some(Kind::Fragment),
        _ => None,
    }
}

/// All moves of a walker.
const MOVES: [Move; 7] = [
    Move::Parent,
    Move::First,
    Move::Last,
    Move::Next,
    Move::Previous,
    Move::NextSibling,
    Move::PreviousSibling,
];

/// The word of a walker's move.
fn move_text(step: Move) -> &'static str
    ensures { result.now ≡ move_word step }
{
    match step {
        Move::Parent => "parent",
        Move::First => "first",
        Move::Last => "last",
        Move::Next => "next",
        Move::Previous => "previous",
        Move::NextSibling => "next-sibling",
        Move::PreviousSibling => "previous-sibling",
    }
}

/// The walker's move whose word this is.
fn move_of(word: &[u8]) -> Option<Move>
    ensures { result ≡ named move_word moves_listed word.now }
{
    MOVES
        .iter()
        .copied()
        .find(|step| move_text(*step).as_bytes() == word)
}

/// The end of a range to which it is collapsed: whether it is the start.
fn to_start_of(word: &[u8]) -> Option<bool>
    ensures { result ≡ named end_word (true ∷ false ∷ []) word.now }
{
    match word {
        b"start" => Some(true),
        b"end" => Some(false),
        _ => None,
    }
}

impl WordReader<'_> {
    /// The next word as what a listener does: `log`, `stop`, `stop-now` or `cancel`.
    pub fn action(&mut self) -> Result<Action, NotRead>
        ensures read { Takes (λ a. a) result (action_at self.old) self.new }
        ensures refused { IfErr result (λ e. e ≡ Syntax) }
    {
        let word = self.word()?;
        action_of(word).ok_or(NotRead::Syntax)
    }

    /// The next word as the kind of node that `new` makes: `element`, `text`, `comment` or `fragment`.
    pub fn new_kind(&mut self) -> Result<Kind, NotRead>
        ensures read { Takes (λ k. k) result (next_as (named kind_word new_kinds) self.old) self.new }
        ensures refused { IfErr result (λ e. e ≡ Syntax) }
    {
        if self.takes(b"element") {
            return Ok(Kind::Element);
        }
        let word = self.word()?;
        new_kind_of(word).ok_or(NotRead::Syntax)
    }

    /// The next word as a move of a walker: `parent`, `first`, `last`, `next`, `previous`, `next-sibling` or
    /// `previous-sibling`.
    pub fn walker_move(&mut self) -> Result<Move, NotRead>
        ensures read { Takes (λ m. m) result (move_at self.old) self.new }
        ensures refused { IfErr result (λ e. e ≡ Syntax) }
    {
        let word = self.word()?;
        move_of(word).ok_or(NotRead::Syntax)
    }

    /// The next word as an end of a range, to which it is collapsed: true for `start`, false for `end`.
    pub fn to_start(&mut self) -> Result<bool, NotRead>
        ensures read { Takes (λ s. s) result (to_start_at self.old) self.new }
        ensures refused { IfErr result (λ e. e ≡ Syntax) }
    {
        let word = self.word()?;
        to_start_of(word).ok_or(NotRead::Syntax)
    }
}
