//! Commands: the word with which each begins, and the words behind it. Each group of commands is read out of line, and puts a command into
//! the caller's place. Such a place is blank, with `EndTurn` in it, so that no text is dropped where a command is put.

mod cursors;
mod events;
mod nodes;

ghost use Rattle.std.specs.Prelude.{◌≡◌, IfNone, IfSome, IsTrue, Some, true};
ghost use Rattle.std.specs.List.{list_all};
ghost use Rattle.std.specs.Char.{is_ascii_graphic};
ghost use Rattle.dom_text.specs.Commands.{keyword_word, keywords};
ghost use Rattle.dom_text.specs.Readers.{at_end, begins_word, named, next_as};
ghost use Rattle.dom_text.specs.Decode.{keyword_of as spec_keyword_of};
ghost use Rattle.dom_words.specs.Gives.{Gives, Takes};
ghost use Rattle.dom_reader.specs.Views.{keyword_view, command_view};

use crate::keywords::{
    ContentWord, EventWord, Keyword, MakingWord, QuestionWord, TreeWord, keyword_of,
};
use crate::line::Command;
pub use cursors::{cursor_command, range_command};
use dom_words::{NotRead, WordReader};
pub use events::{event_command, observer_command};
pub use nodes::{content_command, making_command, question_command, tree_command};

/// Puts a command into a blank place.
#[inline(always)]
fn put(command: Command, place: &mut Command)
    requires { place.old ≡ Command.EndTurn }
    ensures { place.new ≡ command }
{
    match place {
        Command::EndTurn => *place = command,
        _ => unreachable!(),
    }
}

/// Puts a command into a blank place, at the end of its line.
#[inline(always)]
fn put_ended(command: Command, words: &WordReader, place: &mut Command) -> Result<(), NotRead>
    requires { place.old ≡ Command.EndTurn }
    ensures { Gives (λ _. command_view place.new) result (at_end (command_view command) words.now) }
{
    words.end()?;
    put(command, place);
    Ok(())
}

/// Takes the next word if it is this keyword's, and gives the keyword; another word stays.
#[inline(always)]
fn keyword_if_next(words: &mut WordReader, word: &[u8], keyword: Keyword) -> Option<Keyword>
    requires graphic { IsTrue (list_all is_ascii_graphic word.now) }
    requires begins { begins_word word.now ≡ true }
    requires said { named keyword_word keywords word.now ≡ Some (keyword_view keyword) }
    ensures some { IfSome result (λ k. next_as (named keyword_word keywords) words.old ≡ Some (keyword_view k, words.new)) }
    ensures none { IfNone result (words.new ≡ words.old) }
{
    if words.takes(word) {
        Some(keyword)
    } else {
        None
    }
}

/// The next word as a keyword, where it is one of those that most lines have; another word stays.
#[inline(always)]
fn frequent_keyword(words: &mut WordReader) -> Option<Keyword>
    ensures some { IfSome result (λ k. next_as (named keyword_word keywords) words.old ≡ Some (keyword_view k, words.new)) }
    ensures none { IfNone result (words.new ≡ words.old) }
{
    match words.second_byte()? {
        b'a' => keyword_if_next(words, b"append", Keyword::Tree(TreeWord::Append)),
        b'd' => keyword_if_next(words, b"dispatch", Keyword::Event(EventWord::Dispatch)),
        b'i' => keyword_if_next(words, b"insert", Keyword::Tree(TreeWord::Insert)),
        b'n' => keyword_if_next(words, b"new", Keyword::Making(MakingWord::New)),
        b'p' => keyword_if_next(words, b"parent", Keyword::Question(QuestionWord::Parent)),
        b'r' => keyword_if_next(words, b"remove", Keyword::Tree(TreeWord::Remove)),
        b's' => keyword_if_next(words, b"set", Keyword::Content(ContentWord::Set)),
        _ => None,
    }
}

/// The next word as the one with which a command begins.
#[inline(always)]
pub fn next_keyword(words: &mut WordReader) -> Result<Keyword, NotRead>
    ensures { Takes keyword_view result (next_as spec_keyword_of words.old) words.new }
{
    if let Some(keyword) = frequent_keyword(words) {
        return Ok(keyword);
    }
    let word = words.word()?;
    keyword_of(word).ok_or(NotRead::Syntax)
}
