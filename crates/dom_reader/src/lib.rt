//! The line protocol's input: bytes cut into lines, and a line's bytes read as an owner's command, by the words of
//! `dom_words`. All own rules.
#![tactic(auto)]

mod commands;
mod filters;
mod keywords;
mod laws;
mod line;
mod nodes;
mod separated;
mod splitter;

ghost use Rattle.std.specs.Prelude.{◌≡◌, IfOk, IfErr, OnOk, Some};
ghost use Rattle.dom_base.specs.declared.Refusal.TheVariants.{Syntax};
ghost use Rattle.dom_model.specs.Command.{command as model_command, no_command};
ghost use Rattle.dom_words.specs.declared.not_read.NotRead.TheVariants.{Syntax as NoCommand};
ghost use Rattle.dom_text.specs.Decode.{decode, line_of};
ghost use Rattle.dom_reader.specs.Views.{command_view, line_view};

use crate::commands::{
    content_command, cursor_command, event_command, making_command, next_keyword, observer_command,
    question_command, range_command, tree_command,
};
use crate::keywords::Keyword;
use dom_base::{MAX_LINE, Owner, Refusal};
use dom_words::{NotRead, WordReader};
pub use laws::law_pieces;
pub use line::{
    Command, EventWords, Filter, Line, ListenerWords, NameFilter, NodeWord, ObserveWords, Show,
};
pub use nodes::{owner_at, owner_of, page_bytes};
pub use splitter::Splitter;
use std::alloc::{AllocError, Global};

/// What a line says, given without its end. A line that says no command is refused as `syntax`, with its owner where it
/// begins with an owner's word and a space. An error where memory was refused to the words and strings that the command
/// keeps.
pub fn parse_line(
    alloc: Global,
    line: &[u8],
) -> Result<Result<Line, (Option<Owner>, Refusal)>, AllocError>
    ensures decoded { IfOk result (λ read. line_view read ≡ decode line.now) }
    ensures syntax { IfOk result (λ read. IfErr read (λ e. e.1 ≡ Syntax)) }
{
    let Some((owner, bytes)) = owner_at(line) else {
        return Ok(Err((None, Refusal::Syntax)));
    };
    let mut command = Command::EndTurn;
    match parse_command(alloc, line, &owner, bytes, &mut command) {
        Ok(()) => Ok(Ok(Line { owner, command })),
        Err(NotRead::Syntax) => Ok(Err((Some(owner), Refusal::Syntax))),
        Err(NotRead::Memory) => Err(AllocError),
    }
}

/// Puts the command that an owner's line says into a place, given with the bytes behind the owner's word, as `owner_at` has them: `parse_line` for
/// who has found the owner. A line that says no command is refused as `syntax`. The other error is memory refused to the words and strings
/// that the command keeps. After an error the place holds some command. It is in line, so that a new place is known to hold no text.
#[inline(always)]
pub fn parse_command(
    alloc: Global,
    line: &[u8],
    owner: &Owner,
    bytes: &[u8],
    place: &mut Command,
) -> Result<(), NotRead>
    ensures read { OnOk result (line_of line.now (Some (owner.now, bytes.now)) ≡ model_command owner.now (command_view place.new)) }
    ensures refused { IfErr result (λ e. e ≡ NoCommand → line_of line.now (Some (owner.now, bytes.now)) ≡ no_command owner.now) }
{
    *place = Command::EndTurn;
    if line.len() > MAX_LINE {
        return Err(NotRead::Syntax);
    }
    let mut words = WordReader::new(bytes);
    match next_keyword(&mut words)? {
        Keyword::Making(word) => making_command(alloc, word, owner, &mut words, place),
        Keyword::Tree(word) => tree_command(word, owner, &mut words, place),
        Keyword::Content(word) => content_command(alloc, word, owner, &mut words, place),
        Keyword::Question(word) => question_command(alloc, word, owner, &mut words, place),
        Keyword::Range(word) => range_command(word, owner, &mut words, place),
        Keyword::Cursor(word) => cursor_command(alloc, word, owner, &mut words, place),
        Keyword::Event(word) => event_command(alloc, word, owner, &mut words, place),
        Keyword::Observer(word) => observer_command(alloc, word, owner, &mut words, place),
    }
}
