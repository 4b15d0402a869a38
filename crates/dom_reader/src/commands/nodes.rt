//! Commands that make, place, change and ask about nodes.

ghost use Rattle.std.specs.Prelude.{◌≡◌};
ghost use Rattle.dom_text.specs.Forms.{new_at};
ghost use Rattle.dom_text.specs.Commands.{command_behind};
ghost use Rattle.dom_words.specs.Gives.{Gives};
ghost use Rattle.dom_reader.specs.Views.{making_keyword, tree_keyword, content_keyword, question_keyword, word_view, command_view};

use super::put_ended;
use crate::keywords::{ContentWord, MakingWord, QuestionWord, TreeWord};
use crate::line::Command;
use crate::nodes::next_node;
use dom_base::{Kind, Owner};
use dom_words::{NotRead, WordReader};
use std::alloc::Global;

/// What is made, and its word or string.
fn new_command(alloc: Global, words: &mut WordReader, place: &mut Command) -> Result<(), NotRead>
    requires { place.old ≡ Command.EndTurn }
    ensures { Gives (λ _. command_view place.new) result (new_at words.old) }
{
    match words.new_kind()? {
        Kind::Element => put_ended(Command::NewElement(words.text(alloc)?), words, place),
        Kind::Text => put_ended(Command::NewText(words.string(alloc)?), words, place),
        Kind::Comment => put_ended(Command::NewComment(words.string(alloc)?), words, place),
        Kind::Fragment => put_ended(Command::NewFragment, words, place),
        _ => Err(NotRead::Syntax),
    }
}

/// Puts the command that makes, and goes on with the words, into a blank place.
#[inline(never)]
pub fn making_command(
    alloc: Global,
    word: MakingWord,
    owner: &Owner,
    words: &mut WordReader,
    place: &mut Command,
) -> Result<(), NotRead>
    requires { place.old ≡ Command.EndTurn }
    ensures { Gives (λ _. command_view place.new) result (command_behind (making_keyword word) owner.now words.old) }
{
    match word {
        MakingWord::New => new_command(alloc, words, place),
        MakingWord::Document => put_ended(Command::NewDocument, words, place),
        MakingWord::Attach => put_ended(Command::Attach(next_node(owner, words)?), words, place),
    }
}

/// Puts the command that changes where nodes stand, and goes on with the words, into a blank place.
#[inline(never)]
pub fn tree_command(
    word: TreeWord,
    owner: &Owner,
    words: &mut WordReader,
    place: &mut Command,
) -> Result<(), NotRead>
    requires { place.old ≡ Command.EndTurn }
    ensures { Gives (λ _. command_view place.new) result (command_behind (tree_keyword word) owner.now words.old) }
{
    let first = next_node(owner, words)?;
    match word {
        TreeWord::Append => {
            let node = next_node(owner, words)?;
            put_ended(Command::Append(first, node), words, place)
        }
        TreeWord::Insert => {
            let (node, child) = (next_node(owner, words)?, next_node(owner, words)?);
            put_ended(Command::Insert(first, node, child), words, place)
        }
        TreeWord::Replace => {
            let (node, child) = (next_node(owner, words)?, next_node(owner, words)?);
            put_ended(Command::Replace(first, node, child), words, place)
        }
        TreeWord::Remove => put_ended(Command::Remove(first), words, place),
        TreeWord::Adopt => {
            let node = next_node(owner, words)?;
            put_ended(Command::Adopt(first, node), words, place)
        }
        TreeWord::Normalize => put_ended(Command::Normalize(first), words, place),
    }
}

/// Puts the command that changes attributes or data, and goes on with the words, into a blank place.
#[inline(never)]
pub fn content_command(
    alloc: Global,
    word: ContentWord,
    owner: &Owner,
    words: &mut WordReader,
    place: &mut Command,
) -> Result<(), NotRead>
    requires { place.old ≡ Command.EndTurn }
    ensures { Gives (λ _. command_view place.new) result (command_behind (content_keyword word) owner.now words.old) }
{
    let node = next_node(owner, words)?;
    match word {
        ContentWord::Set => {
            let name = words.text(alloc)?;
            let value = words.string(alloc)?;
            put_ended(Command::SetAttribute(node, name, value), words, place)
        }
        ContentWord::Unset => put_ended(
            Command::UnsetAttribute(node, words.text(alloc)?),
            words,
            place,
        ),
        ContentWord::Data => put_ended(Command::SetData(node, words.string(alloc)?), words, place),
        ContentWord::ReplaceData => {
            let (offset, count) = (words.number()?, words.number()?);
            let text = words.string(alloc)?;
            put_ended(
                Command::ReplaceData(node, offset, count, text),
                words,
                place,
            )
        }
        ContentWord::Split => put_ended(Command::Split(node, words.number()?), words, place),
        ContentWord::Text => put_ended(Command::SetText(node, words.string(alloc)?), words, place),
    }
}

/// Puts the command that asks about nodes, and goes on with the words, into a blank place.
#[inline(never)]
pub fn question_command(
    alloc: Global,
    word: QuestionWord,
    owner: &Owner,
    words: &mut WordReader,
    place: &mut Command,
) -> Result<(), NotRead>
    requires { place.old ≡ Command.EndTurn }
    ensures { Gives (λ _. command_view place.new) result (command_behind (question_keyword word) owner.now words.old) }
{
    let node = next_node(owner, words)?;
    match word {
        QuestionWord::Tree => put_ended(Command::Tree(node), words, place),
        QuestionWord::Attr => put_ended(Command::Attribute(node, words.text(alloc)?), words, place),
        QuestionWord::Parent => put_ended(Command::Parent(node), words, place),
        QuestionWord::Docof => put_ended(Command::DocumentOf(node), words, place),
        QuestionWord::Children => put_ended(Command::Children(node), words, place),
        QuestionWord::Contains => {
            let other = next_node(owner, words)?;
            put_ended(Command::Contains(node, other), words, place)
        }
        QuestionWord::Connected => put_ended(Command::Connected(node), words, place),
        QuestionWord::ShadowRoot => put_ended(Command::ShadowRoot(node), words, place),
        QuestionWord::SlotOf => put_ended(Command::SlotOf(node), words, place),
        QuestionWord::Assigned => match owner {
            Owner::Page => Err(NotRead::Syntax),
            Owner::Component(_) => put_ended(Command::Assigned(node), words, place),
        },
        QuestionWord::Query => put_ended(Command::Query(node, words.string(alloc)?), words, place),
        QuestionWord::Matches => put_ended(
            Command::Matches(node, words.string(alloc)?),
            words,
            place,
        ),
    }
}
