//! Commands of ranges, iterators and walkers.

ghost use Rattle.std.specs.Prelude.{◌≡◌};
ghost use Rattle.dom_model.specs.Command as model;
ghost use Rattle.dom_text.specs.Forms.{cursor_at};
ghost use Rattle.dom_text.specs.Commands.{command_behind};
ghost use Rattle.dom_words.specs.Gives.{Gives};
ghost use Rattle.dom_reader.specs.Filters.{filtered as spec_filtered};
ghost use Rattle.dom_reader.specs.Views.{range_keyword, cursor_keyword, word_view, filter_view, command_view};

use super::{put, put_ended};
use crate::filters::{last_name_filter, show_of};
use crate::keywords::{CursorWord, RangeWord};
use crate::line::{Command, Filter, NodeWord};
use crate::nodes::next_node;
use dom_base::Owner;
use dom_words::{NotRead, WordReader};
use std::alloc::Global;

/// The words of an iterator or a walker: a root, what is shown, and perhaps a name.
fn filtered(
    alloc: Global,
    owner: &Owner,
    words: &mut WordReader,
) -> Result<(NodeWord, Filter), NotRead>
    ensures { Gives (λ x. (word_view x.0, filter_view x.1)) result (spec_filtered owner.now words.old) }
{
    let root = next_node(owner, words)?;
    let word = words.word()?;
    let shown = show_of(word).ok_or(NotRead::Syntax)?;
    let named = last_name_filter(alloc, words)?;
    Ok((root, Filter { shown, named }))
}

/// Puts `iter-new` with its words into a blank place.
fn iterator_new(
    alloc: Global,
    owner: &Owner,
    words: &mut WordReader,
    place: &mut Command,
) -> Result<(), NotRead>
    requires { place.old ≡ Command.EndTurn }
    ensures { Gives (λ _. command_view place.new) result (cursor_at owner.now model.iterator_new words.old) }
{
    let (root, filter) = filtered(alloc, owner, words)?;
    put(Command::IteratorNew(root, filter), place);
    Ok(())
}

/// Puts `walk-new` with its words into a blank place.
fn walker_new(
    alloc: Global,
    owner: &Owner,
    words: &mut WordReader,
    place: &mut Command,
) -> Result<(), NotRead>
    requires { place.old ≡ Command.EndTurn }
    ensures { Gives (λ _. command_view place.new) result (cursor_at owner.now model.walker_new words.old) }
{
    let (root, filter) = filtered(alloc, owner, words)?;
    put(Command::WalkerNew(root, filter), place);
    Ok(())
}

/// Puts the range's command that goes on with the words into a blank place.
#[inline(never)]
pub fn range_command(
    word: RangeWord,
    owner: &Owner,
    words: &mut WordReader,
    place: &mut Command,
) -> Result<(), NotRead>
    requires { place.old ≡ Command.EndTurn }
    ensures { Gives (λ _. command_view place.new) result (command_behind (range_keyword word) owner.now words.old) }
{
    if matches!(word, RangeWord::New) {
        return put_ended(Command::RangeNew, words, place);
    }
    let range = words.numbered(b'r')?;
    match word {
        RangeWord::New => unreachable!(),
        RangeWord::Start => {
            let (node, offset) = (next_node(owner, words)?, words.number()?);
            put_ended(Command::RangeStart(range, node, offset), words, place)
        }
        RangeWord::End => {
            let (node, offset) = (next_node(owner, words)?, words.number()?);
            put_ended(Command::RangeEnd(range, node, offset), words, place)
        }
        RangeWord::Collapse => {
            let to_start = words.to_start()?;
            put_ended(Command::RangeCollapse(range, to_start), words, place)
        }
        RangeWord::Drop => put_ended(Command::RangeDrop(range), words, place),
        RangeWord::Get => put_ended(Command::RangeGet(range), words, place),
        RangeWord::Text => put_ended(Command::RangeText(range), words, place),
        RangeWord::Extract => put_ended(Command::Extract(range), words, place),
        RangeWord::Delete => put_ended(Command::Delete(range), words, place),
        RangeWord::InsertNode => {
            let node = next_node(owner, words)?;
            put_ended(Command::InsertNode(range, node), words, place)
        }
    }
}

/// Puts the iterator's or walker's command that goes on with the words into a blank place.
#[inline(never)]
pub fn cursor_command(
    alloc: Global,
    word: CursorWord,
    owner: &Owner,
    words: &mut WordReader,
    place: &mut Command,
) -> Result<(), NotRead>
    requires { place.old ≡ Command.EndTurn }
    ensures { Gives (λ _. command_view place.new) result (command_behind (cursor_keyword word) owner.now words.old) }
{
    match word {
        CursorWord::IterNew => iterator_new(alloc, owner, words, place),
        CursorWord::WalkNew => walker_new(alloc, owner, words, place),
        CursorWord::IterNext => {
            put_ended(Command::IteratorNext(words.numbered(b'i')?), words, place)
        }
        CursorWord::IterPrev => {
            put_ended(
                Command::IteratorPrevious(words.numbered(b'i')?),
                words,
                place,
            )
        }
        CursorWord::IterAt => put_ended(Command::IteratorAt(words.numbered(b'i')?), words, place),
        CursorWord::Walk => {
            let (walker, step) = (words.numbered(b'w')?, words.walker_move()?);
            put_ended(Command::Walk(walker, step), words, place)
        }
        CursorWord::WalkAt => put_ended(Command::WalkerAt(words.numbered(b'w')?), words, place),
        CursorWord::WalkSet => {
            let (walker, node) = (words.numbered(b'w')?, next_node(owner, words)?);
            put_ended(Command::WalkerSet(walker, node), words, place)
        }
    }
}
