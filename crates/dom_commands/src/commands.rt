//! Which handler does a command.
ghost use Rattle.std.specs.Prelude.{◌≡◌, true, false, string_bytes};
ghost use Rattle.dom_model.specs.Command.{new_element, set_attribute};
ghost use Rattle.dom_reader.specs.Views.{command_view, word_view};
ghost use Rattle.dom_admission.specs.Handled.{IsHandled, KeepsNames};
ghost use Rattle.dom_commands.specs.RangeWorlds.{HasFirstNodes};
ghost use Rattle.dom_commands.specs.CommandGroups.{is_plain, is_change, is_wordy_change, is_short_question};

use crate::ranging::perform_on_range;
use dom_admission::State;
use dom_answers::Answers;
use dom_base::{DomStr, Fault, Owner};
use dom_node_commands::{attributes, data, making, moving, shadows};
use dom_query_commands::cursors::{self, Cursor};
use dom_query_commands::things::{self, Request};
use dom_query_commands::{microtasks, observing, reads, selecting};
use dom_reader::{Command, NodeWord};
use std::mem;

/// A command that neither reads listeners nor changes them, by its handler.
pub(crate) fn perform<A: Answers>(
    state: &mut State,
    owner: &Owner,
    command: &mut Command,
    out: &mut A,
) -> Result<(), Fault>
    requires plain { is_plain (command_view command.old) ≡ true }
    requires first { HasFirstNodes state.old.world }
    ensures handled { IsHandled A.adds owner.now (command_view command.old) state.old.world state.new.world out.old out.new result }
    ensures names { KeepsNames state.old.names state.new.names result }
{
    match command {
        Command::NewElement(name) => new_element(state, owner, name, out),
        Command::NewFragment => making::new_fragment(state, owner, out),
        Command::NewDocument => making::new_document(state, owner, out),
        Command::Attach(host) => shadows::attach(state, owner, *host, out),
        Command::Append(parent, node) => moving::append(state, owner, *parent, *node, out),
        Command::Insert(parent, node, child) => moving::insert(
            state, owner, *parent, *node, *child, out,
        ),
        Command::Replace(parent, node, child) => moving::replace(
            state, owner, *parent, *node, *child, out,
        ),
        Command::Remove(node) => moving::remove(state, owner, *node, out),
        Command::Adopt(document, node) => moving::adopt(state, owner, *document, *node, out),
        Command::SetAttribute(element, name, value) => set_attribute(
            state, owner, *element, name, value, out,
        ),
        Command::Split(node, offset) => data::split(state, owner, *node, *offset, out),
        Command::Normalize(node) => data::normalize(state, owner, *node, out),
        Command::NewText(_)
        | Command::NewComment(_)
        | Command::UnsetAttribute(..)
        | Command::SetData(..)
        | Command::ReplaceData(..)
        | Command::SetText(..)
        | Command::Micro(_) => change_in_words(state, owner, command, out),
        _ => ask(state, owner, command, out),
    }
}

/// `new element WORD`, with the word taken out of the command. It is not inlined, so that no other command needs room for the word.
#[inline(never)]
fn new_element<A: Answers>(
    state: &mut State,
    owner: &Owner,
    name: &mut String,
    out: &mut A,
) -> Result<(), Fault>
    ensures handled { IsHandled A.adds owner.now (new_element (string_bytes name.old)) state.old.world state.new.world out.old out.new result }
    ensures names { KeepsNames state.old.names state.new.names result }
{
    let alloc = state.alloc;
    making::new_element(state, owner, mem::replace(name, String::new(alloc)), out)
}

/// `set E WORD STR`, with the word and the string taken out of the command. It is not inlined, so that no other command needs room for
/// them.
#[inline(never)]
fn set_attribute<A: Answers>(
    state: &mut State,
    owner: &Owner,
    element: NodeWord,
    name: &mut String,
    value: &mut DomStr,
    out: &mut A,
) -> Result<(), Fault>
    ensures handled { IsHandled A.adds owner.now (set_attribute (word_view element) (string_bytes name.old) value.old.items) state.old.world
        state.new.world out.old out.new result }
    ensures names { KeepsNames state.old.names state.new.names result }
{
    let alloc = state.alloc;
    let name = mem::replace(name, String::new(alloc));
    let value = mem::replace(value, Vec::new(alloc));
    attributes::set_attribute(state, owner, element, name, value, out)
}

/// Gives another command that makes a change with a word or a string to its handler. The word or string is taken out of the command. It
/// is not inlined, so that no other command needs room for these.
#[inline(never)]
fn change_in_words<A: Answers>(
    state: &mut State,
    owner: &Owner,
    command: &mut Command,
    out: &mut A,
) -> Result<(), Fault>
    requires wordy { is_wordy_change (command_view command.old) ≡ true }
    ensures handled { IsHandled A.adds owner.now (command_view command.old) state.old.world state.new.world out.old out.new result }
    ensures names { KeepsNames state.old.names state.new.names result }
{
    match mem::replace(command, Command::EndTurn) {
        Command::NewText(text) => making::new_text(state, owner, text, out),
        Command::NewComment(text) => making::new_comment(state, owner, text, out),
        Command::UnsetAttribute(element, name) => {
            attributes::unset_attribute(state, owner, element, name, out)
        }
        Command::SetData(node, text) => data::set_data(state, owner, node, text, out),
        Command::ReplaceData(node, offset, count, text) => {
            data::replace_data(state, owner, node, offset, count, text, out)
        }
        Command::SetText(node, text) => data::set_text(state, owner, node, text, out),
        Command::Micro(label) => microtasks::micro(state, *owner, label, out),
        _ => unreachable!(),
    }
}

/// Gives a command that asks or is on live ranges to its handler. It is inlined, since most of these commands do little.
#[inline(always)]
fn ask<A: Answers>(
    state: &mut State,
    owner: &Owner,
    command: &mut Command,
    out: &mut A,
) -> Result<(), Fault>
    requires plain { is_plain (command_view command.old) ≡ true }
    requires unchanging { is_change (command_view command.old) ≡ false }
    requires first { HasFirstNodes state.old.world }
    ensures handled { IsHandled A.adds owner.now (command_view command.old) state.old.world state.new.world out.old out.new result }
    ensures names { KeepsNames state.old.names state.new.names result }
{
    match command {
        Command::Tree(node) => reads::tree(state, *owner, *node, out),
        Command::Parent(node) => reads::parent(state, *owner, *node, out),
        Command::DocumentOf(node) => reads::document_of(state, *owner, *node, out),
        Command::Children(node) => reads::children(state, *owner, *node, out),
        Command::Contains(above, node) => reads::contains(state, *owner, *above, *node, out),
        Command::Connected(node) => reads::connected(state, *owner, *node, out),
        Command::ShadowRoot(element) => shadows::shadow_root(state, owner, *element, out),
        Command::SlotOf(node) => shadows::slot_of(state, owner, *node, out),
        Command::Assigned(slot) => shadows::assigned(state, owner, *slot, out),
        Command::IteratorNext(i) => things::perform(state, *owner, *i, Request::Next, out),
        Command::IteratorPrevious(i) => things::perform(state, *owner, *i, Request::Previous, out),
        Command::IteratorAt(i) => things::perform(state, *owner, *i, Request::Reference, out),
        Command::Walk(w, step) => things::perform(state, *owner, *w, Request::Walk(*step), out),
        Command::WalkerAt(w) => things::perform(state, *owner, *w, Request::Current, out),
        Command::WalkerSet(number, node) => cursors::set_walker(state, *owner, *number, *node, out),
        Command::Observer => observing::new_observer(state, *owner, out),
        Command::Disconnect(o) => things::perform(state, *owner, *o, Request::Disconnect, out),
        Command::Take(number) => observing::take_records(state, *owner, *number, out),
        _ => ask_in_words(state, owner, command, out),
    }
}

/// Gives a command that asks with a text, a filter or the words of `observe`, or is on live ranges, to its handler. It is not inlined, so
/// that no other command needs room for these.
#[inline(never)]
fn ask_in_words<A: Answers>(
    state: &mut State,
    owner: &Owner,
    command: &mut Command,
    out: &mut A,
) -> Result<(), Fault>
    requires plain { is_plain (command_view command.old) ≡ true }
    requires unchanging { is_change (command_view command.old) ≡ false }
    requires wordy { is_short_question (command_view command.old) ≡ false }
    requires first { HasFirstNodes state.old.world }
    ensures handled { IsHandled A.adds owner.now (command_view command.old) state.old.world state.new.world out.old out.new result }
    ensures names { KeepsNames state.old.names state.new.names result }
{
    match mem::replace(command, Command::EndTurn) {
        Command::Attribute(element, name) => attributes::attribute(
            state, owner, element, name, out,
        ),
        Command::IteratorNew(root, filter) => {
            cursors::new_cursor(state, *owner, Cursor::Iterator, (root, filter), out)
        }
        Command::WalkerNew(root, filter) => {
            cursors::new_cursor(state, *owner, Cursor::Walker, (root, filter), out)
        }
        Command::Query(node, text) => selecting::query(state, *owner, node, text, out),
        Command::Matches(element, text) => selecting::matches(state, *owner, element, text, out),
        Command::Observe(number, node, words) => observing::observe(
            state, *owner, number, node, words, out,
        ),
        other => perform_on_range(state, owner, other, out),
    }
}
