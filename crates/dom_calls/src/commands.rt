//! Commands that own texts: they are made of bytes and code units that are lent. Bytes that are no UTF-8 are read with U+FFFD in place of what is none,
//! which stands in no name.

ghost use Rattle.std.specs.Prelude.{◌≡◌, true, false, IfOk, Ok, Err, Some, None, string_bytes, option_map};
ghost use Rattle.dom_base.specs.declared.Refusal.{Refusal as Refusals};
ghost use Rattle.dom_base.specs.declared.Refusal.TheVariants.{Syntax};
ghost use Rattle.std.specs.Str.Lossy.{utf8_lossy};
ghost use Rattle.dom_base.specs.declared.Fault.TheVariants.{Refused};
ghost use Rattle.dom_model.specs.Command as model;
ghost use Rattle.dom_reader.specs.Views.{command_view, word_view, filter_view};
ghost use Rattle.dom_calls.specs.Asked.{IsAsked, IsMemory, asks_event, asks_iterator, asks_listener, asks_micro, asks_move, asks_observer};
ghost use Rattle.dom_calls.specs.Asked.{asks_unlisten, asks_walker, filter_with, is_label as spec_is_label, related_at};
ghost use Rattle.dom_calls.specs.Owners.{word_at};

use crate::structs::{DomNode, NONE};
use crate::words::{cursor_filter, has, is_label, is_within, listener_action};
use dom_base::{DomStr, Fault, Move, Refusal};
use dom_reader::{Command, EventWords, Filter, ListenerWords, NodeWord};
use std::alloc::Global;

/// A node as a command of an owner names it: its own, or another owner's.
pub fn word(owner: u32, node: DomNode) -> NodeWord
    ensures { word_view result ≡ word_at owner node }
{
    if node.owner == owner {
        NodeWord::Own(node.number)
    } else {
        NodeWord::Foreign
    }
}

/// A command that owns no text, as what the words of a call ask.
pub fn asked(command: Command) -> Result<Command, Fault>
    ensures { IsAsked result (Ok (command_view command)) }
{
    Ok(command)
}

/// A name as a text of its own.
pub(crate) fn name_of(alloc: Global, bytes: &[u8]) -> Result<String, Fault>
    ensures ok { IfOk result (λ text. string_bytes text ≡ utf8_lossy bytes.now) }
    ensures err { IsMemory result }
{
    Ok(String::from_utf8_lossy(alloc, bytes)?)
}

/// Code units as a string of its own.
fn string_of(alloc: Global, units: &[u16]) -> Result<DomStr, Fault>
    ensures ok { IfOk result (λ text. text.items ≡ units.now) }
    ensures err { IsMemory result }
{
    Ok(Vec::from_slice(alloc, units)?)
}

/// A label as a text of its own; other bytes are refused.
fn label_of(alloc: Global, bytes: &[u8]) -> Result<String, Fault>
    ensures ok { IfOk result (λ text. (string_bytes text ≡ utf8_lossy bytes.now) × (spec_is_label bytes.now ≡ true)) }
    ensures err { (r : Refusals) → result ≡ Err (Refused r) → (r ≡ Syntax) × (spec_is_label bytes.now ≡ false) }
{
    if !is_label(bytes) {
        return Err(Fault::Refused(Refusal::Syntax));
    }
    name_of(alloc, bytes)
}

/// Makes an element.
pub fn new_element(alloc: Global, name: &[u8]) -> Result<Command, Fault>
    ensures { IsAsked result (Ok (model.new_element (utf8_lossy name.now))) }
{
    Ok(Command::NewElement(name_of(alloc, name)?))
}

/// Makes a Text.
pub fn new_text(alloc: Global, units: &[u16]) -> Result<Command, Fault>
    ensures { IsAsked result (Ok (model.new_text units.now)) }
{
    Ok(Command::NewText(string_of(alloc, units)?))
}

/// Makes a Comment.
pub fn new_comment(alloc: Global, units: &[u16]) -> Result<Command, Fault>
    ensures { IsAsked result (Ok (model.new_comment units.now)) }
{
    Ok(Command::NewComment(string_of(alloc, units)?))
}

/// Sets an attribute.
pub fn set_attribute(
    alloc: Global,
    element: NodeWord,
    name: &[u8],
    units: &[u16],
) -> Result<Command, Fault>
    ensures { IsAsked result (Ok (model.set_attribute (word_view element) (utf8_lossy name.now) units.now)) }
{
    let name = name_of(alloc, name)?;
    Ok(Command::SetAttribute(element, name, string_of(alloc, units)?))
}

/// Removes an attribute.
pub fn unset_attribute(alloc: Global, element: NodeWord, name: &[u8]) -> Result<Command, Fault>
    ensures { IsAsked result (Ok (model.unset_attribute (word_view element) (utf8_lossy name.now))) }
{
    Ok(Command::UnsetAttribute(element, name_of(alloc, name)?))
}

/// Asks for an attribute.
pub fn attribute(alloc: Global, element: NodeWord, name: &[u8]) -> Result<Command, Fault>
    ensures { IsAsked result (Ok (model.attribute (word_view element) (utf8_lossy name.now))) }
{
    Ok(Command::Attribute(element, name_of(alloc, name)?))
}

/// Sets the data of a Text or a Comment.
pub fn set_data(alloc: Global, node: NodeWord, units: &[u16]) -> Result<Command, Fault>
    ensures { IsAsked result (Ok (model.set_data (word_view node) units.now)) }
{
    Ok(Command::SetData(node, string_of(alloc, units)?))
}

/// Replaces data.
pub fn replace_data(
    alloc: Global,
    node: NodeWord,
    offset: u32,
    count: u32,
    units: &[u16],
) -> Result<Command, Fault>
    ensures { IsAsked result (Ok (model.replace_data (word_view node) offset count units.now)) }
{
    Ok(Command::ReplaceData(node, offset, count, string_of(alloc, units)?))
}

/// Sets the text content of a node.
pub fn set_text(alloc: Global, node: NodeWord, units: &[u16]) -> Result<Command, Fault>
    ensures { IsAsked result (Ok (model.set_text (word_view node) units.now)) }
{
    Ok(Command::SetText(node, string_of(alloc, units)?))
}

/// Asks for the elements below a node that match a selector.
pub fn query(alloc: Global, node: NodeWord, units: &[u16]) -> Result<Command, Fault>
    ensures { IsAsked result (Ok (model.query (word_view node) units.now)) }
{
    Ok(Command::Query(node, string_of(alloc, units)?))
}

/// Asks whether an element matches a selector.
pub fn matches(alloc: Global, element: NodeWord, units: &[u16]) -> Result<Command, Fault>
    ensures { IsAsked result (Ok (model.matches (word_view element) units.now)) }
{
    Ok(Command::Matches(element, string_of(alloc, units)?))
}

/// The filter of an iterator or a walker: `what_to_show` has the Standard's bits, the verdict is 1 (there is no name), 2 (reject) or 3 (skip).
fn filter_of(alloc: Global, what_to_show: u32, verdict: u32, name: &[u8]) -> Result<Filter, Fault>
    ensures ok { IfOk result (λ filter. filter_with what_to_show verdict name.now ≡ Some (filter_view filter)) }
    ensures err { (r : Refusals) → result ≡ Err (Refused r) → (r ≡ Syntax) × (filter_with what_to_show verdict name.now ≡ None) }
{
    cursor_filter(what_to_show, verdict, name_of(alloc, name)?)
}

/// Makes an iterator.
pub fn new_iterator(
    alloc: Global,
    root: NodeWord,
    what_to_show: u32,
    verdict: u32,
    name: &[u8],
) -> Result<Command, Fault>
    ensures { IsAsked result (asks_iterator (word_view root) what_to_show verdict name.now) }
{
    Ok(Command::IteratorNew(root, filter_of(alloc, what_to_show, verdict, name)?))
}

/// Makes a walker.
pub fn new_walker(
    alloc: Global,
    root: NodeWord,
    what_to_show: u32,
    verdict: u32,
    name: &[u8],
) -> Result<Command, Fault>
    ensures { IsAsked result (asks_walker (word_view root) what_to_show verdict name.now) }
{
    Ok(Command::WalkerNew(root, filter_of(alloc, what_to_show, verdict, name)?))
}

/// Moves a walker: the moves are numbered from 0 on, as `OWL_MOVE_PARENT` and the others.
pub fn walk(walker: u32, step: u32) -> Result<Command, Fault>
    ensures { IsAsked result (asks_move walker step) }
{
    let step = match step {
        0 => Move::Parent,
        1 => Move::First,
        2 => Move::Last,
        3 => Move::Next,
        4 => Move::Previous,
        5 => Move::NextSibling,
        6 => Move::PreviousSibling,
        _ => return Err(Fault::Refused(Refusal::Syntax)),
    };
    Ok(Command::Walk(walker, step))
}

/// Adds a listener, with the flags capture (1), once (2) and passive (4).
pub fn listen(
    alloc: Global,
    node: NodeWord,
    event: &[u8],
    label: &[u8],
    action: u32,
    flags: u32,
) -> Result<Command, Fault>
    ensures { IsAsked result (asks_listener (word_view node) event.now label.now action flags) }
{
    if !is_within(flags, 7) {
        return Err(Fault::Refused(Refusal::Syntax));
    }
    let words = ListenerWords {
        event: label_of(alloc, event)?,
        label: label_of(alloc, label)?,
        action: listener_action(action)?,
        capture: has(flags, 1),
        once: has(flags, 2),
        passive: has(flags, 4),
    };
    Ok(Command::Listen(node, words))
}

/// Removes a listener, with the flag capture (1).
pub fn unlisten(
    alloc: Global,
    node: NodeWord,
    event: &[u8],
    label: &[u8],
    flags: u32,
) -> Result<Command, Fault>
    ensures { IsAsked result (asks_unlisten (word_view node) event.now label.now flags) }
{
    if !is_within(flags, 1) {
        return Err(Fault::Refused(Refusal::Syntax));
    }
    let event = label_of(alloc, event)?;
    Ok(Command::Unlisten(node, event, label_of(alloc, label)?, has(flags, 1)))
}

/// Fires an event, with the flags bubbles (8), cancelable (16) and composed (32), and a related node or `NONE`.
pub fn dispatch(
    alloc: Global,
    owner: u32,
    node: DomNode,
    event: &[u8],
    flags: u32,
    related: DomNode,
) -> Result<Command, Fault>
    ensures { IsAsked result (asks_event owner node event.now flags related) }
{
    if !is_within(flags, 56) {
        return Err(Fault::Refused(Refusal::Syntax));
    }
    let words = EventWords {
        event: label_of(alloc, event)?,
        bubbles: has(flags, 8),
        cancelable: has(flags, 16),
        composed: has(flags, 32),
    };
    Ok(Command::Dispatch(word(owner, node), words, related_word(owner, related)))
}

/// A related node, if it is one.
fn related_word(owner: u32, related: DomNode) -> Option<NodeWord>
    ensures { option_map word_view result ≡ related_at owner related }
{
    if related.owner == NONE.owner {
        return None;
    }
    Some(word(owner, related))
}

/// Makes an observer. Live ones are not supported.
pub fn new_observer(is_live: bool) -> Result<Command, Fault>
    ensures { IsAsked result (asks_observer is_live) }
{
    if is_live {
        return Err(Fault::Refused(Refusal::NotSupported));
    }
    Ok(Command::Observer)
}

/// Queues a microtask. Live ones are not supported.
pub fn micro(alloc: Global, label: &[u8], is_live: bool) -> Result<Command, Fault>
    ensures { IsAsked result (asks_micro label.now is_live) }
{
    let label = label_of(alloc, label)?;
    if is_live {
        return Err(Fault::Refused(Refusal::NotSupported));
    }
    Ok(Command::Micro(label))
}
