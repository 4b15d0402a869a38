//! Calls of listeners, records of observers, and microtasks.
ghost use Rattle.std.specs.Prelude.{◌≡◌, List, ◌++◌, ◌∷◌, [], OnOk, OnErr, codes, map, option_copied};
ghost use Rattle.std.specs.Option.{option_map};
ghost use Rattle.dom_model.specs.Output.{event_seen, micro_ran, recorded, says};
ghost use Rattle.dom_text.specs.Text.{change_text, list_text, node_or_null, output_text, record_text, string_or_null};
ghost use Rattle.dom_printer.specs.Lines.{line_text};
ghost use Rattle.dom_printer.specs.Keeping.{Keeps};
ghost use Rattle.dom_printer.specs.Names.{name_view};
ghost use Rattle.dom_printer.specs.Records.{change_view, event_text, event_view, places_text, shown_text};

use crate::buffers::cut_if_refused;
use crate::named::{LentName, Themselves};
use crate::names::{put_list, put_node, put_node_or_null, put_number, put_owner, put_text};
use crate::pieces::{Piece, put_line};
use crate::strings::put_units;
use dom_base::{NodeName, Owner};
use std::alloc::AllocError;

/// A call of a listener: its label, and the event's type, phase (1 to 3), target, current target, related target and the
/// text of its composed path, as `put_path` puts it, as the listener sees them (DOM Standard, interface Event).
#[derive(Clone, Copy)]
pub struct Event<'a> {
    pub label: &'a [u8],
    pub event: &'a [u8],
    pub phase: u8,
    pub target: NodeName,
    pub current: NodeName,
    pub related: Option<NodeName>,
    pub path: &'a [u8],
}

/// What a record tells of a change (DOM Standard, interface MutationRecord). `old` is none where no old value is given.
#[derive(Clone, Copy)]
pub enum Change<'a> {
    ChildList {
        target: LentName<'a>,
        added: &'a [LentName<'a>],
        removed: &'a [LentName<'a>],
        previous: Option<LentName<'a>>,
        next: Option<LentName<'a>>,
    },
    Attributes {
        target: LentName<'a>,
        name: &'a str,
        old: Option<&'a [u16]>,
    },
    CharacterData {
        target: LentName<'a>,
        old: Option<&'a [u16]>,
    },
}

/// Puts a call of a listener of this owner as a line with its end: `event` and what the listener sees, nodes as this owner
/// sees them. The text that is given for the path is put as it is (`line`). Where it is that of a path for this owner, the line is the
/// event's with this path (`ok`), and the same text serves any number of lines. Where memory is refused, the buffer is as before.
///
/// Own rule.
pub fn put_event(out: &mut Vec<u8>, owner: &Owner, event: &Event<'_>) -> Result<(), AllocError>
    ensures line { OnOk result (out.new.items ≡ out.old.items ++ line_text owner.now (event_text owner.now event.now)) }
    ensures ok { OnOk result ((path : List NodeName) → event.now.path.now ≡ list_text owner.now path → out.new.items
        ≡ out.old.items ++ output_text (says owner.now (event_seen (event_view path event.now)) ∷ [])) }
    ensures err { OnErr result (out.new.items ≡ out.old.items) }
{
    let length = out.len();
    let put = put_event_parts(out, owner, event);
    cut_if_refused(out, length, put)
}

/// Puts the line of an event, as far as there is memory.
#[tactic(auto, using(crate::proofs::KeepLaws::keeps_at))]
fn put_event_parts(out: &mut Vec<u8>, owner: &Owner, event: &Event<'_>) -> Result<(), AllocError>
    ensures ok { OnOk result (out.new.items ≡ out.old.items ++ line_text owner.now (event_text owner.now event.now)) }
    ensures err { OnErr result (Keeps out.old.items out.new.items) }
{
    put_owner(out, owner)?;
    put_call(out, owner, event)?;
    Ok(out.push(b'\n')?)
}

/// Puts the call of a listener behind a space, as far as there is memory.
#[tactic(auto, using(crate::proofs::KeepLaws::keeps_at))]
fn put_call(out: &mut Vec<u8>, viewer: &Owner, call: &Event<'_>) -> Result<(), AllocError>
    ensures ok { OnOk result (out.new.items ≡ out.old.items ++ codes " " ++ event_text viewer.now call.now) }
    ensures err { OnErr result (Keeps out.old.items out.new.items) }
{
    put_text(out, *b" event ")?;
    out.extend_from_slice(call.label)?;
    out.push(b' ')?;
    out.extend_from_slice(call.event)?;
    put_places(out, viewer, call)?;
    put_shown(out, viewer, call)
}

/// Puts where a call stands, as far as there is memory.
#[tactic(auto, using(crate::proofs::KeepLaws::keeps_at))]
fn put_places(out: &mut Vec<u8>, viewer: &Owner, call: &Event<'_>) -> Result<(), AllocError>
    ensures ok { OnOk result (out.new.items ≡ out.old.items ++ places_text viewer.now call.now) }
    ensures err { OnErr result (Keeps out.old.items out.new.items) }
{
    put_text(out, *b" phase=")?;
    put_number(out, call.phase as usize)?;
    put_text(out, *b" target=")?;
    put_node(out, viewer, &call.target.owner, call.target.number)?;
    put_text(out, *b" current=")?;
    put_node(out, viewer, &call.current.owner, call.current.number)
}

/// Puts what an event shows to a listener, as far as there is memory.
#[tactic(auto, using(crate::proofs::KeepLaws::keeps_at))]
fn put_shown(out: &mut Vec<u8>, viewer: &Owner, call: &Event<'_>) -> Result<(), AllocError>
    ensures ok { OnOk result (out.new.items ≡ out.old.items ++ shown_text viewer.now call.now) }
    ensures err { OnErr result (Keeps out.old.items out.new.items) }
{
    match &call.related {
        None => put_text(out, *b" related=null path=")?,
        Some(related) => {
            put_text(out, *b" related=")?;
            put_node(out, viewer, &related.owner, related.number)?;
            put_text(out, *b" path=")?;
        }
    }
    out.extend_from_slice(call.path)
}

/// Puts a record of the owner's observer with this number as a line with its end: `record`, the observer, and the change.
/// Where memory is refused, the buffer is as before.
///
/// Own rule.
pub fn put_record(
    out: &mut Vec<u8>,
    owner: &Owner,
    observer: u32,
    change: &Change<'_>,
) -> Result<(), AllocError>
    ensures ok { OnOk result (out.new.items
        ≡ out.old.items ++ output_text (says owner.now (recorded observer (change_view change.now)) ∷ [])) }
    ensures err { OnErr result (out.new.items ≡ out.old.items) }
{
    let length = out.len();
    let put = put_record_parts(out, owner, observer, change);
    cut_if_refused(out, length, put)
}

/// Puts the line of a record, as far as there is memory.
#[tactic(auto, using(crate::proofs::KeepLaws::keeps_at))]
fn put_record_parts(
    out: &mut Vec<u8>,
    owner: &Owner,
    observer: u32,
    change: &Change<'_>,
) -> Result<(), AllocError>
    ensures ok { OnOk result (out.new.items
        ≡ out.old.items ++ line_text owner.now (record_text owner.now observer (change_view change.now))) }
    ensures err { OnErr result (Keeps out.old.items out.new.items) }
{
    put_owner(out, owner)?;
    put_text(out, *b" record o")?;
    put_number(out, observer as usize)?;
    put_change(out, owner, change)?;
    Ok(out.push(b'\n')?)
}

/// Puts a change behind a space, as far as there is memory.
#[tactic(auto, using(crate::proofs::KeepLaws::keeps_at))]
fn put_change(out: &mut Vec<u8>, viewer: &Owner, change: &Change<'_>) -> Result<(), AllocError>
    ensures ok { OnOk result (out.new.items ≡ out.old.items ++ codes " " ++ change_text viewer.now (change_view change.now)) }
    ensures err { OnErr result (Keeps out.old.items out.new.items) }
{
    match change {
        Change::ChildList {
            target,
            added,
            removed,
            previous,
            next,
        } => {
            put_text(out, *b" childList ")?;
            put_node(out, viewer, target.owner, target.number)?;
            put_lists(out, viewer, added, removed)?;
            put_siblings(out, viewer, previous, next)
        }
        Change::Attributes { target, name, old } => {
            put_text(out, *b" attributes ")?;
            put_node(out, viewer, target.owner, target.number)?;
            put_text(out, *b" name=")?;
            out.extend_from_slice(name.as_bytes())?;
            put_old(out, *old)
        }
        Change::CharacterData { target, old } => {
            put_text(out, *b" characterData ")?;
            put_node(out, viewer, target.owner, target.number)?;
            put_old(out, *old)
        }
    }
}

/// Puts the nodes that were added and those that were removed, as far as there is memory.
#[tactic(auto, using(crate::proofs::KeepLaws::keeps_at))]
fn put_lists(
    out: &mut Vec<u8>,
    viewer: &Owner,
    added: &[LentName<'_>],
    removed: &[LentName<'_>],
) -> Result<(), AllocError>
    ensures ok { OnOk result (out.new.items
        ≡ out.old.items ++ codes " added=" ++ list_text viewer.now (map name_view added.now)
        ++ codes " removed=" ++ list_text viewer.now (map name_view removed.now)) }
    ensures err { OnErr result (Keeps out.old.items out.new.items) }
{
    put_text(out, *b" added=")?;
    put_list(out, viewer, &Themselves, added)?;
    put_text(out, *b" removed=")?;
    put_list(out, viewer, &Themselves, removed)
}

/// Puts the siblings between which a change was, as far as there is memory.
#[tactic(auto, using(crate::proofs::KeepLaws::keeps_at))]
fn put_siblings(
    out: &mut Vec<u8>,
    viewer: &Owner,
    previous: &Option<LentName<'_>>,
    next: &Option<LentName<'_>>,
) -> Result<(), AllocError>
    ensures ok { OnOk result (out.new.items
        ≡ out.old.items ++ codes " prev=" ++ node_or_null viewer.now (option_map name_view previous.now)
        ++ codes " next=" ++ node_or_null viewer.now (option_map name_view next.now)) }
    ensures err { OnErr result (Keeps out.old.items out.new.items) }
{
    put_text(out, *b" prev=")?;
    put_node_or_null(out, viewer, previous)?;
    put_text(out, *b" next=")?;
    put_node_or_null(out, viewer, next)
}

/// Puts an old value, or `null` where none is given, as far as there is memory.
#[tactic(auto, using(crate::proofs::KeepLaws::keeps_at))]
fn put_old(out: &mut Vec<u8>, old: Option<&[u16]>) -> Result<(), AllocError>
    ensures ok { OnOk result (out.new.items ≡ out.old.items ++ codes " old=" ++ string_or_null (option_copied old.entry)) }
    ensures err { OnErr result (Keeps out.old.items out.new.items) }
{
    match old {
        None => put_text(out, *b" old=null"),
        Some(units) => {
            put_text(out, *b" old=")?;
            put_units(out, units)
        }
    }
}

/// Puts the run of a microtask of this owner as a line with its end: `micro` and its label. Where memory is refused, the
/// buffer is as before.
///
/// Own rule.
pub fn put_micro(out: &mut Vec<u8>, owner: &Owner, label: &[u8]) -> Result<(), AllocError>
    ensures ok { OnOk result (out.new.items
        ≡ out.old.items ++ output_text (says owner.now (micro_ran label.now) ∷ [])) }
    ensures err { OnErr result (out.new.items ≡ out.old.items) }
{
    put_line(out, owner, &[Piece::Bytes(b"micro ", label)])
}
