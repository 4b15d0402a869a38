//! Deliveries as C has them. None is given for what the numbers of C can't say.

ghost use Rattle.std.specs.Prelude.{◌≡◌, IfSome, OnOk, map, if◌then◌else◌, ◌==◌, None, Some};
ghost use Rattle.dom_answers.specs.declared.items.Said.TheVariants.{Event, Record};
ghost use Rattle.dom_calls.specs.Arrays.{empty_delivery, item_in, span_in, told_in};

use crate::arrays::span_of;
use crate::owners::{node_of, node_or_none, place_of};
use crate::structs::{DomDelivery, DomSpan, NONE};
use dom_answers::{Call, Item, Mutation, Said, Span};
use dom_base::{Fault, Owner};

/// No part of an array.
const NOTHING: DomSpan = DomSpan { at: 0, count: 0 };

/// A delivery that has nothing but a kind and whose it is.
fn empty(kind: u32, owner: u32, number: u32) -> DomDelivery
    ensures { result ≡ empty_delivery kind owner number }
{
    DomDelivery {
        kind,
        owner,
        number,
        flags: 0,
        target: NONE,
        current: NONE,
        related: NONE,
        previous: NONE,
        next: NONE,
        label: NOTHING,
        name: NOTHING,
        path: NOTHING,
        added: NOTHING,
        removed: NOTHING,
        old_value: NOTHING,
        has_old_value: 0,
    }
}

/// An event that a listener is told.
fn event_of(owners: &[Owner], owner: u32, call: &Call) -> Option<DomDelivery>
    ensures told { IfSome result (λ made. told_in owners.now made ≡ Event call.now) }
    ensures owner { IfSome result (λ made. made.owner ≡ owner) }
{
    Some(DomDelivery {
        target: node_of(owners, &call.target)?,
        current: node_of(owners, &call.current)?,
        related: node_or_none(owners, &call.related)?,
        label: span_of(call.label)?,
        name: span_of(call.event)?,
        path: span_of(call.path)?,
        ..empty(1, owner, call.phase as u32)
    })
}

/// An old value, and 1 if there is one.
fn old_of(old: &Option<Span>) -> Option<(DomSpan, u32)>
    ensures { IfSome result (λ made. (if made.1 == 0 then None else Some (span_in made.0)) ≡ old.now) }
{
    match old {
        Some(span) => Some((span_of(*span)?, 1)),
        None => Some((NOTHING, 0)),
    }
}

/// A record that an observer is told.
fn record_of(
    owners: &[Owner],
    owner: u32,
    observer: u32,
    mutation: &Mutation,
) -> Option<DomDelivery>
    ensures told { IfSome result (λ made. told_in owners.now made ≡ Record observer mutation.now) }
    ensures owner { IfSome result (λ made. made.owner ≡ owner) }
{
    match mutation {
        Mutation::ChildList {
            target,
            added,
            removed,
            previous,
            next,
        } => Some(DomDelivery {
            target: node_of(owners, target)?,
            added: span_of(*added)?,
            removed: span_of(*removed)?,
            previous: node_or_none(owners, previous)?,
            next: node_or_none(owners, next)?,
            ..empty(2, owner, observer)
        }),
        Mutation::Attributes { target, name, old } => {
            let (old_value, has_old_value) = old_of(old)?;
            Some(DomDelivery {
                target: node_of(owners, target)?,
                name: span_of(*name)?,
                old_value,
                has_old_value,
                ..empty(3, owner, observer)
            })
        }
        Mutation::CharacterData { target, old } => {
            let (old_value, has_old_value) = old_of(old)?;
            Some(DomDelivery {
                target: node_of(owners, target)?,
                old_value,
                has_old_value,
                ..empty(4, owner, observer)
            })
        }
    }
}

/// An item as C has it. Replies and refusals are no deliveries.
fn delivery_of(owners: &[Owner], item: &Item) -> Option<DomDelivery>
    ensures { IfSome result (λ made. item_in owners.now made ≡ item.now) }
{
    let Item::Says(owner, said) = item else {
        return None;
    };
    let owner = place_of(owners, owner)?;
    match said {
        Said::Event(call) => event_of(owners, owner, call),
        Said::Record(observer, mutation) => record_of(owners, owner, *observer, mutation),
        Said::Microtask(label) => Some(DomDelivery {
            label: span_of(*label)?,
            ..empty(5, owner, 0)
        }),
        Said::Replied(_) | Said::Refused(_) => None,
    }
}

/// Puts deliveries in place of what an array holds.
pub(crate) fn put_deliveries(
    out: &mut Vec<DomDelivery>,
    owners: &[Owner],
    items: &[Item],
) -> Result<(), Fault>
    ensures { OnOk result (map (item_in owners.now) out.new.items ≡ items.now) }
{
    out.clear();
    for item in items {
        out.push(delivery_of(owners, item).ok_or(Fault::Memory)?)?;
    }
    Ok(())
}
