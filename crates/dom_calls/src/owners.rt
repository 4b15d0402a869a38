//! The table of owners: who an owner is by its place.
ghost use Rattle.std.specs.Prelude.{◌≡◌, ◌<◌, ◌==◌, false, IfSome, length};
ghost use Rattle.dom_calls.specs.Owners.{is_none, named_in, node_option, owner_in as spec_owner_in};

use crate::structs::{DomNode, NONE};
use dom_base::{NodeName, Owner, OwnerPath};

/// Who stands at a place that the table does not have: a component that no attach makes, since components are counted from 1 on.
static NOBODY: Owner = Owner::Component(OwnerPath {
    depth: 1,
    parts: [0; 8],
});

/// The owner at a place.
pub(crate) fn owner_in(owners: &[Owner], place: u32) -> &Owner
    ensures { result.now ≡ spec_owner_in owners.now place }
{
    match owners.get(place as usize) {
        Some(owner) => owner,
        None => &NOBODY,
    }
}

/// The place of an owner. None if the table does not have it, which is so of no owner that a document tells of, or if 32 bits don't say it.
pub(crate) fn place_of(owners: &[Owner], owner: &Owner) -> Option<u32>
    ensures owner { IfSome result (λ place. spec_owner_in owners.now place ≡ owner.now) }
    ensures place { IfSome result (λ place. place < 4294967295) }
{
    for at in 0..owners.len() {
        let place = narrowed(at)?;
        if *owner_in(owners, place) == *owner {
            return Some(place);
        }
    }
    None
}

/// A number of 32 bits that is not the largest, which stands for no node. None if it is larger.
pub(crate) fn narrowed(number: usize) -> Option<u32>
    ensures same { IfSome result (λ narrow. narrow ≡ number) }
    ensures less { IfSome result (λ narrow. narrow < 4294967295) }
{
    if number < 4_294_967_295 {
        Some(number as u32)
    } else {
        None
    }
}

/// A node as C has it.
pub(crate) fn node_of(owners: &[Owner], name: &NodeName) -> Option<DomNode>
    ensures name { IfSome result (λ node. named_in owners.now node ≡ name.now) }
    ensures some { IfSome result (λ node. is_none node ≡ false) }
{
    let owner = place_of(owners, &name.owner)?;
    Some(DomNode {
        owner,
        number: name.number,
    })
}

/// A node, or that there is none, as C has it.
pub(crate) fn node_or_none(owners: &[Owner], name: &Option<NodeName>) -> Option<DomNode>
    ensures { IfSome result (λ node. node_option owners.now node ≡ name.now) }
{
    match name {
        Some(name) => node_of(owners, name),
        None => Some(NONE),
    }
}
