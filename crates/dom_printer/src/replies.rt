//! Replies and refusals.
ghost use Rattle.std.specs.Prelude.{◌≡◌, ◌≤◌, ◌+◌, ◌++◌, ◌∷◌, [], IfSome, OnOk, OnErr, codes, map};
ghost use Rattle.std.specs.List.{All};
ghost use Rattle.std.specs.Vec.{vec_len, vec_capacity};
ghost use Rattle.std.specs.Fmt.{decimal};
ghost use Rattle.dom_base.specs.declared.Owner.TheVariants.{Page};
ghost use Rattle.dom_model.specs.Output.{a_list, a_node, boundaries, nothing, reference, replied, says};
ghost use Rattle.dom_text.specs.Text.{list_text, node_text, output_text};
ghost use Rattle.dom_text.specs.Words.{owner_word};
ghost use Rattle.dom_printer.specs.Keeping.{Keeps};
ghost use Rattle.dom_printer.specs.Lines.{line_text};
ghost use Rattle.dom_printer.specs.Replies.{boundary_view, value_view, refusal_output};

use crate::buffers::cut_if_refused;
use crate::named::Names;
use crate::names::{put_lettered, put_list, put_node, put_owner};
use crate::pieces::{Piece, put_line};
use dom_base::{NodeName, Owner, Refusal};
use std::alloc::AllocError;

/// A boundary point: a node and an offset, in children or in code units (DOM Standard, 5.2 Boundary points).
#[derive(Clone, Copy)]
pub struct Boundary {
    pub node: NodeName,
    pub offset: usize,
}

/// What stands behind `ok` in a reply: anything but a list of nodes, which `put_list_reply` prints, and a tree, which `put_tree` does.
#[derive(Clone, Copy)]
pub enum Value<'a> {
    /// `ok` alone.
    Nothing,
    /// `null`: no node, or no string.
    Null,
    Node(NodeName),
    /// A component, by its owner's word.
    Component(Owner),
    /// The number of a range, behind `r`.
    Range(u32),
    /// The number of an iterator, behind `i`.
    Iterator(u32),
    /// The number of a walker, behind `w`.
    Walker(u32),
    /// The number of an observer, behind `o`.
    Observer(u32),
    Str(&'a [u16]),
    Truth(bool),
    Count(usize),
    /// A range's start and end.
    Boundaries { start: Boundary, end: Boundary },
    /// An iterator's reference, and whether the iterator's pointer is before it.
    Reference { node: NodeName, before: bool },
}

/// Puts a reply with its end: the owner's word, `ok`, and the value as this owner sees it. Where memory is refused, the
/// buffer is as before.
///
/// Own rule.
#[inline(always)]
pub fn put_reply(out: &mut Vec<u8>, owner: &Owner, value: &Value<'_>) -> Result<(), AllocError>
    ensures ok { OnOk result (out.new.items
        ≡ out.old.items ++ output_text (says owner.now (replied (value_view value.now)) ∷ [])) }
    ensures err { OnErr result (out.new.items ≡ out.old.items) }
{
    match owner {
        Owner::Page => put_page_value(out, value),
        _ => put_value(out, owner, value),
    }
}

/// Puts the reply that has a node, as `put_reply` does, and makes no room for other values.
#[inline(always)]
pub fn put_node_reply(out: &mut Vec<u8>, owner: &Owner, node: &NodeName) -> Result<(), AllocError>
    ensures ok { OnOk result (out.new.items ≡ out.old.items ++ output_text (says owner.now (replied (a_node node.now)) ∷ [])) }
    ensures err { OnErr result (out.new.items ≡ out.old.items) }
{
    match (owner, &node.owner) {
        (Owner::Page, Owner::Page) => put_page_node(out, node.number),
        _ => put_found(out, owner, node),
    }
}

/// The page, as it stands in its own replies. It stands once, so that no reply makes it anew.
static PAGE: Owner = Owner::Page;

/// Puts the page's reply with its end.
#[inline(always)]
fn put_page_value(out: &mut Vec<u8>, value: &Value<'_>) -> Result<(), AllocError>
    ensures ok { OnOk result (out.new.items ≡ out.old.items ++ output_text (says Page (replied (value_view value.now)) ∷ [])) }
    ensures err { OnErr result (out.new.items ≡ out.old.items) }
{
    match value {
        Value::Nothing => put_page_done(out),
        Value::Null => out.extend_from_slice(b"p ok null\n"),
        Value::Truth(true) => out.extend_from_slice(b"p ok true\n"),
        Value::Truth(false) => out.extend_from_slice(b"p ok false\n"),
        Value::Node(
            NodeName {
                owner: Owner::Page,
                number,
            },
        ) => put_page_node(out, *number),
        _ => put_value(out, &PAGE, value),
    }
}

/// Puts the page's reply that has no value. Where there is room for its few bytes they are copied in line.
#[inline(always)]
fn put_page_done(out: &mut Vec<u8>) -> Result<(), AllocError>
    ensures ok { OnOk result (out.new.items ≡ out.old.items ++ output_text (says Page (replied nothing) ∷ [])) }
    ensures err { OnErr result (out.new.items ≡ out.old.items) }
{
    if out.capacity() - out.len() < b"p ok\n".len() {
        return put_page_done_growing(out);
    }
    out.extend_from_slice(b"p ok\n")
}

/// Puts the page's reply that has no value, and makes the room for it.
#[inline(never)]
fn put_page_done_growing(out: &mut Vec<u8>) -> Result<(), AllocError>
    ensures ok { OnOk result (out.new.items ≡ out.old.items ++ output_text (says Page (replied nothing) ∷ [])) }
    ensures err { OnErr result (out.new.items ≡ out.old.items) }
{
    out.extend_from_slice(b"p ok\n")
}

/// How many bytes the page's reply that has a node of its own takes at most while it is put.
const NODE_ROOM: usize = 21;

/// Puts the page's reply that has a node of its own, and asks once for the room of all of it.
fn put_page_node(out: &mut Vec<u8>, number: u32) -> Result<(), AllocError>
    ensures ok { OnOk result (out.new.items ≡ out.old.items ++ line_text Page (codes "ok n" ++ decimal number)) }
    ensures err { OnErr result (out.new.items ≡ out.old.items) }
{
    if out.capacity() - out.len() < NODE_ROOM {
        return put_page_node_growing(out, number);
    }
    put_page_node_within(out, number)
}

/// Puts the page's reply that has a node of its own, and makes the room for it.
#[inline(never)]
fn put_page_node_growing(out: &mut Vec<u8>, number: u32) -> Result<(), AllocError>
    ensures ok { OnOk result (out.new.items ≡ out.old.items ++ line_text Page (codes "ok n" ++ decimal number)) }
    ensures err { OnErr result (out.new.items ≡ out.old.items) }
{
    out.reserve(NODE_ROOM)?;
    put_page_node_within(out, number)
}

/// Puts the page's reply that has a node of its own, where there is room for all of it.
#[inline(always)]
fn put_page_node_within(out: &mut Vec<u8>, number: u32) -> Result<(), AllocError>
    requires { vec_len out.old + 21 ≤ vec_capacity out.old }
    ensures ok { OnOk result (out.new.items ≡ out.old.items ++ line_text Page (codes "ok n" ++ decimal number)) }
    ensures err { OnErr result (out.new.items ≡ out.old.items) }
{
    out.extend_from_slice(b"p ok ")?;
    put_lettered(out, 0, b'n', number, 1)
}

/// The digit of a component's word that is `c` and this digit.
fn only_digit(owner: &Owner) -> Option<u8>
    ensures { IfSome result (λ digit. owner_word owner.now ≡ 99 ∷ digit ∷ []) }
{
    let Owner::Component(component) = owner else {
        return None;
    };
    match component.numbers() {
        [number] if *number < 10 => Some(b'0' + *number as u8),
        _ => None,
    }
}

/// Puts the reply that has no value, at once where the owner's word is short.
fn put_done(out: &mut Vec<u8>, owner: &Owner) -> Result<(), AllocError>
    ensures ok { OnOk result (out.new.items ≡ out.old.items ++ output_text (says owner.now (replied nothing) ∷ [])) }
    ensures err { OnErr result (out.new.items ≡ out.old.items) }
{
    if let Some(digit) = only_digit(owner) {
        return out.extend_from_slice(&[b'c', digit, b' ', b'o', b'k', b'\n']);
    }
    let length = out.len();
    let put = put_done_parts(out, owner);
    cut_if_refused(out, length, put)
}

/// Puts that reply, as far as there is memory.
#[tactic(auto, using(crate::proofs::KeepLaws::keeps_at))]
fn put_done_parts(out: &mut Vec<u8>, owner: &Owner) -> Result<(), AllocError>
    ensures ok { OnOk result (out.new.items ≡ out.old.items ++ line_text owner.now (codes "ok")) }
    ensures err { OnErr result (Keeps out.old.items out.new.items) }
{
    put_owner(out, owner)?;
    out.extend_from_slice(b" ok\n")
}

/// Puts the reply that has a node, of whatever owners.
#[inline(never)]
fn put_found(out: &mut Vec<u8>, owner: &Owner, node: &NodeName) -> Result<(), AllocError>
    ensures ok { OnOk result (out.new.items ≡ out.old.items ++ output_text (says owner.now (replied (a_node node.now)) ∷ [])) }
    ensures err { OnErr result (out.new.items ≡ out.old.items) }
{
    let length = out.len();
    let put = put_found_parts(out, owner, node);
    cut_if_refused(out, length, put)
}

/// Puts that reply, as far as there is memory.
#[tactic(auto, using(crate::proofs::KeepLaws::keeps_at))]
fn put_found_parts(out: &mut Vec<u8>, owner: &Owner, node: &NodeName) -> Result<(), AllocError>
    ensures ok { OnOk result (out.new.items ≡ out.old.items ++ line_text owner.now (codes "ok " ++ node_text owner.now node.now)) }
    ensures err { OnErr result (Keeps out.old.items out.new.items) }
{
    put_owner(out, owner)?;
    out.extend_from_slice(b" ok ")?;
    put_node(out, owner, &node.owner, node.number)?;
    Ok(out.push(b'\n')?)
}

/// Puts the reply that has nodes in brackets, with commas between them, and its end; the nodes stand in this order, as this owner sees
/// them. Where memory is refused, the buffer is as before.
///
/// Own rule.
pub fn put_list_reply<T, N: Names<T>>(
    out: &mut Vec<u8>,
    owner: &Owner,
    names: &N,
    nodes: &[T],
) -> Result<(), AllocError>
    requires { All (N.knows names.now) nodes.now }
    ensures ok { OnOk result (out.new.items
        ≡ out.old.items ++ output_text (says owner.now (replied (a_list (map (N.name names.now) nodes.now))) ∷ [])) }
    ensures err { OnErr result (out.new.items ≡ out.old.items) }
{
    let length = out.len();
    let put = put_list_parts(out, owner, names, nodes);
    cut_if_refused(out, length, put)
}

/// Puts that reply, as far as there is memory.
#[tactic(auto, using(crate::proofs::KeepLaws::keeps_at))]
fn put_list_parts<T, N: Names<T>>(
    out: &mut Vec<u8>,
    owner: &Owner,
    names: &N,
    nodes: &[T],
) -> Result<(), AllocError>
    requires { All (N.knows names.now) nodes.now }
    ensures ok { OnOk result (out.new.items
        ≡ out.old.items ++ line_text owner.now (codes "ok " ++ list_text owner.now (map (N.name names.now) nodes.now))) }
    ensures err { OnErr result (Keeps out.old.items out.new.items) }
{
    put_owner(out, owner)?;
    out.extend_from_slice(b" ok ")?;
    put_list(out, owner, names, nodes)?;
    Ok(out.push(b'\n')?)
}

/// Puts a reply with its end, whatever its value.
fn put_value(out: &mut Vec<u8>, owner: &Owner, value: &Value<'_>) -> Result<(), AllocError>
    ensures ok { OnOk result (out.new.items
        ≡ out.old.items ++ output_text (says owner.now (replied (value_view value.now)) ∷ [])) }
    ensures err { OnErr result (out.new.items ≡ out.old.items) }
{
    let piece = match value {
        Value::Nothing => return put_done(out, owner),
        Value::Node(node) => return put_found(out, owner, node),
        Value::Null => Piece::Text(b"ok null"),
        Value::Component(component) => Piece::Owner(b"ok ", component),
        Value::Range(number) => Piece::Number(b"ok r", *number as usize),
        Value::Iterator(number) => Piece::Number(b"ok i", *number as usize),
        Value::Walker(number) => Piece::Number(b"ok w", *number as usize),
        Value::Observer(number) => Piece::Number(b"ok o", *number as usize),
        Value::Str(units) => Piece::Units(b"ok ", units),
        Value::Truth(true) => Piece::Text(b"ok true"),
        Value::Truth(false) => Piece::Text(b"ok false"),
        Value::Count(count) => Piece::Number(b"ok ", *count),
        Value::Boundaries { start, end } => return put_boundaries(out, owner, start, end),
        Value::Reference { node, before } => return put_reference(out, owner, node, *before),
    };
    put_line(out, owner, &[piece])
}

/// Puts the reply that has an iterator's reference, and whether its pointer is before that.
fn put_reference(
    out: &mut Vec<u8>,
    owner: &Owner,
    node: &NodeName,
    before: bool,
) -> Result<(), AllocError>
    ensures ok { OnOk result (out.new.items
        ≡ out.old.items ++ output_text (says owner.now (replied (reference node.now before)) ∷ [])) }
    ensures err { OnErr result (out.new.items ≡ out.old.items) }
{
    let side = if before {
        Piece::Text(b" before")
    } else {
        Piece::Text(b" after")
    };
    put_line(out, owner, &[Piece::Node(b"ok ", node), side])
}

/// Puts the reply that has a range's start and end.
fn put_boundaries<'a>(
    out: &mut Vec<u8>,
    owner: &Owner,
    start: &'a Boundary,
    end: &'a Boundary,
) -> Result<(), AllocError>
    ensures ok { OnOk result (out.new.items
        ≡ out.old.items ++ output_text (says owner.now (replied (boundaries (boundary_view start.now) (boundary_view end.now))) ∷ [])) }
    ensures err { OnErr result (out.new.items ≡ out.old.items) }
{
    let pieces = [
        Piece::Node(b"ok ", &start.node),
        Piece::Number(b" ", start.offset),
        Piece::Node(b" ", &end.node),
        Piece::Number(b" ", end.offset),
    ];
    put_line(out, owner, &pieces)
}

/// Puts a refusal with its end: the owner's word, `!` and the refusal's word; of a line that has no owner `! owner`,
/// whatever the refusal. Where memory is refused, the buffer is as before.
///
/// Own rule.
pub fn put_refusal(
    out: &mut Vec<u8>,
    owner: Option<Owner>,
    refusal: Refusal,
) -> Result<(), AllocError>
    ensures ok { OnOk result (out.new.items
        ≡ out.old.items ++ output_text (refusal_output owner refusal ∷ [])) }
    ensures err { OnErr result (out.new.items ≡ out.old.items) }
{
    match owner {
        None => out.extend_from_slice(b"! owner\n"),
        Some(owner) => put_line(
            out,
            &owner,
            &[Piece::Bytes(b"! ", refusal.word().as_bytes())],
        ),
    }
}
