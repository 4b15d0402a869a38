//! Numbers, owners and nodes.
ghost use Rattle.std.specs.Prelude.{◌≡◌, ◌≤◌, ◌+◌, ◌++◌, ◌∷◌, [], codes, drop, length, map, take, IsOk, OnOk, OnErr};
ghost use Rattle.std.specs.Vec.{vec_len, vec_capacity};
ghost use Rattle.std.specs.Fmt.{decimal};
ghost use Rattle.std.specs.List.{flat_map, All};
ghost use Rattle.std.specs.Option.{option_map};
ghost use Rattle.dom_base.specs.declared.Owner.TheVariants.{Component};
ghost use Rattle.dom_text.specs.Text.{node_text_of, node_or_null, next_node_text, list_text};
ghost use Rattle.dom_text.specs.Words.{next_number_text, component_word, owner_word};
ghost use Rattle.dom_printer.specs.Keeping.{Keeps};
ghost use Rattle.dom_printer.specs.Names.{name_view};

use crate::buffers::cut_if_refused;
use crate::named::{LentName, Names, Themselves};
use dom_base::{NodeName, Owner, OwnerPath};
use itoa::{Buffer, write_digits};
use std::alloc::AllocError;

/// Puts a text of known length, so that it is copied at once.
#[inline(always)]
pub(crate) fn put_text<const N: usize>(out: &mut Vec<u8>, text: [u8; N]) -> Result<(), AllocError>
    ensures ok { OnOk result (out.new.items ≡ out.old.items ++ text.entry) }
    ensures err { OnErr result (out.new.items ≡ out.old.items) }
{
    out.extend_from_slice(&text)
}

/// Puts a number's digits.
#[inline(always)]
pub(crate) fn put_number(out: &mut Vec<u8>, number: usize) -> Result<(), AllocError>
    ensures ok { OnOk result (out.new.items ≡ out.old.items ++ decimal number) }
    ensures err { OnErr result (Keeps out.old.items out.new.items) }
{
    if number < 10 {
        return Ok(out.push(b'0' + number as u8)?);
    }
    put_digits(out, number)
}

/// Puts a number's digits, as of one that has several.
#[inline(never)]
fn put_digits(out: &mut Vec<u8>, number: usize) -> Result<(), AllocError>
    ensures ok { OnOk result (out.new.items ≡ out.old.items ++ decimal number) }
    ensures err { OnErr result (Keeps out.old.items out.new.items) }
{
    let mut buffer = Buffer::new();
    out.extend_from_slice(buffer.format(number).as_bytes())
}

/// Puts a letter and a number's digits, a comma where one byte is wanted before them, and the line's end where one is wanted behind them.
/// So many bytes are copied, whatever the number, that they are copied at once; those that are too many are then cut off.
#[inline(always)]
pub(crate) fn put_lettered(
    out: &mut Vec<u8>,
    before: usize,
    letter: u8,
    number: u32,
    behind: usize,
) -> Result<(), AllocError>
    requires before { before ≤ 1 }
    requires behind { behind ≤ 1 }
    ensures ok { OnOk result (out.new.items
        ≡ out.old.items ++ (take before (44 ∷ []) ++ letter ∷ decimal number) ++ take behind (10 ∷ [])) }
    ensures succeeds { vec_len out.old + 16 ≤ vec_capacity out.old → IsOk result }
    ensures err { OnErr result (out.new.items ≡ out.old.items) }
{
    let mut text = *b"000000000000\n                   ";
    let start = write_digits(number as u64, &mut text, 12);
    let first = write_letter(&mut text, start, before, letter);
    out.extend_from_slice(&text[first..first + 16])?;
    out.truncate(out.len() - (first + 4 - behind));
    Ok(())
}

/// Writes a letter in front of a place, and a comma in front of that where one byte is wanted before it. It returns where they start.
#[inline(always)]
fn write_letter(text: &mut [u8], start: usize, before: usize, letter: u8) -> usize
    requires before { before ≤ 1 }
    requires start { (2 ≤ start) × (start ≤ length text.old) }
    ensures start { result + 1 + before ≡ start }
    ensures written { drop result text.new ≡ take before (44 ∷ []) ++ letter ∷ drop start text.old }
    ensures length { length text.new ≡ length text.old }
{
    text[start - 1] = letter;
    if before == 0 {
        return start - 1;
    }
    text[start - 2] = b',';
    start - 2
}

/// Puts a letter and a number's digits, of which there is often one.
#[inline(always)]
fn put_short(out: &mut Vec<u8>, letter: u8, number: u32) -> Result<(), AllocError>
    ensures ok { OnOk result (out.new.items ≡ out.old.items ++ (letter ∷ decimal number)) }
    ensures err { OnErr result (out.new.items ≡ out.old.items) }
{
    if number < 10 {
        out.extend_from_slice(&[letter, b'0' + number as u8])
    } else {
        put_long(out, letter, number)
    }
}

/// How many bytes a letter and a number's digits take at most while they are put.
const LETTERED_ROOM: usize = 16;

/// Puts a letter and a number's digits, as of one that has several. It is kept out of line, so that all nodes share it.
#[inline(never)]
fn put_long(out: &mut Vec<u8>, letter: u8, number: u32) -> Result<(), AllocError>
    ensures ok { OnOk result (out.new.items ≡ out.old.items ++ (letter ∷ decimal number)) }
    ensures err { OnErr result (out.new.items ≡ out.old.items) }
{
    if out.capacity() - out.len() < LETTERED_ROOM {
        return put_growing(out, 0, letter, number);
    }
    put_lettered(out, 0, letter, number, 0)
}

/// Puts a letter and a number's digits, a comma where one byte is wanted before them, and makes the room for them.
#[inline(never)]
fn put_growing(out: &mut Vec<u8>, before: usize, letter: u8, number: u32) -> Result<(), AllocError>
    requires { before ≤ 1 }
    ensures ok { OnOk result (out.new.items ≡ out.old.items ++ take before (44 ∷ []) ++ letter ∷ decimal number) }
    ensures err { OnErr result (out.new.items ≡ out.old.items) }
{
    put_lettered(out, before, letter, number, 0)
}

/// Puts numbers, each behind a dot.
#[tactic(auto, using(crate::proofs::KeepLaws::keeps_at))]
fn put_inner_numbers(out: &mut Vec<u8>, numbers: &[u32]) -> Result<(), AllocError>
    ensures ok { OnOk result (out.new.items ≡ out.old.items ++ flat_map next_number_text numbers.now) }
    ensures err { OnErr result (Keeps out.old.items out.new.items) }
{
    for number in numbers {
        out.extend_from_slice(b".")?;
        put_number(out, *number as usize)?;
    }
    Ok(())
}

/// Puts the word of a component: `c`, and the numbers of its path with dots between them.
#[tactic(auto, using(crate::proofs::KeepLaws::keeps_at))]
fn put_component(out: &mut Vec<u8>, component: &OwnerPath) -> Result<(), AllocError>
    ensures ok { OnOk result (out.new.items ≡ out.old.items ++ component_word component.now) }
    ensures err { OnErr result (Keeps out.old.items out.new.items) }
{
    out.push(b'c')?;
    match component.numbers() {
        [] => Ok(()),
        [first, inner @ ..] => {
            put_number(out, *first as usize)?;
            put_inner_numbers(out, inner)
        }
    }
}

/// Puts the word of an owner: `p`, or that of a component. Where memory is refused, the buffer is as before.
///
/// Own rule.
pub fn put_owner_word(out: &mut Vec<u8>, owner: Owner) -> Result<(), AllocError>
    ensures ok { OnOk result (out.new.items ≡ out.old.items ++ owner_word owner) }
    ensures err { OnErr result (out.new.items ≡ out.old.items) }
{
    let length = out.len();
    let put = put_owner(out, &owner);
    cut_if_refused(out, length, put)
}

/// Puts the word of an owner, as far as there is memory.
pub(crate) fn put_owner(out: &mut Vec<u8>, owner: &Owner) -> Result<(), AllocError>
    ensures ok { OnOk result (out.new.items ≡ out.old.items ++ owner_word owner.now) }
    ensures err { OnErr result (Keeps out.old.items out.new.items) }
{
    match owner {
        Owner::Page => Ok(out.push(b'p')?),
        Owner::Component(component) => put_component(out, component),
    }
}

/// Puts a node as the viewer sees it: `nJ` of the page, `mJ` of the viewer's own, and with the word before `:mJ` of another component.
#[inline(always)]
pub(crate) fn put_node(
    out: &mut Vec<u8>,
    viewer: &Owner,
    owner: &Owner,
    number: u32,
) -> Result<(), AllocError>
    ensures ok { OnOk result (out.new.items ≡ out.old.items ++ node_text_of viewer.now owner.now number) }
    ensures err { OnErr result (Keeps out.old.items out.new.items) }
{
    match owner {
        Owner::Page => put_short(out, b'n', number),
        Owner::Component(component) => put_component_node(out, viewer, owner, component, number),
    }
}

/// Puts the node of this component as the viewer sees it.
#[inline(never)]
#[tactic(auto, using(crate::proofs::KeepLaws::keeps_at))]
fn put_component_node(
    out: &mut Vec<u8>,
    viewer: &Owner,
    owner: &Owner,
    component: &OwnerPath,
    number: u32,
) -> Result<(), AllocError>
    requires { owner.now ≡ Component component.now }
    ensures ok { OnOk result (out.new.items ≡ out.old.items ++ node_text_of viewer.now owner.now number) }
    ensures err { OnErr result (Keeps out.old.items out.new.items) }
{
    if *viewer != *owner {
        put_component(out, component)?;
        out.extend_from_slice(b":")?;
    }
    put_short(out, b'm', number)
}

/// Puts a node, or `null` where there is none. It is kept out of line, so that its parts are copied at once.
#[inline(never)]
pub(crate) fn put_node_or_null(
    out: &mut Vec<u8>,
    viewer: &Owner,
    node: &Option<LentName<'_>>,
) -> Result<(), AllocError>
    ensures ok { OnOk result (out.new.items ≡ out.old.items ++ node_or_null viewer.now (option_map name_view node.now)) }
    ensures err { OnErr result (Keeps out.old.items out.new.items) }
{
    match node {
        None => put_text(out, *b"null"),
        Some(node) => put_node(out, viewer, node.owner, node.number),
    }
}

/// Puts the text of an event's path as this owner sees it: nodes in brackets, with commas between them. Where memory is
/// refused, the buffer is as before.
///
/// Own rule.
pub fn put_path(out: &mut Vec<u8>, owner: &Owner, path: &[NodeName]) -> Result<(), AllocError>
    ensures ok { OnOk result (out.new.items ≡ out.old.items ++ list_text owner.now path.now) }
    ensures err { OnErr result (out.new.items ≡ out.old.items) }
{
    let length = out.len();
    let put = put_list(out, owner, &Themselves, path);
    cut_if_refused(out, length, put)
}

/// Puts nodes in brackets, with commas between them, as far as there is memory. It is kept out of line, so that its parts are copied at once.
#[inline(never)]
#[tactic(auto, using(crate::proofs::KeepLaws::keeps_at))]
pub(crate) fn put_list<T, N: Names<T>>(
    out: &mut Vec<u8>,
    viewer: &Owner,
    names: &N,
    nodes: &[T],
) -> Result<(), AllocError>
    requires { All (N.knows names.now) nodes.now }
    ensures ok { OnOk result (out.new.items ≡ out.old.items ++ list_text viewer.now (map (N.name names.now) nodes.now)) }
    ensures err { OnErr result (Keeps out.old.items out.new.items) }
{
    match nodes {
        [] => put_text(out, *b"[]"),
        [first, others @ ..] => {
            out.push(b'[')?;
            let first = names.lent(first);
            put_node(out, viewer, first.owner, first.number)?;
            put_others(out, viewer, names, others)?;
            Ok(out.push(b']')?)
        }
    }
}

/// Puts nodes, each behind a comma.
#[inline(always)]
#[tactic(auto, using(crate::proofs::KeepLaws::keeps_at))]
fn put_others<T, N: Names<T>>(
    out: &mut Vec<u8>,
    viewer: &Owner,
    names: &N,
    nodes: &[T],
) -> Result<(), AllocError>
    requires { All (N.knows names.now) nodes.now }
    ensures ok { OnOk result (out.new.items ≡ out.old.items ++ flat_map (next_node_text viewer.now) (map (N.name names.now) nodes.now)) }
    ensures err { OnErr result (Keeps out.old.items out.new.items) }
{
    for node in nodes {
        let name = names.lent(node);
        put_next(out, viewer, name.owner, name.number)?;
    }
    Ok(())
}

/// Puts a node behind a comma.
#[inline(always)]
fn put_next(out: &mut Vec<u8>, viewer: &Owner, owner: &Owner, number: u32) -> Result<(), AllocError>
    ensures ok { OnOk result (out.new.items ≡ out.old.items ++ codes "," ++ node_text_of viewer.now owner.now number) }
    ensures err { OnErr result (Keeps out.old.items out.new.items) }
{
    match owner {
        Owner::Page => put_next_of_page(out, number),
        Owner::Component(component) => put_next_of_component(out, viewer, owner, component, number),
    }
}

/// Puts a node of the page behind a comma.
#[inline(always)]
fn put_next_of_page(out: &mut Vec<u8>, number: u32) -> Result<(), AllocError>
    ensures ok { OnOk result (out.new.items ≡ out.old.items ++ codes "," ++ codes "n" ++ decimal number) }
    ensures err { OnErr result (out.new.items ≡ out.old.items) }
{
    if out.capacity() - out.len() < LETTERED_ROOM {
        return put_growing(out, 1, b'n', number);
    }
    put_lettered(out, 1, b'n', number, 0)
}

/// Puts the node of this component behind a comma.
#[inline(never)]
#[tactic(auto, using(crate::proofs::KeepLaws::keeps_at))]
fn put_next_of_component(
    out: &mut Vec<u8>,
    viewer: &Owner,
    owner: &Owner,
    component: &OwnerPath,
    number: u32,
) -> Result<(), AllocError>
    requires { owner.now ≡ Component component.now }
    ensures ok { OnOk result (out.new.items ≡ out.old.items ++ codes "," ++ node_text_of viewer.now owner.now number) }
    ensures err { OnErr result (Keeps out.old.items out.new.items) }
{
    out.push(b',')?;
    put_component_node(out, viewer, owner, component, number)
}
