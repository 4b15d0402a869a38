//! Owners, and nodes as lines name them.

ghost use Rattle.std.specs.Prelude.{◌≡◌, nat_lt, option_map, length, ◌≤◌, IfSome, Some};
ghost use Rattle.std.specs.List.{prefix_len};
ghost use Rattle.dom_base.specs.declared.Owner.TheVariants.{Page};
ghost use Rattle.dom_base.specs.Owners.{no_path, longer_path};
ghost use Rattle.dom_text.specs.Readers.{only_if, between_dots, path_onto, component_of as spec_component_of, owner_of as spec_owner_of, behind as spec_behind};
ghost use Rattle.dom_text.specs.Readers.{is_no_colon, page_node as spec_page_node, inner_node as spec_inner_node, full_name_of as spec_full_name_of};
ghost use Rattle.dom_text.specs.Readers.{node_word_of as spec_spelled_of};
ghost use Rattle.dom_text.specs.Decode.{before_space, owner_at as spec_owner_at};
ghost use Rattle.dom_text.specs.Forms.{node_at};
ghost use Rattle.dom_words.specs.Gives.{Takes};
ghost use Rattle.dom_reader.specs.Views.{own_letter, node_spelled, word_view};

use crate::line::NodeWord;
use crate::separated::first_part;
use dom_base::{MAX_DEPTH, Owner, OwnerPath};
use dom_words::{NotRead, WordReader, number_of, positive_at, positive_of, word_at};

/// A path with one number more behind its own, where there is room for it.
fn longer(path: OwnerPath, number: u32) -> Option<OwnerPath>
    ensures { result ≡ only_if (nat_lt path.depth MAX_DEPTH) (longer_path path number) }
{
    if path.depth >= MAX_DEPTH {
        return None;
    }
    let mut longer = path;
    longer.parts[path.depth as usize] = number;
    longer.depth += 1;
    Some(longer)
}

/// The path of these numbers with dots between them: one to eight, none of them 0 and each without leading zeros.
fn path_of(text: &[u8]) -> Option<OwnerPath>
    ensures { result ≡ path_onto no_path (between_dots text.now) }
{
    let mut path = OwnerPath {
        depth: 0,
        parts: [0; 8],
    };
    let mut parts = Some(text);
    while let Some(text) = parts {
        let (number, others) = first_part(b'.', text);
        path = longer(path, positive_of(number)?)?;
        parts = others;
    }
    Some(path)
}

/// The component whose word this is (own rule): `c`, and one to eight numbers from 1 on with dots between them.
fn component_of(word: &[u8]) -> Option<OwnerPath>
    ensures { result ≡ spec_component_of word.now }
{
    match word {
        [b'c', numbers @ ..] => path_of(numbers),
        _ => None,
    }
}

/// The owner whose word this is (own rule): `p`, or that of the component.
pub fn owner_of(word: &[u8]) -> Option<Owner>
    ensures { result ≡ spec_owner_of word.now }
{
    match word {
        [b'p'] => Some(Owner::Page),
        _ => Some(Owner::Component(component_of(word)?)),
    }
}

/// The component of one number whose word and a space begin the line, and the bytes from the space on. Out of line, so that the
/// path of numbers is copied as one block.
#[inline(never)]
fn short_component_at(line: &[u8]) -> Option<(Owner, &[u8])>
    ensures { IfSome result (λ x. spec_owner_at line.now ≡ Some (x.0, x.1.now)) }
{
    let [b'c', text @ ..] = line else {
        return None;
    };
    let (number, rest) = positive_at(text)?;
    let path = OwnerPath {
        depth: 1,
        parts: [number, 0, 0, 0, 0, 0, 0, 0],
    };
    match rest {
        [b' ', ..] => Some((Owner::Component(path), rest)),
        _ => None,
    }
}

/// The owner whose word and a space begin the line, and the bytes from the space on. The word of a component with one number is read in
/// one pass.
pub fn owner_at(line: &[u8]) -> Option<(Owner, &[u8])>
    ensures { option_map (λ x. (x.0, x.1.now)) result ≡ spec_owner_at line.now }
{
    if let Some(found) = short_component_at(line) {
        return Some(found);
    }
    let (word, rest) = word_at(line)?;
    let owner = owner_of(word)?;
    match rest {
        [b' ', ..] => Some((owner, rest)),
        _ => None,
    }
}

/// The bytes from the space on of a line that the page's word and a space begin. It is in line, since most lines are the page's.
#[inline(always)]
pub fn page_bytes(line: &[u8]) -> Option<&[u8]>
    ensures { IfSome result (λ bytes. spec_owner_at line.now ≡ Some (Page, bytes.now)) }
{
    match line {
        [b'p', b' ', ..] => Some(&line[1..]),
        _ => None,
    }
}

/// The node `nJ` in a line of the owner.
fn page_node(owner: &Owner, number: u32) -> NodeWord
    ensures { word_view result ≡ spec_page_node owner.now number }
{
    match owner {
        Owner::Page => NodeWord::Own(number),
        Owner::Component(_) => NodeWord::Foreign,
    }
}

/// The node `mJ` in a line of the owner.
fn inner_node(owner: &Owner, number: u32) -> NodeWord
    ensures { word_view result ≡ spec_inner_node owner.now number }
{
    match owner {
        Owner::Page => NodeWord::Foreign,
        Owner::Component(_) => NodeWord::Own(number),
    }
}

/// How many bytes stand before the first colon.
fn front_len(word: &[u8]) -> usize
    ensures count { result ≡ prefix_len is_no_colon word.now }
    ensures within { result ≤ length word.now }
{
    word.iter().take_while(|b| **b != b':').count()
}

/// The text behind this front.
pub fn behind<'a>(front: &[u8], text: &'a [u8]) -> Option<&'a [u8]>
    ensures { option_map (λ x. x.now) result ≡ spec_behind front.now text.now }
{
    match text.strip_prefix(front) {
        None => None,
        Some(rest) => Some(rest),
    }
}

/// A node by its full name: the component's word, and then `:mJ`.
fn full_name_of(word: &[u8]) -> Option<NodeWord>
    ensures { option_map word_view result ≡ spec_full_name_of word.now }
{
    let (component, node) = word.split_at(front_len(word));
    component_of(component)?;
    number_of(behind(b":m", node)?)?;
    Some(NodeWord::Foreign)
}

/// The node that the word names in a line of the owner.
fn node_word_of(owner: &Owner, word: &[u8]) -> Option<NodeWord>
    ensures { option_map word_view result ≡ spec_spelled_of owner.now word.now }
{
    match word {
        [] => None,
        [first, text @ ..] => match *first {
            b'n' => Some(page_node(owner, number_of(text)?)),
            b'm' => Some(inner_node(owner, number_of(text)?)),
            _ => full_name_of(word),
        },
    }
}

/// The letter before the number of an owner's own node in its lines.
fn own_letter(owner: &Owner) -> u8
    ensures { result ≡ own_letter owner.now }
{
    match owner {
        Owner::Page => b'n',
        Owner::Component(_) => b'm',
    }
}

/// What a word names as a node, however that is spelled. It fits into two registers.
#[derive(Clone, Copy)]
enum Spelling {
    Own(u32),
    Foreign,
    NoNode,
}

/// The next word as a node, as a line of the owner names it, however it is spelled. It is kept out of line, so that the reading of an
/// owner's own node keeps few registers.
#[inline(never)]
fn next_spelling(owner: &Owner, words: &mut WordReader) -> Spelling
    ensures { Takes word_view (node_spelled result) (node_at owner.now words.old) words.new }
{
    let Ok(word) = words.word() else {
        return Spelling::NoNode;
    };
    match node_word_of(owner, word) {
        Some(NodeWord::Own(number)) => Spelling::Own(number),
        Some(NodeWord::Foreign) => Spelling::Foreign,
        None => Spelling::NoNode,
    }
}

/// The node of a spelling, as a line of the owner's names it.
#[inline(always)]
fn node_spelled(spelling: Spelling) -> Result<NodeWord, NotRead>
    ensures { result ≡ node_spelled spelling }
{
    match spelling {
        Spelling::Own(number) => Ok(NodeWord::Own(number)),
        Spelling::Foreign => Ok(NodeWord::Foreign),
        Spelling::NoNode => Err(NotRead::Syntax),
    }
}

/// The next word as a node, as a line of the owner names it. Most are the owner's own, and are read in one pass, in line.
#[inline(always)]
pub fn next_node(owner: &Owner, words: &mut WordReader) -> Result<NodeWord, NotRead>
    ensures { Takes word_view result (node_at owner.now words.old) words.new }
{
    match words.lettered(own_letter(owner)) {
        Some(number) => Ok(NodeWord::Own(number)),
        None => node_spelled(next_spelling(owner, words)),
    }
}
