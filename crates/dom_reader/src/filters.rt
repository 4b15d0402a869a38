//! What is shown, and the words behind it that filter by name.

ghost use Rattle.std.specs.Prelude.{◌≡◌, option_map, IfSome, IsTrue, map, string_bytes};
ghost use Rattle.std.specs.List.{list_all};
ghost use Rattle.std.specs.Char.{is_ascii_graphic};
ghost use Rattle.dom_model.specs.Names.{is_name as spec_is_name};
ghost use Rattle.dom_text.specs.Readers.{only_if, between_commas, take_name as spec_take_name, show_of_names, show_of as spec_show_of};
ghost use Rattle.dom_text.specs.Readers.{name_filter_of as spec_name_filter_of, attribute_filter_of as spec_attribute_filter_of, last_as, next_as};
ghost use Rattle.dom_words.specs.Gives.{Gives, Takes};
ghost use Rattle.dom_reader.specs.Views.{show_view, name_filter_view};
ghost use Rattle.dom_reader.specs.Filters.{parts_view, name_behind as spec_name_behind};

use crate::line::{NameFilter, Show};
use crate::nodes::behind;
use crate::separated::first_part;
use dom_base::Verdict;
use dom_words::{NotRead, WordReader, is_name, text_of};
use std::alloc::Global;

/// Whether the name comes first among the parts, and the parts behind it where it does.
fn take_name<'a>(name: &[u8], parts: Option<&'a [u8]>) -> (bool, Option<&'a [u8]>)
    ensures { (result.0, parts_view 44 result.1) ≡ spec_take_name name.now (parts_view 44 parts.entry) }
{
    match parts {
        None => (false, None),
        Some(text) => {
            let (first, others) = first_part(b',', text);
            if first == name {
                (true, others)
            } else {
                (false, Some(text))
            }
        }
    }
}

/// What is shown: `all`, or some of the kinds in their order, with commas.
pub fn show_of(word: &[u8]) -> Option<Show>
    ensures { option_map show_view result ≡ spec_show_of word.now }
{
    if word == b"all".as_slice() {
        return Some(Show {
            element: true,
            text: true,
            comment: true,
            document: true,
            fragment: true,
        });
    }
    show_of_parts(word)
}

/// What is shown by some of the kinds in their order, with commas.
fn show_of_parts(word: &[u8]) -> Option<Show>
    ensures { option_map show_view result ≡ show_of_names (between_commas word.now) }
{
    let (element, parts) = take_name(b"element", Some(word));
    let (text, parts) = take_name(b"text", parts);
    let (comment, parts) = take_name(b"comment", parts);
    let (document, parts) = take_name(b"document", parts);
    let (fragment, parts) = take_name(b"fragment", parts);
    match parts {
        Some(_) => None,
        None => Some(Show {
            element,
            text,
            comment,
            document,
            fragment,
        }),
    }
}

/// The name behind this front.
#[tactic(auto, using(crate::proofs::Names::graphic_name))]
fn name_behind<'a>(front: &[u8], word: &'a [u8]) -> Option<&'a [u8]>
    ensures read { option_map (λ x. x.now) result ≡ spec_name_behind front.now word.now }
    ensures graphic { IfSome result (λ x. IsTrue (list_all is_ascii_graphic x.now)) }
{
    let name = behind(front, word)?;
    if !is_name(name) {
        return None;
    }
    Some(name)
}

/// `skip=NAME` or `reject=NAME`.
fn name_filter_of(alloc: Global, word: &[u8]) -> Result<NameFilter, NotRead>
    ensures { Gives name_filter_view result (spec_name_filter_of word.now) }
{
    let (verdict, name) = match name_behind(b"skip=", word) {
        Some(name) => (Verdict::Skip, name),
        None => (
            Verdict::Reject,
            name_behind(b"reject=", word).ok_or(NotRead::Syntax)?,
        ),
    };
    Ok(NameFilter {
        name: text_of(alloc, name)?,
        verdict,
    })
}

/// A name as a text of its own.
#[tactic(auto, using(crate::proofs::Names::graphic_name))]
fn name_of(alloc: Global, text: &[u8]) -> Result<String, NotRead>
    ensures { Gives string_bytes result (only_if (spec_is_name text.now) text.now) }
{
    if !is_name(text) {
        return Err(NotRead::Syntax);
    }
    Ok(text_of(alloc, text)?)
}

/// The names between commas, one or more.
fn names_of(alloc: Global, text: &[u8]) -> Result<Vec<String>, NotRead>
    ensures { Gives (λ names. map string_bytes names.items) result (only_if (list_all spec_is_name (between_commas text.now)) (between_commas text.now)) }
{
    let mut names = Vec::new(alloc);
    let mut parts = Some(text);
    while let Some(text) = parts {
        let (first, others) = first_part(b',', text);
        names.push(name_of(alloc, first)?)?;
        parts = others;
    }
    Ok(names)
}

/// `filter=NAME,..`, with one name or more.
fn attribute_filter_of(alloc: Global, word: &[u8]) -> Result<Vec<String>, NotRead>
    ensures { Gives (λ names. map string_bytes names.items) result (spec_attribute_filter_of word.now) }
{
    let names = behind(b"filter=", word).ok_or(NotRead::Syntax)?;
    names_of(alloc, names)
}

/// The next word as `skip=NAME` or `reject=NAME`.
fn next_name_filter(alloc: Global, words: &mut WordReader) -> Result<NameFilter, NotRead>
    ensures { Takes name_filter_view result (next_as spec_name_filter_of words.old) words.new }
{
    let word = words.word()?;
    name_filter_of(alloc, word)
}

/// `skip=NAME` or `reject=NAME` as the line's last word, where there is one more.
#[tactic(auto, using(crate::proofs::Lasts::last_is_next))]
pub fn last_name_filter(
    alloc: Global,
    words: &mut WordReader,
) -> Result<Option<NameFilter>, NotRead>
    ensures { Gives (option_map name_filter_view) result (last_as spec_name_filter_of words.old) }
{
    if words.is_at_end() {
        return Ok(None);
    }
    let filter = next_name_filter(alloc, words)?;
    words.end()?;
    Ok(Some(filter))
}

/// The next word as `filter=NAME,..`.
fn next_attribute_filter(alloc: Global, words: &mut WordReader) -> Result<Vec<String>, NotRead>
    ensures { Takes (λ names. map string_bytes names.items) result (next_as spec_attribute_filter_of words.old) words.new }
{
    let word = words.word()?;
    attribute_filter_of(alloc, word)
}

/// `filter=NAME,..` as the line's last word, where there is one more.
#[tactic(auto, using(crate::proofs::Lasts::last_is_next))]
pub fn last_attribute_filter(
    alloc: Global,
    words: &mut WordReader,
) -> Result<Option<Vec<String>>, NotRead>
    ensures { Gives (option_map (λ names. map string_bytes names.items)) result (last_as spec_attribute_filter_of words.old) }
{
    if words.is_at_end() {
        return Ok(None);
    }
    let names = next_attribute_filter(alloc, words)?;
    words.end()?;
    Ok(Some(names))
}
