//! What selectors ask of attributes' values (CSS Selectors Level 4, 6 Attribute selectors).
ghost use Rattle.std.specs.Prelude.{◌≡◌, ◌<◌, [], length, nat_eq, IfSome};
ghost use Rattle.std.specs.List.{list_any, starts_with};
ghost use Rattle.std.specs.Option.{option_map};
ghost use Rattle.dom_model.specs.Names.{text_eq};
ghost use Rattle.dom_model.specs.Selectors.{words_from, holds_text as spec_holds_text};
ghost use Rattle.dom_model.specs.Selectors.{value_passes as spec_value_passes};
ghost use Rattle.dom_selectors.specs.Views.{test_view};
ghost use Rattle.dom_selectors.specs.Words.{begins_with_word as spec_begins_with_word, behind_space as spec_behind_space, is_among as spec_is_among};

use crate::selector::AttributeTest;
use dom_attributes::{is_same_string, is_space};

/// Whether a string begins with a word, behind which is white space or nothing. They are compared in place.
#[inline(always)]
fn begins_with_word(text: &[u16], word: &[u16]) -> bool
    ensures { result ≡ spec_begins_with_word word.now text.now }
{
    let mut rest = text;
    for unit in word {
        match rest {
            [first, others @ ..] if *first == *unit && !is_space(*first) => rest = others,
            _ => return false,
        }
    }
    match rest {
        [] => true,
        [first, ..] => is_space(*first),
    }
}

/// What is behind the first white space of a string, if there is some and a word could stand there: no more than the word has units is
/// not looked at.
#[inline(always)]
#[tactic(auto, using(crate::proofs::ValueLaws::none_behind))]
fn behind_space<'a>(text: &'a [u16], word: &[u16]) -> Option<&'a [u16]>
    ensures value { spec_is_among word.now (option_map (λ behind. behind.now) result) ≡ spec_is_among word.now (spec_behind_space text.entry.now) }
    ensures shorter { IfSome result (λ behind. length behind.now < length text.entry.now) }
{
    let mut rest = text;
    while rest.len() > word.len() {
        match rest {
            [first, others @ ..] => {
                if is_space(*first) {
                    return Some(others);
                }
                rest = others;
            }
            [] => return None,
        }
    }
    None
}

/// Whether a string has this word between white space.
#[inline(always)]
fn has_word(text: &[u16], word: &[u16]) -> bool
    ensures { result ≡ list_any (text_eq word.now) (words_from [] text.now) }
{
    let mut rest = text;
    loop {
        if begins_with_word(rest, word) {
            return true;
        }
        match behind_space(rest, word) {
            Some(behind) => rest = behind,
            None => return false,
        }
    }
}

/// Whether a string begins with another one. Most are short, so they are compared in place.
#[inline(always)]
fn begins_with(text: &[u16], part: &[u16]) -> bool
    ensures { result ≡ starts_with nat_eq text.now part.now }
{
    let mut rest = text;
    for unit in part {
        match rest {
            [first, others @ ..] if *first == *unit => rest = others,
            _ => return false,
        }
    }
    true
}

/// Whether a string has another one in it.
fn holds_text(text: &[u16], part: &[u16]) -> bool
    ensures { result ≡ spec_holds_text text.now part.now }
{
    let mut rest = text;
    while let [_, others @ ..] = rest {
        if rest.starts_with(part) {
            return true;
        }
        rest = others;
    }
    part.is_empty()
}

/// Whether a string is another one, or begins with it and `-`.
#[tactic(auto, using(crate::proofs::ValueLaws::behind_front))]
fn begins_with_dash(text: &[u16], value: &[u16]) -> bool
    ensures { result ≡ spec_value_passes (test_view AttributeTest.BeginsWithDash) value.now text.now }
{
    if is_same_string(text, value) {
        return true;
    }
    if !text.starts_with(value) {
        return false;
    }
    text.split_at(value.len()).1.starts_with(&[45])
}

/// Whether a word is among those into which white space parts an attribute's value. What stands among them has no white space.
#[inline(always)]
pub(crate) fn is_among_words(word: &[u16], text: &[u16]) -> bool
    ensures { result ≡ spec_value_passes (test_view AttributeTest.HasWord) word.now text.now }
{
    !word.is_empty() && has_word(text, word)
}

/// Whether an attribute's value is as a test with a value of the selector asks.
#[inline(never)]
pub(crate) fn value_passes(test: AttributeTest, value: &[u16], text: &[u16]) -> bool
    ensures { result ≡ spec_value_passes (test_view test) value.now text.now }
{
    match test {
        AttributeTest::Equals => is_same_string(text, value),
        AttributeTest::HasWord => is_among_words(value, text),
        AttributeTest::BeginsWithDash => begins_with_dash(text, value),
        AttributeTest::Begins => !value.is_empty() && begins_with(text, value),
        AttributeTest::Ends => !value.is_empty() && text.ends_with(value),
        AttributeTest::Holds => !value.is_empty() && holds_text(text, value),
    }
}
