//! A line's words, taken one after the other from the front of its bytes.

ghost use Rattle.std.specs.Prelude.{◌≡◌, ◌++◌, ℕ, List, option_map, IfOk, IfErr, IfNone, IfSome, IsTrue, Some, true, false, length, slice_get, string_bytes};
ghost use Rattle.std.specs.Prelude.{None, ◌<◌, ◌≤◌, nat_eq};
ghost use Rattle.std.specs.Bool.{MatchBool};
ghost use Rattle.std.specs.List.{prefix_len, list_all, starts_with};
ghost use Rattle.std.specs.Char.{is_ascii_graphic};
ghost use Rattle.dom_model.specs.Names.{is_empty};
ghost use Rattle.dom_text.specs.Readers.{at_end, behind_space as spec_behind_space, begins_word as spec_begins_word, word_at as spec_word_at};
ghost use Rattle.dom_text.specs.Readers.{next_word as spec_next_word, flag_at};
ghost use Rattle.dom_words.specs.declared.not_read.NotRead.TheVariants.{Syntax};
ghost use Rattle.dom_words.specs.Gives.{comes_next, Gives, Takes};

use crate::not_read::NotRead;
use dom_base::is_same;
use std::alloc::{AllocError, Global};
use std::marker::Model;

/// The bytes behind a space.
pub(crate) fn behind_space(bytes: &[u8]) -> Option<&[u8]>
    ensures { option_map (λ x. x.now) result ≡ spec_behind_space bytes.now }
{
    match bytes {
        [b' ', rest @ ..] => Some(rest),
        _ => None,
    }
}

/// How many bytes of a word stand in front.
fn word_len(bytes: &[u8]) -> usize
    ensures count { result ≡ prefix_len is_ascii_graphic bytes.now }
    ensures within { result ≤ length bytes.now }
{
    bytes.iter().take_while(|b| b.is_ascii_graphic()).count()
}

/// Whether a byte of words stands in front.
pub(crate) fn begins_graphic(bytes: &[u8]) -> bool
    ensures { MatchBool result (0 < prefix_len is_ascii_graphic bytes.now) (prefix_len is_ascii_graphic bytes.now ≡ 0) }
{
    match bytes {
        [] => false,
        [first, ..] => first.is_ascii_graphic(),
    }
}

/// Whether a word begins so: with any byte but a quote.
fn begins_word(bytes: &[u8]) -> bool
    ensures { result ≡ spec_begins_word bytes.now }
{
    match bytes {
        [] => false,
        [first, ..] => *first != b'"',
    }
}

/// The word in front of the bytes (own rule: printable ASCII without spaces, one byte or more, of which the first is no
/// quote), and the bytes behind it; nothing where no word begins so.
#[tactic(auto, using(crate::proofs::Texts::all_of_run))]
pub fn word_at(bytes: &[u8]) -> Option<(&[u8], &[u8])>
    ensures read { option_map (λ x. (x.0.now, x.1.now)) result ≡ spec_word_at bytes.now }
    ensures graphic { IfSome result (λ x. IsTrue (list_all is_ascii_graphic x.0.now)) }
{
    let (word, rest) = bytes.split_at(word_len(bytes));
    if !begins_word(word) {
        return None;
    }
    Some((word, rest))
}

/// A word behind a space, and the bytes behind it.
fn next_word(bytes: &[u8]) -> Option<(&[u8], &[u8])>
    ensures read { option_map (λ x. (x.0.now, x.1.now)) result ≡ spec_next_word bytes.now }
    ensures graphic { IfSome result (λ x. IsTrue (list_all is_ascii_graphic x.0.now)) }
{
    word_at(behind_space(bytes)?)
}

/// The bytes behind these, where they stand in front. A word of the source is compared byte by byte, without a call.
#[inline(always)]
fn behind_front<'a>(front: &[u8], bytes: &'a [u8]) -> Option<&'a [u8]>
    ensures some { IfSome result (λ rest. bytes.now ≡ front.now ++ rest.now) }
    ensures none { IfNone result (starts_with nat_eq bytes.now front.now ≡ false) }
{
    if bytes.len() < front.len() {
        return None;
    }
    let mut rest = bytes;
    for byte in front {
        match rest {
            [first, others @ ..] if *first == *byte => rest = others,
            _ => return None,
        }
    }
    Some(rest)
}

/// The bytes behind a space and this word, where a word ends so.
#[inline(always)]
fn behind_word<'a>(word: &[u8], bytes: &'a [u8]) -> Option<&'a [u8]>
    requires graphic { IsTrue (list_all is_ascii_graphic word.now) }
    requires begins { spec_begins_word word.now ≡ true }
    ensures some { IfSome result (λ rest. spec_next_word bytes.now ≡ Some (word.now, rest.now)) }
    ensures next { IfSome result (λ _. comes_next word.now bytes.now ≡ true) }
    ensures none { result ≡ None → comes_next word.now bytes.now ≡ false }
{
    let text = behind_space(bytes)?;
    let rest = behind_front(word, text)?;
    if begins_graphic(rest) {
        return None;
    }
    Some(rest)
}

/// The bytes of a word as a text of its own. An error where memory was refused.
#[tactic(auto, using(crate::proofs::Texts::graphic_utf8))]
pub fn text_of(alloc: Global, word: &[u8]) -> Result<String, AllocError>
    requires { IsTrue (list_all is_ascii_graphic word.now) }
    ensures { IfOk result (λ text. string_bytes text ≡ word.now) }
{
    String::from_str(alloc, unsafe { std::str::from_utf8_unchecked(word) })
}

/// The words of a line that are still to be read: the bytes behind those that were. Each word stands behind a space.
///
/// A call that takes a word gives what it says and leaves the bytes behind it. Where the grammar has no such word there it
/// answers `NotRead::Syntax`; one that makes a text or a string may answer `NotRead::Memory` in place of either. After an
/// error nothing is said of the bytes that are left.
#[derive(Drop)]
pub struct WordReader<'a> {
    rest: &'a [u8],
}

impl<'a> Model for WordReader<'a> {
    ghost Value = { List ℕ };

    ghost view = { λ w. w.rest.now };
}

impl<'a> WordReader<'a> {
    /// All words of these bytes.
    pub fn new(rest: &'a [u8]) -> WordReader<'a>
        ensures { result ≡ rest.now }
    {
        WordReader { rest }
    }

    /// The bytes that are still to be read.
    pub(crate) fn rest(&self) -> &'a [u8]
        ensures { result.now ≡ self.now }
    {
        self.rest
    }

    /// Leaves these bytes to be read.
    pub(crate) fn leave(&mut self, rest: &'a [u8])
        ensures { self.new ≡ rest.now }
    {
        self.rest = rest;
    }

    /// Whether the line ends here.
    pub fn is_at_end(&self) -> bool
        ensures { result ≡ is_empty self.now }
    {
        self.rest.is_empty()
    }

    /// The end of the line, refused where more bytes come.
    pub fn end(&self) -> Result<(), NotRead>
        ensures read { Gives (λ x. x) result (at_end tt self.now) }
        ensures refused { IfErr result (λ e. e ≡ Syntax) }
    {
        if self.is_at_end() {
            Ok(())
        } else {
            Err(NotRead::Syntax)
        }
    }

    /// The next word.
    pub fn word(&mut self) -> Result<&'a [u8], NotRead>
        ensures read { Takes (λ x. x.now) result (spec_next_word self.old) self.new }
        ensures graphic { IfOk result (λ x. IsTrue (list_all is_ascii_graphic x.now)) }
        ensures refused { IfErr result (λ e. e ≡ Syntax) }
    {
        let (word, rest) = next_word(self.rest).ok_or(NotRead::Syntax)?;
        self.rest = rest;
        Ok(word)
    }

    /// The byte behind the next one. Where a word comes, it begins with that.
    #[inline(always)]
    pub fn second_byte(&self) -> Option<u8>
        ensures { result ≡ slice_get self.now 1 }
    {
        self.rest.get(1).copied()
    }

    /// Takes the next word if it is this one, and says so; another one stays. The word's length is not looked for, so a word that is likely to
    /// come is tried by this first.
    #[inline(always)]
    pub fn takes(&mut self, word: &[u8]) -> bool
        requires graphic { IsTrue (list_all is_ascii_graphic word.now) }
        requires begins { spec_begins_word word.now ≡ true }
        ensures taken { result ≡ true → spec_next_word self.old ≡ Some (word.now, self.new) }
        ensures left { result ≡ false → self.new ≡ self.old }
        ensures next { result ≡ comes_next word.now self.old }
    {
        match behind_word(word, self.rest) {
            Some(rest) => {
                self.rest = rest;
                true
            }
            None => false,
        }
    }

    /// The next word as a text of its own.
    pub fn text(&mut self, alloc: Global) -> Result<String, NotRead>
        ensures { Takes string_bytes result (spec_next_word self.old) self.new }
    {
        let word = self.word()?;
        Ok(text_of(alloc, word)?)
    }

    /// Whether the next word is this one, which is then taken; another one stays.
    pub fn flag(&mut self, name: &[u8]) -> bool
        ensures { (result, self.new) ≡ flag_at name.now self.old }
    {
        match next_word(self.rest) {
            Some((word, rest)) => {
                let found = is_same(word, name);
                if found {
                    self.rest = rest;
                }
                found
            }
            None => false,
        }
    }
}
