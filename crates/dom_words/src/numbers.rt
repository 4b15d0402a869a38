//! Numbers: `0`, or a digit from 1 to 9 and up to eight digits.

ghost use Rattle.std.specs.Prelude.{◌≡◌, ◌<◌, ◌≤◌, length, drop, take_while, Some, IfErr, IfNone, IfSome};
ghost use Rattle.std.specs.List.{list_all, prefix_len};
ghost use Rattle.std.specs.Char.{is_ascii_digit, is_ascii_graphic};
ghost use Rattle.std.specs.Int.{is_in_range};
ghost use Rattle.std.specs.Str.Parse.{digits_value_after};
ghost use Rattle.dom_text.specs.Readers.{only_if, number_of as spec_number_of, positive_of as spec_positive_of, numbered as spec_numbered, next_as};
ghost use Rattle.dom_text.specs.Forms.{number_at};
ghost use Rattle.dom_words.specs.declared.not_read.NotRead.TheVariants.{Syntax};
ghost use Rattle.dom_words.specs.Gives.{Takes};

use crate::not_read::NotRead;
use crate::words::{WordReader, begins_graphic};

/// Whether the byte is a digit from 1 to 9.
fn leads(first: u8) -> bool
    ensures { result ≡ is_in_range 49 57 first }
{
    b'1' <= first && first <= b'9'
}

/// The number with the digits in front of the bytes behind its own, and how many they are.
fn with_front(number: u32, bytes: &[u8]) -> (u32, usize)
    requires one { number < 10 }
    requires few { length bytes.now ≤ 8 }
    ensures value { result.0 ≡ digits_value_after 10 number (take_while is_ascii_digit bytes.now) }
    ensures count { result.1 ≡ prefix_len is_ascii_digit bytes.now }
    ensures within { result.1 ≤ length bytes.now }
{
    let mut n = number;
    let mut count = 0;
    for d in bytes {
        if !d.is_ascii_digit() {
            break;
        }
        n = n * 10 + (*d - b'0') as u32;
        count += 1;
    }
    (n, count)
}

/// The number with these digits behind its own; none where a byte is no digit.
fn with_digits(number: u32, digits: &[u8]) -> Option<u32>
    requires one { number < 10 }
    requires few { length digits.now ≤ 8 }
    ensures { result ≡ only_if (list_all is_ascii_digit digits.now) (digits_value_after 10 number digits.now) }
{
    let (number, count) = with_front(number, digits);
    if count < digits.len() {
        return None;
    }
    Some(number)
}

/// The number that the text says (own rule): `0`, or a digit from 1 to 9 and up to eight digits.
pub fn number_of(text: &[u8]) -> Option<u32>
    ensures { result ≡ spec_number_of text.now }
{
    match text {
        [b'0'] => Some(0),
        _ => positive_of(text),
    }
}

/// The number that the text says, as `number_of` has it, where 0 is refused.
pub fn positive_of(text: &[u8]) -> Option<u32>
    ensures { result ≡ spec_positive_of text.now }
{
    match text {
        [first, digits @ ..] if leads(*first) && digits.len() <= 8 => {
            with_digits((*first - b'0') as u32, digits)
        }
        _ => None,
    }
}

/// The number behind this letter.
fn numbered(letter: u8, word: &[u8]) -> Option<u32>
    ensures { result ≡ spec_numbered letter word.now }
{
    match word {
        [] => None,
        [first, number @ ..] => {
            if *first == letter {
                number_of(number)
            } else {
                None
            }
        }
    }
}

/// The number from 1 on whose digits stand in front of the bytes, where the word ends behind them, and the bytes from there on.
pub fn positive_at(bytes: &[u8]) -> Option<(u32, &[u8])>
    ensures number { IfSome result (λ x. spec_positive_of (take_while is_ascii_graphic bytes.now) ≡ Some x.0) }
    ensures rest { IfSome result (λ x. drop (prefix_len is_ascii_graphic bytes.now) bytes.now ≡ x.1.now) }
{
    match bytes {
        [first, others @ ..] if leads(*first) => {
            let few = &others[..others.len().min(8)];
            let (number, count) = with_front((*first - b'0') as u32, few);
            let rest = &others[count..];
            if begins_graphic(rest) {
                return None;
            }
            Some((number, rest))
        }
        _ => None,
    }
}

/// The number whose digits stand in front of the bytes, where the word ends behind them, and the bytes from there on.
fn number_at(bytes: &[u8]) -> Option<(u32, &[u8])>
    ensures number { IfSome result (λ x. spec_number_of (take_while is_ascii_graphic bytes.now) ≡ Some x.0) }
    ensures rest { IfSome result (λ x. drop (prefix_len is_ascii_graphic bytes.now) bytes.now ≡ x.1.now) }
{
    match bytes {
        [b'0', rest @ ..] if !begins_graphic(rest) => Some((0, rest)),
        _ => positive_at(bytes),
    }
}

/// The number behind a space and this letter, where the word ends with it, and the bytes behind the word.
fn lettered_at(letter: u8, bytes: &[u8]) -> Option<(u32, &[u8])>
    requires low { 97 ≤ letter }
    requires high { letter ≤ 122 }
    ensures { IfSome result (λ x. next_as (spec_numbered letter) bytes.now ≡ Some (x.0, x.1.now)) }
{
    match bytes {
        [b' ', first, text @ ..] if *first == letter => number_at(text),
        _ => None,
    }
}

impl WordReader<'_> {
    /// The next word as a number.
    pub fn number(&mut self) -> Result<u32, NotRead>
        ensures read { Takes (λ n. n) result (number_at self.old) self.new }
        ensures refused { IfErr result (λ e. e ≡ Syntax) }
    {
        let word = self.word()?;
        number_of(word).ok_or(NotRead::Syntax)
    }

    /// The number that the next word says behind this letter, read in one pass over its bytes; the word is taken then. Where
    /// none is found the word stays.
    pub fn lettered(&mut self, letter: u8) -> Option<u32>
        requires low { 97 ≤ letter }
        requires high { letter ≤ 122 }
        ensures some { IfSome result (λ n. next_as (spec_numbered letter) self.old ≡ Some (n, self.new)) }
        ensures none { IfNone result (self.new ≡ self.old) }
    {
        let (number, rest) = lettered_at(letter, self.rest())?;
        self.leave(rest);
        Some(number)
    }

    /// The next word as a number behind this letter: `r` for a range, `i` for an iterator, `w` for a walker and `o` for
    /// an observer.
    pub fn numbered(&mut self, letter: u8) -> Result<u32, NotRead>
        ensures read { Takes (λ n. n) result (next_as (spec_numbered letter) self.old) self.new }
        ensures refused { IfErr result (λ e. e ≡ Syntax) }
    {
        let word = self.word()?;
        numbered(letter, word).ok_or(NotRead::Syntax)
    }
}
