//! Strings: items between two quotes, each item one 16-bit code unit.

ghost use Rattle.std.specs.Prelude.{◌≡◌, ◌+◌, ◌*◌, ◌<◌, ◌≤◌, true, false, length, IfOk, MatchOption};
ghost use Rattle.std.specs.List.{prefix_len};
ghost use Rattle.std.specs.Char.{is_ascii_hexdigit, digit_value};
ghost use Rattle.dom_text.specs.Readers.{between, read_digit as spec_read_digit, read_byte as spec_read_byte, units_at as spec_units_at};
ghost use Rattle.dom_text.specs.Readers.{string_at as spec_string_at, next_string};
ghost use Rattle.dom_words.specs.Gives.{Gives, Takes};
ghost use Rattle.dom_words.specs.Strings.{is_item, place_view, read_view, DigitsFit, PlaceFits, ReadFits};

use crate::not_read::NotRead;
use crate::words::{WordReader, behind_space};
use dom_base::DomStr;
use std::alloc::{AllocError, Global};

/// Where the reading of a string stands: between two items, behind a backslash, or behind `\u` and digits that have
/// this value, with so many digits to come behind the next one.
#[derive(Clone, Copy)]
pub enum Place {
    Between,
    Escaped,
    InDigits(u8, u16),
}

/// What the next byte does: no string goes on so, it ends the string, it ends an item, or it does neither.
#[derive(Clone, Copy)]
pub enum Read {
    Wrong,
    Closed,
    Item(u16),
    On(Place),
}

/// The value of a hexadecimal digit.
fn hex_digit(b: u8) -> Option<u16>
    ensures { MatchOption result (is_ascii_hexdigit b ≡ false) (λ v. (is_ascii_hexdigit b ≡ true) × (v ≡ digit_value b) × (v < 16)) }
{
    match b {
        b'0'..=b'9' => Some((b - b'0') as u16),
        b'a'..=b'f' => Some((b - b'a') as u16 + 10),
        b'A'..=b'F' => Some((b - b'A') as u16 + 10),
        _ => None,
    }
}

/// What the next digit of `\u` does.
fn read_digit(left: u8, value: u16, b: u8) -> Read
    requires few { left ≤ 3 }
    requires fits { DigitsFit left value }
    ensures read { read_view result ≡ spec_read_digit (is_ascii_hexdigit b) left (16 * value + digit_value b) }
    ensures fits { ReadFits result }
{
    match hex_digit(b) {
        None => Read::Wrong,
        Some(digit) => {
            let value = 16 * value + digit;
            if left == 0 {
                Read::Item(value)
            } else {
                Read::On(Place::InDigits(left - 1, value))
            }
        }
    }
}

/// What the next byte of a string does.
fn read_byte(place: Place, b: u8) -> Read
    requires { PlaceFits place }
    ensures read { read_view result ≡ spec_read_byte (place_view place) b }
    ensures fits { ReadFits result }
{
    match place {
        Place::Between => {
            if b == b'"' {
                Read::Closed
            } else if b == b'\\' {
                Read::On(Place::Escaped)
            } else if 0x20 <= b && b <= 0x7E {
                Read::Item(b as u16)
            } else {
                Read::Wrong
            }
        }
        Place::Escaped => {
            if b == b'"' || b == b'\\' {
                Read::Item(b as u16)
            } else if b == b'u' {
                Read::On(Place::InDigits(3, 0))
            } else {
                Read::Wrong
            }
        }
        Place::InDigits(left, value) => read_digit(left, value, b),
    }
}

/// Whether the byte is an item of its own within a string.
fn is_item(b: u8) -> bool
    ensures { result ≡ is_item b }
{
    b != b'"' && (b != b'\\' && (0x20 <= b && b <= 0x7E))
}

/// How many bytes in front are items of their own.
fn items_len(bytes: &[u8]) -> usize
    ensures count { result ≡ prefix_len is_item bytes.now }
    ensures within { result ≤ length bytes.now }
{
    bytes.iter().take_while(|b| is_item(**b)).count()
}

/// The bytes, each as a code unit.
fn as_units(alloc: Global, bytes: &[u8]) -> Result<DomStr, AllocError>
    ensures { IfOk result (λ units. units.items ≡ bytes.now) }
{
    let mut units = Vec::with_capacity(alloc, bytes.len())?;
    units.resize(bytes.len(), 0)?;
    copy_bytes(&mut units, bytes);
    Ok(units)
}

/// Writes bytes into as many code units, several at a time.
fn copy_bytes(units: &mut [u16], bytes: &[u8])
    requires { length units.old ≡ length bytes.now }
    ensures { units.new ≡ bytes.now }
{
    for place in 0..bytes.len() {
        units[place] = bytes[place] as u16;
    }
}

/// The units up to the quote that ends the string, and the bytes behind it, item by item. At first there is room for so many.
fn mixed_units_at(alloc: Global, room: usize, bytes: &[u8]) -> Result<(DomStr, &[u8]), NotRead>
    ensures { Gives (λ x. (x.0.items, x.1.now)) result (spec_units_at between bytes.now) }
{
    let mut units = Vec::with_capacity(alloc, room)?;
    let mut place = Place::Between;
    for (i, b) in bytes.iter().enumerate() {
        match read_byte(place, *b) {
            Read::Wrong => return Err(NotRead::Syntax),
            Read::Closed => return Ok((units, &bytes[i + 1..])),
            Read::Item(unit) => {
                units.push(unit)?;
                place = Place::Between;
            }
            Read::On(next) => place = next,
        }
    }
    Err(NotRead::Syntax)
}

/// The units up to the quote that ends the string, and the bytes behind it. A string without a backslash is copied as it stands; of
/// any other there is room for the items before the first backslash.
fn units_at(alloc: Global, bytes: &[u8]) -> Result<(DomStr, &[u8]), NotRead>
    ensures { Gives (λ x. (x.0.items, x.1.now)) result (spec_units_at between bytes.now) }
{
    let (items, rest) = bytes.split_at(items_len(bytes));
    match rest {
        [b'"', behind @ ..] => Ok((as_units(alloc, items)?, behind)),
        _ => mixed_units_at(alloc, items.len(), bytes),
    }
}

/// A string, and the bytes behind it.
fn string_at(alloc: Global, bytes: &[u8]) -> Result<(DomStr, &[u8]), NotRead>
    ensures { Gives (λ x. (x.0.items, x.1.now)) result (spec_string_at bytes.now) }
{
    match bytes {
        [b'"', rest @ ..] => units_at(alloc, rest),
        _ => Err(NotRead::Syntax),
    }
}

impl WordReader<'_> {
    /// The next string, behind a space: items between two quotes, each of which is one code unit.
    pub fn string(&mut self, alloc: Global) -> Result<DomStr, NotRead>
        ensures { Takes (λ x. x.items) result (next_string self.old) self.new }
    {
        let bytes = behind_space(self.rest()).ok_or(NotRead::Syntax)?;
        let (units, rest) = string_at(alloc, bytes)?;
        *self = WordReader::new(rest);
        Ok(units)
    }
}
