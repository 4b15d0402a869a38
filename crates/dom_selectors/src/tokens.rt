//! The units of a selector's text: white space, signs, names and quoted values. A reader takes what it reads from the
//! front, and gives it with the units behind it.
ghost use Rattle.std.specs.Prelude.{◌≡◌, ◌≤◌, length, option_map, IfOk, string_bytes};
ghost use Rattle.std.specs.List.{prefix_len};
ghost use Rattle.std.specs.Str.{IsAscii};
ghost use Rattle.dom_model.specs.Names.{begins_name as spec_begins_name, continues_name as spec_continues_name};
ghost use Rattle.dom_model.specs.Selectors.{is_space as spec_is_space};
ghost use Rattle.dom_model.specs.SelectorText.{skip_space as spec_skip_space, expect as spec_expect, may_stand_quoted as spec_may_stand_quoted};
ghost use Rattle.dom_model.specs.SelectorText.{read_name as spec_read_name, read_quoted as spec_read_quoted, read_value as spec_read_value};

use dom_attributes::is_space;
use std::alloc::{AllocError, Global};

/// Whether a name may begin with the unit: a letter or `_`.
fn begins_name(unit: u16) -> bool
    ensures { result ≡ spec_begins_name unit }
{
    matches!(unit, 65..=90 | 97..=122 | 95)
}

/// Whether a name may go on with the unit: a letter, a digit, `-` or `_`.
fn continues_name(unit: u16) -> bool
    ensures { result ≡ spec_continues_name unit }
{
    begins_name(unit) || matches!(unit, 48..=57 | 45)
}

/// Whether the unit may stand in quotes: not the quote, a backslash or the end of a line.
fn may_stand_quoted(quote: u8, unit: u16) -> bool
    ensures { result ≡ spec_may_stand_quoted quote unit }
{
    unit != u16::from(quote) && !matches!(unit, 92 | 10 | 12 | 13)
}

/// How many units of white space stand in front.
fn space_len(units: &[u16]) -> usize
    ensures count { result ≡ prefix_len spec_is_space units.now }
    ensures within { result ≤ length units.now }
{
    units.iter().take_while(|unit| is_space(**unit)).count()
}

/// How many units with which a name may go on stand in front.
fn name_len(units: &[u16]) -> usize
    ensures count { result ≡ prefix_len spec_continues_name units.now }
    ensures within { result ≤ length units.now }
{
    units
        .iter()
        .take_while(|unit| continues_name(**unit))
        .count()
}

/// How many units that may stand in quotes stand in front.
fn quoted_len(quote: u8, units: &[u16]) -> usize
    ensures count { result ≡ prefix_len (spec_may_stand_quoted quote) units.now }
    ensures within { result ≤ length units.now }
{
    units
        .iter()
        .take_while(|unit| may_stand_quoted(quote, **unit))
        .count()
}

/// The units behind white space.
#[tactic(auto, using(crate::proofs::TokenLaws::behind_those))]
pub(crate) fn skip_space(units: &[u16]) -> &[u16]
    ensures { result.now ≡ spec_skip_space units.now }
{
    units.split_at(space_len(units)).1
}

/// The units behind a text that stands in front.
pub(crate) fn expect<'a>(text: &[u8], units: &'a [u16]) -> Option<&'a [u16]>
    ensures { option_map (λ rest. rest.now) result ≡ spec_expect text.now units.entry.now }
{
    let mut rest = units;
    for byte in text {
        match rest {
            [first, others @ ..] if *first == u16::from(*byte) => rest = others,
            _ => return None,
        }
    }
    Some(rest)
}

/// NAME.
#[tactic(auto, using(crate::proofs::TokenLaws::name_at))]
pub(crate) fn read_name(units: &[u16]) -> Option<(&[u16], &[u16])>
    ensures { option_map (λ x. (x.0.now, x.1.now)) result ≡ spec_read_name units.now }
{
    match units {
        [first, ..] if begins_name(*first) => Some(units.split_at(name_len(units))),
        _ => None,
    }
}

/// The units up to a quote, and those behind it.
#[tactic(auto, using(crate::proofs::TokenLaws::behind_those))]
fn read_quoted(quote: u8, units: &[u16]) -> Option<(&[u16], &[u16])>
    ensures { option_map (λ x. (x.0.now, x.1.now)) result ≡ spec_read_quoted quote units.now }
{
    let (quoted, behind) = units.split_at(quoted_len(quote, units));
    let rest = expect(&[quote], behind)?;
    Some((quoted, rest))
}

/// VALUE: a NAME, or quoted by `"` or `'`.
pub(crate) fn read_value(units: &[u16]) -> Option<(&[u16], &[u16])>
    ensures { option_map (λ x. (x.0.now, x.1.now)) result ≡ spec_read_value units.now }
{
    match units {
        [34, rest @ ..] => read_quoted(b'"', rest),
        [39, rest @ ..] => read_quoted(b'\'', rest),
        _ => read_name(units),
    }
}

/// ASCII units as a text.
pub(crate) fn text_of(alloc: Global, units: &[u16]) -> Result<String, AllocError>
    requires { IsAscii units.now }
    ensures { IfOk result (λ text. string_bytes text ≡ units.now) }
{
    let mut bytes = Vec::with_capacity(alloc, units.len())?;
    for unit in units {
        bytes.push(*unit as u8)?;
    }
    match String::from_utf8(bytes) {
        Ok(text) => Ok(text),
        Err(_) => unreachable!(),
    }
}
