//! Strings of 16-bit code units.
ghost use Rattle.std.specs.Prelude.{◌≡◌, ◌++◌, ◌<◌, length, IsTrue, OnOk, OnErr};
ghost use Rattle.std.specs.Char.{digit_char};
ghost use Rattle.std.specs.List.{flat_map, list_all, All};
ghost use Rattle.dom_text.specs.Text.{unit_text, string_text};
ghost use Rattle.dom_printer.specs.Keeping.{Keeps};
ghost use Rattle.dom_printer.specs.Strings.{is_plain as spec_is_plain};

use crate::buffers::cut_if_refused;
use std::alloc::AllocError;

/// How many code units at least, and at most, are looked at together.
const FEWEST: usize = 16;

const MOST: usize = 64;

/// Puts a string between quotes. A code unit from 0x20 to 0x7E stands as it is, but for `"` and `\`, which a `\` precedes;
/// any other is `\u` and four lower-case hexadecimal digits. Where memory is refused, the buffer is as before.
///
/// Own rule.
pub fn put_string(out: &mut Vec<u8>, units: &[u16]) -> Result<(), AllocError>
    ensures ok { OnOk result (out.new.items ≡ out.old.items ++ string_text units.now) }
    ensures err { OnErr result (out.new.items ≡ out.old.items) }
{
    let length = out.len();
    let put = put_units(out, units);
    cut_if_refused(out, length, put)
}

/// Puts a string between quotes, as far as there is memory.
#[tactic(auto, using(crate::proofs::KeepLaws::keeps_at))]
pub(crate) fn put_units(out: &mut Vec<u8>, units: &[u16]) -> Result<(), AllocError>
    ensures ok { OnOk result (out.new.items ≡ out.old.items ++ string_text units.now) }
    ensures err { OnErr result (Keeps out.old.items out.new.items) }
{
    out.reserve(units.len() + 2)?;
    out.push(b'"')?;
    put_runs(out, units)?;
    out.push(b'"')?;
    Ok(())
}

/// Puts the code units within a string: run by run, and then the few that are left.
fn put_runs(out: &mut Vec<u8>, units: &[u16]) -> Result<(), AllocError>
    ensures ok { OnOk result (out.new.items ≡ out.old.items ++ flat_map unit_text units.now) }
    ensures err { OnErr result (Keeps out.old.items out.new.items) }
{
    let mut rest = units;
    while rest.len() >= FEWEST {
        let (run, behind) = rest.split_at(rest.len().min(MOST));
        put_run(out, run)?;
        rest = behind;
    }
    put_each(out, rest)
}

/// Puts code units within a string: at once where all of them stand as they are.
#[tactic(auto, using(crate::proofs::PlainLaws::plain_units, crate::proofs::PlainLaws::plain_units_fit))]
fn put_run(out: &mut Vec<u8>, units: &[u16]) -> Result<(), AllocError>
    ensures ok { OnOk result (out.new.items ≡ out.old.items ++ flat_map unit_text units.now) }
    ensures err { OnErr result (Keeps out.old.items out.new.items) }
{
    if are_plain(units) {
        put_plain(out, units)
    } else {
        put_each(out, units)
    }
}

/// Whether all these code units stand as they are. All are looked at, so that this can be done for several at a time.
fn are_plain(units: &[u16]) -> bool
    ensures { result ≡ list_all spec_is_plain units.now }
{
    let mut plain = true;
    for unit in units {
        plain &= is_plain(*unit);
    }
    plain
}

/// Whether a code unit stands as it is within a string.
fn is_plain(unit: u16) -> bool
    ensures { result ≡ spec_is_plain unit }
{
    matches!(unit, 0x20..=0x7E) && !matches!(unit, 0x22 | 0x5C)
}

/// Puts code units that fit into bytes, each as its byte.
fn put_plain(out: &mut Vec<u8>, units: &[u16]) -> Result<(), AllocError>
    requires { All (λ unit. unit < 256) units.now }
    ensures ok { OnOk result (out.new.items ≡ out.old.items ++ units.now) }
    ensures err { OnErr result (Keeps out.old.items out.new.items) }
{
    let length = out.len();
    out.resize(length + units.len(), 0)?;
    copy_units(&mut out[length..], units);
    Ok(())
}

/// Writes code units that fit into bytes into as many bytes.
fn copy_units(bytes: &mut [u8], units: &[u16])
    requires fits { All (λ unit. unit < 256) units.now }
    requires length { length bytes.old ≡ length units.now }
    ensures { bytes.new ≡ units.now }
{
    for place in 0..units.len() {
        bytes[place] = units[place] as u8;
    }
}

/// Puts code units within a string, one after the other.
#[tactic(auto, using(crate::proofs::KeepLaws::keeps_at))]
fn put_each(out: &mut Vec<u8>, units: &[u16]) -> Result<(), AllocError>
    ensures ok { OnOk result (out.new.items ≡ out.old.items ++ flat_map unit_text units.now) }
    ensures err { OnErr result (Keeps out.old.items out.new.items) }
{
    for unit in units {
        put_unit(out, *unit)?;
    }
    Ok(())
}

/// Puts a code unit within a string.
fn put_unit(out: &mut Vec<u8>, unit: u16) -> Result<(), AllocError>
    ensures ok { OnOk result (out.new.items ≡ out.old.items ++ unit_text unit) }
    ensures err { OnErr result (Keeps out.old.items out.new.items) }
{
    match unit {
        0x22 | 0x5C => out.extend_from_slice(&[b'\\', unit as u8]),
        0x20..=0x7E => {
            out.push(unit as u8)?;
            Ok(())
        }
        _ => out.extend_from_slice(&[
            b'\\',
            b'u',
            hex_digit(unit / 4096),
            hex_digit(unit / 256 % 16),
            hex_digit(unit / 16 % 16),
            hex_digit(unit % 16),
        ]),
    }
}

/// The hexadecimal digit of this value.
fn hex_digit(value: u16) -> u8
    requires { value < 16 }
    ensures { result ≡ digit_char value }
{
    if value < 10 {
        b'0' + value as u8
    } else {
        b'a' + (value - 10) as u8
    }
}
