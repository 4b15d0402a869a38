//! Simple selectors, read from the front of units. A reader gives what it read and the units behind it, or nothing.
ghost use Rattle.std.specs.Prelude.{◌≡◌, codes, map, ◌++◌, option_map, IfOk, string_bytes};
ghost use Rattle.std.specs.Option.{option_and_then};
ghost use Rattle.dom_model.specs.Selectors.{of_id, of_class};
ghost use Rattle.dom_model.specs.SelectorText.{signs, expect as spec_expect, read_map, read_all, read_one_of, read_name as spec_read_name};
ghost use Rattle.dom_model.specs.SelectorText.{read_attribute as spec_read_attribute, read_test as spec_read_test, read_simple as spec_read_simple};
ghost use Rattle.dom_model.specs.SelectorText.{read_type_name as spec_read_type_name};
ghost use Rattle.dom_selectors.specs.Reads.{Reads};
ghost use Rattle.dom_selectors.specs.Views.{simple_view, test_view};
ghost use Rattle.dom_selectors.specs.Texts.{places};

use crate::selector::{AttributeTest, Simple};
use crate::tokens::{expect, read_name, read_value, skip_space, text_of};
use std::alloc::{AllocError, Global};

/// NAME as a text of its own.
#[tactic(auto, using(crate::proofs::NameLaws::name_ascii))]
fn read_text(alloc: Global, units: &[u16]) -> Result<Option<(String, &[u16])>, AllocError>
    ensures { Reads (λ x. (string_bytes x.0, x.1.now)) result (spec_read_name units.now) }
{
    let Some((name, rest)) = read_name(units) else {
        return Ok(None);
    };
    Ok(Some((text_of(alloc, name)?, rest)))
}

/// One of the signs `=`, `~=`, `|=`, `^=`, `$=`, `*=`.
fn read_sign(units: &[u16]) -> Option<(AttributeTest, &[u16])>
    ensures { option_map (λ x. (test_view x.0, x.1.now)) result ≡ read_one_of signs units.now }
{
    match units {
        [61, rest @ ..] => Some((AttributeTest::Equals, rest)),
        [126, 61, rest @ ..] => Some((AttributeTest::HasWord, rest)),
        [124, 61, rest @ ..] => Some((AttributeTest::BeginsWithDash, rest)),
        [94, 61, rest @ ..] => Some((AttributeTest::Begins, rest)),
        [36, 61, rest @ ..] => Some((AttributeTest::Ends, rest)),
        [42, 61, rest @ ..] => Some((AttributeTest::Holds, rest)),
        _ => None,
    }
}

/// What stands in brackets behind NAME.
fn read_test(
    alloc: Global,
    name: String,
    units: &[u16],
) -> Result<Option<(Simple, &[u16])>, AllocError>
    ensures { Reads (λ x. (simple_view x.0, x.1.now)) result (spec_read_test (string_bytes name) units.now) }
{
    let Some((test, rest)) = read_sign(units) else {
        return Ok(Some((Simple::WithAttribute(name), units)));
    };
    let Some((value, rest)) = read_value(skip_space(rest)) else {
        return Ok(None);
    };
    let value = Vec::from_slice(alloc, value)?;
    Ok(Some((Simple::WithValue(name, test, value), rest)))
}

/// `[..]`, behind its bracket.
fn read_attribute(alloc: Global, units: &[u16]) -> Result<Option<(Simple, &[u16])>, AllocError>
    ensures { Reads (λ x. (simple_view x.0, x.1.now)) result (spec_read_attribute units.now) }
{
    let Some((name, rest)) = read_text(alloc, skip_space(units))? else {
        return Ok(None);
    };
    let Some((test, rest)) = read_test(alloc, name, skip_space(rest))? else {
        return Ok(None);
    };
    let Some(rest) = expect(b"]", skip_space(rest)) else {
        return Ok(None);
    };
    Ok(Some((test, rest)))
}

/// `#NAME`.
fn read_id(alloc: Global, units: &[u16]) -> Result<Option<(Simple, &[u16])>, AllocError>
    ensures { Reads (λ x. (simple_view x.0, x.1.now)) result
        (option_and_then (λ rest. read_map of_id (spec_read_name rest)) (spec_expect (codes "#") units.now)) }
{
    let Some(rest) = expect(b"#", units) else {
        return Ok(None);
    };
    let Some((name, rest)) = read_name(rest) else {
        return Ok(None);
    };
    Ok(Some((Simple::OfId(Vec::from_slice(alloc, name)?), rest)))
}

/// `.NAME`.
fn read_class(alloc: Global, units: &[u16]) -> Result<Option<(Simple, &[u16])>, AllocError>
    ensures { Reads (λ x. (simple_view x.0, x.1.now)) result
        (option_and_then (λ rest. read_map of_class (spec_read_name rest)) (spec_expect (codes ".") units.now)) }
{
    let Some(rest) = expect(b".", units) else {
        return Ok(None);
    };
    let Some((name, rest)) = read_name(rest) else {
        return Ok(None);
    };
    Ok(Some((Simple::OfClass(Vec::from_slice(alloc, name)?), rest)))
}

/// `[..]`.
fn read_brackets(alloc: Global, units: &[u16]) -> Result<Option<(Simple, &[u16])>, AllocError>
    ensures { Reads (λ x. (simple_view x.0, x.1.now)) result (option_and_then spec_read_attribute (spec_expect (codes "[") units.now)) }
{
    match expect(b"[", units) {
        Some(rest) => read_attribute(alloc, rest),
        None => Ok(None),
    }
}

/// `:first-child`, `:last-child`.
fn read_place(units: &[u16]) -> Option<(Simple, &[u16])>
    ensures { option_map (λ x. (simple_view x.0, x.1.now)) result ≡ read_one_of places units.now }
{
    if let Some(rest) = expect(b":first-child", units) {
        return Some((Simple::FirstChild, rest));
    }
    let rest = expect(b":last-child", units)?;
    Some((Simple::LastChild, rest))
}

/// `#NAME`, `.NAME`, `[..]`, `:first-child`, `:last-child`.
pub(crate) fn read_simple(
    alloc: Global,
    units: &[u16],
) -> Result<Option<(Simple, &[u16])>, AllocError>
    ensures { Reads (λ x. (simple_view x.0, x.1.now)) result (spec_read_simple units.now) }
{
    if let Some(id) = read_id(alloc, units)? {
        return Ok(Some(id));
    }
    if let Some(class) = read_class(alloc, units)? {
        return Ok(Some(class));
    }
    if let Some(attribute) = read_brackets(alloc, units)? {
        return Ok(Some(attribute));
    }
    Ok(read_place(units))
}

/// NAME or `*`.
pub(crate) fn read_type_name(
    alloc: Global,
    units: &[u16],
) -> Result<Option<(Simple, &[u16])>, AllocError>
    ensures { Reads (λ x. (simple_view x.0, x.1.now)) result (spec_read_type_name units.now) }
{
    if let Some((name, rest)) = read_text(alloc, units)? {
        return Ok(Some((Simple::OfType(name), rest)));
    }
    match expect(b"*", units) {
        Some(rest) => Ok(Some((Simple::OfAnyType, rest))),
        None => Ok(None),
    }
}
