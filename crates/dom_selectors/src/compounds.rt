//! Compounds, complex selectors and lists of them, read from the front of units. A reader gives what it read and the
//! units behind it, or nothing.
ghost use Rattle.std.specs.Prelude.{◌≡◌, ◌∷◌, [], codes, map, length, option_map, IfOk, IfErr, List, Some, None};
ghost use Rattle.std.specs.Option.{option_and_then};
ghost use Rattle.dom_model.specs.Selectors.{simple, Complex as ComplexSelector};
ghost use Rattle.dom_model.specs.SelectorText.{expect as spec_expect, read_map, read_all, read_one_of, read_type as spec_read_type, read_compound_of};
ghost use Rattle.dom_model.specs.SelectorText.{read_not as spec_read_not, read_simple as spec_read_simple, read_part as spec_read_part};
ghost use Rattle.dom_model.specs.SelectorText.{read_compound as spec_read_compound, read_combinator as spec_read_combinator};
ghost use Rattle.dom_model.specs.SelectorText.{read_link as spec_read_link, read_complex as spec_read_complex, read_next as spec_read_next};
ghost use Rattle.dom_model.specs.SelectorText.{parse_selectors};
ghost use Rattle.dom_selectors.specs.Reads.{Reads, IsRefusalWhere, behind_list, as_parts};
ghost use Rattle.dom_selectors.specs.Grammar.{IsSelector};
ghost use Rattle.dom_selectors.specs.Texts.{combinator_signs};
ghost use Rattle.dom_selectors.specs.Views.{simple_view, part_view, compound_view, combinator_view, link_view, complex_view, selector_view};

use crate::selector::{
    Combinator, Complex, Compound, CompoundPart, Link, Selector, Simple, Simples,
};
use crate::simples::{read_simple, read_type_name};
use crate::tokens::{expect, skip_space};
use dom_base::{Fault, Refusal};
use std::alloc::{AllocError, Global};

/// More simple selectors behind those that were read.
fn read_simples(
    alloc: Global,
    mut simples: Vec<Simple>,
    units: &[u16],
) -> Result<(Vec<Simple>, &[u16]), AllocError>
    ensures { IfOk result (λ x. behind_list (map simple_view simples.items) (read_all spec_read_simple units.now) ≡ (map simple_view x.0.items, x.1.now)) }
{
    let mut rest = units;
    while let Some((simple, behind)) = read_simple(alloc, rest)? {
        simples.push(simple)?;
        rest = behind;
    }
    Ok((simples, rest))
}

/// The simple selector that NAME or `*` is, if it stands here.
fn read_type(alloc: Global, units: &[u16]) -> Result<(Vec<Simple>, &[u16]), AllocError>
    ensures { IfOk result (λ x. spec_read_type units.now ≡ (map simple_view x.0.items, x.1.now)) }
{
    let mut simples = Vec::new(alloc);
    match read_type_name(alloc, units)? {
        Some((name, rest)) => {
            simples.push(name)?;
            Ok((simples, rest))
        }
        None => Ok((simples, units)),
    }
}

/// A compound without `:not`.
fn read_simple_compound(
    alloc: Global,
    units: &[u16],
) -> Result<Option<(Vec<Simple>, &[u16])>, AllocError>
    ensures { Reads (λ x. (map simple_view x.0.items, x.1.now)) result (read_compound_of (λ s. s) spec_read_simple units.now) }
{
    let (typed, rest) = read_type(alloc, units)?;
    let (simples, rest) = read_simples(alloc, typed, rest)?;
    if simples.is_empty() {
        return Ok(None);
    }
    Ok(Some((simples, rest)))
}

/// `:not(C)`.
fn read_not(alloc: Global, units: &[u16]) -> Result<Option<(CompoundPart, &[u16])>, AllocError>
    ensures { Reads (λ x. (part_view x.0, x.1.now)) result (spec_read_not units.now) }
{
    let Some(rest) = expect(b":not(", units) else {
        return Ok(None);
    };
    let Some((simples, rest)) = read_simple_compound(alloc, skip_space(rest))? else {
        return Ok(None);
    };
    let Some(rest) = expect(b")", skip_space(rest)) else {
        return Ok(None);
    };
    Ok(Some((CompoundPart::IsNot(Simples::of(simples)), rest)))
}

/// A part of a compound.
fn read_part(alloc: Global, units: &[u16]) -> Result<Option<(CompoundPart, &[u16])>, AllocError>
    ensures { Reads (λ x. (part_view x.0, x.1.now)) result (spec_read_part units.now) }
{
    if let Some((simple, rest)) = read_simple(alloc, units)? {
        return Ok(Some((CompoundPart::Is(simple), rest)));
    }
    read_not(alloc, units)
}

/// More parts of a compound behind those that were read.
fn read_parts(
    alloc: Global,
    mut parts: Vec<CompoundPart>,
    units: &[u16],
) -> Result<(Vec<CompoundPart>, &[u16]), AllocError>
    ensures { IfOk result (λ x. behind_list (compound_view parts.items) (read_all spec_read_part units.now) ≡ (compound_view x.0.items, x.1.now)) }
{
    let mut rest = units;
    while let Some((part, behind)) = read_part(alloc, rest)? {
        parts.push(part)?;
        rest = behind;
    }
    Ok((parts, rest))
}

/// The part of a compound that NAME or `*` is, if it stands here.
fn read_type_part(alloc: Global, units: &[u16]) -> Result<(Vec<CompoundPart>, &[u16]), AllocError>
    ensures { IfOk result (λ x. as_parts (spec_read_type units.now) ≡ (compound_view x.0.items, x.1.now)) }
{
    let mut parts = Vec::new(alloc);
    match read_type_name(alloc, units)? {
        Some((name, rest)) => {
            parts.push(CompoundPart::Is(name))?;
            Ok((parts, rest))
        }
        None => Ok((parts, units)),
    }
}

/// A compound.
fn read_compound(alloc: Global, units: &[u16]) -> Result<Option<(Compound, &[u16])>, AllocError>
    ensures { Reads (λ x. (x.0, x.1.now)) result (spec_read_compound units.now) }
{
    let (typed, rest) = read_type_part(alloc, units)?;
    let (parts, rest) = read_parts(alloc, typed, rest)?;
    if parts.is_empty() {
        return Ok(None);
    }
    Ok(Some((Compound::of(parts), rest)))
}

/// `>`, `+` or `~`.
fn read_sign(units: &[u16]) -> Option<(Combinator, &[u16])>
    ensures { option_map (λ x. (combinator_view x.0, x.1.now)) result ≡ read_one_of combinator_signs units.now }
{
    match units {
        [62, rest @ ..] => Some((Combinator::Child, rest)),
        [43, rest @ ..] => Some((Combinator::Next, rest)),
        [126, rest @ ..] => Some((Combinator::Later, rest)),
        _ => None,
    }
}

/// `>`, `+` or `~` with white space around it, or white space alone.
fn read_combinator(units: &[u16]) -> Option<(Combinator, &[u16])>
    ensures { option_map (λ x. (combinator_view x.0, x.1.now)) result ≡ spec_read_combinator units.now }
{
    let spaced = skip_space(units);
    if let Some((combinator, rest)) = read_sign(spaced) {
        return Some((combinator, skip_space(rest)));
    }
    if spaced.len() < units.len() {
        Some((Combinator::Descendant, spaced))
    } else {
        None
    }
}

/// A combinator and the compound behind it.
fn read_link(alloc: Global, units: &[u16]) -> Result<Option<(Link, &[u16])>, AllocError>
    ensures { Reads (λ x. (link_view x.0, x.1.now)) result (spec_read_link units.now) }
{
    let Some((combinator, rest)) = read_combinator(units) else {
        return Ok(None);
    };
    let Some((compound, rest)) = read_compound(alloc, rest)? else {
        return Ok(None);
    };
    let link = Link {
        combinator,
        compound,
    };
    Ok(Some((link, rest)))
}

/// As many combinators with compounds as there are.
fn read_links(alloc: Global, units: &[u16]) -> Result<(Vec<Link>, &[u16]), AllocError>
    ensures { IfOk result (λ x. read_all spec_read_link units.now ≡ (map link_view x.0.items, x.1.now)) }
{
    let mut links = Vec::new(alloc);
    let mut rest = units;
    while let Some((link, behind)) = read_link(alloc, rest)? {
        links.push(link)?;
        rest = behind;
    }
    Ok((links, rest))
}

/// A compound, and then combinators with compounds.
fn read_complex(alloc: Global, units: &[u16]) -> Result<Option<(Complex, &[u16])>, AllocError>
    ensures { Reads (λ x. (complex_view x.0, x.1.now)) result (spec_read_complex units.now) }
{
    let Some((first, rest)) = read_compound(alloc, skip_space(units))? else {
        return Ok(None);
    };
    let (links, rest) = read_links(alloc, rest)?;
    Ok(Some((Complex { first, links }, rest)))
}

/// `,` and a complex selector.
fn read_next(alloc: Global, units: &[u16]) -> Result<Option<(Complex, &[u16])>, AllocError>
    ensures { Reads (λ x. (complex_view x.0, x.1.now)) result (spec_read_next units.now) }
{
    match expect(b",", skip_space(units)) {
        Some(rest) => read_complex(alloc, rest),
        None => Ok(None),
    }
}

/// More complex selectors behind the first one.
fn read_nexts(
    alloc: Global,
    first: Complex,
    units: &[u16],
) -> Result<(Vec<Complex>, &[u16]), AllocError>
    ensures { IfOk result (λ x. behind_list (complex_view first ∷ []) (read_all spec_read_next units.now) ≡ (map complex_view x.0.items, x.1.now)) }
{
    let mut complexes = Vec::new(alloc);
    complexes.push(first)?;
    let mut rest = units;
    while let Some((complex, behind)) = read_next(alloc, rest)? {
        complexes.push(complex)?;
        rest = behind;
    }
    Ok((complexes, rest))
}

/// A list of complex selectors, where only white space is behind them.
fn read_selector(alloc: Global, units: &[u16]) -> Result<Option<Selector>, AllocError>
    ensures { Reads selector_view result (parse_selectors units.now) }
{
    let Some((first, rest)) = read_complex(alloc, units)? else {
        return Ok(None);
    };
    let (complexes, rest) = read_nexts(alloc, first, rest)?;
    if !skip_space(rest).is_empty() {
        return Ok(None);
    }
    Ok(Some(Selector { complexes }))
}

impl Selector {
    /// The list of selectors that a text is (CSS Selectors Level 4, selector list, in this project's part). It is
    /// refused with `Selector` where the text is none, and with `Memory` where memory is refused.
    #[tactic(auto, using(crate::proofs::CompleteCombinators::said_parsed, crate::proofs::CompleteCombinators::unsaid, crate::proofs::SoundLists::parsed_says))]
    pub fn parse(alloc: Global, text: &[u16]) -> Result<Selector, Fault>
        ensures said { IfOk result (λ s. IsSelector text.now (selector_view s)) }
        ensures read { IfOk result (λ s. parse_selectors text.now ≡ Some (selector_view s)) }
        ensures unsaid { IfErr result (IsRefusalWhere ((s : List ComplexSelector) → IsSelector text.now s → ⊥)) }
        ensures unread { IfErr result (IsRefusalWhere (parse_selectors text.now ≡ None)) }
    {
        match read_selector(alloc, text)? {
            Some(selector) => Ok(selector),
            None => Err(Fault::Refused(Refusal::Selector)),
        }
    }
}
