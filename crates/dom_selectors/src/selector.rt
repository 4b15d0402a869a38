//! What a selector is made of.
ghost use Rattle.std.specs.Prelude.{◌≡◌};
ghost use Rattle.dom_selectors.specs.Signs.{CompoundShows, PartShows, PartsShow, SimpleShows, SimplesShow};
ghost use Rattle.dom_selectors.specs.Views.{compound_view, part_view, simple_view, simples_view};

use dom_attributes::Signs;
use dom_base::DomStr;
use std::marker::Model;

/// What is asked of an attribute's value: `=`, `~=`, `|=`, `^=`, `$=`, `*=`.
#[derive(Clone, Copy)]
pub(crate) enum AttributeTest {
    Equals,
    HasWord,
    BeginsWithDash,
    Begins,
    Ends,
    Holds,
}

/// A simple selector.
#[derive(Drop)]
pub(crate) enum Simple {
    /// `NAME`
    OfType(String),
    /// `*`
    OfAnyType,
    /// `#NAME`
    OfId(DomStr),
    /// `.NAME`
    OfClass(DomStr),
    /// `[NAME]`
    WithAttribute(String),
    /// `[NAME op VALUE]`
    WithValue(String, AttributeTest, DomStr),
    /// `:first-child`
    FirstChild,
    /// `:last-child`
    LastChild,
}

/// A part of a compound selector.
#[derive(Drop)]
pub(crate) enum CompoundPart {
    /// A simple selector.
    Is(Simple),
    /// `:not(..)` of a compound of simple selectors.
    IsNot(Simples),
}

/// Simple selectors, with signs that each node has which matches all of them.
#[derive(Drop)]
pub(crate) struct Simples {
    pub(crate) signs: Signs,
    pub(crate) list: Vec<Simple>,
}

impl Model for Simples {
    ghost use Rattle.std.specs.Prelude.{List};
    ghost use Rattle.dom_model.specs.Selectors as model;

    ghost Value = { List model.Simple };

    ghost use Rattle.dom_selectors.specs.Signs.{SimplesShow};
    ghost use Rattle.dom_selectors.specs.Views.{simples_view};

    ghost view = { λ s. simples_view s.list.items };

    ghost invariant = { λ s. SimplesShow (simples_view s.list.items) s.signs.bits };
}

impl Simples {
    /// Simple selectors with their signs.
    pub(crate) fn of(list: Vec<Simple>) -> Self
        ensures { result ≡ simples_view list.items }
    {
        let signs = signs_of_all(list.as_slice());
        Simples { signs, list }
    }
}

/// A compound, with signs that each node has which matches it.
#[derive(Drop)]
pub(crate) struct Compound {
    pub(crate) signs: Signs,
    pub(crate) parts: Vec<CompoundPart>,
}

impl Model for Compound {
    ghost use Rattle.std.specs.Prelude.{List};
    ghost use Rattle.dom_model.specs.Selectors as model;

    ghost Value = { List model.CompoundPart };

    ghost use Rattle.dom_selectors.specs.Signs.{CompoundShows};
    ghost use Rattle.dom_selectors.specs.Views.{compound_view};

    ghost view = { λ c. compound_view c.parts.items };

    ghost invariant = { λ c. CompoundShows (compound_view c.parts.items) c.signs.bits };
}

impl Compound {
    /// A compound with its signs: those of its simple selectors that are not negated.
    pub(crate) fn of(parts: Vec<CompoundPart>) -> Self
        ensures { result ≡ compound_view parts.items }
    {
        let signs = signs_of_parts(parts.as_slice());
        Compound { signs, parts }
    }

    /// Signs that each node has which matches the compound.
    #[inline(always)]
    pub(crate) fn signs(&self) -> Signs
        ensures { CompoundShows self.now result.bits }
    {
        self.signs
    }
}

/// Signs that each node has which matches a simple selector.
fn signs_of(simple: &Simple) -> Signs
    ensures { SimpleShows (simple_view simple.now) result.bits }
{
    match simple {
        Simple::OfType(name) => Signs::of_element(name.as_str()),
        Simple::OfId(id) => Signs::of_attribute("id").and(Signs::of_id(id.as_slice())),
        Simple::OfClass(class) => {
            Signs::of_attribute("class").and(Signs::of_class(class.as_slice()))
        }
        Simple::WithAttribute(name) | Simple::WithValue(name, _, _) => {
            Signs::of_attribute(name.as_str())
        }
        _ => Signs::none(),
    }
}

/// Signs that each node has which matches all of some simple selectors.
fn signs_of_all(simples: &[Simple]) -> Signs
    ensures { SimplesShow (simples_view simples.now) result.bits }
{
    let mut signs = Signs::none();
    for simple in simples {
        signs = signs.and(signs_of(simple));
    }
    signs
}

/// Signs that each node has which matches a part of a compound.
fn signs_of_part(part: &CompoundPart) -> Signs
    ensures { PartShows (part_view part.now) result.bits }
{
    match part {
        CompoundPart::Is(simple) => signs_of(simple),
        CompoundPart::IsNot(_) => Signs::none(),
    }
}

/// Signs that each node has which matches all of some parts of a compound.
fn signs_of_parts(parts: &[CompoundPart]) -> Signs
    ensures { PartsShow (compound_view parts.now) result.bits }
{
    let mut signs = Signs::none();
    for part in parts {
        signs = signs.and(signs_of_part(part));
    }
    signs
}

/// A combinator.
#[derive(Clone, Copy)]
pub(crate) enum Combinator {
    /// White space.
    Descendant,
    /// `>`
    Child,
    /// `+`
    Next,
    /// `~`
    Later,
}

/// A combinator with the compound behind it.
#[derive(Drop)]
pub(crate) struct Link {
    pub(crate) combinator: Combinator,
    pub(crate) compound: Compound,
}

/// A complex selector: a compound, and what is joined to it on the right.
#[derive(Drop)]
pub(crate) struct Complex {
    pub(crate) first: Compound,
    pub(crate) links: Vec<Link>,
}

/// A list of complex selectors (CSS Selectors Level 4, selector list).
#[derive(Drop)]
pub struct Selector {
    pub(crate) complexes: Vec<Complex>,
}
