//! The texts that were parsed last.
ghost use Rattle.std.specs.Prelude.{◌≡◌, ◌<◌, [], length, slice_get, IfOk, IfErr, IfSome, OnErr, None, Some};
ghost use Rattle.dom_model.specs.SelectorText.{parse_selectors};
ghost use Rattle.dom_selectors.specs.Parsed.{selectors_in, HasText};
ghost use Rattle.dom_selectors.specs.Reads.{IsRefusalWhere};
ghost use Rattle.dom_selectors.specs.Views.{selector_view};

use crate::selector::Selector;
use dom_attributes::is_same_string;
use dom_base::{DomStr, Fault};
use std::alloc::Global;
use std::marker::Model;

/// How many texts are kept at most.
const MOST: usize = 16;

/// A text, and the list of selectors that it is.
#[derive(Drop)]
pub(crate) struct Parsed {
    text: DomStr,
    selector: Selector,
}

/// The texts that were parsed last, each with the list of selectors that it is, so that none of them is parsed again. They are given by
/// their places (own rule).
#[derive(Drop)]
pub struct ParsedTexts {
    kept: Vec<Parsed>,
    /// The place of the one that is given up next, where there is no room for more.
    oldest: usize,
    alloc: Global,
}

impl Model for ParsedTexts {
    ghost use Rattle.std.specs.Prelude.{◌<◌, List};
    ghost use Rattle.std.specs.List.{All};
    ghost use Rattle.dom_selectors.specs.Parsed.{IsParsed};
    ghost use Rattle.dom_selectors.specs.declared.parsed.Parsed as parsed;

    ghost Value = { List parsed.Parsed };

    ghost view = { λ p. p.kept.items };

    ghost invariant = { λ p. All IsParsed p.kept.items × (p.oldest < 16) };
}

/// The place of a text among those that are kept, if it is one of them.
fn place_of(kept: &[Parsed], text: &[u16]) -> Option<usize>
    ensures { IfSome result (HasText kept.now text.now) }
{
    for place in 0..kept.len() {
        if is_same_string(&kept[place].text, text) {
            return Some(place);
        }
    }
    None
}

impl ParsedTexts {
    /// No texts. It takes no memory yet.
    pub fn new(alloc: Global) -> ParsedTexts
        ensures { selectors_in result ≡ [] }
    {
        ParsedTexts {
            kept: Vec::new(alloc),
            oldest: 0,
            alloc,
        }
    }

    /// The place of the list of selectors that a text is (CSS Selectors Level 4, selector list, in this project's part). It is parsed if it
    /// is not among the last sixteen. It is refused as `Selector::parse` refuses it, and then those that are kept stay.
    pub fn parse(&mut self, text: DomStr) -> Result<usize, Fault>
        ensures within { IfOk result (λ place. place < length (selectors_in self.new)) }
        ensures read { IfOk result (λ place. slice_get (selectors_in self.new) place ≡ parse_selectors text.items) }
        ensures unread { IfErr result (IsRefusalWhere (parse_selectors text.items ≡ None)) }
        ensures err { OnErr result (self.new ≡ self.old) }
    {
        match place_of(&self.kept, &text) {
            Some(place) => Ok(place),
            None => self.keep(text),
        }
    }

    /// Parses a text and keeps it. Where there is no room for more, the one that was kept longest is given up.
    fn keep(&mut self, text: DomStr) -> Result<usize, Fault>
        ensures within { IfOk result (λ place. place < length (selectors_in self.new)) }
        ensures read { IfOk result (λ place. slice_get (selectors_in self.new) place ≡ parse_selectors text.items) }
        ensures unread { IfErr result (IsRefusalWhere (parse_selectors text.items ≡ None)) }
        ensures err { OnErr result (self.new ≡ self.old) }
    {
        let selector = Selector::parse(self.alloc, &text)?;
        let parsed = Parsed { text, selector };
        if self.kept.len() < MOST {
            self.kept.push(parsed)?;
            return Ok(self.kept.len() - 1);
        }
        let place = self.oldest;
        self.kept[place] = parsed;
        self.oldest = (place + 1) % MOST;
        Ok(place)
    }

    /// The list of selectors at a place.
    pub fn at(&self, place: usize) -> &Selector
        requires { place < length (selectors_in self.now) }
        ensures { slice_get (selectors_in self.now) place ≡ Some (selector_view result.now) }
    {
        &self.kept[place].selector
    }
}
