//! Signs: a few bits for the local name, the attributes, the classes and the ID of a node. They tell at once that a node has not some of
//! them, so that most nodes that a selector does not match are passed without a look at what they hold (own rule).
ghost use Rattle.std.specs.Prelude.{◌≡◌, true, false, fold, bit_and, bit_or, List, []};
ghost use Rattle.std.specs.List.{list_any};
ghost use Rattle.dom_model.specs.Names.{Word, DomString, text_eq};
ghost use Rattle.dom_model.specs.Selectors.{is_space as spec_is_space, words_from};
ghost use Rattle.dom_model.specs.Tree.{Attribute};
ghost use Rattle.dom_model.specs.TreeChanges.{attributes_with};
ghost use Rattle.dom_attributes.specs.Attributes.{attributes_from};
ghost use Rattle.dom_attributes.specs.Signs.{mix, bits_of, element_bits, attribute_bits, class_bits, id_bits, HasBits, Cover, Gains};

use crate::texts::is_same_text;
use dom_base::DomStr;
use indexmap::IndexMap;

/// The multiplier of the numbers.
const MULTIPLIER: u64 = 0x9e37_79b9_7f4a_7c15;

/// The number of no units of a local name. It is another one for the name of an attribute, for a class and for an ID, so that these have
/// different bits where they are the same.
const ELEMENT: u64 = 1;

/// That of the name of an attribute.
const ATTRIBUTE: u64 = 2;

/// That of a class.
const CLASS: u64 = 3;

/// That of an ID.
const ID: u64 = 4;

/// A number for a list, from that of what stands before its last item.
#[inline(always)]
#[tactic(auto, unfolding(crate::specs::Signs::mix))]
pub fn mix(number: u64, item: u64) -> u64
    ensures { result ≡ mix number item }
{
    number.wrapping_mul(MULTIPLIER).wrapping_add(item)
}

/// One or two bits for a number.
#[inline(always)]
fn bits_of(number: u64) -> u32
    ensures { result ≡ bits_of number }
{
    let mixed = number.wrapping_mul(MULTIPLIER);
    1 << (mixed >> 59) | 1 << (mixed >> 54 & 31)
}

/// A number for a text, from that of no text.
#[inline(always)]
#[tactic(auto, using(std::proofs::lemmas::List::Sums::fold_more))]
fn text_number(none: u64, text: &str) -> u64
    ensures { result ≡ fold mix none text.now }
{
    let mut number = none;
    for byte in text.as_bytes() {
        number = mix(number, u64::from(*byte));
    }
    number
}

/// A number for a string of code units, from that of no string.
#[tactic(auto, using(std::proofs::lemmas::List::Sums::fold_more))]
fn string_number(none: u64, string: &[u16]) -> u64
    ensures { result ≡ fold mix none string.now }
{
    let mut number = none;
    for unit in string {
        number = mix(number, u64::from(*unit));
    }
    number
}

/// Whether a unit is white space (CSS Selectors Level 4, white space). Most are greater than all that is.
#[inline(always)]
pub fn is_space(unit: u16) -> bool
    ensures { result ≡ spec_is_space unit }
{
    unit <= 32 && matches!(unit, 9 | 10 | 12 | 13 | 32)
}

/// The signs of some names, classes and IDs (own rule). Different ones may have the same signs.
#[derive(Clone, Copy)]
pub struct Signs {
    bits: u32,
}

impl Signs {
    /// No signs.
    pub fn none() -> Signs
        ensures { result.bits ≡ 0 }
    {
        Signs { bits: 0 }
    }

    /// Those of a local name.
    #[inline(always)]
    pub fn of_element(name: &str) -> Signs
        ensures { result.bits ≡ element_bits name.now }
    {
        Signs {
            bits: bits_of(text_number(ELEMENT, name)),
        }
    }

    /// Those of the name of an attribute.
    #[inline(always)]
    pub fn of_attribute(name: &str) -> Signs
        ensures { result.bits ≡ attribute_bits name.now }
    {
        Signs {
            bits: bits_of(text_number(ATTRIBUTE, name)),
        }
    }

    /// Those of a class.
    pub fn of_class(class: &[u16]) -> Signs
        ensures { result.bits ≡ class_bits class.now }
    {
        Signs {
            bits: bits_of(string_number(CLASS, class)),
        }
    }

    /// Those of an ID.
    pub fn of_id(id: &[u16]) -> Signs
        ensures { result.bits ≡ id_bits id.now }
    {
        Signs {
            bits: bits_of(string_number(ID, id)),
        }
    }

    /// Whether all of some signs are among these.
    #[inline(always)]
    pub fn have(self, signs: Signs) -> bool
        ensures yes { result ≡ true → HasBits self.bits signs.bits }
        ensures no { result ≡ false → HasBits self.bits signs.bits → ⊥ }
    {
        self.bits & signs.bits == signs.bits
    }

    /// These, and others.
    #[inline(always)]
    pub fn and(self, signs: Signs) -> Signs
        ensures { result.bits ≡ bit_or self.bits signs.bits }
    {
        Signs {
            bits: self.bits | signs.bits,
        }
    }

    /// Those of these that are among others.
    #[inline(always)]
    pub fn common(self, signs: Signs) -> Signs
        ensures { result.bits ≡ bit_and self.bits signs.bits }
    {
        Signs {
            bits: self.bits & signs.bits,
        }
    }

    /// The signs of a node with this local name and no attributes.
    pub fn of_bare(name: &str) -> Signs
        ensures { Cover result name.now [] }
    {
        Signs::of_element(name)
    }

    /// These, and those of the attributes of a map, which a node without attributes gets.
    #[inline(always)]
    pub fn with_attributes(self, attributes: &IndexMap<String, DomStr>) -> Signs
        ensures { (element : Word) → Cover self element [] → Cover result element (attributes_from attributes.now.entries) }
    {
        let mut signs = self;
        for index in 0..attributes.len() {
            if let Some((name, value)) = attributes.get_index(index) {
                signs.gain(name.as_str(), value.as_slice());
            }
        }
        signs
    }

    /// Adds those of an attribute that a node gets. The classes of a node are what white space parts the value of its attribute `class`
    /// into, and its ID is the value of its attribute `id` (DOM Standard, concept: ID; of classes 4.9, interface Element).
    #[inline(always)]
    pub fn add(&mut self, name: &str, value: &[u16])
        ensures { (element : Word) (attributes : List Attribute) → Cover self.old element attributes →
            Cover self.new element (attributes_with name.now value.now attributes) }
    {
        self.gain(name, value);
    }

    /// Adds those of an attribute to those that are there.
    #[inline(always)]
    fn gain(&mut self, name: &str, value: &[u16])
        ensures { Gains self.old.bits self.new.bits name.now value.now }
    {
        let mut bits = self.bits | Signs::of_attribute(name).bits;
        if is_same_text(name, "class") {
            bits |= classes_bits(value);
        }
        if is_same_text(name, "id") {
            bits |= Signs::of_id(value).bits;
        }
        self.bits = bits;
    }
}

/// The bits of the classes into which white space parts a value.
fn classes_bits(value: &[u16]) -> u32
    ensures { (w : DomString) → list_any (text_eq w) (words_from [] value.now) ≡ true → HasBits result (class_bits w) }
{
    let mut bits = 0;
    let mut number = CLASS;
    for unit in value {
        if is_space(*unit) {
            bits |= bits_of(number);
            number = CLASS;
        } else {
            number = mix(number, u64::from(*unit));
        }
    }
    bits | bits_of(number)
}
