//! The parts of a text between bytes of one kind.

ghost use Rattle.std.specs.Prelude.{◌≡◌, ◌==◌, ◌∷◌, ◌<◌, length, IfSome};
ghost use Rattle.std.specs.List.{slice_split};
ghost use Rattle.dom_reader.specs.Filters.{parts_view};

use memchr::memchr;

/// The part of a text before the first of these bytes, and the text behind that one, if it is there.
pub fn first_part(byte: u8, text: &[u8]) -> (&[u8], Option<&[u8]>)
    ensures parts { slice_split (λ b. b == byte) text.now ≡ result.0.now ∷ parts_view byte result.1 }
    ensures shorter { IfSome result.1 (λ others. length others.now < length text.now) }
{
    match memchr(byte, text) {
        Some(place) => (&text[..place], Some(&text[place + 1..])),
        None => (text, None),
    }
}
