//! Whether texts and strings are the same.
ghost use Rattle.std.specs.Prelude.{◌≡◌};
ghost use Rattle.std.specs.Str.{bytes_eq};
ghost use Rattle.dom_model.specs.Names.{text_eq};

/// Whether two texts are the same, as a rule names of elements, attributes or events. They are compared byte by byte, since most
/// are short, and in line.
#[inline(always)]
pub fn is_same_text(text: &str, other: &str) -> bool
    ensures text { result ≡ text_eq text.now other.now }
    ensures bytes { result ≡ bytes_eq text.now other.now }
{
    let bytes = text.as_bytes();
    let others = other.as_bytes();
    if bytes.len() != others.len() {
        return false;
    }
    for index in 0..bytes.len() {
        if bytes[index] != others[index] {
            return false;
        }
    }
    true
}

/// Whether two strings of code units are the same. They are compared unit by unit, since most are short.
pub fn is_same_string(string: &[u16], other: &[u16]) -> bool
    ensures { result ≡ text_eq string.now other.now }
{
    if string.len() != other.len() {
        return false;
    }
    for index in 0..string.len() {
        if string[index] != other[index] {
            return false;
        }
    }
    true
}
