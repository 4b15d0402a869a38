//! Which elements may be hosts, by their names (DOM Standard, concept: valid shadow host name).
ghost use Rattle.std.specs.Prelude.{◌≡◌, ◌==◌, ◌||◌, drop};
ghost use Rattle.std.specs.List.{list_all, list_any};
ghost use Rattle.dom_model.specs.Names.{text_eq, is_in};
ghost use Rattle.dom_model.specs.CommandRefusals.{may_be_host, host_words, reserved_words, is_custom_word, is_lower};

/// Whether an element of this name may be a host: it is one of eighteen names, or that of a custom element.
pub(crate) fn may_be_host(name: &str) -> bool
    ensures { result ≡ may_be_host name.now }
{
    is_host_word(name) || is_custom_word(name)
}

/// Whether a name is one of the eighteen.
fn is_host_word(name: &str) -> bool
    ensures { result ≡ is_in text_eq name.now host_words }
{
    is_word(name, "article")
        || is_word(name, "aside")
        || is_word(name, "blockquote")
        || is_word(name, "body")
        || is_word(name, "div")
        || is_word(name, "footer")
        || is_word(name, "h1")
        || is_word(name, "h2")
        || is_word(name, "h3")
        || is_word(name, "h4")
        || is_word(name, "h5")
        || is_word(name, "h6")
        || is_word(name, "header")
        || is_word(name, "main")
        || is_word(name, "nav")
        || is_word(name, "p")
        || is_word(name, "section")
        || is_word(name, "span")
}

/// Whether a name is that of a custom element: a small letter, then small letters, digits and hyphens, with one hyphen at
/// least, and no reserved word (HTML Standard, valid custom element name; ASCII alone is an own rule).
fn is_custom_word(name: &str) -> bool
    ensures { result ≡ is_custom_word name.now }
{
    match name.as_bytes() {
        [] => false,
        [first, others @ ..] => {
            is_lower(*first)
                && all_continue(others)
                && has_hyphen(others)
                && !is_reserved_word(name)
        }
    }
}

/// Whether a custom element's name can go on with each of these bytes.
fn all_continue(bytes: &[u8]) -> bool
    ensures { result ≡ list_all (λ b. is_lower b || (Rattle.dom_model.specs.Names.is_digit b || (b == 45))) bytes.now }
{
    bytes
        .iter()
        .all(|b| is_lower(*b) || b.is_ascii_digit() || *b == b'-')
}

/// Whether a hyphen is among these bytes.
fn has_hyphen(bytes: &[u8]) -> bool
    ensures { result ≡ list_any (λ b. b == 45) bytes.now }
{
    bytes.iter().any(|b| *b == b'-')
}

/// Whether a byte is a small letter.
fn is_lower(byte: u8) -> bool
    ensures { result ≡ is_lower byte }
{
    byte.is_ascii_lowercase()
}

/// Whether a name is reserved.
fn is_reserved_word(name: &str) -> bool
    ensures { result ≡ is_in text_eq name.now reserved_words }
{
    is_word(name, "annotation-xml") || is_word(name, "color-profile") || is_font_word(name)
}

/// Whether a name is one of those that SVG fonts have.
fn is_font_word(name: &str) -> bool
    ensures { result ≡ is_in text_eq name.now (drop 2 reserved_words) }
{
    is_word(name, "font-face")
        || is_word(name, "font-face-src")
        || is_word(name, "font-face-uri")
        || is_later_font_word(name)
}

/// Whether a name is one of the last three of these.
fn is_later_font_word(name: &str) -> bool
    ensures { result ≡ is_in text_eq name.now (drop 5 reserved_words) }
{
    is_word(name, "font-face-format")
        || is_word(name, "font-face-name")
        || is_word(name, "missing-glyph")
}

/// Whether a text is this word.
fn is_word(text: &str, other: &str) -> bool
    ensures { result ≡ text_eq text.now other.now }
{
    text == other
}
