//! Labels, which types of events are too, and names.

ghost use Rattle.std.specs.Prelude.{◌≡◌, ◌&&◌, nat_lt, nat_le, length, string_bytes, IsTrue};
ghost use Rattle.std.specs.List.{list_all};
ghost use Rattle.dom_model.specs.Names.{begins_name as spec_begins_name, continues_name as spec_continues_name, is_name as spec_is_name};
ghost use Rattle.dom_text.specs.Tokens.{is_label_byte as spec_is_label_byte};
ghost use Rattle.dom_text.specs.Forms.{label_at};
ghost use Rattle.dom_words.specs.Gives.{Takes};

use crate::not_read::NotRead;
use crate::words::{WordReader, text_of};
use std::alloc::Global;

/// Whether a name may begin with the byte: a letter or `_`.
fn begins_name(b: u8) -> bool
    ensures { result ≡ spec_begins_name b }
{
    b.is_ascii_alphabetic() || b == b'_'
}

/// Whether a name may go on with the byte: a letter, a digit, `-` or `_`.
fn continues_name(b: u8) -> bool
    ensures { result ≡ spec_continues_name b }
{
    begins_name(b) || b.is_ascii_digit() || b == b'-'
}

/// Whether the byte may stand in a label: a letter, a digit, `-`, `_`, `.` or `:`.
fn is_label_byte(b: u8) -> bool
    ensures { result ≡ spec_is_label_byte b }
{
    continues_name(b) || b == b'.' || b == b':'
}

/// Whether a name may go on with these bytes.
fn all_continue_name(bytes: &[u8]) -> bool
    ensures { result ≡ list_all spec_continues_name bytes.now }
{
    bytes.iter().all(|b| continues_name(*b))
}

/// Whether the text is a name (own rule): a letter or `_`, and then letters, digits, `-` and `_`.
pub fn is_name(text: &[u8]) -> bool
    ensures { result ≡ spec_is_name text.now }
{
    match text {
        [] => false,
        [first, others @ ..] => begins_name(*first) && all_continue_name(others),
    }
}

/// Whether each byte may stand in a label.
fn all_label_bytes(bytes: &[u8]) -> bool
    ensures { result ≡ list_all spec_is_label_byte bytes.now }
{
    bytes.iter().all(|b| is_label_byte(*b))
}

/// Whether the text is a label: 1 to 64 letters, digits, `-`, `_`, `.` and `:`.
fn is_label(text: &[u8]) -> bool
    ensures { result ≡ (nat_lt 0 (length text.now) && (nat_le (length text.now) 64 && list_all spec_is_label_byte text.now)) }
{
    !text.is_empty() && (text.len() <= 64 && all_label_bytes(text))
}

impl WordReader<'_> {
    /// The next word as the type of an event, or a label: 1 to 64 letters, digits, `-`, `_`, `.` and `:`.
    pub fn label(&mut self, alloc: Global) -> Result<String, NotRead>
        ensures { Takes string_bytes result (label_at self.old) self.new }
    {
        let word = self.word()?;
        if !is_label(word) {
            return Err(NotRead::Syntax);
        }
        Ok(text_of(alloc, word)?)
    }
}
