//! Words of commands: labels and numbers that stand for words.

ghost use Rattle.std.specs.Prelude.{◌≡◌, IfOk, IfErr, Some, None, Ok, Err, string_bytes};
ghost use Rattle.dom_base.specs.declared.Fault.TheVariants.{Refused};
ghost use Rattle.dom_base.specs.declared.Refusal.TheVariants.{Syntax};
ghost use Rattle.std.specs.List.{list_all};
ghost use Rattle.dom_text.specs.Tokens.{is_label_byte as spec_is_label_byte};
ghost use Rattle.dom_reader.specs.Views.{filter_view, show_view};
ghost use Rattle.dom_calls.specs.Asked.{IsRefusedAs, action_numbered, filter_named, has_bit, is_label as spec_is_label, is_within as spec_is_within};
ghost use Rattle.dom_calls.specs.Asked.{kinds_shown};

use dom_base::{Action, Fault, Refusal, Verdict};
use dom_reader::{Filter, NameFilter, Show};

/// Whether the byte may stand in a label: a letter, a digit, `-`, `_`, `.` or `:`.
fn is_label_byte(b: u8) -> bool
    ensures { result ≡ spec_is_label_byte b }
{
    b.is_ascii_alphabetic()
        || b == b'_'
        || b.is_ascii_digit()
        || b == b'-'
        || b == b'.'
        || b == b':'
}

/// Whether each byte may stand in a label.
fn all_label_bytes(bytes: &[u8]) -> bool
    ensures { result ≡ list_all spec_is_label_byte bytes.now }
{
    bytes.iter().all(|b| is_label_byte(*b))
}

/// Whether the text is a label, as types of events are too: 1 to 64 letters, digits, `-`, `_`, `.` and `:`.
pub(crate) fn is_label(text: &[u8]) -> bool
    ensures { result ≡ spec_is_label text.now }
{
    !text.is_empty() && (text.len() <= 64 && all_label_bytes(text))
}

/// Whether a number has no bits but these.
pub(crate) fn is_within(flags: u32, bits: u32) -> bool
    ensures { result ≡ spec_is_within flags bits }
{
    flags & bits == flags
}

/// Whether a number has this bit.
pub(crate) fn has(flags: u32, bit: u32) -> bool
    ensures { result ≡ has_bit flags bit }
{
    flags & bit != 0
}

/// What a listener does: log (0), stop (1), stop-now (2) or cancel (3). A live one (4) is not supported, and other numbers are no action.
pub(crate) fn listener_action(action: u32) -> Result<Action, Fault>
    ensures ok { IfOk result (λ known. action_numbered action ≡ Ok known) }
    ensures err { IfErr result (λ fault. IsRefusedAs fault (action_numbered action)) }
{
    match action {
        0 => Ok(Action::Log),
        1 => Ok(Action::Stop),
        2 => Ok(Action::StopNow),
        3 => Ok(Action::Cancel),
        4 => Err(Fault::Refused(Refusal::NotSupported)),
        _ => Err(Fault::Refused(Refusal::Syntax)),
    }
}

/// The filter of an iterator or a walker, by the bits of what it shows and its verdict on elements of this name, of which 1 has no name.
pub(crate) fn cursor_filter(what_to_show: u32, verdict: u32, name: String) -> Result<Filter, Fault>
    ensures ok { IfOk result (λ filter. filter_named what_to_show verdict (string_bytes name) ≡ Some (filter_view filter)) }
    ensures err { IfErr result (λ fault. (fault ≡ Refused Syntax) × (filter_named what_to_show verdict (string_bytes name) ≡ None)) }
{
    let named = match verdict {
        1 => None,
        2 => Some(NameFilter {
            name,
            verdict: Verdict::Reject,
        }),
        3 => Some(NameFilter {
            name,
            verdict: Verdict::Skip,
        }),
        _ => return Err(Fault::Refused(Refusal::Syntax)),
    };
    Ok(Filter {
        shown: shown_kinds(what_to_show),
        named,
    })
}

/// The kinds that bits show: those of the Standard's NodeFilter.
fn shown_kinds(what_to_show: u32) -> Show
    ensures { show_view result ≡ kinds_shown what_to_show }
{
    Show {
        element: has(what_to_show, 1),
        text: has(what_to_show, 4),
        comment: has(what_to_show, 128),
        document: has(what_to_show, 256),
        fragment: has(what_to_show, 1024),
    }
}
