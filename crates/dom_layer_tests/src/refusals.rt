//! The numbers and the words of the refusals.
use dom_base::Refusal;

// The thirteen refusals in the order of their tests.
const REFUSALS: [Refusal; 13] = [
    Refusal::Syntax,
    Refusal::Busy,
    Refusal::Foreign,
    Refusal::Unknown,
    Refusal::WrongKind,
    Refusal::Hierarchy,
    Refusal::NotFound,
    Refusal::NotSupported,
    Refusal::InvalidCharacter,
    Refusal::Selector,
    Refusal::IndexSize,
    Refusal::TypeFault,
    Refusal::Limit,
];

// Their words.
const WORDS: &str =
    "syntax busy foreign unknown wrong-kind hierarchy not-found not-supported invalid-character selector index-size type limit";

#[test]
fn refusals_have_their_numbers_and_words(rt: HostRuntime) {
    let mut words = WORDS.split(' ');
    for (i, refusal) in REFUSALS.iter().enumerate() {
        assert!(rt; refusal.number() as usize == i + 1);
        assert!(rt; words.next() == Some(refusal.word()));
    }
    assert!(rt; words.next().is_none());
}
