//! The words of a line of the protocol, read one after the other from the front of its bytes: plain words, flags, strings,
//! numbers, labels and names, and the words that say kinds, actions, moves and ends. All own rules.
#![tactic(auto)]

mod labels;
mod not_read;
mod numbers;
mod strings;
mod vocabulary;
mod words;

pub use labels::is_name;
pub use not_read::NotRead;
pub use numbers::{number_of, positive_at, positive_of};
pub use words::{WordReader, text_of, word_at};
