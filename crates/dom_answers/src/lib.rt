//! Where the answer of a command goes. A type with `Answers` takes the items of an answer, one after another: a buffer of bytes takes
//! them as the text of lines, and an `Answer` as values over flat arrays.
#![tactic(auto)]

mod answer;
mod answers;
mod items;
mod pools;
mod rows;
mod saying;
#[cfg(test)]
mod tests;
mod text;
mod values;

pub use answer::{Answer, law_text};
pub use answers::Answers;
pub use items::{AttributeSpans, Call, Item, Mutation, NodeRow, Reply, Row, Said, Span};
