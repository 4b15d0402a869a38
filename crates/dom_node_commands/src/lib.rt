//! The commands that make nodes and change them: making, moving, attributes, data and shadow trees. Each first lets the line pass,
//! with the tests that all commands share, then makes its own tests and its change, and last opens the owner's turn and replies.
#![tactic(auto)]

pub mod attributes;
pub mod data;
pub mod making;
pub mod moving;
pub mod shadows;

use dom_printer::Value;

/// The value of a reply that has none. It stands once, so that no line makes it anew.
pub(crate) static NOTHING: Value<'static> = Value::Nothing;
