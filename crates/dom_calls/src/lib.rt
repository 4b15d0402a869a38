//! Documents for C by calls: nodes by number, strings by code units, answers in arrays. `dom_c` exports what stands here, and
//! `bindings/c/owlantimony_typed.h` declares it.
//!
//! A handle is a block of the caller's own (`DomDocument`). All zero bytes are a closed handle. Each call but those on the document itself names the
//! owner who acts, by its place in a table of the owners that were shown: 0 is the page. All own rules.
#![tactic(auto)]

mod arrays;
mod asking;
mod commands;
mod document;
mod held;
mod lending;
mod looks;
mod observing;
mod owners;
mod place;
mod replies;
mod shapes;
mod shown;
mod structs;
#[cfg(test)]
mod tests;
mod told;
mod words;

pub use commands::{
    asked, attribute, dispatch, listen, matches, micro, new_comment, new_element, new_iterator,
    new_observer, new_text, new_walker, query, replace_data, set_attribute, set_data, set_text,
    unlisten, unset_attribute, walk, word,
};
pub use document::{CLOSED, DONE, DomDocument, MEMORY, OPEN, UNKNOWN};
pub use observing::observe;
pub use structs::{
    DomAnswer, DomAttribute, DomDelivery, DomLinks, DomNode, DomPoint, DomRow, DomSpan, NONE,
};
