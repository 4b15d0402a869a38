//! Sessions and documents for C: what the static library exports. `bindings/c/owlantimony.h` declares the sessions, which take lines, and
//! `bindings/c/owlantimony_typed.h` the documents, which take calls (`dom_calls`).
//!
//! A handle is a block of the caller's own. If all its bytes are zero it is closed. `dom_session_new` opens it, and `dom_session_drop`
//! closes it. Each call answers a status: `DONE`, or why not. After memory ran out in a line, an ending or a view, every later call
//! except `dom_session_drop` answers `MEMORY`. All of these are own rules.
#![tactic(auto)]

mod content;
mod cursors;
mod documents;
mod events;
mod exports;
mod handle;
mod held;
mod looks;
mod making;
mod observing;
mod place;
mod ranges;
mod reads;
mod trees;

pub use exports::{
    CLOSED, DONE, MEMORY, OPEN, OWNER, SHORT, dom_session_answer, dom_session_drop,
    dom_session_finish, dom_session_line, dom_session_new, dom_session_text, dom_session_view,
};
pub use handle::DomSession;
