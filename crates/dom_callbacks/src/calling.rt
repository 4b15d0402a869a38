//! Calls of an owner.

use dom_base::Owner;

/// What is called, and what its owner is told of it.
#[derive(Clone, Copy)]
pub enum Called {
    /// A listener, of an event that may be cancelled, and is or is not.
    Event {
        bubbles: bool,
        cancelable: bool,
        composed: bool,
        prevented: bool,
    },
    /// The mutation observer with this number.
    Observer(u32),
    /// A microtask.
    Microtask,
}

/// A call of an owner. It is under way until the owner gives it back.
#[derive(Clone, Copy)]
pub struct Calling {
    pub owner: Owner,
    pub called: Called,
}
