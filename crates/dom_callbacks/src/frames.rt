//! What is under way: events, notifications, microtasks and checkpoints.

use crate::visits::{Visit, VisitUnderWay};
use dom_base::{NodeName, Owner};
use dom_reader::EventWords;
use std::collections::VecDeque;

/// An event under way (DOM Standard, concept: dispatch; 2.2: event flags).
#[derive(Drop)]
pub struct EventUnderWay {
    pub event: EventWords,
    /// Who dispatched it, if an owner did.
    pub by: Option<Owner>,
    /// The visits to come.
    pub visits: VecDeque<Visit>,
    /// The visit that is made, if one is.
    pub visiting: Option<VisitUnderWay>,
    /// The stop propagation flag.
    pub stopped: bool,
    /// The canceled flag.
    pub cancelled: bool,
}

/// A notification of an owner's mutation observers (DOM Standard, notify mutation observers).
#[derive(Drop)]
pub struct Notification {
    pub owner: Owner,
    /// The numbers of the observers that are still to be told.
    pub observers: VecDeque<u32>,
    /// The slots at which `slotchange` is still to be fired.
    pub slots: VecDeque<NodeName>,
    /// The observer that is called and has not returned.
    pub called: Option<u32>,
}

/// Whose a microtask checkpoint is (HTML Standard, perform a microtask checkpoint; own rule).
#[derive(Clone, Copy)]
pub enum Checkpoint {
    /// An owner's, who is replied when it is over.
    AskedBy(Owner),
    /// The event loop's.
    OfLoop,
    /// That of the end of input.
    OfEnd,
}

/// What is under way.
#[derive(Drop)]
pub enum Frame {
    Event(EventUnderWay),
    Notification(Notification),
    /// A microtask, whose owner is called and has not returned.
    Microtask(Owner),
    Checkpoint(Checkpoint),
}
