//! Registrations of observers on nodes.
ghost use Rattle.std.specs.Prelude.{◌≡◌, nat_eq, not, false, option_map, is_some, IfOk, ◌&&◌};
ghost use Rattle.dom_model.specs.Observers.{fits, is_transient, is_asked_for, stems_from};
ghost use Rattle.dom_observers.specs.Views.{change_of, registration_of, source_of, there_in};
ghost use Rattle.dom_observers.specs.Taking.{transient_copy};

use crate::change::Change;
use crate::options::Options;
use node_arena::Key;
use std::alloc::AllocError;
use std::rc::Rc;

/// Why a registration is there (DOM Standard, concept: transient registered observer): it was asked for, or it is a
/// transient copy of the one asked for on a node, or of a transient one.
#[derive(Clone, Copy)]
pub enum Source {
    AskedFor,
    CopiedFrom(Key),
    CopiedFromTransient,
}

/// A registration of an observer on a node (DOM Standard, concept: registered observer). Its transient copies share its
/// options. One that has gone stays in its place of a list until the places are closed up.
#[derive(Drop)]
pub struct Registered {
    pub node: Key,
    pub observer: u32,
    pub options: Rc<Options>,
    pub source: Source,
    pub has_gone: bool,
}

impl Registered {
    /// Whether it fits a change of its node or one below that (DOM Standard, queue a mutation record).
    pub(crate) fn fits(&self, change: &Change) -> bool
        ensures { result ≡ fits nat_eq (change_of change.now) (registration_of self.now) }
    {
        self.options.ask_for(change) && (self.node == change.target() || self.options.subtree)
    }

    /// Whether it is transient (DOM Standard, concept: transient registered observer).
    pub(crate) fn is_transient(&self) -> bool
        ensures { result ≡ is_transient (source_of self.now.source) }
    {
        !matches!(self.source, Source::AskedFor)
    }

    /// Whether it is the one that an observer asked for on a node (DOM Standard, observe()).
    pub(crate) fn is_asked_for(&self, observer: u32, node: Key) -> bool
        ensures { result ≡ is_asked_for nat_eq observer node (registration_of self.now) }
    {
        self.observer == observer && self.node == node && !self.is_transient()
    }

    /// Whether it is a transient copy of the one that an observer asked for on a node (DOM Standard, observe()).
    pub(crate) fn stems_from(&self, observer: u32, node: Key) -> bool
        ensures { result ≡ (nat_eq self.now.observer observer && stems_from nat_eq node (source_of self.now.source)) }
    {
        match self.source {
            Source::CopiedFrom(from) => self.observer == observer && node == from,
            _ => false,
        }
    }

    /// A transient copy for a removed node (DOM Standard, remove).
    pub(crate) fn copied_to(&self, node: Key) -> Result<Registered, AllocError>
        ensures copy { IfOk result (λ r. registration_of r ≡ transient_copy node (registration_of self.now)) }
        ensures there { IfOk result (λ r. r.has_gone ≡ false) }
    {
        let source = if self.is_transient() {
            Source::CopiedFromTransient
        } else {
            Source::CopiedFrom(self.node)
        };
        Ok(Registered {
            node,
            observer: self.observer,
            options: self.options.clone()?,
            source,
            has_gone: false,
        })
    }
}

/// The registration in a place of a list, unless it has gone.
pub(crate) fn there_at(registrations: &[Registered], place: usize) -> Option<&Registered>
    ensures { option_map (λ r. registration_of r.now) result ≡ there_in registrations.now place }
{
    match registrations.get(place) {
        Some(registered) if !registered.has_gone => Some(registered),
        _ => None,
    }
}

/// Whether a place of a list has a registration that has not gone.
pub(crate) fn is_there(registrations: &[Registered], place: usize) -> bool
    ensures { result ≡ is_some (there_in registrations.now place) }
{
    there_at(registrations, place).is_some()
}
