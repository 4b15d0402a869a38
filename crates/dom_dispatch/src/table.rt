//! Where listeners stand.
ghost use Rattle.std.specs.Prelude.{◌≡◌, ℕ, ◌+◌, ◌*◌, ◌<◌, ◌≤◌, ◌↔◌, ◌++◌, ◌∷◌, [], Bool, nat_eq, not, true, is_some, length, filter, vec_len};
ghost use Rattle.std.specs.Prelude.{vec_capacity, IsTrue, IfSome, IfOk, OnOk, OnErr};
ghost use Rattle.std.specs.List.{list_any, find};
ghost use Rattle.std.specs.Option.{option_map};
ghost use Rattle.dom_model.specs.Listeners.{Listener, is_listener};
ghost use Rattle.dom_dispatch.specs.Entries.{listeners_in, hears_at};
ghost use Rattle.dom_dispatch.specs.Tables.{present, entry_at, picked, passes_in, is_of_type, IsIndexed};

use crate::listeners::Entry;
use crate::places::Places;
use node_arena::Key;
use std::alloc::{AllocError, Global};
use std::collections::VecDeque;

/// The listeners of all nodes in the order of adding, each in a place, and for each node the places of its listeners. One that is
/// taken away leaves its place empty.
#[derive(Drop)]
pub(crate) struct Table {
    pub(crate) entries: Vec<Option<Entry>>,
    pub(crate) places: Places,
}

impl Table {
    /// No listeners. Takes no memory yet.
    pub(crate) fn new(alloc: Global) -> Self
        ensures none { present result.entries.items ≡ [] }
        ensures indexed { IsIndexed result.places result.entries.items }
    {
        Table {
            entries: Vec::new(alloc),
            places: Places::new(alloc),
        }
    }

    /// The listener in a place, if there is one.
    pub(crate) fn entry(&self, place: usize) -> Option<&Entry>
        ensures { option_map (λ e. e.now) result ≡ entry_at self.now.entries.items place }
    {
        match self.entries.get(place) {
            Some(Some(entry)) => Some(entry),
            _ => None,
        }
    }

    /// The place of the listener of a node with this type, label and capture, if there is one. This looks at the few that came first at
    /// the node, and at those of this type only.
    pub(crate) fn find(&self, node: Key, event: &str, label: &[u8], capture: bool) -> Option<usize>
        requires indexed { IsIndexed self.now.places self.now.entries.items }
        ensures there { is_some result ≡ list_any (is_listener nat_eq node event.now label.now capture) (listeners_in (present self.now.entries.items)) }
        ensures found { IfSome result (λ place. passes_in (is_listener nat_eq node event.now label.now capture) self.now.entries.items place ≡ true) }
    {
        let places = self.places.of(node)?;
        match self.find_among(places.first(), node, event, label, capture) {
            Some(place) => Some(place),
            None => self.find_among(places.rest(event), node, event, label, capture),
        }
    }

    /// The first of some places that has the listener of a node with this type, label and capture, if one has it.
    fn find_among(
        &self,
        places: &[usize],
        node: Key,
        event: &str,
        label: &[u8],
        capture: bool,
    ) -> Option<usize>
        ensures { result ≡ find (passes_in (is_listener nat_eq node event.now label.now capture) self.now.entries.items) places.now }
    {
        places
            .iter()
            .copied()
            .find(|place| self.has_in(*place, node, event, label, capture))
    }

    /// Puts copies of the listeners in some places that are of a node and hear events of this type, while they are capturing or while they
    /// are not, behind what is there.
    #[inline(always)]
    pub(crate) fn hear(
        &self,
        places: &[usize],
        node: Key,
        event: &str,
        capturing: bool,
        heard: &mut VecDeque<Entry>,
    ) -> Result<(), AllocError>
        ensures { OnOk result (listeners_in heard.new.items ≡ listeners_in heard.old.items ++
            filter (hears_at node event.now capturing) (listeners_in (picked self.now.entries.items places.now))) }
    {
        for place in places {
            if let Some(entry) = self.entry(*place) {
                if entry.hears(node, event, capturing) {
                    heard.push_back(entry.copied()?)?;
                }
            }
        }
        Ok(())
    }

    /// Whether the listener in a place is that of a node with this type, label and capture.
    fn has_in(&self, place: usize, node: Key, event: &str, label: &[u8], capture: bool) -> bool
        ensures { result ≡ passes_in (is_listener nat_eq node event.now label.now capture) self.now.entries.items place }
    {
        match self.entry(place) {
            Some(entry) => entry.is(node, event, label, capture),
            None => false,
        }
    }

    /// Puts a listener behind the others.
    pub(crate) fn push(&mut self, entry: Entry) -> Result<(), AllocError>
        requires indexed { IsIndexed self.old.places self.old.entries.items }
        ensures indexed { IsIndexed self.new.places self.new.entries.items }
        ensures ok { OnOk result (present self.new.entries.items ≡ present self.old.entries.items ++ entry ∷ []) }
        ensures err { OnErr result (present self.new.entries.items ≡ present self.old.entries.items) }
    {
        self.make_room()?;
        let event = entry.words.kind.event.as_str();
        self.places.push(entry.node, event, self.entries.len())?;
        self.entries.push_reserved(Some(entry));
        Ok(())
    }

    /// Makes room for one listener more. Where all places are taken, which are no fewer than the nodes with a list of places, and no more
    /// than half of them have a listener, the empty ones are closed up.
    fn make_room(&mut self) -> Result<(), AllocError>
        requires indexed { IsIndexed self.old.places self.old.entries.items }
        ensures indexed { IsIndexed self.new.places self.new.entries.items }
        ensures present { present self.new.entries.items ≡ present self.old.entries.items }
        ensures room { OnOk result (vec_len self.new.entries < vec_capacity self.new.entries) }
    {
        let taken = self.entries.len();
        if taken == self.entries.capacity()
            && self.places.count() <= taken
            && self.is_half_empty()
        {
            self.close_up()?;
        }
        self.entries.reserve(1)
    }

    /// Whether no more than half of the places have a listener.
    fn is_half_empty(&self) -> bool
        ensures { IsTrue result ↔ (2 * length (present self.now.entries.items) ≤ length self.now.entries.items) }
    {
        let mut there = 0;
        for entry in &self.entries {
            if entry.is_some() {
                there += 1;
            }
        }
        there <= self.entries.len() - there
    }

    /// Closes the empty places up. Where memory is refused, all is as it was.
    fn close_up(&mut self) -> Result<(), AllocError>
        requires indexed { IsIndexed self.old.places self.old.entries.items }
        ensures indexed { IsIndexed self.new.places self.new.entries.items }
        ensures present { present self.new.entries.items ≡ present self.old.entries.items }
    {
        let places = self.places_closed_up()?;
        self.entries.retain(|entry| entry.is_some());
        self.places = places;
        Ok(())
    }

    /// The places of the listeners once the empty ones are closed up.
    fn places_closed_up(&self) -> Result<Places, AllocError>
        ensures { IfOk result (λ places. IsIndexed places (filter is_some self.now.entries.items)) }
    {
        let mut places = Places::new(*self.entries.allocator());
        let mut count = 0;
        for entry in &self.entries {
            if let Some(entry) = entry {
                places.push(entry.node, entry.words.kind.event.as_str(), count)?;
                count += 1;
            }
        }
        Ok(places)
    }

    /// Takes the listener in a place away, which is of a node and a type.
    pub(crate) fn take(&mut self, node: Key, event: &str, place: usize)
        requires indexed { IsIndexed self.old.places self.old.entries.items }
        requires there { passes_in (is_of_type node event.now) self.old.entries.items place ≡ true }
        ensures indexed { IsIndexed self.new.places self.new.entries.items }
        // The others stay, and so do all that fail a test which this one passes.
        ensures fewer { length (present self.new.entries.items) + 1 ≡ length (present self.old.entries.items) }
        ensures others { (p : Listener ℕ → Bool) → passes_in p self.old.entries.items place ≡ true →
            filter (λ l. not (p l)) (listeners_in (present self.new.entries.items)) ≡ filter (λ l. not (p l))
            (listeners_in (present self.old.entries.items)) }
    {
        self.places.remove(node, event, place);
        self.entries[place] = None;
    }
}
