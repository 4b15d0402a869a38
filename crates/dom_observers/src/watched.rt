//! The nodes that observers watch.
ghost use Rattle.std.specs.Prelude.{◌≡◌, ℕ, ◌≤◌, ◌&&◌, ◌++◌, ◌∷◌, [], List, nat_eq, length, true, false, IfOk, OnOk, OnErr, if◌then◌else◌};
ghost use Rattle.std.specs.Option.{ForSome};
ghost use Rattle.indexmap.specs.IndexMap.{get};
ghost use Rattle.dom_model.specs.Observers.{is_asked_for};
ghost use Rattle.dom_observers.specs.Taking.{picked};
ghost use Rattle.dom_observers.specs.Views.{those_there};
ghost use Rattle.dom_observers.specs.Marks.{is_marked, IsNearest};
ghost use Rattle.dom_observers.specs.Watching.{places_or, places_at, among, AreThinned, AreNoted, IsPlaceOf};
ghost use Rattle.dom_tree.specs.Forest.{IsNode};

use crate::marks::Marks;
use crate::owned::Owned;
use crate::places::{Places, count_gone, put};
use crate::registered::{Registered, there_at};
use crate::removal::Removal;
use dom_tree::Forest;
use indexmap::IndexMap;
use node_arena::Key;
use std::alloc::{AllocError, Global};

/// For each node the places of its registrations in an owner's list, of as many from the first on as are noted, among which some of
/// those that have gone may still be; marks of nodes, among which are all that have a noted one that observes what is below them; and whose
/// the noted ones are (own rule).
#[derive(Drop)]
pub struct Watched {
    places: IndexMap<usize, Places>,
    above: Marks,
    owned: Owned,
    noted: usize,
    alloc: Global,
}

impl Watched {
    /// None is noted. It takes no memory yet.
    pub(crate) fn new(alloc: Global) -> Self
        ensures { (rs : List Registered) → AreNoted result rs }
    {
        Watched {
            places: IndexMap::new(alloc),
            above: Marks::Empty,
            owned: Owned::new(alloc),
            noted: 0,
            alloc,
        }
    }

    /// Notes those registrations of a list that are not noted yet, if there are some. Where memory is refused some of them stay so.
    #[inline(always)]
    pub(crate) fn note(&mut self, registrations: &[Registered]) -> Result<(), AllocError>
        ensures noted { AreNoted self.old registrations.now → AreNoted self.new registrations.now }
        ensures all { OnOk result (length registrations.now ≤ self.new.noted) }
    {
        if self.noted >= registrations.len() {
            return Ok(());
        }
        self.note_each(registrations)
    }

    /// Notes one after the other of those that are not noted yet.
    #[inline(never)]
    fn note_each(&mut self, registrations: &[Registered]) -> Result<(), AllocError>
        ensures noted { AreNoted self.old registrations.now → AreNoted self.new registrations.now }
        ensures all { OnOk result (length registrations.now ≤ self.new.noted) }
    {
        for place in self.noted..registrations.len() {
            let registered = &registrations[place];
            self.owned.add(registered, place)?;
            self.add(registered.node, place, registered.options.subtree)?;
            self.noted = place + 1;
        }
        Ok(())
    }

    /// Puts a place behind those of a node, from which what is below may be observed.
    fn add(&mut self, node: Key, place: usize, observes_below: bool) -> Result<(), AllocError>
        ensures places { OnOk result ((x : ℕ) → places_at self.new x ≡
            (if nat_eq node x then places_at self.old x ++ place ∷ [] else places_at self.old x)) }
        ensures unchanged { OnErr result ((x : ℕ) → places_at self.new x ≡ places_at self.old x) }
        ensures above { OnOk result ((x : ℕ) → is_marked self.new.above x ≡
            (if observes_below && nat_eq node x then true else is_marked self.old.above x)) }
        ensures kept { (x : ℕ) → is_marked self.new.above x ≡ false → is_marked self.old.above x ≡ false }
        ensures noted { self.new.noted ≡ self.old.noted }
        ensures owned { self.new.owned ≡ self.old.owned }
    {
        if observes_below {
            self.above.insert(self.alloc, node)?;
        }
        put(self.alloc, &mut self.places, node.index(), place)
    }

    /// The place of the registration on a node that an observer asked for, if there is one. Those on the node alone are looked at. If
    /// what is below the node is to be observed, it is then among those above.
    pub(crate) fn asked_for(
        &mut self,
        registrations: &[Registered],
        observer: u32,
        node: Key,
        observes_below: bool,
    ) -> Result<Option<usize>, AllocError>
        ensures noted { AreNoted self.old registrations.now → AreNoted self.new registrations.now }
        ensures place { IfOk result (λ place. AreNoted self.old registrations.now →
            IsPlaceOf (is_asked_for nat_eq observer node) registrations.now (those_there registrations.now) place) }
        ensures above { OnOk result (observes_below ≡ true → is_marked self.new.above node ≡ true) }
    {
        self.note(registrations)?;
        let place = asked_for_in(registrations, self.places(node), observer, node);
        if observes_below {
            self.above.insert(self.alloc, node)?;
        }
        Ok(place)
    }

    /// The noted places of a node's registrations, by one look.
    pub(crate) fn places(&self, node: Key) -> &[usize]
        ensures { result.now ≡ places_at self.now node }
    {
        match self.places.get(&node.index()) {
            Some(places) => places.as_slice(),
            None => &[],
        }
    }

    /// The one node from which what is below it may be observed, where there is no other among those that are noted.
    pub(crate) fn only_above(&self) -> Option<Key>
        ensures { ForSome result (λ k. (x : ℕ) → is_marked self.now.above x ≡ nat_eq k x) }
    {
        self.above.only()
    }

    /// The nearest node from which what is below it may be observed, of a node and its ancestors, where one is given.
    pub(crate) fn nearest_above(&self, forest: &Forest, from: Option<Key>) -> Option<Key>
        requires { ForSome from (IsNode forest.now) }
        ensures { IsNearest forest.now self.now.above from result }
    {
        match self.above {
            Marks::Empty => None,
            _ => self.above.nearest(forest, from),
        }
    }

    /// Forgets what is noted of a list's registrations.
    pub(crate) fn forget(&mut self, registrations: &[Registered])
        ensures { (rs : List Registered) → AreNoted self.new rs }
    {
        for registered in registrations {
            self.above.remove(registered.node);
        }
        self.places = IndexMap::new(self.alloc);
        self.owned = Owned::new(self.alloc);
        self.noted = 0;
    }

    /// The noted places among which are those of the registrations that go.
    pub(crate) fn among(&self, removal: &Removal) -> &[usize]
        ensures { result.now ≡ among self.now.owned removal.now }
    {
        self.owned.among(removal)
    }

    /// Drops places of registrations that have gone: of those among which a removal finds its own, and of the nodes on which these
    /// were, where half of a node's have gone.
    pub(crate) fn drop_gone(&mut self, registrations: &[Registered], removal: &Removal)
        ensures { AreNoted self.old registrations.now → AreNoted self.new registrations.now }
    {
        count_gone_in(&mut self.places, registrations, self.owned.among(removal));
        self.owned.drop_gone(registrations, removal);
    }
}

/// Counts the registrations in some places that have gone, each at its node, which drops the places of its own where these are many.
fn count_gone_in(
    lists: &mut IndexMap<usize, Places>,
    registrations: &[Registered],
    places: &[usize],
)
    ensures { (x : ℕ) → AreThinned registrations.now (places_or (get nat_eq lists.old x)) (places_or (get nat_eq lists.new x)) }
{
    for place in places {
        if let Some(registered) = registrations.get(*place) {
            if registered.has_gone {
                count_gone(lists, registrations, registered.node.index());
            }
        }
    }
}

/// Which of some places has the registration on a node that an observer asked for, if one has.
fn asked_for_in(
    registrations: &[Registered],
    places: &[usize],
    observer: u32,
    node: Key,
) -> Option<usize>
    ensures { IsPlaceOf (is_asked_for nat_eq observer node) registrations.now (picked registrations.now places.now) result }
{
    for place in places {
        if let Some(registered) = there_at(registrations, *place) {
            if registered.is_asked_for(observer, node) {
                return Some(*place);
            }
        }
    }
    None
}
