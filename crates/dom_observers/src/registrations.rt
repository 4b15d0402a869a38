//! The registrations of an owner's observers.
ghost use Rattle.std.specs.Prelude.{◌≡◌, ℕ, not, nat_eq, false, [], ◌∷◌, ◌++◌, map, filter, fold, IfOk, OnOk, OnErr};
ghost use Rattle.std.specs.List.{list_any};
ghost use Rattle.dom_model.specs.Names.{is_empty};
ghost use Rattle.dom_model.specs.Observers.{is_asked_for, with_registration, transients_for, interested, record_for, target_of, asked_for};
ghost use Rattle.dom_observers.specs.InterestedObservers.{record_of};
ghost use Rattle.dom_observers.specs.Numbers.{numbers_in};
ghost use Rattle.dom_observers.specs.Paths.{path_keys};
ghost use Rattle.dom_observers.specs.Views.{words_of, change_of, registration_of, AreThere};
ghost use Rattle.dom_observers.specs.Marks.{is_marked};
ghost use Rattle.dom_observers.specs.Removals.{goes};
ghost use Rattle.dom_observers.specs.Taking.{picked, copied_by, copied_at};
ghost use Rattle.dom_tree.specs.Forest.{IsNode};

use crate::change::Change;
use crate::interested::InterestedObservers;
use crate::options::Options;
use crate::registered::{Registered, Source, there_at};
use crate::removal::Removal;
use crate::watched::Watched;
use dom_tree::Forest;
use node_arena::Key;
use std::alloc::{AllocError, Global};
use std::marker::Model;
use std::rc::Rc;

/// How many that have gone may keep their places, though they are most.
const MANY: usize = 32;

/// The registrations of an owner's observers in the order of their making (DOM Standard, concept: registered observer
/// list), in a list in which some may have gone, and so many have; and the nodes that they watch.
#[derive(Drop)]
pub struct Registrations {
    list: Vec<Registered>,
    gone: usize,
    watched: Watched,
    alloc: Global,
}

impl Model for Registrations {
    ghost use Rattle.std.specs.Prelude.{ℕ, List};
    ghost use Rattle.dom_model.specs.Observers.{Registration};

    ghost Value = { List (Registration ℕ) };

    ghost use Rattle.dom_observers.specs.Views.{those_there};
    ghost use Rattle.dom_observers.specs.Watching.{AreKept};

    ghost view = { λ r. those_there r.list.items };

    ghost invariant = { λ r. AreKept r.watched r.gone r.list.items };
}

impl Registrations {
    /// No registrations.
    pub(crate) fn new(alloc: Global) -> Self
        ensures { result ≡ [] }
    {
        Registrations {
            list: Vec::new(alloc),
            watched: Watched::new(alloc),
            gone: 0,
            alloc,
        }
    }

    /// Whether there is none.
    pub(crate) fn is_empty(&self) -> bool
        ensures { result ≡ is_empty self.now }
    {
        self.list.len() == self.gone
    }

    /// The one node from which what is below it may be observed, where those that are noted tell of no other (own rule).
    pub(crate) fn only_above(&self) -> Option<Key> {
        self.watched.only_above()
    }

    /// The observers that are interested in a change of a node, found by looks at the registrations on its inclusive ancestors alone
    /// (DOM Standard, queue a mutation record: interested observers). An ancestor without registrations that observe what is below it takes
    /// one look.
    pub(crate) fn interested_in(
        &mut self,
        forest: &Forest,
        change: &Change,
    ) -> Result<InterestedObservers, AllocError>
        requires { IsNode forest.now (target_of (change_of change.now)) }
        ensures keeps { self.new ≡ self.old }
        ensures observers { IfOk result (λ t. numbers_in t.observers ≡
            interested nat_eq (path_keys forest.now (target_of (change_of change.now))) self.old (change_of change.now)) }
        ensures with_old { IfOk result (λ t. (k : ℕ) → record_of t (change_of change.now) k ≡
            record_for nat_eq (path_keys forest.now (target_of (change_of change.now))) self.old (change_of change.now) k) }
    {
        self.watched.note(self.list.as_slice())?;
        InterestedObservers::of(
            self.alloc,
            forest,
            self.list.as_slice(),
            &self.watched,
            change,
        )
    }

    /// Registers an observer on a node, or gives its registration there other options, and takes the transient copies of it away (DOM
    /// Standard, observe()). The registrations on the node are looked at, and the transient ones.
    pub(crate) fn observe(
        &mut self,
        observer: u32,
        node: Key,
        options: Rc<Options>,
    ) -> Result<(), AllocError>
        ensures ok { OnOk result (self.new ≡ with_registration nat_eq observer node (words_of options.value) self.old) }
        ensures err { OnErr result (self.new ≡ self.old) }
    {
        let place = self
            .watched
            .asked_for(self.list.as_slice(), observer, node, options.subtree)?;
        match place {
            Some(place) => {
                self.list[place].options = options;
                self.remove(&Removal::CopiesOf(observer, node));
                Ok(())
            }
            None => self.add(observer, node, options),
        }
    }

    /// Adds a registration of an observer on a node, where it has none there.
    fn add(&mut self, observer: u32, node: Key, options: Rc<Options>) -> Result<(), AllocError>
        requires { list_any (is_asked_for nat_eq observer node) self.old ≡ false }
        ensures ok { OnOk result (self.new ≡ self.old ++
            record { node = node; observer = observer; options = words_of options.value; source = asked_for } ∷ []) }
        ensures err { OnErr result (self.new ≡ self.old) }
    {
        self.list.push(Registered {
            node,
            observer,
            options,
            source: Source::AskedFor,
            has_gone: false,
        })?;
        Ok(())
    }

    /// Takes the registrations away that go. Those among which they are found are looked at, or all where memory for their places is
    /// refused. Where most places are of registrations that have gone, they are closed up.
    pub(crate) fn remove(&mut self, removal: &Removal)
        ensures { self.new ≡ filter (λ r. not (goes removal.now r)) self.old }
    {
        if self.watched.note(self.list.as_slice()).is_err() {
            self.close_up(removal);
            return;
        }
        let places = self.watched.among(removal);
        let went = removal.take_in(&mut self.list, places);
        self.gone += went;
        self.watched.drop_gone(self.list.as_slice(), removal);
        if self.gone > MANY && self.gone > self.list.len() / 2 {
            self.close_up(removal);
        }
    }

    /// Takes the registrations away that go, and closes the places up of those that have gone. All are then to be noted anew.
    fn close_up(&mut self, removal: &Removal)
        ensures { self.new ≡ filter (λ r. not (goes removal.now r)) self.old }
    {
        self.watched.forget(self.list.as_slice());
        self.list.retain(|registered| !registered.has_gone && !removal.takes(registered));
        self.gone = 0;
    }

    /// Adds the transient registrations of a node that is removed from a parent (DOM Standard, remove). Where it gets none, this costs
    /// a look for each inclusive ancestor of the parent.
    pub(crate) fn add_transients(
        &mut self,
        forest: &Forest,
        parent: Key,
        node: Key,
    ) -> Result<(), AllocError>
        requires { IsNode forest.now parent }
        ensures ok { OnOk result (self.new ≡ self.old ++ transients_for nat_eq node (path_keys forest.now parent) self.old) }
        ensures err { OnErr result (self.new ≡ self.old) }
    {
        self.watched.note(self.list.as_slice())?;
        let mut copies = copies_for(
            self.alloc,
            forest,
            self.list.as_slice(),
            &self.watched,
            parent,
            node,
        )?;
        self.list.append(&mut copies)?;
        Ok(())
    }
}

/// The transient copies for a removed node of the registrations that observe subtrees, of those on its parent and upwards.
fn copies_for(
    alloc: Global,
    forest: &Forest,
    registrations: &[Registered],
    watched: &Watched,
    parent: Key,
    node: Key,
) -> Result<Vec<Registered>, AllocError>
    requires { IsNode forest.now parent }
    ensures there { IfOk result (λ copies. AreThere copies.items) }
    ensures copies { IfOk result (λ copies. map registration_of copies.items ≡
        fold (copied_at node registrations.now watched.now) [] (filter (is_marked watched.now.above) (path_keys forest.now parent))) }
{
    forest.law_nodes_stand_once();
    let mut copies = Vec::new(alloc);
    let mut at = watched.nearest_above(forest, Some(parent));
    while let Some(above) = at {
        copy_from(registrations, watched.places(above), node, &mut copies)?;
        at = watched.nearest_above(forest, forest.parent(above));
    }
    Ok(copies)
}

/// Puts the transient copies of the registrations in some places that observe subtrees behind others, for a removed node.
fn copy_from(
    registrations: &[Registered],
    places: &[usize],
    node: Key,
    copies: &mut Vec<Registered>,
) -> Result<(), AllocError>
    requires { AreThere copies.old.items }
    ensures there { OnOk result (AreThere copies.new.items) }
    ensures copies { OnOk result (map registration_of copies.new.items ≡ fold (copied_by node) (map registration_of copies.old.items)
        (picked registrations.now places.now)) }
{
    for place in places {
        if let Some(registered) = there_at(registrations, *place) {
            if registered.options.subtree {
                copies.push(registered.copied_to(node)?)?;
            }
        }
    }
    Ok(())
}
