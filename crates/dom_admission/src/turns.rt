//! The open turn, and the tasks that its end runs.
ghost use Rattle.std.specs.Prelude.{◌≡◌, [], None, is_some};
ghost use Rattle.dom_model.specs.Names.{owner_eq};
ghost use Rattle.dom_model.specs.Turns.{has_other_turn};

use crate::state::State;
use dom_base::{Owner, OwnerPath};
use dom_microtasks::Queue;

impl State {
    /// Takes all tasks out, and closes the open turn, if there is one.
    pub fn take_tasks(&mut self) -> Queue
        ensures tasks { result ≡ self.old.world.tasks }
        ensures world { self.new.world ≡ record self.old.world { tasks = []; turn = None } }
        ensures names { self.new.names ≡ self.old.names }
    {
        self.turn = None;
        self.doc.take_tasks()
    }

    /// Whether the open turn is another component's.
    pub fn has_other_turn(&self, owner: &Owner) -> bool
        ensures { result ≡ has_other_turn self.now.world owner.now }
    {
        match &self.turn {
            Some(Owner::Component(path)) => !is_component(owner, path),
            _ => false,
        }
    }

    /// Whether a turn is open.
    pub fn has_turn(&self) -> bool
        ensures { result ≡ is_some self.now.world.turn }
    {
        self.turn.is_some()
    }
}

/// Whether an owner is the component of this path. It is kept out of line, so that a line in the page's turn takes no owner apart.
#[inline(never)]
fn is_component(owner: &Owner, path: &OwnerPath) -> bool
    ensures { result ≡ owner_eq (Owner.Component path.now) owner.now }
{
    match owner {
        Owner::Page => false,
        Owner::Component(other) => *path == *other,
    }
}
