//! Which waiting microtasks and which observers are live.
ghost use Rattle.std.specs.Prelude.{◌≡◌, ◌<◌, ◌&&◌, ◌==◌, length, position};
ghost use Rattle.std.specs.List.{list_any};
ghost use Rattle.std.specs.Option.{ForSome};
ghost use Rattle.dom_live.specs.Documents.{first_is_live, is_entry_of, without_first};
ghost use Rattle.dom_live.specs.SmallSteps.{is_observer};

use crate::words::is_same_owner;
use dom_base::Owner;

/// The place of the first entry of an owner.
fn place_of_first(tasks: &[(Owner, bool)], owner: &Owner) -> Option<usize>
    ensures place { result ≡ position (is_entry_of owner.now) tasks.now }
    ensures within { ForSome result (λ at. at < length tasks.now) }
{
    tasks
        .iter()
        .position(|entry| is_same_owner(&entry.0, owner))
}

/// Takes the first entry of an owner out. Answers whether it is live.
pub(crate) fn take_first(tasks: &mut Vec<(Owner, bool)>, owner: &Owner) -> bool
    ensures live { result ≡ first_is_live owner.now tasks.old.items }
    ensures rest { tasks.new.items ≡ without_first owner.now tasks.old.items }
{
    match place_of_first(tasks.as_slice(), owner) {
        None => false,
        Some(place) => tasks.remove(place).1,
    }
}

/// Whether an owner's observer of this number is live.
pub(crate) fn is_live_observer(observers: &[(Owner, u32)], owner: &Owner, number: u32) -> bool
    ensures { result ≡ list_any (is_observer owner.now number) observers.now }
{
    observers.iter().any(|entry| is_same_owner(&entry.0, owner) && entry.1 == number)
}
