//! Laws of listeners and dispatch, for callers that keep a world.
ghost use Rattle.dom_dispatch.specs.Kept.{DispatchedAmong, DispatchedAlong};
ghost use Rattle.dom_dispatch.specs.ListenersByName.{ListenedByNames, UnlistenedByNames, DispatchedByNames};
ghost use Rattle.dom_dispatch.specs.Staying.{NoneStay, MoreStay, ListenedStay, UnlistenedStay, DispatchedStay};

/// Holds of every forest, since names tell its nodes apart: what is done to listeners by keys, and what a dispatch along the views of
/// a path by keys does, is what is done by names (DOM Standard, 2.7 and 2.9).
pub fn law_keys_stand_for_names()
    ensures listened { ListenedByNames }
    ensures unlistened { UnlistenedByNames }
    ensures dispatched { DispatchedByNames }
{}

/// Holds of every world: a dispatch with one list of all owners' listeners, of which each owner has its own nodes', has the lines and
/// the answer of the dispatch in the world, and leaves each owner the same listeners; so too a dispatch by keys along the views of a
/// path (DOM Standard, concept: dispatch).
pub fn law_one_list_serves_all()
    ensures names { DispatchedAmong }
    ensures keys { DispatchedAlong }
{}

/// Listeners stay at nodes after each call, and where there are more nodes, as `dispatch` and the other laws ask of them by names (own
/// rule). So it is where nobody listens.
pub fn law_listeners_stay()
    ensures none { NoneStay }
    ensures more { MoreStay }
    ensures listened { ListenedStay }
    ensures unlistened { UnlistenedStay }
    ensures dispatched { DispatchedStay }
{}
