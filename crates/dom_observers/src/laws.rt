//! Laws of the rules over keys, for a caller whose own tables are over names.
ghost use Rattle.std.specs.Prelude.{◌≡◌, map};
ghost use Rattle.dom_model.specs.Tree.{inclusive_ancestors};
ghost use Rattle.dom_tree.specs.Forest.{IsNode, name_of};
ghost use Rattle.dom_observers.specs.Naming.{MakingLaw, ObservingLaw, DisconnectedLaw, EmptiedLaw, TakenLaw, ToldLaw, LeftLaw, NotifiedLaw};
ghost use Rattle.dom_observers.specs.Naming.{NonePendingLaw, TellingLaw, NoticesLaw, IsKey, AreAll};
ghost use Rattle.dom_observers.specs.Paths.{path_keys};
ghost use Rattle.dom_observers.specs.Staying.{NoneStay, SameStay, MoreStay, KeysStay, RecordsStay, MadeStay, ObservingStay, DisconnectedStay, EmptiedStay};
ghost use Rattle.dom_observers.specs.Staying.{ToldStay, LeftStay, NotifiedStay, NonePendingStay, TellingStay};
ghost use Rattle.dom_observers.specs.There.{NoneThere, SameThere, HasThere, MadeThere, ObservingThere, DisconnectedThere, EmptiedThere, ToldThere};
ghost use Rattle.dom_observers.specs.There.{LeftThere, NotifiedThere, NonePendingThere, TellingThere};

use dom_tree::Forest;
use node_arena::Key;

/// With every key replaced by its name, where the keys are of nodes and the names tell them apart, each rule over keys is
/// the same rule over names (own rule).
pub fn law_keys_stand_for_names()
    ensures made { MakingLaw }
    ensures observing { ObservingLaw }
    ensures disconnected { DisconnectedLaw }
    ensures emptied { EmptiedLaw }
    ensures taken { TakenLaw }
    ensures told { ToldLaw }
    ensures left { LeftLaw }
    ensures notified { NotifiedLaw }
    ensures notices { NoticesLaw }
    ensures none_pending { NonePendingLaw }
    ensures telling { TellingLaw }
{}

/// The keys on the path of a node are those of nodes, and their names are its inclusive ancestors (DOM Standard, concept:
/// inclusive ancestor).
pub fn law_path_keys_are_named(forest: &Forest, key: Key)
    requires { IsNode forest.now key }
    ensures named { map (name_of forest.now) (path_keys forest.now key) ≡ inclusive_ancestors forest.now.trees (name_of forest.now key) }
    ensures nodes { AreAll (IsKey forest.now.names) (path_keys forest.now key) }
{
    let _key = key;
    forest.law_nodes_stand_once();
}

/// Registrations stay on nodes of their owner, and records go on naming such nodes alone, after each call and where there are more nodes
/// (own rule). So it is where nobody has an observer. `keys` and `records` say what the other laws ask of it, and what holds of the
/// records that a call gives.
pub fn law_registrations_stay()
    ensures none { NoneStay }
    ensures same { SameStay }
    ensures more { MoreStay }
    ensures keys { KeysStay }
    ensures records { RecordsStay }
    ensures made { MadeStay }
    ensures observing { ObservingStay }
    ensures disconnected { DisconnectedStay }
    ensures emptied { EmptiedStay }
    ensures told { ToldStay }
    ensures left { LeftStay }
    ensures notified { NotifiedStay }
    ensures none_pending { NonePendingStay }
    ensures telling { TellingStay }
{}

/// Registrations stay of observers that were made, after each call (own rule). So it is where nobody has an observer. `has` says that the
/// observer of a registration then has its record queue.
pub fn law_observers_are_there()
    ensures none { NoneThere }
    ensures same { SameThere }
    ensures has { HasThere }
    ensures made { MadeThere }
    ensures observing { ObservingThere }
    ensures disconnected { DisconnectedThere }
    ensures emptied { EmptiedThere }
    ensures told { ToldThere }
    ensures left { LeftThere }
    ensures notified { NotifiedThere }
    ensures none_pending { NonePendingThere }
    ensures telling { TellingThere }
{}
