//! What holds of every world that the document machine reaches: laws over the definitions. There is no code but functions whose
//! contracts are the laws.
#![tactic(auto)]

ghost use Rattle.std.specs.Prelude.{List, ℕ, true};
ghost use Rattle.dom_model.specs.Command.{Line};
ghost use Rattle.dom_model.specs.World.{World};
ghost use Rattle.dom_worlds.specs.Reached.{IsReached, IsQuiet, FirstIsReached, StepKeepsReached, EndingKeepsReached, FinishKeepsReached};
ghost use Rattle.dom_worlds.specs.Reached.{ScriptsReach, QuietScriptsReach, ShadowRootsAreRoots, NoOtherShadowRoots, AttachedAreThere};
ghost use Rattle.dom_worlds.specs.Reached.{OwnersHaveWords, HostsAreTheirs, AssignedAreSiblings};
ghost use Rattle.dom_worlds.specs.Tables.{IsWhole};
ghost use Rattle.dom_worlds.specs.Keeping.{FirstHas, StepLeaves, EndingLeaves, FinishLeaves, ScriptsLeave};
ghost use Rattle.dom_worlds.specs.Wholes.{RangesHaveOneRoot};
ghost use Rattle.dom_worlds.specs.Follows.{PathFollowsParents};
ghost use Rattle.dom_worlds.specs.Sights.{HiddenByRoots, RetargetedByRoots};
ghost use Rattle.dom_worlds.specs.Bounds.{IsBounded, StepKeepsBounds};

/// What holds of every world that the machine reaches, whatever its components' listeners do, and where they only log.
pub fn reached_worlds()
    ensures first { FirstIsReached }
    ensures kept { StepKeepsReached }
    ensures ending { EndingKeepsReached }
    ensures finish { FinishKeepsReached }
    ensures script { (read : List ℕ → Line) → ScriptsReach read }
    ensures quiet_script { (read : List ℕ → Line) → QuietScriptsReach read }
    ensures quiet { (w : World) → IsReached true w → IsQuiet w }
    ensures roots { ShadowRootsAreRoots }
    ensures no_others { NoOtherShadowRoots }
    ensures there { AttachedAreThere }
    ensures words { OwnersHaveWords }
    ensures hosts { HostsAreTheirs }
    ensures assigned { AssignedAreSiblings }
{}

/// Of every world that the machine reaches the tables name what is there: hosts, the ends of ranges, iterators, walkers,
/// registrations, listeners and signalled slots are at nodes of their owners, both ends of a range in one tree, queued records
/// name nodes of their owners, observers have their record queues, and each owner that is there has its first node.
pub fn whole_worlds()
    ensures first { FirstHas IsWhole }
    ensures kept { StepLeaves IsWhole IsWhole }
    ensures ending { EndingLeaves IsWhole IsWhole }
    ensures finish { FinishLeaves IsWhole IsWhole }
    ensures script { (read : List ℕ → Line) → ScriptsLeave IsWhole read }
{}

/// Both ends of each live range have one root, in every world that the machine reaches (DOM Standard, 5.3 and 5.5).
pub fn ranges_have_one_root()
    ensures first { FirstHas RangesHaveOneRoot }
    ensures kept { StepLeaves IsWhole RangesHaveOneRoot }
    ensures ending { EndingLeaves IsWhole RangesHaveOneRoot }
    ensures finish { FinishLeaves IsWhole RangesHaveOneRoot }
    ensures script { (read : List ℕ → Line) → ScriptsLeave RangesHaveOneRoot read }
{}

/// The ends of live ranges are within their nodes, in every world that the machine reaches (DOM Standard, 5.2 and 5.5).
pub fn ranges_stay_bounded()
    ensures first { FirstHas IsBounded }
    ensures kept { StepKeepsBounds }
    ensures ending { EndingLeaves IsBounded IsBounded }
    ensures finish { FinishLeaves IsBounded IsBounded }
    ensures script { (read : List ℕ → Line) → ScriptsLeave IsBounded read }
{}

/// The whole path of an event begins at its target, goes from each node to its event parent, through slots and shadow roots, and
/// ends where a node has none.
pub fn path_follows_parents()
    ensures { PathFollowsParents }
{}

/// In every world that the machine reaches a node is hidden from the nodes outside of its own closed shadow tree and of those
/// below it, and in its place they see what they see in place of the host (DOM Standard, concepts: closed-shadow-hidden, retarget).
pub fn sights_go_by_roots()
    ensures hidden { HiddenByRoots }
    ensures retargeted { RetargetedByRoots }
{}
