//! Laws of live ranges, for a caller whose own tables are over names. They make no calls.
ghost use Rattle.dom_ranges.specs.Naming.{InsertNamed, RemovalNamed, ReplaceDataNamed, SplitNamed, JoinNamed, StartNamed, EndNamed, GrownNamed};
ghost use Rattle.dom_ranges.specs.Naming.{MadeNamed, RemovedNamed, RewrittenNamed, CollapsedNamed};
ghost use Rattle.dom_ranges.specs.Staying.{NoneWithin, SameWithin, MoreWithin, WithinAtNodes, SomeWithin, MadeWithin, RemovedWithin, WrittenWithin};
ghost use Rattle.dom_ranges.specs.Staying.{StartWithin, EndWithin, CollapsedWithin, InsertWithin, RemovalWithin, ReplaceDataWithin, SplitWithin, JoinWithin};

/// With every key replaced by its name, where the keys are of nodes and the names tell them apart, each rule over keys is
/// the same rule over names, and ends at nodes stay at nodes: what each call of the table does to its ranges (DOM Standard,
/// 5.5 Interface Range; own rule for keys and names).
pub fn law_keys_stand_for_names()
    ensures insert { InsertNamed }
    ensures removal { RemovalNamed }
    ensures replace_data { ReplaceDataNamed }
    ensures split { SplitNamed }
    ensures join { JoinNamed }
    ensures start { StartNamed }
    ensures end { EndNamed }
    ensures grown { GrownNamed }
    ensures made { MadeNamed }
    ensures removed { RemovedNamed }
    ensures rewritten { RewrittenNamed }
    ensures collapsed { CollapsedNamed }
{}

/// What the calls of a table ask of its ranges holds again after each of them (own rule): where all ends are at nodes, and no offset is
/// greater than a bound, so it is after each call, with a bound that a step raises by no more than it brings; and while
/// the bound is a number of the code's, what a step makes of the offsets fits. Where only the ends are known to be at nodes, there is
/// such a bound (`bound`), and the ends are at nodes after the call (`at_nodes`).
pub fn law_ends_stay()
    ensures none { NoneWithin }
    ensures same { SameWithin }
    ensures more { MoreWithin }
    ensures at_nodes { WithinAtNodes }
    ensures bound { SomeWithin }
    ensures made { MadeWithin }
    ensures removed { RemovedWithin }
    ensures written { WrittenWithin }
    ensures start { StartWithin }
    ensures end { EndWithin }
    ensures collapsed { CollapsedWithin }
    ensures insert { InsertWithin }
    ensures removal { RemovalWithin }
    ensures replace_data { ReplaceDataWithin }
    ensures split { SplitWithin }
    ensures join { JoinWithin }
{}
