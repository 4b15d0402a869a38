//! What a group of owners, which has the page and with each component its maker, sees of all others are their outward events: the laws on
//! groups, families and components.
ghost use Rattle.std.specs.Prelude.{List, ℕ, Bool};
ghost use Rattle.dom_base.specs.declared.Owner.{Owner};
ghost use Rattle.dom_model.specs.Command.{Line};
ghost use Rattle.dom_model.specs.Isolation.{GroupSeesItsTrace, SameGroup, SamePage, SameFamily, SameFamilyWhileTurnsStand};
ghost use Rattle.dom_model.specs.Isolation.{SameComponent, SameComponentWhileTurnsStand, SameAround, SameAroundWhileTurnsStand};
ghost use Rattle.dom_isolation.specs.Words.{ReadsPlainWords};
ghost use Rattle.dom_isolation.specs.Groups.{PageIsGroup, FamilyIsGroup, MakersAreGroup, OthersAreGroup, PageHostIsPage, FamilyHostIsPage};
ghost use Rattle.dom_isolation.specs.GroupLaws.{AssignedAgree, SignalsAgree, StepAgrees, ViewsAgree, OutwardViewsAgree, DispatchAgrees, OtherDispatchAgrees};
ghost use Rattle.dom_isolation.specs.GroupLaws.{EndingAgrees, LineAgrees, OtherLineAgrees, FinishAgrees};
ghost use Rattle.dom_isolation.specs.Agreement.{SameMember, SameMemberWhileTurnsStand};
ghost use Rattle.dom_isolation.specs.FullGroups.{GroupSeesItsFullTrace, SameGroupInFull, SameMemberInFull, SameFamilyInFull, SameComponentInFull};
ghost use Rattle.dom_isolation.specs.FullGroups.{SameAroundInFull};
ghost use Rattle.dom_isolation.specs.GroupTexts.{SameGroupTextInFull, SameFamilyTextInFull, SameComponentTextInFull, SameAroundTextInFull};
ghost use Rattle.dom_isolation.specs.GroupTexts.{ReadsOwners, DecodeReadsOwners, OwnLinesHaveTheirPrefix, SameGroupText, SameGroupTextWhileTurnsStand};
ghost use Rattle.dom_isolation.specs.GroupTexts.{SameFamilyText, SameFamilyTextWhileTurnsStand, SameComponentText, SameComponentTextWhileTurnsStand};
ghost use Rattle.dom_isolation.specs.GroupTexts.{SameAroundText, SameAroundTextWhileTurnsStand};
ghost use Rattle.dom_isolation.specs.GroupStates.{GroupAgreesInFull, SameGroupSoFarInFull, GroupTraceGoesOn, MemberOutputGoesOn};
ghost use Rattle.dom_isolation.specs.GroupStates.{MemberLinesAgreeSoFarInFull, MemberLinesAgreeInFull};
ghost use Rattle.dom_isolation.specs.Strategies.{Strategy, SameByStrategy, SameByStrategies, SameToEndByStrategy, SamePageByStrategy, PlaysFollow};

/// Groups that have the page, and with each component its maker, are the page alone, the page with a family, the page with a component and
/// its makers, and all who are not inside a component.
pub fn groups_keep_makers()
    ensures page { PageIsGroup }
    ensures family { FamilyIsGroup }
    ensures makers { MakersAreGroup }
    ensures others { OthersAreGroup }
{}

/// A boundary host for the page is a node of the page; and for the page with a family the boundary host of a node outside is that for
/// the page.
pub fn boundary_hosts()
    ensures page { PageHostIsPage }
    ensures family { FamilyHostIsPage }
{}

/// What is assigned to a group's slots, which of them a step signals, and what a step of the group does to it, are the same as where
/// no other components are.
pub fn one_step()
    ensures assigned { AssignedAgree }
    ensures signals { SignalsAgree }
    ensures step { StepAgrees }
{}

/// What an event shows at a group's nodes is what it shows where no other components are: one of a node of the group at that node, and
/// one of a node outside that goes out at its boundary host. So a dispatch of the group does the same to it, and one of another
/// component does nothing, or what its outward event does.
pub fn one_group_dispatch()
    ensures own_views { ViewsAgree }
    ensures outward_views { OutwardViewsAgree }
    ensures own { DispatchAgrees }
    ensures other { OtherDispatchAgrees }
{}

/// A line of the group does the same to it in two worlds of which it has the same, and so do the ending of a turn and the end of
/// input; a line of another owner, where it ends no turn of the group, does what its outward event does.
pub fn one_group_line()
    ensures ending { EndingAgrees }
    ensures own { LineAgrees }
    ensures other { OtherLineAgrees }
    ensures finish { FinishAgrees }
{}

/// A group that keeps makers sees of a script, in which no component listener stops or cancels and no line of an owner outside ends
/// a turn of a component inside, what it would see if all others were silent and their outward events came from their boundary
/// hosts. Lines are bytes, and `read` is any reading of them.
pub fn group_sees_its_trace()
    ensures { (read : List ℕ → Line) → GroupSeesItsTrace read }
{}

/// So two scripts that agree for a group that keeps makers have equal output of the group, and of each member: where no line of an owner
/// outside ends a member's turn, and so where each component's turn is ended by its own `.`. The page is such a group, of which no line ends a turn.
#[tactic(auto, using(crate::proofs::StatedLaws::group_laws))]
pub fn same_group()
    ensures group { (read : List ℕ → Line) → SameGroup read }
    ensures standing { (read : List ℕ → Line) → SameMemberWhileTurnsStand read }
    ensures closed { (read : List ℕ → Line) → SameMember read }
    ensures page { (read : List ℕ → Line) → SamePage read }
{}

/// So it is of each member of a family.
#[tactic(auto, using(crate::proofs::StatedLaws::family_laws))]
pub fn same_family()
    ensures standing { (read : List ℕ → Line) → SameFamilyWhileTurnsStand read }
    ensures closed { (read : List ℕ → Line) → SameFamily read }
{}

/// So it is of a component, by the trace for it and its makers: its output hangs neither on its siblings, nor on what it attached, nor on other
/// families, but for their outward events.
pub fn same_component()
    ensures standing { (read : List ℕ → Line) → SameComponentWhileTurnsStand read }
    ensures closed { (read : List ℕ → Line) → SameComponent read }
{}

/// So it is of each owner who is not inside a component, by the trace for all such owners: of what happens inside the component the outward
/// events alone are told, to its maker too.
#[tactic(auto, using(crate::proofs::StatedLaws::around_laws))]
pub fn same_around()
    ensures standing { (read : List ℕ → Line) → SameAroundWhileTurnsStand read }
    ensures closed { (read : List ℕ → Line) → SameAround read }
{}

/// So it is of texts: an owner's lines of output are those that begin with its word and a space, for each reading that gives lines of owners with
/// a word and words without line feeds, as the protocol's does; and two texts that agree for a group give each member equal such lines.
pub fn same_group_text()
    ensures input { DecodeReadsOwners }
    ensures lines { (read : List ℕ → Line) → ReadsOwners read → ReadsPlainWords read → OwnLinesHaveTheirPrefix read }
    ensures standing { (read : List ℕ → Line) → ReadsOwners read → ReadsPlainWords read → SameGroupTextWhileTurnsStand read }
    ensures closed { (read : List ℕ → Line) → ReadsOwners read → ReadsPlainWords read → SameGroupText read }
{}

/// Two texts that agree for a family give each member the same.
pub fn same_family_text()
    ensures standing { (read : List ℕ → Line) → ReadsOwners read → ReadsPlainWords read → SameFamilyTextWhileTurnsStand read }
    ensures closed { (read : List ℕ → Line) → ReadsOwners read → ReadsPlainWords read → SameFamilyText read }
{}

/// Two texts that agree for a component with its makers give the component the same.
pub fn same_component_text()
    ensures standing { (read : List ℕ → Line) → ReadsOwners read → ReadsPlainWords read → SameComponentTextWhileTurnsStand read }
    ensures closed { (read : List ℕ → Line) → ReadsOwners read → ReadsPlainWords read → SameComponentText read }
{}

/// Two texts that agree around a component give each owner who is not inside it the same.
#[tactic(auto, using(crate::proofs::StatedLaws::around_text_laws))]
pub fn same_around_text()
    ensures standing { (read : List ℕ → Line) → ReadsOwners read → ReadsPlainWords read → SameAroundTextWhileTurnsStand read }
    ensures closed { (read : List ℕ → Line) → ReadsOwners read → ReadsPlainWords read → SameAroundText read }
{}

/// Without any premise on listeners or turns: a group that keeps makers sees of a script what the silent run writes that is told, of each event at
/// the group's nodes, how far others let it come and whether they cancelled it, and where others end a turn of the group.
pub fn group_sees_its_full_trace()
    ensures { (read : List ℕ → Line) → GroupSeesItsFullTrace read }
{}

/// So two scripts with equal lines of the group, equal outward events and equal interference have equal output of it, and of each member: of a
/// family, of a component by the lines of it and its makers, and of all who are not inside a component.
#[tactic(auto, using(crate::proofs::StatedLaws::full_laws))]
pub fn same_group_in_full()
    ensures group { (read : List ℕ → Line) → SameGroupInFull read }
    ensures member { (read : List ℕ → Line) → SameMemberInFull read }
    ensures family { (read : List ℕ → Line) → SameFamilyInFull read }
    ensures component { (read : List ℕ → Line) → SameComponentInFull read }
    ensures around { (read : List ℕ → Line) → SameAroundInFull read }
{}

/// Two texts with equal lines of a group, equal outward events and equal interference give each member the same.
pub fn same_group_text_in_full()
    ensures member { (read : List ℕ → Line) → ReadsOwners read → ReadsPlainWords read → SameGroupTextInFull read }
    ensures family { (read : List ℕ → Line) → ReadsOwners read → ReadsPlainWords read → SameFamilyTextInFull read }
    ensures component { (read : List ℕ → Line) → ReadsOwners read → ReadsPlainWords read → SameComponentTextInFull read }
    ensures around { (read : List ℕ → Line) → ReadsOwners read → ReadsPlainWords read → SameAroundTextInFull read }
{}

/// After every line of a script, before any end of input, a group that keeps makers has of the world what it has in the silent run on its full trace
/// so far, and it has been told the same: its parts, its signalled slots and tasks, its turn, and its lines of output. So two lists of lines with
/// equal full traces leave it the same. More lines only add to the full trace, and to what a member is told. As bytes: whoever picks the lines that
/// begin with a member's word and a space has the member's lines of the silent run, so far and to the end of input.
#[tactic(auto, using(crate::proofs::StatedLaws::state_laws))]
pub fn group_agrees_in_full()
    ensures run { (read : List ℕ → Line) → GroupAgreesInFull read }
    ensures same { (read : List ℕ → Line) → SameGroupSoFarInFull read }
    ensures longer { (read : List ℕ → Line) → GroupTraceGoesOn read }
    ensures front { (read : List ℕ → Line) → MemberOutputGoesOn read }
    ensures lines_so_far { (read : List ℕ → Line) → ReadsOwners read → ReadsPlainWords read → MemberLinesAgreeSoFarInFull read }
    ensures lines { (read : List ℕ → Line) → ReadsOwners read → ReadsPlainWords read → MemberLinesAgreeInFull read }
{}

/// Whatever a group's owners do with what they are told. In two scripts each line of a group that keeps makers is what one strategy gives: a function
/// from what the group has said and was told so far, line by line, to its next line, or to none. If others do the same to the group, then the group
/// says the same lines and is told the same, line by line, so far and to the end of input. That is, if their outward events, what they do to the
/// events of the group's lines, and the turns of the group that they end are equal, each at its place among the group's lines. Nothing is asked of the
/// group's lines or of its output. The page is such a group. So it is where each owner of the group has a strategy of its own, if the same owners speak in
/// the same order. For every strategy, whatever others say and whenever the group is asked, there is a script that follows it.
#[tactic(auto, using(crate::proofs::StatedLaws::strategy_laws))]
pub fn same_by_strategy()
    ensures group { (read : List ℕ → Line) → SameByStrategy read }
    ensures to_end { (read : List ℕ → Line) → SameToEndByStrategy read }
    ensures each { (read : List ℕ → Line) → SameByStrategies read }
    ensures page { (read : List ℕ → Line) → SamePageByStrategy read }
    ensures plays { (read : List ℕ → Line) (group : Owner → Bool) (next : Strategy (List ℕ)) → PlaysFollow read group next }
{}
