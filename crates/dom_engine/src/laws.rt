//! Laws of runs, of sessions and of documents, over the definitions that the contracts of `run`, `Session` and `Document` cite.
ghost use Rattle.std.specs.Prelude.{ℕ, List};
ghost use Rattle.dom_model.specs.Command.{Line};
ghost use Rattle.dom_model.specs.Isolation.{SamePage, SameFamily, SameFamilyWhileTurnsStand, SameComponent, SameComponentWhileTurnsStand};
ghost use Rattle.dom_model.specs.Isolation.{SameAround, SameAroundWhileTurnsStand};
ghost use Rattle.dom_isolation.specs.Agreement.{SameMember, SameMemberWhileTurnsStand};
ghost use Rattle.dom_isolation.specs.FullGroups.{SameMemberInFull, SameFamilyInFull, SameComponentInFull, SameAroundInFull};
ghost use Rattle.dom_engine.specs.Session.{ForeignLinesAreRefused};
ghost use Rattle.dom_engine.specs.Sessions.{SessionBegins, SessionGoesOn, SessionTellsAll, SessionHasPage, SessionHasGroup, SameSessions};
ghost use Rattle.dom_engine.specs.Sessions.{SameSessionsByStrategy, SameSessionsByStrategies};
ghost use Rattle.dom_engine.specs.GroupPrefixes.{MemberTextIsTheSilentRuns, MemberSeesLinesNamed, MemberSeesPrefix};
ghost use Rattle.dom_engine.specs.GroupLaws.{SameGroupRuns, SameGroupRunsWhileTurnsStand, SameFamilyRuns, SameFamilyRunsWhileTurnsStand};
ghost use Rattle.dom_engine.specs.GroupLaws.{SameGroupRunsInFull, SameFamilyRunsInFull, SameComponentRunsInFull, SameAroundRunsInFull};
ghost use Rattle.dom_engine.specs.GroupLaws.{SameComponentRuns, SameComponentRunsWhileTurnsStand, SameAroundRuns, SameAroundRunsWhileTurnsStand};
ghost use Rattle.dom_engine.specs.Calls.{LineIsItsCommand, LineIsItsCall, CommandEndsInReply, CallEndsInReply, ForeignCommandIsRefused, ForeignCallIsRefused};
ghost use Rattle.dom_engine.specs.CallSessions.{CallsBegin, CallsGoOn, CallsTellAll, LinesAreTheirCalls, CallsHavePage, CallsHaveGroup, SameCalls};
ghost use Rattle.dom_engine.specs.CallSessions.{SameCallsByStrategy, SameCallsByStrategies};
ghost use Rattle.dom_engine.specs.DocumentLaws.{NeverBusy, TasksWait, LinesAreActs, ScriptsAreActs, BusyLinesDoNothing};
ghost use Rattle.dom_isolation.specs.FullIsolation.{SamePageInFull};
ghost use Rattle.dom_engine.specs.PageLaws.{PageTextIsThePageMachinesInFull, SamePageTextInFull, PageSeesLinesNamedInFull, PageSeesPrefixInFull};
ghost use Rattle.dom_engine.specs.PageLaws.{PageTextIsThePageMachines, SamePageText, PageSeesLinesNamed, PageSeesPrefix};

use dom_answers::law_text;

/// What a run writes with the page's view is the page machine's output on the full trace of the lines read, whatever listeners do. If no
/// component's listener stops or cancels, it is the page machine's output on the trace, which has no interference.
#[tactic(auto, using(crate::proofs::StatedLaws::page_laws))]
pub fn law_page_text()
    ensures quiet { PageTextIsThePageMachines }
    ensures in_full { PageTextIsThePageMachinesInFull }
{}

/// Two scripts with equal full traces give the page equal output, whatever listeners do. The full traces are equal if the scripts have
/// equal lines of the page, equal outward events and equal interference, in order. Equal traces, without the interference, are enough if
/// no component's listener stops or cancels. This is said of lists of lines, read in any way, and of the text that runs of two inputs
/// write with the page's view.
#[tactic(auto, using(crate::proofs::StatedLaws::page_laws))]
pub fn law_same_page()
    ensures lines { (read : List ℕ → Line) → SamePage read }
    ensures text { SamePageText }
    ensures lines_in_full { (read : List ℕ → Line) → SamePageInFull read }
    ensures text_in_full { SamePageTextInFull }
{}

/// Two scripts that agree for a group of owners give each member equal output. A group contains the page, and the maker of each of its
/// components. In the clauses in full, two scripts agree in the members' lines, in the outward events of all others, in what others'
/// listeners did to events that reach the members, and in where others end members' turns. These clauses have no premise on listeners or
/// turns. In the other clauses, scripts agree in the members' lines and in the outward events, each at the first host that is a member's.
/// These clauses ask that no component's listener stops or cancels. They also ask that each component's turn is ended by its own `.`, or
/// at least that no line of an owner outside ends a member's turn (`standing`). All is said of lists of lines, read in any way, and of
/// the text that runs of two inputs write with the member's view.
#[tactic(auto, using(crate::proofs::StatedLaws::group_laws))]
pub fn law_same_group()
    ensures lines { (read : List ℕ → Line) → SameMember read }
    ensures standing_lines { (read : List ℕ → Line) → SameMemberWhileTurnsStand read }
    ensures text { SameGroupRuns }
    ensures standing_text { SameGroupRunsWhileTurnsStand }
    ensures lines_in_full { (read : List ℕ → Line) → SameMemberInFull read }
    ensures text_in_full { SameGroupRunsInFull }
{}

/// The same for the page with a family, and the output of each member of the family. A family is a component that the page attached, with
/// all components inside it.
#[tactic(auto, using(crate::proofs::StatedLaws::family_laws))]
pub fn law_same_family()
    ensures lines { (read : List ℕ → Line) → SameFamily read }
    ensures standing_lines { (read : List ℕ → Line) → SameFamilyWhileTurnsStand read }
    ensures text { SameFamilyRuns }
    ensures standing_text { SameFamilyRunsWhileTurnsStand }
    ensures lines_in_full { (read : List ℕ → Line) → SameFamilyInFull read }
    ensures text_in_full { SameFamilyRunsInFull }
{}

/// The same for a component and its makers, and the component's output. So what a component is told depends on its siblings, on what it
/// attached and on other families only by what two scripts have to agree in.
#[tactic(auto, using(crate::proofs::StatedLaws::component_laws))]
pub fn law_same_component()
    ensures lines { (read : List ℕ → Line) → SameComponent read }
    ensures standing_lines { (read : List ℕ → Line) → SameComponentWhileTurnsStand read }
    ensures text { SameComponentRuns }
    ensures standing_text { SameComponentRunsWhileTurnsStand }
    ensures lines_in_full { (read : List ℕ → Line) → SameComponentInFull read }
    ensures text_in_full { SameComponentRunsInFull }
{}

/// The same for all owners who are not inside a component. So nobody outside, not even its maker, is told more of what happens inside the
/// component than what two scripts have to agree in, such as the events that it sends out of its host.
#[tactic(auto, using(crate::proofs::StatedLaws::around_laws))]
pub fn law_same_around()
    ensures lines { (read : List ℕ → Line) → SameAround read }
    ensures standing_lines { (read : List ℕ → Line) → SameAroundWhileTurnsStand read }
    ensures text { SameAroundRuns }
    ensures standing_text { SameAroundRunsWhileTurnsStand }
    ensures lines_in_full { (read : List ℕ → Line) → SameAroundInFull read }
    ensures text_in_full { SameAroundRunsInFull }
{}

/// What the page sees of a run that a fault stops. On `Read`, `Memory` and `InputLimit` it is the page machine's output on the full trace
/// of the lines whose text is written, without the end of input. On every fault it is some first bytes of that machine's output on the
/// full trace of any input that begins with the bytes read. If the end was reached, that input is the bytes read. If no component's
/// listener of these lines stops or cancels, the same holds of traces.
#[tactic(auto, using(crate::proofs::StatedLaws::prefix_laws))]
pub fn law_page_prefix()
    ensures lines { PageSeesLinesNamed }
    ensures prefix { PageSeesPrefix }
    ensures lines_in_full { PageSeesLinesNamedInFull }
    ensures prefix_in_full { PageSeesPrefixInFull }
{}

/// What a member of a group sees of a run, whatever listeners do. (A group contains the page, and the maker of each of its components.)
/// At the end it is the member's output in the silent run on the full trace of the lines read. On `Read`, `Memory` and `InputLimit` it is
/// that output on the full trace of the lines whose text is written, without the end of input. On every fault it is some first bytes of
/// that output on any input that begins with the bytes read. If the end was reached, that input is the bytes read.
pub fn law_member_prefix()
    ensures text { MemberTextIsTheSilentRuns }
    ensures lines { MemberSeesLinesNamed }
    ensures prefix { MemberSeesPrefix }
{}

/// A line of the page or a component whose command names another owner's node is refused (own rule): as `busy` if the line is a
/// component's and the page's turn is open, else as `foreign`. Nothing changes, except that another component's open turn ends.
/// `Session::line` answers in this way.
pub fn law_foreign_lines()
    ensures { ForeignLinesAreRefused }
{}

/// Take a session that was new and has answered Ok to some lines. It has the document machine's world on these lines, and has told the
/// machine's text for them. The contracts of `Session::new` and `Session::line` are all that is used of them (`begins`, `goes_on`). So
/// all claims on lists of lines are claims on what a program with a session is told: for the page, and for each member of a group. Two
/// sessions tell a group the same if the full traces of their lines are equal. They also tell it the same if its owners choose their
/// lines by one strategy, or each by its own, and others do the same to the group. A strategy may do anything with what its owners were
/// told.
pub fn law_sessions()
    ensures begins { SessionBegins }
    ensures goes_on { SessionGoesOn }
    ensures all { SessionTellsAll }
    ensures page { SessionHasPage }
    ensures group { SessionHasGroup }
    ensures same { SameSessions }
    ensures strategy { SameSessionsByStrategy }
    ensures strategies { SameSessionsByStrategies }
{}

/// A text that says a command of an owner by the grammar does what the command does. A line that is read as the command leaves a session
/// as `Session::call` leaves it, and its text is the text of what the call's answer tells. The same holds of all lines that a session has
/// taken.
pub fn law_lines_are_calls()
    ensures command { LineIsItsCommand }
    ensures call { LineIsItsCall }
    ensures session { LinesAreTheirCalls }
{
    law_text();
}

/// What a command tells ends in its owner's reply or refusal, and no line of output before that one is a reply or a refusal. The same
/// holds of what the answer of a call tells.
pub fn law_last_is_reply()
    ensures command { CommandEndsInReply }
    ensures call { CallEndsInReply }
{}

/// A command that names another owner's node is refused (own rule): as `syntax` if it is no command of its owner's, as `busy` if the
/// owner is a component and the page's turn is open, else as `foreign`. Nothing changes, except that another component's open turn ends.
/// The same holds of a call.
pub fn law_foreign_calls()
    ensures command { ForeignCommandIsRefused }
    ensures call { ForeignCallIsRefused }
{}

/// Take a session that was new and has done some calls, each of which answered Ok. It has the document machine's world on these calls,
/// and its answers have told what the machine's output shows. The contracts of `Session::new` and `Session::call` are all that is used of
/// them (`begins`, `goes_on`). So all claims on scripts are claims on what a program is told that calls a session, whatever listeners do:
/// for the page, and for a group. Two sessions tell a group the same if the full traces of their calls are equal. They also tell it the
/// same if its owners choose their calls by one strategy, or each by its own, and others do the same to the group.
pub fn law_same_calls()
    ensures begins { CallsBegin }
    ensures goes_on { CallsGoOn }
    ensures all { CallsTellAll }
    ensures page { CallsHavePage }
    ensures group { CallsHaveGroup }
    ensures same { SameCalls }
    ensures strategy { SameCallsByStrategy }
    ensures strategies { SameCallsByStrategies }
{}

/// No call of a document is refused as `busy`, whatever the owner, since no turn is open in it.
pub fn law_never_busy()
    ensures { NeverBusy }
{}

/// A call of a document runs no task, whoever queued it, but for the end of a turn: the call tells what it would tell if no task waited, and what
/// it queues comes after the tasks that wait.
pub fn law_tasks_wait()
    ensures { TasksWait }
{}

/// A script by lines is the same calls of a document, with a checkpoint where a turn was ended: the lines leave the world that these leave, but for the
/// turn, and tell what these tell. Left out are the lines that say no command, and those that are refused as `busy`, which tell this alone and change
/// nothing.
pub fn law_lines_are_acts()
    ensures lines { LinesAreActs }
    ensures script { ScriptsAreActs }
    ensures busy { BusyLinesDoNothing }
{}
