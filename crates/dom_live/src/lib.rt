//! Live documents: listeners, mutation observers and microtasks that call their owner while an event, a notification or a checkpoint is under way. There
//! is no code here but functions whose contracts are laws and worked examples.
#![tactic(auto)]

ghost use Rattle.std.specs.Prelude.{List, ℕ, Bool};
ghost use Rattle.dom_base.specs.declared.Owner.{Owner};
ghost use Rattle.dom_model.specs.Groups.{KeepsMakers};
ghost use Rattle.dom_live.specs.Lines.{LiveLine};
ghost use Rattle.dom_live.specs.Laws.{PageStepAgrees, GroupStepAgrees, PageStepsAgree, GroupStepsAgree, StepsKeep, RunsEnd, InputEnds, NothingWaits};
ghost use Rattle.dom_live.specs.Laws.{LinesKeep, PageLineAgrees, PageLinesAgree, PageRunAgrees, SamePage};
ghost use Rattle.dom_live.specs.Laws.{GroupLineAgrees, GroupLinesAgree, GroupRunAgrees, SameGroup};
ghost use Rattle.dom_model.specs.Trace.{is_page};
ghost use Rattle.dom_live.specs.Honesty.{TellsOwnLines, TellsOutwardEvents, CountsOwnSteps, QuietPage, QuietGroup, AloneGroup};
ghost use Rattle.dom_live.specs.Honesty.{TellsMadeStops};
ghost use Rattle.dom_live.specs.LineScripts.{KeptOutIsBusy, LinesTranslate, RunsTranslate, SameLines, SamePageLines};
ghost use Rattle.dom_live.specs.Programs.{Program, SameByProgram, SameToEndByProgram, PlaysFollow};
ghost use Rattle.dom_live.specs.Examples.{AnswersSo};
ghost use Rattle.dom_live.specs.EventScripts.{cancelled_in_callback, outward_within, removed_and_added, path_stays, passive_and_outer};
ghost use Rattle.dom_live.specs.NestedScripts.{sent_out_within_call, out_of_turn, called_again};
ghost use Rattle.dom_live.specs.TaskScripts.{tasks_wait, tasks_of_two, live_slotchange, end_in_call};

/// Worked examples of events whose listeners call their owner, which the prover computes.
pub fn live_events()
    ensures cancelled_in_callback { AnswersSo cancelled_in_callback }
    ensures outward_within { AnswersSo outward_within }
    ensures removed_and_added { AnswersSo removed_and_added }
    ensures path_stays { AnswersSo path_stays }
    ensures passive_and_outer { AnswersSo passive_and_outer }
{}

/// Worked examples of microtasks, observers and slots whose callbacks call their owner, and of the end of input in a call.
pub fn live_tasks()
    ensures tasks_wait { AnswersSo tasks_wait }
    ensures tasks_of_two { AnswersSo tasks_of_two }
    ensures live_slotchange { AnswersSo live_slotchange }
    ensures end_in_call { AnswersSo end_in_call }
{}

/// Worked examples of calls within calls.
pub fn nested_calls()
    ensures sent_out_within_call { AnswersSo sent_out_within_call }
    ensures out_of_turn { AnswersSo out_of_turn }
    ensures called_again { AnswersSo called_again }
{}

/// One small step of what is under way is an own step of the group, which the machine that is told things makes too, or it leaves what the group has, but
/// for one thing that it is told: so it is of the page, whose machine has no shadow trees, and of each group that has with each component its maker.
/// Lines are bytes, and `read` is any reading of them.
pub fn one_small_step()
    ensures page { (read : List ℕ → LiveLine) → PageStepAgrees read }
    ensures group { (read : List ℕ → LiveLine) → GroupStepAgrees read }
{}

/// What goes on by small steps keeps what is asked of live documents; and what the page has of it, or a group that has with each component its maker, is
/// what the machine does that is told its trace. Lines are bytes, and `read` is any reading of them.
pub fn going_on()
    ensures kept { StepsKeep }
    ensures page { (read : List ℕ → LiveLine) → PageStepsAgree read }
    ensures group { (read : List ℕ → LiveLine) → GroupStepsAgree read }
{}

/// What a line or a checkpoint sets going comes to its end, whatever is under way, live or queued: a call is under way then and waits, or nothing is. At the
/// end of input nothing is. And where no line makes anything live, behind each line nothing is.
pub fn runs_end()
    ensures run { RunsEnd }
    ensures input { InputEnds }
    ensures plain { NothingWaits }
{}

/// A line, up to what it sets going, keeps what is asked of live documents. The page machine takes the page's own lines alike, and of others' it is told
/// their outward events: so after every script what the page has is the page machine's on its trace, and so is the page's output, whatever components
/// do, and in whosever callbacks they do it. Lines are bytes, and `read` is any reading of them.
pub fn page_scripts()
    ensures kept { LinesKeep }
    ensures line { (read : List ℕ → LiveLine) → PageLineAgrees read }
    ensures lines { (read : List ℕ → LiveLine) → PageLinesAgree read }
    ensures run { (read : List ℕ → LiveLine) → PageRunAgrees read }
{}

/// Two scripts with equal traces for the page have equal output of it.
pub fn same_page()
    ensures { (read : List ℕ → LiveLine) → SamePage read }
{}

/// So it is of each group that has with each component its maker: after every script what it has is what the silent run has that is told its trace, in which
/// there are no others, and so is its output; and two scripts with equal traces for it have equal output of it. Lines are bytes, and `read` is any reading of
/// them.
pub fn group_scripts()
    ensures line { (read : List ℕ → LiveLine) → GroupLineAgrees read }
    ensures lines { (read : List ℕ → LiveLine) → GroupLinesAgree read }
    ensures run { (read : List ℕ → LiveLine) → GroupRunAgrees read }
    ensures same { (read : List ℕ → LiveLine) → SameGroup read }
{}

/// A trace tells of a script what it should and no more, for any group of owners. Its lines are the group's own, in order. Its outward events are those of
/// others' accepted dispatches, in order. Its numbers come to as many own steps as are made. And the page is told neither a stop nor a cancel where no line of
/// a component adds a listener that stops or cancels, or acts on an event; nor is any group where no line of others does; and where others send no event out
/// to it either, it is told its own lines, the checkpoints of others that run its tasks, and the end of input alone. And it is told no more stops than others
/// make: by a listener with that action, called at a node of theirs in an event of the group, or by a line in a call of their own. Lines are bytes, and `read`
/// is any reading of them.
pub fn honest_traces()
    ensures lines { (read : List ℕ → LiveLine) (group : Owner → Bool) → TellsOwnLines read group }
    ensures outward { (read : List ℕ → LiveLine) (group : Owner → Bool) → TellsOutwardEvents read group }
    ensures steps { (read : List ℕ → LiveLine) (group : Owner → Bool) → CountsOwnSteps read group }
    ensures quiet { (read : List ℕ → LiveLine) → QuietPage read }
    ensures quiet_group { (read : List ℕ → LiveLine) (group : Owner → Bool) → QuietGroup read group }
    ensures alone { (read : List ℕ → LiveLine) (group : Owner → Bool) → AloneGroup read group }
    ensures stops { (read : List ℕ → LiveLine) (group : Owner → Bool) → TellsMadeStops group read }
{}

/// The line protocol is the case without anything live. Each of its scripts has a script of live documents that stands for it: each line where it is carried
/// out; the event loop's checkpoint before a line that ends another component's turn; and what is refused in the page's turn is left out, of which that refusal
/// is all. After each list of lines, and to the end of input, live documents have then the world of the document machine, but that no turn is open, and answer
/// what it answers. So two scripts of the line protocol whose live scripts have equal traces for the page are answered the same to the page; and so it is of
/// each group that has with each component its maker, but for lines that are left out. Lines of live scripts are bytes, and `read` is any reading of them.
pub fn line_scripts()
    ensures kept_out { KeptOutIsBusy }
    ensures lines { LinesTranslate }
    ensures run { RunsTranslate }
    ensures page { (read : List ℕ → LiveLine) → SamePageLines read }
    ensures group { (read : List ℕ → LiveLine) (group : Owner → Bool) → KeepsMakers group → SameLines read group }
{}

/// Whatever components do, build, listen to or queue, whenever and in whosever callbacks they do it: in two scripts each line of the page is what one program
/// gives, a function from what the page has said, was told and was called for so far, and from what others hand to it as it comes to speak. If others send out
/// the same events to it, stop and cancel the same of its events, run its tasks in the same checkpoints and hand the same to it, each at its place among the
/// page's own steps and lines, then the page says the same lines, gets the same callbacks and is answered the same, line by line: so far, and to the end of
/// input. Nothing is asked of the page's lines or of its output. For every program, whatever others say, and whenever the page comes to speak, there is a
/// script that follows it. Lines and what others hand are bytes, and `read` and `cue` are any readings of them.
pub fn page_programs()
    ensures same { (read : List ℕ → LiveLine) (cue : List ℕ → List ℕ) → SameByProgram read cue is_page }
    ensures to_end { (read : List ℕ → LiveLine) (cue : List ℕ → List ℕ) → SameToEndByProgram read cue is_page }
    ensures plays { (read : List ℕ → LiveLine) (cue : List ℕ → List ℕ) (next : Program (List ℕ) (List ℕ)) → PlaysFollow read cue is_page next }
{}

/// So it is of the owners of each group that has with each component its maker, where one program gives the lines of all of them; `cue` may tell which of them
/// comes to speak.
pub fn group_programs()
    ensures same { (read : List ℕ → LiveLine) (cue : List ℕ → List ℕ) (group : Owner → Bool) → KeepsMakers group → SameByProgram read cue group }
    ensures to_end { (read : List ℕ → LiveLine) (cue : List ℕ → List ℕ) (group : Owner → Bool) → KeepsMakers group → SameToEndByProgram read cue group }
{}
