//! The page sees of components their outward events, and how far their listeners let an event come that reaches it; and so does a group of owners of
//! all others (`groups`). These are laws over the definitions of the two machines. There is no code but functions whose contracts are the laws.
#![tactic(auto, using(crate::proofs::StatedLaws::laws))]

pub mod groups;

ghost use Rattle.std.specs.Prelude.{List, ℕ};
ghost use Rattle.dom_model.specs.Command.{Line};
ghost use Rattle.dom_model.specs.Isolation.{ForeignIsRefused, PagePartAgrees, PageSeesItsTrace, SamePage};
ghost use Rattle.dom_isolation.specs.Laws.{VisitIsUnseen, FoldSkipsComponents, PageVisitsAgree, OutwardVisitsAgree, PageDispatchAgrees};
ghost use Rattle.dom_isolation.specs.Laws.{ComponentDispatchAgrees, NotificationIsUnseen, TurnEndingAgrees, OtherEndingIsUnseen, PageLineAgrees};
ghost use Rattle.dom_isolation.specs.FullLaws.{InterferenceIsEnough, InterferenceIsOnPurpose, InterferenceIsSmall, FullTraceIsTrace, NothingTouches};
ghost use Rattle.dom_isolation.specs.FullLaws.{FirstVisitIsOwn, InterferenceLeavesFirst, LastVisitIsOwn, InterferenceTakesLast};
ghost use Rattle.dom_isolation.specs.FullLaws.{EndingsAreNotTold, PageDispatchAgreesInFull, PageLineAgreesInFull, OtherLineAgreesInFull};
ghost use Rattle.dom_isolation.specs.QuietTypes.{OthersLogAfter, NothingTouchesType, NothingTouchesSlots, NothingTouchesTypes};
ghost use Rattle.dom_isolation.specs.QuietTypes.{NothingTouchesPageTypes, PageSeesItsTypedTrace, SamePageByTypes};
ghost use Rattle.dom_isolation.specs.SeenNodes.{LineNamesSeen, FinishNamesSeen, ScriptNamesSeen};
ghost use Rattle.dom_isolation.specs.FullIsolation.{PageRunAgreesInFull, PageAgreesInFull, PageSeesItsFullTrace, SamePageInFull, FullTraceGoesOn};
ghost use Rattle.dom_isolation.specs.FullIsolation.{PageOutputGoesOnInFull, FullTraceHasPageLines, PageLinesAgreeInFull, PageLinesAgreeSoFarInFull};
ghost use Rattle.dom_isolation.specs.FullIsolation.{PageTextAgreesInFull, SamePageTextInFull, PickedLinesAgreeInFull, PickedLinesAgreeSoFarInFull};
ghost use Rattle.dom_isolation.specs.Laws.{OtherLineAgrees, FinishAgrees, PageRunAgrees, TraceGoesOn, PageOutputGoesOn, FirstLinesStopNothing};
ghost use Rattle.dom_isolation.specs.Texts.{ReadsPrefix, DecodeReadsPrefix, TraceHasPageLines, OutputHasPageLines, PageViewIsItsOutput};
ghost use Rattle.dom_isolation.specs.Texts.{PageLinesAgree, PageLinesAgreeSoFar, PageTextAgrees, SamePageText, ForeignLineIsRefused};
ghost use Rattle.dom_isolation.specs.Words.{ReadsPlainWords, DecodeReadsPlainWords, OutputHasItsLines, OutputHasItsLinesSoFar, PickedLinesAgree};
ghost use Rattle.dom_isolation.specs.Words.{PickedLinesAgreeSoFar};

/// A visit at a component's node, whose listeners neither stop nor cancel, is unseen by the page.
pub fn one_visit()
    ensures { VisitIsUnseen }
{}

/// Interference is what others' listeners did to an event: before which visit of a group's nodes one of them stopped it, and whether one cancelled
/// it. It is enough to tell what the group has of the event; others have to act to leave any; it is small. The first and the last visit of an event are
/// the group's, if any is. So nobody else keeps the event from the first one, and a stop that is told kept it from the last one. Of the ending of a turn
/// none is told to the page; and it only adds to a trace, where nothing is told if no component listener stops or cancels. Lines are bytes, and `read`
/// is any reading of them.
pub fn one_interference()
    ensures enough { InterferenceIsEnough }
    ensures purpose { InterferenceIsOnPurpose }
    ensures small { InterferenceIsSmall }
    ensures first_visit { FirstVisitIsOwn }
    ensures first { InterferenceLeavesFirst }
    ensures last_visit { LastVisitIsOwn }
    ensures last { InterferenceTakesLast }
    ensures endings { EndingsAreNotTold }
    ensures trace { (read : List ℕ → Line) → FullTraceIsTrace read }
    ensures nothing { (read : List ℕ → Line) → NothingTouches read }
{}

/// Interference goes by the type of event. Where nobody outside a group has an accepted `listen` for a type with stop, stop-now or cancel, their
/// listeners for it only log after the script, and nothing is told of an event of this type: of the dispatch of a line that comes then, and of those that
/// an ending of a turn fires. So where all events of a trace are of such types, nothing is told in the full trace, whatever listeners for other types
/// do. For the page, whose trace has no event of an ending, its output is then the page machine's on the trace, and two scripts with equal traces have
/// equal output of it.
pub fn types_are_apart()
    ensures after { (read : List ℕ → Line) → OthersLogAfter read }
    ensures event { (read : List ℕ → Line) → NothingTouchesType read }
    ensures slots { (read : List ℕ → Line) → NothingTouchesSlots read }
    ensures group { (read : List ℕ → Line) → NothingTouchesTypes read }
    ensures page { (read : List ℕ → Line) → NothingTouchesPageTypes read }
    ensures output { (read : List ℕ → Line) → PageSeesItsTypedTrace read }
    ensures same_page { (read : List ℕ → Line) → SamePageByTypes read }
{}

/// Of all visits the page sees those at its own nodes, and these are the page machine's; so a dispatch of the page is the
/// page machine's, and one of a component is nothing, or its outward event. With interference that is so whatever others' listeners do.
pub fn one_dispatch()
    ensures visits { FoldSkipsComponents }
    ensures page_visits { PageVisitsAgree }
    ensures outward_visits { OutwardVisitsAgree }
    ensures page { PageDispatchAgrees }
    ensures component { ComponentDispatchAgrees }
    ensures page_in_full { PageDispatchAgreesInFull }
{}

/// A component's notification is unseen, and the ending of a turn does to the page what the page's own tasks do.
pub fn one_ending()
    ensures notification { NotificationIsUnseen }
    ensures turn { TurnEndingAgrees }
    ensures other { OtherEndingIsUnseen }
{}

/// A line of the page is the page machine's, another's is its outward event; so is the end of input. With interference that is so whatever others'
/// listeners do.
pub fn one_line()
    ensures page { PageLineAgrees }
    ensures other { OtherLineAgrees }
    ensures finish { FinishAgrees }
    ensures page_in_full { PageLineAgreesInFull }
    ensures other_in_full { OtherLineAgreesInFull }
{}

/// After every script the page's part is the state of the page machine that is told the full trace: the page's lines, the outward events, and the
/// interference. The page's output is this machine's. More lines only add to the full trace, and to what the machine writes. Lines are bytes, and `read`
/// is any reading of them.
pub fn page_agrees_in_full()
    ensures run { (read : List ℕ → Line) → PageRunAgreesInFull read }
    ensures part { (read : List ℕ → Line) → PageAgreesInFull read }
    ensures output { (read : List ℕ → Line) → PageSeesItsFullTrace read }
    ensures longer { (read : List ℕ → Line) → FullTraceGoesOn read }
    ensures front { (read : List ℕ → Line) → PageOutputGoesOnInFull read }
{}

/// Two scripts with equal page lines, equal outward events and equal interference have equal output of the page: lists of lines, and texts.
pub fn same_page_in_full()
    ensures lines { (read : List ℕ → Line) → SamePageInFull read }
    ensures text { (read : List ℕ → Line) → SamePageTextInFull read }
{}

/// Of a text the page's output is the page machine's on the full trace: line by line, as text, and picked by the prefix `p ` out of the whole output, at
/// the end of input and before it. The lines in a full trace are those that begin with `p `.
pub fn page_text_agrees_in_full()
    ensures trace { (read : List ℕ → Line) → ReadsPrefix read → FullTraceHasPageLines read }
    ensures lines { (read : List ℕ → Line) → PageLinesAgreeInFull read }
    ensures so_far { (read : List ℕ → Line) → PageLinesAgreeSoFarInFull read }
    ensures text { (read : List ℕ → Line) → PageTextAgreesInFull read }
    ensures picked { (read : List ℕ → Line) → ReadsPlainWords read → PickedLinesAgreeInFull read }
    ensures picked_so_far { (read : List ℕ → Line) → ReadsPlainWords read → PickedLinesAgreeSoFarInFull read }
{}

/// After every script in which no component listener stops or cancels the page's part is the page machine's state after
/// the trace, and the page's output is the page machine's. Lines are bytes, and `read` is any reading of them.
pub fn page_agrees()
    ensures run { (read : List ℕ → Line) → PageRunAgrees read }
    ensures part { (read : List ℕ → Line) → PagePartAgrees read }
    ensures output { (read : List ℕ → Line) → PageSeesItsTrace read }
    ensures longer { (read : List ℕ → Line) → TraceGoesOn read }
{}

/// More lines only add to what the page machine writes: its output on the trace of the lines so far, without the ending, stands at
/// the front of its output on the trace of these lines and more.
pub fn page_output_goes_on()
    ensures output { (read : List ℕ → Line) → PageOutputGoesOn read }
    ensures first { (read : List ℕ → Line) → FirstLinesStopNothing read }
{}

/// Two scripts with equal traces have equal output of the page.
pub fn same_page()
    ensures { (read : List ℕ → Line) → SamePage read }
{}

/// Of input and of output the page's lines are those that begin with `p `: by the protocol's reading, and so in a trace; and so
/// of the lines of output, of which a view of the page writes just these.
pub fn page_lines_have_their_prefix()
    ensures input { DecodeReadsPrefix }
    ensures trace { (read : List ℕ → Line) → ReadsPrefix read → TraceHasPageLines read }
    ensures output { OutputHasPageLines }
    ensures view { PageViewIsItsOutput }
{}

/// Of a text in which no component listener stops or cancels the page's output is the page machine's on the trace: line by
/// line, and as text.
pub fn page_text_agrees()
    ensures lines { (read : List ℕ → Line) → PageLinesAgree read }
    ensures so_far { (read : List ℕ → Line) → PageLinesAgreeSoFar read }
    ensures text { (read : List ℕ → Line) → PageTextAgrees read }
{}

/// Two texts with equal traces have equal output of the page.
pub fn same_page_text()
    ensures { (read : List ℕ → Line) → SamePageText read }
{}

/// No line of output has a line feed, so the text of a script's output is cut into the lines that were written: who picks those
/// that begin with `p ` has the page's output. This is so for each reading whose words have no line feed, as the
/// protocol's has none. It is so at the end of input, and before it of the lines so far.
pub fn output_has_its_lines()
    ensures input { DecodeReadsPlainWords }
    ensures lines { (read : List ℕ → Line) → ReadsPlainWords read → OutputHasItsLines read }
    ensures lines_so_far { (read : List ℕ → Line) → ReadsPlainWords read → OutputHasItsLinesSoFar read }
    ensures picked { (read : List ℕ → Line) → ReadsPlainWords read → PickedLinesAgree read }
    ensures picked_so_far { (read : List ℕ → Line) → ReadsPlainWords read → PickedLinesAgreeSoFar read }
{}

/// A component's command that names another owner's node is refused and changes nothing; so too a line of bytes that says
/// such a command.
pub fn foreign_is_refused()
    ensures command { ForeignIsRefused }
    ensures line { ForeignLineIsRefused }
{}

/// No line of output names a node that is hidden from its owner, in any world that the machine reaches. What a reply names is the owner's own, or not
/// hidden from a node of its own, or the node document of one. What an event's line names, the target, the related node and the path, is not hidden from
/// the node at which it is heard, which is the owner's. What a mutation record names is the owner's own.
pub fn no_line_names_hidden()
    ensures line { LineNamesSeen }
    ensures finish { FinishNamesSeen }
    ensures script { (read : List ℕ → Line) → ScriptNamesSeen read }
{}
