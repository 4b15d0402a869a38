//! The text of lines: which lines say which commands, and how the engine's answers are written. There is no code here but
//! functions whose contracts are laws of the definitions.
#![tactic(auto)]

ghost use Rattle.dom_text.specs.Laws.{SaysOneCommand, IsDecoded, SaysWhatIsDecoded, IsDecodedAsKept, IsReadAsWritten};

/// A line says at most one command, and `decode` finds what it says; so of the part of a long line that is kept.
pub fn lines_say_one_thing()
    ensures command { SaysOneCommand }
    ensures decoded { IsDecoded }
    ensures only { SaysWhatIsDecoded }
    ensures kept { IsDecodedAsKept }
{}

/// Lines without line feeds, written with their ends, are read as these lines.
pub fn lines_are_read_as_written()
    ensures { IsReadAsWritten }
{}
