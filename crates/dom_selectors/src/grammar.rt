//! The grammar of selectors, and the reader of the definitions.
ghost use Rattle.dom_selectors.specs.Laws.{SaysWhatIsRead, ReadsWhatIsSaid, SaysOneSelector};

/// The definitions read a text as a selector just where the grammar has it so, and the grammar has a text as one selector
/// at most (CSS Selectors Level 4, 18, in this project's part).
pub fn law_texts_say_one_selector()
    ensures said { SaysWhatIsRead }
    ensures read { ReadsWhatIsSaid }
    ensures one { SaysOneSelector }
{}
