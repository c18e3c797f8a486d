//! Laws over names, patterns and their text forms, each the contract of a function that does nothing.

ghost use Rattle.mta_name_text.specs.Laws.{NamesAreReadAgain, TextFormsAreWhatIsWritten, NameFormsAreWhatIsRead};
ghost use Rattle.mta_name_text.specs.Laws.{NameFaultsAreFirst, PatternFormsAreWhatIsRead, PatternFaultsAreFirst};

/// A name with at least one part is read back equal from its text form, where it keeps nothing unread, has no domain of
/// digits as NumericString, and has no `=` in the type of a domain-defined attribute.
pub fn names_are_read_again()
    ensures { NamesAreReadAgain }
{}

/// A text is a text form of a name exactly where it is what is written of that name, and says all of it.
pub fn text_forms_are_what_is_written()
    ensures { TextFormsAreWhatIsWritten }
{}

/// A name is read from a text exactly where the text is its text form.
pub fn name_forms_are_what_is_read()
    ensures { NameFormsAreWhatIsRead }
{}

/// A text is refused at an octet exactly where that is the first at which no text form of a name goes on.
pub fn name_faults_are_first()
    ensures { NameFaultsAreFirst }
{}

/// A pattern is read from a text exactly where the text is its text form.
pub fn pattern_forms_are_what_is_read()
    ensures { PatternFormsAreWhatIsRead }
{}

/// A text is refused at an octet exactly where that is the first at which no text form of a pattern goes on.
pub fn pattern_faults_are_first()
    ensures { PatternFaultsAreFirst }
{}
