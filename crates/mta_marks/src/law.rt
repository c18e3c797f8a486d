//! Laws of the definitions.

ghost use Rattle.mta_marks.specs.Image.{NoMarksHaveNone, OneList, OnePlace};

/// One image of the disk stands for one list of marks.
pub fn one_list()
    ensures { OneList }
{}

/// One that stands for none does so at one place.
pub fn one_place()
    ensures { OnePlace }
{}

/// And stands for no list.
pub fn marks_are_no_others()
    ensures { NoMarksHaveNone }
{}
