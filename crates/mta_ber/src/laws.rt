//! Laws over values and octets.

ghost use Rattle.mta_ber.specs.Spelling.{NoSpellingBeginsAnother};
ghost use Rattle.mta_ber.specs.Laws.{ElementsAreReadAgain, NumbersAreReadAgain, BitsAreReadAgain};
ghost use Rattle.mta_ber.specs.Laws.{MomentsAreReadAgain, TextsAreReadAgain, OidsAreReadAgain};
ghost use Rattle.mta_ber.specs.Laws.{ExplicitTagsAreReadAgain};

/// No spelling of an element begins another.
pub fn no_spelling_begins_another()
    ensures { NoSpellingBeginsAnother }
{}

/// An element that is written is read again, whatever follows it.
pub fn elements_are_read_again()
    ensures { ElementsAreReadAgain }
{}

/// A number that is written is read again, whatever follows it.
pub fn numbers_are_read_again()
    ensures { NumbersAreReadAgain }
{}

/// A bit string that is written is read again, whatever follows it.
pub fn bits_are_read_again()
    ensures { BitsAreReadAgain }
{}

/// A text that is written is read again, whatever follows it.
pub fn texts_are_read_again()
    ensures { TextsAreReadAgain }
{}

/// A time that is written is read again, whatever follows it.
pub fn moments_are_read_again()
    ensures { MomentsAreReadAgain }
{}

/// The octets of an object identifier that are written are read again, whatever follows them.
pub fn object_identifiers_are_read_again()
    ensures { OidsAreReadAgain }
{}

/// An element that is written in an explicit tag is read again, whatever follows the tag.
pub fn explicit_tags_are_read_again()
    ensures { ExplicitTagsAreReadAgain }
{}
