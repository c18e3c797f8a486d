//! Laws over streams and their units.

ghost use Rattle.mta_follow_units.specs.Laws.{LooksAreExact, LooksDoNotChange, UnitsAreReadAgain};

/// What is seen at the front of octets is what stands there: a unit that is due, one that is none, or too little of one
/// to tell.
pub fn looks_are_exact()
    ensures { LooksAreExact }
{}

/// What is seen at the front of a stream once it is no longer cut off is seen there whatever follows: so it is the same
/// however the stream is cut into pieces.
pub fn looks_do_not_change()
    ensures { LooksDoNotChange }
{}

/// A unit that is put is read again, whatever follows it.
pub fn units_are_read_again()
    ensures { UnitsAreReadAgain }
{}
