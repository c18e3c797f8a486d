//! Laws of the definitions.

ghost use Rattle.mta_journal.specs.Bodies.{OneArea, OneList};
ghost use Rattle.mta_journal.specs.Faults.{NotBoth, OnePlace};

/// One image of the disk stands for one list of bodies.
pub fn one_list()
    ensures { OneList }
{}

/// And they stand in one place.
pub fn one_area()
    ensures { OneArea }
{}

/// No image stands for bodies and is no journal.
pub fn not_both()
    ensures { NotBoth }
{}

/// An image is no journal at one place only.
pub fn one_place()
    ensures { OnePlace }
{}
