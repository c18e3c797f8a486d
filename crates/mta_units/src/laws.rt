//! Laws over streams and their units.

ghost use Rattle.mta_units.specs.Reading.{StreamsHaveOneReading, UnitsAreReadAgain};

/// Each stream has one reading: one list of whole units, and one rest that is cut off or begins with a fault.
pub fn streams_have_one_reading()
    ensures { StreamsHaveOneReading }
{}

/// A unit that is written is read again, whatever follows it.
pub fn units_are_read_again()
    ensures { UnitsAreReadAgain }
{}
