//! Laws of the extension fields of an envelope and octets.

ghost use Rattle.mta_envelope_extensions.specs.Laws.{EnvelopeExtensionsAreReadAgain, ReadEnvelopeExtensionsAreKept};

/// The extension fields of an envelope that are written are read again, whatever follows them, and say the same. Their
/// values stand in the level of their place.
pub fn envelope_extensions_are_read_again()
    ensures { EnvelopeExtensionsAreReadAgain }
{}

/// The values of extension fields that were read stand in the level of their place, and say there what is said.
pub fn envelope_extensions_that_were_read_are_kept()
    ensures { ReadEnvelopeExtensionsAreKept }
{}
