//! Laws of fields and octets.

ghost use Rattle.mta_fields.specs.Definite.{DefiniteElementsStandEverywhere, SuppliedInformationThatFitsIsKept};
ghost use Rattle.mta_fields.specs.Definite.{TraceElementsThatFitAreKept, ExtensionFieldsThatFitAreKept};
ghost use Rattle.mta_fields.specs.Definite.{ExpansionsThatFitAreKept};
ghost use Rattle.mta_fields.specs.Definite.{SuppliedInformationThatFitsIsReadAgain, TraceElementsThatFitAreReadAgain};
ghost use Rattle.mta_fields.specs.Definite.{ExtensionFieldsThatFitAreReadAgain, ExpansionsThatFitAreReadAgain};
ghost use Rattle.mta_fields.specs.Laws.{DomainsAreReadAgain, MtsIdentifiersAreReadAgain};
ghost use Rattle.mta_fields.specs.Laws.{SuppliedInformationIsReadAgain, TraceElementsAreReadAgain};
ghost use Rattle.mta_fields.specs.Laws.{ExtensionFieldsAreReadAgain, ExpansionsAreReadAgain};
ghost use Rattle.mta_fields.specs.Laws.{ReadSuppliedInformationIsKept, ReadTraceElementsAreKept};
ghost use Rattle.mta_fields.specs.Laws.{ReadExtensionFieldsAreKept, ReadExpansionsAreKept};
ghost use Rattle.mta_fields.specs.Laws.{KeptSuppliedInformationIsKeptAbove, KeptTraceElementsAreKeptAbove};
ghost use Rattle.mta_fields.specs.Laws.{KeptExtensionFieldsAreKeptAbove, KeptExpansionsAreKeptAbove};
ghost use Rattle.mta_fields.specs.Laws.{ReadMtsIdentifiersAreReadAgain, ReadTraceElementsAreReadAgain};
ghost use Rattle.mta_fields.specs.Laws.{ReadExtensionFieldsAreReadAgain, ReadExpansionsAreReadAgain};
ghost use Rattle.mta_fields.specs.Laws.{NoDomainBeginsAnother, NoMtsIdentifierBeginsAnother};
ghost use Rattle.mta_fields.specs.Laws.{NoSuppliedInformationBeginsAnother, NoTraceElementBeginsAnother};
ghost use Rattle.mta_fields.specs.Laws.{NoExtensionFieldBeginsAnother, NoExpansionBeginsAnother};

/// A domain that is written is read again, whatever follows it (X.411, GlobalDomainIdentifier).
pub fn domains_are_read_again()
    ensures { DomainsAreReadAgain }
{}

/// An MTS identifier that is written is read again, whatever follows it (X.411, MTSIdentifier).
pub fn mts_identifiers_are_read_again()
    ensures { MtsIdentifiersAreReadAgain }
{}

/// A trace element that is written is read again, whatever follows it, and so is what a domain supplied in it (X.411,
/// TraceInformationElement). Converted types that are kept unread stand in the level of their place.
pub fn trace_elements_are_read_again()
    ensures elements { TraceElementsAreReadAgain }
    ensures supplied { SuppliedInformationIsReadAgain }
{}

/// An extension field that is written is read again, whatever follows it (X.411, ExtensionField). Its value stands in
/// the level of its place.
pub fn extension_fields_are_read_again()
    ensures { ExtensionFieldsAreReadAgain }
{}

/// An expansion that is written is read again, whatever follows it (X.411, DLExpansion). What its name keeps unread
/// stands in the level of its place.
pub fn expansions_are_read_again()
    ensures { ExpansionsAreReadAgain }
{}

/// What a field keeps unread stands in the level of its place where it was read.
pub fn what_is_read_is_kept()
    ensures trace_elements { ReadTraceElementsAreKept }
    ensures supplied { ReadSuppliedInformationIsKept }
    ensures extension_fields { ReadExtensionFieldsAreKept }
    ensures expansions { ReadExpansionsAreKept }
{}

/// What a field keeps unread in the level of its place stands in each level above.
pub fn what_is_kept_is_kept_above()
    ensures trace_elements { KeptTraceElementsAreKeptAbove }
    ensures supplied { KeptSuppliedInformationIsKeptAbove }
    ensures extension_fields { KeptExtensionFieldsAreKeptAbove }
    ensures expansions { KeptExpansionsAreKeptAbove }
{}

/// The value of an extension that has a definite length stands at every level up to 16. So what a field keeps unread
/// stands in the level of its place where each part of it that has an indefinite length does.
pub fn what_fits_is_kept()
    ensures definite { DefiniteElementsStandEverywhere }
    ensures trace_elements { TraceElementsThatFitAreKept }
    ensures supplied { SuppliedInformationThatFitsIsKept }
    ensures extension_fields { ExtensionFieldsThatFitAreKept }
    ensures expansions { ExpansionsThatFitAreKept }
{}

/// A field that is written is read again, whatever follows it, where each part of an indefinite length that it keeps
/// unread stands in the level of its place.
pub fn fields_that_fit_are_read_again()
    ensures trace_elements { TraceElementsThatFitAreReadAgain }
    ensures supplied { SuppliedInformationThatFitsIsReadAgain }
    ensures extension_fields { ExtensionFieldsThatFitAreReadAgain }
    ensures expansions { ExpansionsThatFitAreReadAgain }
{}

/// A field that was read is written so that it is read again, in the level where it was read and in each level above.
/// An MTS identifier keeps nothing unread, and is read again in each level.
pub fn fields_that_were_read_are_read_again()
    ensures identifiers { ReadMtsIdentifiersAreReadAgain }
    ensures trace_elements { ReadTraceElementsAreReadAgain }
    ensures extension_fields { ReadExtensionFieldsAreReadAgain }
    ensures expansions { ReadExpansionsAreReadAgain }
{}

/// No spelling of a field begins another one, and each is the spelling of one value.
pub fn no_field_begins_another()
    ensures domains { NoDomainBeginsAnother }
    ensures identifiers { NoMtsIdentifierBeginsAnother }
    ensures trace_elements { NoTraceElementBeginsAnother }
    ensures supplied { NoSuppliedInformationBeginsAnother }
    ensures extension_fields { NoExtensionFieldBeginsAnother }
    ensures expansions { NoExpansionBeginsAnother }
{}
