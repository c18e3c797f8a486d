//! Laws of names and octets.

ghost use Rattle.mta_names.specs.Definite.{DefinitePartsStandEverywhere, NamesThatFitAreKept, NamesThatFitAreReadAgain};
ghost use Rattle.mta_names.specs.Laws.{CountriesAreReadAgain, LabelsAreReadAgain, LabelChoicesAreReadAgain};
ghost use Rattle.mta_names.specs.Laws.{PersonalNamesAreReadAgain, UnitNamesAreReadAgain};
ghost use Rattle.mta_names.specs.Laws.{DomainDefinedAttributesAreReadAgain, ExtensionAttributesAreReadAgain};
ghost use Rattle.mta_names.specs.Laws.{StandardAttributesAreReadAgain, NamesAreReadAgain, ReadNamesAreKept};
ghost use Rattle.mta_names.specs.Laws.{KeptNamesAreKeptAbove, ReadNamesAreReadAgain};
ghost use Rattle.mta_names.specs.Laws.{NoCountryBeginsAnother, NoLabelBeginsAnother, NoPersonalNameBeginsAnother};
ghost use Rattle.mta_names.specs.Laws.{NoUnitNamesBeginOthers, NoDomainDefinedAttributesBeginOthers};
ghost use Rattle.mta_names.specs.Laws.{NoExtensionAttributesBeginOthers, NoStandardAttributesBeginOthers};
ghost use Rattle.mta_names.specs.Laws.{NoNameBeginsAnother};

/// A part that is kept unread, and that has a definite length, stands at every level up to 16.
pub fn definite_parts_stand_everywhere()
    ensures { DefinitePartsStandEverywhere }
{}

/// A label that is written is read again, whatever follows it: of a country, of a domain, and without a tag around its
/// string (X.411, CountryName, AdministrationDomainName, PrivateDomainName).
pub fn labels_are_read_again()
    ensures countries { CountriesAreReadAgain }
    ensures labels { LabelsAreReadAgain }
    ensures choices { LabelChoicesAreReadAgain }
{}

/// A personal name that is written is read again, whatever follows it (X.411, PersonalName).
pub fn personal_names_are_read_again()
    ensures { PersonalNamesAreReadAgain }
{}

/// Unit names that are written are read again, whatever follows them (X.411, OrganizationalUnitNames).
pub fn unit_names_are_read_again()
    ensures { UnitNamesAreReadAgain }
{}

/// Domain-defined attributes that are written are read again, whatever follows them (X.411,
/// BuiltInDomainDefinedAttributes).
pub fn domain_defined_attributes_are_read_again()
    ensures { DomainDefinedAttributesAreReadAgain }
{}

/// Extension attributes that are written are read again, whatever follows them (X.411, ExtensionAttributes). What is
/// kept of one that is not read stands in the level of its place.
pub fn extension_attributes_are_read_again()
    ensures { ExtensionAttributesAreReadAgain }
{}

/// The standard attributes that are written are read again, whatever follows them (X.411, BuiltInStandardAttributes).
pub fn standard_attributes_are_read_again()
    ensures { StandardAttributesAreReadAgain }
{}

/// A name that is written is read again, whatever follows it (X.411, ORName). What it keeps unread stands in the level
/// of its place.
pub fn names_are_read_again()
    ensures { NamesAreReadAgain }
{}

/// A name that is written is read again, whatever follows it, where each part of an indefinite length that it keeps
/// unread stands in the level of its place (X.411, ORName).
pub fn names_that_fit_are_read_again()
    ensures kept { NamesThatFitAreKept }
    ensures again { NamesThatFitAreReadAgain }
{}

/// A name that was read is written so that it is read again: what it keeps unread stands in the level of its place,
/// where it was read and in each level above (X.411, ORName).
pub fn names_that_were_read_are_read_again()
    ensures kept { ReadNamesAreKept }
    ensures above { KeptNamesAreKeptAbove }
    ensures again { ReadNamesAreReadAgain }
{}

/// No spelling of a name, of a label, or of any part of a name begins another one, and each is the spelling of one
/// value.
pub fn no_name_begins_another()
    ensures names { NoNameBeginsAnother }
    ensures countries { NoCountryBeginsAnother }
    ensures labels { NoLabelBeginsAnother }
    ensures personal_names { NoPersonalNameBeginsAnother }
    ensures unit_names { NoUnitNamesBeginOthers }
    ensures domain_defined_attributes { NoDomainDefinedAttributesBeginOthers }
    ensures extension_attributes { NoExtensionAttributesBeginOthers }
    ensures standard_attributes { NoStandardAttributesBeginOthers }
{}
