//! The attributes of an O/R name (X.402, 18.3), as they are read, written and compared.

use crate::row::Row;
use mta_ber::{Octets, Text};
use std::marker::Model;

/// A label of a country or of a domain: digits and spaces as NumericString, or characters of PrintableString.
pub struct Label {
    pub numeric: bool,
    pub text: Text,
}

// Written out, since a derived one is opened anew, field by field, at each place where a value is let go.
impl Drop for Label {
    fn drop(self) {
        let Label {
            numeric: _,
            text: _,
        } = self;
    }
}

/// What a personal-name has.
pub struct PersonFields {
    /// 1 to 40 characters of PrintableString.
    pub surname: Text,
    /// 1 to 16.
    pub given: Option<Text>,
    /// 1 to 5.
    pub initials: Option<Text>,
    /// The generation qualifier: 1 to 3.
    pub generation: Option<Text>,
}

// Written out, since a derived one is opened anew, field by field, at each place where a value is let go.
impl Drop for PersonFields {
    fn drop(self) {
        let PersonFields {
            surname: _,
            given: _,
            initials: _,
            generation: _,
        } = self;
    }
}

/// A personal-name: a surname of 1 to 40 characters of PrintableString, and at most a given name of 1 to 16, initials
/// of 1 to 5 and a generation qualifier of 1 to 3.
pub struct Person {
    fields: PersonFields,
}

// Written out, since a derived one is opened anew, field by field, at each place where a value is let go.
impl Drop for Person {
    fn drop(self) {
        let Person { fields: _ } = self;
    }
}

impl Model for Person {
    ghost use Rattle.mta_names.specs.declared.attributes.PersonFields.{PersonFields};
    ghost use Rattle.mta_names.specs.Bounded.{IsPerson};

    ghost Value = { PersonFields };

    ghost view = { λ p. p.fields };

    ghost invariant = { λ p. IsPerson p.fields };
}

impl Person {
    ghost use Rattle.std.specs.Prelude.{◌≡◌};
    ghost use Rattle.mta_names.specs.Bounded.{IsPerson};

    /// A personal name of these parts, which takes no memory.
    pub fn from_fields(fields: PersonFields) -> Person
        requires { IsPerson fields }
        ensures { result ≡ fields }
    {
        Person { fields }
    }

    /// The parts, lent.
    pub fn fields(&self) -> &PersonFields
        ensures exact { result.now ≡ self.now }
        ensures person { IsPerson self.now }
    {
        &self.fields
    }
}

/// What a domain-defined attribute has.
pub struct PairFields {
    /// The type: 1 to 8 characters of PrintableString.
    pub kind: Text,
    /// 1 to 128.
    pub value: Text,
}

// Written out, since a derived one is opened anew, field by field, at each place where a value is let go.
impl Drop for PairFields {
    fn drop(self) {
        let PairFields { kind: _, value: _ } = self;
    }
}

/// A domain-defined attribute: a type of 1 to 8 and a value of 1 to 128 characters of PrintableString.
pub struct Pair {
    fields: PairFields,
}

// Written out, since a derived one is opened anew, field by field, at each place where a value is let go.
impl Drop for Pair {
    fn drop(self) {
        let Pair { fields: _ } = self;
    }
}

impl Model for Pair {
    ghost use Rattle.mta_names.specs.declared.attributes.PairFields.{PairFields};
    ghost use Rattle.mta_names.specs.Bounded.{IsPair};

    ghost Value = { PairFields };

    ghost view = { λ p. p.fields };

    ghost invariant = { λ p. IsPair p.fields };
}

impl Pair {
    ghost use Rattle.std.specs.Prelude.{◌≡◌};
    ghost use Rattle.mta_names.specs.Bounded.{IsPair};

    /// A domain-defined attribute of these parts, which takes no memory.
    pub fn from_fields(fields: PairFields) -> Pair
        requires { IsPair fields }
        ensures { result ≡ fields }
    {
        Pair { fields }
    }

    /// The parts, lent.
    pub fn fields(&self) -> &PairFields
        ensures exact { result.now ≡ self.now }
        ensures pair { IsPair self.now }
    {
        &self.fields
    }
}

/// What an extension attribute has that is not read.
pub struct ExtraFields {
    /// Its type: 0, or 2 to 32,767.
    pub number: u32,
    /// The explicit tag around its value, `[1]`, whole.
    pub raw: Octets,
}

// Written out, since a derived one is opened anew, field by field, at each place where a value is let go.
impl Drop for ExtraFields {
    fn drop(self) {
        let ExtraFields { number: _, raw: _ } = self;
    }
}

/// An extension attribute that is not read: its type, 0 or 2 to 32,767, and the explicit tag around its value, `[1]`,
/// whole, which is constructed (X.690, 8.14).
pub struct Extra {
    fields: ExtraFields,
}

// Written out, since a derived one is opened anew, field by field, at each place where a value is let go.
impl Drop for Extra {
    fn drop(self) {
        let Extra { fields: _ } = self;
    }
}

impl Model for Extra {
    ghost use Rattle.mta_names.specs.declared.attributes.ExtraFields.{ExtraFields};
    ghost use Rattle.mta_names.specs.Bounded.{IsExtra};

    ghost Value = { ExtraFields };

    ghost view = { λ e. e.fields };

    ghost invariant = { λ e. IsExtra e.fields };
}

impl Extra {
    ghost use Rattle.std.specs.Prelude.{◌≡◌};
    ghost use Rattle.mta_names.specs.Bounded.{IsExtra};

    /// An attribute of these parts, which takes no memory.
    pub fn from_fields(fields: ExtraFields) -> Extra
        requires { IsExtra fields }
        ensures { result ≡ fields }
    {
        Extra { fields }
    }

    /// The parts, lent.
    pub fn fields(&self) -> &ExtraFields
        ensures exact { result.now ≡ self.now }
        ensures extra { IsExtra self.now }
    {
        &self.fields
    }
}

/// An extension attribute as it is read.
#[derive(Drop)]
pub enum Attribute {
    /// common-name, type 1: 1 to 64 characters of PrintableString.
    Common(Text),
    /// Any other, which is kept unread.
    Other(Extra),
}

/// The attributes of a name. What is absent is `None`, and a list that is absent is empty.
pub struct Attributes {
    /// country-name: two letters, or three digits as NumericString.
    pub country: Option<Label>,
    /// administration-domain-name: at most 16 characters.
    pub admd: Option<Label>,
    /// network-address: 1 to 16 characters of NumericString.
    pub network: Option<Text>,
    /// terminal-identifier: 1 to 24 characters of PrintableString.
    pub terminal: Option<Text>,
    /// private-domain-name: 1 to 16 characters.
    pub prmd: Option<Label>,
    /// organization-name: 1 to 64 characters of PrintableString.
    pub organization: Option<Text>,
    /// numeric-user-identifier: 1 to 32 characters of NumericString.
    pub user: Option<Text>,
    /// personal-name.
    pub person: Option<Person>,
    /// organizational-unit-names: at most 4, each of 1 to 32 characters of PrintableString.
    pub units: Row<Text>,
    /// domain-defined-attributes: at most 4.
    pub pairs: Row<Pair>,
    /// common-name, extension attribute 1: 1 to 64 characters of PrintableString.
    pub common: Option<Text>,
    /// The other extension attributes, in the order held; with the common name at most 256.
    pub extras: Row<Extra>,
    /// directory-name: the whole element, `[0]`.
    pub directory: Option<Octets>,
}

// By hand, since a derived one is opened anew, field by field, at each place where attributes are let go.
impl Drop for Attributes {
    fn drop(self) {
        let Attributes {
            country: _,
            admd: _,
            network: _,
            terminal: _,
            prmd: _,
            organization: _,
            user: _,
            person: _,
            units: _,
            pairs: _,
            common: _,
            extras: _,
            directory: _,
        } = self;
    }
}

/// The labels of a name's domain.
#[derive(Drop)]
pub struct DomainLabels {
    pub country: Option<Label>,
    pub admd: Option<Label>,
    pub prmd: Option<Label>,
}

impl Attributes {
    ghost use Rattle.std.specs.Prelude.{◌≡◌};

    /// The labels of the name's domain, which takes no memory. The other attributes are let go.
    pub fn into_labels(self) -> DomainLabels
        ensures { result ≡ record {
          country = self.country;
          admd = self.admd;
          prmd = self.prmd;
        } }
    {
        let Attributes {
            country,
            admd,
            network: _,
            terminal: _,
            prmd,
            organization: _,
            user: _,
            person: _,
            units: _,
            pairs: _,
            common: _,
            extras: _,
            directory: _,
        } = self;
        DomainLabels {
            country,
            admd,
            prmd,
        }
    }
}
