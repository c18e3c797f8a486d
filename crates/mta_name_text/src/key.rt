//! The keys of a text form: their order, and what their parts may have.

ghost use Rattle.std.specs.Prelude.{◌≡◌};
ghost use Rattle.mta_name_text.specs.Forms.{key_text};
ghost use Rattle.mta_name_text.specs.Keys.{keys, place_of, repeats, is_surname, needs_surname};
ghost use Rattle.mta_name_text.specs.Keys.{has_kind, lead, shape_of};

use crate::shape::Shape;
use mta_ber::TextClass;

/// The keys, in the order in which their parts stand.
#[derive(Clone, Copy, PartialEq, Eq)]
pub enum Key {
    Country,
    Admd,
    Prmd,
    Organization,
    Unit,
    Surname,
    Given,
    Initials,
    Generation,
    Common,
    Network,
    Terminal,
    User,
    Pair,
}

/// All keys, in their order.
pub fn all_keys() -> &'static [Key]
    ensures { result.now ≡ keys }
{
    &[
        Key::Country,
        Key::Admd,
        Key::Prmd,
        Key::Organization,
        Key::Unit,
        Key::Surname,
        Key::Given,
        Key::Initials,
        Key::Generation,
        Key::Common,
        Key::Network,
        Key::Terminal,
        Key::User,
        Key::Pair,
    ]
}

impl Key {
    /// What stands before the `=` of a part; that of a domain-defined attribute has its type behind it.
    pub(crate) fn text(self) -> &'static [u8]
        ensures { result.now ≡ key_text self }
    {
        match self {
            Key::Country => b"C",
            Key::Admd => b"A",
            Key::Prmd => b"P",
            Key::Organization => b"O",
            Key::Unit => b"OU",
            Key::Surname => b"S",
            Key::Given => b"G",
            Key::Initials => b"I",
            Key::Generation => b"Q",
            Key::Common => b"CN",
            Key::Network => b"X121",
            Key::Terminal => b"TID",
            Key::User => b"UID",
            Key::Pair => b"DDA:",
        }
    }

    /// What stands before the value, or before the type of a domain-defined attribute.
    pub(crate) fn lead(self) -> &'static [u8]
        ensures { result.now ≡ lead self }
    {
        match self {
            Key::Country => b"C=",
            Key::Admd => b"A=",
            Key::Prmd => b"P=",
            Key::Organization => b"O=",
            Key::Unit => b"OU=",
            Key::Surname => b"S=",
            Key::Given => b"G=",
            Key::Initials => b"I=",
            Key::Generation => b"Q=",
            Key::Common => b"CN=",
            Key::Network => b"X121=",
            Key::Terminal => b"TID=",
            Key::User => b"UID=",
            Key::Pair => b"DDA:",
        }
    }

    /// The place of the key in the order, from 1 on.
    pub(crate) fn place(self) -> u8
        ensures { result ≡ place_of self }
    {
        match self {
            Key::Country => 1,
            Key::Admd => 2,
            Key::Prmd => 3,
            Key::Organization => 4,
            Key::Unit => 5,
            Key::Surname => 6,
            Key::Given => 7,
            Key::Initials => 8,
            Key::Generation => 9,
            Key::Common => 10,
            Key::Network => 11,
            Key::Terminal => 12,
            Key::User => 13,
            Key::Pair => 14,
        }
    }

    /// How many more parts of the key may follow the first: there are at most four units and four domain-defined
    /// attributes.
    pub(crate) fn repeats(self) -> u8
        ensures { result ≡ repeats self }
    {
        match self {
            Key::Unit | Key::Pair => 3,
            _ => 0,
        }
    }

    /// Whether it is the key of a surname.
    pub(crate) fn is_surname(self) -> bool
        ensures { result ≡ is_surname self }
    {
        matches!(self, Key::Surname)
    }

    /// Whether the part stands only behind a surname.
    pub(crate) fn needs_surname(self) -> bool
        ensures { result ≡ needs_surname self }
    {
        matches!(self, Key::Given | Key::Initials | Key::Generation)
    }

    /// Whether a type stands between the key and the `=`.
    pub(crate) fn has_kind(self) -> bool
        ensures { result ≡ has_kind self }
    {
        matches!(self, Key::Pair)
    }

    /// What the value of a part may be (X.411, upper bounds).
    pub(crate) fn shape(self) -> Shape
        ensures { result ≡ shape_of self }
    {
        match self {
            Key::Country => Shape::Country,
            Key::Admd => Shape::Text(TextClass::Printable, 0, 16),
            Key::Prmd => Shape::Text(TextClass::Printable, 1, 16),
            Key::Organization => Shape::Text(TextClass::Printable, 1, 64),
            Key::Unit => Shape::Text(TextClass::Printable, 1, 32),
            Key::Surname => Shape::Text(TextClass::Printable, 1, 40),
            Key::Given => Shape::Text(TextClass::Printable, 1, 16),
            Key::Initials => Shape::Text(TextClass::Printable, 1, 5),
            Key::Generation => Shape::Text(TextClass::Printable, 1, 3),
            Key::Common => Shape::Text(TextClass::Printable, 1, 64),
            Key::Network => Shape::Text(TextClass::Numeric, 1, 16),
            Key::Terminal => Shape::Text(TextClass::Printable, 1, 24),
            Key::User => Shape::Text(TextClass::Numeric, 1, 32),
            Key::Pair => Shape::Text(TextClass::Printable, 1, 128),
        }
    }
}
