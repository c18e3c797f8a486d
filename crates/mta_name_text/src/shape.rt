//! The characters and the sizes of values.

ghost use Rattle.std.specs.Prelude.{◌≡◌};
ghost use Rattle.std.specs.List.{list_all};
ghost use Rattle.mta_names.specs.Values.{is_letter, is_digit};
ghost use Rattle.mta_name_text.specs.Shapes.{is_no_equals, is_value, is_begun};

use mta_ber::{TextClass, is_of_class};

/// What a value may be.
#[derive(Clone, Copy)]
pub enum Shape {
    /// Two letters, or three digits.
    Country,
    /// The type of a domain-defined attribute: 1 to 8 characters of PrintableString, none of them `=`.
    Kind,
    /// Characters of a class, with the least and the greatest number of them.
    Text(TextClass, u8, u8),
}

fn are_letters(text: &[u8]) -> bool
    ensures { result ≡ list_all is_letter text.now }
{
    text.iter()
        .all(|c| matches!(*c, 65..=90) || matches!(*c, 97..=122))
}

fn are_digits(text: &[u8]) -> bool
    ensures { result ≡ list_all is_digit text.now }
{
    text.iter().all(|c| matches!(*c, 48..=57))
}

fn has_no_equals(text: &[u8]) -> bool
    ensures { result ≡ list_all is_no_equals text.now }
{
    text.iter().all(|c| *c != b'=')
}

impl Shape {
    /// Whether a text is such a value.
    #[tactic(auto, unfolding(crate::specs::Shapes::is_value))]
    pub fn is_value(self, text: &[u8]) -> bool
        ensures { result ≡ is_value self text.now }
    {
        match self {
            Shape::Country => {
                (are_letters(text) && text.len() == 2) || (are_digits(text) && text.len() == 3)
            }
            Shape::Kind => {
                has_no_equals(text)
                    && is_of_class(TextClass::Printable, text)
                    && 1 <= text.len()
                    && text.len() <= 8
            }
            Shape::Text(class, low, high) => {
                is_of_class(class, text)
                    && low as usize <= text.len()
                    && text.len() <= high as usize
            }
        }
    }

    /// Whether such a value begins with a text.
    #[tactic(auto, unfolding(crate::specs::Shapes::is_begun))]
    pub fn is_begun(self, text: &[u8]) -> bool
        ensures { result ≡ is_begun self text.now }
    {
        match self {
            Shape::Country => {
                (are_letters(text) && text.len() <= 2) || (are_digits(text) && text.len() <= 3)
            }
            Shape::Kind => {
                has_no_equals(text) && is_of_class(TextClass::Printable, text) && text.len() <= 8
            }
            Shape::Text(class, _, high) => {
                is_of_class(class, text) && text.len() <= high as usize
            }
        }
    }
}
