//! Cutting a text at a separator.

ghost use Rattle.std.specs.Prelude.{◌≡◌, ◌++◌, take, drop};
ghost use Rattle.std.specs.Option.{option_copied};
ghost use Rattle.mta_tables.specs.Words.{cut_at};

/// The text before the first separator, and the text behind it; the whole text where there is none.
pub fn cut_at(separator: u8, text: &[u8]) -> (&[u8], Option<&[u8]>)
    ensures front { result.0.now ≡ (cut_at separator text.now).0 }
    ensures behind { option_copied result.1 ≡ (cut_at separator text.now).1 }
{
    for (i, c) in text.iter().enumerate() {
        if *c == separator {
            return (&text[..i], Some(&text[i + 1..]));
        }
    }
    (text, None)
}
