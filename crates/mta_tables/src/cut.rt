//! Cutting a text at a separator.

ghost use Rattle.std.specs.Prelude.{◌≡◌, ◌+◌, ◌<◌, ◌≤◌, length, IfSome};
ghost use Rattle.std.specs.Option.{option_copied};
ghost use Rattle.std.specs.Str.{bytes_eq};
ghost use Rattle.mta_tables.specs.Words.{cut_at, cut_last};

/// The text before the first separator, and the text behind it; the whole text where there is none.
pub fn cut_at(separator: u8, text: &[u8]) -> (&[u8], Option<&[u8]>)
    ensures front { result.0.now ≡ (cut_at separator text.now).0 }
    ensures behind { option_copied result.1 ≡ (cut_at separator text.now).1 }
    ensures within { length result.0.now ≤ length text.now }
    ensures shorter { IfSome result.1 (λ x. length x.now < length text.now) }
{
    for (i, c) in text.iter().enumerate() {
        if *c == separator {
            return (&text[..i], Some(&text[i + 1..]));
        }
    }
    (text, None)
}

/// The text before the last separator, where there is one, and the text behind it.
pub fn cut_last(separator: u8, text: &[u8]) -> (Option<&[u8]>, &[u8])
    ensures front { option_copied result.0 ≡ (cut_last separator text.now).0 }
    ensures behind { result.1.now ≡ (cut_last separator text.now).1 }
    ensures within { length result.1.now ≤ length text.now }
    ensures shorter { IfSome result.0 (λ x. length x.now < length text.now) }
{
    let mut i = text.len();
    while i > 0 {
        i -= 1;
        if text[i] == separator {
            return (Some(&text[..i]), &text[i + 1..]);
        }
    }
    (None, text)
}

/// Whether the texts have the same octets.
pub fn is_text(first: &[u8], second: &[u8]) -> bool
    ensures { result ≡ bytes_eq first.now second.now }
{
    first == second
}
