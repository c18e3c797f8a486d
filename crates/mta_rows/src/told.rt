//! What is told of a row.

ghost use Rattle.std.specs.Prelude.{◌≡◌, ◌++◌, string_bytes, IfOk, OnOk};
ghost use Rattle.mta_rows.specs.Texts.{pairs_text, said_text, shown_octet, shown_text, spaced_pairs};

use std::alloc::{AllocError, Global};
use std::io;

// Puts how a row has an octet.
fn put_shown(text: &mut String, alloc: Global, octet: u8) -> Result<(), AllocError>
    ensures { OnOk result (string_bytes text.new ≡ string_bytes text.old ++ shown_octet octet) }
{
    match octet {
        b'\n' => text.push('|'),
        b' '..=b'~' if !matches!(octet, b'|' | b'<' | b'>') => text.push(char::from(octet)),
        _ => {
            text.push('<')?;
            text.push_str(hex::encode(alloc, [octet])?.as_str())?;
            text.push('>')
        }
    }
}

/// Octets as a row has them: `|` for a line feed, printable ones but `|`, `<` and `>` as they are, and others in
/// hexadecimal between `<` and `>`.
pub fn shown(alloc: Global, octets: &[u8]) -> Result<String, AllocError>
    ensures { IfOk result (λ text. string_bytes text ≡ shown_text octets.now) }
{
    let mut text = String::new(alloc);
    for octet in octets {
        put_shown(&mut text, alloc, *octet)?;
    }
    Ok(text)
}

/// A status, and behind a space what was printed.
pub fn said(alloc: Global, status: u8, printed: &[u8]) -> Result<String, AllocError>
    ensures { IfOk result (λ text. string_bytes text ≡ said_text status printed.now) }
{
    let text = shown(alloc, printed)?;
    let text = text.as_str();
    format!(in alloc; "{status} {text}")
}

// Puts octets in hexadecimal, a space before each.
fn put_pairs(text: &mut String, alloc: Global, octets: &[u8]) -> Result<(), AllocError>
    ensures { OnOk result (string_bytes text.new ≡ string_bytes text.old ++ spaced_pairs octets.now) }
{
    for octet in octets {
        text.push(' ')?;
        text.push_str(hex::encode_upper(alloc, [*octet])?.as_str())?;
    }
    Ok(())
}

/// Octets in hexadecimal, one space between two.
pub fn pairs(alloc: Global, octets: &[u8]) -> Result<String, AllocError>
    ensures { IfOk result (λ text. string_bytes text ≡ pairs_text octets.now) }
{
    let Some((first, others)) = octets.split_first() else {
        return Ok(String::new(alloc));
    };
    let mut text = hex::encode_upper(alloc, [*first])?;
    put_pairs(&mut text, alloc, others)?;
    Ok(text)
}

/// Prints that a row, which asks something about something, was answered as it says, or what it was answered.
/// Nothing is said of what is printed, since the law of `Print` says nothing of it; an error is that of printing.
pub fn tell(
    rt: &impl Print,
    asked: &str,
    about: &str,
    answered: &str,
    wanted: &str,
) -> io::Result<()> {
    let gap = if about.is_empty() { "" } else { " " };
    if answered == wanted {
        println!(rt; "{asked}{gap}{about}: ok")
    } else {
        println!(rt; "{asked}{gap}{about}: {answered} in place of {wanted}")
    }
}
