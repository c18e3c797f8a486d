//! Words and numbers of a line.

ghost use Rattle.std.specs.Prelude.{◌≡◌, ◌≤◌, ◌+◌, ◌*◌, ◌-◌, Some, None, if◌then◌else◌};
ghost use Rattle.std.specs.List.{list_all};
ghost use Rattle.mta_names.specs.Values.{is_digit};
ghost use Rattle.mta_tables.specs.Words.{is_word_octet, is_word, is_password_octet, is_password, is_mode, is_policy};
ghost use Rattle.mta_tables.specs.Words.{grade_of, is_filled, is_decimal, is_number, number_of, is_silent};
ghost use Rattle.mta_tables.specs.Numbers.{small_from};

use crate::cut::is_text;
use crate::line::Grade;

fn are_word_octets(text: &[u8]) -> bool
    ensures { result ≡ list_all is_word_octet text.now }
{
    text.iter().all(|c| {
        matches!(*c, 65..=90) || matches!(*c, 97..=122) || matches!(*c, 48..=57) || *c == b'-'
    })
}

/// Whether the text is a word: 1 to 32 letters, digits or `-`.
pub fn is_word(text: &[u8]) -> bool
    ensures { result ≡ is_word text.now }
{
    are_word_octets(text) && 1 <= text.len() && text.len() <= 32
}

fn are_password_octets(text: &[u8]) -> bool
    ensures { result ≡ list_all is_password_octet text.now }
{
    text.iter().all(|c| matches!(*c, 33..=126))
}

/// Whether the text is a password: 1 to 62 visible characters.
pub fn is_password(text: &[u8]) -> bool
    ensures { result ≡ is_password text.now }
{
    are_password_octets(text) && 1 <= text.len() && text.len() <= 62
}

/// Whether the text is the mode of a peer.
pub fn is_mode(text: &[u8]) -> bool
    ensures { result ≡ is_mode text.now }
{
    is_text(text, b"monologue") || is_text(text, b"twa")
}

/// Whether the text is the policy of a list.
pub fn is_policy(text: &[u8]) -> bool
    ensures { result ≡ is_policy text.now }
{
    is_text(text, b"keep") || is_text(text, b"back")
}

/// The grade of delivery of this word.
pub fn grade_of(text: &[u8]) -> Option<Grade>
    ensures { result ≡ grade_of text.now }
{
    if is_text(text, b"urgent") {
        Some(Grade::Urgent)
    } else if is_text(text, b"normal") {
        Some(Grade::Normal)
    } else if is_text(text, b"non-urgent") {
        Some(Grade::NonUrgent)
    } else {
        None
    }
}

/// Whether the text has an octet.
pub fn is_filled(text: &[u8]) -> bool
    ensures { result ≡ is_filled text.now }
{
    match text {
        [] => false,
        [_, ..] => true,
    }
}

/// Whether a line says nothing: it is empty or begins with `#`.
pub fn is_silent(line: &[u8]) -> bool
    ensures { result ≡ is_silent line.now }
{
    match line {
        [] => true,
        [first, ..] => *first == b'#',
    }
}

fn are_digits(text: &[u8]) -> bool
    ensures { result ≡ list_all is_digit text.now }
{
    text.iter().all(|c| matches!(*c, 48..=57))
}

fn is_decimal(text: &[u8]) -> bool
    ensures { result ≡ is_decimal text.now }
{
    match text {
        [] => false,
        [c] => matches!(*c, 48..=57),
        [c, _, ..] => *c != b'0' && are_digits(text),
    }
}

/// The number with further digits, where it is at most 99,999,999.
fn small_from(n: u32, text: &[u8]) -> Option<u32>
    requires { n ≤ 99999999 }
    ensures { result ≡ small_from n text.now }
{
    match text {
        [] => Some(n),
        [c, rest @ ..] => {
            let more = n * 10 + (*c as u32).saturating_sub(48);
            if more > 99_999_999 {
                return None;
            }
            small_from(more, rest)
        }
    }
}

/// The number of a text of decimal digits without leading zeros, where it is one from `low` to `high`.
#[tactic(auto, using(crate::proofs::NumberLaws::number_read, crate::proofs::NumberLaws::number_none))]
pub fn number_in(low: u32, high: u32, text: &[u8]) -> Option<u32>
    requires { high ≤ 99999999 }
    ensures { result ≡ (if is_number low high text.now then Some (number_of text.now) else None) }
{
    if !is_decimal(text) {
        return None;
    }
    match small_from(0, text) {
        None => None,
        Some(n) => { if low <= n && n <= high { Some(n) } else { None } }
    }
}
