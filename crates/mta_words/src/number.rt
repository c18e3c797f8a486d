//! Numbers in decimal.

ghost use Rattle.std.specs.Prelude.{◌≡◌, ◌≤◌};
ghost use Rattle.std.specs.List.{list_all};
ghost use Rattle.mta_names.specs.Values.{is_digit};
ghost use Rattle.mta_tables.specs.Numbers.{small_from};
ghost use Rattle.mta_tables.specs.Words.{is_decimal};
ghost use Rattle.mta_words.specs.Stations.{number_said};

fn are_digits(text: &[u8]) -> bool
    ensures { result ≡ list_all is_digit text.now }
{
    text.iter().all(|c| matches!(*c, 48..=57))
}

fn is_decimal(text: &[u8]) -> bool
    ensures { result ≡ is_decimal text.now }
{
    match text {
        [] => false,
        [c] => matches!(*c, 48..=57),
        [c, _, ..] => *c != b'0' && are_digits(text),
    }
}

// The number with further digits, where it is at most 99,999,999.
fn small_from(n: u32, text: &[u8]) -> Option<u32>
    requires { n ≤ 99999999 }
    ensures { result ≡ small_from n text.now }
{
    match text {
        [] => Some(n),
        [c, rest @ ..] => {
            let more = n * 10 + (*c as u32).saturating_sub(48);
            if more > 99_999_999 {
                return None;
            }
            small_from(more, rest)
        }
    }
}

/// The number of a text of decimal digits without leading zeros, where it is one from `low` to `high`.
#[tactic(auto, using(mta_tables::proofs::NumberLaws::number_read, mta_tables::proofs::NumberLaws::number_none))]
pub fn number_in(low: u32, high: u32, text: &[u8]) -> Option<u32>
    requires { high ≤ 99999999 }
    ensures { result ≡ number_said low high text.now }
{
    if !is_decimal(text) {
        return None;
    }
    match small_from(0, text) {
        None => None,
        Some(n) => { if low <= n && n <= high { Some(n) } else { None } }
    }
}
