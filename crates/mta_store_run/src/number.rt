//! Numbers in decimal, as words name entries.

ghost use Rattle.std.specs.Prelude.{◌≡◌, ◌≤◌, IfSome};
ghost use Rattle.std.specs.List.{list_all};
ghost use Rattle.mta_names.specs.Values.{is_digit};
ghost use Rattle.mta_tables.specs.Words.{is_decimal};
ghost use Rattle.mta_store_run.specs.Asked.{number_from, number_said};

// The number of the last entry that there may be.
const LAST_NUMBER: u64 = 4_294_967_295;

fn are_digits(text: &[u8]) -> bool
    ensures { result ≡ list_all is_digit text.now }
{
    text.iter().all(|c| matches!(*c, 48..=57))
}

fn is_decimal(text: &[u8]) -> bool
    ensures { result ≡ is_decimal text.now }
{
    match text {
        [] => false,
        [c] => matches!(*c, 48..=57),
        [c, _, ..] => *c != b'0' && are_digits(text),
    }
}

// The number with further digits, where it is at most 4,294,967,295.
fn number_from(n: u64, text: &[u8]) -> Option<u64>
    requires { n ≤ 4294967295 }
    ensures exact { result ≡ number_from n text.now }
    ensures fits { IfSome result (λ m. m ≤ 4294967295) }
{
    match text {
        [] => Some(n),
        [c, rest @ ..] => {
            let more = n * 10 + u64::from((*c).saturating_sub(48));
            if more > LAST_NUMBER {
                return None;
            }
            number_from(more, rest)
        }
    }
}

/// The number of a text of decimal digits without leading zeros, where it is one from 1 to 4,294,967,295.
#[tactic(auto, using(crate::proofs::Numbers::number_read, crate::proofs::Numbers::number_none))]
pub(crate) fn number_in(text: &[u8]) -> Option<u32>
    ensures { result ≡ number_said text.now }
{
    if !is_decimal(text) {
        return None;
    }
    match number_from(0, text) {
        None => None,
        Some(n) => { if n == 0 { None } else { Some(n as u32) } }
    }
}
