//! Bodies of one size.

ghost use Rattle.std.specs.Prelude.{◌≡◌};
ghost use Rattle.mta_units.specs.Fixed.{number_in, pair_in, exception_in, nothing_in, bad_size as wrong_size};

use mta_ber::{Fault, Kind};

/// That a body has another size than its kind's.
pub fn bad_size<T>() -> Result<T, Fault>
    ensures { result ≡ wrong_size }
{
    Err(Fault {
        at: 0,
        kind: Kind::BadSize,
    })
}

/// A number: four octets, the most significant first.
pub fn read_number(body: &[u8]) -> Result<u32, Fault>
    ensures { result ≡ number_in body.now }
{
    match body {
        [first, second, third, fourth] => {
            Ok(u32::from_be_bytes([*first, *second, *third, *fourth]))
        }
        _ => bad_size(),
    }
}

/// Two numbers.
pub fn read_pair(body: &[u8]) -> Result<(u32, u32), Fault>
    ensures { result ≡ pair_in body.now }
{
    match body {
        [first, second, third, fourth, rest @ ..] => {
            let number = read_number(rest)?;
            Ok((
                u32::from_be_bytes([*first, *second, *third, *fourth]),
                number,
            ))
        }
        _ => bad_size(),
    }
}

/// The number of a kind of fault, 1 to 12, and a number.
pub fn read_exception(body: &[u8]) -> Result<(u8, u32), Fault>
    ensures { result ≡ exception_in body.now }
{
    match body {
        [kind, rest @ ..] => {
            if *kind < 1 || *kind > 12 {
                return bad_size();
            }
            let at = read_number(rest)?;
            Ok((*kind, at))
        }
        _ => bad_size(),
    }
}

/// No octets.
pub fn read_nothing(body: &[u8]) -> Result<(), Fault>
    ensures { result ≡ nothing_in body.now }
{
    if body.is_empty() { Ok(()) } else { bad_size() }
}
