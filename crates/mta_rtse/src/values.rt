//! Numbers, words and octets of a size.

ghost use Rattle.std.specs.Prelude.{◌≡◌, ℕ, pos, ◌≤◌, ◌<◌, ◌^◌, length, IfOk};
ghost use Rattle.mta_ber.specs.Parts.{Reads};
ghost use Rattle.mta_ber.specs.Seen.{Gives, view};
ghost use Rattle.mta_rtse.specs.Values.{number_in, flag_in, octets_in, word_in};

use mta_ber::{Fault, Kind, Octets, ReadFault, TextClass, View, Word, bad};
use std::alloc::Global;

/// An INTEGER of 0 to 4,294,967,295.
#[tactic(auto, unfolding(crate::specs::Values::number_in))]
pub fn read_number(part: &View) -> Result<u32, Fault>
    ensures { result ≡ number_in (view part.now) }
{
    let number = part.int(0, 4_294_967_295)?;
    Ok(number as u32)
}

/// An INTEGER of 0 or 1; whether it is 1.
#[tactic(auto, unfolding(crate::specs::Values::flag_in))]
pub fn read_flag(part: &View) -> Result<bool, Fault>
    ensures { result ≡ flag_in (view part.now) }
{
    let number = part.int(0, 1)?;
    Ok(number == 1)
}

/// The octets of a string that has at most `most`. BadSize where it has more.
#[tactic(auto, unfolding(crate::specs::Values::octets_in))]
pub fn read_octets(alloc: Global, part: &View, most: usize) -> Result<Octets, ReadFault>
    ensures exact { Reads result (octets_in most (view part.now)) }
    ensures fits { IfOk result (λ o. length o ≤ most) }
{
    let octets = part.joined(alloc)?;
    if most < octets.len() {
        return bad(part.at, Kind::BadSize);
    }
    Ok(octets)
}

/// An IA5String of 1 to 32 characters.
pub fn read_word(alloc: Global, part: &View) -> Result<Word, ReadFault>
    ensures { Reads result (word_in (view part.now)) }
{
    let text = part.text(alloc, TextClass::Ia5, 1, 32)?;
    match Word::from_octets(alloc, text.into_octets())? {
        Some(word) => Ok(word),
        None => unreachable!(),
    }
}
