//! INTEGER and ENUMERATED contents.

ghost use Rattle.std.specs.Prelude.{◌≡◌, ◌-◌, ◌<◌, ◌≤◌, length, map, false, true, IsTrue};
ghost use Rattle.std.specs.Prelude.{MatchBool, slice_index, Ok, Err, IfOk, ℤ, ◌≤ℤ◌};
ghost use Rattle.mta_ber.specs.Head.{base};
ghost use Rattle.mta_ber.specs.Int.{is_short, signed, int_in, SpellsInteger};

use crate::fault::{Fault, Kind};
use crate::head::length_number;
use crate::view::View;

/// The number whose octets are the complements.
fn complement_number(octets: &[u8]) -> u64
    requires { length octets.now ≤ 8 }
    ensures { result ≡ base 256 (map (λ x. 255 - x) octets.now) }
{
    let mut n: u64 = 0;
    for octet in octets {
        n = n * 256 + (255 - *octet) as u64;
    }
    n
}

fn is_short_form(octets: &[u8]) -> bool
    ensures { result ≡ is_short octets.now }
{
    match octets {
        [] => false,
        [_] => true,
        [first, second, ..] => !(*first == 0 && *second < 128 || *first == 255 && *second >= 128),
    }
}

fn is_negative(octets: &[u8]) -> bool
    ensures { MatchBool result (128 ≤ slice_index octets.now 0) (slice_index octets.now 0 < 128) }
{
    match octets {
        [] => false,
        [first, ..] => *first >= 128,
    }
}

fn signed_of(octets: &[u8]) -> i64
    requires { length octets.now ≤ 8 }
    ensures { result ≡ signed octets.now }
{
    if is_negative(octets) {
        -1 - complement_number(octets) as i64
    } else {
        length_number(octets) as i64
    }
}

impl View<'_> {
    #[tactic(auto, unfolding(crate::specs::Int::int_in))]
    fn int_of(&self, low: i64, high: i64) -> Result<i64, Fault>
        ensures exact { result ≡ int_in self.now.at self.now.tag.constructed low high self.now.content.now }
        ensures range { IfOk result (λ n. (low ≤ℤ n) × (n ≤ℤ high)) }
    {
        if self.tag.constructed {
            return Err(Fault {
                at: self.at,
                kind: Kind::BadTag,
            });
        }
        if !is_short_form(self.content) || self.content.len() > 8 {
            return Err(Fault {
                at: self.at,
                kind: Kind::BadInt,
            });
        }
        let n = signed_of(self.content);
        if n < low || high < n {
            return Err(Fault {
                at: self.at,
                kind: Kind::BadInt,
            });
        }
        Ok(n)
    }

    /// The number of an INTEGER or an ENUMERATED (X.690, 8.3 and 8.4), from `low` to `high`. BadTag where the element
    /// is constructed, BadInt where the number is not minimal, longer than 8 octets or out of range.
    pub fn int(&self, low: i64, high: i64) -> Result<i64, Fault>
        ensures exact { result ≡ int_in self.now.at self.now.tag.constructed low high self.now.content.now }

        // What is answered is spelled by the content, and what the content spells is answered.
        ensures found { IfOk result (SpellsInteger low high self.now.tag.constructed self.now.content.now) }
        ensures only { (n : ℤ) → SpellsInteger low high self.now.tag.constructed self.now.content.now n
            → result ≡ Ok n }
        ensures range { IfOk result (λ n. (low ≤ℤ n) × (n ≤ℤ high)) }
    {
        self.int_of(low, high)
    }
}
