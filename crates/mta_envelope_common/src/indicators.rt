//! Indicators.

ghost use Rattle.std.specs.Prelude.{◌≡◌, IfOk, OnOk, OnErr, Ok};
ghost use Rattle.mta_ber.specs.Bits.{BitString};
ghost use Rattle.mta_ber.specs.Canon.{IsTag, appended};
ghost use Rattle.mta_ber.specs.Contents.{canon_bits};
ghost use Rattle.mta_ber.specs.Seen.{view};
ghost use Rattle.mta_envelope_common.specs.Indicators.{IsIndicators, indicators_in, SpellsIndicators};
ghost use Rattle.mta_envelope_common.specs.Indicators.{canonical_indicators};

use mta_ber::{Bits, Fault, Memory, Tag, View, Writer, put_bits};

fn indicators_of(part: &View) -> Result<Bits, Fault>
    ensures { result ≡ indicators_in (view part.now) }
{
    let bits = part.bits()?;
    Ok(bits.padded(8))
}

/// The indicators that an element spells, whatever its tag, which is for the caller to check: a bit string of at most
/// 64 bits, padded with zeros to at least 8. BadInt where there are more than 64.
pub fn read_indicators(part: &View) -> Result<Bits, Fault>
    // Which indicators they are, or which fault comes first.
    ensures exact { result ≡ indicators_in (view part.now) }
    ensures fits { IfOk result IsIndicators }

    // What is answered is spelled by the content, and what the content spells is answered.
    ensures found { IfOk result (SpellsIndicators part.now.depth part.now.tag.constructed part.now.content.now) }
    ensures only { (v : BitString) → SpellsIndicators part.now.depth part.now.tag.constructed part.now.content.now v
        → result ≡ Ok v }
{
    indicators_of(part)
}

/// Appends indicators under a tag, as many bits as they are.
pub fn put_indicators(w: &mut Writer, tag: Tag, bits: Bits) -> Result<(), Memory>
    requires { IsTag tag }
    ensures ok { OnOk result (w.new ≡ appended w.old (canonical_indicators tag bits)) }
    ensures err { OnErr result (w.new ≡ w.old) }
{
    put_bits(w, tag, bits)
}
