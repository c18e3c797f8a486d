//! How many octets recipients have that are written, told without writing them: no call here takes memory. Each answers
//! 2^64 - 1 where there are as many octets or more.

ghost use Rattle.std.specs.Prelude.{◌≡◌};
ghost use Rattle.std.specs.List.{flat_map};
ghost use Rattle.mta_ber.specs.Lengths.{octet_length};
ghost use Rattle.mta_envelope_recipient.specs.Lists.{canonical_recipients};
ghost use Rattle.mta_envelope_recipient.specs.Recipients.{recipient_content, canonical_recipient};

use crate::recipient::{Recipient, RecipientFields};
use mta_ber::{bits_length, element_length, int_length, length_of_both};
use mta_envelope_common::extensions_length;
use mta_names::{Row, constructed, primitive, raw_length};

/// How many contents octets a recipient has.
pub fn components_length(v: &RecipientFields) -> u64
    ensures { result ≡ octet_length (recipient_content v.now) }
{
    let name = v.name.length(constructed(1, 0));
    let number = length_of_both(name, int_length(primitive(2, 0), v.number as i64));
    let indicators = length_of_both(number, bits_length(primitive(2, 1), v.indicators));
    let conversion = length_of_both(indicators, raw_length(&v.conversion));
    length_of_both(
        conversion,
        extensions_length(constructed(2, 3), &v.extensions),
    )
}

fn items_length(recipients: &[Recipient]) -> u64
    ensures { result ≡ octet_length (flat_map canonical_recipient recipients.now) }
{
    let mut total = 0;
    for recipient in recipients {
        total = length_of_both(total, recipient.length());
    }
    total
}

/// How many octets recipients have under `[2]`.
#[tactic(auto, unfolding(crate::specs::Lists::canonical_recipients))]
pub fn recipients_length(recipients: &Row<Recipient>) -> u64
    ensures { result ≡ octet_length (canonical_recipients recipients.now) }
{
    element_length(constructed(2, 2), items_length(recipients.as_slice()))
}
