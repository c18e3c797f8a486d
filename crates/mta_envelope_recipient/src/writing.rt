//! Writing a recipient in its one canonical spelling.

ghost use Rattle.std.specs.Prelude.{◌≡◌, IfOk};
ghost use Rattle.mta_envelope_recipient.specs.Recipients.{recipient_content};

use crate::recipient::RecipientFields;
use mta_ber::{Memory, Writer, put_int};
use mta_envelope_common::{put_extensions, put_indicators};
use mta_names::{constructed, primitive, put_raw_if};
use std::alloc::Global;

/// The components of a recipient, in a writer of their own.
pub fn put_components(alloc: Global, v: &RecipientFields) -> Result<Writer, Memory>
    ensures { IfOk result (λ w. w.octets ≡ recipient_content v.now) }
{
    let mut inside = Writer::new(alloc);
    v.name.write(&mut inside, constructed(1, 0))?;
    put_int(&mut inside, primitive(2, 0), v.number as i64)?;
    put_indicators(&mut inside, primitive(2, 1), v.indicators)?;
    put_raw_if(&mut inside, &v.conversion)?;
    put_extensions(&mut inside, constructed(2, 3), &v.extensions)?;
    Ok(inside)
}
