//! The lines of any APDU.

ghost use Rattle.std.specs.Prelude.{◌≡◌, ◌++◌, IfOk, OnOk, OnErr};
ghost use Rattle.mta_apdu.specs.Apdus.{apdu_value};
ghost use Rattle.mta_apdu_text.specs.Apdus.{apdu_text};

use crate::envelope::{put_message, put_probe};
use crate::report::put_report;
use mta_apdu::Apdu;
use mta_ber::{Memory, Octets};
use std::alloc::Global;

fn put_lines(alloc: Global, out: &mut Octets, apdu: &Apdu) -> Result<(), Memory>
    ensures { OnOk result (out.new ≡ out.old ++ apdu_text (apdu_value apdu.now)) }
{
    match apdu {
        Apdu::Message(message) => put_message(alloc, out, message),
        Apdu::Probe(probe) => put_probe(alloc, out, probe),
        Apdu::Report(report) => put_report(alloc, out, report),
    }
}

/// The lines of an APDU: those of a message, a probe or a report.
pub fn show_apdu(alloc: Global, apdu: &Apdu) -> Result<Octets, Memory>
    ensures { IfOk result (λ text. text ≡ apdu_text (apdu_value apdu.now)) }
{
    let mut out = Octets::new(alloc);
    put_lines(alloc, &mut out, apdu)?;
    Ok(out)
}

/// The lines of an APDU, behind what was printed before.
pub fn put_apdu(alloc: Global, out: &mut Octets, apdu: &Apdu) -> Result<(), Memory>
    ensures ok { OnOk result (out.new ≡ out.old ++ apdu_text (apdu_value apdu.now)) }
    ensures err { OnErr result (out.new ≡ out.old) }
{
    let text = show_apdu(alloc, apdu)?;
    out.extend(text.as_slice())
}
