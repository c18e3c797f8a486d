//! Reports.

ghost use Rattle.std.specs.Prelude.{◌≡◌, OnOk, IfOk};
ghost use Rattle.mta_ber.specs.Canon.{appended};
ghost use Rattle.mta_report.specs.Reports.{canonical_report};

use crate::content::put_content;
use crate::envelope::put_envelope;
use crate::fields::ReportFields;
use crate::length::{content_length, envelope_length};
use crate::reading::read_report;
use mta_ber::{Memory, Octets, ReadFault, View, Writer, element_length, length_of_both};
use mta_names::{constructed, put_around};
use std::alloc::Global;
use std::marker::Model;

/// A report (X.411, Report): what came of a message or a probe for some of its recipients.
pub struct Report {
    fields: ReportFields,
}

// Written out, since a derived one is opened anew, field by field, at each place where a value is let go.
impl Drop for Report {
    fn drop(self) {
        let Report { fields: _ } = self;
    }
}

impl Model for Report {
    ghost use Rattle.mta_report.specs.declared.fields.ReportFields.{ReportFields};
    ghost use Rattle.mta_report.specs.ReportValues.{IsReport};

    ghost Value = { ReportFields };

    ghost view = { λ r. r.fields };

    ghost invariant = { λ r. IsReport r.fields };
}

/// The octets of a whole report, whose tag is `[1]`.
#[tactic(auto, unfolding(crate::specs::Reports::canonical_report))]
fn written(alloc: Global, v: &ReportFields) -> Result<Octets, Memory>
    ensures { IfOk result (λ o. o ≡ canonical_report v.now) }
{
    let mut inside = Writer::new(alloc);
    put_envelope(&mut inside, v)?;
    put_content(&mut inside, v)?;
    let mut w = Writer::new(alloc);
    put_around(&mut w, constructed(2, 1), &inside)?;
    Ok(w.finish())
}

impl Report {
    ghost use Rattle.std.specs.Prelude.{◌≡◌, IfOk};
    ghost use Rattle.mta_ber.specs.Lengths.{octet_length};
    ghost use Rattle.mta_ber.specs.Parts.{Reads, IsReadAs};
    ghost use Rattle.mta_ber.specs.Seen.{view};
    ghost use Rattle.mta_report.specs.declared.fields.ReportFields.{ReportFields};
    ghost use Rattle.mta_report.specs.Reports.{report_in, SpellsReport, canonical_report};
    ghost use Rattle.mta_report.specs.ReportValues.{IsReport};

    /// The report that the element of an APDU spells, under `[1]`: a SEQUENCE of an envelope and a content. BadTag at
    /// an element of any other tag.
    pub fn read(alloc: Global, whole: &View) -> Result<Report, ReadFault>
        // Which report it is, or which fault comes first.
        ensures exact { Reads result (report_in (view whole.now)) }

        // What is answered is spelled by the element, and what the element spells is answered.
        ensures found { IfOk result (SpellsReport whole.now.depth whole.now.tag whole.now.content.now) }
        ensures only { (v : ReportFields) → SpellsReport whole.now.depth whole.now.tag whole.now.content.now v
            → IsReadAs result v }
    {
        match read_report(alloc, whole) {
            Ok(fields) => Ok(Report { fields }),
            Err(fault) => Err(fault),
        }
    }

    /// How many octets `write` gives, told without memory; 2^64 - 1 where there are as many or more.
    #[tactic(auto, unfolding(crate::specs::Reports::canonical_report))]
    pub fn length(&self) -> u64
        ensures { result ≡ octet_length (canonical_report self.now) }
    {
        let envelope = envelope_length(&self.fields);
        element_length(
            constructed(2, 1),
            length_of_both(envelope, content_length(&self.fields)),
        )
    }

    /// The canonical octets of the whole APDU.
    pub fn write(&self, alloc: Global) -> Result<Octets, Memory>
        ensures { IfOk result (λ o. o ≡ canonical_report self.now) }
    {
        written(alloc, &self.fields)
    }

    /// A report of these parts, which takes no memory.
    pub fn from_fields(fields: ReportFields) -> Report
        requires { IsReport fields }
        ensures { result ≡ fields }
    {
        Report { fields }
    }

    /// The parts, lent.
    pub fn fields(&self) -> &ReportFields
        ensures exact { result.now ≡ self.now }
        ensures report { IsReport self.now }
    {
        &self.fields
    }
}
