//! What a report has.

use mta_ber::{Octets, Text};
use mta_envelope_common::ContentKind;
use mta_fields::{ExtField, MtsId, TraceElement};
use mta_names::{OrName, Row};
use mta_report_recipient::Reported;

/// What a report has.
pub struct ReportFields {
    /// The identifier of the report itself.
    pub id: MtsId,
    /// To whom the report goes.
    pub destination: OrName,
    /// At most 512 elements.
    pub trace: Row<TraceElement>,
    /// The extensions of the envelope.
    pub extensions: Row<ExtField>,
    /// The identifier of the message or probe of which is reported.
    pub subject: MtsId,
    /// The trace of the subject so far: the whole element, `[APPLICATION 9]`.
    pub subject_trace: Option<Octets>,
    /// The original encoded information types of the subject: the whole element, `[APPLICATION 5]`.
    pub eits: Option<Octets>,
    pub content_kind: Option<ContentKind>,
    /// 1 to 16 characters of PrintableString.
    pub content_id: Option<Text>,
    /// The content of the subject: the whole element, `[1]`.
    pub returned: Option<Octets>,
    /// Additional information: the whole element, `[2]`.
    pub additional: Option<Octets>,
    /// The extensions of the content.
    pub content_extensions: Row<ExtField>,
    /// 1 to 32,767 recipients.
    pub recipients: Row<Reported>,
}

// Written out, since a derived one is opened anew, field by field, at each place where a value is let go.
impl Drop for ReportFields {
    fn drop(self) {
        let ReportFields {
            id: _,
            destination: _,
            trace: _,
            extensions: _,
            subject: _,
            subject_trace: _,
            eits: _,
            content_kind: _,
            content_id: _,
            returned: _,
            additional: _,
            content_extensions: _,
            recipients: _,
        } = self;
    }
}
