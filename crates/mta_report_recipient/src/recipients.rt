//! Lists of recipients of whom is reported.

ghost use Rattle.std.specs.Prelude.{◌≡◌, OnOk, IfOk, OnErr, IsTrue, Ok, ℕ, unwrap_or, List, []};
ghost use Rattle.mta_ber.specs.Canon.{appended, optional};
ghost use Rattle.mta_ber.specs.Parts.{Leaves, Reads};
ghost use Rattle.mta_ber.specs.Seen.{view};
ghost use Rattle.std.specs.List.{flat_map};
ghost use Rattle.mta_report_recipient.specs.ReportedRecipients.{reported_list_step, reported_list_in};
ghost use Rattle.mta_report_recipient.specs.ReportedRecipients.{canonical_reported, canonical_reported_list};

use crate::reported::Reported;
use mta_ber::{Components, Kind, Memory, ReadFault, View, Writer, bad, is_tag_of, take_parts};
use mta_names::{Row, constructed, put_around};
use std::alloc::Global;
use std::marker::Model;

/// The recipients so far.
#[derive(Drop)]
pub struct ReportedRow {
    recipients: Row<Reported>,
}

impl Model for ReportedRow {
    ghost use Rattle.std.specs.Prelude.{List};
    ghost use Rattle.mta_report_recipient.specs.declared.reported.ReportedFields.{ReportedFields};

    ghost Value = { List ReportedFields };

    ghost view = { λ r. r.recipients };
}

impl Components for ReportedRow {
    ghost step = { reported_list_step };

    fn take(&mut self, alloc: Global, part: &View) -> Result<(), ReadFault> {
        if !is_tag_of(part.tag, 0, 17) {
            return bad(part.at, Kind::BadTag);
        }
        let recipient = Reported::read(alloc, part)?;
        self.recipients.push(recipient)?;
        Ok(())
    }
}

/// One to 32,767 recipients.
#[tactic(auto, unfolding(crate::specs::ReportedRecipients::reported_list_in))]
pub fn read_recipients(alloc: Global, whole: &View) -> Result<Row<Reported>, ReadFault>
    ensures { Reads result (reported_list_in (view whole.now)) }
{
    if !whole.tag.constructed {
        return bad(whole.at, Kind::BadTag);
    }
    let mut row = ReportedRow {
        recipients: Row::new(alloc),
    };
    take_parts(alloc, whole, &mut row)?;
    let ReportedRow { recipients } = row;
    let count = recipients.len();
    if count < 1 || 32767 < count {
        return bad(whole.at, Kind::BadSize);
    }
    Ok(recipients)
}

fn put_all(w: &mut Writer, recipients: &[Reported]) -> Result<(), Memory>
    ensures { OnOk result (w.new ≡ appended w.old (flat_map canonical_reported recipients.now)) }
{
    for recipient in recipients {
        recipient.write(w)?;
    }
    Ok(())
}

/// Appends recipients under `[0]`.
#[tactic(auto, unfolding(crate::specs::ReportedRecipients::canonical_reported_list))]
pub fn put_recipients(w: &mut Writer, recipients: &Row<Reported>) -> Result<(), Memory>
    ensures ok { OnOk result (w.new ≡ appended w.old (canonical_reported_list recipients.now)) }
    ensures err { OnErr result (w.new ≡ w.old) }
{
    let mut inside = Writer::new(w.alloc());
    put_all(&mut inside, recipients.as_slice())?;
    put_around(w, constructed(2, 0), &inside)
}
