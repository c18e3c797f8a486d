//! The list of recipients.

ghost use Rattle.std.specs.Prelude.{◌≡◌, List, IfOk, OnOk, OnErr};
ghost use Rattle.std.specs.List.{flat_map};
ghost use Rattle.mta_ber.specs.Canon.{appended};
ghost use Rattle.mta_ber.specs.Parts.{Leaves, Reads, IsReadAs};
ghost use Rattle.mta_ber.specs.Seen.{view};
ghost use Rattle.mta_envelope_recipient.specs.declared.recipient.RecipientFields.{RecipientFields};
ghost use Rattle.mta_envelope_recipient.specs.Recipients.{canonical_recipient};
ghost use Rattle.mta_envelope_recipient.specs.Lists.{recipients_step, recipients_in, SpellsRecipients};
ghost use Rattle.mta_envelope_recipient.specs.Lists.{canonical_recipients};

use crate::recipient::Recipient;
use mta_ber::{Components, Kind, Memory, ReadFault, View, Writer, bad, is_tag_of, take_parts};
use mta_names::{Row, constructed, put_around};
use std::alloc::Global;
use std::marker::Model;

/// The recipients so far.
#[derive(Drop)]
pub struct Recipients {
    items: Row<Recipient>,
}

impl Model for Recipients {
    ghost use Rattle.std.specs.Prelude.{List};
    ghost use Rattle.mta_envelope_recipient.specs.declared.recipient.RecipientFields.{RecipientFields};

    ghost Value = { List RecipientFields };

    ghost view = { λ r. r.items };
}

impl Components for Recipients {
    ghost step = { recipients_step };

    fn take(&mut self, alloc: Global, part: &View) -> Result<(), ReadFault> {
        if !is_tag_of(part.tag, 0, 17) {
            return bad(part.at, Kind::BadTag);
        }
        let recipient = Recipient::read(alloc, part)?;
        self.items.push(recipient)?;
        Ok(())
    }
}

#[tactic(auto, unfolding(crate::specs::Lists::recipients_in))]
fn read_items(alloc: Global, whole: &View) -> Result<Row<Recipient>, ReadFault>
    ensures { Reads result (recipients_in (view whole.now)) }
{
    if !whole.tag.constructed {
        return bad(whole.at, Kind::BadTag);
    }
    let mut recipients = Recipients {
        items: Row::new(alloc),
    };
    take_parts(alloc, whole, &mut recipients)?;
    let Recipients { items } = recipients;
    let count = items.len();
    if count < 1 || 32767 < count {
        return bad(whole.at, Kind::BadSize);
    }
    Ok(items)
}

/// The recipients that an element spells, whatever its tag, which is `[2]` and for the caller to check: a SEQUENCE of 1
/// to 32,767. BadSize at that element where there are none or more.
pub fn read_recipients(alloc: Global, whole: &View) -> Result<Row<Recipient>, ReadFault>
    // Which recipients they are, or which fault comes first.
    ensures exact { Reads result (recipients_in (view whole.now)) }

    // What is answered is spelled by the content, and what the content spells is answered.
    ensures found { IfOk result (SpellsRecipients whole.now.depth whole.now.tag.constructed whole.now.content.now) }
    ensures only { (v : List RecipientFields)
        → SpellsRecipients whole.now.depth whole.now.tag.constructed whole.now.content.now v → IsReadAs result v }
{
    match read_items(alloc, whole) {
        Ok(recipients) => Ok(recipients),
        Err(fault) => Err(fault),
    }
}

fn put_items(w: &mut Writer, recipients: &[Recipient]) -> Result<(), Memory>
    ensures { OnOk result (w.new ≡ appended w.old (flat_map canonical_recipient recipients.now)) }
{
    for recipient in recipients {
        recipient.write(w)?;
    }
    Ok(())
}

/// Appends recipients in their canonical octets, in the order held and under `[2]`.
#[tactic(auto, unfolding(crate::specs::Lists::canonical_recipients))]
pub fn put_recipients(w: &mut Writer, recipients: &Row<Recipient>) -> Result<(), Memory>
    ensures ok { OnOk result (w.new ≡ appended w.old (canonical_recipients recipients.now)) }
    ensures err { OnErr result (w.new ≡ w.old) }
{
    let mut inside = Writer::new(w.alloc());
    put_items(&mut inside, recipients.as_slice())?;
    put_around(w, constructed(2, 2), &inside)
}
