//! What an activity transfers.

ghost use Rattle.std.specs.Prelude.{◌≡◌, IfOk, length, Some, true};
ghost use Rattle.mta_histories.specs.Lanes.{is_for, names};
ghost use Rattle.mta_lanes.specs.Order.{AreInOrder};

use mta_ber::{Memory, Octets};
use mta_records::{Outgoing, Recipients, TransferRecord};
use std::alloc::Global;
use std::marker::Model;
use std::mem;

/// What an activity transfers: an item to recipients, when that was decided, in seconds since 1950-01-01 00:00:00 UTC,
/// under which tables, counted from 1, and in which format, and the octets. Whether the recipients ascend is found
/// once, so that who does is searched for by halves.
pub struct Transfer {
    item: u32,
    recipients: Recipients,
    in_order: bool,
    moment: u64,
    tables: u32,
    format: u32,
    outgoing: Outgoing,
}

// Written out, since a derived one is opened anew, field by field, at each place where a value is let go.
impl Drop for Transfer {
    fn drop(self) {
        let Transfer {
            item: _,
            recipients: _,
            in_order: _,
            moment: _,
            tables: _,
            format: _,
            outgoing: _,
        } = self;
    }
}

impl Model for Transfer {
    ghost use Rattle.std.specs.Prelude.{◌≡◌, true};
    ghost use Rattle.mta_histories.specs.Lanes.{Transfer as TransferValue};
    ghost use Rattle.mta_lanes.specs.Order.{AreInOrder};

    ghost Value = { TransferValue };

    ghost view = { λ t. record {
      item = t.item;
      recipients = t.recipients;
      moment = t.moment;
      tables = t.tables;
      format = t.format;
      octets = t.outgoing.octets;
    } };

    ghost invariant = { λ t. t.in_order ≡ true → AreInOrder t.recipients };
}

// Whether no number is below the one before it.
fn is_in_order(recipients: &[u32]) -> bool
    ensures { result ≡ true → AreInOrder recipients.now }
{
    recipients.is_sorted()
}

// Whether a recipient is among these, of whom none is below the one before.
fn is_found(recipients: &[u32], recipient: u32) -> bool
    requires { AreInOrder recipients.now }
    ensures { result ≡ names recipients.now recipient }
{
    match recipients.binary_search(&recipient) {
        Ok(_) => true,
        Err(_) => false,
    }
}

fn is_among(recipients: &[u32], in_order: bool, recipient: u32) -> bool
    requires { in_order ≡ true → AreInOrder recipients.now }
    ensures { result ≡ names recipients.now recipient }
{
    if in_order {
        is_found(recipients, recipient)
    } else {
        recipients.iter().any(|other| recipient == *other)
    }
}

impl Transfer {
    /// The transfer of these parts, which takes no memory.
    pub fn new(
        item: u32,
        recipients: Recipients,
        moment: u64,
        tables: u32,
        format: u32,
        outgoing: Outgoing,
    ) -> Transfer
        ensures { result ≡ record {
          item = item;
          recipients = recipients;
          moment = moment;
          tables = tables;
          format = format;
          octets = outgoing.octets;
        } }
    {
        let in_order = is_in_order(recipients.as_slice());
        Transfer {
            item,
            recipients,
            in_order,
            moment,
            tables,
            format,
            outgoing,
        }
    }

    /// The transfer that was recorded. No octet of it is copied.
    pub fn restore(alloc: Global, recorded: TransferRecord) -> Result<Transfer, Memory>
        ensures { IfOk result (λ t. t ≡ recorded) }
    {
        let mut recorded = recorded;
        let nobody = Recipients::from_vec(Vec::new(alloc));
        let nothing = Outgoing::alone(alloc, 0, Octets::new(alloc))?;
        let recipients = mem::replace(&mut recorded.recipients, nobody);
        let outgoing = mem::replace(&mut recorded.outgoing, nothing);
        Ok(Transfer::new(
            recorded.item,
            recipients,
            recorded.moment,
            recorded.tables,
            recorded.format,
            outgoing,
        ))
    }

    /// The transfer as it is recorded. What others hold of its octets too is shared.
    pub fn record(&self, alloc: Global) -> Result<TransferRecord, Memory>
        ensures { IfOk result (λ t. t ≡ self.now) }
    {
        let recipients = self.recipients.copy(alloc)?;
        let outgoing = self.outgoing.share(alloc, self.outgoing.activity)?;
        Ok(TransferRecord {
            item: self.item,
            recipients,
            moment: self.moment,
            tables: self.tables,
            format: self.format,
            outgoing,
        })
    }

    /// The number of the item.
    pub fn item(&self) -> u32
        ensures { result ≡ self.now.item }
    {
        self.item
    }

    /// The numbers of the recipients.
    pub fn recipients(&self) -> &[u32]
        ensures { result.now ≡ self.now.recipients }
    {
        self.recipients.as_slice()
    }

    /// When it was decided.
    pub fn moment(&self) -> u64
        ensures { result ≡ self.now.moment }
    {
        self.moment
    }

    /// The number of the tables under which it was decided.
    pub fn tables(&self) -> u32
        ensures { result ≡ self.now.tables }
    {
        self.tables
    }

    /// The format in which it was decided.
    pub fn format(&self) -> u32
        ensures { result ≡ self.now.format }
    {
        self.format
    }

    /// Whether it is for this recipient of the item.
    pub fn is_for(&self, item: u32, recipient: u32) -> bool
        ensures { result ≡ is_for item recipient (Some self.now) }
    {
        item == self.item && is_among(self.recipients.as_slice(), self.in_order, recipient)
    }

    /// The octets, lent.
    pub fn outgoing(&self) -> &Outgoing
        ensures { result.now.octets ≡ self.now.octets }
    {
        &self.outgoing
    }

    /// How many octets there are.
    pub fn total(&self) -> u32
        ensures { result ≡ length self.now.octets }
    {
        self.outgoing.total()
    }

    /// The octets as the activity of this number, for a session to put. The content is shared.
    pub fn share(&self, alloc: Global, activity: u32) -> Result<Outgoing, Memory>
        ensures { IfOk result (λ o. o ≡ record { activity = activity; octets = self.now.octets }) }
    {
        self.outgoing.share(alloc, activity)
    }
}
