//! The state of a spool as a record has it.

use crate::lane::{LaneRole, LaneValues, Recipients};
use crate::outgoing::Outgoing;
use crate::reference::Reference;
use crate::state::{MailboxLine, Origin, Status};
use mta_ber::{Octets, Word};
use mta_lane_recv::Last;
use mta_lane_send::SendState;
use std::alloc::Global;
use std::fmt;
use std::marker::Model;
use std::sync::Arc;

/// An item: where it came from, when it arrived, its octets, which others may hold too, and what became of each
/// recipient for whom this agent is responsible, in their order.
pub struct ItemRecord {
    pub origin: Origin,
    pub arrival: u64,
    pub octets: Arc<Octets, Global>,
    pub codes: Vec<Status>,
}

// Written out, since a derived one is opened anew, field by field, at each place where a value is let go.
impl Drop for ItemRecord {
    fn drop(self) {
        let ItemRecord {
            origin: _,
            arrival: _,
            octets: _,
            codes: _,
        } = self;
    }
}

impl Model for ItemRecord {
    ghost use Rattle.mta_records.specs.State.{RecordedItem};

    ghost Value = { RecordedItem };

    ghost view = { λ i. record {
      origin = i.origin;
      arrival = i.arrival;
      octets = i.octets.value;
      codes = i.codes.items;
    } };
}

/// What an activity transfers: an item to recipients, when that was decided, under which tables, counted from 1, and in
/// which format, and the octets, which others may hold too.
pub struct TransferRecord {
    pub item: u32,
    pub recipients: Recipients,
    pub moment: u64,
    pub tables: u32,
    pub format: u32,
    pub outgoing: Outgoing,
}

// Written out, as that of items.
impl Drop for TransferRecord {
    fn drop(self) {
        let TransferRecord {
            item: _,
            recipients: _,
            moment: _,
            tables: _,
            format: _,
            outgoing: _,
        } = self;
    }
}

impl Model for TransferRecord {
    ghost use Rattle.mta_records.specs.State.{Transfer};

    ghost Value = { Transfer };

    ghost view = { λ t. record {
      item = t.item;
      recipients = t.recipients;
      moment = t.moment;
      tables = t.tables;
      format = t.format;
      octets = t.outgoing.octets;
    } };
}

/// A lane that is open.
pub struct LaneRecord {
    pub number: u32,
    pub role: LaneRole,
    pub peer: Word,
    pub reference: Reference,
    pub values: LaneValues,
    pub generation: u64,
    pub sending: SendState,
    pub transfer: Option<TransferRecord>,
    pub high: u32,
    pub last: Last,
    pub pieces: Vec<Octets>,
}

// Written out, as that of items.
impl Drop for LaneRecord {
    fn drop(self) {
        let LaneRecord {
            number: _,
            role: _,
            peer: _,
            reference: _,
            values: _,
            generation: _,
            sending: _,
            transfer: _,
            high: _,
            last: _,
            pieces: _,
        } = self;
    }
}

impl Model for LaneRecord {
    ghost use Rattle.mta_records.specs.State.{Lane};

    ghost Value = { Lane };

    ghost view = { λ l. record {
      number = l.number;
      role = l.role;
      peer = l.peer;
      reference = l.reference;
      checkpoint = l.values.checkpoint;
      window = l.values.window;
      twa = l.values.twa;
      agreed = l.values.agreed;
      generation = l.generation;
      sending = l.sending;
      transfer = l.transfer;
      high = l.high;
      last = l.last;
      pieces = l.pieces.items;
    } };
}

/// The state of a spool: the format, the last moment, the texts of tables that were recorded, the items, the
/// deliveries, how many lanes were opened, and those that are open. Moments are seconds since 1950-01-01 00:00:00 UTC.
pub struct Snapshot {
    pub format: u32,
    pub moment: u64,
    pub tables: Vec<Octets>,
    pub items: Vec<ItemRecord>,
    pub mailboxes: Vec<MailboxLine>,
    pub lane_count: u32,
    pub lanes: Vec<LaneRecord>,
}

// Written out, as that of items.
impl Drop for Snapshot {
    fn drop(self) {
        let Snapshot {
            format: _,
            moment: _,
            tables: _,
            items: _,
            mailboxes: _,
            lane_count: _,
            lanes: _,
        } = self;
    }
}

impl Model for Snapshot {
    ghost use Rattle.mta_records.specs.State.{SnapshotValue};

    ghost Value = { SnapshotValue };

    ghost view = { λ s. record {
      format = s.format;
      moment = s.moment;
      tables = s.tables.items;
      items = s.items.items;
      mailboxes = s.mailboxes.items;
      lane_count = s.lane_count;
      lanes = s.lanes.items;
    } };
}

/// Prints the numbers, and how many of each there are.
impl fmt::Debug for Snapshot {
    fn fmt<W: fmt::Write>(&self, f: &mut fmt::Formatter<W>) -> fmt::Result {
        let format = self.format;
        let moment = self.moment;
        let tables = self.tables.len();
        let items = self.items.len();
        let mailboxes = self.mailboxes.len();
        let lane_count = self.lane_count;
        let lanes = self.lanes.len();
        write!(
            f,
            "Snapshot {{ format: {format}, moment: {moment}, tables: {tables}, items: {items}, \
             mailboxes: {mailboxes}, lane_count: {lane_count}, lanes: {lanes} }}"
        )
    }
}
