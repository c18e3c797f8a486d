//! The rules in a format and under tables.

use crate::copies::outgoing_copy;
use crate::deliveries::delivery;
use crate::expansion::expansion_items;
use crate::names::{mailbox_at, names_peer, peer_at, route};
use crate::passing::{passed_item, passes_back};
use crate::reading::text_reads;
use crate::reports::{delivery_item, non_delivery_item};
use crate::rest::{next_change, span};
use crate::submitted::submitted;
use crate::verdicts::{has_expired, verdict};
use mta_ber::{Memory, Octets, Word};
use mta_machine::Item;
use mta_procedures::Verdict;
use mta_records::Outgoing;
use mta_state::{Delivery, Made, Reading, Rules, Span, Submitted};
use mta_tables::{Tables, TablesFault};
use std::alloc::Global;
use std::marker::Model;

/// The rules of X.411, clause 14, in a format and under tables.
pub struct TableRules {
    format: u32,
    tables: Tables,
}

// Written out, since a derived one is opened anew, field by field, at each place where a value is let go.
impl Drop for TableRules {
    fn drop(self) {
        let TableRules {
            format: _,
            tables: _,
        } = self;
    }
}

impl Model for TableRules {
    ghost use Rattle.mta_table_rules.specs.Text.{RulesValue};

    ghost Value = { RulesValue };

    ghost view = { λ r. record { format = r.format; tables = r.tables } };
}

impl TableRules {
    ghost use Rattle.std.specs.Prelude.{◌≡◌};

    /// The rules in this format and under these tables.
    pub fn new(format: u32, tables: Tables) -> TableRules
        ensures { result ≡ record { format = format; tables = tables } }
    {
        TableRules { format, tables }
    }

    /// The tables.
    pub fn tables(&self) -> &Tables
        ensures { result.now ≡ self.now.tables }
    {
        &self.tables
    }
}

impl Rules for TableRules {
    ghost use Rattle.mta_table_rules.specs.Text.{format_of, text_of};

    ghost format = { format_of };

    ghost text = { text_of };

    fn under(alloc: Global, in_format: u32, octets: &[u8]) -> Result<Option<TableRules>, Memory> {
        match Tables::read(alloc, octets) {
            Ok(tables) => Ok(Some(TableRules {
                format: in_format,
                tables,
            })),
            Err(TablesFault::BadLine { .. }) => Ok(None),
            Err(TablesFault::Memory) => Err(Memory),
        }
    }

    fn verdict(
        &self,
        alloc: Global,
        item: &Item,
        reading: &Reading<'_>,
        recipient: u32,
        moment: u64,
    ) -> Result<Option<Verdict>, Memory> {
        verdict(
            alloc,
            self.format,
            &self.tables,
            item,
            reading,
            recipient,
            moment,
        )
    }

    fn has_expired(&self, item: &Item, reading: &Reading<'_>, moment: u64) -> bool {
        has_expired(self.format, &self.tables, item, reading, moment)
    }

    fn next_change(&self, item: &Item, reading: &Reading<'_>, moment: u64) -> Option<u64> {
        next_change(self.format, &self.tables, item, reading, moment)
    }

    fn span(&self, item: &Item, reading: &Reading<'_>) -> Option<Span> {
        span(self.format, &self.tables, item, reading)
    }

    fn submitted(
        &self,
        alloc: Global,
        octets: Octets,
        moment: u64,
    ) -> Result<Option<Submitted>, Memory> {
        submitted(alloc, self.format, &self.tables, octets, moment)
    }

    fn passes_back(
        &self,
        alloc: Global,
        items: &[Item],
        item: &Item,
        reading: &Reading<'_>,
    ) -> Result<bool, Memory> {
        passes_back(alloc, &self.tables, items, item, reading)
    }

    fn route(&self, item: &Item, reading: &Reading<'_>, recipient: u32) -> Option<&[u8]> {
        route(&self.tables, item, reading, recipient)
    }

    fn names_peer(&self, word: &[u8]) -> bool {
        names_peer(&self.tables, word)
    }

    fn peer_at(&self, place: u32) -> Option<&[u8]> {
        peer_at(&self.tables, place)
    }

    fn mailbox_at(&self, place: u32) -> Option<&Word> {
        mailbox_at(&self.tables, place)
    }

    fn delivery(
        &self,
        alloc: Global,
        number: u64,
        item: &Item,
        reading: &Reading<'_>,
        recipient: u32,
        moment: u64,
    ) -> Result<Option<Delivery>, Memory> {
        delivery(
            alloc,
            self.format,
            &self.tables,
            number,
            item,
            reading,
            recipient,
            moment,
        )
    }

    fn delivery_report(
        &self,
        alloc: Global,
        number: u64,
        item: &Item,
        reading: &Reading<'_>,
        recipient: u32,
        moment: u64,
    ) -> Result<Option<Item>, Memory> {
        delivery_item(
            alloc,
            &self.tables,
            number,
            item,
            reading,
            recipient,
            moment,
        )
    }

    fn non_delivery_report(
        &self,
        alloc: Global,
        number: u64,
        item: &Item,
        reading: &Reading<'_>,
        recipient: u32,
        reason: u32,
        diagnostic: Option<u32>,
        moment: u64,
    ) -> Result<Option<Item>, Memory> {
        non_delivery_item(
            alloc,
            &self.tables,
            number,
            item,
            reading,
            recipient,
            reason,
            diagnostic,
            moment,
        )
    }

    fn expansion(
        &self,
        alloc: Global,
        number: u64,
        item: &Item,
        reading: &Reading<'_>,
        recipient: u32,
        moment: u64,
    ) -> Result<Made, Memory> {
        expansion_items(
            alloc,
            &self.tables,
            number,
            item,
            reading,
            recipient,
            moment,
        )
    }

    fn passed_back(
        &self,
        alloc: Global,
        items: &[Item],
        item: &Item,
        reading: &Reading<'_>,
        recipient: u32,
        moment: u64,
    ) -> Result<Option<Item>, Memory> {
        passed_item(alloc, &self.tables, items, item, reading, recipient, moment)
    }

    fn outgoing_copy(
        &self,
        alloc: Global,
        activity: u32,
        item: &Item,
        reading: &Reading<'_>,
        recipients: &[u32],
        recipient: u32,
        moment: u64,
    ) -> Result<Outgoing, Memory> {
        outgoing_copy(
            alloc,
            &self.tables,
            activity,
            item,
            reading,
            recipients,
            recipient,
            moment,
        )
    }
}
