//! What is asked of the rules.

ghost use Rattle.std.specs.Prelude.{◌≡◌, ◌≤◌, ◌^◌, List, ℕ, IfOk, IfSome, Some, is_some};
ghost use Rattle.std.specs.Prelude.{map};
ghost use Rattle.std.specs.Option.{option_copied, option_map};
ghost use Rattle.mta_ber.specs.Times.{last_moment};
ghost use Rattle.mta_names.specs.Bounded.{IsCode};
ghost use Rattle.mta_records.specs.declared.state.Origin.TheVariants as Origins;
ghost use Rattle.mta_machine.specs.Machine.{own_item};
ghost use Rattle.mta_machine.specs.Rules.{delivery_report, expansion, is_expired, mailbox_word, names_peer};
ghost use Rattle.mta_machine.specs.Rules.{non_delivery_report, outgoing_copy, passed_back, peer_word, route_word};
ghost use Rattle.mta_machine.specs.Rules.{verdict_of};
ghost use Rattle.mta_state.specs.Parts.{made_items};
ghost use Rattle.mta_state.specs.Reading.{IsAccepted};
ghost use Rattle.mta_state.specs.declared.rest.Submitted.{Submitted};
ghost use Rattle.mta_state.specs.Asked.{AreUnder, CodesAreCodes, Expands, IsDeliveryOf, IsRestOf, Passes, Relays};
ghost use Rattle.mta_idle_laws.specs.Next.{next_change};
ghost use Rattle.mta_idle_laws.specs.Spans.{relay_span};
ghost use Rattle.mta_state.specs.Readings.{IsDecodedOf, IsReadingOf};
ghost use Rattle.mta_state.specs.Spans.{bounds_of};

use crate::delivery::Delivery;
use crate::parts::Made;
use crate::readings::Reading;
use crate::rest::{Span, Submitted};
use mta_ber::{Memory, Octets, Word};
use mta_machine::Item;
use mta_procedures::Verdict;
use mta_records::Outgoing;
use std::alloc::Global;

/// The rules of X.411, clause 14, in a format and under the tables of one text. Moments are seconds since 1950-01-01
/// 00:00:00 UTC, and recipients are numbered from 1. What is asked of an item takes the reading of its octets, which is
/// made once for all its recipients.
pub trait Rules {
    /// The format.
    ghost format: { Self → ℕ };

    /// The text of the tables.
    ghost text: { Self → List ℕ };

    /// The rules in a format and under the tables of a text; none where the grammar of tables does not read it.
    fn under(alloc: Global, in_format: u32, octets: &[u8]) -> Result<Option<Self>, Memory>
        ensures { IfOk result (AreUnder format text in_format octets.now) };

    /// The verdict on a recipient of an item, looked at at a moment; none where its octets are those of no APDU, or
    /// where it has no such recipient. A report that comes to a list has the verdict Back here.
    fn verdict(
        &self,
        alloc: Global,
        item: &Item,
        reading: &Reading<'_>,
        recipient: u32,
        moment: u64,
    ) -> Result<Option<Verdict>, Memory>
        requires arrived { item.now.arrival ≤ last_moment }
        requires reading { IsReadingOf item.now.octets reading.now }
        ensures exact { IfOk result
            (λ v. v ≡ verdict_of (format self.now) (text self.now) item.now.octets item.now.arrival recipient moment) }
        ensures codes { IfOk result CodesAreCodes };

    /// Whether an item has waited at a moment for its hold time, or in format 2 until its latest delivery time.
    fn has_expired(&self, item: &Item, reading: &Reading<'_>, moment: u64) -> bool
        requires arrived { item.now.arrival ≤ last_moment }
        requires reading { IsReadingOf item.now.octets reading.now }
        ensures { result ≡ is_expired (format self.now) (text self.now) item.now.octets item.now.arrival moment };

    /// The next moment behind this one at which a verdict on recipients of an item may change: the end of the deferral
    /// or the expiry, and the lesser where both are to come. None where the item has expired, or where its octets are
    /// those of no APDU.
    fn next_change(&self, item: &Item, reading: &Reading<'_>, moment: u64) -> Option<u64>
        requires arrived { item.now.arrival ≤ last_moment }
        requires reading { IsReadingOf item.now.octets reading.now }
        ensures { result ≡ next_change (format self.now) (text self.now) item.now.octets item.now.arrival moment };

    /// When recipients of an item may be relayed: from the end of its deferral on, until it expires; none where its
    /// octets are those of no APDU.
    fn span(&self, item: &Item, reading: &Reading<'_>) -> Option<Span>
        requires arrived { item.now.arrival ≤ last_moment }
        requires reading { IsReadingOf item.now.octets reading.now }
        ensures { option_map bounds_of result
            ≡ relay_span (format self.now) (text self.now) item.now.octets item.now.arrival };

    /// The item of an APDU that is submitted at a moment, and what is found of it then, from one reading; none where
    /// the octets spell no APDU.
    fn submitted(
        &self,
        alloc: Global,
        octets: Octets,
        moment: u64,
    ) -> Result<Option<Submitted>, Memory>
        requires { moment ≤ last_moment }
        ensures item { IfOk result (λ found.
            IsAccepted octets Origins.Submitted moment (option_map (λ (s : Submitted). s.item) found)) }
        ensures decoded { IfOk result (λ found. IfSome found (λ s. IsDecodedOf s.item.octets s.decoded)) }
        ensures rest { IfOk result (λ found.
            IfSome found (λ s. IsRestOf (format self.now) (text self.now) s.item moment s.rest)) };

    /// Whether a report that comes to a list can be passed back, among these items.
    fn passes_back(
        &self,
        alloc: Global,
        items: &[Item],
        item: &Item,
        reading: &Reading<'_>,
    ) -> Result<bool, Memory>
        requires { IsReadingOf item.now.octets reading.now }
        ensures { IfOk result (λ b. b ≡ is_some (passed_back (text self.now) items.now item.now)) };

    /// The word of the peer to whom the best route of a recipient's name leads; none where it leads to no peer.
    fn route(&self, item: &Item, reading: &Reading<'_>, recipient: u32) -> Option<&[u8]>
        requires { IsReadingOf item.now.octets reading.now }
        ensures { option_copied result ≡ route_word (text self.now) item.now.octets recipient };

    /// Whether the tables have a peer of this word.
    fn names_peer(&self, word: &[u8]) -> bool
        ensures { result ≡ names_peer (text self.now) word.now };

    /// The word of the peer at a place of the tables, from 0.
    fn peer_at(&self, place: u32) -> Option<&[u8]>
        ensures { option_copied result ≡ peer_word (text self.now) place };

    /// The word of the mailbox at a place of the tables, from 0.
    fn mailbox_at(&self, place: u32) -> Option<&Word>
        ensures { option_copied result ≡ mailbox_word (text self.now) place };

    /// Where a recipient of an item is delivered to at a moment, with the item that is the delivery report, made at
    /// that moment as the item of a number; none where the verdict is another.
    fn delivery(
        &self,
        alloc: Global,
        number: u64,
        item: &Item,
        reading: &Reading<'_>,
        recipient: u32,
        moment: u64,
    ) -> Result<Option<Delivery>, Memory>
        requires arrived { item.now.arrival ≤ last_moment }
        requires reading { IsReadingOf item.now.octets reading.now }
        requires fits { moment ≤ last_moment }
        ensures { IfOk result (IsDeliveryOf (format self.now) (text self.now) number item.now recipient moment) };

    /// The item that is the delivery report on a recipient, made at a moment as the item of a number; none where no
    /// report is asked for, or where the walk ends.
    fn delivery_report(
        &self,
        alloc: Global,
        number: u64,
        item: &Item,
        reading: &Reading<'_>,
        recipient: u32,
        moment: u64,
    ) -> Result<Option<Item>, Memory>
        requires arrived { item.now.arrival ≤ last_moment }
        requires reading { IsReadingOf item.now.octets reading.now }
        requires fits { moment ≤ last_moment }
        ensures { IfOk result (λ made. made
            ≡ option_map (own_item moment) (delivery_report (text self.now) number item.now recipient moment)) };

    /// The item that is the non-delivery report on a recipient, made at a moment as the item of a number; none where
    /// the walk ends.
    fn non_delivery_report(
        &self,
        alloc: Global,
        number: u64,
        item: &Item,
        reading: &Reading<'_>,
        recipient: u32,
        reason: u32,
        diagnostic: Option<u32>,
        moment: u64,
    ) -> Result<Option<Item>, Memory>
        requires arrived { item.now.arrival ≤ last_moment }
        requires reading { IsReadingOf item.now.octets reading.now }
        requires reason { IsCode reason }
        requires diagnostic { IfSome diagnostic IsCode }
        ensures { let about = non_delivery_report (text self.now) number item.now recipient reason diagnostic in
            IfOk result (λ made. made ≡ option_map (own_item moment) about) };

    /// The items that the expansion of a recipient makes, of which the first has this number: the members' copy, and
    /// then the report of the list, where there is one.
    fn expansion(
        &self,
        alloc: Global,
        number: u64,
        item: &Item,
        reading: &Reading<'_>,
        recipient: u32,
        moment: u64,
    ) -> Result<Made, Memory>
        requires number { number ≤ 2 ^ 32 }
        requires arrived { item.now.arrival ≤ last_moment }
        requires reading { IsReadingOf item.now.octets reading.now }
        requires fits { moment ≤ last_moment }
        requires list { Expands
            (verdict_of (format self.now) (text self.now) item.now.octets item.now.arrival recipient moment) }
        ensures { IfOk result (λ made. made_items made
            ≡ map (own_item moment) (expansion (text self.now) number item.now recipient moment)) };

    /// The item that is a report which is passed back at a moment from a recipient who is a list, among these items;
    /// none where it cannot be.
    fn passed_back(
        &self,
        alloc: Global,
        items: &[Item],
        item: &Item,
        reading: &Reading<'_>,
        recipient: u32,
        moment: u64,
    ) -> Result<Option<Item>, Memory>
        requires arrived { item.now.arrival ≤ last_moment }
        requires reading { IsReadingOf item.now.octets reading.now }
        requires passed { Passes
            (verdict_of (format self.now) (text self.now) item.now.octets item.now.arrival recipient moment) }
        ensures { IfOk result (λ made. made
            ≡ option_map (own_item moment) (passed_back (text self.now) items.now item.now)) };

    /// The copy of an item for recipients of whom one is relayed, as an activity of this number.
    fn outgoing_copy(
        &self,
        alloc: Global,
        activity: u32,
        item: &Item,
        reading: &Reading<'_>,
        recipients: &[u32],
        recipient: u32,
        moment: u64,
    ) -> Result<Outgoing, Memory>
        requires arrived { item.now.arrival ≤ last_moment }
        requires reading { IsReadingOf item.now.octets reading.now }
        requires fits { moment ≤ last_moment }
        requires relayed { Relays
            (verdict_of (format self.now) (text self.now) item.now.octets item.now.arrival recipient moment) }
        ensures copy { IfOk result (λ out. Some out.octets
            ≡ outgoing_copy (text self.now) item.now.octets item.now.arrival recipients.now moment) }
        ensures activity { IfOk result (λ out. out.activity ≡ activity) };
}
