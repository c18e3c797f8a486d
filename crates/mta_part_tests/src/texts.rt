//! Octets of APDUs, statuses and lanes, and what is printed of them.

ghost use Rattle.std.specs.Prelude.{◌≡◌, ◌≤◌, IfOk, [], length};
ghost use Rattle.mta_lane_send.specs.declared.state.SendState.TheVariants.{Idle};
ghost use Rattle.mta_lane_recv.specs.declared.state.Last.TheVariants as Last;
ghost use Rattle.mta_records.specs.declared.lane.LaneRole.TheVariants.{Responder};
ghost use Rattle.mta_histories.specs.History.{is_role};

use mta_apdu::Apdu;
use mta_ber::{Memory, Octets, Word};
use mta_lanes::{Lane, LaneChange, Pieces, Transfer};
use mta_machine::{Item, MailboxLine, Origin, Status, Statuses};
use mta_records::{LaneRole, Outgoing, Recipients, Reference};
use mta_show::{show_apdu, show_mailbox, show_queue};
use std::alloc::Global;
use std::sync::Arc;
use std::test::Fail;

/// A message from BELL to WATT (X.411, Figure 2).
const SAMPLE: [u8; 101] = [
    0xA0, 0x63, 0x31, 0x5D, 0x60, 0x18, 0x30, 0x16, 0x61, 0x04, 0x13, 0x02, 0x47, 0x42, 0x62, 0x06,
    0x13, 0x04, 0x47, 0x4F, 0x4C, 0x44, 0xA5, 0x06, 0x80, 0x04, 0x42, 0x45, 0x4C, 0x4C, 0x64, 0x17,
    0x63, 0x0E, 0x61, 0x04, 0x13, 0x02, 0x47, 0x42, 0x62, 0x06, 0x13, 0x04, 0x47, 0x4F, 0x4C, 0x44,
    0x16, 0x05, 0x4D, 0x30, 0x30, 0x30, 0x31, 0x46, 0x01, 0x16, 0x69, 0x00, 0xA2, 0x23, 0x31, 0x21,
    0x60, 0x18, 0x30, 0x16, 0x61, 0x04, 0x13, 0x02, 0x47, 0x42, 0x62, 0x06, 0x13, 0x04, 0x47, 0x4F,
    0x4C, 0x44, 0xA5, 0x06, 0x80, 0x04, 0x57, 0x41, 0x54, 0x54, 0x80, 0x01, 0x01, 0x81, 0x02, 0x00,
    0xA8, 0x04, 0x02, 0x48, 0x69,
];

/// What is shown of it in the mailbox of WATT, where it was delivered at moment 0.
const DELIVERED: &str = "delivered 500101000000Z item 1
message C=GB;A=GOLD/M0001
originator C=GB;A=GOLD;S=BELL
content-type 22
priority normal
indicators 00000000
recipient 1 10101000 C=GB;A=GOLD;S=WATT
content 2 4869
";

/// A message whose identifier has octets that are not printed as they are, and whose content is empty.
const ESCAPED: [u8; 82] = [
    0xA0, 0x50, 0x31, 0x4C, 0x60, 0x11, 0x30, 0x0F, 0x61, 0x04, 0x13, 0x02, 0x46, 0x52, 0x62, 0x02,
    0x13, 0x00, 0xA5, 0x03, 0x80, 0x01, 0x41, 0x64, 0x13, 0x63, 0x0A, 0x61, 0x04, 0x13, 0x02, 0x46,
    0x52, 0x62, 0x02, 0x13, 0x00, 0x16, 0x05, 0x20, 0x09, 0x5C, 0x7E, 0x7F, 0x46, 0x02, 0x7F, 0xFF,
    0x69, 0x00, 0xA2, 0x1C, 0x31, 0x1A, 0x60, 0x11, 0x30, 0x0F, 0x61, 0x04, 0x13, 0x02, 0x46, 0x52,
    0x62, 0x02, 0x13, 0x00, 0xA5, 0x03, 0x80, 0x01, 0x42, 0x80, 0x01, 0x01, 0x81, 0x02, 0x00, 0x16,
    0x04, 0x00,
];

const ESCAPED_TEXT: &str = "message C=FR;A=/ \\09\\~\\7f
originator C=FR;A=;S=A
content-type 32767
priority normal
indicators 00000000
recipient 1 00010110 C=FR;A=;S=B
content 0 
";

/// A probe of a private domain that has each part that a probe may have, and ten indicators.
const PROBE: [u8; 177] = [
    0xA2, 0x81, 0xAE, 0x60, 0x18, 0x30, 0x16, 0x61, 0x04, 0x13, 0x02, 0x47, 0x42, 0x62, 0x06, 0x13,
    0x04, 0x47, 0x4F, 0x4C, 0x44, 0xA5, 0x06, 0x80, 0x04, 0x42, 0x45, 0x4C, 0x4C, 0x64, 0x1A, 0x63,
    0x14, 0x61, 0x04, 0x13, 0x02, 0x47, 0x42, 0x62, 0x06, 0x13, 0x04, 0x47, 0x4F, 0x4C, 0x44, 0x13,
    0x04, 0x56, 0x4F, 0x4C, 0x54, 0x16, 0x02, 0x50, 0x31, 0x65, 0x01, 0x01, 0x06, 0x02, 0x2A, 0x4A,
    0x48, 0x03, 0x06, 0xA0, 0x40, 0x69, 0x30, 0x30, 0x2E, 0x63, 0x14, 0x61, 0x04, 0x13, 0x02, 0x47,
    0x42, 0x62, 0x06, 0x13, 0x04, 0x47, 0x4F, 0x4C, 0x44, 0x13, 0x04, 0x56, 0x4F, 0x4C, 0x54, 0x31,
    0x16, 0x80, 0x0D, 0x35, 0x30, 0x30, 0x31, 0x30, 0x31, 0x30, 0x30, 0x31, 0x36, 0x34, 0x30, 0x5A,
    0x82, 0x01, 0x01, 0x83, 0x02, 0x06, 0xC0, 0x4A, 0x06, 0x6D, 0x65, 0x6D, 0x6F, 0x20, 0x37, 0x80,
    0x02, 0x03, 0xE8, 0xA1, 0x00, 0xA2, 0x22, 0x31, 0x20, 0x60, 0x17, 0x30, 0x15, 0x61, 0x04, 0x13,
    0x02, 0x47, 0x42, 0x62, 0x06, 0x13, 0x04, 0x47, 0x4F, 0x4C, 0x44, 0xA5, 0x05, 0x80, 0x03, 0x4F,
    0x48, 0x4D, 0x80, 0x01, 0x07, 0x81, 0x02, 0x03, 0xA0, 0xA3, 0x06, 0x30, 0x04, 0x83, 0x02, 0x2A,
    0x03,
];

const PROBE_TEXT: &str = "probe C=GB;A=GOLD;P=VOLT/P1
originator C=GB;A=GOLD;S=BELL
content-type oid 2a4a
content-identifier memo 7
indicators 1010000001
length 1000
types 3 octets
bilateral 2 octets
trace C=GB;A=GOLD;P=VOLT 500101001640Z rerouted redirected dl
extension oid 2a03 000 2 octets
recipient 7 10100000 C=GB;A=GOLD;S=OHM
";

/// A report of the sample message: it was not delivered to WATT, by reason 1, unable-to-transfer.
const REPORT: [u8; 143] = [
    0xA1, 0x81, 0x8C, 0x31, 0x32, 0x60, 0x18, 0x30, 0x16, 0x61, 0x04, 0x13, 0x02, 0x47, 0x42, 0x62,
    0x06, 0x13, 0x04, 0x47, 0x4F, 0x4C, 0x44, 0xA5, 0x06, 0x80, 0x04, 0x42, 0x45, 0x4C, 0x4C, 0x64,
    0x14, 0x63, 0x0E, 0x61, 0x04, 0x13, 0x02, 0x47, 0x42, 0x62, 0x06, 0x13, 0x04, 0x47, 0x4F, 0x4C,
    0x44, 0x16, 0x02, 0x52, 0x31, 0x69, 0x00, 0x31, 0x56, 0x64, 0x17, 0x63, 0x0E, 0x61, 0x04, 0x13,
    0x02, 0x47, 0x42, 0x62, 0x06, 0x13, 0x04, 0x47, 0x4F, 0x4C, 0x44, 0x16, 0x05, 0x4D, 0x30, 0x30,
    0x30, 0x31, 0xA0, 0x3B, 0x31, 0x39, 0xA0, 0x18, 0x30, 0x16, 0x61, 0x04, 0x13, 0x02, 0x47, 0x42,
    0x62, 0x06, 0x13, 0x04, 0x47, 0x4F, 0x4C, 0x44, 0xA5, 0x06, 0x80, 0x04, 0x57, 0x41, 0x54, 0x54,
    0x81, 0x01, 0x01, 0x82, 0x02, 0x00, 0xA8, 0xA3, 0x16, 0x80, 0x0D, 0x35, 0x30, 0x30, 0x31, 0x30,
    0x31, 0x30, 0x30, 0x31, 0x36, 0x34, 0x30, 0x5A, 0xA1, 0x05, 0xA1, 0x03, 0x80, 0x01, 0x01,
];

const REPORT_TEXT: &str = "report C=GB;A=GOLD/R1
destination C=GB;A=GOLD;S=BELL
subject C=GB;A=GOLD/M0001
recipient 1 10101000 non-delivery 1 - arrived 500101001640Z C=GB;A=GOLD;S=WATT
";

/// What is shown of these in the queue: for the second message this agent is not responsible, and the probe's
/// recipient, whose number is 7, is its first.
const QUEUE: &str = "item 1 message C=GB;A=GOLD/M0001 arrived 500101000000Z
recipient 1 pending C=GB;A=GOLD;S=WATT
item 2 message C=FR;A=/ \\09\\~\\7f arrived 500101001640Z
item 3 probe C=GB;A=GOLD;P=VOLT/P1 arrived 500101001640Z
recipient 1 pending C=GB;A=GOLD;S=OHM
item 4 report C=GB;A=GOLD/R1 arrived 491231235959Z
recipient 1 pending C=GB;A=GOLD;S=BELL
";

/// Items whose recipient ended in each of the ways.
const ENDED: &str = "item 1 message C=GB;A=GOLD/M0001 arrived 500101000000Z
recipient 1 reported 500101000000Z 1 0 C=GB;A=GOLD;S=WATT
item 2 message C=GB;A=GOLD/M0001 arrived 500101000000Z
recipient 1 reported 500101000000Z 0 - C=GB;A=GOLD;S=WATT
item 3 message C=GB;A=GOLD/M0001 arrived 500101000000Z
recipient 1 delivered 500101001640Z C=GB;A=GOLD;S=WATT
item 4 message C=GB;A=GOLD/M0001 arrived 500101000000Z
recipient 1 expanded 500101001640Z C=GB;A=GOLD;S=WATT
item 5 message C=GB;A=GOLD/M0001 arrived 500101000000Z
recipient 1 sent 491231235959Z EAST C=GB;A=GOLD;S=WATT
item 6 message C=GB;A=GOLD/M0001 arrived 500101000000Z
recipient 1 affirmed 500101001640Z C=GB;A=GOLD;S=WATT
item 7 report C=GB;A=GOLD/R1 arrived 500101000000Z
recipient 1 discarded 500101000000Z C=GB;A=GOLD;S=BELL
item 8 report C=GB;A=GOLD/R1 arrived 500101000000Z
recipient 1 passed 500101001640Z C=GB;A=GOLD;S=BELL
";

/// Lanes with their halves in each state.
const LANES: &str = "lane 1 out EAST generation 1 size 4 window 1 send idle 1 receive none
lane 2 in WEST generation 2 size 0 window 8 send sending 1 0 receive done 3
lane 3 out EAST generation 1 size 1 window 8 send ending 1 2 receive none
lane 4 in EAST generation 1 size 4 window 3 send dropping 1 receive partial 5 1
";

fn word(alloc: Global, text: &[u8]) -> Result<Word, Fail> {
    let word = Word::from_octets(alloc, Octets::from_slice(alloc, text)?)?.ok_or("no word")?;
    Ok(word)
}

fn shared(alloc: Global, octets: &[u8]) -> Result<Arc<Octets, Global>, Memory>
    ensures { IfOk result (λ shared. shared.value ≡ octets.now) }
{
    match Arc::new(alloc, Octets::from_slice(alloc, octets)?) {
        Ok(octets) => Ok(octets),
        Err(_) => Err(Memory),
    }
}

fn statuses_of(alloc: Global, octets: &[u8]) -> Option<Statuses> {
    match Apdu::read(alloc, octets) {
        Err(_) => None,
        Ok(apdu) => {
            let statuses = Statuses::of_apdu(alloc, &apdu).ok();
            apdu.discard();
            statuses
        }
    }
}

fn item(alloc: Global, octets: &[u8], arrival: u64) -> Result<Item, Fail> {
    let statuses = statuses_of(alloc, octets).ok_or("no APDU")?;
    let octets = shared(alloc, octets)?;
    Ok(Item::new(octets, arrival, Origin::Submitted, statuses))
}

/// An item whose recipient has this status.
fn ended(alloc: Global, octets: &[u8], status: Status) -> Result<Item, Fail> {
    let octets = shared(alloc, octets)?;
    let mut statuses = Vec::new(alloc);
    statuses.push(Some(status))?;
    let statuses = Statuses::from_vec(statuses);
    Ok(Item::new(octets, 0, Origin::Own, statuses))
}

fn line(alloc: Global, mailbox: &[u8], item: u32, moment: u64) -> Result<MailboxLine, Fail> {
    Ok(MailboxLine {
        mailbox: word(alloc, mailbox)?,
        item,
        moment,
    })
}

/// The text of the APDU that octets spell.
fn text_of(alloc: Global, octets: &[u8]) -> Option<Octets> {
    match Apdu::read(alloc, octets) {
        Err(_) => None,
        Ok(apdu) => {
            let text = show_apdu(alloc, &apdu).ok();
            apdu.discard();
            text
        }
    }
}

fn is_text(alloc: Global, octets: &[u8], expected: &str) -> bool {
    match text_of(alloc, octets) {
        None => false,
        Some(text) => text.as_slice() == expected.as_bytes(),
    }
}

#[test]
fn texts_of_apdus(rt: HostRuntime) -> Result<(), Fail> {
    let alloc = rt.alloc();
    assert!(rt; is_text(alloc, &ESCAPED, ESCAPED_TEXT));
    assert!(rt; is_text(alloc, &PROBE, PROBE_TEXT));
    assert!(rt; is_text(alloc, &REPORT, REPORT_TEXT));
    Ok(())
}

#[test]
fn texts_of_what_is_held(rt: HostRuntime) -> Result<(), Fail> {
    let alloc = rt.alloc();
    let items = vec![in alloc;
        item(alloc, &SAMPLE, 0)?,
        item(alloc, &ESCAPED, 1_000)?,
        item(alloc, &PROBE, 1_000)?,
        item(alloc, &REPORT, 3_155_759_999)?,
    ]?;
    assert_eq!(rt;
        show_queue(alloc, items.as_slice(), &[])?.as_slice(),
        QUEUE.as_bytes()
    );
    let lines = vec![in alloc; line(alloc, b"ohm", 2, 1_000)?, line(alloc, b"watt", 1, 0)?]?;
    let watt = show_mailbox(alloc, b"watt", items.as_slice(), lines.as_slice())?;
    assert_eq!(rt; watt.as_slice(), DELIVERED.as_bytes());
    let none = show_mailbox(alloc, b"bell", items.as_slice(), lines.as_slice())?;
    assert!(rt; none.is_empty());
    Ok(())
}

fn push_ended(
    alloc: Global,
    items: &mut Vec<Item>,
    octets: &[u8],
    status: Status,
) -> Result<(), Fail> {
    let item = ended(alloc, octets, status)?;
    items.push(item)?;
    Ok(())
}

fn push_reported(
    alloc: Global,
    items: &mut Vec<Item>,
    reason: u32,
    diagnostic: Option<u32>,
) -> Result<(), Fail> {
    let status = Status::Reported {
        moment: 0,
        reason,
        diagnostic,
    };
    push_ended(alloc, items, &SAMPLE, status)
}

fn push_sent(alloc: Global, items: &mut Vec<Item>) -> Result<(), Fail> {
    let peer = word(alloc, b"EAST")?;
    let status = Status::Sent {
        moment: 3_155_759_999,
        peer,
    };
    push_ended(alloc, items, &SAMPLE, status)
}

/// An item for each status but the first.
fn all_ended(alloc: Global, items: &mut Vec<Item>) -> Result<(), Fail> {
    push_reported(alloc, items, 1, Some(0))?;
    push_reported(alloc, items, 0, None)?;
    push_ended(alloc, items, &SAMPLE, Status::Delivered(1_000))?;
    push_ended(alloc, items, &SAMPLE, Status::Expanded(1_000))?;
    push_sent(alloc, items)?;
    push_ended(alloc, items, &SAMPLE, Status::Affirmed(1_000))?;
    push_ended(alloc, items, &REPORT, Status::Discarded(0))?;
    push_ended(alloc, items, &REPORT, Status::Passed(1_000))
}

#[test]
fn texts_of_statuses(rt: HostRuntime) -> Result<(), Fail> {
    let alloc = rt.alloc();
    let mut items = Vec::new(alloc);
    all_ended(alloc, &mut items)?;
    let text = show_queue(alloc, items.as_slice(), &[])?;
    assert_eq!(rt; text.as_slice(), ENDED.as_bytes());
    Ok(())
}

fn lane(
    alloc: Global,
    number: u32,
    role: LaneRole,
    peer: Word,
    size: u32,
    window: u32,
) -> Result<Lane, Memory>
    requires size { size ≤ 64 }
    requires window { (1 ≤ window) × (window ≤ 8) }
    ensures { IfOk result (λ lane. (lane.role ≡ role) × (lane.checkpoint ≡ size) × (lane.window ≡ window)
        × (lane.agreed ≡ is_role Responder role) × (lane.sending ≡ Idle 0) × (lane.pieces ≡ [])
        × (lane.generation ≡ 1) × (lane.high ≡ 0) × (lane.last ≡ Last.None)) }
{
    let reference = Reference::new(Octets::new(alloc), 0, None);
    let pieces = Pieces::new(alloc);
    Ok(Lane::open(number, role, peer, reference, false, size, window, pieces))
}

/// What an activity of 3,000 octets transfers.
fn transfer(alloc: Global) -> Result<Transfer, Memory>
    ensures { IfOk result (λ t. length t.octets ≡ 3000) }
{
    let rest = shared(alloc, &[0; 3_000])?;
    let outgoing = Outgoing::new(1, Octets::new(alloc), rest, 0, 3_000);
    let recipients = Recipients::from_vec(Vec::new(alloc));
    Ok(Transfer::new(1, recipients, 0, 1, 1, outgoing))
}

/// An activity was sent.
fn sent_lane(alloc: Global) -> Result<Lane, Fail> {
    let mut lane = lane(alloc, 1, LaneRole::Initiator, word(alloc, b"EAST")?, 4, 3)?;
    lane.make(LaneChange::Agree {
        checkpoint: 4,
        window: 1,
    });
    lane.make(LaneChange::Start(transfer(alloc)?));
    lane.make(LaneChange::ToEnd { activity: 1 });
    lane.make(LaneChange::Settle);
    Ok(lane)
}

/// One is sent, and one has come.
fn recovered_lane(alloc: Global) -> Result<Lane, Fail> {
    let mut lane = lane(alloc, 2, LaneRole::Responder, word(alloc, b"WEST")?, 0, 8)?;
    lane.make(LaneChange::Bind);
    lane.make(LaneChange::Start(transfer(alloc)?));
    lane.make(LaneChange::Complete { activity: 3 });
    Ok(lane)
}

/// The peer may complete one.
fn ending_lane(alloc: Global) -> Result<Lane, Fail> {
    let mut lane = lane(alloc, 3, LaneRole::Initiator, word(alloc, b"EAST")?, 1, 8)?;
    lane.make(LaneChange::Agree {
        checkpoint: 1,
        window: 8,
    });
    lane.make(LaneChange::Start(transfer(alloc)?));
    lane.make(LaneChange::Confirm {
        activity: 1,
        number: 2,
    });
    lane.make(LaneChange::ToEnd { activity: 1 });
    Ok(lane)
}

/// One is given up, and one has come in part.
fn dropping_lane(alloc: Global) -> Result<Lane, Fail> {
    let mut lane = lane(alloc, 4, LaneRole::Responder, word(alloc, b"EAST")?, 4, 3)?;
    let places = lane.places(alloc, 1, &[])?;
    lane.make(LaneChange::Secure {
        activity: 5,
        number: 1,
        piece: Octets::new(alloc),
        places,
    });
    lane.make(LaneChange::Start(transfer(alloc)?));
    lane.make(LaneChange::Abandon { activity: 1 });
    Ok(lane)
}

fn push_lane(lanes: &mut Vec<Lane>, lane: Result<Lane, Fail>) -> Result<(), Fail> {
    let lane = lane?;
    lanes.push(lane)?;
    Ok(())
}

fn all_lanes(alloc: Global, lanes: &mut Vec<Lane>) -> Result<(), Fail> {
    push_lane(lanes, sent_lane(alloc))?;
    push_lane(lanes, recovered_lane(alloc))?;
    push_lane(lanes, ending_lane(alloc))?;
    push_lane(lanes, dropping_lane(alloc))
}

#[test]
fn texts_of_lanes(rt: HostRuntime) -> Result<(), Fail> {
    let alloc = rt.alloc();
    let mut lanes = Vec::new(alloc);
    all_lanes(alloc, &mut lanes)?;
    let text = show_queue(alloc, &[], lanes.as_slice())?;
    assert_eq!(rt; text.as_slice(), LANES.as_bytes());
    Ok(())
}
