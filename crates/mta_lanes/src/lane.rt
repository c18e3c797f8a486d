//! A lane that is open.

ghost use Rattle.std.specs.Prelude.{◌≡◌, ◌≤◌, ◌<◌, ◌+◌, ◌^◌, ◌==◌, ◌&&◌, ◌↔◌};
ghost use Rattle.std.specs.Prelude.{IsTrue, IfOk, ◌-◌, length, take, true, [], Some, None};
ghost use Rattle.std.specs.List.{concat};
ghost use Rattle.mta_lane_send.specs.Half.{is_idle, is_sending, last_of, is_possible as sends_step};
ghost use Rattle.mta_lane_send.specs.Half as send;
ghost use Rattle.mta_lane_recv.specs.Half.{takes_piece};
ghost use Rattle.mta_lane_recv.specs.Half as recv;
ghost use Rattle.mta_histories.specs.Lanes.{sender, receiver, is_for, is_transferring, holds, total_of};
ghost use Rattle.mta_histories.specs.Kept.{IsWhole};
ghost use Rattle.mta_histories.specs.Classes.{agree, secure};
ghost use Rattle.mta_histories.specs.History.{new_lane, Sends, sends, is_with, with_piece, longest_activity};
ghost use Rattle.mta_lanes.specs.Lane.{OfLane, MayStart, has_size, has_room, takes};
ghost use Rattle.mta_lanes.specs.Finds.{IsNamed};
ghost use Rattle.mta_lanes.specs.Pieces.{HasPlace};
ghost use Rattle.std.specs.Option.{option_copied};

use crate::pieces::{Pieces, Places};
use crate::transfer::Transfer;
use mta_ber::{Memory, Octets, Word};
use mta_lane_recv::{Last, RecvHalf, longest_piece};
use mta_lane_send::{SendHalf, SendState};
use mta_records::{LaneRecord, LaneRole, LaneValues, Reference, TransferRecord};
use std::alloc::Global;
use std::marker::Model;
use std::mem;
use std::sync::Arc;

/// A lane that is open. Its checkpoint size is at most 64 units of 1,024 octets, and the pieces that came have at most
/// 2,097,152 octets.
pub struct Lane {
    number: u32,
    role: LaneRole,
    peer: Word,
    reference: Reference,
    twa: bool,
    agreed: bool,
    sending: SendHalf,
    transfer: Option<Transfer>,
    receiving: RecvHalf,
    pieces: Pieces,
}

// Written out, since a derived one is opened anew, field by field, at each place where a value is let go.
impl Drop for Lane {
    fn drop(self) {
        let Lane {
            number: _,
            role: _,
            peer: _,
            reference: _,
            twa: _,
            agreed: _,
            sending: _,
            transfer: _,
            receiving: _,
            pieces: _,
        } = self;
    }
}

impl Model for Lane {
    ghost use Rattle.std.specs.Prelude.{◌≡◌, ◌≤◌, false, true, length};
    ghost use Rattle.std.specs.List.{concat};
    ghost use Rattle.mta_lane_send.specs.Half.{is_idle};
    ghost use Rattle.mta_histories.specs.History.{longest_activity};
    ghost use Rattle.mta_histories.specs.Lanes.{Lane as LaneValue, total_of};

    ghost Value = { LaneValue };

    ghost view = { λ l. record {
      number = l.number;
      role = l.role;
      peer = l.peer;
      reference = l.reference;
      checkpoint = l.sending.checkpoint;
      window = l.sending.window;
      twa = l.twa;
      agreed = l.agreed;
      generation = l.sending.generation;
      sending = l.sending.state;
      transfer = l.transfer;
      high = l.receiving.high;
      last = l.receiving.last;
      pieces = l.pieces;
    } };

    ghost invariant = { λ l. (l.receiving.generation ≡ l.sending.generation)
        × (l.sending.total ≡ total_of l.transfer)
        × (l.agreed ≡ false → is_idle l.sending.state ≡ true)
        × (length (concat l.pieces) ≤ longest_activity) };
}

fn is_for(transfer: &Option<Transfer>, item: u32, recipient: u32) -> bool
    ensures { result ≡ is_for item recipient transfer.now }
{
    match transfer {
        Some(transfer) => transfer.is_for(item, recipient),
        None => false,
    }
}

fn restored(alloc: Global, recorded: Option<TransferRecord>) -> Result<Option<Transfer>, Memory>
    ensures { IfOk result (λ t. t ≡ recorded) }
{
    match recorded {
        Some(recorded) => Ok(Some(Transfer::restore(alloc, recorded)?)),
        None => Ok(None),
    }
}

fn recorded(alloc: Global, transfer: &Option<Transfer>) -> Result<Option<TransferRecord>, Memory>
    ensures { IfOk result (λ t. t ≡ transfer.now) }
{
    match transfer {
        Some(transfer) => Ok(Some(transfer.record(alloc)?)),
        None => Ok(None),
    }
}

fn total_of(transfer: &Option<Transfer>) -> u32
    ensures { result ≡ total_of transfer.now }
{
    match transfer {
        Some(transfer) => transfer.total(),
        None => 0,
    }
}

impl Lane {
    /// The lane that was recorded, whose values are in their ranges and whose halves fit what is kept of them. What it
    /// transfers is not copied.
    pub fn restore(alloc: Global, recorded: LaneRecord) -> Result<Lane, Memory>
        requires { IsWhole recorded }
        ensures { IfOk result (λ lane. lane ≡ recorded) }
    {
        let mut recorded = recorded;
        let peer = recorded.peer.share()?;
        let reference = recorded.reference.copy(alloc)?;
        let pieces = Pieces::of(alloc, recorded.pieces.as_slice())?;
        let transfer = restored(alloc, mem::replace(&mut recorded.transfer, None))?;
        let total = total_of(&transfer);
        let values = recorded.values;
        Ok(Lane {
            number: recorded.number,
            role: recorded.role,
            peer,
            reference,
            twa: values.twa,
            agreed: values.agreed,
            sending: SendHalf::restore(
                recorded.generation,
                values.checkpoint,
                values.window,
                recorded.sending,
                total,
            ),
            transfer,
            receiving: RecvHalf::restore(recorded.generation, recorded.high, recorded.last),
            pieces,
        })
    }

    /// The lane as it is recorded. What others hold of the octets that it transfers is shared.
    pub fn record(&self, alloc: Global) -> Result<LaneRecord, Memory>
        ensures { IfOk result (λ lane. lane ≡ self.now) }
    {
        let peer = self.peer.share()?;
        let reference = self.reference.copy(alloc)?;
        let transfer = recorded(alloc, &self.transfer)?;
        let pieces = self.pieces.copies(alloc)?;
        Ok(LaneRecord {
            number: self.number,
            role: self.role,
            peer,
            reference,
            values: self.values(),
            generation: self.generation(),
            sending: self.sending.state(),
            transfer,
            high: self.receiving.high(),
            last: self.receiving.last(),
            pieces,
        })
    }

    /// A new lane, which takes no memory. The values of a responder's are agreed.
    pub fn open(
        number: u32,
        role: LaneRole,
        peer: Word,
        reference: Reference,
        twa: bool,
        checkpoint: u32,
        window: u32,
        pieces: Pieces,
    ) -> Lane
        requires checkpoint { checkpoint ≤ 64 }
        requires window { (1 ≤ window) × (window ≤ 8) }
        requires pieces { pieces ≡ [] }
        ensures { result ≡ new_lane number role peer reference twa checkpoint window }
    {
        let agreed = match role {
            LaneRole::Initiator => false,
            LaneRole::Responder => true,
        };
        Lane {
            number,
            role,
            peer,
            reference,
            twa,
            agreed,
            sending: SendHalf::new(1, checkpoint, window),
            transfer: None,
            receiving: RecvHalf::new(1),
            pieces,
        }
    }

    /// Its number.
    pub fn number(&self) -> u32
        ensures { result ≡ self.now.number }
    {
        self.number
    }

    /// Which end of it this agent is.
    pub fn role(&self) -> LaneRole
        ensures { result ≡ self.now.role }
    {
        self.role
    }

    /// Its generation.
    pub fn generation(&self) -> u64
        ensures { result ≡ self.now.generation }
    {
        self.sending.generation()
    }

    /// The state of its sending half.
    pub fn sending(&self) -> SendState
        ensures { result ≡ self.now.sending }
    {
        self.sending.state()
    }

    /// The highest activity that left a mark in its receiving half, and what stands of it.
    pub fn receiving(&self) -> (u32, Last)
        ensures high { result.0 ≡ self.now.high }
        ensures last { result.1 ≡ self.now.last }
    {
        (self.receiving.high(), self.receiving.last())
    }

    /// Its values.
    pub fn values(&self) -> LaneValues
        ensures { result ≡ record {
          checkpoint = self.now.checkpoint;
          window = self.now.window;
          twa = self.now.twa;
          agreed = self.now.agreed;
        } }
    {
        LaneValues {
            checkpoint: self.sending.checkpoint(),
            window: self.sending.window(),
            twa: self.twa,
            agreed: self.agreed,
        }
    }

    /// Whether it is with this peer, in this role.
    pub fn is_with(&self, role: LaneRole, peer: &Word) -> bool
        ensures { result ≡ is_with role peer.now self.now }
    {
        let same_role = match (role, self.role) {
            (LaneRole::Initiator, LaneRole::Initiator) => true,
            (LaneRole::Responder, LaneRole::Responder) => true,
            (LaneRole::Initiator, LaneRole::Responder) => false,
            (LaneRole::Responder, LaneRole::Initiator) => false,
        };
        same_role && peer.as_slice() == self.peer.as_slice()
    }

    /// Whether it is of this generation.
    pub fn is_of(&self, generation: u64) -> bool
        ensures { result ≡ (generation == self.now.generation) }
    {
        generation == self.generation()
    }

    /// Whether this is the generation behind its own.
    pub fn is_before(&self, generation: u64) -> bool
        ensures { result ≡ (generation == self.now.generation + 1) }
    {
        generation > 0 && generation - 1 == self.generation()
    }

    /// Whether these values may be agreed.
    pub fn may_agree(&self, checkpoint: u32, window: u32) -> bool
        ensures exact { IsTrue result ↔ OfLane self.now (agree checkpoint window) }
        ensures fits { IsTrue result → checkpoint ≤ 64 }
    {
        let initiates = match self.role {
            LaneRole::Initiator => true,
            LaneRole::Responder => false,
        };
        initiates
            && !self.agreed
            && checkpoint <= self.sending.checkpoint()
            && 1 <= window
            && window <= self.sending.window()
    }

    /// These values are agreed.
    pub(crate) fn agree(&mut self, checkpoint: u32, window: u32)
        requires { OfLane self.old (agree checkpoint window) }
        ensures { self.new ≡ record self.old { checkpoint = checkpoint; window = window; agreed = true } }
    {
        let _size = self.sending.checkpoint();
        let _most = self.sending.window();
        self.sending.agree(checkpoint, window);
        self.agreed = true;
    }

    /// The next generation begins.
    pub(crate) fn bind(&mut self)
        requires { self.old.generation + 1 < 2 ^ 64 }
        ensures { self.new ≡ record self.old { generation = self.old.generation + 1 } }
    {
        let next = self.generation() + 1;
        self.sending.bind(next);
        self.receiving.bind(next);
    }

    /// Whether a Confirm may be made.
    pub fn may_confirm(&self, activity: u32, number: u32) -> bool
        ensures { result ≡ sends_step (sender self.now) (send.Confirm activity number) }
    {
        self.sending.may_confirm(activity, number)
    }

    /// The peer has confirmed the activity up to this checkpoint.
    pub(crate) fn confirm(&mut self, activity: u32, number: u32)
        requires { Sends self.old (send.Confirm activity number) }
        ensures { self.new ≡ record self.old { sending = sends self.old (send.Confirm activity number) } }
    {
        self.sending.confirm(activity, number);
    }

    /// Whether an Ending may be made.
    pub fn may_end(&self, activity: u32) -> bool
        ensures { result ≡ sends_step (sender self.now) (send.To_end activity) }
    {
        self.sending.state().is_sending(activity)
    }

    /// From now on the peer may complete the activity.
    pub(crate) fn end(&mut self, activity: u32)
        requires { Sends self.old (send.To_end activity) }
        ensures { self.new ≡ record self.old { sending = sends self.old (send.To_end activity) } }
    {
        self.sending.ending(activity);
    }

    /// Whether a Sent may be made.
    pub fn may_be_sent(&self, activity: u32) -> bool
        ensures { result ≡ sends_step (sender self.now) (send.Sent activity) }
    {
        self.sending.state().is_ending(activity)
    }

    /// Whether a Refused, a Denied or a Dropped may be made.
    pub fn may_settle(&self, activity: u32) -> bool
        ensures refused { result ≡ sends_step (sender self.now) (send.Refused activity) }
        ensures denied { result ≡ sends_step (sender self.now) (send.Denied activity) }
        ensures dropped { result ≡ sends_step (sender self.now) (send.Dropped activity) }
    {
        self.sending.state().is_live(activity)
    }

    /// The activity under way is settled: sent, refused, denied or dropped.
    pub(crate) fn settle(&mut self)
        ensures { self.new ≡ record self.old { sending = sends self.old (send.Sent 0); transfer = None } }
    {
        self.sending.settle();
        self.transfer = None;
    }

    /// Whether the sending half allows an Abandon.
    pub fn may_abandon(&self, activity: u32) -> bool
        ensures { result ≡ sends_step (sender self.now) (send.Abandon activity) }
    {
        self.sending.state().is_sending(activity)
    }

    /// The activity is given up.
    pub(crate) fn abandon(&mut self, activity: u32)
        requires { Sends self.old (send.Abandon activity) }
        ensures { self.new ≡ record self.old { sending = sends self.old (send.Abandon activity) } }
    {
        self.sending.abandon(activity);
    }

    /// An activity is started with this transfer.
    pub(crate) fn start(&mut self, transfer: Transfer)
        requires { MayStart self.old transfer }
        ensures { self.new ≡ record self.old { sending = sends self.old (send.Start 0); transfer = Some transfer } }
    {
        self.sending.start(transfer.total());
        self.transfer = Some(transfer);
    }

    /// Whether the receiving half allows a Drop.
    pub fn may_drop(&self, activity: u32) -> bool
        ensures { result ≡ recv.is_possible (receiver self.now) (recv.Drop activity) }
    {
        self.receiving.last().is_partial_of(activity)
    }

    /// The pieces that came are given up.
    pub(crate) fn drop_pieces(&mut self)
        ensures { self.new ≡ record self.old { last = Last.None; pieces = [] } }
    {
        self.receiving.drop_part();
        self.pieces.clear();
    }

    // Whether a piece of so many octets is neither empty nor too long.
    fn has_size(&self, octets: u64) -> bool
        ensures { result ≡ has_size self.now octets }
    {
        1 <= octets && octets <= longest_piece(self.sending.checkpoint())
    }

    // Whether the octets of the pieces before one, and of that one, are not too many.
    #[tactic(auto, using(crate::proofs::Concats::length_behind, crate::proofs::Concats::front_shorter))]
    fn has_room(&self, number: u32, piece: &[u8]) -> bool
        ensures { result ≡ has_room self.now number piece.now }
    {
        let before = self.pieces.octets_before(number.saturating_sub(1) as usize);
        piece.len() <= 2_097_152 && before + piece.len() as u64 <= 2_097_152
    }

    /// Whether the piece begins a new activity, goes on from what stands, or replaces a part of it.
    pub fn takes_piece(&self, activity: u32, number: u32) -> bool
        ensures { result ≡ takes_piece self.now.high self.now.last activity number }
    {
        self.receiving.takes_piece(activity, number)
    }

    /// Whether the receiving half takes a piece.
    pub fn may_take(&self, activity: u32, number: u32, piece: &[u8]) -> bool
        ensures { result ≡ takes self.now activity number piece.now }
    {
        self.agreed
            && self.takes_piece(activity, number)
            && self.has_size(piece.len() as u64)
            && self.has_room(number, piece)
    }

    /// Whether a Secure may be made.
    pub fn may_secure(&self, activity: u32, number: u32, piece: &[u8]) -> bool
        ensures { IsTrue result ↔ OfLane self.now (secure activity number piece.now) }
    {
        self.may_take(activity, number, piece)
    }

    /// Room for a piece, in place of that piece and all behind it.
    pub fn places(&self, alloc: Global, number: u32, piece: &[u8]) -> Result<Places, Memory>
        ensures { IfOk result (HasPlace self.now.pieces number piece.now) }
    {
        self.pieces
            .places(alloc, number.saturating_sub(1) as usize, piece)
    }

    /// The octets of the pieces before one, and of that one.
    #[tactic(auto, using(crate::proofs::Concats::joined_behind))]
    pub fn joined(&self, alloc: Global, number: u32, piece: &[u8]) -> Result<Octets, Memory>
        ensures { IfOk result (λ octets. octets ≡ concat (with_piece self.now.pieces number piece.now)) }
    {
        let before = self.pieces.first(number.saturating_sub(1) as usize);
        let mut octets = Octets::from_slice(alloc, before)?;
        octets.extend(piece)?;
        Ok(octets)
    }

    /// The octets of the pieces before one, and of that one, to be read and then held by an item too. Where it is the
    /// next piece no octet that stands is copied. The lane stays as it is.
    #[tactic(auto, using(crate::proofs::Concats::joined_behind))]
    pub fn share(&mut self, number: u32, piece: &[u8]) -> Result<Arc<Octets, Global>, Memory>
        ensures same { self.new ≡ self.old }
        ensures ok { IfOk result (λ octets. octets.value ≡ concat (with_piece self.old.pieces number piece.now)) }
    {
        self.pieces.share(number.saturating_sub(1) as usize, piece)
    }

    /// How many pieces stand.
    pub fn piece_count(&self) -> usize
        ensures { result ≡ length self.now.pieces }
    {
        self.pieces.len()
    }

    /// A piece stands from now on, in place of that piece and all behind it, in room that was found for it.
    pub(crate) fn secure(&mut self, activity: u32, number: u32, piece: Octets, places: Places)
        requires places { HasPlace self.old.pieces number piece places }
        requires within { length (concat (with_piece self.old.pieces number piece)) ≤ longest_activity }
        ensures { self.new ≡ record self.old {
          high = activity;
          last = Last.Partial activity number;
          pieces = with_piece self.old.pieces number piece;
        } }
    {
        self.pieces
            .put(number.saturating_sub(1) as usize, piece, places);
        self.receiving.secure(activity, number);
    }

    /// All of the activity has come.
    pub(crate) fn complete(&mut self, activity: u32)
        ensures { self.new ≡ record self.old { high = activity; last = Last.Done activity; pieces = [] } }
    {
        self.receiving.complete(activity);
        self.pieces.clear();
    }

    /// The peer.
    pub fn peer(&self) -> &Word
        ensures { result.now ≡ self.now.peer }
    {
        &self.peer
    }

    /// What both ends call the lane.
    pub fn reference(&self) -> &Reference
        ensures { result.now ≡ self.now.reference }
    {
        &self.reference
    }

    /// What the activity under way transfers; none where none is under way.
    pub fn transfer(&self) -> Option<&Transfer>
        ensures { option_copied result ≡ self.now.transfer }
    {
        self.transfer.as_ref()
    }

    /// Whether an activity is under way that may still be completed.
    pub fn is_transferring(&self) -> bool
        ensures { result ≡ is_transferring self.now.sending }
    {
        let state = self.sending.state();
        state.goes_on(state.last())
    }

    /// Whether the activity under way may still be completed, and is for this recipient of the item.
    pub fn holds(&self, item: u32, recipient: u32) -> bool
        ensures { result ≡ holds item recipient self.now }
    {
        self.is_transferring() && is_for(&self.transfer, item, recipient)
    }

    /// The number of the activity under way, or else of the last one; 0 before the first.
    pub fn activity(&self) -> u32
        ensures { result ≡ last_of self.now.sending }
    {
        self.sending.state().last()
    }

    /// Whether the activity under way may still be given up, and is for this recipient of the item.
    pub fn is_sending_for(&self, item: u32, recipient: u32) -> bool
        ensures { result
            ≡ (is_sending self.now.sending (last_of self.now.sending) && is_for item recipient self.now.transfer) }
    {
        self.sending.state().is_sending(self.activity()) && is_for(&self.transfer, item, recipient)
    }

    /// Whether it is with this peer, in this role, and of this reference, where one is asked for.
    pub fn is_named(&self, role: LaneRole, peer: &Word, reference: Option<&Reference>) -> bool
        ensures { IsTrue result ↔ IsNamed role peer.now (option_copied reference.entry) self.now }
    {
        let same_name = match reference {
            None => true,
            Some(reference) => reference.same(&self.reference),
        };
        self.is_with(role, peer) && same_name
    }

    /// Whether the lane may be closed.
    pub fn may_close(&self) -> bool
        ensures { result ≡ is_idle self.now.sending }
    {
        self.sending.state().is_idle()
    }
}
