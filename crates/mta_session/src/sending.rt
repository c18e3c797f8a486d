//! What the sending end of a lane has done on one link.

ghost use Rattle.std.specs.Prelude.{◌≡◌, ◌≤◌, ◌<◌, ◌+◌, ◌-◌, ◌*◌, IfOk, OnErr, [], length, take, drop, true, false};
ghost use Rattle.mta_lane_send.specs.Half.{is_idle, is_sending, goes_on, last_of, confirmed_of, settled};
ghost use Rattle.mta_lane_send.specs.Half.{GoesOver, Start};
ghost use Rattle.mta_lane_send.specs.Half as send;
ghost use Rattle.mta_lane_send.specs.Link.{put_of, sync_put, end_put, resume_answered, recovery_of, recovered};
ghost use Rattle.mta_transfer_rules.specs.Sending as s;
ghost use Rattle.mta_session.specs.Link.{send_end, SameValues, PutsPiece};
ghost use Rattle.mta_session.specs.Fits.{ValuesFit, CarriesOn, LeavesPieces};

use mta_ber::{Memory, Octets};
use mta_lane_send::{NextData, OnLink, Recovery, SendHalf, SendState};
use mta_records::Outgoing;
use std::alloc::Global;
use std::marker::Model;

/// The sending half, whether Accept came on the link or was put, and the activity under way.
#[derive(Drop)]
pub struct SendLink {
    half: SendHalf,
    accepted: bool,
    outgoing: Option<Outgoing>,
}

impl Model for SendLink {
    ghost use Rattle.mta_session.specs.Link.{Link, HasTotal, octets_of};

    ghost Value = { Link };

    ghost view = { λ l. record { half = l.half; accepted = l.accepted; octets = octets_of l.outgoing } };

    ghost invariant = { λ l. HasTotal l.half.total l.outgoing };
}

impl SendLink {
    ghost use Rattle.mta_lane_send.specs.declared.state.OnLink.TheVariants as link;
    ghost use Rattle.mta_lane_send.specs.declared.state.SendState.TheVariants as state;

    /// No activity was started, and nothing is put.
    pub fn new(generation: u64, checkpoint: u32, window: u32, accepted: bool) -> SendLink
        requires { ValuesFit checkpoint window }
        ensures { result ≡ record {
          half = record {
            generation = generation;
            checkpoint = checkpoint;
            window = window;
            state = state.Idle 0;
            total = 0;
            on_link = link.Nothing;
          };
          accepted = accepted;
          octets = [];
        } }
    {
        SendLink {
            half: SendHalf::new(generation, checkpoint, window),
            accepted,
            outgoing: None,
        }
    }

    /// The half.
    pub fn half(&self) -> SendHalf
        ensures exact { result ≡ self.now.half }
        ensures total { 1 ≤ length self.now.octets → result.total ≡ length self.now.octets }
    {
        self.half
    }

    /// How far the half is.
    pub fn state(&self) -> SendState
        ensures { result ≡ self.now.half.state }
    {
        self.half.state()
    }

    /// What was put on the link.
    pub fn on_link(&self) -> OnLink
        ensures { result ≡ self.now.half.on_link }
    {
        self.half.on_link()
    }

    /// Whether Accept came on the link, or was put.
    pub fn is_accepted(&self) -> bool
        ensures { result ≡ self.now.accepted }
    {
        self.accepted
    }

    /// Whether Accept came on the link, from now on.
    pub fn accept(&mut self, accepted: bool)
        ensures { self.new ≡ record self.old { accepted = accepted } }
    {
        self.accepted = accepted;
    }

    /// Both ends hold to these values from now on. No activity is under way.
    pub fn agree(&mut self, checkpoint: u32, window: u32)
        requires values { ValuesFit checkpoint window }
        requires idle { is_idle self.old.half.state ≡ true }
        ensures { self.new ≡ record self.old {
          half = record self.old.half {
            checkpoint = checkpoint;
            window = window;
            on_link = link.Nothing;
          };
        } }
    {
        self.half.agree(checkpoint, window);
    }

    /// The same end with a half that has no activity under way, and nothing put.
    pub fn at_rest(&self, generation: u64, state: SendState) -> SendLink
        requires { is_idle state ≡ true }
        ensures { result ≡ record {
          half = record {
            generation = generation;
            checkpoint = self.now.half.checkpoint;
            window = self.now.half.window;
            state = state;
            total = 0;
            on_link = link.Nothing;
          };
          accepted = self.now.accepted;
          octets = [];
        } }
    {
        SendLink {
            half: SendHalf::restore(
                generation,
                self.half.checkpoint(),
                self.half.window(),
                state,
                0,
            ),
            accepted: self.accepted,
            outgoing: None,
        }
    }

    /// The same end with a half that has this activity under way, and nothing put.
    pub fn resumed(&self, generation: u64, state: SendState, outgoing: Outgoing) -> SendLink
        requires busy { is_idle state ≡ false }
        requires carries { CarriesOn (1024 * self.now.half.checkpoint) state outgoing.octets }
        ensures { result ≡ record {
          half = record {
            generation = generation;
            checkpoint = self.now.half.checkpoint;
            window = self.now.half.window;
            state = state;
            total = length outgoing.octets;
            on_link = link.Nothing;
          };
          accepted = self.now.accepted;
          octets = outgoing.octets;
        } }
    {
        SendLink {
            half: SendHalf::restore(
                generation,
                self.half.checkpoint(),
                self.half.window(),
                state,
                outgoing.total(),
            ),
            accepted: self.accepted,
            outgoing: Some(outgoing),
        }
    }

    /// The half is as it was, of the activity whose octets are held.
    pub fn put_back(&mut self, half: SendHalf)
        requires { half.total ≡ length self.old.octets }
        ensures { self.new ≡ record self.old { half = half } }
    {
        self.half = half;
    }

    /// The octets of the activity are let go.
    pub fn let_go(&mut self)
        ensures { self.new ≡ record self.old { octets = [] } }
    {
        self.outgoing = None;
    }

    /// This activity is started, and Start is put.
    pub fn start(&mut self, outgoing: Outgoing)
        requires idle { is_idle self.old.half.state ≡ true }
        requires some { 1 ≤ length outgoing.octets }
        requires next { outgoing.activity ≡ last_of self.old.half.state + 1 }
        ensures { self.new ≡ record self.old {
          half = send.made self.old.half (Start (length outgoing.octets));
          octets = outgoing.octets;
        } }
    {
        self.half.start(outgoing.total());
        self.outgoing = Some(outgoing);
    }

    /// The piece behind those that are put is put now; none while as many Syncs as the window are not confirmed.
    pub fn put_piece(&mut self, alloc: Global) -> Result<Option<Octets>, Memory>
        requires over { GoesOver self.old.half.on_link }
        requires leaves { LeavesPieces (1024 * self.old.half.checkpoint) self.old.octets
            (put_of self.old.half.on_link) }
        ensures puts { IfOk result (λ piece. PutsPiece (put_of self.old.half.on_link) (send_end self.old) piece
            (send_end self.new)) }
        ensures values { SameValues self.old self.new }
        ensures err { OnErr result (self.new ≡ self.old) }
    {
        let mut half = self.half;
        let NextData::Piece { from, to, .. } = half.next_data() else {
            return Ok(None);
        };
        let Some(outgoing) = &self.outgoing else {
            unreachable!();
        };
        let piece = cut(alloc, outgoing, from, to)?;
        self.half = half;
        Ok(Some(piece))
    }

    /// The Sync behind the piece that was put last is put.
    pub fn put_sync(&mut self)
        ensures { self.new ≡ record self.old {
          half = record self.old.half { on_link = sync_put self.old.half.on_link };
        } }
    {
        self.half.put_sync();
    }

    /// End behind the last piece is put.
    pub fn put_end(&mut self)
        ensures { self.new ≡ record self.old {
          half = record self.old.half { on_link = end_put self.old.half.on_link };
        } }
    {
        self.half.put_end();
    }

    /// Discard is put.
    pub fn put_discard(&mut self)
        ensures { self.new ≡ record self.old { half = record self.old.half { on_link = link.Discard } } }
    {
        self.half.put_discard();
    }

    /// The unit that is put first of an activity that was under way when the link was opened.
    pub fn recover(&mut self) -> Recovery
        ensures unit { result ≡ recovery_of self.old.half.state }
        ensures after { self.new ≡ record self.old { half = recovered self.old.half result } }
    {
        self.half.recover()
    }

    /// Resume is answered.
    pub fn on_resume_ack(&mut self)
        ensures { self.new ≡ record self.old {
          half = record self.old.half { on_link = resume_answered self.old.half.on_link };
        } }
    {
        self.half.on_resume_ack();
    }

    /// The peer holds the pieces up to this one.
    pub fn confirm(&mut self, number: u32)
        requires going { goes_on self.old.half.state (last_of self.old.half.state) ≡ true }
        requires above { confirmed_of self.old.half.state < number }
        requires leaves { LeavesPieces (1024 * self.old.half.checkpoint) self.old.octets number }
        ensures end { send_end self.new ≡ s.made (send_end self.old) (s.Confirm number) }
        ensures values { SameValues self.old self.new }
    {
        let activity = self.half.state().last();
        self.half.confirm(activity, number);
    }

    /// End may be put from now on.
    pub fn ending(&mut self)
        requires { is_sending self.old.half.state (last_of self.old.half.state) ≡ true }
        ensures end { send_end self.new ≡ s.made (send_end self.old) s.To_end }
        ensures values { SameValues self.old self.new }
    {
        let activity = self.half.state().last();
        self.half.ending(activity);
    }

    /// The activity is settled and let go.
    pub fn settle(&mut self)
        ensures { self.new ≡ record self.old { half = settled self.old.half; octets = [] } }
    {
        self.half.settle();
        self.outgoing = None;
    }

    /// The activity, which is not settled, is given up.
    pub fn abandon(&mut self)
        requires { is_idle self.old.half.state ≡ false }
        ensures end { send_end self.new ≡ s.made (send_end self.old) s.Abandon }
        ensures values { SameValues self.old self.new }
    {
        let activity = self.half.state().last();
        self.half.abandon(activity);
    }
}

/// The octets of an activity from `from` up to `to`.
fn cut(alloc: Global, outgoing: &Outgoing, from: u32, to: u32) -> Result<Octets, Memory>
    requires order { from ≤ to }
    requires within { to ≤ length outgoing.now.octets }
    ensures { IfOk result (λ o. o ≡ take (to - from) (drop from outgoing.now.octets)) }
{
    let (front, back) = outgoing.cut(from, to);
    let mut octets = Octets::from_slice(alloc, front)?;
    octets.extend(back)?;
    Ok(octets)
}
