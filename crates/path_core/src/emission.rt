//! What an end sends by itself: its SYN, records and grants as long as there is room; and on which occasion it answers or sends
//! again.

ghost use Rattle.std.specs.Prelude.{◌≡◌, ◌-◌, ◌<◌, ◌&&◌, ◌^◌, true, ◌||◌, false, is_some, IsOk, OnOk, IsTrue, OnErr};
ghost use Rattle.subflow_send.specs.Records.{record_of};
ghost use Rattle.subflow_tcp.specs.States.{may_finish};
ghost use Rattle.subflow_tcp.specs.State.{has_records};
ghost use Rattle.actor_desk.specs.Kinds.{CanBeAsked};
ghost use Rattle.path_agenda.specs.declared.duty.Duty.TheVariants as duties;
ghost use Rattle.path_agenda.specs.declared.duty.StepDuty.TheVariants as step_duties;
ghost use Rattle.path_core.specs.Emission.{first_unsent, is_syn_due, fits, may_send_data, may_ask, data_stands, with_piece, granted, refused, answer_occasion, resend_occasion, grant_ask, data_ask, grant_in, answered_grant, answered_data};
ghost use Rattle.path_core.specs.Replies.{IsSendable, IsGrantSendable, IsGrantFit};
ghost use Rattle.path_core.specs.Octets.{octets};
ghost use Rattle.path_core.specs.Duties.{stands};
ghost use Rattle.path_core.specs.State.{end_at, goes_on, left};

use crate::end::PathEnd;
use crate::profile::Profile;
use crate::said::SegmentKind;
use crate::state::PathState;
use actor_desk::{Ask, Reply};
use octet_text::Text;
use path_store::GrantedPiece;
use send_book::{SendCall, SendReply, Span};
use seq_units::Mapping;
use sides::Side;
use std::alloc::AllocError;
use subflow_tcp::{Occasion, RecordRef, State};

impl PathEnd {
    /// The SYN of the end that opens is due: it was never sent.
    pub(crate) fn is_syn_due(&self) -> bool
        ensures { result ≡ is_syn_due self.now }
    {
        self.tcp.state() == State::SynSent && self.tcp.first_unsent().is_some()
    }

    /// Once the own SYN is acknowledged records are sent that the congestion window has room for.
    fn fits(&self, lent: &RecordRef<'_>) -> bool
        ensures { result ≡ fits self.now.tcp (record_of lent.now) }
    {
        1 <= self.tcp.una() && lent.piece.len() as u64 <= u64::from(self.tcp.room())
    }

    /// The end may send a DSS, or needs none after a fallback, or it is the one that opened the connection.
    fn may_send_data(&self, profile: &Profile, side: Side) -> bool
        ensures { result ≡ may_send_data profile.now side self.now }
    {
        self.modes.clear || self.modes.identity || side == Side::A && !profile.is_joined()
    }

    /// Bytes may be asked for: both SYNs are acknowledged, no FIN was sent, there is room for a full segment, positions
    /// are left, and the end may send data.
    fn may_ask(&self, profile: &Profile, side: Side) -> bool
        ensures { result ≡ may_ask profile.now side self.now }
    {
        self.tcp.state().may_finish()
            && profile.payload_size() <= self.tcp.room()
            && !self.tcp.is_at_limit()
            && self.may_send_data(profile, side)
    }

    /// A record is sent, or bytes are asked for.
    pub(crate) fn data_stands(&self, profile: &Profile, side: Side) -> bool
        ensures { result ≡ data_stands profile.now side self.now (first_unsent self.now) }
    {
        match self.tcp.first_unsent() {
            Some(record) => !self.tcp.state().is_closed_to_segments() && self.fits(&record),
            None => self.may_ask(profile, side),
        }
    }

    /// The granted piece, 1 to 65,475 octets, is to be sent with this mapping for ever. The FIN may still be sent, and SND.NXT is
    /// below 2^61.
    ///
    /// # Errors
    ///
    /// Only where there is no memory for the piece; all is then as it was.
    pub(crate) fn take_grant(
        &mut self,
        span: Span,
        piece: &Text,
        mapping: &Mapping,
    ) -> Result<(), AllocError>
        requires piece { IsSendable piece.now }
        requires open { IsTrue (may_finish self.old.tcp.state) }
        requires room { self.old.tcp.send.nxt < 2 ^ 61 }
        ensures ok { OnOk result (self.new ≡ with_piece span piece.now mapping.now self.old) }
        ensures err { OnErr result (self.new ≡ self.old) }
    {
        // For the proof: whether the FIN was pushed tells where it stands.
        let _finished = self.tcp.is_finished();
        let granted = GrantedPiece {
            position: self.tcp.nxt(),
            from: span.from,
            to: span.to,
        };
        self.sending.granted.push(granted)?;
        if let Err(error) = self.tcp.push(piece, mapping) {
            self.sending.granted.pop();
            return Err(error);
        }
        self.sending.shut = false;
        Ok(())
    }

    /// A grant was refused: the reply tells whether the peer's window is shut, and perhaps where the stream ends. Any other
    /// changes nothing.
    pub(crate) fn refuse_grant(&mut self, reply: &Reply)
        ensures { self.new ≡ refused reply.now self.old }
    {
        if let Reply::Send(SendReply::NoGrant { why, end }) = *reply {
            self.sending.refuse(why, end);
        }
    }

    /// The first record is to be sent again.
    pub(crate) fn is_again_due(&self) -> bool
        ensures { result ≡ (self.now.tcp.due.first && has_records self.now.tcp) }
    {
        self.tcp.owes_first() && self.tcp.has_records()
    }

    /// An end whose SYN isn't acknowledged answers by its SYN/ACK.
    pub(crate) fn answer_occasion(&self) -> Occasion
        ensures { result ≡ answer_occasion self.now }
    {
        if self.tcp.owes_syn_ack() {
            Occasion::SynAck
        } else {
            Occasion::Ack
        }
    }

    /// On which occasion an expiry sends: the first record again, or else an acknowledgement with the third MP_JOIN, MP_FASTCLOSE
    /// or the DATA_FIN, or else a probe, which a peer that is there answers.
    pub(crate) fn resend_occasion(&self) -> Occasion
        ensures { result ≡ resend_occasion self.now }
    {
        if self.tcp.has_records() {
            Occasion::First
        } else if self.modes.owes_third || self.notices.fast_closed || self.is_data_fin_owed() {
            Occasion::Ack
        } else {
            Occasion::Probe
        }
    }
}

impl PathState {
    /// Bytes of the stream are asked for.
    fn grant_ask(&self, side: Side) -> Ask
        ensures value { result ≡ grant_ask side self.now }
        ensures able { CanBeAsked result }
    {
        Ask::Send(
            side,
            SendCall::Grant {
                path: self.number(),
                max: self.profile.payload_size(),
                standby: self.end(side).modes.standby,
            },
        )
    }

    /// A record is sent, or bytes are asked for.
    pub(crate) fn data_ask(&self, side: Side) -> Ask
        ensures value { result ≡
            data_ask octets side (first_unsent (end_at side self.now)) self.now }
        ensures able { CanBeAsked result }
    {
        match self.end(side).tcp.first_unsent() {
            Some(_) => self.sent_step(side, SegmentKind::Unsent),
            None => self.grant_ask(side),
        }
    }

    /// The granted piece is to be sent; the duty stays. At an error all is as it was.
    #[tactic(auto, using(crate::proofs::Grants::may_state, crate::proofs::Grants::may_room))]
    fn take_grant(&mut self, side: Side, span: Span, piece: &Text) -> Result<(), AllocError>
        requires piece { IsSendable piece.now }
        requires may { may_ask self.old.profile side (end_at side self.old) ≡ true }
        ensures ok { OnOk result (self.new ≡
            goes_on side (granted self.old.profile side span piece.now (end_at side self.old))
            self.old.agenda self.old) }
        ensures err { OnErr result (self.new ≡ self.old) }
    {
        let position = self.end(side).tcp.nxt();
        let mapping = self
            .profile
            .mapping_of(side, span.from, position, piece.as_bytes());
        self.end_mut(side).take_grant(span, piece, &mapping)
    }

    /// A grant was refused, which ends the asking.
    fn refuse_grant(&mut self, side: Side, reply: &Reply)
        ensures { self.new ≡
            goes_on side (refused reply.now (end_at side self.old)) (left self.old) self.old }
    {
        self.end_mut(side).refuse_grant(reply);
        self.done();
    }

    /// What was granted is taken, or the refusal ends the asking. At an error all is as it was.
    fn take_grant_reply(&mut self, side: Side, reply: &Reply) -> Result<(), AllocError>
        requires grant { IsGrantSendable (grant_in reply.now) }
        requires may { may_ask self.old.profile side (end_at side self.old) ≡ true }
        ensures ok { OnOk result (self.new ≡
            answered_grant side (grant_in reply.now) reply.now self.old) }
        ensures err { OnErr result (self.new ≡ self.old) }
        ensures plain { is_some (grant_in reply.now) ≡ false → IsOk result }
    {
        match reply {
            Reply::Send(SendReply::Granted { span, piece }) => {
                self.take_grant(side, *span, piece)
            }
            _ => {
                self.refuse_grant(side, reply);
                Ok(())
            }
        }
    }

    /// A record is sent, or what was granted is taken; the duty stays, so that the next record is sent, or the next bytes
    /// are asked for.
    #[tactic(auto, using(crate::proofs::Grants::may_of_stands))]
    pub(crate) fn answer_data(&mut self, side: Side, reply: &Reply) -> Result<(), AllocError>
        requires first { stands (duties.Step (step_duties.Data side)) self.old ≡ true }
        requires grant { IsGrantFit (duties.Step (step_duties.Data side)) reply.now self.old }
        ensures ok { OnOk result (self.new ≡
            answered_data octets side (first_unsent (end_at side self.old)) reply.now self.old) }
        ensures err { OnErr result (self.new ≡ self.old) }
        ensures plain { (is_some (first_unsent (end_at side self.old)) || is_some
            (grant_in reply.now)) ≡ false → IsOk result }
    {
        if self.end(side).tcp.first_unsent().is_some() {
            self.send(side, SegmentKind::Unsent, Occasion::Unsent)
        } else {
            self.take_grant_reply(side, reply)
        }
    }
}
