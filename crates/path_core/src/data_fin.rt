//! The ends of both streams (RFC 8684, sections 3.3.2 and 3.3.3): which Data ACKs are news, when DATA_FIN and FIN go out, and
//! what is told of the peer's.

ghost use Rattle.std.specs.Prelude.{◌+◌, ◌≡◌, ◌-◌, ◌<◌, ◌≤◌, ◌^◌, true, Some, OnOk, IfSome, IsTrue, OnErr};
ghost use Rattle.subflow_tcp.specs.declared.segments.Occasion.TheVariants.{Fin};
ghost use Rattle.subflow_tcp.specs.States.{may_finish};
ghost use Rattle.subflow_tcp.specs.Closing.{after_finishing};
ghost use Rattle.subflow_tcp.specs.Emitting.{after_sending};
ghost use Rattle.path_agenda.specs.declared.duty.Duty.TheVariants as duties;
ghost use Rattle.path_agenda.specs.declared.duty.SendDuty.TheVariants as send_duties;
ghost use Rattle.actor_desk.specs.Kinds.{CanBeAsked};
ghost use Rattle.path_core.specs.DataFin.{is_data_fin_owed, is_data_fin_due, is_fin_due, is_waiting, acked_in, with_peer_data_fin, after_pass_fin, place_of_fin, with_fin_told, answered_data_fin_sent, answered_fin, is_fin_set, data_fin_of, fin_ask, answered_fin_heard, answered_plain_fin};
ghost use Rattle.path_core.specs.Deliver.{having_asked};
ghost use Rattle.path_core.specs.Octets.{octets};
ghost use Rattle.path_core.specs.Duties.{stands};
ghost use Rattle.path_core.specs.State.{end_at};

use crate::end::PathEnd;
use crate::handover::Handed;
use crate::modes::Modes;
use crate::said::SegmentKind;
use crate::sending::Sending;
use crate::state::PathState;
use actor_desk::{Ask, LocalStep, Reply};
use reassembly_book::{ReassemblyCall, ReassemblyReply};
use send_book::SendReply;
use sides::Side;
use std::alloc::AllocError;
use subflow_tcp::Occasion;

/// The end of the stream was set.
pub(crate) fn is_fin_set(reply: &Reply) -> bool
    ensures { result ≡ is_fin_set reply.now }
{
    matches!(reply, Reply::Reassembly(ReassemblyReply::FinSet))
}

impl PathEnd {
    /// A DATA_FIN is acknowledged by nothing that was heard; without mappings the subflow's FIN takes its place (section 3.7).
    pub(crate) fn is_data_fin_owed(&self) -> bool
        ensures { result ≡ is_data_fin_owed self.now }
    {
        !self.modes.sends_plainly() && self.sending.owes_data_fin()
    }

    /// The timer runs for it: a byte or a DATA_FIN that isn't acknowledged, or a window that is shut.
    pub(crate) fn is_waiting(&self) -> bool
        ensures { result ≡ is_waiting self.now }
    {
        self.is_data_fin_owed() || !self.sending.granted.is_empty() || self.sending.shut
    }

    /// The DATA_FIN is to be sent: the end is known, and it was neither sent nor acknowledged; never without mappings.
    pub(crate) fn is_data_fin_due(&self) -> bool
        ensures { result ≡ is_data_fin_due self.now }
    {
        self.tcp.state().may_finish()
            && !self.modes.sends_plainly()
            && self.modes.clear
            && self.sending.is_data_fin_due()
    }

    /// The FIN is to be sent: the own DATA_FIN is acknowledged, and the peer's came; without mappings all bytes were granted.
    pub(crate) fn is_fin_due(&self) -> bool
        ensures { result ≡ is_fin_due self.now }
    {
        if !self.tcp.state().may_finish() {
            return false;
        }
        if self.modes.sends_plainly() {
            self.sending.is_all_granted()
        } else {
            self.sending.close.may_finish()
        }
    }

    /// The FIN is pushed and sent at once; its segment told this edge of the window, at most 2^62 + 2^21, and this is known after
    /// it (`edge_told`, `modes_after`).
    pub(crate) fn having_sent_fin(&mut self, now: u64, told_edge: u64, modes: Modes)
        requires state { IsTrue (may_finish self.old.tcp.state) }
        requires edge { told_edge ≤ 2 ^ 62 + 2 ^ 21 }
        ensures { self.new ≡ record self.old {
          receiving = record self.old.receiving { told_edge = told_edge };
          modes = modes;
          tcp = after_sending Fin now (after_finishing self.old.tcp);
        } }
    {
        // For the proof: whether the FIN was pushed tells where it stands.
        let _finished = self.tcp.is_finished();
        self.receiving.tell_edge(told_edge);
        self.modes = modes;
        self.tcp.finish();
        self.tcp.sent(Occasion::Fin, now);
    }

    /// The end of the peer's stream was told.
    pub(crate) fn take_peer_data_fin(&mut self)
        ensures { self.new ≡ having_asked (with_peer_data_fin self.old) }
    {
        self.sending.close.heard_fin();
        self.have_asked();
    }

    /// The edge moves over the subflow's FIN, which ends no stream by itself.
    pub(crate) fn pass_fin(&mut self)
        ensures { self.new ≡ after_pass_fin self.old }
    {
        if self.tcp.is_fin_next() {
            self.tcp.pass_fin();
        }
    }

    /// Where the peer sends without mappings: the end of the stream by its FIN, where the edge passed it and it wasn't told.
    pub(crate) fn place_of_fin(&self) -> Option<u64>
        ensures value { result ≡ place_of_fin self.now }
        ensures bound { IfSome result (λ place. place < 2 ^ 62) }
    {
        if self.receiving.fin_told {
            return None;
        }
        match self.tcp.fin_at() {
            Some(position) if position < self.tcp.edge() => self.modes.fin_place(position),
            _ => None,
        }
    }

    /// The peer's FIN was told as the end of its stream.
    pub(crate) fn take_plain_fin_reply(&mut self)
        ensures { self.new ≡ having_asked (with_peer_data_fin (with_fin_told self.old)) }
    {
        self.receiving.fin_told = true;
        self.take_peer_data_fin();
    }
}

impl Sending {
    /// Bytes of the stream are acknowledged up to a place, where the Data ACK was taken.
    pub(crate) fn take_ack_reply(&mut self, next: u64, reply: &Reply)
        requires { next < 2 ^ 62 }
        ensures { self.new ≡ acked_in next reply.now self.old }
    {
        if let Reply::Send(SendReply::Acked { fin, .. }) = *reply {
            self.acknowledge(next, fin);
        }
    }
}

impl PathState {
    /// The acknowledgement with the DATA_FIN is sent.
    pub(crate) fn send_data_fin(&mut self, side: Side) -> Result<(), AllocError>
        ensures ok { OnOk result (self.new ≡ answered_data_fin_sent octets side self.old) }
        ensures err { OnErr result (self.new ≡ self.old) }
    {
        self.send_and_leave(side, SegmentKind::DataFin, Occasion::Ack)?;
        self.end_mut(side).sending.fin_sent = true;
        Ok(())
    }

    /// The FIN is pushed and sent.
    #[tactic(auto, using(crate::proofs::Grants::fin_state))]
    pub(crate) fn send_fin(&mut self, side: Side) -> Result<(), AllocError>
        requires { stands (duties.Send (send_duties.Fin side)) self.old ≡ true }
        ensures ok { OnOk result (self.new ≡ answered_fin octets side self.old) }
        ensures err { OnErr result (self.new ≡ self.old) }
    {
        let Handed {
            octets,
            told_edge,
            modes,
        } = self.handed(side, SegmentKind::Fin)?;
        self.hand_octets(side, SegmentKind::Fin, octets)?;
        let now = self.clock.now();
        self.end_mut(side).having_sent_fin(now, told_edge, modes);
        self.done();
        Ok(())
    }

    /// The end of the stream that the DATA_FIN of this number told.
    pub(crate) fn fin_ask(&self, side: Side, index: u8) -> Ask
        ensures value { result ≡ fin_ask side (data_fin_of index (end_at side self.now)) }
        ensures able { CanBeAsked result }
    {
        match self.end(side).treated.fin(index) {
            Some(at) => Ask::Reassembly(side, ReassemblyCall::Fin { at }),
            None => Ask::Local(LocalStep::End),
        }
    }

    /// The end of the stream was told; one that the book refuses breaks the path.
    pub(crate) fn answer_fin(&mut self, side: Side, reply: &Reply)
        ensures { self.new ≡ answered_fin_heard side (is_fin_set reply.now) self.old }
    {
        if is_fin_set(reply) {
            self.end_mut(side).take_peer_data_fin();
            self.done();
        } else {
            self.refuse(side);
        }
    }

    /// The peer's FIN is told as the end of its stream.
    pub(crate) fn plain_fin_ask(&self, side: Side) -> Ask
        ensures value { result ≡ fin_ask side (place_of_fin (end_at side self.now)) }
        ensures able { CanBeAsked result }
    {
        match self.end(side).place_of_fin() {
            Some(at) => Ask::Reassembly(side, ReassemblyCall::Fin { at }),
            None => Ask::Local(LocalStep::End),
        }
    }

    /// The peer's FIN was told as the end of its stream; one that the book refuses breaks the path.
    pub(crate) fn answer_plain_fin(&mut self, side: Side, reply: &Reply)
        ensures { self.new ≡ answered_plain_fin side (is_fin_set reply.now) self.old }
    {
        if is_fin_set(reply) {
            self.end_mut(side).take_plain_fin_reply();
            self.done();
        } else {
            self.refuse(side);
        }
    }
}
