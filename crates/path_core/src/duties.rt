//! The duties of a path, by what they do: whether one comes to something, to what, what its reply makes of the path, and what
//! one that comes to nothing changes in silence. A new rule has one arm in each of the four, in the file of its part.

ghost use Rattle.std.specs.Prelude.{◌≡◌, true, false, IsOk, IfOk, OnOk, OnErr};
ghost use Rattle.actor_desk.specs.Kinds.{CanBeAsked};
ghost use Rattle.path_agenda.specs.declared.duty.Duty.TheVariants as duties;
ghost use Rattle.path_agenda.specs.declared.duty.AskDuty.TheVariants as ask_duties;
ghost use Rattle.path_core.specs.Octets.{octets};
ghost use Rattle.path_core.specs.Duties.{stands, ask_for, passed, answered, sent_for};
ghost use Rattle.path_core.specs.Replies.{IsAckBounded, AreRowsInRange, IsGrantFit, asks_bytes, needs_memory};

use crate::addresses::{announce_ask, withdraw_ask};
use crate::breaking::MIDDLEBOX;
use crate::fast_close::{abort_receive_ask, abort_send_ask};
use crate::looking::{ToSend, send_of};
use crate::mp_join::join_begin_ask;
use crate::said::SegmentKind;
use crate::standing::ack_out_ask;
use crate::state::PathState;
use actor_desk::{Ask, LocalStep, Reply};
use fallback_state::{Event, Mode};
use path_agenda::{Agenda, AskDuty, Duty, SendDuty, SilentDuty, StepDuty};
use send_book::SendCall;
use sides::Side;
use std::alloc::AllocError;
use subflow_tcp::Occasion;

impl PathState {
    /// Whether a duty comes to something.
    pub(crate) fn stands(&self, duty: Duty) -> bool
        ensures { result ≡ stands duty self.now }
    {
        match duty {
            Duty::Ask(ask) => self.ask_stands(ask),
            Duty::Step(step) => self.step_stands(step),
            Duty::Send(send) => self.send_stands(send),
            Duty::Silent(_) => false,
            Duty::End => true,
        }
    }

    /// What the duty asks that stands first, or which segment it sends. Only bytes that are to be placed take memory.
    ///
    /// # Errors
    ///
    /// Only where there is no memory for those bytes.
    pub(crate) fn ask_for(&self, duty: Duty) -> Result<Ask, AllocError>
        requires first { stands duty self.now ≡ true }
        ensures ask { IfOk result (λ ask. ask ≡ ask_for octets duty self.now) }
        ensures able { IfOk result CanBeAsked }
        ensures plain { asks_bytes duty ≡ false → IsOk result }
    {
        match duty {
            Duty::Ask(ask) => self.ask_of(ask),
            Duty::Step(step) => Ok(self.step_ask(step)),
            Duty::Send(send) => Ok(self.send_step(send)),
            Duty::Silent(_) => Ok(Ask::Local(LocalStep::End)),
            Duty::End => Ok(Ask::Local(LocalStep::End)),
        }
    }

    /// What a duty that comes to nothing changes. Takes no memory.
    pub(crate) fn pass(&mut self, duty: Duty)
        ensures { self.new ≡ passed duty self.old }
    {
        match duty {
            Duty::Ask(ask) => self.pass_ask(ask),
            Duty::Step(step) => self.pass_step(step),
            Duty::Silent(silent) => self.change(silent),
            Duty::Send(_) => {}
            Duty::End => {}
        }
    }

    /// What the reply makes of the path, where this duty stands first.
    ///
    /// # Errors
    ///
    /// Only where there is no memory, and the reply needs some; all is then as it was.
    pub(crate) fn answer(&mut self, duty: Duty, reply: &Reply) -> Result<(), AllocError>
        requires first { stands duty self.old ≡ true }
        requires grant { IsGrantFit duty reply.now self.old }
        requires acks { IsAckBounded reply.now }
        requires rows { AreRowsInRange reply.now }
        ensures ok { OnOk result (self.new ≡ answered octets duty reply.now self.old) }
        ensures err { OnErr result (self.new ≡ self.old) }
        ensures plain { needs_memory duty reply.now self.old ≡ false → IsOk result }
    {
        match duty {
            Duty::Ask(ask) => {
                self.answer_ask(ask, reply);
                Ok(())
            }
            Duty::Step(step) => self.answer_step(step, reply),
            Duty::Send(send) => self.send_for(send),
            Duty::Silent(_) => {
                self.done();
                Ok(())
            }
            Duty::End => {
                self.sets_about(Agenda::of(&[]));
                Ok(())
            }
        }
    }

    /// Whether it comes to something.
    pub(crate) fn ask_stands(&self, duty: AskDuty) -> bool
        ensures { result ≡ stands (duties.Ask duty) self.now }
    {
        match duty {
            AskDuty::JoinAgain => self.is_join_pending(),
            AskDuty::PlainHandshake(side) => self.end(side).is_plain_syn(),
            AskDuty::PeerKey(side) => self.end(side).peer_key_stands(),
            AskDuty::JoinHeard(side) => self.asked_at(side).is_some(),
            AskDuty::Opened(side) => self.opened_stands(side),
            AskDuty::Live(side) => self.end(side).treated.opened,
            AskDuty::AckHeard(side) => self.end(side).modes.mode == Mode::Starting,
            AskDuty::SubflowAck(side) => self.end(side).subflow_ack_stands(),
            AskDuty::PlainData(side) => self.end(side).plain_data_stands(),
            AskDuty::Edge(side) => self.end(side).has_piece(&self.profile),
            AskDuty::CheckFailed(side) => self.end(side).check_failed_stands(&self.profile),
            AskDuty::HeardFin { side, index } => self.end(side).treated.fin(index).is_some(),
            AskDuty::SubflowFin(side) => self.end(side).place_of_fin().is_some(),
            AskDuty::AckOut(side) => self.end(side).treated.asked,
            AskDuty::Rate(side) => self.end(side).tcp.pending().is_some(),
            AskDuty::Return(side) => !self.end(side).sending.granted.is_empty(),
            AskDuty::LeaveNoted(side) => self.end(side).leaves_silently(),
            AskDuty::Window(_)
            | AskDuty::SynHeard(_)
            | AskDuty::SynAnswered(_)
            | AskDuty::FailHeard(_)
            | AskDuty::GoIdentity(_)
            | AskDuty::AbortSend(_)
            | AskDuty::AbortReceive(_)
            | AskDuty::Announce { .. }
            | AskDuty::Withdraw { .. }
            | AskDuty::BreakAck { .. }
            | AskDuty::Leave(_)
            | AskDuty::Dead(_) => true,
        }
    }

    /// Whether the end that left SynReceived tells something: both keys, or that no option came.
    fn opened_stands(&self, side: Side) -> bool
        ensures { result ≡ stands (duties.Ask (ask_duties.Opened side)) self.now }
    {
        self.end(side).is_opened_by_keys() || self.end(side).is_opened_plainly()
    }

    /// What it asks, where it comes to something. Only bytes that are to be placed take memory.
    pub(crate) fn ask_of(&self, duty: AskDuty) -> Result<Ask, AllocError>
        requires first { stands (duties.Ask duty) self.now ≡ true }
        ensures ask { IfOk result (λ ask. ask ≡ ask_for octets (duties.Ask duty) self.now) }
        ensures able { IfOk result CanBeAsked }
        ensures plain { asks_bytes (duties.Ask duty) ≡ false → IsOk result }
    {
        match duty {
            AskDuty::Edge(side) => self.piece_ask(side),
            AskDuty::JoinAgain => Ok(join_begin_ask(self.number())),
            AskDuty::Window(side) => Ok(ack_out_ask(side)),
            AskDuty::SynHeard(side) => Ok(self.syn_window_ask(side)),
            AskDuty::SynAnswered(side) => Ok(self.syn_window_ask(side)),
            AskDuty::PlainHandshake(side) => Ok(self.fell_ask(side, Event::PlainHandshake)),
            AskDuty::PeerKey(side) => Ok(self.peer_key_ask(side)),
            AskDuty::JoinHeard(side) => Ok(self.join_heard_ask(side)),
            AskDuty::Opened(side) => Ok(self.opened_ask(side)),
            AskDuty::Live(side) => Ok(self.live_ask(side)),
            AskDuty::AckHeard(side) => Ok(self.fell_ask(side, Event::AckHeard)),
            AskDuty::FailHeard(side) => Ok(self.fail_heard_ask(side)),
            AskDuty::SubflowAck(side) => Ok(self.subflow_ack_ask(side)),
            AskDuty::PlainData(side) => Ok(self.fell_ask(side, Event::PlainData)),
            AskDuty::GoIdentity(side) => Ok(Ask::Send(side, SendCall::GoIdentity)),
            AskDuty::CheckFailed(side) => Ok(self.fell_ask(side, Event::CheckFailed)),
            AskDuty::HeardFin { side, index } => Ok(self.fin_ask(side, index)),
            AskDuty::SubflowFin(side) => Ok(self.plain_fin_ask(side)),
            AskDuty::AckOut(side) => Ok(ack_out_ask(side)),
            AskDuty::Rate(side) => Ok(self.rate_ask(side)),
            AskDuty::Return(side) => Ok(self.return_ask(side)),
            AskDuty::AbortSend(side) => Ok(abort_send_ask(side)),
            AskDuty::AbortReceive(side) => Ok(abort_receive_ask(side)),
            AskDuty::Announce { side, id } => Ok(announce_ask(side, id)),
            AskDuty::Withdraw { side, id } => Ok(withdraw_ask(side, id)),
            AskDuty::LeaveNoted(side) => Ok(self.return_ask(side)),
            AskDuty::BreakAck { side, .. } => Ok(ack_out_ask(side)),
            AskDuty::Leave(side) => Ok(self.return_ask(side)),
            AskDuty::Dead(side) => Ok(self.dead_ask(side)),
        }
    }

    /// What it changes where it comes to nothing: octets with a wrong checksum are forgotten.
    pub(crate) fn pass_ask(&mut self, duty: AskDuty)
        ensures { self.new ≡ passed (duties.Ask duty) self.old }
    {
        match duty {
            AskDuty::CheckFailed(side) => self.check(side),
            _ => {}
        }
    }

    /// What the reply makes of the path. Takes no memory.
    pub(crate) fn answer_ask(&mut self, duty: AskDuty, reply: &Reply)
        requires first { stands (duties.Ask duty) self.old ≡ true }
        requires acks { IsAckBounded reply.now }
        requires rows { AreRowsInRange reply.now }
        ensures { self.new ≡ answered octets (duties.Ask duty) reply.now self.old }
    {
        match duty {
            AskDuty::JoinAgain => self.answer_join_again(reply),
            AskDuty::Window(side) => self.ack_out(side, reply),
            AskDuty::SynHeard(_) => self.done(),
            AskDuty::SynAnswered(_) => self.done(),
            AskDuty::PlainHandshake(side) => self.answer_fell(side, Event::PlainHandshake, reply),
            AskDuty::PeerKey(side) => self.answer_peer_key(side, reply),
            AskDuty::JoinHeard(side) => self.answer_join_heard(side, reply),
            AskDuty::Opened(side) => self.answer_opened(side, reply),
            AskDuty::Live(_) => self.done(),
            AskDuty::AckHeard(side) => self.answer_fell(side, Event::AckHeard, reply),
            AskDuty::FailHeard(side) => self.answer_fail_heard(side, reply),
            AskDuty::SubflowAck(side) => self.answer_subflow_ack(side, reply),
            AskDuty::PlainData(side) => self.answer_fell(side, Event::PlainData, reply),
            AskDuty::GoIdentity(side) => self.answer_identity(side),
            AskDuty::Edge(side) => self.answer_piece(side, reply),
            AskDuty::CheckFailed(side) => self.answer_check_failed(side, reply),
            AskDuty::HeardFin { side, .. } => self.answer_fin(side, reply),
            AskDuty::SubflowFin(side) => self.answer_plain_fin(side, reply),
            AskDuty::AckOut(side) => self.ack_out(side, reply),
            AskDuty::Rate(side) => self.take_rate_reply(side, reply),
            AskDuty::Return(_) => self.done(),
            AskDuty::AbortSend(_) => self.done(),
            AskDuty::AbortReceive(_) => self.done(),
            AskDuty::Announce { .. } => self.done(),
            AskDuty::Withdraw { .. } => self.done(),
            AskDuty::LeaveNoted(side) => self.leave_silently(side),
            AskDuty::BreakAck { side, reason } => self.ack_out_breaking(side, reply, reason),
            AskDuty::Leave(side) => self.turns_to(Duty::Ask(AskDuty::Dead(side))),
            AskDuty::Dead(_) => self.done(),
        }
    }

    /// Whether it comes to something.
    pub(crate) fn step_stands(&self, duty: StepDuty) -> bool
        ensures { result ≡ stands (duties.Step duty) self.now }
    {
        match duty {
            StepDuty::Look(_) => true,
            StepDuty::Data(side) => self.end(side).data_stands(&self.profile, side),
            StepDuty::Events => self.next_event().is_some(),
            StepDuty::Heard { side, index } => self.end(side).item_stands(index),
            StepDuty::PlainAck(side) => self.end(side).plain_ack_stands(&self.profile),
            StepDuty::Unmapped(side) => self.end(side).breaks_by_unmapped(),
        }
    }

    /// What it asks, or which segment it sends.
    pub(crate) fn step_ask(&self, duty: StepDuty) -> Ask
        ensures value { result ≡ ask_for octets (duties.Step duty) self.now }
        ensures able { CanBeAsked result }
    {
        match duty {
            StepDuty::Look(side) => self.look_ask(side),
            StepDuty::Data(side) => self.data_ask(side),
            StepDuty::Events => self.event_ask(),
            StepDuty::Heard { side, index } => self.item_ask(side, index),
            StepDuty::PlainAck(side) => self.plain_ack_ask(side),
            StepDuty::Unmapped(side) => self.break_ask(side, MIDDLEBOX),
        }
    }

    /// What it changes where it comes to nothing.
    pub(crate) fn pass_step(&mut self, duty: StepDuty)
        ensures { self.new ≡ passed (duties.Step duty) self.old }
    {
        match duty {
            StepDuty::Heard { side, index } => self.end_mut(side).pass_item(side, index),
            StepDuty::PlainAck(side) => self.end_mut(side).count_plain_ack(),
            StepDuty::Unmapped(side) => self.end_mut(side).pass_pieces(),
            StepDuty::Look(_) => {}
            StepDuty::Data(_) => {}
            StepDuty::Events => {}
        }
    }

    /// What the reply makes of the path. At an error all is as it was.
    pub(crate) fn answer_step(&mut self, duty: StepDuty, reply: &Reply) -> Result<(), AllocError>
        requires first { stands (duties.Step duty) self.old ≡ true }
        requires grant { IsGrantFit (duties.Step duty) reply.now self.old }
        requires acks { IsAckBounded reply.now }
        ensures ok { OnOk result (self.new ≡
            answered octets (duties.Step duty) reply.now self.old) }
        ensures err { OnErr result (self.new ≡ self.old) }
        ensures plain { needs_memory (duties.Step duty) reply.now self.old ≡ false → IsOk result }
    {
        match duty {
            StepDuty::Look(side) => self.look(side, reply),
            StepDuty::Data(side) => self.answer_data(side, reply),
            StepDuty::Events => self.answer_event(reply),
            StepDuty::Heard { side, index } => self.answer_item(side, index, reply),
            StepDuty::PlainAck(side) => self.answer_plain_ack(side, reply),
            StepDuty::Unmapped(side) => self.answer_break(side, MIDDLEBOX, reply),
        }
    }

    /// What a silent duty changes.
    pub(crate) fn change(&mut self, duty: SilentDuty)
        ensures { self.new ≡ passed (duties.Silent duty) self.old }
    {
        match duty {
            SilentDuty::Timer(side) => self.settle_timer(side),
            SilentDuty::Keep(side) => self.end_mut(side).keep(side),
            SilentDuty::PassFin(side) => self.end_mut(side).pass_fin(),
        }
    }

    /// Whether its segment is due.
    pub(crate) fn send_stands(&self, duty: SendDuty) -> bool
        ensures { result ≡ stands (duties.Send duty) self.now }
    {
        match duty {
            SendDuty::Update(side) => self.end(side).is_update_due(&self.profile),
            SendDuty::Syn(side) => self.end(side).is_syn_due(),
            SendDuty::FastClose(side) => self.end(side).is_fast_close_due(),
            SendDuty::Notice(side) => self.end(side).is_note_due(),
            SendDuty::ResetNoted(side) => self.end(side).resets_noted(),
            SendDuty::DataFin(side) => self.end(side).is_data_fin_due(),
            SendDuty::Fin(side) => self.end(side).is_fin_due(),
            SendDuty::Acknowledge(side) => self.end(side).tcp.owes_ack(),
            SendDuty::Again(side) => self.end(side).is_again_due(),
            SendDuty::SynAck(_)
            | SendDuty::Refuse(_)
            | SendDuty::Answer(_)
            | SendDuty::ResetAnswer(_)
            | SendDuty::Resend(_)
            | SendDuty::BreakReset { .. }
            | SendDuty::Reset(_) => true,
        }
    }

    /// The step of its segment.
    pub(crate) fn send_step(&self, duty: SendDuty) -> Ask
        ensures value { result ≡ ask_for octets (duties.Send duty) self.now }
        ensures able { CanBeAsked result }
    {
        let ToSend { from, kind } = send_of(duty);
        self.sent_step(from, kind)
    }

    /// The segment is sent. At an error all is as it was.
    pub(crate) fn send_for(&mut self, duty: SendDuty) -> Result<(), AllocError>
        requires { stands (duties.Send duty) self.old ≡ true }
        ensures ok { OnOk result (self.new ≡ sent_for octets duty self.old) }
        ensures err { OnErr result (self.new ≡ self.old) }
    {
        match duty {
            SendDuty::Update(side) => self.send_and_leave(side, SegmentKind::Ack, Occasion::Ack),
            SendDuty::Acknowledge(side) => {
                self.send_and_leave(side, SegmentKind::Ack, Occasion::Ack)
            }
            SendDuty::Syn(side) => {
                self.send_and_leave(side, SegmentKind::Unsent, Occasion::Unsent)
            }
            SendDuty::FastClose(side) => self.send_fast_close(side),
            SendDuty::Notice(side) => self.send_note(side),
            SendDuty::DataFin(side) => self.send_data_fin(side),
            SendDuty::Fin(side) => self.send_fin(side),
            SendDuty::SynAck(side) => {
                self.send_and_leave(side, SegmentKind::SynAck, Occasion::SynAck)
            }
            SendDuty::Refuse(side) => self.hand_and_leave(side, SegmentKind::Refusal),
            SendDuty::Again(side) => {
                self.send_and_leave(side, SegmentKind::First, Occasion::First)
            }
            SendDuty::Answer(side) => {
                let occasion = self.end(side).answer_occasion();
                self.send_and_leave(side, SegmentKind::Answer, occasion)
            }
            SendDuty::ResetAnswer(side) => self.hand_and_leave(side, SegmentKind::DeadAnswer),
            SendDuty::Resend(side) => {
                let occasion = self.end(side).resend_occasion();
                self.send_and_leave(side, SegmentKind::Resend, occasion)
            }
            SendDuty::BreakReset { side, reason } => self.send_reset(side, Some(reason)),
            SendDuty::Reset(side) => self.give_up(side),
            SendDuty::ResetNoted(side) => self.give_up(side),
        }
    }
}
