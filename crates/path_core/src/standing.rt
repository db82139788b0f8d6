//! The start of a turn: how the side stands, what is to be acknowledged, and whether the window's growth is to be told.

ghost use Rattle.std.specs.Prelude.{◌+◌, ◌≡◌, ◌≤◌, ◌^◌, false, IsOk, OnOk, OnErr};
ghost use Rattle.actor_desk.specs.Kinds.{CanBeAsked};
ghost use Rattle.path_agenda.specs.Agenda.{resets};
ghost use Rattle.path_core.specs.Standing.{is_connected, modes_told, may_note, notices_told, queues_in, after_look, after_ack_out, tellable_edge, has_grown, is_update_due, ack_out_ask, look_ask, answered_look, answered_ack_out};
ghost use Rattle.path_core.specs.Replies.{IsAckBounded};
ghost use Rattle.path_core.specs.State.{left, end_at};

use crate::end::PathEnd;
use crate::handover::window_told;
use crate::modes::Modes;
use crate::profile::Profile;
use crate::state::PathState;
use actor_desk::{Ask, Reply};
use control_book::{ControlCall, ControlReply};
use path_agenda::Agenda;
use reassembly_book::{ReassemblyCall, ReassemblyReply};
use sides::Side;
use std::alloc::AllocError;
use subflow_tcp::State;

/// Both SYNs are acknowledged, and the end isn't dead.
pub(crate) fn is_connected(state: State) -> bool
    ensures { result ≡ is_connected state }
{
    !matches!(
        state,
        State::Waiting | State::Listen | State::SynSent | State::SynReceived | State::Dead
    )
}

/// The reassembly book is asked what is to be acknowledged.
pub(crate) fn ack_out_ask(side: Side) -> Ask
    ensures value { result ≡ ack_out_ask side }
    ensures able { CanBeAsked result }
{
    Ask::Reassembly(side, ReassemblyCall::AckOut)
}

impl Modes {
    /// The mode, and how the path stands among the others.
    fn tell(&mut self, reply: &Reply)
        ensures { self.new ≡ modes_told reply.now self.old }
    {
        if let Reply::Control(
            ControlReply::Standing {
                mode,
                standby,
                sole,
                ..
            },
        ) = *reply
        {
            self.mode = mode;
            self.standby = standby;
            self.sole = sole;
        }
    }
}

impl PathEnd {
    /// The end can note something to the peer: both SYNs are acknowledged, and it may send a DSS.
    pub(crate) fn may_note(&self) -> bool
        ensures { result ≡ may_note self.now }
    {
        is_connected(self.tcp.state()) && self.modes.clear && !self.modes.identity
    }

    /// What the side has to note by this path is kept; a dead end does nothing with it. At an error all is as it was.
    fn take_notice_reply(&mut self, reply: &Reply) -> Result<(), AllocError>
        ensures ok { OnOk result (self.new ≡
            record self.old { notices = notices_told reply.now self.old }) }
        ensures err { OnErr result (self.new ≡ self.old) }
        ensures plain { queues_in reply.now self.old ≡ false → IsOk result }
    {
        let (dead, may) = (self.tcp.state() == State::Dead, self.may_note());
        match *reply {
            Reply::Control(ControlReply::Standing { notice, .. }) if !dead => {
                self.notices.take(notice, may)
            }
            _ => Ok(()),
        }
    }

    /// The side told how it stands. Any other reply changes nothing.
    ///
    /// # Errors
    ///
    /// Only where there is no memory, and something is to be noted to the peer; all is then as it was.
    pub(crate) fn look(&mut self, reply: &Reply) -> Result<(), AllocError>
        ensures ok { OnOk result (self.new ≡ after_look reply.now self.old) }
        ensures err { OnErr result (self.new ≡ self.old) }
        ensures plain { queues_in reply.now self.old ≡ false → IsOk result }
    {
        self.take_notice_reply(reply)?;
        self.modes.tell(reply);
        Ok(())
    }

    /// The edge of the window that a segment could tell, in steps of 32 octets.
    fn tellable_edge(&self) -> u64
        ensures value { result ≡ tellable_edge self.now }
        ensures bound { result ≤ 2 ^ 62 + 2 ^ 21 }
    {
        self.receiving.next() + u64::from(window_told(false, self.receiving.window()))
    }

    /// The window grew by half the buffer, or by two segments.
    fn has_grown(&self, profile: &Profile) -> bool
        ensures { result ≡ has_grown profile.now self.now }
    {
        let growth = self
            .tellable_edge()
            .saturating_sub(self.receiving.told_edge());
        profile.buffer().min(4 * u32::from(profile.mss())) as u64 <= 2 * growth
    }

    /// An acknowledgement is to tell the window.
    pub(crate) fn is_update_due(&self, profile: &Profile) -> bool
        ensures { result ≡ is_update_due profile.now self.now }
    {
        is_connected(self.tcp.state()) && self.has_grown(profile)
    }

    /// The reassembly book told what is to be acknowledged, and nothing is left to be asked.
    pub(crate) fn take_ack_out_reply(&mut self, reply: &Reply)
        requires { IsAckBounded reply.now }
        ensures { self.new ≡ after_ack_out reply.now self.old }
    {
        if let Reply::Reassembly(ReassemblyReply::Ack { next, window }) = *reply {
            self.receiving.tell_window(next, window as u32);
        }
        self.treated.asked = false;
    }
}

impl PathState {
    /// The control book is asked how the side stands.
    pub(crate) fn look_ask(&self, side: Side) -> Ask
        ensures value { result ≡ look_ask side self.now }
        ensures able { CanBeAsked result }
    {
        Ask::Control(
            side,
            ControlCall::Look {
                path: self.number(),
            },
        )
    }

    /// The side told how it stands, and perhaps what is to be noted to the peer. At an error all is as it was.
    ///
    /// # Errors
    ///
    /// Only where there is no memory, and something is to be noted.
    pub(crate) fn look(&mut self, side: Side, reply: &Reply) -> Result<(), AllocError>
        ensures ok { OnOk result (self.new ≡ answered_look side reply.now self.old) }
        ensures err { OnErr result (self.new ≡ self.old) }
        ensures plain { queues_in reply.now (end_at side self.old) ≡ false → IsOk result }
    {
        self.end_mut(side).look(reply)?;
        self.done();
        Ok(())
    }

    /// The reassembly book told what is to be acknowledged, and the first duty is done.
    pub(crate) fn ack_out(&mut self, side: Side, reply: &Reply)
        requires { IsAckBounded reply.now }
        ensures { self.new ≡ answered_ack_out side reply.now (left self.old) self.old }
    {
        self.end_mut(side).take_ack_out_reply(reply);
        self.done();
    }

    /// The reassembly book told what is to be acknowledged, and the break goes on.
    pub(crate) fn ack_out_breaking(&mut self, side: Side, reply: &Reply, reason: u8)
        requires { IsAckBounded reply.now }
        ensures { self.new ≡ answered_ack_out side reply.now (resets side reason) self.old }
    {
        self.end_mut(side).take_ack_out_reply(reply);
        self.sets_about(Agenda::resets(side, reason));
    }
}
