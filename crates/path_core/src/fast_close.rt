//! The fast close at an end (RFC 8684, section 3.5): when it sends MP_FASTCLOSE, and when it is reset as its side told it.

ghost use Rattle.std.specs.Prelude.{◌≡◌, OnOk, OnErr};
ghost use Rattle.actor_desk.specs.Kinds.{CanBeAsked};
ghost use Rattle.path_core.specs.FastClose.{is_silent, leaves_silently, resets_noted, is_fast_close_due, is_stopped_by, abort_send_ask, abort_receive_ask, answered_leave_noted, answered_fast_close, answered_fast_heard};
ghost use Rattle.path_core.specs.Octets.{octets};

use crate::end::PathEnd;
use crate::said::SegmentKind;
use crate::standing::is_connected;
use crate::state::PathState;
use actor_desk::{Ask, Reply};
use control_book::ControlReply;
use path_agenda::{Agenda, AskDuty, Duty};
use reassembly_book::ReassemblyCall;
use send_book::SendCall;
use sides::Side;
use std::alloc::AllocError;
use subflow_tcp::{Occasion, State};

/// An end that waits or listens.
fn is_silent(state: State) -> bool
    ensures { result ≡ is_silent state }
{
    matches!(state, State::Waiting | State::Listen)
}

/// The key that the peer showed is the side's own.
fn is_stopped_by(reply: &Reply) -> bool
    ensures { result ≡ is_stopped_by reply.now }
{
    matches!(reply, Reply::Control(ControlReply::Stopped))
}

/// The send book is told that the peer closed the connection at once.
pub(crate) fn abort_send_ask(side: Side) -> Ask
    ensures value { result ≡ abort_send_ask side }
    ensures able { CanBeAsked result }
{
    Ask::Send(side, SendCall::Abort)
}

/// The reassembly book is told that the peer aborted the connection.
pub(crate) fn abort_receive_ask(side: Side) -> Ask
    ensures value { result ≡ abort_receive_ask side }
    ensures able { CanBeAsked result }
{
    Ask::Reassembly(side, ReassemblyCall::Abort { by_peer: true })
}

impl PathEnd {
    /// The side told that the end is to be reset, and it waits or listens: it dies without a segment.
    pub(crate) fn leaves_silently(&self) -> bool
        ensures { result ≡ leaves_silently self.now }
    {
        is_silent(self.tcp.state()) && self.notices.reset
    }

    /// The side told that the end is to be reset, and it neither waits nor listens nor is dead: it sends a reset.
    pub(crate) fn resets_noted(&self) -> bool
        ensures { result ≡ resets_noted self.now }
    {
        !self.tcp.state().is_closed_to_segments() && self.notices.reset
    }

    /// MP_FASTCLOSE is due: it was never sent, both SYNs are acknowledged, and the end may send a DSS, or fell back.
    pub(crate) fn is_fast_close_due(&self) -> bool
        ensures { result ≡ is_fast_close_due self.now }
    {
        is_connected(self.tcp.state())
            && self.notices.is_carried()
            && (self.modes.clear || self.modes.identity)
    }
}

impl PathState {
    /// An end that its side told to be reset dies without a segment, and what follows stays to be done.
    pub(crate) fn leave_silently(&mut self, side: Side)
        ensures { self.new ≡ answered_leave_noted side self.old }
    {
        self.end_mut(side).die();
        self.turns_to(Duty::Ask(AskDuty::Dead(side)));
    }

    /// MP_FASTCLOSE is sent. At an error all is as it was.
    pub(crate) fn send_fast_close(&mut self, side: Side) -> Result<(), AllocError>
        ensures ok { OnOk result (self.new ≡ answered_fast_close octets side self.old) }
        ensures err { OnErr result (self.new ≡ self.old) }
    {
        self.send_and_leave(side, SegmentKind::FastClose, Occasion::Ack)?;
        self.end_mut(side).notices.fast_closed = true;
        Ok(())
    }

    /// Where the peer showed the side's key both books are told, and the end is reset; another key is passed over.
    pub(crate) fn answer_fast_heard(&mut self, side: Side, reply: &Reply)
        ensures { self.new ≡ answered_fast_heard side reply.now self.old }
    {
        if is_stopped_by(reply) {
            self.sets_about(Agenda::stops(side));
        } else {
            self.done();
        }
    }
}
