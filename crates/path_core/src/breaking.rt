//! How an end dies: by a break, by its sixth expiry, by a line of the script; and the reset that refuses a path (RFC 8684,
//! section 3.6).

ghost use Rattle.std.specs.Prelude.{◌≡◌, ◌-◌, false, if◌then◌else◌, ◌++◌, [], Some, ◌∷◌, None, OnOk, OnErr};
ghost use Rattle.subflow_tcp.specs.States.{is_dead};
ghost use Rattle.actor_desk.specs.Kinds.{CanBeAsked};
ghost use Rattle.path_agenda.specs.Agenda.{leaves, rest_of_turn};
ghost use Rattle.path_agenda.specs.Words.{replaced};
ghost use Rattle.path_agenda.specs.declared.duty.Duty.TheVariants as duties;
ghost use Rattle.path_agenda.specs.declared.duty.AskDuty.TheVariants as ask_duties;
ghost use Rattle.sides.specs.declared.side.Side.TheVariants.{A, B};
ghost use Rattle.path_core.specs.Breaking.{died_unless_dead, reset_on, break_ask, answered_break, return_ask, dead_ask, path_died};
ghost use Rattle.path_core.specs.Octets.{octets};
ghost use Rattle.path_core.specs.Replies.{IsAckBounded};

use crate::end::PathEnd;
use crate::said::SegmentKind;
use crate::standing::ack_out_ask;
use crate::state::PathState;
use actor_desk::{Ask, Reply};
use control_book::ControlCall;
use path_agenda::{Agenda, AskDuty, Duty, StepDuty};
use send_book::SendCall;
use sides::Side;
use std::alloc::AllocError;

/// An error specific to Multipath TCP.
pub(crate) const MPTCP_SPECIFIC: u8 = 1;

/// A middlebox interferes.
pub(crate) const MIDDLEBOX: u8 = 6;

/// Each end that wasn't dead leaves.
fn all_leave(a_is_dead: bool, b_is_dead: bool) -> Agenda
    ensures { result ≡
        (if a_is_dead then [] else duties.Ask (ask_duties.Leave A) ∷ []) ++
        ((if b_is_dead then [] else duties.Ask (ask_duties.Leave B) ∷ []) ++ rest_of_turn) }
{
    let (a, b) = (
        Duty::Ask(AskDuty::Leave(Side::A)),
        Duty::Ask(AskDuty::Leave(Side::B)),
    );
    match (a_is_dead, b_is_dead) {
        (false, false) => Agenda::of(&[a, b, Duty::Step(StepDuty::Events), Duty::End]),
        (false, true) => Agenda::of(&[a, Duty::Step(StepDuty::Events), Duty::End]),
        (true, false) => Agenda::of(&[b, Duty::Step(StepDuty::Events), Duty::End]),
        (true, true) => Agenda::rest_of_turn(),
    }
}

impl PathEnd {
    /// Nothing is sent, kept or awaited any more, unless it was dead before.
    pub(crate) fn die_unless_dead(&mut self)
        ensures { self.new ≡ died_unless_dead self.old }
    {
        if !self.is_dead() {
            self.die();
        }
    }
}

impl PathState {
    /// What the end holds is given back.
    pub(crate) fn return_ask(&self, side: Side) -> Ask
        ensures value { result ≡ return_ask side self.now }
        ensures able { CanBeAsked result }
    {
        Ask::Send(
            side,
            SendCall::Return {
                path: self.number(),
            },
        )
    }

    /// The control book is told that the end is dead.
    pub(crate) fn dead_ask(&self, side: Side) -> Ask
        ensures value { result ≡ dead_ask side self.now }
        ensures able { CanBeAsked result }
    {
        Ask::Control(
            side,
            ControlCall::Dead {
                path: self.number(),
            },
        )
    }

    /// The reset is sent, and the end is dead. At an error all is as it was.
    pub(crate) fn send_reset(&mut self, side: Side, reason: Option<u8>) -> Result<(), AllocError>
        ensures ok { OnOk result (self.new ≡ reset_on octets side reason (leaves side) self.old) }
        ensures err { OnErr result (self.new ≡ self.old) }
    {
        self.hand(side, SegmentKind::Reset { reason })?;
        self.end_mut(side).die();
        self.sets_about(Agenda::leaves(side));
        Ok(())
    }

    /// The reset of an end that gives up is sent, and the end is dead: it leaves in the place of that duty, and what follows stays to
    /// be done. At an error all is as it was.
    pub(crate) fn give_up(&mut self, side: Side) -> Result<(), AllocError>
        ensures ok { OnOk result (self.new ≡
            reset_on octets side None
            (replaced (duties.Ask (ask_duties.Leave side)) self.old.agenda) self.old) }
        ensures err { OnErr result (self.new ≡ self.old) }
    {
        self.hand(side, SegmentKind::Reset { reason: None })?;
        self.end_mut(side).die();
        self.turns_to(Duty::Ask(AskDuty::Leave(side)));
        Ok(())
    }

    /// The first step of a break: where bytes or an end were told, what is to be acknowledged is asked once more.
    pub(crate) fn break_ask(&self, side: Side, reason: u8) -> Ask
        ensures value { result ≡ break_ask octets side reason self.now }
        ensures able { CanBeAsked result }
    {
        if self.end(side).treated.asked {
            return ack_out_ask(side);
        }
        self.sent_step(
            side,
            SegmentKind::Reset {
                reason: Some(reason),
            },
        )
    }

    /// The first step of a break is made: the reply tells what is to be acknowledged, or the reset was sent. At an error all is as
    /// it was.
    pub(crate) fn answer_break(
        &mut self,
        side: Side,
        reason: u8,
        reply: &Reply,
    ) -> Result<(), AllocError>
        requires { IsAckBounded reply.now }
        ensures ok { OnOk result (self.new ≡ answered_break octets side reason reply.now self.old) }
        ensures err { OnErr result (self.new ≡ self.old) }
    {
        if self.end(side).treated.asked {
            self.ack_out_breaking(side, reply, reason);
            return Ok(());
        }
        self.send_reset(side, Some(reason))
    }

    /// The path dies: what is under way is lost, and both ends die, A's first.
    pub(crate) fn die(&mut self)
        ensures { self.new ≡ path_died self.old }
    {
        let agenda = all_leave(self.a.is_dead(), self.b.is_dead());
        self.link.cut();
        self.a.die_unless_dead();
        self.b.die_unless_dead();
        self.sets_about(agenda);
    }
}
